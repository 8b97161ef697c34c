//! Whether two schemas are the same, for schemas of plain tables.

ghost use Rattle.std.specs.Prelude.{◌≡◌, ◌↔◌, [], All, IfOk, IsTrue};
ghost use Rattle.sqlite.specs.declared.types.Value.TheVariants.{Null};
ghost use Rattle.store_tables.specs.Inner.Matching.{IsPlainSchema, IsPlainTable};

use sqlite_items::Items;
use sqlite_schema::code::Terms;
use sqlite_schema::schema::{Column, Index, Reference, Schema, Stamps, Table};
use sqlite_value::keys::Order;
use sqlite_value::value::{Bytes, Value};
use std::alloc::{AllocError, Global};

/// A test that is true only of equal values, and of those where they are such as plain tables have.
trait Same {
    /// Whether it is such as plain tables have.
    ghost is_plain: { Self → Type 0 };

    fn is_same(&self, other: &Self, alloc: Global) -> Result<bool, AllocError>
        ensures same { IfOk result (λ same. IsTrue same → self.now ≡ other.now) }
        ensures plain { IfOk result (λ same. is_plain self.now → self.now ≡ other.now
            → IsTrue same) };
}

/// Whether two lists are the same, item by item.
fn all_same<T: Same>(alloc: Global, first: &[T], second: &[T]) -> Result<bool, AllocError>
    ensures same { IfOk result (λ same. IsTrue same → first.now ≡ second.now) }
    ensures plain { IfOk result (λ same. All T.is_plain first.now → first.now ≡ second.now
        → IsTrue same) }
{
    if first.len() != second.len() {
        return Ok(false);
    }
    'items: for (at, item) in first.iter().enumerate() {
        if !item.is_same(&second[at], alloc)? {
            return Ok(false);
        }
    }
    Ok(true)
}

/// Whether there are no expressions.
fn are_none(alloc: Global, terms: &Terms) -> Result<bool, AllocError>
    ensures { IfOk result (λ none. IsTrue none ↔ (terms.now ≡ [])) }
{
    let lent = terms.lend(alloc)?;
    Ok(lent.roots.is_empty())
}

impl Same for Bytes {
    ghost is_plain = { λ _. Unit {0} };

    fn is_same(&self, other: &Bytes, _: Global) -> Result<bool, AllocError> {
        Ok(self.as_slice() == other.as_slice())
    }
}

impl Same for Order {
    ghost is_plain = { λ _. Unit {0} };

    fn is_same(&self, other: &Order, _: Global) -> Result<bool, AllocError> {
        Ok(self.digits == other.digits)
    }
}

impl Same for Items<usize> {
    ghost is_plain = { λ _. Unit {0} };

    fn is_same(&self, other: &Items<usize>, _: Global) -> Result<bool, AllocError> {
        Ok(self.as_slice() == other.as_slice())
    }
}

impl Same for Column {
    ghost is_plain = { λ c. c.default ≡ Null };

    fn is_same(&self, other: &Column, alloc: Global) -> Result<bool, AllocError> {
        let no_defaults = matches!((&self.default, &other.default), (Value::Null, Value::Null));
        Ok(
            no_defaults
                && self.kind == other.kind
                && self.is_strict == other.is_strict
                && self.not_null == other.not_null
                && self.collation == other.collation
                && self.name.is_same(&other.name, alloc)?,
        )
    }
}

impl Same for Reference {
    ghost is_plain = { λ _. Unit {0} };

    fn is_same(&self, other: &Reference, alloc: Global) -> Result<bool, AllocError> {
        Ok(
            self.on_delete == other.on_delete
                && self.on_update == other.on_update
                && self.is_deferred == other.is_deferred
                && self.parent.is_same(&other.parent, alloc)?
                && self.columns.is_same(&other.columns, alloc)?
                && all_same(
                    alloc,
                    self.parent_columns.as_slice(),
                    other.parent_columns.as_slice(),
                )?,
        )
    }
}

impl Same for Stamps {
    ghost is_plain = { λ s. s.terms ≡ [] };

    fn is_same(&self, other: &Stamps, alloc: Global) -> Result<bool, AllocError> {
        Ok(
            self.places.is_same(&other.places, alloc)?
                && are_none(alloc, &self.terms)?
                && are_none(alloc, &other.terms)?
                && all_same(alloc, self.formats.as_slice(), other.formats.as_slice())?,
        )
    }
}

/// Whether two tables have the same columns and keys.
fn have_same_columns(alloc: Global, first: &Table, second: &Table) -> Result<bool, AllocError>
    ensures same { IfOk result (λ same. IsTrue same → (first.now.columns ≡ second.now.columns)
        × (first.now.primary ≡ second.now.primary) × (first.now.uniques ≡ second.now.uniques)
        × (first.now.orders ≡ second.now.orders) × (first.now.references ≡ second.now.references)) }
    ensures plain { IfOk result (λ same. IsPlainTable first.now → first.now ≡ second.now
        → IsTrue same) }
{
    Ok(
        first.primary.is_same(&second.primary, alloc)?
            && all_same(alloc, first.columns.as_slice(), second.columns.as_slice())?
            && all_same(alloc, first.uniques.as_slice(), second.uniques.as_slice())?
            && all_same(alloc, first.orders.as_slice(), second.orders.as_slice())?
            && all_same(
                alloc,
                first.references.as_slice(),
                second.references.as_slice(),
            )?,
    )
}

/// Whether two tables have the same defaults, and neither has a CHECK or a rowid that a column
/// names.
fn have_same_rules(alloc: Global, first: &Table, second: &Table) -> Result<bool, AllocError>
    ensures same { IfOk result (λ same. IsTrue same → (first.now.key ≡ second.now.key)
        × (first.now.checks ≡ second.now.checks) × (first.now.computed ≡ second.now.computed)
        × (first.now.stamps ≡ second.now.stamps) × (first.now.is_counted ≡ second.now.is_counted)) }
    ensures plain { IfOk result (λ same. IsPlainTable first.now → first.now ≡ second.now
        → IsTrue same) }
{
    Ok(
        first.key.is_none()
            && second.key.is_none()
            && first.is_counted == second.is_counted
            && are_none(alloc, &first.checks)?
            && are_none(alloc, &second.checks)?
            && first.computed.is_same(&second.computed, alloc)?
            && first.stamps.is_same(&second.stamps, alloc)?,
    )
}

impl Same for Table {
    ghost is_plain = { IsPlainTable };

    fn is_same(&self, other: &Table, alloc: Global) -> Result<bool, AllocError> {
        Ok(
            self.tree == other.tree
                && self.name.is_same(&other.name, alloc)?
                && have_same_columns(alloc, self, other)?
                && have_same_rules(alloc, self, other)?,
        )
    }
}

impl Same for Index {
    ghost is_plain = { λ _. Unit {0} };

    fn is_same(&self, other: &Index, alloc: Global) -> Result<bool, AllocError> {
        Ok(
            self.tree == other.tree
                && self.table == other.table
                && self.is_unique == other.is_unique
                && self.name.is_same(&other.name, alloc)?
                && self.columns.is_same(&other.columns, alloc)?
                && self.order.is_same(&other.order, alloc)?,
        )
    }
}

/// Whether two schemas are the same, of plain tables and their indexes alone.
pub(crate) fn are_same(alloc: Global, first: &Schema, second: &Schema) -> Result<bool, AllocError>
    ensures same { IfOk result (λ same. IsTrue same → first.now ≡ second.now) }
    ensures plain { IfOk result (λ same. IsPlainSchema first.now → first.now ≡ second.now
        → IsTrue same) }
{
    Ok(
        first.views.as_slice().is_empty()
            && second.views.as_slice().is_empty()
            && all_same(alloc, first.tables.as_slice(), second.tables.as_slice())?
            && all_same(alloc, first.indexes.as_slice(), second.indexes.as_slice())?,
    )
}
