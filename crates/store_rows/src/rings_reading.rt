//! All rings, read from their rows.
ghost use Rattle.std.specs.Prelude.{◌≡◌, ◌<◌, ◌++◌, ◌∷◌, [], All, IfErr, IfOk, length, true};
ghost use Rattle.ring_words.specs.Limits.{most_rings};
ghost use Rattle.ring_model.specs.Rings.{is_before};
ghost use Rattle.ring_words.specs.declared.spelling.SpellingFault.TheVariants.{NoMemory};
ghost use Rattle.store_rows.specs.Inner.Found.{ReadsRow};
ghost use Rattle.store_rows.specs.Inner.Parted.{SayTables};

use crate::naming::RingTables;
use crate::ring_reading::read_ring;
use ring_model::{Ring, Rings};
use ring_words::{MOST_RINGS, RingName, SpellingFault, read_name};
use std::alloc::Global;
use store_model::RingRow;

/// Whether a name comes after all names of rings.
fn comes_last(rings: &Rings, name: &RingName) -> bool
    ensures { All (λ e. is_before e.0 name.now ≡ true) rings.now → result ≡ true }
{
    match rings.list().last() {
        Some(last) => last.0 < *name,
        None => true,
    }
}

/// The rings and one more behind them. Bad where there are as many as there may be, or where its
/// name does not come last.
fn with_last(rings: &Rings, name: RingName, ring: Ring) -> Result<Rings, SpellingFault>
    ensures last { IfOk result (λ new. All (λ e. is_before e.0 name ≡ true) rings.now
        → new ≡ rings.now ++ (name, ring) ∷ []) }
    ensures memory { IfErr result (λ fault. length rings.now < most_rings
        → All (λ e. is_before e.0 name ≡ true) rings.now → fault ≡ NoMemory) }
{
    if rings.list().len() >= MOST_RINGS || !comes_last(rings, &name) {
        return Err(SpellingFault::Bad);
    }
    Ok(rings.with(name, ring)?)
}

/// The rings of rows by rising name, in a store of schema 1 or of schema 2.
pub(crate) fn read_rings(
    alloc: Global,
    is_first: bool,
    rows: &[RingRow],
    tables: RingTables<'_>,
) -> Result<Rings, SpellingFault>
    ensures { ReadsRow (λ rings. rings) (SayTables is_first rows.now tables.entry) result }
{
    let mut rings = Rings::new(alloc);
    let mut rest = tables;
    for row in rows {
        let (front, behind) = rest.split(row.name.as_str());
        let name = read_name(alloc, row.name.as_str())?;
        rings = with_last(&rings, name, read_ring(alloc, is_first, row, &front)?)?;
        rest = behind;
    }
    if !rest.is_empty() {
        return Err(SpellingFault::Bad);
    }
    Ok(rings)
}
