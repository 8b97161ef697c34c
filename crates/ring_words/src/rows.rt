//! The rows of an import.
ghost use Rattle.std.specs.Prelude.{◌≡◌, ◌↔◌, IfOk, IsTrue};
ghost use Rattle.std.specs.Cmp.Lexicographic.{pointwise};
ghost use Rattle.std.specs.Cmp.{partial_equiv_from_equiv};
ghost use Rattle.ring_words.specs.Rows.{is_same_row};
ghost use Rattle.ring_words.specs.Inner.SameRows.{rows_equiv};

use crate::device::Row;
use std::alloc::AllocError;
use std::marker::Model;

/// The rows of an import. Contracts see their list.
#[derive(Drop)]
pub struct Rows {
    rows: Vec<Row>,
}

impl Model for Rows {
    ghost use Rattle.std.specs.Prelude.{List};
    ghost use Rattle.ring_words.specs.declared.device.Row.{Row};

    ghost Value = { List Row };

    ghost view = { λ r. r.rows.items };
}

impl Rows {
    /// These rows.
    pub fn new(rows: Vec<Row>) -> Rows
        ensures { result ≡ rows.items }
    {
        Rows { rows }
    }

    /// Whether two lists of rows are one.
    #[tactic(auto, using(crate::proofs::AlikeRows::one_list))]
    pub(crate) fn is(&self, other: &Rows) -> bool
        ensures { IsTrue result ↔ (self.now ≡ other.now) }
    {
        self == other
    }

    /// The same rows, in memory of their own.
    pub(crate) fn copy(&self) -> Result<Rows, AllocError>
        ensures { IfOk result (λ copy. copy ≡ self.now) }
    {
        let rows = self.rows.clone()?;
        Ok(Rows { rows })
    }

    /// The rows, in their order.
    pub fn as_slice(&self) -> &[Row]
        ensures { result.now ≡ self.now }
    {
        self.rows.as_slice()
    }
}

impl PartialEq for Rows {
    ghost eq = { pointwise is_same_row };

    ghost laws = { partial_equiv_from_equiv rows_equiv };

    fn eq(&self, other: &Rows) -> bool {
        self.rows == other.rows
    }
}

impl Eq for Rows {
    ghost laws = { rows_equiv };
}
