//! The callers of a book, each with the greatest number that it used.
ghost use Rattle.std.specs.Prelude.{◌≡◌, ◌↔◌, [], IsTrue, List, OnErr, OnOk, ℕ};
ghost use Rattle.store_rows.specs.Callers.{IsBeyond, next_number, next_with};

use ring_words::{Caller, Key};
use std::alloc::{AllocError, Global};
use std::collections::BTreeMap;
use std::marker::Model;

/// Callers, each with the greatest number that it used. Contracts see them by rising names.
#[derive(Drop)]
pub struct Callers {
    greatest: BTreeMap<Caller, u32>,
}

impl Model for Callers {
    ghost use Rattle.std.specs.Prelude.{List, ℕ};

    ghost Value = { List (List ℕ × ℕ) };

    ghost view = { λ c. c.greatest.entries };
}

impl Callers {
    /// Callers of whom none used a number.
    pub fn new(alloc: Global) -> Callers
        ensures { result ≡ [] }
    {
        Callers {
            greatest: BTreeMap::new(alloc),
        }
    }

    /// Whether the number of a key is beyond all that its caller used.
    pub fn is_beyond(&self, key: &Key) -> bool
        ensures { IsTrue result ↔ IsBeyond key.now self.now }
    {
        match self.greatest.get(&key.caller) {
            Some(greatest) => *greatest < key.number,
            None => true,
        }
    }

    /// Notes that a key is used.
    pub fn note(&mut self, key: &Key) -> Result<(), AllocError>
        ensures ok { OnOk result ((caller : List ℕ) → next_number self.new caller ≡ next_with
            key.now self.old caller) }
        ensures err { OnErr result (self.new ≡ self.old) }
    {
        if let Some(greatest) = self.greatest.get_mut(&key.caller) {
            *greatest = key.number.max(*greatest);
            return Ok(());
        }
        let caller = key.caller.clone()?;
        self.greatest.insert(caller, key.number)?;
        Ok(())
    }
}
