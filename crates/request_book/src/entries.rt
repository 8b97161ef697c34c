//! The entries of a book in memory, in the order of the decisions, each found by its key.
ghost use Rattle.std.specs.Prelude.{◌++◌, ◌≡◌, ◌∷◌, [], None, OnErr, OnOk, drop, length, take};
ghost use Rattle.std.specs.Option.{option_copied};
ghost use Rattle.request_book.specs.Content.{entries_from, entry_of};

use crate::entry::Entry;
use ring_words::Key;
use std::alloc::{AllocError, Global};
use std::collections::BTreeMap;
use std::marker::Model;

/// The first ones, at most so many.
#[tactic(auto, using(crate::proofs::Pages::first_are))]
fn first_of<T>(list: &[T], most: usize) -> &[T]
    ensures { result.now ≡ take most list.now }
{
    &list[..list.len().min(most)]
}

/// Those behind the first so many.
#[tactic(auto, using(crate::proofs::Pages::others_are))]
fn behind<T>(list: &[T], count: usize) -> &[T]
    ensures { result.now ≡ drop count list.now }
{
    &list[list.len().min(count)..]
}

/// The entries of a book, no two of one key. Contracts see them in their order.
#[derive(Drop)]
pub(crate) struct Entries<C, R> {
    list: Vec<Entry<C, R>>,
    /// Where each key's entry stands in the list.
    places: BTreeMap<Key, usize>,
}

impl<C, R> Model for Entries<C, R> {
    ghost use Rattle.std.specs.Prelude.{List};
    ghost use Rattle.request_book.specs.declared.entry.Entry.{Entry};
    ghost use Rattle.request_book.specs.Inner.Index.{IsIndex};

    ghost Value = { List (Entry C R) };

    ghost view = { λ e. e.list.items };

    ghost invariant = { λ e. IsIndex e.places e.list.items };
}

impl<C, R> Entries<C, R> {
    /// No entries.
    pub(crate) fn new(alloc: Global) -> Self
        ensures { result ≡ [] }
    {
        Entries {
            list: Vec::new(alloc),
            places: BTreeMap::new(alloc),
        }
    }

    /// How many there are.
    pub(crate) fn len(&self) -> usize
        ensures { result ≡ length self.now }
    {
        self.list.len()
    }

    /// The entry of a key.
    pub(crate) fn find(&self, key: &Key) -> Option<&Entry<C, R>>
        ensures { option_copied result ≡ entry_of key.now self.now }
    {
        match self.places.get(key) {
            Some(place) => Some(&self.list[*place]),
            None => None,
        }
    }

    /// Those from a place on, at most so many.
    pub(crate) fn page(&self, from: usize, most: usize) -> &[Entry<C, R>]
        ensures { result.now ≡ entries_from from most self.now }
    {
        first_of(behind(self.list.as_slice(), from), most)
    }

    /// Adds an entry of a new key at the end.
    pub(crate) fn push(&mut self, entry: Entry<C, R>) -> Result<(), AllocError>
    where
        C: Drop,
        R: Drop,
        requires { entry_of entry.key self.old ≡ None }
        ensures ok { OnOk result (self.new ≡ self.old ++ entry ∷ []) }
        ensures err { OnErr result (self.new ≡ self.old) }
    {
        self.list.reserve(1)?;
        let key = entry.key.clone()?;
        self.places.insert(key, self.list.len())?;
        self.list.push_reserved(entry);
        Ok(())
    }
}
