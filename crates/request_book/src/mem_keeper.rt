//! A keeper in memory.
ghost use Rattle.std.specs.Prelude.{◌≡◌, [], IfOk, Some, refl, ℕ};
ghost use Rattle.std.specs.Option.{option_copied};
ghost use Rattle.request_book.specs.Content.{Content, entries_from, entry_of};
ghost use Rattle.request_book.specs.Inner.Only.{is_only};

use crate::entries::Entries;
use crate::entry::Entry;
use crate::keeper::{Found, KeepFault, Keeper};
use crate::machine::Machine;
use ring_words::{Hour, Key, Limits};
use std::alloc::{AllocError, Global};
use std::marker::Model;

/// The same entry, in memory of its own.
fn copy_entry<M: Machine>(
    entry: &Entry<M::Command, M::Reply>,
) -> Result<Entry<M::Command, M::Reply>, AllocError>
    ensures { IfOk result (λ copy. copy ≡ entry.now) }
{
    let key = entry.key.clone()?;
    let command = M::copy(&entry.command)?;
    Ok(Entry {
        key,
        hour: entry.hour,
        command,
        reply: entry.reply,
    })
}

/// The same entries, in memory of their own.
fn copy_entries<M: Machine>(
    alloc: Global,
    entries: &[Entry<M::Command, M::Reply>],
) -> Result<Vec<Entry<M::Command, M::Reply>>, AllocError>
    ensures { IfOk result (λ copies. copies.items ≡ entries.now) }
{
    let mut copies = Vec::new(alloc);
    'copies: for entry in entries {
        copies.push(copy_entry::<M>(entry)?)?;
    }
    Ok(copies)
}

/// A state beside its book, in memory. Contracts see its content, and the number of entries that it
/// may have.
#[derive(Drop)]
pub struct MemKeeper<S, C, R> {
    state: S,
    entries: Entries<C, R>,
    hour: Hour,
    limit: u32,
}

impl<S, C, R> Model for MemKeeper<S, C, R> {
    ghost Value = { Content S C R × ℕ };

    ghost view = { λ k. (record { state = k.state; book = k.entries; hour = k.hour }, k.limit) };
}

impl<S, C, R> MemKeeper<S, C, R> {
    /// Begins with this state, an empty book and hour 0, and keeps at most `limits.numbers`
    /// requests.
    pub fn new(alloc: Global, state: S, limits: Limits) -> Self
        ensures { result ≡ (record { state = state; book = []; hour = 0 }, limits.numbers) }
    {
        MemKeeper {
            state,
            entries: Entries::new(alloc),
            hour: 0,
            limit: limits.numbers,
        }
    }
}

impl<M: Machine> Keeper<M> for MemKeeper<M::State, M::Command, M::Reply> {
    ghost content = { λ k. k.0 };

    ghost sound = { λ _. Unit {0} };

    ghost fault_count = { λ _. 0 };

    ghost limit = { λ k. k.1 };

    ghost is_loaded = { λ _. Unit {0} };

    ghost may_leave = { λ k left. left ≡ Some k.0 };

    ghost settled = { λ k _ _. is_only (λ left. left ≡ Some k.0) k.0 refl (λ left same. same) };

    fn faults(&self) -> u64 {
        0
    }

    fn look(&mut self, key: &Key, command: &M::Command) -> Result<Found<M::Reply>, KeepFault> {
        match self.entries.find(key) {
            None => Ok(Found::New),
            Some(entry) => {
                if M::same(&entry.command, command) {
                    Ok(Found::Same(entry.reply))
                } else {
                    Ok(Found::Other)
                }
            }
        }
    }

    fn is_full(&mut self) -> Result<bool, KeepFault> {
        Ok(self.entries.len() >= self.limit as usize)
    }

    fn entries(
        &mut self,
        alloc: Global,
        from: u32,
        most: u32,
    ) -> Result<Vec<Entry<M::Command, M::Reply>>, KeepFault> {
        let page = self.entries.page(from as usize, most as usize);
        Ok(copy_entries::<M>(alloc, page)?)
    }

    fn count(&self) -> usize {
        self.entries.len()
    }

    fn most(&self) -> u32 {
        self.limit
    }

    fn hour(&mut self) -> Result<Hour, KeepFault> {
        Ok(self.hour)
    }

    fn load(&mut self) -> Result<(), KeepFault> {
        Ok(())
    }

    fn state(&self) -> &M::State {
        &self.state
    }

    fn commit(
        &mut self,
        key: Key,
        hour: Hour,
        command: M::Command,
        reply: M::Reply,
        state: M::State,
    ) -> Result<(), KeepFault> {
        let entry = Entry {
            key,
            hour,
            command,
            reply,
        };
        if self.entries.push(entry).is_err() {
            return Err(KeepFault::NoMemory);
        }
        self.state = state;
        self.hour = hour;
        Ok(())
    }
}
