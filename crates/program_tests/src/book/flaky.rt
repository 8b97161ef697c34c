//! A keeper whose store fails in one call.
ghost use Rattle.std.specs.Prelude.{◌≡◌, Some, cond, false, refl, true, ℕ};
ghost use Rattle.request_book.specs.Inner.Only.{is_only};

use super::counter::{Change, Counted, Counter};
use request_book::{Entry, Found, KeepFault, Keeper};
use ring_words::{Hour, Key};
use std::alloc::Global;

/// A keeper over another one. Its store fails once, after so many calls.
#[derive(Drop)]
pub struct Flaky<K> {
    kept: K,
    left: u64,
    keeps_last: bool,
    has_failed: bool,
}

impl<K> Flaky<K> {
    /// Lets `left` calls go well. If the call that fails is a commit, `keeps_last` says whether it
    /// is kept.
    pub fn new(kept: K, left: u64, keeps_last: bool) -> Self
        ensures kept { result.kept ≡ kept }
        ensures whole { result.has_failed ≡ false }
    {
        Flaky {
            kept,
            left,
            keeps_last,
            has_failed: false,
        }
    }

    /// The keeper below, as a store that was opened again.
    pub fn into_kept(self) -> K
        ensures { result ≡ self.kept }
    {
        self.kept
    }

    /// Counts a call, and tells whether the store fails in it.
    fn fails_now(&mut self) -> bool
        ensures kept { self.new.kept ≡ self.old.kept }
        ensures failed { self.new.has_failed ≡ cond result true self.old.has_failed }
    {
        if self.left == 0 {
            self.has_failed = true;
            return true;
        }
        self.left -= 1;
        false
    }
}

impl<K: Keeper<Counter>> Keeper<Counter> for Flaky<K> {
    ghost content = { λ k. K.content k.kept };

    ghost sound = { λ k. K.sound k.kept };

    ghost fault_count = { λ k. cond k.has_failed 1 (K.fault_count k.kept) };

    ghost limit = { λ k. K.limit k.kept };

    ghost is_loaded = { λ k. K.is_loaded k.kept };

    ghost may_leave = { λ k left. left ≡ Some (K.content k.kept) };

    ghost settled = { λ k _ _. is_only (λ left. left ≡ Some (K.content k.kept)) (K.content k.kept)
        refl (λ left same. same) };

    fn faults(&self) -> u64 {
        if self.has_failed {
            1
        } else {
            self.kept.faults()
        }
    }

    fn look(&mut self, key: &Key, command: &Change) -> Result<Found<Counted>, KeepFault> {
        if self.fails_now() {
            return Err(KeepFault::Store);
        }
        self.kept.look(key, command)
    }

    fn is_full(&mut self) -> Result<bool, KeepFault> {
        if self.fails_now() {
            return Err(KeepFault::Store);
        }
        self.kept.is_full()
    }

    fn entries(
        &mut self,
        alloc: Global,
        from: u32,
        most: u32,
    ) -> Result<Vec<Entry<Change, Counted>>, KeepFault> {
        if self.fails_now() {
            return Err(KeepFault::Store);
        }
        self.kept.entries(alloc, from, most)
    }

    fn count(&self) -> usize {
        self.kept.count()
    }

    fn most(&self) -> u32 {
        self.kept.most()
    }

    fn hour(&mut self) -> Result<Hour, KeepFault> {
        if self.fails_now() {
            return Err(KeepFault::Store);
        }
        self.kept.hour()
    }

    fn load(&mut self) -> Result<(), KeepFault> {
        if self.fails_now() {
            return Err(KeepFault::Store);
        }
        self.kept.load()
    }

    fn state(&self) -> &u32 {
        self.kept.state()
    }

    fn commit(
        &mut self,
        key: Key,
        hour: Hour,
        command: Change,
        reply: Counted,
        state: u32,
    ) -> Result<(), KeepFault> {
        if !self.fails_now() {
            return self.kept.commit(key, hour, command, reply, state);
        }
        if self.keeps_last {
            let _ = self.kept.commit(key, hour, command, reply, state);
        }
        Err(KeepFault::Store)
    }
}
