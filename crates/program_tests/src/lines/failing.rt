//! A keeper whose store fails.
ghost use Rattle.std.specs.Prelude.{◌≡◌, cond, false, true};

use builder::RingMachine;
use request_book::{Entry, Found, KeepFault, Keeper};
use ring_model::Rings;
use ring_words::{Command, Hour, Key, Reply};
use std::alloc::Global;

/// A keeper over another one. Its store fails once its state was made ready so often.
#[derive(Drop)]
pub struct Failing<K> {
    kept: K,
    loads_left: u32,
    has_failed: bool,
}

impl<K> Failing<K> {
    pub fn new(kept: K, loads_left: u32) -> Self
        ensures kept { result.kept ≡ kept }
        ensures whole { result.has_failed ≡ false }
    {
        Failing {
            kept,
            loads_left,
            has_failed: false,
        }
    }
}

impl<K: Keeper<RingMachine>> Keeper<RingMachine> for Failing<K> {
    ghost content = { λ k. K.content k.kept };

    ghost sound = { λ k. K.sound k.kept };

    ghost fault_count = { λ k. cond k.has_failed 1 (K.fault_count k.kept) };

    ghost limit = { λ k. K.limit k.kept };

    ghost is_loaded = { λ k. K.is_loaded k.kept };

    ghost may_leave = { λ k left. K.may_leave k.kept left };

    ghost settled = { λ k sound whole. K.settled k.kept sound
        ((elim k.has_failed as (λ has_failed. cond has_failed 1 (K.fault_count k.kept) ≡ 0 →
        K.fault_count k.kept ≡ 0) [ true ↦ λ n. Prim.cc | false ↦ λ n. n ]) whole) };

    fn faults(&self) -> u64 {
        if self.has_failed {
            1
        } else {
            self.kept.faults()
        }
    }

    fn look(&mut self, key: &Key, command: &Command) -> Result<Found<Reply>, KeepFault> {
        self.kept.look(key, command)
    }

    fn is_full(&mut self) -> Result<bool, KeepFault> {
        self.kept.is_full()
    }

    fn entries(
        &mut self,
        alloc: Global,
        from: u32,
        most: u32,
    ) -> Result<Vec<Entry<Command, Reply>>, KeepFault> {
        self.kept.entries(alloc, from, most)
    }

    fn count(&self) -> usize {
        self.kept.count()
    }

    fn most(&self) -> u32 {
        self.kept.most()
    }

    fn hour(&mut self) -> Result<Hour, KeepFault> {
        self.kept.hour()
    }

    fn load(&mut self) -> Result<(), KeepFault> {
        if self.loads_left > 0 {
            self.loads_left -= 1;
            return self.kept.load();
        }
        self.has_failed = true;
        Err(KeepFault::Store)
    }

    fn state(&self) -> &Rings {
        self.kept.state()
    }

    fn commit(
        &mut self,
        key: Key,
        hour: Hour,
        command: Command,
        reply: Reply,
        state: Rings,
    ) -> Result<(), KeepFault> {
        self.kept.commit(key, hour, command, reply, state)
    }
}
