//! A small machine: a count that is raised up to a bound, and set back.
use request_book::Machine;
use ring_words::Hour;
use std::alloc::{AllocError, Global};

/// What is done to the count.
#[derive(Clone, Copy, PartialEq, Eq)]
pub enum Change {
    /// Raises it.
    Add(u32),
    /// Sets it back to 0.
    Reset,
}

/// What a change is answered: the hour that it was decided at, and the count after it if it was
/// made.
#[derive(Clone, Copy, PartialEq, Eq)]
pub enum Counted {
    Done { hour: Hour, count: u32 },
    PastBound { hour: Hour },
}

/// Counts up to a bound.
#[derive(Clone, Copy)]
pub struct Counter {
    pub bound: u32,
}

impl Machine for Counter {
    ghost use Rattle.std.specs.Prelude.{◌≡◌, ◌+◌, Bool, false, true, ℕ};
    ghost use Rattle.std.proofs.lemmas.Bool.{false≢true};
    ghost use Rattle.program_tests.specs.declared.book.counter.Change.{Change};
    ghost use Rattle.program_tests.specs.declared.book.counter.Change.TheVariants.{Add, Reset};
    ghost use Rattle.program_tests.specs.declared.book.counter.Counted.{Counted};
    ghost use Rattle.program_tests.specs.declared.book.counter.Counted.TheVariants.{Done};
    ghost use Rattle.program_tests.specs.declared.book.counter.Counted.TheVariants.{PastBound};

    type State = u32;

    type Command = Change;

    type Reply = Counted;

    ghost step = { λ counter old hour change reply new. elim reply [
      | Done at count ↦ (at ≡ hour) ×
          (count ≡ new) × elim change [ Add amount ↦ new ≡ old + amount | Reset ↦ new ≡ 0 ]
      | PastBound at ↦ (at ≡ hour) × (new ≡ old)
    ] };

    ghost refuses = { λ reply. elim reply [ Done at count ↦ false | PastBound at ↦ true ] };

    ghost begins = { λ _ state. state ≡ 0 };

    fn start(&self, _alloc: Global) -> u32 {
        0
    }

    fn decide(
        &self,
        _alloc: Global,
        state: &u32,
        hour: Hour,
        change: &Change,
    ) -> Result<(u32, Counted), AllocError> {
        let count = *state;
        match *change {
            Change::Reset => Ok((0, Counted::Done { hour, count: 0 })),
            Change::Add(amount) => match count.checked_add(amount) {
                Some(sum) if sum <= self.bound => Ok((sum, Counted::Done { hour, count: sum })),
                _ => Ok((count, Counted::PastBound { hour })),
            },
        }
    }

    fn same(a: &Change, b: &Change) -> bool {
        a == b
    }

    fn copy(change: &Change) -> Result<Change, AllocError> {
        Ok(*change)
    }

    fn is_refusal(reply: &Counted) -> bool {
        matches!(reply, Counted::PastBound { .. })
    }

    ghost refusal_keeps = { λ counter old new hour change reply. elim reply as
        (λ (r : Counted). elim r [
          | Done at count ↦ (at ≡ hour) × (count ≡ new) ×
              elim change [ Add amount ↦ new ≡ old + amount | Reset ↦ new ≡ 0 ]
          | PastBound at ↦ (at ≡ hour) × (new ≡ old)
        ] → elim r [
          | Done at count ↦ false
          | PastBound at ↦ true
        ] ≡ true → new ≡ old) [
          | Done at count ↦ λ stepped refused. absurd
              (false≢true refused)
          | PastBound at ↦ λ stepped refused. stepped.1
        ] };
}
