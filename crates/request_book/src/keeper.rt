//! What keeps the state, the decided requests and the greatest hour.
ghost use Rattle.std.specs.Prelude.{◌≡◌, ◌≤◌, ◌<◌, ◌↔◌, None, IfOk, IsTrue, OnOk, Option, length};
ghost use Rattle.std.specs.Prelude.{ℕ};
ghost use Rattle.request_book.specs.Content.{Content, entries_from, entry_of};
ghost use Rattle.request_book.specs.declared.keeper.KeepFault.TheVariants.{NoMemory};
ghost use Rattle.request_book.specs.Keeper.{Commits, CrashLeaves, HasCause, IsFound, LeavesOnly};

use crate::entry::Entry;
use crate::machine::Machine;
use ring_words::{Hour, Key};
use std::alloc::{AllocError, Global};

/// What a look finds of a key and a command.
#[derive(Clone, Copy)]
pub enum Found<R> {
    /// No request of this key was decided.
    New,
    /// A request of this key and this command was decided, with this reply.
    Same(R),
    /// A request of this key and another command was decided.
    Other,
}

/// Why a call of a keeper fails.
#[derive(Clone, Copy, PartialEq, Eq)]
pub enum KeepFault {
    /// A growth of memory was refused. The content is as before.
    NoMemory,
    /// The store failed. No call but `faults` may be made from then on.
    Store,
}

impl From<AllocError> for KeepFault {
    ghost from_gives = { λ _ f. f ≡ NoMemory };

    fn from(_refused: AllocError) -> KeepFault {
        KeepFault::NoMemory
    }
}

/// Keeps a machine's state beside the requests that were decided.
///
/// While it is sound a keeper tells what it was given. A keeper whose store answers otherwise than
/// it was written stops being sound in that call, for good, and promises only its limit and its
/// faults from then on.
pub trait Keeper<M: Machine> {
    /// What it holds.
    ghost content: { Self → Content M.State M.Command M.Reply };

    /// So far its store told what was written.
    ghost sound: { Self → Type 0 };

    /// How often its store has failed.
    ghost fault_count: { Self → ℕ };

    /// How many requests it keeps at most.
    ghost limit: { Self → ℕ };

    /// The state may be looked at.
    ghost is_loaded: { Self → Type 0 };

    /// A crash may now leave what an opening finds as that content, or, as None, what it refuses.
    ghost may_leave: { Self → Option (Content M.State M.Command M.Reply) → Type 0 };

    /// How often its store has failed.
    fn faults(&self) -> u64
        ensures { result ≡ fault_count self.now };

    /// What the book has of a key: nothing, the reply of this command, or another command. The
    /// content stays.
    fn look(&mut self, key: &Key, command: &M::Command) -> Result<Found<M::Reply>, KeepFault>
        requires { fault_count self.old ≡ 0 }
        ensures found { sound self.new →
            IfOk result (λ found. IsFound (entry_of key.now (content self.old).book) command.now
            found) }
        ensures content { sound self.new → content self.new ≡ content self.old }
        ensures left { sound self.new → LeavesOnly (may_leave self.new) (content self.old) }
        ensures sound { sound self.new → sound self.old }
        ensures limit { limit self.new ≡ limit self.old }
        ensures cause { HasCause (fault_count self.old) (fault_count self.new) result };

    /// Whether the book has as many entries as it may, or more. The content stays.
    fn is_full(&mut self) -> Result<bool, KeepFault>
        requires { fault_count self.old ≡ 0 }
        ensures full { sound self.new → IfOk result (λ full. IsTrue full ↔
            (limit self.old ≤ length (content self.old).book)) }
        ensures content { sound self.new → content self.new ≡ content self.old }
        ensures left { sound self.new → LeavesOnly (may_leave self.new) (content self.old) }
        ensures sound { sound self.new → sound self.old }
        ensures limit { limit self.new ≡ limit self.old }
        ensures cause { HasCause (fault_count self.old) (fault_count self.new) result };

    /// The entries of the book from a place on, by rising place, and at most `most` of them. The
    /// place of an entry is how many were decided before it. They are made in the allocator's
    /// memory. The content stays.
    fn entries(
        &mut self,
        alloc: Global,
        from: u32,
        most: u32,
    ) -> Result<Vec<Entry<M::Command, M::Reply>>, KeepFault>
        requires { fault_count self.old ≡ 0 }
        ensures entries { sound self.new → IfOk result (λ entries. entries.items ≡
            entries_from from most (content self.old).book) }
        ensures content { sound self.new → content self.new ≡ content self.old }
        ensures left { sound self.new → LeavesOnly (may_leave self.new) (content self.old) }
        ensures sound { sound self.new → sound self.old }
        ensures limit { limit self.new ≡ limit self.old }
        ensures cause { HasCause (fault_count self.old) (fault_count self.new) result };

    /// How many requests the book has.
    fn count(&self) -> usize
        requires { fault_count self.now ≡ 0 }
        ensures { sound self.now → result ≡ length (content self.now).book };

    /// How many requests it keeps at most.
    fn most(&self) -> u32
        ensures { result ≡ limit self.now };

    /// The greatest hour. The content stays.
    fn hour(&mut self) -> Result<Hour, KeepFault>
        requires { fault_count self.old ≡ 0 }
        ensures hour { sound self.new → IfOk result (λ hour. hour ≡ (content self.old).hour) }
        ensures content { sound self.new → content self.new ≡ content self.old }
        ensures left { sound self.new → LeavesOnly (may_leave self.new) (content self.old) }
        ensures sound { sound self.new → sound self.old }
        ensures limit { limit self.new ≡ limit self.old }
        ensures cause { HasCause (fault_count self.old) (fault_count self.new) result };

    /// Makes the state ready for `state`. The content stays.
    fn load(&mut self) -> Result<(), KeepFault>
        requires { fault_count self.old ≡ 0 }
        ensures loaded { OnOk result (is_loaded self.new) }
        ensures content { sound self.new → content self.new ≡ content self.old }
        ensures left { sound self.new → LeavesOnly (may_leave self.new) (content self.old) }
        ensures sound { sound self.new → sound self.old }
        ensures limit { limit self.new ≡ limit self.old }
        ensures cause { HasCause (fault_count self.old) (fault_count self.new) result };

    /// The state. The last call that may change the keeper was a `load` that succeeded.
    fn state(&self) -> &M::State
        requires loaded { is_loaded self.now }
        requires faults { fault_count self.now ≡ 0 }
        ensures { sound self.now → result.now ≡ (content self.now).state };

    /// Puts a decided request at the end of the book, with the state that it led to and its hour.
    /// NoMemory leaves the content as before; Store leaves it as before or with the request, its
    /// state and its hour.
    fn commit(
        &mut self,
        key: Key,
        hour: Hour,
        command: M::Command,
        reply: M::Reply,
        state: M::State,
    ) -> Result<(), KeepFault>
        requires faults { fault_count self.old ≡ 0 }
        requires unknown { sound self.old → entry_of key (content self.old).book ≡ None }
        requires room { sound self.old → length (content self.old).book < limit self.old }
        requires hour { sound self.old → (content self.old).hour ≤ hour }
        requires step { sound self.old → (machine : M) × M.step machine (content self.old).state
            hour command reply state }
        ensures commits { sound self.new → Commits (content self.old) (record {
          key = key;
          hour =
              hour;
          command = command;
          reply = reply;
        }) state result (content self.new) }
        // What a crash may leave is what a commit of this answer may leave.
        ensures left { sound self.new → CrashLeaves (may_leave self.new) (Commits (content self.old)
            (record { key = key; hour = hour; command = command; reply = reply }) state result) }
        ensures sound { sound self.new → sound self.old }
        ensures limit { limit self.new ≡ limit self.old }
        ensures cause { HasCause (fault_count self.old) (fault_count self.new) result };

    /// While it is sound and its store has not failed, a crash leaves its content and nothing else.
    ghost settled: { (keeper : Self) → sound keeper → fault_count keeper ≡ 0 →
        LeavesOnly (may_leave keeper) (content keeper) };
}
