//! What decides commands.
ghost use Rattle.std.specs.Prelude.{◌≡◌, ◌↔◌, Bool, IfOk, IsTrue, true, ℕ};

use ring_words::Hour;
use std::alloc::{AllocError, Global};

/// What decides a command: from a state, at an hour, it gives a reply and the next state.
pub trait Machine {
    /// What commands change.
    type State: Drop;

    /// What is asked.
    type Command: Drop;

    /// What is answered.
    type Reply: Copy;

    /// From this state, at this hour, this command may give that reply and lead to that state.
    ghost step: { Self → Self.State → ℕ → Self.Command → Self.Reply → Self.State → Type 0 };

    /// Whether a reply is a refusal.
    ghost refuses: { Self.Reply → Bool };

    /// A run may begin with this state.
    ghost begins: { Self → Self.State → Type 0 };

    /// The state that a run begins with. It takes no memory: the allocator is for the collections
    /// that it makes, all of them empty.
    fn start(&self, alloc: Global) -> Self::State
        ensures { begins self.now result };

    /// Decides a command. The state that is given stays as it is; an error says that memory was
    /// refused.
    fn decide(
        &self,
        alloc: Global,
        state: &Self::State,
        hour: Hour,
        command: &Self::Command,
    ) -> Result<(Self::State, Self::Reply), AllocError>
        ensures { IfOk result (λ decided. step self.now state.now hour command.now decided.1
            decided.0) };

    /// Whether two commands are one, exactly as contracts compare them.
    fn same(a: &Self::Command, b: &Self::Command) -> bool
        ensures { IsTrue result ↔ (a.now ≡ b.now) };

    /// The same command, in memory of its own.
    fn copy(command: &Self::Command) -> Result<Self::Command, AllocError>
        ensures { IfOk result (λ copy. copy ≡ command.now) };

    /// Whether a reply says that the command was refused.
    fn is_refusal(reply: &Self::Reply) -> bool
        ensures { result ≡ refuses reply.now };

    /// A refusal keeps the state.
    ghost refusal_keeps: { (machine : Self) (old new : Self.State) (hour : ℕ)
        (command : Self.Command) (reply : Self.Reply) → step machine old hour command reply new →
        refuses reply ≡ true → new ≡ old };
}
