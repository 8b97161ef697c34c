//! What answers lines.
ghost use Rattle.std.specs.Prelude.{◌≡◌, ℕ, List, MatchResult, string_bytes};

use std::alloc::{AllocError, Global};

/// Answers lines, one after another, each from the state that the one before left.
pub trait Handler {
    /// What lines may change.
    type State;

    // From the first state this line may be given this answer, and the second state is left.
    ghost answers: { Self.State → List ℕ → List ℕ → Self.State → Type 0 };

    // From the first state the answer to this line may be lost for want of memory, and the second
    // state is left.
    ghost loses: { Self.State → List ℕ → Self.State → Type 0 };

    // What is written in place of a lost answer.
    ghost no_memory: { List ℕ };

    // The answer to a line that is too long.
    ghost too_long: { List ℕ };

    /// Answers a line, which comes without its line feed. The answer may have several lines, as a
    /// table does; it too has no line feed at its end, since one is written after it. The error
    /// says that the answer is lost for want of memory; what the line asked for may have been done
    /// or not, as `loses` says.
    fn answer(alloc: Global, state: &mut Self::State, line: &[u8]) -> Result<String, AllocError>
        ensures { MatchResult result
            (λ text. answers state.old line.now (string_bytes text) state.new)
            (λ _. loses state.old line.now state.new) };

    /// What is written in place of a lost answer, without a line feed.
    fn no_memory() -> &'static str
        ensures { result.now ≡ no_memory };

    /// The answer to a line of more than `LONGEST_LINE` bytes, of which the handler hears nothing;
    /// without a line feed.
    fn too_long() -> &'static str
        ensures { result.now ≡ too_long };
}
