//! What answers requests.
ghost use Rattle.std.specs.Prelude.{ℕ, List, MatchResult};
ghost use Rattle.http_messages.specs.Requests.{Ask};
ghost use Rattle.http_stream.specs.Streams.{ask_of};

use http_messages::Method;
use std::alloc::AllocError;

/// Answers requests, one after another, each from the clock and the state that the one before left.
pub trait Service {
    /// What tells the time. Requests may change it.
    type Clock;

    /// What else requests may change.
    type State;

    // From the first clock and state this request may be given this answer, and the second are
    // left.
    ghost answers: { Self → Self.Clock × Self.State → Ask → List ℕ → Self.Clock × Self.State →
        Type 0 };

    // From the first clock and state the answer to this request may be lost for want of memory, and
    // the second are left.
    ghost loses: { Self → Self.Clock × Self.State → Ask → Self.Clock × Self.State → Type 0 };

    /// Answers a request, head and body. `is_last` says that the answer is to be the last of the
    /// stream, which its head has to tell. The error says that the answer is lost for want of
    /// memory; what the request asked for may have been done or not, as `loses` says.
    fn answer(
        &self,
        clock: &mut Self::Clock,
        state: &mut Self::State,
        method: Method,
        target: &[u8],
        body: &[u8],
        is_last: bool,
    ) -> Result<Vec<u8>, AllocError>
        ensures { let ask = ask_of method target.now body.now is_last in MatchResult result
            (λ text. answers self.now (clock.old, state.old) ask text.items (clock.new, state.new))
            (λ _. loses self.now (clock.old, state.old) ask (clock.new, state.new)) };
}
