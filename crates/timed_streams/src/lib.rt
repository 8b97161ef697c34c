//! A socket's bytes within a time: a peer that is silent, that trickles bytes, or that reads
//! nothing holds the one who serves it for a bounded time only.
//!
//! `TimedReader` and `TimedWriter` share a `Pace`, which counts the time that was waited for the
//! peer. A `Desk` tells it the time, and whether others wait: then the peer's turn ends sooner. No contract can say how long a call takes; what the contracts say is that no byte is lost,
//! added or changed, and that no byte past a bound is written.
#![tactic(auto)]

mod capped;
mod pace;
mod streams;
mod within;

pub use capped::CappedWriter;
pub use pace::{Alone, Desk, Pace, Patience};
pub use streams::{TimedReader, TimedWriter};
pub use within::{fill_within, read_away};
