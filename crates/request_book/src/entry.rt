//! What is kept of a request.
use ring_words::{Hour, Key};

/// A request that was decided, with its reply.
#[derive(Drop)]
pub struct Entry<C, R> {
    /// Which request it is.
    pub key: Key,
    /// The hour that it was decided at: the greatest among its own and those of all decided before.
    pub hour: Hour,
    /// What it asked for.
    pub command: C,
    /// What it was answered, and is answered each time that it comes again.
    pub reply: R,
}
