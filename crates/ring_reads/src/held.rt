//! What a read finds.
ghost use Rattle.std.specs.Prelude.{◌≡◌};
ghost use Rattle.ring_reads.specs.Holding.{figures_of, holding_of, hour_now};

use ring_metrics::StoreFigures;
use ring_model::Rings;
use ring_words::Hour;

/// What is held where something is read.
#[derive(Clone, Copy)]
pub struct Held<'a> {
    /// The rings, each under its name.
    pub rings: &'a Rings,
    /// The greatest hour that was decided at, in whole hours since 1970; 0 before the first.
    pub hour: Hour,
    /// The hour of the clock, in whole hours since 1970; 0 where none is looked at.
    pub clock: Hour,
    /// How many numbers of callers are kept, each with its reply.
    pub kept: usize,
    /// How many numbers may be kept.
    pub limit: u32,
}

impl<'a> Held<'a> {
    /// The hour at which a request would be decided now: the greatest of the clock's and of those that
    /// were decided at.
    pub fn hour_now(&self) -> Hour
        ensures { result ≡ hour_now (holding_of self.now) }
    {
        self.hour.max(self.clock)
    }

    /// How much is held.
    pub fn figures(&self) -> StoreFigures
        ensures { result ≡ figures_of (holding_of self.now) }
    {
        StoreFigures {
            kept: self.kept,
            limit: self.limit,
            hour: self.hour,
        }
    }
}
