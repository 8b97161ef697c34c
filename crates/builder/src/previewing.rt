//! What a rebalance would do.
ghost use Rattle.std.specs.Prelude.{IfOk};
ghost use Rattle.builder.specs.Preview.{IsOnly, rebalance_of};
ghost use Rattle.builder.specs.Step.{Step};

use crate::deciding::decide;
use ring_model::Rings;
use ring_words::{Act, Command, Hour, Limits, Reply, RingName};
use std::alloc::{AllocError, Global};

/// Tells what a rebalance of a ring with a seed would reply at an hour, and which rings it would
/// leave, and changes nothing. An operator can rely on it: while the ring is as it is now, each
/// rebalance of it at the same hour with the same seed gives this reply and leaves this ring. Other
/// rings may change in between.
pub fn preview(
    alloc: Global,
    rings: &Rings,
    hour: Hour,
    name: &RingName,
    seed: u32,
    limits: &Limits,
) -> Result<(Rings, Reply), AllocError>
    ensures may { IfOk result (λ told. Step limits.now rings.now hour (rebalance_of name.now seed)
        told.1 told.0) }
    ensures only { IfOk result (λ told. IsOnly limits.now rings.now hour name.now seed told.1
        told.0) }
{
    let command = Command {
        ring: name.clone()?,
        act: Act::Rebalance(seed),
    };
    decide(alloc, rings, hour, &command, limits)
}
