//! Partitions that a rebalance leaves where they are, and for how long.
ghost use Rattle.std.specs.Prelude.{◌≡◌, ◌+◌, ◌++◌, ◌∷◌, [], ℕ, IfOk, OnOk, filter, nat_lt};
ghost use Rattle.std.specs.List.Sorted.{IsNonDecreasing};
ghost use Rattle.ring_place.specs.Rebalance.{is_recent};
ghost use Rattle.ring_metrics.specs.Inner.Ends.{AreEndsOf, left_hours};
ghost use Rattle.ring_metrics.specs.Locks.{AreLockEnds, IsRest, hours_left, locked_count, longest};

use ring_model::Ring;
use ring_words::Hour;
use std::alloc::{AllocError, Global};

/// After so many hours, and no sooner, so many partitions are free.
#[derive(Clone, Copy)]
pub struct LockEnd {
    /// In how many hours, at least 1.
    pub hours: u64,
    /// How many partitions, at least 1.
    pub partitions: usize,
}

/// For how many hours from an hour on a partition is locked that was moved last at another. 0 where
/// it isn't locked.
fn hours_left(min_hours: u16, hour: Hour, moved: Option<Hour>) -> u64
    ensures value { result ≡ hours_left min_hours hour moved }
    ensures until { (later : ℕ) → is_recent min_hours (hour + later) moved ≡ nat_lt later result }
{
    match moved {
        None => 0,
        Some(moved) => (u64::from(moved) + u64::from(min_hours)).saturating_sub(u64::from(hour)),
    }
}

/// Whether a partition that was moved last at an hour is locked at another.
fn is_recent(min_hours: u16, hour: Hour, moved: Option<Hour>) -> bool
    ensures { result ≡ is_recent min_hours hour moved }
{
    hours_left(min_hours, hour, moved) > 0
}

/// How many partitions are locked at an hour.
pub fn locked_count(ring: &Ring, hour: Hour) -> usize
    ensures { result ≡ locked_count ring.now hour }
{
    let min_hours = ring.min_hours();
    ring.moves()
        .iter()
        .filter(|moved| is_recent(min_hours, hour, **moved))
        .count()
}

/// For how many hours from an hour on some partition is locked. 0 where none is.
pub fn rest(ring: &Ring, hour: Hour) -> u64
    ensures { IsRest ring.now hour result }
{
    let min_hours = ring.min_hours();
    let moves = ring.moves();
    let mut rest = 0;
    for moved in moves {
        rest = rest.max(hours_left(min_hours, hour, *moved));
    }
    rest
}

/// Adds for how many hours a partition is locked, if it is.
fn push_left(into: &mut Vec<u64>, left: u64) -> Result<(), AllocError>
    ensures { OnOk result (into.new.items ≡ into.old.items ++ filter (nat_lt 0) (left ∷ [])) }
{
    if left > 0 {
        into.push(left)?;
    }
    Ok(())
}

/// For how many hours from an hour on each partition is locked that is.
fn left_hours(alloc: Global, ring: &Ring, hour: Hour) -> Result<Vec<u64>, AllocError>
    ensures { IfOk result (λ left. left.items ≡ left_hours ring.now hour) }
{
    let min_hours = ring.min_hours();
    let moves = ring.moves();
    let mut left = Vec::new(alloc);
    for moved in moves {
        push_left(&mut left, hours_left(min_hours, hour, *moved))?;
    }
    Ok(left)
}

/// How often each of some hours comes, which rise.
fn ends_of(alloc: Global, left: &[u64]) -> Result<Vec<LockEnd>, AllocError>
    requires { IsNonDecreasing left.now }
    ensures { IfOk result (λ ends. AreEndsOf left.now ends.items) }
{
    let mut ends = Vec::new(alloc);
    let Some((first, rest)) = left.split_first() else {
        return Ok(ends);
    };
    let mut last = LockEnd {
        hours: *first,
        partitions: 1,
    };
    for hours in rest {
        if *hours == last.hours {
            last.partitions += 1;
        } else {
            ends.push(last)?;
            last = LockEnd {
                hours: *hours,
                partitions: 1,
            };
        }
    }
    ends.push(last)?;
    Ok(ends)
}

/// After how many hours from an hour on partitions are free that are locked at it, by rising hours,
/// and how many are then. Together they are those that `locked_count` counts, and after the longest
/// of the hours, that of `rest`, none is locked.
pub fn lock_ends(alloc: Global, ring: &Ring, hour: Hour) -> Result<Vec<LockEnd>, AllocError>
    ensures ends { IfOk result (λ ends. AreLockEnds ring.now hour ends.items) }
    ensures rest { IfOk result (λ ends. IsRest ring.now hour (longest ends.items)) }
{
    let mut left = left_hours(alloc, ring, hour)?;
    left.sort_unstable();
    ends_of(alloc, &left)
}
