//! How many rows each worked example writes.
use crate::fixtures::{FIFTH, First, SETTLED, Shape, alone, check, object};
use ring_model::{Ring, Rings};
use ring_words::{Power, Replicas, RingName};
use std::alloc::Global;
use std::test::Fail;
use store_model::RowChange;
use store_rows::Change;

/// How many rows of the ring `object` differ, and how many changes of rows there are.
type Counts = (usize, usize);

/// Whether a change writes as many rows as it should.
fn is_written(alloc: Global, old: &Rings, new: &Rings, counts: Counts) -> Option<bool> {
    let name = RingName::new(alloc, "object").ok()?;
    let change = Change::between(alloc, &name, old, new).ok()?;
    Some(change.len() == counts.0 && change.rows().len() == counts.1)
}

/// A change of the ring `object` from one shape to another.
struct Case {
    old: Shape,
    new: Shape,
    counts: Counts,
}

impl Case {
    /// Whether it writes as many rows as it should.
    fn holds(&self, alloc: Global) -> Option<bool> {
        let old = object(alloc, &self.old)?;
        is_written(alloc, &old, &object(alloc, &self.new)?, self.counts)
    }
}

/// A ring without devices.
fn new_ring(alloc: Global) -> Option<Ring> {
    let power = Power::new(2)?;
    let replicas = Replicas::new(1)?;
    Ring::new(alloc, power, replicas, 24).ok()
}

/// Whether a ring that is made writes as many rows as it should.
fn new_ring_writes(alloc: Global, counts: Counts) -> Option<bool> {
    let new = alone(alloc, new_ring(alloc)?)?;
    is_written(alloc, &Rings::new(alloc), &new, counts)
}

#[test]
fn a_new_ring_writes_itself_and_its_partitions(rt: HostRuntime) -> Result<(), Fail> {
    check(new_ring_writes(rt.alloc(), (5, 5)))
}

/// Two devices that have no seats yet.
const EMPTY: Shape = Shape {
    devices: 2,
    first: First::Stays,
    version: 2,
    seats: &[],
    moved: &[None, None, None, None],
    published: None,
};

/// Both devices get their first seats.
static FIRST_REBALANCE: Case = Case {
    old: EMPTY,
    new: Shape {
        version: 3,
        seats: &[0, 1, 0, 1],
        moved: &[Some(0), Some(0), Some(0), Some(0)],
        ..EMPTY
    },
    counts: (5, 5),
};

#[test]
fn a_first_rebalance_writes_four_partitions_and_the_ring(rt: HostRuntime) -> Result<(), Fail> {
    check(FIRST_REBALANCE.holds(rt.alloc()))
}

/// A rebalance that finds every seat as it should be.
static NOTHING_MOVES: Case = Case {
    old: SETTLED,
    new: Shape {
        version: 6,
        ..SETTLED
    },
    counts: (1, 1),
};

#[test]
fn a_rebalance_that_moves_nothing_writes_the_ring(rt: HostRuntime) -> Result<(), Fail> {
    check(NOTHING_MOVES.holds(rt.alloc()))
}

/// A rebalance that moves one seat.
static SEAT_MOVES: Case = Case {
    old: SETTLED,
    new: Shape {
        published: None,
        ..FIFTH
    },
    counts: (2, 2),
};

#[test]
fn a_seat_that_moves_writes_its_partition_and_the_ring(rt: HostRuntime) -> Result<(), Fail> {
    check(SEAT_MOVES.holds(rt.alloc()))
}

/// The hours of all partitions are set aside.
static HOURS_ASIDE: Case = Case {
    old: SETTLED,
    new: Shape {
        version: 6,
        moved: &[None, None, None, None],
        ..SETTLED
    },
    counts: (5, 5),
};

#[test]
fn hours_set_aside_write_each_partition_and_the_ring(rt: HostRuntime) -> Result<(), Fail> {
    check(HOURS_ASIDE.holds(rt.alloc()))
}

/// A device that is marked goes, and its seats go to another one.
static DEVICE_GOES: Case = Case {
    old: Shape {
        first: First::Marked,
        ..SETTLED
    },
    new: Shape {
        first: First::Gone,
        version: 6,
        seats: &[2, 1, 2, 1],
        moved: &[Some(1), Some(0), Some(1), Some(0)],
        ..SETTLED
    },
    counts: (4, 4),
};

#[test]
fn a_device_that_goes_counts_once(rt: HostRuntime) -> Result<(), Fail> {
    check(DEVICE_GOES.holds(rt.alloc()))
}

/// A device is marked.
static DEVICE_CHANGES: Case = Case {
    old: EMPTY,
    new: Shape {
        first: First::Marked,
        ..EMPTY
    },
    counts: (1, 2),
};

#[test]
fn a_device_that_changes_goes_and_comes_and_counts_once(rt: HostRuntime) -> Result<(), Fail> {
    check(DEVICE_CHANGES.holds(rt.alloc()))
}

/// A version is published.
static PUBLISHED: Case = Case {
    old: SETTLED,
    new: Shape {
        published: Some(5),
        ..SETTLED
    },
    counts: (1, 1),
};

#[test]
fn a_published_text_writes_one_row(rt: HostRuntime) -> Result<(), Fail> {
    check(PUBLISHED.holds(rt.alloc()))
}

/// Nothing changes.
static EQUAL: Case = Case {
    old: FIFTH,
    new: FIFTH,
    counts: (0, 0),
};

#[test]
fn equal_rings_write_nothing(rt: HostRuntime) -> Result<(), Fail> {
    check(EQUAL.holds(rt.alloc()))
}

/// Whether the row of a ring is the first that is put where rings are made.
fn puts_the_ring_first(alloc: Global, new: &Rings) -> Option<bool> {
    let change = Change::making(alloc, new).ok()?;
    Some(matches!(change.rows().first(), Some(RowChange::PutRing(_))))
}

/// The same where the ring of the fifth worked example is made.
fn puts_the_fifth_first(alloc: Global) -> Option<bool> {
    puts_the_ring_first(alloc, &object(alloc, &FIFTH)?)
}

#[test]
fn a_ring_is_put_before_what_stands_in_it(rt: HostRuntime) -> Result<(), Fail> {
    check(puts_the_fifth_first(rt.alloc()))
}
