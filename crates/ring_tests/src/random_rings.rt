//! Random rings, rebalanced: what operators are promised of each rebalance, seen by plain scans of
//! the old ring and the new one.
ghost use Rattle.std.specs.Prelude.{◌<◌};

use crate::fixtures::{DEVICE_0, DeviceRow, RingRow, WITHOUT_DEVICES, push_spelled, ring_on};
use crate::rebalances::{Change, after};
use crate::scans::{
    crowd, has_free, has_less_crowded, have, is_lost, is_open, is_present, partitions, seat, want,
    width,
};
use rand_core::Rng;
use rand_pcg::Pcg32;
use ring_deal::draws_of;
use ring_model::Ring;
use ring_place::{PlaceError, Rebalanced, rebalance};
use ring_share::wanted;
use ring_words::{Device, DeviceId, Hour};
use std::alloc::Global;
use std::test::Fail;

/// A ring before a rebalance, and after it, and what its devices want then.
#[derive(Clone, Copy)]
struct Pair<'a> {
    old: &'a Ring,
    hour: Hour,
    new: &'a Ring,
    before: &'a [u32],
    after: &'a [u32],
}

/// The fact that does not hold, where one doesn't.
type Seen = Result<(), &'static str>;

/// The first of some facts that does not hold, where one doesn't.
fn expect(facts: &[(bool, &'static str)]) -> Seen {
    for (holds, fact) in facts {
        if !*holds {
            return Err(fact);
        }
    }
    Ok(())
}

/// The hour at which a partition of a ring was moved last.
fn moved(ring: &Ring, partition: usize) -> Option<Hour> {
    *ring.moves().get(partition)?
}

/// How many devices of a ring are not marked.
fn present(ring: &Ring) -> usize {
    let mut count = 0usize;
    for device in ring.devices() {
        count = count.saturating_add(usize::from(!device.removed));
    }
    count
}

impl Pair<'_> {
    fn is_locked(&self, partition: usize) -> bool {
        let Some(moved) = moved(self.old, partition) else {
            return false;
        };
        u64::from(self.hour) < u64::from(moved).saturating_add(u64::from(self.old.min_hours()))
    }

    fn has_changed(&self, partition: usize, replica: usize) -> bool {
        seat(self.old, partition, replica) != seat(self.new, partition, replica)
    }

    /// How many seats of a partition have changed.
    fn changes(&self, partition: usize) -> u32 {
        let mut count = 0u32;
        for replica in 0..width(self.old) {
            count = count.saturating_add(u32::from(self.has_changed(partition, replica)));
        }
        count
    }

    /// Whether a seat is on a device that remains, and goes to another.
    fn has_left(&self, partition: usize, replica: usize) -> bool {
        self.has_changed(partition, replica) && !is_lost(self.old, partition, replica)
    }

    /// How many seats stay on a device.
    fn stayed(&self, id: DeviceId) -> usize {
        let mut count = 0usize;
        for (place, seat) in self.old.seats().iter().enumerate() {
            if *seat == id && self.new.seats().get(place).copied() == Some(id) {
                count = count.saturating_add(1);
            }
        }
        count
    }

    /// At most one replica of a partition leaves a remaining device, and none before its hours.
    fn check_leaving(&self, partition: usize) -> Seen {
        let mut left = 0usize;
        let mut lost = false;
        for replica in 0..width(self.old) {
            left = left.saturating_add(usize::from(self.has_left(partition, replica)));
            lost = lost || is_lost(self.old, partition, replica);
        }
        expect(&[
            (left <= 1, "at most one replica leaves"),
            (left == 0 || !self.is_locked(partition), "none while locked"),
            (
                left == 0 || !lost,
                "where seats are lost, these alone change",
            ),
        ])
    }

    /// A seat leaves a remaining device where another one is less crowded, or one with room takes
    /// what the device has beyond its want; and it gains by it: it is less crowded than there, or the
    /// device has what it wants.
    fn check_reason(&self, partition: usize, replica: usize, from: DeviceId, to: DeviceId) -> Seen {
        let crowded = has_less_crowded(self.old, self.before, partition, replica, from);
        let is_spare = want(self.old, self.before, from) <= self.stayed(from);
        let is_free = has_free(self.old, self.before, partition);
        let less = crowd(self.new, partition, replica, to)
            < crowd(self.new, partition, replica, from);
        let is_filled = want(self.new, self.after, from) <= have(self.new, from);
        expect(&[
            (crowded || (is_free && is_spare), "a reason"),
            (less || is_filled, "a gain"),
        ])
    }

    /// A seat that changed is on an open device, and no other one with room is less crowded.
    fn check_changed(&self, partition: usize, replica: usize, to: DeviceId) -> Seen {
        let crowded = has_less_crowded(self.new, self.after, partition, replica, to);
        expect(&[
            (is_open(self.old, to), "on an open device"),
            (!crowded, "settled"),
        ])?;
        match seat(self.old, partition, replica) {
            Some(from) if self.has_left(partition, replica) => {
                self.check_reason(partition, replica, from, to)
            }
            _ => Ok(()),
        }
    }

    /// A seat is on a device that is there.
    fn check_seat(&self, partition: usize, replica: usize) -> Seen {
        let Some(to) = seat(self.new, partition, replica) else {
            return Err("each seat is taken");
        };
        if !is_present(self.old, to) {
            Err("on a device that is there")
        } else if self.has_changed(partition, replica) {
            self.check_changed(partition, replica, to)
        } else {
            Ok(())
        }
    }

    /// The hours of the last moves, and how many seats changed.
    fn check_moves(&self, changed: u32) -> Seen {
        let mut count = 0u32;
        for partition in 0..partitions(self.old) {
            let changes = self.changes(partition);
            count = count.saturating_add(changes);
            let stamp = if changes > 0 {
                Some(self.hour)
            } else {
                moved(self.old, partition)
            };
            if moved(self.new, partition) != stamp {
                return Err("moved where a seat changed");
            }
        }
        expect(&[(count == changed, "changed seats are counted")])
    }

    fn check_rest(&self) -> Seen {
        for device in self.new.devices() {
            if !is_present(self.old, device.id) {
                return Err("the others stay");
            }
        }
        let count = self.new.devices().len();
        let risen = self.old.version().saturating_add(1);
        expect(&[
            (count == present(self.old), "marked devices are gone"),
            (self.new.version() == risen, "the version rises"),
        ])
    }

    fn check_partition(&self, partition: usize) -> Seen {
        for replica in 0..width(self.old) {
            self.check_seat(partition, replica)?;
        }
        self.check_leaving(partition)
    }

    fn check(&self, changed: u32) -> Seen {
        for partition in 0..partitions(self.old) {
            self.check_partition(partition)?;
        }
        self.check_moves(changed)?;
        self.check_rest()
    }
}

/// The fact of a rebalance of a ring at an hour that does not hold, where one doesn't.
fn check_rebalance(alloc: Global, ring: &Ring, hour: Hour, done: &Rebalanced) -> Seen {
    let Ok(before) = wanted(alloc, ring) else {
        return Err("no memory");
    };
    let Ok(after) = wanted(alloc, &done.ring) else {
        return Err("no memory");
    };
    let pair = Pair {
        old: ring,
        hour,
        new: &done.ring,
        before: before.as_slice(),
        after: after.as_slice(),
    };
    pair.check(done.changed)
}

/// A number below a bound that isn't 0.
pub fn below(draws: &mut Pcg32, bound: u32) -> u32
    requires { 0 < bound }
    ensures { result < bound }
{
    draws.next_u32() % bound
}

/// A device anywhere in two regions, of some weight.
fn any_row(draws: &mut Pcg32, number: u8) -> DeviceRow {
    let region = below(draws, 2) as u16;
    let zone = below(draws, 2) as u16;
    let server = below(draws, 3) as u8;
    let weight = below(draws, 5) * 50;
    DeviceRow {
        id: u16::from(number),
        place: number,
        server,
        region,
        zone,
        weight,
        ..DEVICE_0
    }
}

fn any_devices(alloc: Global, draws: &mut Pcg32, count: u8) -> Option<Vec<Device>> {
    let mut devices = Vec::new(alloc);
    for number in 0..count {
        push_spelled(alloc, &mut devices, &any_row(draws, number))?;
    }
    Some(devices)
}

/// A ring without devices, from which others are made.
static BARE: RingRow = WITHOUT_DEVICES;

fn any_ring(alloc: Global, draws: &mut Pcg32) -> Option<Ring> {
    let mut row = BARE;
    row.power = 1 + below(draws, 3) as u16;
    row.replicas = 1 + below(draws, 3) as u16;
    row.min_hours = below(draws, 3) as u16;
    let count = 1 + below(draws, 5) as u8;
    row.next_id = u32::from(count);
    let devices = any_devices(alloc, draws, count)?;
    ring_on(alloc, &row, devices, Vec::new(alloc))
}

/// A device of a ring is marked, reweighed or added.
fn any_change(draws: &mut Pcg32, next_id: u32) -> Change {
    let id = below(draws, 8) as u16;
    match below(draws, 4) {
        0 => Change::Marks(id),
        1 => Change::Weighs(id, below(draws, 4) * 50),
        _ => Change::Puts(any_row(draws, u8::try_from(next_id).unwrap_or(255))),
    }
}

/// A ring after a rebalance that is seen to be one, and is counted, or the ring itself where it has too
/// few devices.
fn rebalanced(
    alloc: Global,
    ring: Ring,
    hour: Hour,
    seed: u32,
    count: &mut u32,
) -> Result<Ring, &'static str> {
    match rebalance(alloc, &ring, hour, seed) {
        Ok(done) => {
            check_rebalance(alloc, &ring, hour, &done)?;
            *count = count.saturating_add(1);
            Ok(done.ring)
        }
        Err(PlaceError::TooFewDevices) => Ok(ring),
        Err(PlaceError::NoMemory) => Err("no memory"),
    }
}

/// Rebalances a random ring, with changes between, and counts it.
fn rebalance_often(alloc: Global, draws: &mut Pcg32, count: &mut u32) -> Seen {
    let Some(first) = any_ring(alloc, draws) else {
        return Err("no ring");
    };
    let mut ring = first;
    let mut hour = 0u32;
    for _ in 0..5 {
        let seed = draws.next_u32();
        ring = rebalanced(alloc, ring, hour, seed, count)?;
        hour = hour.saturating_add(below(draws, 3));
        let change = any_change(draws, ring.next_id());
        ring = match after(alloc, &ring, &[change]) {
            Some(changed) => changed,
            None => return Err("no ring"),
        };
    }
    Ok(())
}

/// How many rebalances of 20,000 random rings there are, or the fact that does not hold of one.
fn all_rebalances(alloc: Global) -> Result<u32, &'static str> {
    let mut draws = draws_of(1);
    let mut count = 0u32;
    for _ in 0..20_000 {
        rebalance_often(alloc, &mut draws, &mut count)?;
    }
    Ok(count)
}

#[test]
fn random_rings_are_rebalanced_as_is_promised(rt: HostRuntime) -> Result<(), Fail> {
    assert!(rt; all_rebalances(rt.alloc())? > 50_000);
    Ok(())
}
