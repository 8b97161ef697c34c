//! Rebalances of rings: worked examples, and rings of full size.
mod rooms;

use crate::fixtures::{
    DEVICE_0, DEVICE_1, DEVICE_2, DEVICE_3, DeviceRow, RingRow, WITHOUT_DEVICES, push_spelled,
    ring_on, spelled_ring,
};
use crate::scans::have;
use ring_model::{Ring, RingParts};
use ring_place::{PlaceError, Rebalanced, rebalance};
use ring_words::{Device, Hour, Weight};
use std::alloc::Global;

/// What is done to a ring before it is rebalanced.
#[derive(Clone, Copy)]
pub enum Change {
    /// A device is added, and the number behind its own is next.
    Puts(DeviceRow),
    Marks(u16),
    /// A device gets another weight, in hundredths.
    Weighs(u16, u32),
}

/// Gives the device of a number this weight, or marks it to be removed where there is none.
fn alter_device(devices: &mut Vec<Device>, id: u16, weight: Option<Weight>) {
    for device in devices.iter_mut() {
        if device.id == id {
            match weight {
                Some(weight) => device.row.weight = weight,
                None => device.removed = true,
            }
        }
    }
}

/// Does a change to the parts of a ring.
fn alter(alloc: Global, parts: &mut RingParts, change: &Change) -> Option<()> {
    match change {
        Change::Puts(row) => {
            parts.next_id = u32::from(row.id).saturating_add(1);
            push_spelled(alloc, &mut parts.devices, row)?;
        }
        Change::Marks(id) => alter_device(&mut parts.devices, *id, None),
        Change::Weighs(id, weight) => {
            alter_device(&mut parts.devices, *id, Some(Weight::of(*weight)?));
        }
    }
    Some(())
}

/// A ring after changes, one after another.
pub fn after(alloc: Global, ring: &Ring, changes: &[Change]) -> Option<Ring> {
    let mut parts = ring.parts().ok()?;
    for change in changes {
        alter(alloc, &mut parts, change)?;
    }
    Ring::build(alloc, parts).ok()
}

/// A ring without seats, of two partitions and two replicas, whose partitions are free at once.
const OF_TWO: RingRow = ring_like!(WITHOUT_DEVICES, replicas: 2, min_hours: 0, next_id: 2,
    devices: &[DEVICE_0, DEVICE_1]);

/// That ring, as tests name it.
static PAIR: RingRow = OF_TWO;

fn takes_every_seat(alloc: Global) -> Option<bool> {
    let done = rebalance(alloc, &spelled_ring(alloc, &PAIR)?, 5, 7).ok()?;
    let is_stamped = done.ring.moves() == [Some(5), Some(5)].as_slice();
    Some(done.changed == 4 && has_seats(&done.ring, &[2, 2, 0, 0]) && is_stamped)
}

#[test]
fn a_first_rebalance_takes_every_seat(rt: HostRuntime) {
    assert!(rt; matches!(takes_every_seat(rt.alloc()), Some(true)));
}

/// A rebalance, and what comes of it.
#[derive(Clone, Copy)]
struct Step {
    before: &'static [Change],
    hour: Hour,
    seed: u32,
    /// How many seats it changes.
    changed: u32,
    /// How many seats devices 0 to 3 have after it.
    seats: [usize; 4],
    /// How many devices there are then, where a test asks.
    devices: Option<usize>,
}

/// A rebalance at hour 0, which takes no seats.
const AT_FIRST: Step = Step {
    before: &[],
    hour: 0,
    seed: 7,
    changed: 0,
    seats: [0; 4],
    devices: None,
};

/// A step that differs from another one in some fields.
macro_rules! step_like {
    ($base:ident, $($field:ident: $value:expr),+) => { Step { $($field: $value,)+ ..$base } };
}

/// Whether devices 0 to 3 have so many seats.
fn has_seats(ring: &Ring, seats: &[usize; 4]) -> bool {
    have(ring, 0) == seats[0]
        && have(ring, 1) == seats[1]
        && have(ring, 2) == seats[2]
        && have(ring, 3) == seats[3]
}

/// Whether a rebalance is as a step says.
fn is_as_told(done: &Rebalanced, step: &Step) -> bool {
    let devices = done.ring.devices().len();
    done.changed == step.changed
        && has_seats(&done.ring, &step.seats)
        && devices == step.devices.unwrap_or(devices)
}

/// A ring after a step, where its rebalance is as the step says.
fn stepped(alloc: Global, ring: &Ring, step: &Step) -> Option<Ring> {
    let changed = after(alloc, ring, step.before)?;
    let done = rebalance(alloc, &changed, step.hour, step.seed).ok()?;
    if is_as_told(&done, step) {
        Some(done.ring)
    } else {
        None
    }
}

/// A ring without seats, and the steps of its rebalances.
struct Story {
    ring: RingRow,
    steps: &'static [Step],
}

/// Whether the rebalances of a ring, one after another, are as their steps say.
fn is_so(alloc: Global, story: &Story) -> bool {
    let Some(first) = spelled_ring(alloc, &story.ring) else {
        return false;
    };
    let mut ring = first;
    for step in story.steps {
        ring = match stepped(alloc, &ring, step) {
            Some(next) => next,
            None => return false,
        };
    }
    true
}

/// A device comes in, and another leaves.
static OF_EIGHT_SEATS: Story = Story {
    ring: ring_like!(OF_TWO, power: 2, min_hours: 24, moved: &[None; 4]),
    steps: &[
        step_like!(AT_FIRST, changed: 8, seats: [4, 4, 0, 0]),
        step_like!(AT_FIRST, before: &[Change::Puts(DEVICE_2), Change::Marks(0)], hour: 1,
            changed: 4, seats: [0, 4, 4, 0], devices: Some(2)),
    ],
};

#[test]
fn power_two_takes_eight_seats(rt: HostRuntime) {
    assert!(rt; is_so(rt.alloc(), &OF_EIGHT_SEATS));
}

/// A device comes in while partitions are locked, and gets seats once they are free.
static OF_MOVED_PARTITIONS: Story = Story {
    ring: ring_like!(WITHOUT_DEVICES, power: 2, next_id: 1, devices: &[DEVICE_0],
        moved: &[None; 4]),
    steps: &[
        step_like!(AT_FIRST, hour: 100, changed: 4, seats: [4, 0, 0, 0]),
        step_like!(AT_FIRST, before: &[Change::Puts(DEVICE_1)], hour: 123, seats: [4, 0, 0, 0]),
        step_like!(AT_FIRST, hour: 124, changed: 2, seats: [2, 2, 0, 0]),
    ],
};

#[test]
fn a_moved_partition_stays_for_its_hours(rt: HostRuntime) {
    assert!(rt; is_so(rt.alloc(), &OF_MOVED_PARTITIONS));
}

/// A device comes in and another is drained while partitions are locked.
static OF_A_DRAINED_DEVICE: Story = Story {
    ring: ring_like!(OF_TWO, power: 2, min_hours: 24, moved: &[None; 4]),
    steps: &[
        step_like!(AT_FIRST, changed: 8, seats: [4, 4, 0, 0]),
        step_like!(AT_FIRST, before: &[Change::Puts(DEVICE_2), Change::Weighs(1, 0)], hour: 1,
            seats: [4, 4, 0, 0]),
        step_like!(AT_FIRST, hour: 24, changed: 4, seats: [4, 0, 4, 0]),
    ],
};

#[test]
fn a_drained_device_keeps_its_seats_while_they_are_locked(rt: HostRuntime) {
    assert!(rt; is_so(rt.alloc(), &OF_A_DRAINED_DEVICE));
}

/// A device wants more than a seat of each partition.
static BEYOND_REACH: Story = Story {
    ring: ring_like!(OF_TWO, power: 2,
        devices: &[device_like!(DEVICE_0, weight: 30_000), DEVICE_1], moved: &[None; 4]),
    steps: &[
        step_like!(AT_FIRST, changed: 8, seats: [4, 4, 0, 0]),
        step_like!(AT_FIRST, seats: [4, 4, 0, 0]),
    ],
};

#[test]
fn a_want_beyond_reach_leaves_room(rt: HostRuntime) {
    assert!(rt; is_so(rt.alloc(), &BEYOND_REACH));
}

/// Two devices come in at once.
static OF_OVERFULL_DEVICES: Story = Story {
    ring: OF_TWO,
    steps: &[
        step_like!(AT_FIRST, changed: 4, seats: [2, 2, 0, 0]),
        step_like!(AT_FIRST, before: &[Change::Puts(DEVICE_2), Change::Puts(DEVICE_3)],
            changed: 2, seats: [1; 4]),
        step_like!(AT_FIRST, seed: 8, seats: [1; 4]),
    ],
};

#[test]
fn one_seat_a_partition_leaves_overfull_devices(rt: HostRuntime) {
    assert!(rt; is_so(rt.alloc(), &OF_OVERFULL_DEVICES));
}

/// A device of half the weight comes in, in another region.
static OF_A_FAR_DEVICE: Story = Story {
    ring: OF_TWO,
    steps: &[
        step_like!(AT_FIRST, changed: 4, seats: [2, 2, 0, 0]),
        step_like!(AT_FIRST,
            before: &[Change::Puts(device_like!(DEVICE_2, region: 2, weight: 5000))], changed: 1,
            seats: [2, 1, 1, 0]),
    ],
};

#[test]
fn one_place_takes_one_of_two_seats(rt: HostRuntime) {
    assert!(rt; is_so(rt.alloc(), &OF_A_FAR_DEVICE));
}

/// A ring of two replicas, of whose devices one is open.
static OF_ONE_OPEN_DEVICE: RingRow = ring_like!(OF_TWO,
    devices: &[DEVICE_0, device_like!(DEVICE_1, weight: 0)]);

fn has_too_few(alloc: Global) -> bool {
    match spelled_ring(alloc, &OF_ONE_OPEN_DEVICE) {
        Some(ring) => matches!(
            rebalance(alloc, &ring, 0, 7),
            Err(PlaceError::TooFewDevices)
        ),
        None => false,
    }
}

#[test]
fn fewer_open_devices_than_replicas_are_too_few(rt: HostRuntime) {
    assert!(rt; has_too_few(rt.alloc()));
}

/// The 256 devices of a ring in three regions of seven zones, two on a server.
fn wide_devices(alloc: Global) -> Option<Vec<Device>> {
    let mut devices = Vec::new(alloc);
    for number in 0..=255u8 {
        let row = DeviceRow {
            id: u16::from(number),
            place: number,
            server: number / 2,
            region: u16::from(number % 3),
            zone: u16::from(number % 7),
            weight: 10_000 + u32::from(number) * 10,
            ..DEVICE_0
        };
        push_spelled(alloc, &mut devices, &row)?;
    }
    Some(devices)
}

/// What the ring of these devices is made of beside them.
static OF_256: RingRow = ring_like!(WITHOUT_DEVICES, replicas: 5, min_hours: 0, next_id: 256);

/// A ring of 5 replicas without seats, of those devices.
fn wide_ring(alloc: Global, power: u16) -> Option<Ring> {
    let mut row = OF_256;
    row.power = power;
    ring_on(alloc, &row, wide_devices(alloc)?, Vec::new(alloc))
}

fn taken_at_full_size(alloc: Global) -> Option<u32> {
    let done = rebalance(alloc, &wide_ring(alloc, 14)?, 0, 7).ok()?;
    Some(done.changed)
}

#[test]
fn a_ring_of_full_size_is_assigned(rt: HostRuntime) {
    assert!(rt; taken_at_full_size(rt.alloc()) == Some(81_920));
}

/// Where devices are.
struct Spots {
    /// The zone of each.
    zones: &'static [u16],
    /// How many of them, from the first on, have the weight below. The others have 100.00.
    first: u8,
    /// In hundredths.
    weight: u32,
}

/// A device on a server of its own in a zone of region 1.
fn in_zone(number: u8, zone: u16, weight: u32) -> DeviceRow {
    DeviceRow {
        id: u16::from(number),
        place: number,
        server: number,
        zone,
        weight,
        ..DEVICE_0
    }
}

/// A device at each spot.
fn devices_at(alloc: Global, spots: &Spots) -> Option<Vec<Device>> {
    let mut devices = Vec::new(alloc);
    let mut number = 0u8;
    for zone in spots.zones {
        let weight = if number < spots.first {
            spots.weight
        } else {
            10_000
        };
        let row = in_zone(number, *zone, weight);
        push_spelled(alloc, &mut devices, &row)?;
        number = number.saturating_add(1);
    }
    Some(devices)
}

/// A ring of 256 partitions and three replicas, without devices.
static OF_THREE_REPLICAS: RingRow = ring_like!(WITHOUT_DEVICES, power: 8, replicas: 3, min_hours: 0,
    next_id: 12);

/// Such a ring with up to twelve devices at such spots, once it is assigned.
fn assigned_ring(alloc: Global, spots: &Spots, seed: u32) -> Option<Ring> {
    let devices = devices_at(alloc, spots)?;
    let ring = ring_on(alloc, &OF_THREE_REPLICAS, devices, Vec::new(alloc))?;
    Some(rebalance(alloc, &ring, 0, seed).ok()?.ring)
}

/// The zone of a device.
fn zone_of(spots: &Spots, id: &u16) -> u16 {
    spots.zones.get(usize::from(*id)).copied().unwrap_or(0)
}

/// In how many zones three seats are.
fn zone_count(spots: &Spots, row: &[u16]) -> u32 {
    let [one, two, three] = row else { return 0 };
    let one = zone_of(spots, one);
    let two = zone_of(spots, two);
    let three = zone_of(spots, three);
    1 + u32::from(two != one) + u32::from(three != one && three != two)
}

/// How many partitions of a ring of three replicas are in fewer zones.
fn in_fewer_zones(ring: &Ring, spots: &Spots, count: u32) -> u32 {
    let mut fewer = 0u32;
    for row in ring.seats().chunks(3) {
        fewer = fewer.saturating_add(u32::from(zone_count(spots, row) < count));
    }
    fewer
}

/// Whether devices 1 to 8 have about as many seats each.
fn are_even(ring: &Ring) -> bool {
    for id in 1..9u16 {
        let count = have(ring, id);
        if count < 60 || 68 < count {
            return false;
        }
    }
    true
}

/// Five devices in zone 1, four in zone 2 and three in zone 3.
static UNEVEN: Spots = Spots {
    zones: &[1, 1, 1, 1, 1, 2, 2, 2, 2, 3, 3, 3],
    first: 0,
    weight: 10_000,
};

fn is_in_no_single_zone(alloc: Global) -> Option<bool> {
    let ring = assigned_ring(alloc, &UNEVEN, 7)?;
    Some(ring.seats().len() == 768 && in_fewer_zones(&ring, &UNEVEN, 2) == 0)
}

#[test]
fn uneven_zones_leave_no_partition_in_one_zone(rt: HostRuntime) {
    assert!(rt; matches!(is_in_no_single_zone(rt.alloc()), Some(true)));
}

/// A zone that wants one seat of each partition, and four that want half of that.
static ONE_DOUBLE: Spots = Spots {
    zones: &[1, 1, 2, 2, 3, 3, 4, 4, 5, 5],
    first: 2,
    weight: 20_000,
};

/// How many partitions of such a ring have not their replicas in three zones.
fn close_together(alloc: Global, seed: u32) -> Option<u32> {
    let ring = assigned_ring(alloc, &ONE_DOUBLE, seed)?;
    Some(in_fewer_zones(&ring, &ONE_DOUBLE, 3))
}

#[test]
fn zones_run_out_of_room_together(rt: HostRuntime) {
    for seed in 1..=3u32 {
        assert!(rt; close_together(rt.alloc(), seed) == Some(0), "{seed}");
    }
}

/// A device that wants more than one seat of each partition, and two zones.
static ONE_HEAVY: Spots = Spots {
    zones: &[1, 2, 2, 2, 2, 3, 3, 3, 3],
    first: 1,
    weight: 60_000,
};

/// Whether what the heavy device of such a ring can't take is spread.
fn is_spread(alloc: Global) -> Option<bool> {
    let ring = assigned_ring(alloc, &ONE_HEAVY, 7)?;
    let is_apart = in_fewer_zones(&ring, &ONE_HEAVY, 3) == 0;
    Some(have(&ring, 0) == 256 && is_apart && are_even(&ring))
}

#[test]
fn what_a_device_cannot_take_is_spread(rt: HostRuntime) {
    assert!(rt; matches!(is_spread(rt.alloc()), Some(true)));
}

/// A device of a second region, without weight, comes in.
fn in_second(number: u8) -> Change {
    Change::Puts(DeviceRow {
        region: 2,
        ..in_zone(number, 1, 0)
    })
}

/// A ring with uneven zones, and with four devices more in a second region.
fn with_second_region(alloc: Global) -> Option<Ring> {
    let ring = assigned_ring(alloc, &UNEVEN, 7)?;
    let devices = [in_second(12), in_second(13), in_second(14), in_second(15)];
    after(alloc, &ring, &devices)
}

/// How many seats the devices of the second region have.
fn in_second_region(ring: &Ring) -> usize {
    let mut count = 0usize;
    for id in ring.seats() {
        count = count.saturating_add(usize::from(*id >= 12));
    }
    count
}

/// A ring after a rebalance at another weight of each device of the second region, where no seats
/// change but those that they take.
fn come_in(alloc: Global, ring: &Ring, step: u32) -> Option<Ring> {
    let weight = step.saturating_mul(1_250);
    let weights = [
        Change::Weighs(12, weight),
        Change::Weighs(13, weight),
        Change::Weighs(14, weight),
        Change::Weighs(15, weight),
    ];
    let weighed = after(alloc, ring, &weights)?;
    let done = rebalance(alloc, &weighed, 0, step).ok()?;
    let taken = in_second_region(&done.ring).saturating_sub(in_second_region(ring));
    if done.changed as usize == taken {
        Some(done.ring)
    } else {
        None
    }
}

/// How many seats the second region has once it came in by steps.
fn second_region_at_last(alloc: Global) -> Option<usize> {
    let mut ring = with_second_region(alloc)?;
    for step in 1..=8u32 {
        ring = come_in(alloc, &ring, step)?;
    }
    Some(in_second_region(&ring))
}

#[test]
fn seats_go_home_when_a_region_comes_in_by_steps(rt: HostRuntime) {
    assert!(rt; second_region_at_last(rt.alloc()) == Some(192));
}
