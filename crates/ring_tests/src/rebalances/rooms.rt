//! The room of the devices of a ring: worked examples, and that the least crowded device is that of a
//! plain scan.
ghost use Rattle.std.specs.Prelude.{IfSome, true, ◌≡◌};
ghost use Rattle.ring_model.specs.Ring.{has_device};

use super::{Change, ONE_DOUBLE, after, assigned_ring, wide_ring};
use crate::fixtures::{DEVICE_0, RingRow, WITHOUT_DEVICES, spelled_ring};
use crate::random_rings::below;
use crate::scans::{crowd_among, has_room};
use rand_core::Rng;
use rand_pcg::Pcg32;
use ring_deal::draws_of;
use ring_model::Ring;
use ring_place::{Room, rebalance};
use ring_share::wanted;
use ring_words::DeviceId;
use std::alloc::Global;

/// Whether it shows at a glance that no device is less crowded for three seats.
fn is_calm_row(room: &Room, ring: &Ring, row: &[u16]) -> bool
    requires { room.now.devices ≡ ring.now.devices }
{
    let [one, two, three] = row else {
        return false;
    };
    if !ring.has_device(*one) || !ring.has_device(*two) || !ring.has_device(*three) {
        return false;
    }
    room.is_calm(&[Some(*one), Some(*two), Some(*three)])
}

/// The room that devices of a ring have.
fn room_of(alloc: Global, ring: &Ring) -> Option<Room>
    ensures { IfSome result (λ room. room.devices ≡ ring.now.devices) }
{
    let Ok(wants) = wanted(alloc, ring) else {
        return None;
    };
    match Room::of(alloc, ring, &wants) {
        Ok(room) => Some(room),
        Err(_) => None,
    }
}

/// How many partitions of a ring are calm in its room.
fn calm_rows(alloc: Global, ring: &Ring) -> Option<usize> {
    let room = room_of(alloc, ring)?;
    let mut count = 0;
    for row in ring.seats().chunks(3) {
        let is_calm = room.has_some_room() && is_calm_row(&room, ring, row);
        count = usize::from(is_calm).saturating_add(count);
    }
    Some(count)
}

/// How many partitions are calm where one device of an assigned ring wants more.
fn calm_apart(alloc: Global) -> Option<usize> {
    let ring = assigned_ring(alloc, &ONE_DOUBLE, 7)?;
    calm_rows(alloc, &after(alloc, &ring, &[Change::Weighs(0, 30_000)])?)
}

#[test]
fn partitions_that_stand_apart_are_calm(rt: HostRuntime) {
    assert!(rt; calm_apart(rt.alloc()) == Some(256));
}

/// Whether a device has room and is none of some others.
fn is_free(ring: &Ring, wanted: &[u32], others: &[DeviceId], id: DeviceId) -> bool {
    has_room(ring, wanted, id) && !others.contains(&id)
}

/// The crowd of the least crowded device that is free, by a scan of all devices.
fn scanned_least(ring: &Ring, wanted: &[u32], others: &[DeviceId]) -> Option<usize> {
    let mut least = None;
    for device in ring.devices() {
        if is_free(ring, wanted, others, device.id) {
            let crowd = crowd_among(ring, others, device.id);
            least = Some(crowd.min(least.unwrap_or(crowd)));
        }
    }
    least
}

/// Whether a device that was found is free and of the least crowd of a scan, or none is free.
fn is_scanned_least(
    ring: &Ring,
    wanted: &[u32],
    others: &[DeviceId],
    found: Option<DeviceId>,
) -> bool {
    let scanned = scanned_least(ring, wanted, others);
    match found {
        Some(id) => {
            is_free(ring, wanted, others, id) && scanned == Some(crowd_among(ring, others, id))
        }
        None => scanned.is_none(),
    }
}

/// For a seat with up to four others anywhere: the crowd of the device that is found is the least
/// of a scan of all devices.
fn least_is_scanned(room: &Room, ring: &Ring, wanted: &[u32], draws: &mut Pcg32) -> bool
    requires { room.now.devices ≡ ring.now.devices }
{
    let others = [
        below(draws, 256) as u16,
        below(draws, 256) as u16,
        below(draws, 256) as u16,
        below(draws, 256) as u16,
    ];
    if !ring.has_device(others[0])
        || !ring.has_device(others[1])
        || !ring.has_device(others[2])
        || !ring.has_device(others[3])
    {
        return false;
    }
    let places = [
        room.place_of(others[0]),
        room.place_of(others[1]),
        room.place_of(others[2]),
        room.place_of(others[3]),
    ];
    let count = below(draws, 5) as usize;
    let least = match room.least_at(&places[..count], draws.next_u32()) {
        Some(place) => Some(room.id_of(place)),
        None => None,
    };
    is_scanned_least(ring, wanted, &others[..count], least)
}

/// Whether twenty such devices of a ring are those of scans.
fn are_scanned(alloc: Global, ring: &Ring, draws: &mut Pcg32) -> Option<bool> {
    let room = room_of(alloc, ring)?;
    let wants = wanted(alloc, ring).ok()?;
    for _ in 0..20 {
        if !least_is_scanned(&room, ring, &wants, draws) {
            return Some(false);
        }
    }
    Some(true)
}

/// A ring with another weight at one of its devices, after it was rebalanced in each tenth round.
fn next_ring(alloc: Global, ring: Ring, round: u32, draws: &mut Pcg32) -> Option<Ring> {
    let mut ring = ring;
    if round % 10 == 0 {
        ring = rebalance(alloc, &ring, round, 7).ok()?.ring;
    }
    let id = below(draws, 256) as u16;
    after(alloc, &ring, &[Change::Weighs(id, below(draws, 40_000))])
}

/// In how many rounds the devices of a ring of 256 are those of scans, up to the first other one.
fn scanned_rounds(alloc: Global) -> Option<u32> {
    let mut draws = draws_of(3);
    let mut ring = wide_ring(alloc, 6)?;
    for round in 0..30u32 {
        if !are_scanned(alloc, &ring, &mut draws)? {
            return Some(round);
        }
        ring = next_ring(alloc, ring, round, &mut draws)?;
    }
    Some(30)
}

#[test]
fn the_least_crowded_of_256_devices_is_that_of_a_scan(rt: HostRuntime) {
    assert!(rt; scanned_rounds(rt.alloc()) == Some(30));
}

/// Whether device 0, wanted for two seats, has room until both are taken.
fn is_filled_and_emptied(room: Room) -> bool
    requires { has_device 0 room.devices ≡ true }
{
    let mut room = room;
    let empty = room.least_at(&[], 7);
    room.put(0);
    let half = room.has_room(0);
    room.put(0);
    let full = room.least_at(&[], 7);
    let is_full = !room.has_room(0) && full.is_none();
    room.take(0);
    empty == Some(0) && half && is_full && room.has_room(0)
}

/// A ring of two partitions and one replica, of one device.
static OF_ONE: RingRow = ring_like!(WITHOUT_DEVICES, next_id: 1, devices: &[DEVICE_0]);

/// Whether the device of that ring, wanted for two seats, has room until both are taken.
fn has_room_for_two(alloc: Global) -> Option<bool> {
    let ring = spelled_ring(alloc, &OF_ONE)?;
    if !ring.has_device(0) || wanted(alloc, &ring).ok()?.as_slice() != [2].as_slice() {
        return None;
    }
    Some(is_filled_and_emptied(room_of(alloc, &ring)?))
}

#[test]
fn a_room_is_filled_and_emptied(rt: HostRuntime) {
    assert!(rt; matches!(has_room_for_two(rt.alloc()), Some(true)));
}
