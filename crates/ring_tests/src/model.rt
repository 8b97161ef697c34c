//! Rings and lists of rings: worked examples, and that calls succeed where there is memory.
mod lists;
mod sizes;
mod steps;

use crate::fixtures::{
    DEVICE_0, DEVICE_1, DeviceRow, RingRow, WITHOUT_DEVICES, new_ring, spelled_parts,
};
use ring_model::{BuildFault, Ring, RingParts};
use ring_words::Device;
use std::alloc::Global;

/// A ring of power 1 with two replicas, on devices 0 and 1.
const SMALL: RingRow = ring_like!(WITHOUT_DEVICES, replicas: 2, next_id: 2, version: 3,
    devices: &[DEVICE_0, DEVICE_1], seats: &[0, 1, 1, 0], moved: &[Some(7), None],
    published: &[(3, "text")]);

/// That ring, as tests name it.
static SMALL_RING: RingRow = SMALL;

/// Whether a ring has the figures and lists of these parts.
fn has_parts(ring: &Ring, parts: &RingParts) -> bool {
    ring.power() == parts.power
        && ring.replicas() == parts.replicas
        && ring.min_hours() == parts.min_hours
        && ring.next_id() == parts.next_id
        && ring.version() == parts.version
        && ring.devices() == parts.devices.as_slice()
        && ring.seats() == parts.seats.as_slice()
        && ring.moves() == parts.moved.as_slice()
        && ring.is_assigned() != parts.seats.is_empty()
}

/// Whether a ring knows these devices by their numbers and places, and none of number 2 unless it
/// is one of them.
fn knows_devices(ring: &Ring, devices: &[Device]) -> bool {
    for device in devices {
        let is_known = ring.has_device(device.id)
            && ring.has_place(&device.row)
            && device.row.has_place_in(ring.devices());
        if !is_known || ring.has_present(device.id) == device.removed {
            return false;
        }
    }
    ring.has_device(2) == (devices.len() > 2)
}

/// The text of a version in a table.
fn text_in<'a>(rows: &[(u32, &'a str)], version: u32) -> Option<&'a str> {
    for (number, text) in rows {
        if *number == version {
            return Some(text);
        }
    }
    None
}

/// Whether a ring has these texts, and no others under versions 0 to 4.
fn has_texts(ring: &Ring, rows: &[(u32, &str)]) -> bool {
    for version in 0..5 {
        if ring.published(version) != text_in(rows, version) {
            return false;
        }
    }
    ring.published_list().len() == rows.len()
        && ring.is_published() == text_in(rows, ring.version()).is_some()
}

/// Whether a ring is the one that a row of a table spells.
fn is_ring(alloc: Global, ring: &Ring, row: &RingRow) -> bool {
    match spelled_parts(alloc, row) {
        Some(parts) => {
            has_parts(ring, &parts)
                && knows_devices(ring, &parts.devices)
                && has_texts(ring, row.published)
        }
        None => false,
    }
}

/// What a new ring is.
static EMPTY: RingRow = ring_like!(WITHOUT_DEVICES, power: 2, next_id: 0, moved: &[None; 4]);

fn is_empty_at_first(alloc: Global) -> bool {
    match new_ring(alloc, 2, 24) {
        Some(ring) => is_ring(alloc, &ring, &EMPTY),
        None => false,
    }
}

#[test]
fn a_new_ring_is_empty(rt: HostRuntime) {
    assert!(rt; is_empty_at_first(rt.alloc()));
}

/// Parts that make no ring, by what is wrong with them.
static REFUSED: [RingRow; 15] = [
    // two devices at one place
    ring_like!(SMALL,
        devices: &[DEVICE_0, device_like!(DEVICE_1, place: 0, server: 0, weight: 5000)]),
    ring_like!(SMALL, seats: &[0, 1]), // seats of one partition alone
    ring_like!(SMALL, seats: &[0, 1, 1, 7]), // a seat on no device
    ring_like!(SMALL, seats: &[0, 0, 1, 0]), // two seats of a partition on one device
    ring_like!(SMALL, next_id: 1), // a next number that a device has
    // two devices of one number
    ring_like!(SMALL, devices: &[DEVICE_0, device_like!(DEVICE_1, id: 0)]),
    ring_like!(SMALL, devices: &[DEVICE_1, DEVICE_0]), // devices by falling number
    ring_like!(SMALL, moved: &[Some(7)]), // a partition without its hour
    ring_like!(SMALL, next_id: 65537), // a next number past 65536
    ring_like!(SMALL, published: &[(3, "text"), (3, "again")]), // two texts of one version
    ring_like!(SMALL, published: &[(3, "text"), (1, "older")]), // texts by falling version
    ring_like!(SMALL, seats: &[0, 1, 1, 0, 0]), // a seat too many
    ring_like!(SMALL, power: 2), // a greater power
    ring_like!(SMALL, moved: &[Some(7), None, None]), // an hour too many
    ring_like!(SMALL, replicas: 1), // fewer replicas
];

/// Whether parts that a row spells make no ring.
fn make_none(alloc: Global, row: &RingRow) -> bool {
    match spelled_parts(alloc, row) {
        Some(parts) => matches!(Ring::build(alloc, parts), Err(BuildFault::Invalid)),
        None => false,
    }
}

#[test]
fn parts_that_make_no_ring_are_refused(rt: HostRuntime) {
    for (place, row) in REFUSED.iter().enumerate() {
        assert!(rt; make_none(rt.alloc(), row), "{place}");
    }
}
