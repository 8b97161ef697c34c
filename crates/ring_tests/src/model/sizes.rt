//! The greatest rings, and those that are too large.
use super::SMALL_RING;
use crate::fixtures::{
    DEVICE_0, DeviceRow, RingRow, WITHOUT_DEVICES, push_spelled, ring_on, seats_in_turn,
    spelled_parts, spelled_ring,
};
use ring_model::{BuildFault, RaiseFault, Ring, RingParts};
use ring_words::Device;
use std::alloc::{AllocError, Global};
use std::rc::RcStr;

/// So many devices on ports of their own.
fn devices_in_number(alloc: Global, count: u16) -> Option<Vec<Device>> {
    let mut devices = Vec::new(alloc);
    for id in 0..count {
        let place = (id % 250) as u8;
        let row = DeviceRow {
            id,
            place,
            server: place,
            port: id.saturating_add(6200),
            weight: 100,
            ..DEVICE_0
        };
        push_spelled(alloc, &mut devices, &row)?;
    }
    Some(devices)
}

/// So many texts of versions 0 and up.
fn texts_in_number(alloc: Global, count: u32) -> Result<Vec<(u32, RcStr)>, AllocError> {
    let mut texts = Vec::new(alloc);
    for version in 0..count {
        texts.push((version, RcStr::from_str(alloc, "text")?))?;
    }
    Ok(texts)
}

/// The small ring's parts with so many devices, and so many texts.
fn parts_in_number(alloc: Global, devices: u16, texts: u32) -> Option<RingParts> {
    let mut parts = spelled_parts(alloc, &SMALL_RING)?;
    parts.next_id = 65536;
    parts.devices = devices_in_number(alloc, devices)?;
    parts.published = texts_in_number(alloc, texts).ok()?;
    Some(parts)
}

/// Numbers of devices and of texts, and whether parts with so many make a ring.
static SIZES: [(u16, u32, bool); 4] = [
    (256, 1, true), // 256 devices are the most
    (257, 1, false), // more than 256 devices make no ring
    (2, 1000, true), // 1000 texts are the most
    (2, 1001, false), // more than 1000 texts make no ring
];

/// Whether parts with so many devices and texts make a ring that has them all, or none.
fn is_sized(alloc: Global, devices: u16, texts: u32, makes_ring: bool) -> bool {
    let Some(parts) = parts_in_number(alloc, devices, texts) else {
        return false;
    };
    match Ring::build(alloc, parts) {
        Ok(ring) => {
            makes_ring
                && ring.devices().len() == usize::from(devices)
                && ring.published_list().len() == texts as usize
        }
        Err(fault) => !makes_ring && fault == BuildFault::Invalid,
    }
}

#[test]
fn devices_and_texts_are_limited(rt: HostRuntime) {
    for (devices, texts, makes_ring) in &SIZES {
        let is_sized = is_sized(rt.alloc(), *devices, *texts, *makes_ring);
        assert!(rt; is_sized, "{devices} {texts}");
    }
}

/// Whether the small ring is raised to power 14, and no further.
fn is_raised_to_14_alone(alloc: Global) -> Option<bool> {
    let mut ring = spelled_ring(alloc, &SMALL_RING)?;
    for _ in ring.power().get()..14 {
        ring = ring.raised().ok()?;
    }
    Some(ring.power().get() == 14 && matches!(ring.raised(), Err(RaiseFault::PowerLimit)))
}

#[test]
fn no_ring_is_raised_past_power_14(rt: HostRuntime) {
    assert!(rt; matches!(is_raised_to_14_alone(rt.alloc()), Some(true)));
}

/// What the largest ring is made of beside its devices and seats.
static LARGEST: RingRow =
    ring_like!(WITHOUT_DEVICES, power: 14, replicas: 5, min_hours: 0, version: 1);

/// The parts of the largest ring, once it is built.
fn largest_parts(alloc: Global) -> Option<RingParts> {
    let devices = devices_in_number(alloc, 256)?;
    let seats = seats_in_turn(alloc, 81_920, 256)?;
    ring_on(alloc, &LARGEST, devices, seats)?.parts().ok()
}

fn is_read_back(alloc: Global) -> Option<bool> {
    let parts = largest_parts(alloc)?;
    let are_all = parts.seats.len() == 81_920 && parts.moved.len() == 16_384;
    let is_last = parts.seats.get(81_919).copied() == Some(255);
    Some(are_all && is_last && parts.devices.len() == 256)
}

#[test]
fn the_largest_ring_is_built_and_read_back(rt: HostRuntime) {
    assert!(rt; matches!(is_read_back(rt.alloc()), Some(true)));
}
