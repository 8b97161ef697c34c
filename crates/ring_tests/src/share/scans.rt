//! The fast figures of drawn rings against plain scans.
ghost use Rattle.std.specs.Prelude.{◌<◌};

use crate::fixtures::{DeviceRow, RingRow, WITHOUT_DEVICES, push_spelled, ring_on};
use crate::scans::find_in;
use ring_model::Ring;
use ring_share::{balance, balance_of, dispersion};
use ring_words::Device;
use std::alloc::{AllocError, Global};

/// Numbers that look random.
#[derive(Drop)]
struct Draw {
    state: u64,
}

impl Draw {
    fn below(&mut self, bound: u64) -> u64
        ensures { 0 < bound → result < bound }
    {
        self.state = self
            .state
            .wrapping_mul(6_364_136_223_846_793_005)
            .wrapping_add(1_442_695_040_888_963_407);
        if bound == 0 {
            return 0;
        }
        (self.state >> 33) % bound
    }
}

/// A device under a number: closed or not, in few regions and zones, on few servers.
fn drawn_row(draw: &mut Draw, number: u64) -> DeviceRow {
    let region = draw.below(3) as u16;
    let weight = if draw.below(4) == 0 { 0 } else { 7000 };
    let place = draw.below(3) as u8;
    let number = number % 100;
    DeviceRow {
        id: (3 * number + 1) as u16,
        place,
        server: place,
        region,
        zone: draw.below(2) as u16,
        port: (6200 + number) as u16,
        weight,
        removed: draw.below(6) == 0,
    }
}

/// So many drawn devices.
fn drawn_devices(alloc: Global, draw: &mut Draw, count: u64) -> Option<Vec<Device>> {
    let mut devices = Vec::new(alloc);
    for number in 0..count {
        push_spelled(alloc, &mut devices, &drawn_row(draw, number))?;
    }
    Some(devices)
}

/// The seats of so many partitions, each on so many of the drawn devices in turn.
fn drawn_seats(
    alloc: Global,
    draw: &mut Draw,
    partitions: u64,
    replicas: u64,
    count: u64,
) -> Result<Vec<u16>, AllocError> {
    let mut seats: Vec<u16> = Vec::new(alloc);
    for _ in 0..partitions {
        let first = draw.below(count);
        for replica in 0..replicas {
            seats.push((3 * ((first.saturating_add(replica) % count.max(1)) % 100) + 1) as u16)?;
        }
    }
    Ok(seats)
}

/// The ring that the drawn ones are made from.
static AT_VERSION_1: RingRow = ring_like!(WITHOUT_DEVICES, version: 1);

/// A small assigned ring: some devices closed, on few regions, zones and servers.
fn drawn_ring(alloc: Global, draw: &mut Draw) -> Option<Ring> {
    let replicas = draw.below(4).saturating_add(1);
    let count = draw.below(8).saturating_add(replicas);
    let power = draw.below(3).saturating_add(1);
    let mut row = AT_VERSION_1;
    row.power = power as u16;
    row.replicas = replicas as u16;
    let devices = drawn_devices(alloc, draw, count)?;
    let seats = drawn_seats(alloc, draw, 1u64 << power.min(14), replicas, count).ok()?;
    ring_on(alloc, &row, devices, seats)
}

/// How crowded a device is for a seat of a row, by looking at each other seat.
fn scanned_crowd(
    devices: &[Device],
    row: &[u16],
    replica: usize,
    device: &Device,
) -> (u32, u32, u32) {
    let mut crowd = (0u32, 0u32, 0u32);
    for (other, id) in row.iter().enumerate() {
        let Some(near) = find_in(devices, *id) else {
            continue;
        };
        if other == replica || near.row.region != device.row.region {
            continue;
        }
        crowd.0 = crowd.0.saturating_add(1);
        if near.row.zone == device.row.zone {
            crowd.1 = crowd.1.saturating_add(1);
            if near.row.address == device.row.address {
                crowd.2 = crowd.2.saturating_add(1);
            }
        }
    }
    crowd
}

/// Whether an open device outside a row is less crowded than that for one of its seats, by looking at
/// each device.
fn has_scanned_less(
    devices: &[Device],
    row: &[u16],
    replica: usize,
    least: (u32, u32, u32),
) -> bool {
    for device in devices {
        let is_open = !device.removed && device.row.weight.hundredths() > 0;
        if is_open
            && !row.contains(&device.id)
            && scanned_crowd(devices, row, replica, device) < least
        {
            return true;
        }
    }
    false
}

/// Whether an open device outside a row is less crowded for one of its seats, by looking at each
/// device for each seat.
fn is_scanned_crowded(devices: &[Device], row: &[u16]) -> bool {
    for (replica, id) in row.iter().enumerate() {
        if let Some(own) = find_in(devices, *id) {
            let least = scanned_crowd(devices, row, replica, own);
            if has_scanned_less(devices, row, replica, least) {
                return true;
            }
        }
    }
    false
}

/// How many rows of a ring's seats are crowded, by looking at each device for each seat, and how
/// many rows there are.
fn crowded_rows(ring: &Ring) -> (u32, u32) {
    let mut crowded = 0u32;
    let mut rows = 0u32;
    for row in ring.seats().chunks(usize::from(ring.replicas().get())) {
        rows = rows.saturating_add(1);
        if is_scanned_crowded(ring.devices(), row) {
            crowded = crowded.saturating_add(1);
        }
    }
    (crowded, rows)
}

/// The greatest balance of a ring's devices, or `None` where one has none.
fn greatest_balance(ring: &Ring) -> Option<u32> {
    let mut greatest = 0;
    for device in ring.devices() {
        greatest = balance_of(ring, device.id)?.max(greatest);
    }
    Some(greatest)
}

/// How many rows of the next drawn ring are crowded, or `None` where its figures are not those of
/// plain scans.
fn next_crowded(alloc: Global, draw: &mut Draw) -> Option<u32> {
    let ring = drawn_ring(alloc, draw)?;
    let (crowded, rows) = crowded_rows(&ring);
    let is_dispersed = dispersion(&ring) == crowded.saturating_mul(10_000) / rows.max(1);
    let is_balanced = greatest_balance(&ring) == Some(balance(&ring));
    if is_dispersed && is_balanced {
        Some(crowded)
    } else {
        None
    }
}

/// How many of 300 drawn rings have crowded rows, or `None` where the figures of one are not those of
/// plain scans.
fn crowded_rings(alloc: Global) -> Option<u32> {
    let mut draw = Draw { state: 7 };
    let mut crowded_rings = 0u32;
    for _ in 0..300 {
        let crowded = next_crowded(alloc, &mut draw)?;
        crowded_rings = crowded_rings.saturating_add(crowded.min(1));
    }
    Some(crowded_rings)
}

#[test]
fn figures_are_those_of_plain_scans(rt: HostRuntime) {
    let rings = crowded_rings(rt.alloc()).unwrap_or(0);
    assert!(rt; rings > 50 && rings < 250, "{rings}");
}
