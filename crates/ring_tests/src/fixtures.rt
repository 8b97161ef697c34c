//! Rows, devices and rings that the tests start from, most of them spelled in tables.
use ring_model::{Ring, RingParts, Rings};
use ring_text::{Snapshot, snapshot, write_ring};
use ring_words::{Address, Device, DeviceName, Hour, Port, Power, Replicas, RingName, Row, Weight};
use std::alloc::{AllocError, Global};
use std::rc::RcStr;

/// A device as tables spell it: under the name `dP` at 10.0.0.(S+1), where P is its place and S its
/// server, of a weight in hundredths.
#[derive(Clone, Copy)]
pub struct DeviceRow {
    pub id: u16,
    pub place: u8,
    pub server: u8,
    pub region: u16,
    pub zone: u16,
    pub port: u16,
    pub weight: u32,
    pub removed: bool,
}

pub const DEVICE_0: DeviceRow = DeviceRow {
    id: 0,
    place: 0,
    server: 0,
    region: 1,
    zone: 1,
    port: 6200,
    weight: 10_000,
    removed: false,
};

pub const DEVICE_1: DeviceRow = device_like!(DEVICE_0, id: 1, place: 1, server: 1);

pub const DEVICE_2: DeviceRow = device_like!(DEVICE_0, id: 2, place: 2, server: 2);

pub const DEVICE_3: DeviceRow = device_like!(DEVICE_0, id: 3, place: 3, server: 3);

/// The parts of a ring as tables spell them.
#[derive(Clone, Copy)]
pub struct RingRow {
    pub power: u16,
    pub replicas: u16,
    pub min_hours: u16,
    pub next_id: u32,
    pub version: u32,
    pub devices: &'static [DeviceRow],
    pub seats: &'static [u16],
    pub moved: &'static [Option<Hour>],
    pub published: &'static [(u32, &'static str)],
}

/// A ring without devices.
pub const WITHOUT_DEVICES: RingRow = RingRow {
    power: 1,
    replicas: 1,
    min_hours: 24,
    next_id: 65536,
    version: 0,
    devices: &[],
    seats: &[],
    moved: &[None; 2],
    published: &[],
};

/// Devices 0 and 1 on two servers of region 1, and device 2 of twice their weight in region 2,
/// where no seats are.
pub const NEAR: RingRow = ring_like!(WITHOUT_DEVICES, replicas: 2, version: 4,
    devices: &[DEVICE_0, DEVICE_1, device_like!(DEVICE_2, region: 2, weight: 20_000)],
    seats: &[0, 1, 0, 1]);

/// Those devices, with a seat in region 2.
pub const FAR: RingRow = ring_like!(NEAR, seats: &[0, 1, 0, 2]);

/// Devices of four weights without seats.
pub const OF_FOUR_WEIGHTS: RingRow = ring_like!(WITHOUT_DEVICES, power: 3, replicas: 2, version: 4,
    devices: &[
        DEVICE_0,
        device_like!(DEVICE_1, weight: 5000),
        device_like!(DEVICE_2, weight: 2500),
        device_like!(DEVICE_3, weight: 0),
    ],
    moved: &[None; 8]);

/// Three devices of one weight without seats.
pub const OF_ONE_WEIGHT: RingRow = ring_like!(WITHOUT_DEVICES, power: 2, replicas: 2, version: 3,
    devices: &[DEVICE_0, DEVICE_1, DEVICE_2], moved: &[None; 4]);

/// The address 10.0.0.(S+1) of a server.
fn address(alloc: Global, server: u8) -> Option<Address> {
    let text = format!(in alloc; "10.0.0.{}", server.saturating_add(1)).ok()?;
    Address::parse(text.as_str())
}

/// The name `dP` of a place.
fn name(alloc: Global, place: u8) -> Option<DeviceName> {
    let text = format!(in alloc; "d{place}").ok()?;
    DeviceName::new(alloc, text.as_str()).ok()
}

/// The device that a row of a table spells.
pub fn spelled(alloc: Global, row: &DeviceRow) -> Option<Device> {
    let own = Row {
        region: row.region,
        zone: row.zone,
        address: address(alloc, row.server)?,
        port: Port::new(row.port)?,
        weight: Weight::of(row.weight)?,
        name: name(alloc, row.place)?,
    };
    Some(Device {
        id: row.id,
        row: own,
        removed: row.removed,
    })
}

/// Puts the device that a row of a table spells behind others.
pub fn push_spelled(alloc: Global, devices: &mut Vec<Device>, row: &DeviceRow) -> Option<()> {
    devices.push(spelled(alloc, row)?).ok()
}

/// The devices that a table spells.
pub fn spelled_devices(alloc: Global, rows: &[DeviceRow]) -> Option<Vec<Device>> {
    let mut devices = Vec::new(alloc);
    for row in rows {
        push_spelled(alloc, &mut devices, row)?;
    }
    Some(devices)
}

/// The texts that a table spells, under their versions.
fn texts(alloc: Global, rows: &[(u32, &str)]) -> Result<Vec<(u32, RcStr)>, AllocError> {
    let mut texts = Vec::new(alloc);
    for (version, text) in rows {
        texts.push((*version, RcStr::from_str(alloc, text)?))?;
    }
    Ok(texts)
}

/// The parts that a row of a table spells, without its devices and texts.
fn bare_parts(alloc: Global, row: &RingRow) -> Option<RingParts> {
    Some(RingParts {
        power: Power::new(row.power)?,
        replicas: Replicas::new(row.replicas)?,
        min_hours: row.min_hours,
        next_id: row.next_id,
        version: row.version,
        devices: Vec::new(alloc),
        seats: Vec::from_slice(alloc, row.seats).ok()?,
        moved: Vec::from_slice(alloc, row.moved).ok()?,
        published: Vec::new(alloc),
    })
}

/// The parts that a row of a table spells.
pub fn spelled_parts(alloc: Global, row: &RingRow) -> Option<RingParts> {
    let mut parts = bare_parts(alloc, row)?;
    parts.devices = spelled_devices(alloc, row.devices)?;
    parts.published = texts(alloc, row.published).ok()?;
    Some(parts)
}

/// The ring that a row of a table spells.
pub fn spelled_ring(alloc: Global, row: &RingRow) -> Option<Ring> {
    Ring::build(alloc, spelled_parts(alloc, row)?).ok()
}

/// A ring without devices, of one replica.
pub fn new_ring(alloc: Global, power: u16, min_hours: u16) -> Option<Ring> {
    Ring::new(alloc, Power::new(power)?, Replicas::new(1)?, min_hours).ok()
}

/// Rings with one more, where there is room and none of that name.
pub fn with_ring(alloc: Global, rings: &Rings, name: &str, ring: Ring) -> Option<Rings> {
    let name = RingName::new(alloc, name).ok()?;
    if rings.get(&name).is_some() || rings.list().len() >= 16 {
        return None;
    }
    rings.with(name, ring).ok()
}

/// A ring under its name.
pub type NamedRow = (&'static str, RingRow);

/// The rings that a table spells, under their names.
pub fn spelled_rings(alloc: Global, rows: &[NamedRow]) -> Option<Rings> {
    let mut rings = Rings::new(alloc);
    for (name, row) in rows {
        rings = with_ring(alloc, &rings, name, spelled_ring(alloc, row)?)?;
    }
    Some(rings)
}

/// Seats on so many devices in turn.
pub fn seats_in_turn(alloc: Global, count: usize, devices: u16) -> Option<Vec<u16>> {
    let mut seats = Vec::new(alloc);
    for seat in 0..count {
        seats
            .push((seat % usize::from(devices).max(1)) as u16)
            .ok()?;
    }
    Some(seats)
}

/// The ring that a row spells, on these devices and seats, whose partitions were never moved.
pub fn ring_on(
    alloc: Global,
    row: &RingRow,
    devices: Vec<Device>,
    seats: Vec<u16>,
) -> Option<Ring> {
    let mut parts = bare_parts(alloc, row)?;
    parts.devices = devices;
    parts.seats = seats;
    parts.moved = vec![in alloc; None; 1usize << row.power.min(14)].ok()?;
    Ring::build(alloc, parts).ok()
}

/// The snapshot of an assigned ring under a name.
pub fn taken(alloc: Global, name: &str, ring: &Ring) -> Option<Snapshot> {
    if !ring.is_assigned() {
        return None;
    }
    snapshot(alloc, &RingName::new(alloc, name).ok()?, ring).ok()
}

/// Whether a snapshot is written as this text.
pub fn is_written_as(alloc: Global, taken: &Snapshot, text: &str) -> bool {
    match write_ring(alloc, taken) {
        Ok(written) => written.as_str() == text,
        Err(_) => false,
    }
}

/// A text with another text in place of a part of it.
pub fn changed(alloc: Global, text: &str, part: &str, other: &str) -> Option<String> {
    let (front, back) = text.split_once(part)?;
    [front, other, back].concat(alloc).ok()
}
