//! What the tests fail by, the rings that they start from, and their rows.
use ring_model::{Ring, RingParts, Rings};
use ring_words::{Address, Device, DeviceName, Hour, Port, Power, Replicas, RingName, Row, Weight};
use std::alloc::Global;
use std::rc::RcStr;
use std::test::Fail;

/// Fails where what a test tells isn't so. Each test tells one thing, so its name says which.
pub fn check(answer: Option<bool>) -> Result<(), Fail> {
    match answer {
        Some(true) => Ok(()),
        Some(false) => Err(Fail::from("it is not so")),
        None => Err(Fail::from("it could not be tried")),
    }
}

/// The address 10.0.0.(N+1).
fn address(alloc: Global, number: u8) -> Option<Address> {
    let text = format!(in alloc; "10.0.0.{}", number.saturating_add(1)).ok()?;
    Address::parse(text.as_str())
}

/// The name `dN`.
fn name(alloc: Global, number: u8) -> Option<DeviceName> {
    let text = format!(in alloc; "d{number}").ok()?;
    DeviceName::new(alloc, text.as_str()).ok()
}

/// Device `dN` at 10.0.0.(N+1), port 6200, in region 1 and zone 1, of weight 100.00.
pub fn device(alloc: Global, number: u8) -> Option<Device> {
    let row = Row {
        region: 1,
        zone: 1,
        address: address(alloc, number)?,
        port: Port::new(6200)?,
        weight: Weight::of(10000)?,
        name: name(alloc, number)?,
    };
    Some(Device {
        id: u16::from(number),
        row,
        removed: false,
    })
}

/// What is with device 0.
#[derive(Clone, Copy, PartialEq, Eq)]
pub enum First {
    Stays,
    /// It is marked to be removed by the next rebalance.
    Marked,
    Gone,
}

/// A ring of power 2 with one replica.
#[derive(Clone, Copy)]
pub struct Shape {
    /// How many devices it was given.
    pub devices: u8,
    pub first: First,
    pub version: u32,
    /// The device of each partition, where there are any.
    pub seats: &'static [u16],
    pub moved: &'static [Option<Hour>],
    /// The version of its only published text.
    pub published: Option<u32>,
}

/// Three devices at version 5: two partitions on each of devices 0 and 1 since hour 0.
pub const SETTLED: Shape = Shape {
    devices: 3,
    first: First::Stays,
    version: 5,
    seats: &[0, 1, 0, 1],
    moved: &[Some(0), Some(0), Some(0), Some(0)],
    published: None,
};

/// As the fifth worked example leaves it: one partition went from device 1 to device 2 at hour 24.
pub const FIFTH: Shape = Shape {
    devices: 3,
    first: First::Stays,
    version: 6,
    seats: &[0, 1, 0, 2],
    moved: &[Some(0), Some(0), Some(0), Some(24)],
    published: Some(6),
};

/// The devices of a ring.
fn devices(alloc: Global, shape: &Shape) -> Option<Vec<Device>> {
    let mut all = Vec::new(alloc);
    for number in 0..shape.devices {
        if number > 0 || shape.first != First::Gone {
            let mut one = device(alloc, number)?;
            one.removed = number == 0 && shape.first == First::Marked;
            all.push(one).ok()?;
        }
    }
    Some(all)
}

/// The published texts of a ring.
fn published(alloc: Global, shape: &Shape) -> Option<Vec<(u32, RcStr)>> {
    let mut all = Vec::new(alloc);
    if let Some(version) = shape.published {
        all.push((version, RcStr::from_str(alloc, "text").ok()?))
            .ok()?;
    }
    Some(all)
}

/// The parts of the ring of a shape.
fn parts(alloc: Global, shape: &Shape, power: Power, replicas: Replicas) -> Option<RingParts> {
    Some(RingParts {
        power,
        replicas,
        min_hours: 24,
        next_id: u32::from(shape.devices),
        version: shape.version,
        devices: devices(alloc, shape)?,
        seats: Vec::from_slice(alloc, shape.seats).ok()?,
        moved: Vec::from_slice(alloc, shape.moved).ok()?,
        published: published(alloc, shape)?,
    })
}

/// The ring of a shape.
fn ring(alloc: Global, shape: &Shape) -> Option<Ring> {
    let power = Power::new(2)?;
    let replicas = Replicas::new(1)?;
    Ring::build(alloc, parts(alloc, shape, power, replicas)?).ok()
}

/// This ring under the name `object`, and no other.
pub fn alone(alloc: Global, ring: Ring) -> Option<Rings> {
    let name = RingName::new(alloc, "object").ok()?;
    Rings::new(alloc).with(name, ring).ok()
}

/// The ring `object` of this shape, and no other.
pub fn object(alloc: Global, shape: &Shape) -> Option<Rings> {
    alone(alloc, ring(alloc, shape)?)
}
