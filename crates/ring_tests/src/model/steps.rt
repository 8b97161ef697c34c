//! What a ring becomes where one thing is done to it, and that it stays as it was itself.
ghost use Rattle.std.specs.Prelude.{◌≡◌};

use super::{SMALL, is_ring};
use crate::fixtures::{DEVICE_0, DEVICE_1, DEVICE_2, DeviceRow, RingRow, spelled, spelled_ring};
use ring_model::{Draft, Ring};
use ring_words::{DeviceAct, Rows, Weight};
use std::alloc::Global;

/// What is done to a ring.
#[derive(Clone, Copy)]
enum Step {
    /// Its parts are read, and built again.
    Rebuild,
    /// A device is added.
    Add(DeviceRow),
    /// A device gets a weight of so many hundredths.
    Weigh(u16, u32),
    /// A device is marked to be removed.
    Mark(u16),
    /// Its hours are set.
    SetHours(u16),
    /// Its hours pass.
    PassHours,
    /// Its power is raised by one.
    Raise,
    /// A text of its version is published.
    Publish(&'static str),
    /// Rows are put into a draft of it.
    Put(&'static [DeviceRow]),
}

/// A ring at version 2 with texts of versions 1 and 3.
const OF_TWO_TEXTS: RingRow = ring_like!(SMALL, version: 2,
    published: &[(1, "first"), (3, "third")]);

/// That ring with the text of version 2.
const OF_THREE_TEXTS: RingRow = ring_like!(OF_TWO_TEXTS,
    published: &[(1, "first"), (2, "second"), (3, "third")]);

/// Rings, what is done to them, and what they become.
static STEPS: [(RingRow, Step, RingRow); 10] = [
    // the parts of a ring are those it was built of
    (SMALL, Step::Rebuild, SMALL),
    // a device is added
    (
        SMALL,
        Step::Add(device_like!(DEVICE_2, weight: 7000)),
        ring_like!(SMALL, version: 4, next_id: 3,
            devices: &[DEVICE_0, DEVICE_1, device_like!(DEVICE_2, weight: 7000)]),
    ),
    // a device is reweighed
    (
        SMALL,
        Step::Weigh(1, 5),
        ring_like!(SMALL, version: 4, devices: &[DEVICE_0, device_like!(DEVICE_1, weight: 5)]),
    ),
    // a marked device stays and is not present
    (
        SMALL,
        Step::Mark(1),
        ring_like!(SMALL, version: 4, devices: &[DEVICE_0, device_like!(DEVICE_1, removed: true)]),
    ),
    // hours are set
    (
        SMALL,
        Step::SetHours(9),
        ring_like!(SMALL, version: 4, min_hours: 9),
    ),
    // moves are forgotten where hours have passed
    (
        SMALL,
        Step::PassHours,
        ring_like!(SMALL, version: 4, moved: &[None, None]),
    ),
    // both halves stay on their devices
    (
        SMALL,
        Step::Raise,
        ring_like!(SMALL, power: 2, version: 4, seats: &[0, 1, 0, 1, 1, 0, 1, 0],
            moved: &[Some(7), Some(7), None, None]),
    ),
    // a text is published
    (OF_TWO_TEXTS, Step::Publish("second"), OF_THREE_TEXTS),
    // a text is published once
    (OF_THREE_TEXTS, Step::Publish("another"), OF_THREE_TEXTS),
    // rows are put into a draft
    (
        SMALL,
        Step::Put(&[
            device_like!(DEVICE_0, weight: 100),
            device_like!(DEVICE_2, weight: 700),
        ]),
        ring_like!(SMALL, version: 4, next_id: 3,
            devices: &[
                device_like!(DEVICE_0, weight: 100),
                DEVICE_1,
                device_like!(DEVICE_2, weight: 700),
            ]),
    ),
];

/// A ring with one more device, where there is room and no device has the row's place.
fn added(alloc: Global, ring: &Ring, row: &DeviceRow) -> Option<Ring> {
    let row = spelled(alloc, row)?.row;
    if ring.devices().len() >= 256 || ring.next_id() >= 65536 || ring.has_place(&row) {
        return None;
    }
    ring.with_device(&row).ok()
}

/// A ring after this was done to a device.
fn altered(ring: &Ring, id: u16, what: DeviceAct) -> Option<Ring> {
    if !ring.has_device(id) {
        return None;
    }
    ring.with_altered(id, what).ok()
}

/// A ring with a text of its version, where there is room.
fn published(alloc: Global, ring: &Ring, text: &str) -> Option<Ring> {
    if ring.published_list().len() >= 1000 {
        return None;
    }
    ring.with_published(alloc, text).ok()
}

/// The rows that a table spells.
fn rows_of(alloc: Global, rows: &[DeviceRow]) -> Option<Rows> {
    let mut list = Vec::new(alloc);
    for row in rows {
        list.push(spelled(alloc, row)?.row).ok()?;
    }
    Some(Rows::new(list))
}

/// A ring after rows were put into a draft of it, where there is room.
fn drafted(alloc: Global, ring: &Ring, rows: &[DeviceRow]) -> Option<Ring> {
    let rows = rows_of(alloc, rows)?;
    let mut draft = Draft::of(ring).ok()?;
    for row in rows.as_slice() {
        if draft.device_count() >= 256 || draft.next_id() >= 65536 || draft.put(row).is_err() {
            return None;
        }
    }
    Some(draft.finish())
}

/// A ring after a step.
fn stepped(alloc: Global, ring: &Ring, step: &Step) -> Option<Ring> {
    match step {
        Step::Rebuild => Ring::build(alloc, ring.parts().ok()?).ok(),
        Step::Add(row) => added(alloc, ring, row),
        Step::Weigh(id, weight) => altered(ring, *id, DeviceAct::SetWeight(Weight::of(*weight)?)),
        Step::Mark(id) => altered(ring, *id, DeviceAct::Remove),
        Step::SetHours(hours) => ring.with_min_hours(*hours).ok(),
        Step::PassHours => ring.with_hours_passed().ok(),
        Step::Raise => ring.raised().ok(),
        Step::Publish(text) => published(alloc, ring, text),
        Step::Put(rows) => drafted(alloc, ring, rows),
    }
}

/// Whether a ring becomes another by a step, and stays as it was itself.
fn becomes(alloc: Global, from: &RingRow, step: &Step, to: &RingRow) -> Option<bool> {
    let ring = spelled_ring(alloc, from)?;
    let next = stepped(alloc, &ring, step)?;
    Some(is_ring(alloc, &next, to) && is_ring(alloc, &ring, from))
}

#[test]
fn steps_give_the_rings_of_the_table(rt: HostRuntime) {
    for (place, (from, step, to)) in STEPS.iter().enumerate() {
        let is_so = becomes(rt.alloc(), from, step, to);
        assert!(rt; matches!(is_so, Some(true)), "{place}");
    }
}
