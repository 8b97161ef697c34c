//! Rings by their names, and devices of a draft by their places.
use super::{SMALL, SMALL_RING};
use crate::fixtures::{
    DEVICE_0, DeviceRow, NamedRow, RingRow, spelled, spelled_ring, spelled_rings, with_ring,
};
use ring_model::{Draft, Rings};
use ring_words::{RingName, Row};
use std::alloc::Global;

/// The version of the ring of a name.
fn version_of(alloc: Global, rings: &Rings, name: &str) -> Option<u32> {
    let name = RingName::new(alloc, name).ok()?;
    Some(rings.get(&name)?.version())
}

/// Whether rings have these names, in this order.
fn has_names(rings: &Rings, names: &[&str]) -> bool {
    let mut place = 0usize;
    for entry in rings.list() {
        if names.get(place).copied() != Some(entry.0.as_str()) {
            return false;
        }
        place = place.saturating_add(1);
    }
    place == names.len()
}

/// A list of the ring `object` alone.
static ONE: [NamedRow; 1] = [("object", SMALL)];

/// A ring that is told apart from that one by its version.
static ACCOUNT: RingRow = ring_like!(SMALL, min_hours: 0, version: 4);

/// Whether a ring of the name `account` comes before that of the name `object`, and is not in the
/// list that was there before.
fn are_kept(alloc: Global) -> Option<bool> {
    let one = spelled_rings(alloc, &ONE)?;
    let two = with_ring(alloc, &one, "account", spelled_ring(alloc, &ACCOUNT)?)?;
    let are_in_order = has_names(&two, &["account", "object"]) && has_names(&one, &["object"]);
    Some(are_in_order && version_of(alloc, &two, "object") == Some(3))
}

#[test]
fn rings_are_kept_by_name(rt: HostRuntime) {
    assert!(rt; matches!(are_kept(rt.alloc()), Some(true)));
}

fn have_no_names(alloc: Global) -> bool {
    let none = Rings::new(alloc);
    has_names(&none, &[]) && version_of(alloc, &none, "object").is_none()
}

#[test]
fn no_rings_have_no_names(rt: HostRuntime) {
    assert!(rt; have_no_names(rt.alloc()));
}

/// A draft of the small ring.
fn small_draft(alloc: Global) -> Option<Draft> {
    Draft::of(&spelled_ring(alloc, &SMALL_RING)?).ok()
}

/// Places and weights, and the numbers of the devices of a draft of the small ring that have the
/// places.
static PLACES: [(u8, u32, Option<u16>); 2] = [(0, 100, Some(0)), (2, 700, None)];

/// The number of the device of a draft that has the place of a row.
fn id_at(draft: &Draft, row: &Row) -> Option<u16> {
    Some(draft.device_at(row)?.id)
}

/// Whether such a draft knows its devices by their places.
fn knows_places(alloc: Global) -> Option<bool> {
    let draft = small_draft(alloc)?;
    for (place, weight, id) in &PLACES {
        let row = DeviceRow {
            place: *place,
            server: *place,
            weight: *weight,
            ..DEVICE_0
        };
        if id_at(&draft, &spelled(alloc, &row)?.row) != *id {
            return None;
        }
    }
    Some(true)
}

#[test]
fn a_draft_knows_its_devices_by_their_place(rt: HostRuntime) {
    assert!(rt; matches!(knows_places(rt.alloc()), Some(true)));
}

fn begins_with_two_devices(alloc: Global) -> Option<bool> {
    let draft = small_draft(alloc)?;
    Some(draft.device_count() == 2 && draft.next_id() == 2)
}

#[test]
fn a_draft_begins_with_the_devices_of_its_ring(rt: HostRuntime) {
    assert!(rt; matches!(begins_with_two_devices(rt.alloc()), Some(true)));
}
