//! What no contract says: worked examples, that calls succeed where there is memory, and the fast
//! figures against plain scans.
mod scans;

ghost use Rattle.ring_share.specs.Want.{AreWanted};

use crate::fixtures::{
    DEVICE_0, DEVICE_1, DEVICE_2, DEVICE_3, DeviceRow, FAR, NEAR, OF_FOUR_WEIGHTS, OF_ONE_WEIGHT,
    RingRow, WITHOUT_DEVICES, spelled_ring,
};
use ring_model::Ring;
use ring_share::{balance, balance_of, crowd, dispersion, has_room, have, place_in, wanted};
use std::alloc::Global;

/// The figures of a ring: the seats that its devices want, the balance of each device, the ring's
/// own, and its dispersion.
type Figures = (&'static [u32], &'static [u32], u32, u32);

/// Device 0, which is marked to be removed, and an empty device 2 beside device 1.
const WITH_A_REMOVED_DEVICE: RingRow = ring_like!(WITHOUT_DEVICES, version: 1,
    devices: &[device_like!(DEVICE_0, removed: true), DEVICE_1, device_like!(DEVICE_2, weight: 0)],
    seats: &[0, 1]);

/// Rings and their figures.
static FIGURES: [(RingRow, Figures); 6] = [
    // shares are by weight
    (
        OF_FOUR_WEIGHTS,
        (&[9, 5, 2, 0], &[10_000, 10_000, 10_000, 0], 10_000, 0),
    ),
    // ties go to the lower number
    (
        OF_ONE_WEIGHT,
        (&[3, 3, 2], &[10_000, 10_000, 10_000], 10_000, 0),
    ),
    // seats in one region do not disperse
    (
        NEAR,
        (&[1, 1, 2], &[10_000, 10_000, 10_000], 10_000, 10_000),
    ),
    // a seat in each region disperses
    (FAR, (&[1, 1, 2], &[10_000, 0, 5000], 10_000, 5000)),
    // a ring without devices has figures 0
    (WITHOUT_DEVICES, (&[], &[], 0, 0)),
    // a seat is too much for a removed device
    (
        WITH_A_REMOVED_DEVICE,
        (&[0, 2, 0], &[99_999, 5000, 0], 99_999, 0),
    ),
];

/// Whether devices 0, 1 and so on have these balances, and device 4 has none.
fn has_balances(ring: &Ring, balances: &[u32]) -> bool {
    let mut id = 0u16;
    for figure in balances {
        if balance_of(ring, id) != Some(*figure) {
            return false;
        }
        id = id.saturating_add(1);
    }
    balance_of(ring, 4).is_none()
}

/// Whether the ring that a row spells has these figures.
fn has_figures(alloc: Global, row: &RingRow, figures: &Figures) -> Option<bool> {
    let ring = spelled_ring(alloc, row)?;
    let are_wanted = wanted(alloc, &ring).ok()?.as_slice() == figures.0;
    let is_balanced = has_balances(&ring, figures.1) && balance(&ring) == figures.2;
    Some(are_wanted && is_balanced && dispersion(&ring) == figures.3)
}

#[test]
fn rings_have_their_figures(rt: HostRuntime) {
    for (place, (row, figures)) in FIGURES.iter().enumerate() {
        let has_figures = has_figures(rt.alloc(), row, figures);
        assert!(rt; matches!(has_figures, Some(true)), "{place}");
    }
}

/// A ring all of whose seats are in region 1.
static IN_ONE_REGION: RingRow = NEAR;

/// How crowded devices would be on the first seat of the first partition.
static CROWDS: [(u16, (u32, u32, u32)); 3] = [(0, (1, 1, 0)), (1, (1, 1, 1)), (2, (0, 0, 0))];

fn are_so_crowded(alloc: Global) -> Option<bool> {
    let ring = spelled_ring(alloc, &IN_ONE_REGION)?;
    for (id, figure) in &CROWDS {
        let is_known = ring.has_device(*id) && ring.replicas().get() == 2;
        if !is_known || crowd(&ring, 0, 0, *id) != *figure {
            return None;
        }
    }
    Some(true)
}

#[test]
fn a_far_device_is_less_crowded(rt: HostRuntime) {
    assert!(rt; matches!(are_so_crowded(rt.alloc()), Some(true)));
}

/// A ring with a seat in region 2.
static IN_TWO_REGIONS: RingRow = FAR;

/// Which devices have room for one more seat.
static ROOMS: [(u16, bool); 3] = [(0, false), (1, false), (2, true)];

/// Whether devices of a ring that want so many seats have such room.
fn have_room(ring: &Ring, wants: &[u32]) -> bool
    requires { AreWanted ring.now wants.now }
{
    for (id, room) in &ROOMS {
        if !ring.has_device(*id) || has_room(ring, wants, *id) != *room {
            return false;
        }
    }
    true
}

fn have_such_room(alloc: Global) -> Option<bool> {
    let ring = spelled_ring(alloc, &IN_TWO_REGIONS)?;
    match wanted(alloc, &ring) {
        Ok(wants) => Some(have_room(&ring, &wants)),
        Err(_) => None,
    }
}

#[test]
fn room_is_up_to_the_want(rt: HostRuntime) {
    assert!(rt; matches!(have_such_room(rt.alloc()), Some(true)));
}

/// A ring whose device 1 was dropped.
static WITH_A_GAP: RingRow = ring_like!(WITHOUT_DEVICES, power: 2, version: 1,
    devices: &[DEVICE_0, DEVICE_2, DEVICE_3], seats: &[0, 3, 3, 2], moved: &[None; 4]);

/// Devices, their places in the list, and their seats.
static PLACES: [(u16, usize, u32); 3] = [(0, 0, 1), (2, 1, 1), (3, 2, 2)];

fn are_in_place(alloc: Global) -> Option<bool> {
    let ring = spelled_ring(alloc, &WITH_A_GAP)?;
    for (id, place, seats) in &PLACES {
        let is_at = ring.has_device(*id) && place_in(ring.devices(), *id) == *place;
        if !is_at || have(&ring, *id) != *seats {
            return None;
        }
    }
    Some(true)
}

#[test]
fn devices_close_up_where_one_was_dropped(rt: HostRuntime) {
    assert!(rt; matches!(are_in_place(rt.alloc()), Some(true)));
}
