//! What no contract says: previews of rebalances whose rings are forced, byte for byte.
use crate::fixtures::{DEVICE_0, DEVICE_1, DeviceRow, RingRow, WITHOUT_DEVICES};
use crate::reads::{Figures, is_hidden, is_text, shown_of};
use ring_reads::{Hidden, Read};
use ring_words::Hour;
use std::alloc::Global;

/// Four partitions of which the first device has all, the first two of them moved at hour 25.
const CROWDED: RingRow = ring_like!(WITHOUT_DEVICES, power: 2, version: 3,
    devices: &[DEVICE_0, DEVICE_1], seats: &[0, 0, 0, 0],
    moved: &[Some(25), Some(25), None, Some(6)]);

/// A preview of a ring: the ring, the greatest hour, the clock's, the seed, and the hour that is asked
/// for.
type Asked = (RingRow, Hour, Hour, u32, Hour);

/// Previews, of which the table below tells what they show.
static ASKED: [Asked; 7] = [
    (CROWDED, 30, 0, 7, 0), // partitions are locked
    (CROWDED, 30, 0, 7, 49), // a later hour
    (CROWDED, 30, 49, 7, 48), // a later hour of the clock
    // a removed device
    (
        ring_like!(CROWDED, devices: &[device_like!(DEVICE_0, removed: true), DEVICE_1],
            seats: &[0, 1, 1, 0], moved: &[Some(20), None, None, None]),
        4,
        0,
        5,
        30,
    ),
    // empty seats
    (
        ring_like!(CROWDED, replicas: 2, seats: &[], moved: &[None; 4]),
        0,
        0,
        u32::MAX,
        0,
    ),
    // a settled ring
    (
        ring_like!(CROWDED, seats: &[0, 1, 1, 0], moved: &[None; 4]),
        9,
        0,
        1,
        8,
    ),
    // all partitions are locked
    (ring_like!(CROWDED, moved: &[Some(5); 4]), 6, 0, 7, 5),
];

/// What those previews show, in their order.
static PREVIEWS: [&str; 7] = [
    // locked partitions give nothing, so the others give all
    concat!(
        r#"{"balance":0,"changed":2,"devices":["#,
        r#"{"gives":2,"has":4,"id":0,"takes":0,"then":2,"wanted":2},"#,
        r#"{"gives":0,"has":0,"id":1,"takes":2,"then":2,"wanted":2}],"#,
        r#""dispersion":0,"hour":30,"locked":2,"partitions":2,"ring":"photos","seed":7,"#,
        r#""version":4}"#,
    ),
    // a later hour is taken as it is asked for, and finds no lock
    concat!(
        r#"{"balance":0,"changed":2,"devices":["#,
        r#"{"gives":2,"has":4,"id":0,"takes":0,"then":2,"wanted":2},"#,
        r#"{"gives":0,"has":0,"id":1,"takes":2,"then":2,"wanted":2}],"#,
        r#""dispersion":0,"hour":49,"locked":0,"partitions":2,"ring":"photos","seed":7,"#,
        r#""version":4}"#,
    ),
    // a later hour of the clock is that of a rebalance that is decided now
    concat!(
        r#"{"balance":0,"changed":2,"devices":["#,
        r#"{"gives":2,"has":4,"id":0,"takes":0,"then":2,"wanted":2},"#,
        r#"{"gives":0,"has":0,"id":1,"takes":2,"then":2,"wanted":2}],"#,
        r#""dispersion":0,"hour":49,"locked":0,"partitions":2,"ring":"photos","seed":7,"#,
        r#""version":4}"#,
    ),
    // a removed device gives all, also of a locked partition
    concat!(
        r#"{"balance":0,"changed":2,"devices":["#,
        r#"{"gives":2,"has":2,"id":0,"takes":0,"then":0,"wanted":0},"#,
        r#"{"gives":0,"has":2,"id":1,"takes":2,"then":4,"wanted":4}],"#,
        r#""dispersion":0,"hour":30,"locked":1,"partitions":2,"ring":"photos","seed":5,"#,
        r#""version":4}"#,
    ),
    // empty seats are taken and not given
    concat!(
        r#"{"balance":0,"changed":8,"devices":["#,
        r#"{"gives":0,"has":0,"id":0,"takes":4,"then":4,"wanted":4},"#,
        r#"{"gives":0,"has":0,"id":1,"takes":4,"then":4,"wanted":4}],"#,
        r#""dispersion":0,"hour":0,"locked":0,"partitions":4,"ring":"photos","#,
        r#""seed":4294967295,"version":4}"#,
    ),
    // a settled ring keeps its seats, and gets a version all the same
    concat!(
        r#"{"balance":0,"changed":0,"devices":["#,
        r#"{"gives":0,"has":2,"id":0,"takes":0,"then":2,"wanted":2},"#,
        r#"{"gives":0,"has":2,"id":1,"takes":0,"then":2,"wanted":2}],"#,
        r#""dispersion":0,"hour":9,"locked":0,"partitions":0,"ring":"photos","seed":1,"#,
        r#""version":4}"#,
    ),
    // while all partitions are locked nothing moves, and the balance tells it
    concat!(
        r#"{"balance":10000,"changed":0,"devices":["#,
        r#"{"gives":0,"has":4,"id":0,"takes":0,"then":4,"wanted":2},"#,
        r#"{"gives":0,"has":0,"id":1,"takes":0,"then":0,"wanted":2}],"#,
        r#""dispersion":0,"hour":6,"locked":4,"partitions":0,"ring":"photos","seed":7,"#,
        r#""version":4}"#,
    ),
];

/// What is shown of a preview of the ring of a name, where the ring that a row spells is `photos`.
fn shown(alloc: Global, name: &str, of: &Asked) -> Result<Vec<u8>, Hidden> {
    let (row, hour, clock, seed, asked) = *of;
    let figures = Figures {
        hour,
        clock,
        kept: 0,
        limit: 0,
    };
    let read = Read::Preview(seed, asked);
    shown_of(alloc, &[("photos", row)], figures, name, read)
}

/// Whether this text is what is shown of the preview at a place.
fn is_shown(alloc: Global, place: usize, text: &str) -> bool {
    match ASKED.get(place) {
        Some(of) => is_text(shown(alloc, "photos", of), text),
        None => false,
    }
}

#[test]
fn previews_are_shown(rt: HostRuntime) {
    for (place, text) in PREVIEWS.iter().enumerate() {
        assert!(rt; is_shown(rt.alloc(), place, text), "{place}");
    }
}

/// A preview of a ring that has no device, though each partition is to be on one.
static EMPTY: Asked = (WITHOUT_DEVICES, 0, 0, 1, 0);

#[test]
fn previews_are_refused_as_rebalances_are(rt: HostRuntime) {
    assert!(rt; is_hidden(shown(rt.alloc(), "photos", &EMPTY), Hidden::TooFewDevices));
    assert!(rt; is_hidden(shown(rt.alloc(), "other", &EMPTY), Hidden::NoRing));
}
