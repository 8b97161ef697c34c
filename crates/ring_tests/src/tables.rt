//! What no contract says: worked tables, and rings and stores as JSON, byte for byte, and that calls
//! succeed where there is memory.
use crate::fixtures::{
    DEVICE_0, DEVICE_1, DEVICE_2, DEVICE_3, DeviceRow, FAR, NEAR, NamedRow, OF_FOUR_WEIGHTS,
    OF_ONE_WEIGHT, RingRow, WITHOUT_DEVICES, ring_on, spelled_ring, spelled_rings,
};
use ring_model::Ring;
use ring_reads::{Held, Plain, rings_json, status_json};
use ring_tables::{balance_table, device_table};
use ring_words::{Address, Device, DeviceName, Hour, Port, RingName, Row, Weight};
use std::alloc::Global;

/// Two devices with as many seats as they want.
const BALANCED: RingRow = ring_like!(WITHOUT_DEVICES, power: 2, version: 3,
    devices: &[DEVICE_0, DEVICE_1], seats: &[0, 1, 1, 0], moved: &[None; 4]);

/// Devices that are marked to be removed, empty, or both, and one that is open.
const REMOVED_AND_DRAINED: RingRow = ring_like!(WITHOUT_DEVICES, version: 9,
    devices: &[
        device_like!(DEVICE_0, removed: true),
        device_like!(DEVICE_1, weight: 0),
        device_like!(DEVICE_2, weight: 5000),
        device_like!(DEVICE_3, weight: 0, removed: true),
    ],
    seats: &[0, 2]);

/// Rings, of which the table below tells the devices.
static DEVICE_RINGS: [RingRow; 3] = [BALANCED, WITHOUT_DEVICES, REMOVED_AND_DRAINED];

/// The tables of the devices of those rings, in their order.
static DEVICE_TABLES: [&str; 3] = [
    // devices stand by their number
    concat!(
        "   id region  zone address          port     weight state   name\n",
        "    0      1     1 10.0.0.1         6200     100.00 open    d0\n",
        "    1      1     1 10.0.0.2         6200     100.00 open    d1\n",
    ),
    // a ring without devices has titles alone
    "   id region  zone address          port     weight state   name\n",
    // removed and drained devices are told apart
    concat!(
        "   id region  zone address          port     weight state   name\n",
        "    0      1     1 10.0.0.1         6200     100.00 removed d0\n",
        "    1      1     1 10.0.0.2         6200       0.00 drained d1\n",
        "    2      1     1 10.0.0.3         6200      50.00 open    d2\n",
        "    3      1     1 10.0.0.4         6200       0.00 removed d3\n",
    ),
];

/// Rings, of which the table below tells the balances.
static BALANCE_RINGS: [RingRow; 7] = [
    BALANCED,
    OF_ONE_WEIGHT,
    OF_FOUR_WEIGHTS,
    WITHOUT_DEVICES,
    REMOVED_AND_DRAINED,
    NEAR,
    FAR,
];

/// The tables of the balances of those rings, in their order.
static BALANCE_TABLES: [&str; 7] = [
    // balanced devices have what they want
    concat!(
        "   id     weight wanted    has balance\n",
        "    0     100.00      2      2    0.00\n",
        "    1     100.00      2      2    0.00\n",
        "balance 0.00 dispersion 0.00 version 3\n",
    ),
    // ties go to the lower number
    concat!(
        "   id     weight wanted    has balance\n",
        "    0     100.00      3      0  100.00\n",
        "    1     100.00      3      0  100.00\n",
        "    2     100.00      2      0  100.00\n",
        "balance 100.00 dispersion 0.00 version 3\n",
    ),
    // wants are by weight
    concat!(
        "   id     weight wanted    has balance\n",
        "    0     100.00      9      0  100.00\n",
        "    1      50.00      5      0  100.00\n",
        "    2      25.00      2      0  100.00\n",
        "    3       0.00      0      0    0.00\n",
        "balance 100.00 dispersion 0.00 version 4\n",
    ),
    // a ring without devices has titles and figures alone
    concat!(
        "   id     weight wanted    has balance\n",
        "balance 0.00 dispersion 0.00 version 0\n",
    ),
    // seats are too much for a removed device
    concat!(
        "   id     weight wanted    has balance\n",
        "    0     100.00      0      1  999.99\n",
        "    1       0.00      0      0    0.00\n",
        "    2      50.00      2      1   50.00\n",
        "    3       0.00      0      0    0.00\n",
        "balance 999.99 dispersion 0.00 version 9\n",
    ),
    // all partitions in one region are not dispersed
    concat!(
        "   id     weight wanted    has balance\n",
        "    0     100.00      1      2  100.00\n",
        "    1     100.00      1      2  100.00\n",
        "    2     200.00      2      0  100.00\n",
        "balance 100.00 dispersion 100.00 version 4\n",
    ),
    // dispersion falls with a far device
    concat!(
        "   id     weight wanted    has balance\n",
        "    0     100.00      1      2  100.00\n",
        "    1     100.00      1      1    0.00\n",
        "    2     200.00      2      1   50.00\n",
        "balance 100.00 dispersion 50.00 version 4\n",
    ),
];

/// Rings, of which the table below tells all, or their locks.
static PLAIN_RINGS: [RingRow; 7] = [
    ring_like!(NEAR, moved: &[Some(6), Some(25)],
        published: &[(2, "the second"), (4, "the fourth")]),
    ring_like!(BALANCED, moved: &[Some(25), Some(10), None, Some(6)]),
    WITHOUT_DEVICES,
    REMOVED_AND_DRAINED,
    ring_like!(WITHOUT_DEVICES, power: 3, devices: &[DEVICE_0], seats: &[0; 8],
        moved: &[Some(25), Some(10), None, Some(6), Some(25), Some(7), Some(10), Some(25)]),
    WITHOUT_DEVICES,
    ring_like!(BALANCED, moved: &[Some(u32::MAX), Some(0), None, None]),
];

/// Words and hours, and what is told of those rings for these, in their order.
static PLAIN: [(Plain, Hour, &str); 7] = [
    // a partition is free once its hours have passed, and another isn't
    (
        Plain::Ring,
        30,
        concat!(
            r#"{"balance":10000,"devices":["#,
            r#"{"address":"10.0.0.1","has":2,"id":0,"name":"d0","port":6200,"region":1,"#,
            r#""state":"open","wanted":1,"weight":"100.00","zone":1},"#,
            r#"{"address":"10.0.0.2","has":2,"id":1,"name":"d1","port":6200,"region":1,"#,
            r#""state":"open","wanted":1,"weight":"100.00","zone":1},"#,
            r#"{"address":"10.0.0.3","has":0,"id":2,"name":"d2","port":6200,"region":2,"#,
            r#""state":"open","wanted":2,"weight":"200.00","zone":1}],"#,
            r#""dispersion":10000,"hour":30,"locked":1,"min_hours":24,"next_id":65536,"power":1,"#,
            r#""published":[2,4],"replicas":2,"rests":19,"ring":"photos","seats":4,"version":4}"#,
        ),
    ),
    // the partition that was moved last is locked longest
    (
        Plain::Ring,
        30,
        concat!(
            r#"{"balance":0,"devices":["#,
            r#"{"address":"10.0.0.1","has":2,"id":0,"name":"d0","port":6200,"region":1,"#,
            r#""state":"open","wanted":2,"weight":"100.00","zone":1},"#,
            r#"{"address":"10.0.0.2","has":2,"id":1,"name":"d1","port":6200,"region":1,"#,
            r#""state":"open","wanted":2,"weight":"100.00","zone":1}],"#,
            r#""dispersion":0,"hour":30,"locked":2,"min_hours":24,"next_id":65536,"power":2,"#,
            r#""published":[],"replicas":1,"rests":19,"ring":"photos","seats":4,"version":3}"#,
        ),
    ),
    // a ring without devices has empty lists
    (
        Plain::Ring,
        0,
        concat!(
            r#"{"balance":0,"devices":[],"dispersion":0,"hour":0,"locked":0,"min_hours":24,"#,
            r#""next_id":65536,"power":1,"published":[],"replicas":1,"rests":0,"#,
            r#""ring":"photos","seats":0,"version":0}"#,
        ),
    ),
    // removed and drained devices are told apart
    (
        Plain::Ring,
        480000,
        concat!(
            r#"{"balance":99999,"devices":["#,
            r#"{"address":"10.0.0.1","has":1,"id":0,"name":"d0","port":6200,"region":1,"#,
            r#""state":"removed","wanted":0,"weight":"100.00","zone":1},"#,
            r#"{"address":"10.0.0.2","has":0,"id":1,"name":"d1","port":6200,"region":1,"#,
            r#""state":"drained","wanted":0,"weight":"0.00","zone":1},"#,
            r#"{"address":"10.0.0.3","has":1,"id":2,"name":"d2","port":6200,"region":1,"#,
            r#""state":"open","wanted":2,"weight":"50.00","zone":1},"#,
            r#"{"address":"10.0.0.4","has":0,"id":3,"name":"d3","port":6200,"region":1,"#,
            r#""state":"removed","wanted":0,"weight":"0.00","zone":1}],"#,
            r#""dispersion":0,"hour":480000,"locked":0,"min_hours":24,"next_id":65536,"power":1,"#,
            r#""published":[],"replicas":1,"rests":0,"ring":"photos","seats":2,"version":9}"#,
        ),
    ),
    // partitions are free by the hours of their moves, and two were free before
    (
        Plain::Locks,
        30,
        concat!(
            r#"{"hour":30,"locked":6,"min_hours":24,"partitions":8,"rests":["#,
            r#"{"hours":1,"partitions":1},{"hours":4,"partitions":2},"#,
            r#"{"hours":19,"partitions":3}],"ring":"photos"}"#,
        ),
    ),
    // where no partition is locked, the list is empty
    (
        Plain::Locks,
        0,
        r#"{"hour":0,"locked":0,"min_hours":24,"partitions":2,"rests":[],"ring":"photos"}"#,
    ),
    // a partition that was moved after the hour is locked longer than others can be
    (
        Plain::Locks,
        0,
        concat!(
            r#"{"hour":0,"locked":2,"min_hours":24,"partitions":4,"rests":["#,
            r#"{"hours":24,"partitions":1},{"hours":4294967319,"partitions":1}],"ring":"photos"}"#,
        ),
    ),
];

/// What there is to tell of a ring.
#[derive(Clone, Copy)]
enum Telling {
    /// The table of its devices.
    Devices,
    /// The table of its balance.
    Balance,
    /// What a word asks for, at an hour, under the name `photos`.
    Plain(Plain, Hour),
}

/// What is told of a ring.
fn told(alloc: Global, ring: &Ring, telling: Telling) -> Option<String> {
    match telling {
        Telling::Devices => device_table(alloc, ring).ok(),
        Telling::Balance => balance_table(alloc, ring).ok(),
        Telling::Plain(plain, hour) => {
            let name = RingName::new(alloc, "photos").ok()?;
            plain.text(alloc, &name, ring, hour).ok()
        }
    }
}

/// Whether this text is told.
fn is_text(told: Option<String>, text: &str) -> bool {
    match told {
        Some(told) => told.as_str() == text,
        None => false,
    }
}

/// Whether this text is told of the ring that the row at a place spells.
fn is_told_at(alloc: Global, rows: &[RingRow], place: usize, telling: Telling, text: &str) -> bool {
    let Some(row) = rows.get(place) else {
        return false;
    };
    match spelled_ring(alloc, row) {
        Some(ring) => is_text(told(alloc, &ring, telling), text),
        None => false,
    }
}

#[test]
fn devices_are_told(rt: HostRuntime) {
    for (place, text) in DEVICE_TABLES.iter().enumerate() {
        let is_told = is_told_at(rt.alloc(), &DEVICE_RINGS, place, Telling::Devices, text);
        assert!(rt; is_told, "{place}");
    }
}

#[test]
fn balances_are_told(rt: HostRuntime) {
    for (place, text) in BALANCE_TABLES.iter().enumerate() {
        let is_told = is_told_at(rt.alloc(), &BALANCE_RINGS, place, Telling::Balance, text);
        assert!(rt; is_told, "{place}");
    }
}

#[test]
fn rings_are_told(rt: HostRuntime) {
    for (place, (plain, hour, text)) in PLAIN.iter().enumerate() {
        let telling = Telling::Plain(*plain, *hour);
        let is_told = is_told_at(rt.alloc(), &PLAIN_RINGS, place, telling, text);
        assert!(rt; is_told, "{place}");
    }
}

/// Rings of four names.
const FOUR_RINGS: [NamedRow; 4] = [
    ("photos", BALANCED),
    ("a2", NEAR),
    ("a", WITHOUT_DEVICES),
    ("a-2", REMOVED_AND_DRAINED),
];

/// Rings that there are, of which the table below tells.
static STORES: [&[NamedRow]; 6] = [
    &[],
    &[("photos", BALANCED)],
    &FOUR_RINGS,
    &[],
    &FOUR_RINGS,
    &[("photos", BALANCED)],
];

/// An hour, how many numbers are kept and may be, and what is told of that and of those rings, in
/// their order; or which rings there are, where none of these is given.
static TOLD: [(Option<(Hour, usize, u32)>, &str); 6] = [
    (None, r#"{"rings":[]}"#), // no rings are an empty list
    // a ring has its version
    (None, r#"{"rings":[{"ring":"photos","version":3}]}"#),
    // rings stand by their names, byte by byte
    (
        None,
        concat!(
            r#"{"rings":[{"ring":"a","version":0},{"ring":"a-2","version":9},{"#,
            r#""ring":"a2","version":4},{"ring":"photos","version":3}]}"#,
        ),
    ),
    // before the first request all is 0
    (
        Some((0, 0, 100_000)),
        r#"{"hour":0,"kept":0,"limit":100000,"rings":0}"#,
    ),
    // each figure stands under its key
    (
        Some((480_000, 1_234, 100_000)),
        r#"{"hour":480000,"kept":1234,"limit":100000,"rings":4}"#,
    ),
    // the greatest figures are told
    (
        Some((u32::MAX, 100_000, u32::MAX)),
        r#"{"hour":4294967295,"kept":100000,"limit":4294967295,"rings":1}"#,
    ),
];

/// What is told of the rings at a place.
fn told_of(alloc: Global, place: usize, figures: Option<(Hour, usize, u32)>) -> Option<String> {
    let rings = spelled_rings(alloc, STORES.get(place)?)?;
    let Some((hour, kept, limit)) = figures else {
        return rings_json(alloc, &rings).ok();
    };
    let held = Held {
        rings: &rings,
        hour,
        clock: 0,
        kept,
        limit,
    };
    status_json(alloc, &held).ok()
}

#[test]
fn stores_are_told(rt: HostRuntime) {
    for (place, (figures, text)) in TOLD.iter().enumerate() {
        let is_told = is_text(told_of(rt.alloc(), place, *figures), text);
        assert!(rt; is_told, "{place}");
    }
}

/// A device that has the widest values.
fn widest_device(alloc: Global) -> Option<Device> {
    let row = Row {
        region: 65535,
        zone: 65535,
        address: Address::parse("255.255.255.255")?,
        port: Port::new(65535)?,
        weight: Weight::parse("1000000.00")?,
        name: DeviceName::new(alloc, "A_z-0123456789012345678901234567").ok()?,
    };
    Some(Device {
        id: 65535,
        row,
        removed: false,
    })
}

/// A ring of the greatest power at the greatest version.
static WIDEST: RingRow = ring_like!(WITHOUT_DEVICES, power: 14, version: u32::MAX);

/// A ring that has the widest values.
fn widest_ring(alloc: Global) -> Option<Ring> {
    let devices = vec![in alloc; widest_device(alloc)?].ok()?;
    ring_on(alloc, &WIDEST, devices, Vec::new(alloc))
}

/// The table of the widest device.
static WIDEST_DEVICE: &str = concat!(
    "   id region  zone address          port     weight state   name\n",
    "65535  65535 65535 255.255.255.255 65535 1000000.00 open    ",
    "A_z-0123456789012345678901234567\n",
);

/// The table of the widest balance.
static WIDEST_BALANCE: &str = concat!(
    "   id     weight wanted    has balance\n",
    "65535 1000000.00  16384      0  100.00\n",
    "balance 100.00 dispersion 0.00 version 4294967295\n",
);

fn do_the_widest_fit(alloc: Global) -> Option<bool> {
    let ring = widest_ring(alloc)?;
    let has_table = is_text(told(alloc, &ring, Telling::Devices), WIDEST_DEVICE);
    Some(has_table && is_text(told(alloc, &ring, Telling::Balance), WIDEST_BALANCE))
}

#[test]
fn the_widest_values_fit_their_columns(rt: HostRuntime) {
    assert!(rt; matches!(do_the_widest_fit(rt.alloc()), Some(true)));
}
