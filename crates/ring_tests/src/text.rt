//! What no contract says: worked examples, and that calls succeed where there is memory.
use crate::fixtures::{
    DEVICE_0, DeviceRow, RingRow, WITHOUT_DEVICES, changed, is_written_as, push_spelled, ring_on,
    seats_in_turn, spelled_devices, taken,
};
use ring_model::Ring;
use ring_text::{Snapshot, TextFault, read_ring, write_ring};
use ring_words::Device;
use std::alloc::Global;

/// The 119 bytes of the ring `tiny`.
static TINY: &str =
    "swift-ring-text 1\nring tiny\nversion 2\npower 1\nreplicas 1\ndevices 1\n0 1 1 10.0.0.1 6200 100.00 present d0\nseats\n0\n0\nend\n";

/// So many devices at places of their own.
fn devices_in_number(alloc: Global, count: u16) -> Option<Vec<Device>> {
    let mut devices = Vec::new(alloc);
    for id in 0..count {
        let number = u8::try_from(id).unwrap_or(255);
        let row = DeviceRow {
            id,
            place: number,
            server: number,
            ..DEVICE_0
        };
        push_spelled(alloc, &mut devices, &row)?;
    }
    Some(devices)
}

/// A ring at version 2, from which others are made.
static AT_VERSION_2: RingRow = ring_like!(WITHOUT_DEVICES, version: 2);

/// A ring of so many devices at version 2, whose seats are on them in turn.
fn ring(alloc: Global, power: u16, replicas: u16, devices: u16) -> Option<Ring> {
    let count = (1usize << power.min(14)).saturating_mul(usize::from(replicas));
    let mut row = AT_VERSION_2;
    row.power = power;
    row.replicas = replicas;
    let seats = seats_in_turn(alloc, count, devices)?;
    ring_on(alloc, &row, devices_in_number(alloc, devices)?, seats)
}

/// The snapshot of such a ring of power 1 under a name, which has so many devices and replicas.
fn taken_of(alloc: Global, name: &str, devices: u16) -> Option<Snapshot> {
    taken(alloc, name, &ring(alloc, 1, devices, devices)?)
}

/// Whether a snapshot has the name, the figures and the seats of `tiny`.
fn has_tiny_figures(taken: &Snapshot) -> bool {
    taken.name().as_str() == "tiny"
        && taken.version() == 2
        && taken.power().get() == 1
        && taken.replicas().get() == 1
        && taken.seats() == [0, 0].as_slice()
}

/// Whether a snapshot is that of `tiny`, and is written as its text.
fn is_tiny(alloc: Global, taken: &Snapshot) -> Option<bool> {
    let devices = spelled_devices(alloc, &[DEVICE_0])?;
    let is_same = has_tiny_figures(taken) && taken.devices() == devices.as_slice();
    Some(is_same && is_written_as(alloc, taken, TINY))
}

fn is_taken(alloc: Global) -> Option<bool> {
    Some(TINY.len() == 119 && is_tiny(alloc, &taken_of(alloc, "tiny", 1)?)?)
}

#[test]
fn a_tiny_ring_is_written(rt: HostRuntime) {
    assert!(rt; matches!(is_taken(rt.alloc()), Some(true)));
}

fn is_read(alloc: Global) -> Option<bool> {
    is_tiny(alloc, &read_ring(alloc, TINY.as_bytes()).ok()?)
}

#[test]
fn a_tiny_ring_is_read(rt: HostRuntime) {
    assert!(rt; matches!(is_read(rt.alloc()), Some(true)));
}

/// Whether bytes are refused as the text of no ring.
fn is_bad(alloc: Global, bytes: &[u8]) -> bool {
    matches!(read_ring(alloc, bytes), Err(TextFault::Bad))
}

#[test]
fn no_beginning_is_read(rt: HostRuntime) {
    let bytes = TINY.as_bytes();
    for end in 0..bytes.len() {
        assert!(rt; is_bad(rt.alloc(), &bytes[..end]), "{end}");
    }
}

#[test]
fn only_utf8_is_read(rt: HostRuntime) {
    assert!(rt; is_bad(rt.alloc(), b"\xff"));
}

/// Whether a text is read, and written as it was then.
fn is_rewritten(alloc: Global, text: &str) -> bool {
    match read_ring(alloc, text.as_bytes()) {
        Ok(read) => is_written_as(alloc, &read, text),
        Err(_) => false,
    }
}

/// Whether a text is refused after a change.
fn is_refused(alloc: Global, text: &str, part: &str, other: &str) -> bool {
    match changed(alloc, text, part, other) {
        Some(text) => is_bad(alloc, text.as_bytes()),
        None => false,
    }
}

/// Changes after which the text of `tiny` is refused: a part of it and what stands in its place.
static REFUSED: [(&str, &str); 34] = [
    // nothing follows the end
    ("end\n", "end\n\n"),
    ("end\n", "end\n "),
    ("end\n", "end\r\n"),
    ("end\n", "End\n"),
    // a power needs its seats
    ("power 1\n", "power 2\n"),
    ("power 1\n", "power 11\n"),
    ("power 1\n", "power 14\n"),
    ("power 1\n", "power 15\n"),
    ("power 1\n", "power 0\n"),
    ("replicas 1\n", "replicas 2\n"),
    ("replicas 1\n", "replicas 6\n"),
    // a seat is a device of the text
    ("seats\n0\n", "seats\n1\n"),
    ("seats\n0\n", "seats\n00\n"),
    ("seats\n0\n", "seats\n\n"),
    ("seats\n0\n", "seats\n0 0\n"),
    ("seats\n0\n", "seats\n0 \n"),
    ("devices 1\n", "devices 0\n"),
    ("devices 1\n", "devices 2\n"),
    // a word has one spelling
    ("ring tiny", "ring  tiny"),
    ("ring tiny\n", "ring tiny\r\n"),
    ("0 1 1", "0  1 1"),
    ("devices 1\n", "devices 01\n"),
    ("100.00", "100.0"),
    ("version 2", "version +2"),
    ("present", "Present"),
    ("text 1", "text 2"),
    // fields are within limits
    ("version 2", "version 4294967296"),
    ("0 1 1", "0 65536 1"),
    ("10.0.0.1", "10.0.0.256"),
    ("6200", "0"),
    ("6200", "65536"),
    ("100.00", "1000000.01"),
    ("d0", "d.0"),
    ("tiny", "Tiny"),
];

#[test]
fn other_texts_are_refused(rt: HostRuntime) {
    for (part, other) in &REFUSED {
        assert!(rt; is_refused(rt.alloc(), TINY, part, other), "{other}");
    }
}

/// Changes after which the text of `tiny` is read, and written as it was then.
static AT_THE_LIMITS: [(&str, &str); 8] = [
    ("version 2", "version 4294967295"),
    ("0 1 1", "0 65535 0"),
    ("10.0.0.1", "255.255.255.255"),
    ("6200", "65535"),
    ("100.00", "1000000.00"),
    ("100.00", "0.00"),
    ("tiny", "a-0123456789abcdefghijklmnopqrst"),
    ("present", "removed"),
];

/// Whether the text of `tiny` is read after a change, and written as it was then.
fn is_kept_after(alloc: Global, part: &str, other: &str) -> bool {
    match changed(alloc, TINY, part, other) {
        Some(text) => is_rewritten(alloc, text.as_str()),
        None => false,
    }
}

#[test]
fn the_limits_are_read(rt: HostRuntime) {
    for (part, other) in &AT_THE_LIMITS {
        assert!(rt; is_kept_after(rt.alloc(), part, other), "{other}");
    }
}

fn are_removed(devices: &[Device]) -> bool {
    for device in devices {
        if !device.removed {
            return false;
        }
    }
    true
}

fn is_read_with_removed(alloc: Global) -> Option<bool> {
    let text = changed(alloc, TINY, "present", "removed")?;
    Some(are_removed(read_ring(alloc, text.as_bytes()).ok()?.devices()))
}

#[test]
fn a_removed_device_holds_seats(rt: HostRuntime) {
    assert!(rt; matches!(is_read_with_removed(rt.alloc()), Some(true)));
}

/// Changes of a ring on two devices that break the rules of a ring.
static AGAINST_THE_RULES: [(&str, &str); 3] = [
    // two devices at one address, port and name
    (
        "10.0.0.2 6200 100.00 present d1",
        "10.0.0.1 6200 100.00 present d0",
    ),
    // numbers that don't rise
    ("\n1 1 1", "\n0 1 1"),
    // both replicas of a partition on one device
    ("seats\n0 1", "seats\n0 0"),
];

/// Whether a text is refused after each of the changes above.
fn are_refused(alloc: Global, text: &str) -> bool {
    for (part, other) in &AGAINST_THE_RULES {
        if !is_refused(alloc, text, part, other) {
            return false;
        }
    }
    true
}

/// Whether the text of a ring on two devices is read and written as it was, and refused after each of
/// those changes.
fn keeps_the_rules(alloc: Global) -> Option<bool> {
    let text = write_ring(alloc, &taken_of(alloc, "pair", 2)?).ok()?;
    Some(is_rewritten(alloc, text.as_str()) && are_refused(alloc, text.as_str()))
}

#[test]
fn devices_and_seats_keep_the_rules_of_a_ring(rt: HostRuntime) {
    assert!(rt; matches!(keeps_the_rules(rt.alloc()), Some(true)));
}

/// Whether a snapshot is written, read, and written the same again.
fn is_read_back(alloc: Global, taken: &Snapshot) -> Option<bool> {
    let text = write_ring(alloc, taken).ok()?;
    let read = read_ring(alloc, text.as_bytes()).ok()?;
    let is_same = read.seats() == taken.seats() && read.devices() == taken.devices();
    Some(is_same && is_written_as(alloc, &read, text.as_str()))
}

/// Whether the snapshot of the greatest ring has its devices and seats, and is read back.
fn is_the_greatest_kept(alloc: Global) -> Option<bool> {
    let ring = ring(alloc, 14, 5, 256)?;
    let taken = taken(alloc, "great", &ring)?;
    let is_same = taken.seats() == ring.seats() && taken.devices() == ring.devices();
    Some(is_same && is_read_back(alloc, &taken)?)
}

#[test]
fn the_greatest_ring_is_written_and_read(rt: HostRuntime) {
    assert!(rt; matches!(is_the_greatest_kept(rt.alloc()), Some(true)));
}
