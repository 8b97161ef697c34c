//! Swift's ring file: bytes that Swift's own code wrote, and weights as Swift writes them.
use crate::fixtures::{
    DEVICE_0, DEVICE_1, DEVICE_3, DeviceRow, RingRow, WITHOUT_DEVICES, ring_on, spelled_devices,
    spelled_ring, taken,
};
use ring_model::Ring;
use ring_words::Weight;
use std::alloc::Global;
use swift_ring::write_swift_ring;

/// A ring with a gap and a marked device.
static WITH_A_GAP: RingRow = ring_like!(WITHOUT_DEVICES, replicas: 2, version: 7,
    devices: &[DEVICE_1, device_like!(DEVICE_3, weight: 1225, removed: true)],
    seats: &[1, 3, 3, 1]);

/// The JSON that Swift 2.30.1 writes of devices 1 and 3, of power 1, two replicas and version 7.
static JSON: &str =
    "{\"byteorder\": \"little\", \"devs\": [null, {\"device\": \"d1\", \"id\": 1, \"ip\": \"10.0.0.2\", \"meta\": \"\", \"port\": 6200, \"region\": 1, \"replication_ip\": \"10.0.0.2\", \"replication_port\": 6200, \"weight\": 100.0, \"zone\": 1}, null, {\"device\": \"d3\", \"id\": 3, \"ip\": \"10.0.0.4\", \"meta\": \"\", \"port\": 6200, \"region\": 1, \"replication_ip\": \"10.0.0.4\", \"replication_port\": 6200, \"weight\": 12.25, \"zone\": 1}], \"part_shift\": 31, \"replica_count\": 2, \"version\": 7}";

/// The file of a ring.
fn written(alloc: Global, ring: &Ring) -> Option<Vec<u8>> {
    write_swift_ring(alloc, &taken(alloc, "small", ring)?).ok()
}

/// Whether bytes are the head of a file, the JSON and the seats that Swift writes.
fn are_swift_bytes(bytes: &[u8]) -> bool {
    if bytes.len() != 451 {
        return false;
    }
    let (head, rest) = bytes.split_at(10);
    let (json, seats) = rest.split_at(433);
    head == [82, 49, 78, 71, 0, 1, 0, 0, 1, 177].as_slice()
        && json == JSON.as_bytes()
        && seats == [1, 0, 3, 0, 3, 0, 1, 0].as_slice()
}

fn has_swift_bytes(alloc: Global) -> Option<bool> {
    let bytes = written(alloc, &spelled_ring(alloc, &WITH_A_GAP)?)?;
    Some(are_swift_bytes(bytes.as_slice()))
}

#[test]
fn a_ring_with_a_gap_and_a_marked_device_has_the_bytes_that_swift_writes(rt: HostRuntime) {
    assert!(rt; matches!(has_swift_bytes(rt.alloc()), Some(true)));
}

/// The weights of a device, and how Swift writes them.
static WEIGHTS: [(&str, &str); 6] = [
    ("0.00", "\"weight\": 0.0, "),
    ("0.01", "\"weight\": 0.01, "),
    ("0.10", "\"weight\": 0.1, "),
    ("7.05", "\"weight\": 7.05, "),
    ("12.50", "\"weight\": 12.5, "),
    ("1000000.00", "\"weight\": 1000000.0, "),
];

/// What a ring of one device at version 7 is made of beside it.
static BESIDE_ONE_DEVICE: RingRow = ring_like!(WITHOUT_DEVICES, version: 7);

/// Such a ring with a device of a weight.
fn ring_of_weight(alloc: Global, weight: &str) -> Option<Ring> {
    let device = DeviceRow {
        weight: Weight::parse(weight)?.hundredths(),
        ..DEVICE_0
    };
    let devices = spelled_devices(alloc, &[device])?;
    ring_on(
        alloc,
        &BESIDE_ONE_DEVICE,
        devices,
        vec![in alloc; 0, 0].ok()?,
    )
}

/// Whether the JSON of the file of such a ring has this member.
fn is_written_so(alloc: Global, weight: &str, member: &str) -> Option<bool> {
    let bytes = written(alloc, &ring_of_weight(alloc, weight)?)?;
    Some(str::from_utf8(bytes.get(10..)?).ok()?.contains(member))
}

#[test]
fn weights_are_written_as_swift_writes_them(rt: HostRuntime) {
    for (weight, member) in &WEIGHTS {
        let is_so = is_written_so(rt.alloc(), weight, member);
        assert!(rt; matches!(is_so, Some(true)), "{weight}");
    }
}
