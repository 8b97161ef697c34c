//! The whole file.
ghost use Rattle.std.specs.Prelude.{◌≡◌, ◌^◌, ◌<◌, ◌++◌, IfOk, length, string_bytes};
ghost use Rattle.swift_ring.specs.SwiftFile.{ring_json, swift_file};

use crate::json::json_of;
use crate::seats::push_seats;
use ring_text::Snapshot;
use ring_words::partition_count;
use std::alloc::{AllocError, Global};

/// The bytes of Swift's ring file, version 1, of a snapshot, before they are compressed: `R1NG`, the
/// version in two bytes, the length of the JSON in four, the JSON, and for each replica its devices
/// by partition, two bytes each. The first two numbers have their greatest byte first, the devices
/// their least one.
pub fn write_swift_ring(alloc: Global, snapshot: &Snapshot) -> Result<Vec<u8>, AllocError>
    ensures { IfOk result (λ bytes. bytes.items ≡ swift_file snapshot.now) }
{
    let seats = snapshot.seats();
    let json = json_of(alloc, snapshot)?;
    let json = json.as_bytes();
    let length = json.len() as u32;
    let mut bytes = Vec::new(alloc);
    bytes.extend_from_slice(b"R1NG")?;
    bytes.extend_from_slice(&1u16.to_be_bytes())?;
    bytes.extend_from_slice(&length.to_be_bytes())?;
    bytes.extend_from_slice(json)?;
    let partitions = partition_count(snapshot.power());
    let replicas = usize::from(snapshot.replicas().get());
    push_seats(&mut bytes, partitions, replicas, seats)?;
    Ok(bytes)
}
