//! The seats of a file.
ghost use Rattle.std.specs.Prelude.{◌≡◌, ◌<◌, ◌++◌, ◌*◌, OnOk, length};
ghost use Rattle.swift_ring.specs.SwiftFile.{replica_bytes, seats_bytes};

use ring_words::DeviceId;
use std::alloc::AllocError;

/// Appends the devices of a replica, by partition.
fn push_replica(
    bytes: &mut Vec<u8>,
    partitions: usize,
    replicas: usize,
    seats: &[DeviceId],
    replica: usize,
) -> Result<(), AllocError>
    requires replica { replica < replicas }
    requires whole { length seats.now ≡ partitions * replicas }
    ensures { OnOk result (bytes.new.items ≡ bytes.old.items ++
        replica_bytes partitions replicas seats.now replica) }
{
    for partition in 0..partitions {
        let seat = seats[partition * replicas + replica];
        bytes.extend_from_slice(&seat.to_le_bytes())?;
    }
    Ok(())
}

/// Appends the devices of all seats, by replica and then by partition.
pub(crate) fn push_seats(
    bytes: &mut Vec<u8>,
    partitions: usize,
    replicas: usize,
    seats: &[DeviceId],
) -> Result<(), AllocError>
    requires { length seats.now ≡ partitions * replicas }
    ensures { OnOk result (bytes.new.items ≡ bytes.old.items ++
        seats_bytes partitions replicas seats.now) }
{
    for replica in 0..replicas {
        push_replica(bytes, partitions, replicas, seats, replica)?;
    }
    Ok(())
}
