//! The nodes of partitions.
use crate::fixtures::{DEVICE_0, DeviceRow, RingRow, WITHOUT_DEVICES, new_ring, spelled_ring};
use path_lookup::{HashNames, NodesFault, Path, hash_path, nodes, partition_of};
use ring_model::Ring;
use std::alloc::Global;

/// A ring of power 1 with two replicas, on devices 3 and 5.
static SMALL: RingRow = ring_like!(WITHOUT_DEVICES, replicas: 2, version: 3,
    devices: &[
        device_like!(DEVICE_0, id: 3, place: 3, server: 3, weight: 100),
        device_like!(DEVICE_0, id: 5, place: 5, server: 5, weight: 100),
    ],
    seats: &[3, 5, 5, 3]);

/// Whether these are the nodes of a partition of a ring of power 1 with two replicas.
fn are_nodes(alloc: Global, ring: &Ring, partition: u32, ids: &[u16]) -> bool {
    if partition > 1 || ring.power().get() != 1 || ring.replicas().get() != 2 {
        return false;
    }
    match nodes(alloc, ring, partition) {
        Ok(found) => found.as_slice() == ids,
        Err(_) => false,
    }
}

fn has_nodes(alloc: Global) -> Option<bool> {
    let ring = spelled_ring(alloc, &SMALL)?;
    Some(are_nodes(alloc, &ring, 0, &[3, 5]) && are_nodes(alloc, &ring, 1, &[5, 3]))
}

#[test]
fn nodes_are_in_order_of_replica(rt: HostRuntime) {
    assert!(rt; matches!(has_nodes(rt.alloc()), Some(true)));
}

/// Whether the nodes of the path `/a/c` between `x` and `y` are devices 5 and 3.
fn are_nodes_of_path(alloc: Global, ring: &Ring) -> Option<bool> {
    let path = Path::new(alloc, b"a", Some(b"c"), None).ok()?;
    let names = HashNames {
        prefix: b"x",
        suffix: b"y",
    };
    let partition = partition_of(hash_path(names, &path), ring.power());
    Some(nodes(alloc, ring, partition).ok()?.as_slice() == [5, 3].as_slice())
}

/// Whether those are the nodes in the small ring and in the ring that it is raised to.
fn are_nodes_kept(alloc: Global) -> Option<bool> {
    let ring = spelled_ring(alloc, &SMALL)?;
    let raised = ring.raised().ok()?;
    Some(are_nodes_of_path(alloc, &ring)? && are_nodes_of_path(alloc, &raised)?)
}

#[test]
fn a_raised_ring_keeps_the_nodes(rt: HostRuntime) {
    assert!(rt; matches!(are_nodes_kept(rt.alloc()), Some(true)));
}

/// Whether the last partition of a ring of power 14 has no nodes.
fn has_no_nodes(alloc: Global) -> Option<bool> {
    let ring = new_ring(alloc, 14, 0)?;
    if ring.power().get() != 14 {
        return None;
    }
    Some(matches!(nodes(alloc, &ring, 16383), Err(NodesFault::NotAssigned)))
}

#[test]
fn a_ring_without_seats_has_no_nodes(rt: HostRuntime) {
    assert!(rt; matches!(has_no_nodes(rt.alloc()), Some(true)));
}
