//! What devices and seats of a ring are, by plain scans of both.
use ring_model::Ring;
use ring_words::{Device, DeviceId};

pub fn width(ring: &Ring) -> usize {
    usize::from(ring.replicas().get())
}

pub fn partitions(ring: &Ring) -> usize {
    1usize << ring.power().get()
}

pub fn seat(ring: &Ring, partition: usize, replica: usize) -> Option<DeviceId> {
    let place = partition
        .saturating_mul(width(ring))
        .saturating_add(replica);
    ring.seats().get(place).copied()
}

/// The first of these devices that has this number.
pub fn find_in(devices: &[Device], id: DeviceId) -> Option<&Device> {
    for device in devices {
        if device.id == id {
            return Some(device);
        }
    }
    None
}

pub fn is_present(ring: &Ring, id: DeviceId) -> bool {
    match find_in(ring.devices(), id) {
        Some(device) => !device.removed,
        None => false,
    }
}

pub fn is_open(ring: &Ring, id: DeviceId) -> bool {
    match find_in(ring.devices(), id) {
        Some(device) => !device.removed && device.row.weight.hundredths() > 0,
        None => false,
    }
}

pub fn have(ring: &Ring, id: DeviceId) -> usize {
    let mut count = 0usize;
    for seat in ring.seats() {
        if *seat == id {
            count = count.saturating_add(1);
        }
    }
    count
}

pub fn want(ring: &Ring, wanted: &[u32], id: DeviceId) -> usize {
    for (place, device) in ring.devices().iter().enumerate() {
        if device.id == id {
            return wanted.get(place).copied().unwrap_or(0) as usize;
        }
    }
    0
}

fn is_outside(ring: &Ring, partition: usize, id: DeviceId) -> bool {
    for replica in 0..width(ring) {
        if seat(ring, partition, replica) == Some(id) {
            return false;
        }
    }
    true
}

pub fn has_room(ring: &Ring, wanted: &[u32], id: DeviceId) -> bool {
    is_open(ring, id) && have(ring, id) < want(ring, wanted, id)
}

fn is_free(ring: &Ring, wanted: &[u32], partition: usize, id: DeviceId) -> bool {
    has_room(ring, wanted, id) && is_outside(ring, partition, id)
}

pub fn has_free(ring: &Ring, wanted: &[u32], partition: usize) -> bool {
    for device in ring.devices() {
        if is_free(ring, wanted, partition, device.id) {
            return true;
        }
    }
    false
}

/// 1 for each tier that two devices share, as one number: regions count ten thousands, zones
/// hundreds.
fn near(one: &Device, other: &Device) -> usize {
    if one.row.region != other.row.region {
        0
    } else if one.row.zone != other.row.zone {
        10_000
    } else if one.row.address != other.row.address {
        10_100
    } else {
        10_101
    }
}

/// How many of these devices are in a device's region, in its zone, on its server, as one number.
pub fn crowd_among(ring: &Ring, others: &[DeviceId], id: DeviceId) -> usize {
    let Some(own) = find_in(ring.devices(), id) else {
        return 0;
    };
    let mut crowd = 0usize;
    for other in others {
        if let Some(other) = find_in(ring.devices(), *other) {
            crowd = crowd.saturating_add(near(own, other));
        }
    }
    crowd
}

/// How many other seats of the partition are in the device's region, in its zone, on its server, as
/// one number.
pub fn crowd(ring: &Ring, partition: usize, replica: usize, id: DeviceId) -> usize {
    let mut crowd = 0usize;
    for other in 0..width(ring) {
        if other != replica {
            if let Some(seat) = seat(ring, partition, other) {
                crowd = crowd.saturating_add(crowd_among(ring, [seat].as_slice(), id));
            }
        }
    }
    crowd
}

pub fn has_less_crowded(
    ring: &Ring,
    wanted: &[u32],
    partition: usize,
    replica: usize,
    id: DeviceId,
) -> bool {
    let own = crowd(ring, partition, replica, id);
    for device in ring.devices() {
        if is_free(ring, wanted, partition, device.id)
            && crowd(ring, partition, replica, device.id) < own
        {
            return true;
        }
    }
    false
}

pub fn is_lost(ring: &Ring, partition: usize, replica: usize) -> bool {
    match seat(ring, partition, replica) {
        None => true,
        Some(id) => !is_present(ring, id),
    }
}
