//! Where devices stand, and how crowded they are.
ghost use Rattle.std.specs.Prelude.{◌≡◌, ◌<◌, ◌+◌, ◌≤◌, ℕ, true, [], ◌∷◌, length, slice_index_or};
ghost use Rattle.std.specs.Prelude.{Option, Some, None, IfSome, if◌then◌else◌, map};
ghost use Rattle.std.specs.List.Sorted.{IsStrictlyIncreasing};
ghost use Rattle.ring_model.specs.Ring.{partition_count, has_device};
ghost use Rattle.ring_share.specs.Crowd.{in_region, in_zone, on_server, tiers_of};
ghost use Rattle.ring_share.specs.Crowd.{row_of, others, crowd, crowd_for};

use crate::places::device_of;
use ring_model::Ring;
use ring_words::{Device, DeviceId};

/// Whether two devices stand in one region.
pub(crate) fn in_region(a: &Device, b: &Device) -> bool
    ensures { result ≡ in_region a.now b.now }
{
    a.row.region == b.row.region
}

/// Whether they stand in one zone of one region.
pub(crate) fn in_zone(a: &Device, b: &Device) -> bool
    ensures { result ≡ in_zone a.now b.now }
{
    in_region(a, b) & (a.row.zone == b.row.zone)
}

/// Whether they stand on one server: at one address in one zone.
pub(crate) fn on_server(a: &Device, b: &Device) -> bool
    ensures { result ≡ on_server a.now b.now }
{
    in_zone(a, b) & (a.row.address == b.row.address)
}

/// What a seat on one device adds to the crowd of the other: 1 for each tier that they share.
fn shared_tiers(one: &Device, other: &Device) -> (u32, u32, u32)
    ensures region { result.0 ≡ (if in_region one.now other.now then 1 else 0) }
    ensures zone { result.1 ≡ (if in_zone one.now other.now then 1 else 0) }
    ensures server { result.2 ≡ (if on_server one.now other.now then 1 else 0) }
{
    (
        u32::from(in_region(one, other)),
        u32::from(in_zone(one, other)),
        u32::from(on_server(one, other)),
    )
}

/// What one seat adds to the crowd of the device of a number.
fn shared(devices: &[Device], id: DeviceId, seat: Option<DeviceId>) -> (u32, u32, u32)
    requires rise { IsStrictlyIncreasing (map (λ device. device.id) devices.now) }
    requires known { has_device id devices.now ≡ true }
    requires seat { IfSome seat (λ seat. has_device seat devices.now ≡ true) }
    ensures same { result ≡ crowd (tiers_of devices.now) (seat ∷ []) id }
    ensures few { (result.0 ≤ 1) × (result.1 ≤ 1) × (result.2 ≤ 1) }
{
    let Some(seat) = seat else {
        return (0, 0, 0);
    };
    shared_tiers(device_of(devices, id), device_of(devices, seat))
}

/// A seat of a partition, as one of its seats sees it: that seat itself is taken as empty.
fn seat_seen_from(ring: &Ring, partition: u32, replica: u16, other: u16) -> Option<DeviceId>
    requires partition { partition < partition_count ring.now }
    requires other { other < ring.now.replicas }
    ensures { result ≡ slice_index_or (others (row_of ring.now partition) replica) other None }
{
    if other == replica {
        None
    } else {
        ring.seat(partition, other)
    }
}

/// How crowded a device of the ring is for the seat of a replica of a partition: how many other
/// seats of the partition, those of the other replicas, are in the device's region, in its zone and
/// on its server.
pub fn crowd(ring: &Ring, partition: u32, replica: u16, device: DeviceId) -> (u32, u32, u32)
    requires partition { partition < partition_count ring.now }
    requires replica { replica < ring.now.replicas }
    requires device { has_device device ring.now.devices ≡ true }
    ensures { result ≡ crowd_for ring.now partition replica device }
{
    let devices = ring.devices();
    let mut region = 0;
    let mut zone = 0;
    let mut server = 0;
    for other in 0..ring.replicas().get() {
        let seat = seat_seen_from(ring, partition, replica, other);
        let more = shared(devices, device, seat);
        region += more.0;
        zone += more.1;
        server += more.2;
    }
    (region, zone, server)
}
