//! Whether an open device is less crowded for a seat of a partition than the seat's own.
ghost use Rattle.std.specs.Prelude.{◌≡◌, ◌<◌, ◌≤◌, ◌+◌, ◌==◌, ℕ, true, false, All, length, map, Some};
ghost use Rattle.std.specs.Prelude.{◌&&◌, if◌then◌else◌, slice_index};
ghost use Rattle.ring_words.specs.Limits.{most_devices, most_ids, most_replicas};
ghost use Rattle.ring_model.specs.Ring.{has_device};
ghost use Rattle.ring_model.specs.Valid.{AreDevices};
ghost use Rattle.ring_share.specs.Crowd.{is_less, is_outside};
ghost use Rattle.ring_share.specs.Figures.{has_better, has_crowded};
ghost use Rattle.ring_share.specs.Tiers.{AreTier};
ghost use Rattle.ring_share.specs.Want.{is_open};
ghost use Rattle.ring_share.specs.declared.tiers.Tier.TheVariants.{Region, Zone};
ghost use Rattle.ring_share.specs.Inner.Coded.{AreAllCodes, AreAllCounts, AreAllOthers, AreCounts};
ghost use Rattle.ring_share.specs.Inner.Coded.{AreOthers, AreStanding, crowd_at};

use crate::apart::{count_at, no_codes, stand_apart};
use crate::places::places_of;
use crate::wants::is_open;
use ring_words::{Device, DeviceId, MOST_DEVICES};

/// For each kind of tier a number for the device at each place, or for each code.
#[derive(Drop)]
pub(crate) struct ByTier {
    pub(crate) region: [u8; MOST_DEVICES],
    pub(crate) zone: [u8; MOST_DEVICES],
    pub(crate) server: [u8; MOST_DEVICES],
}

/// How many seats of a partition have each code. `places` has the places of their devices.
fn count_by_code(codes: &ByTier, places: &[usize]) -> ByTier
    requires places { All (λ place. place < most_devices) places.now }
    requires few { length places.now ≤ most_replicas }
    ensures { AreAllCounts codes.now places.now result }
{
    let mut counts = ByTier {
        region: no_codes(),
        zone: no_codes(),
        server: no_codes(),
    };
    count_at(&mut counts.region, &codes.region, places);
    count_at(&mut counts.zone, &codes.zone, places);
    count_at(&mut counts.server, &codes.server, places);
    counts
}

/// The seat of a replica is left out of the counts of one kind of tier.
fn leave_out(
    counts: &mut [u8; MOST_DEVICES],
    codes: &[u8; MOST_DEVICES],
    places: &[usize],
    replica: usize,
)
    requires places { All (λ place. place < most_devices) places.now }
    requires replica { replica < length places.now }
    requires counted { AreCounts codes.now places.now counts.old }
    ensures { AreOthers codes.now places.now replica counts.new }
{
    counts[usize::from(codes[places[replica]])] -= 1;
}

/// It is counted again.
fn put_back(
    counts: &mut [u8; MOST_DEVICES],
    codes: &[u8; MOST_DEVICES],
    places: &[usize],
    replica: usize,
)
    requires places { All (λ place. place < most_devices) places.now }
    requires few { length places.now ≤ most_replicas }
    requires replica { replica < length places.now }
    requires others { AreOthers codes.now places.now replica counts.old }
    ensures { AreCounts codes.now places.now counts.new }
{
    counts[usize::from(codes[places[replica]])] += 1;
}

/// The seat of a replica is left out of all counts.
fn leave_out_all(counts: &mut ByTier, codes: &ByTier, places: &[usize], replica: usize)
    requires places { All (λ place. place < most_devices) places.now }
    requires replica { replica < length places.now }
    requires counted { AreAllCounts codes.now places.now counts.old }
    ensures { AreAllOthers codes.now places.now replica counts.new }
{
    leave_out(&mut counts.region, &codes.region, places, replica);
    leave_out(&mut counts.zone, &codes.zone, places, replica);
    leave_out(&mut counts.server, &codes.server, places, replica);
}

/// It is counted again in all of them.
fn put_back_all(counts: &mut ByTier, codes: &ByTier, places: &[usize], replica: usize)
    requires places { All (λ place. place < most_devices) places.now }
    requires few { length places.now ≤ most_replicas }
    requires replica { replica < length places.now }
    requires others { AreAllOthers codes.now places.now replica counts.old }
    ensures { AreAllCounts codes.now places.now counts.new }
{
    put_back(&mut counts.region, &codes.region, places, replica);
    put_back(&mut counts.zone, &codes.zone, places, replica);
    put_back(&mut counts.server, &codes.server, places, replica);
}

/// How crowded the device at a place is, by its codes and how many seats have each.
fn crowd_at(codes: &ByTier, counts: &ByTier, place: usize) -> (u8, u8, u8)
    requires { place < most_devices }
    ensures { result ≡ crowd_at codes.now counts.now place }
{
    (
        counts.region[usize::from(codes.region[place])],
        counts.zone[usize::from(codes.zone[place])],
        counts.server[usize::from(codes.server[place])],
    )
}

/// Whether the one is less crowded: compared by region, then by zone, then by server.
fn is_less(one: (u8, u8, u8), other: (u8, u8, u8)) -> bool
    ensures { result ≡ is_less one other }
{
    one.0 < other.0
        || (one.0 == other.0 && (one.1 < other.1 || (one.1 == other.1 && one.2 < other.2)))
}

/// Whether a device is open, and outside a partition with these seats.
fn is_free(device: &Device, row: &[DeviceId]) -> bool
    ensures { result ≡ (is_open device.now && is_outside (map Some row.now) device.now.id) }
{
    is_open(device) && !row.contains(&device.id)
}

/// Whether a device at one of these places is less crowded than this.
fn has_less(codes: &ByTier, counts: &ByTier, places: &[usize], own: (u8, u8, u8)) -> bool
    requires { All (λ place. place < most_devices) places.now }
    ensures { result ≡ false → (index : ℕ) → index < length places.now →
        is_less (crowd_at codes.now counts.now (slice_index places.now index)) own ≡ false }
{
    for place in places {
        if is_less(crowd_at(codes, counts, *place), own) {
            return true;
        }
    }
    false
}

/// Whether an open device outside a partition is less crowded for the seat of a replica than that
/// seat's own. `others` tells by code how many seats but this one are in each tier, `places` has the
/// places of the devices of all of them, and `zones` that of a device in each zone that has an open
/// one.
fn has_better(
    devices: &[Device],
    zones: &[usize],
    codes: &ByTier,
    others: &ByTier,
    row: &[DeviceId],
    places: &[usize],
    replica: usize,
) -> bool
    requires devices { AreDevices most_ids devices.now }
    requires zones { AreTier Zone devices.now zones.now }
    requires codes { AreAllCodes devices.now codes.now }
    requires places { AreStanding devices.now row.now places.now }
    requires few { length row.now ≤ most_replicas }
    requires replica { replica < length row.now }
    requires others { AreAllOthers codes.now places.now replica others.now }
    ensures { result ≡ has_better devices.now (map Some row.now) replica
        (slice_index row.now replica) }
{
    let own = crowd_at(codes, others, places[replica]);
    // alone on its server: a less crowded device stands in a less crowded zone or region
    if own.2 == 0 && !has_less(codes, others, zones, own) {
        return false;
    }
    for (place, device) in devices.iter().enumerate() {
        let less = is_less(crowd_at(codes, others, place), own);
        if less && is_free(device, row) {
            return true;
        }
    }
    false
}

/// Whether a partition with these seats has one for which an open device outside it is less crowded
/// than the seat's own. `regions` and `zones` have the place of a device in each that has an open
/// one.
pub(crate) fn has_crowded(
    devices: &[Device],
    regions: &[usize],
    zones: &[usize],
    codes: &ByTier,
    row: &[DeviceId],
) -> bool
    requires devices { AreDevices most_ids devices.now }
    requires regions { AreTier Region devices.now regions.now }
    requires zones { AreTier Zone devices.now zones.now }
    requires codes { AreAllCodes devices.now codes.now }
    requires known { All (λ id. has_device id devices.now ≡ true) row.now }
    requires few { length row.now ≤ most_replicas }
    ensures { result ≡ has_crowded devices.now (map Some row.now) }
{
    if stand_apart(devices, regions, &codes.region, &codes.zone, row) {
        return false;
    }
    let places = places_of(devices, row);
    has_seat_crowded(devices, zones, codes, row, &places[..row.len()])
}

/// So with the places of the devices of its seats.
fn has_seat_crowded(
    devices: &[Device],
    zones: &[usize],
    codes: &ByTier,
    row: &[DeviceId],
    places: &[usize],
) -> bool
    requires devices { AreDevices most_ids devices.now }
    requires zones { AreTier Zone devices.now zones.now }
    requires codes { AreAllCodes devices.now codes.now }
    requires places { AreStanding devices.now row.now places.now }
    requires within { All (λ place. place < most_devices) places.now }
    requires few { length row.now ≤ most_replicas }
    ensures { result ≡ has_crowded devices.now (map Some row.now) }
{
    let mut counts = count_by_code(codes, places);
    for replica in 0..row.len() {
        leave_out_all(&mut counts, codes, places, replica);
        if has_better(devices, zones, codes, &counts, row, places, replica) {
            return true;
        }
        put_back_all(&mut counts, codes, places, replica);
    }
    false
}
