//! Whether the seats of a partition stand apart, which shows at a glance that none of them is
//! crowded.
ghost use Rattle.std.specs.Prelude.{◌≡◌, ◌<◌, ◌≤◌, ℕ, true, false, All, length, map, slice_get};
ghost use Rattle.ring_words.specs.Limits.{most_devices, most_replicas};
ghost use Rattle.std.specs.Prelude.{◌+◌, ◌*◌, ◌==◌, if◌then◌else◌, slice_index, take, Some};
ghost use Rattle.std.specs.List.Sorted.{IsStrictlyIncreasing};
ghost use Rattle.ring_model.specs.Ring.{has_device};
ghost use Rattle.ring_words.specs.declared.device.Device.{Device as DeviceModel};
ghost use Rattle.ring_share.specs.Figures.{has_crowded};
ghost use Rattle.ring_share.specs.Tiers.{AreTier};
ghost use Rattle.ring_share.specs.declared.tiers.Tier.TheVariants.{Region, Zone};
ghost use Rattle.ring_share.specs.Codes.{IsCode, AreCodes};
ghost use Rattle.ring_share.specs.Inner.Coded.{coded};

use crate::places::place_in;
use crate::tiers::{Tier, shares};
use ring_words::{Device, DeviceId, MOST_DEVICES};

/// No codes yet.
pub(crate) fn no_codes<const N: usize>() -> [u8; N]
    ensures zero { (k : ℕ) → slice_index result k ≡ 0 }
    ensures long { length result ≡ N }
{
    [0; N]
}

/// The place of the first device that shares a tier of a kind with the device at a place.
fn first_sharing(devices: &[Device], tier: Tier, place: usize) -> usize
    requires { place < length devices.now }
    ensures { IsCode tier devices.now place result }
{
    for other in 0..place {
        if shares(tier, &devices[other], &devices[place]) {
            return other;
        }
    }
    place
}

/// For the device at each place a number that those devices have who share its tier of a kind, and
/// no others. Behind the last device it is left open what stands.
pub fn tier_codes(devices: &[Device], tier: Tier) -> [u8; MOST_DEVICES]
    requires { length devices.now ≤ most_devices }
    ensures { AreCodes tier devices.now result }
{
    let mut codes: [u8; MOST_DEVICES] = no_codes();
    for place in 0..devices.len() {
        codes[place] = first_sharing(devices, tier, place) as u8;
    }
    codes
}

/// Counts how many of at most five places have each code.
pub(crate) fn count_at(
    counts: &mut [u8; MOST_DEVICES],
    codes: &[u8; MOST_DEVICES],
    places: &[usize],
)
    requires zero { (code : ℕ) → slice_index counts.old code ≡ 0 }
    requires places { All (λ place. place < most_devices) places.now }
    requires few { length places.now ≤ most_replicas }
    ensures { (code : ℕ) → code < most_devices →
        slice_index counts.new code ≡ coded codes.now places.now code }
{
    for place in places {
        counts[usize::from(codes[*place])] += 1;
    }
}

/// Whether no seat was counted at the code of a place so far. This one is then.
fn is_first(counts: &mut [u8; MOST_DEVICES], codes: &[u8; MOST_DEVICES], place: usize) -> bool
    requires place { place < most_devices }
    requires one { (code : ℕ) → slice_index counts.old code ≤ 1 }
    ensures counted { result ≡ true → (code : ℕ) → slice_index counts.new code ≡
        slice_index counts.old code + (if code == slice_index codes.now place then 1 else 0) }
    ensures one { (code : ℕ) → slice_index counts.new code ≤ 1 }
{
    let code = usize::from(codes[place]);
    if counts[code] > 0 {
        return false;
    }
    counts[code] = 1;
    true
}

/// Counts one more seat at the code of a place, and tells how many the code with the most has now.
/// Before it had `most`.
fn count_one(
    most: usize,
    counts: &mut [u8; MOST_DEVICES],
    codes: &[u8; MOST_DEVICES],
    place: usize,
) -> usize
    requires place { place < most_devices }
    requires most { (code : ℕ) → slice_index counts.old code ≤ most }
    requires few { most < most_replicas }
    ensures counted { (code : ℕ) → slice_index counts.new code ≡
        slice_index counts.old code + (if code == slice_index codes.now place then 1 else 0) }
    ensures most { (code : ℕ) → slice_index counts.new code ≤ result }
    ensures few { result ≤ most + 1 }
{
    let code = usize::from(codes[place]);
    let count = usize::from(counts[code]) + 1;
    counts[code] = count as u8;
    if count < most { most } else { count }
}

/// Whether the code of each of some places has `most` seats, or no more than one fewer.
fn each_has_nearly(
    most: usize,
    counts: &[u8; MOST_DEVICES],
    codes: &[u8; MOST_DEVICES],
    places: &[usize],
) -> bool
    requires { All (λ place. place < most_devices) places.now }
    ensures { result ≡ true → (index : ℕ) → index < length places.now → most ≤
        slice_index counts.now (slice_index codes.now (slice_index places.now index)) + 1 }
{
    for place in places {
        if usize::from(counts[usize::from(codes[*place])]) + 1 < most {
            return false;
        }
    }
    true
}

/// Whether each seat of a partition is alone in its zone, and in no region are two more of them
/// than in any region that has an open device. `regions` has the place of a device in each of
/// these; regions and zones are told by codes. Where it answers true no open device is less crowded
/// for any of the seats.
#[inline]
pub fn stand_apart(
    devices: &[Device],
    regions: &[usize],
    in_region: &[u8; MOST_DEVICES],
    in_zone: &[u8; MOST_DEVICES],
    row: &[DeviceId],
) -> bool
    requires rise { IsStrictlyIncreasing (map (λ device. device.id) devices.now) }
    requires devices { length devices.now ≤ most_devices }
    requires regions { AreTier Region devices.now regions.now }
    requires in_region { AreCodes Region devices.now in_region.now }
    requires in_zone { AreCodes Zone devices.now in_zone.now }
    requires known { All (λ id. has_device id devices.now ≡ true) row.now }
    requires few { length row.now ≤ most_replicas }
    ensures { result ≡ true → has_crowded devices.now (map Some row.now) ≡ false }
{
    let mut by_region: [u8; MOST_DEVICES] = no_codes();
    let mut by_zone: [u8; MOST_DEVICES] = no_codes();
    let mut most = 0;
    for id in row {
        let place = place_in(devices, *id);
        if !is_first(&mut by_zone, in_zone, place) {
            return false;
        }
        most = count_one(most, &mut by_region, in_region, place);
    }
    each_has_nearly(most, &by_region, in_region, regions)
}
