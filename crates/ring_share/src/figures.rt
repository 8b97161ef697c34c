//! Balance and dispersion.
ghost use Rattle.std.specs.Prelude.{◌≡◌, ◌==◌, ◌<◌, ◌≤◌, ◌+◌, ◌*◌, ◌/◌, ◌^◌, ℕ, true, All, length};
ghost use Rattle.ring_words.specs.Limits.{most_replicas, most_seats};
ghost use Rattle.std.specs.Prelude.{map, min, max, slice_get, slice_index, slice_index_or};
ghost use Rattle.std.specs.Prelude.{count_by, Some, None};
ghost use Rattle.std.specs.Option.{option_map};
ghost use Rattle.std.specs.List.Sorted.{IsStrictlyIncreasing};
ghost use Rattle.ring_model.specs.Ring.{partition_count as partitions_of, has_device, is_assigned};
ghost use Rattle.ring_words.specs.declared.device.Device.{Device as DeviceModel};
ghost use Rattle.ring_share.specs.Want.{total_weight};
ghost use Rattle.ring_share.specs.Room.{have};
ghost use Rattle.ring_share.specs.Tiers.{AreTier};
ghost use Rattle.ring_share.specs.declared.tiers.Tier.TheVariants.{Region, Zone};
ghost use Rattle.ring_share.specs.Codes.{AreCodes};
ghost use Rattle.ring_share.specs.Crowd.{device_by_id, row_of, rows_of};
ghost use Rattle.ring_share.specs.Figures.{distance, greatest_balance, device_balance};
ghost use Rattle.ring_share.specs.Figures.{ring_balance, has_crowded, ring_dispersion};

use crate::apart::{stand_apart, tier_codes};
use crate::better::{ByTier, has_crowded};
use crate::places::{device_of, place_in};
use crate::rooms::have;
use crate::tiers::{Tier, one_each};
use crate::wants::{is_open, seat_count, total_weight};
use ring_model::Ring;
use ring_words::{Device, DeviceId, MOST_DEVICES, partition_count};

const GREATEST_BALANCE: u64 = 99_999;

fn distance(a: u64, b: u64) -> u64
    ensures { result ≡ distance a b }
{
    if a < b { b - a } else { a - b }
}

fn greater(a: u32, b: u32) -> u32
    ensures { result ≡ max a b }
{
    a.max(b)
}

/// So many hundredths of a percent of a share are a distance from it, or the greatest balance if
/// they are more.
fn balance_from(distance: u64, share: u64) -> u32
    requires some { 0 < share }
    requires small { share < 2 ^ 44 }
    ensures { result ≡ min greatest_balance (10000 * distance / share) }
{
    if distance / share >= 10 {
        return GREATEST_BALANCE as u32;
    }
    (10_000 * distance / share).min(GREATEST_BALANCE) as u32
}

/// The balance of a device of the ring that has so many seats.
fn device_balance(ring: &Ring, total: u64, device: &Device, seats: u32) -> u32
    requires total { total ≡ total_weight ring.now.devices }
    requires light { total ≤ 2 ^ 35 }
    requires seats { seats ≡ have ring.now device.now.id }
    requires few { seats ≤ most_seats }
    ensures { result ≡ device_balance ring.now device.now }
{
    if is_open(device) {
        let weight = u64::from(device.row.weight.hundredths());
        let share = seat_count(ring) * weight;
        balance_from(distance(u64::from(seats) * total, share), share)
    } else if seats > 0 {
        GREATEST_BALANCE as u32
    } else {
        0
    }
}

/// How far the seats of a device are from its share, in hundredths of a percent of that share, at
/// most 99999. For a device that isn't open, 99999 if it has a seat, and else 0. `None` exactly
/// where the ring has no such device.
pub fn balance_of(ring: &Ring, device: DeviceId) -> Option<u32>
    ensures { result ≡ option_map (device_balance ring.now) (device_by_id device ring.now.devices) }
{
    if !ring.has_device(device) {
        return None;
    }
    let found = device_of(ring.devices(), device);
    Some(balance_with(ring, found, have(ring, device)))
}

/// The balance of a device that has so many of a ring's seats, as `balance_of` tells it.
pub fn balance_with(ring: &Ring, device: &Device, seats: u32) -> u32
    requires { seats ≡ have ring.now device.now.id }
    ensures { result ≡ device_balance ring.now device.now }
{
    let total = total_weight(ring.devices());
    device_balance(ring, total, device, seats)
}

/// How many seats the device at each place has. Behind the last device it is left open what stands.
pub fn counts_of(ring: &Ring) -> [u32; MOST_DEVICES]
    ensures { (place : ℕ) (device : DeviceModel) → slice_get ring.now.devices place ≡ Some device →
        slice_index result place ≡ have ring.now device.id }
{
    let devices = ring.devices();
    let seats = ring.seats();
    let mut counts: [u32; MOST_DEVICES] = zero_counts();
    for seat in seats {
        counts[place_in(devices, *seat)] += 1;
    }
    counts
}

fn zero_counts<const N: usize>() -> [u32; N]
    ensures { (k : ℕ) → slice_index result k ≡ 0 }
{
    [0; N]
}

/// The greatest balance of a device, and 0 without devices.
pub fn balance(ring: &Ring) -> u32
    ensures { result ≡ ring_balance ring.now }
{
    let devices = ring.devices();
    let total = total_weight(devices);
    let counts = counts_of(ring);
    let mut greatest = 0;
    for (place, device) in devices.iter().enumerate() {
        let next = device_balance(ring, total, device, counts[place]);
        greatest = greater(greatest, next);
    }
    greatest
}

/// The seats of a partition of an assigned ring by replica.
fn row_in(ring: &Ring, partition: usize) -> &[DeviceId]
    requires assigned { is_assigned ring.now ≡ true }
    requires partition { partition < partitions_of ring.now }
    ensures row { map Some result.now ≡ row_of ring.now partition }
    ensures known { All (λ id. has_device id ring.now.devices ≡ true) result.now }
    ensures few { length result.now ≤ most_replicas }
{
    let replicas = usize::from(ring.replicas().get());
    let first = partition * replicas;
    &ring.seats()[first..first + replicas]
}

/// Whether the seats of each partition of an assigned ring stand apart, so that none has such a
/// seat. `regions` has the place of a device in each region that has an open one.
fn all_stand_apart(
    ring: &Ring,
    regions: &[usize],
    in_region: &[u8; MOST_DEVICES],
    in_zone: &[u8; MOST_DEVICES],
) -> bool
    requires assigned { is_assigned ring.now ≡ true }
    requires regions { AreTier Region ring.now.devices regions.now }
    requires in_region { AreCodes Region ring.now.devices in_region.now }
    requires in_zone { AreCodes Zone ring.now.devices in_zone.now }
    ensures { result ≡ true → count_by (has_crowded ring.now.devices) (rows_of ring.now) ≡ 0 }
{
    for partition in 0..partition_count(ring.power()) {
        let row = row_in(ring, partition);
        if !stand_apart(ring.devices(), regions, in_region, in_zone, row) {
            return false;
        }
    }
    true
}

/// How many partitions of an assigned ring have such a seat.
fn crowded_count(ring: &Ring) -> u32
    requires { is_assigned ring.now ≡ true }
    ensures value { result ≡ count_by (has_crowded ring.now.devices) (rows_of ring.now) }
    ensures small { result ≤ partitions_of ring.now }
{
    let devices = ring.devices();
    let (regions, count) = one_each(devices, Tier::Region);
    let regions = &regions[..count];
    let in_region = tier_codes(devices, Tier::Region);
    let in_zone = tier_codes(devices, Tier::Zone);
    if all_stand_apart(ring, regions, &in_region, &in_zone) {
        return 0;
    }
    let codes = ByTier {
        region: in_region,
        zone: in_zone,
        server: tier_codes(devices, Tier::Server),
    };
    let (zones, count) = one_each(devices, Tier::Zone);
    let zones = &zones[..count];
    let mut crowded = 0;
    for partition in 0..partition_count(ring.power()) {
        let row = row_in(ring, partition);
        if has_crowded(devices, regions, zones, &codes, row) {
            crowded += 1;
        }
    }
    crowded
}

/// Which part of the partitions, in hundredths of a percent, has a seat for which an open device
/// outside the partition, with room or without, is less crowded than the seat's own. 0 where the
/// seats are empty.
pub fn dispersion(ring: &Ring) -> u32
    ensures { result ≡ ring_dispersion ring.now }
{
    if !ring.is_assigned() {
        return 0;
    }
    10_000 * crowded_count(ring) / partition_count(ring.power()) as u32
}
