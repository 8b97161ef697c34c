//! Seats that devices want.
ghost use Rattle.std.specs.Prelude.{◌≡◌, ◌<◌, ◌≤◌, ◌+◌, ◌*◌, ◌^◌, ℕ, true, false, length, map};
ghost use Rattle.ring_words.specs.Limits.{most_devices, most_seats};
ghost use Rattle.std.specs.Prelude.{replicate, sum, slice_get, slice_index, IfOk, IfSome, IfNone};
ghost use Rattle.std.specs.Prelude.{Some, if◌then◌else◌};
ghost use Rattle.std.specs.List.{list_any};
ghost use Rattle.ring_model.specs.Valid.{IsValid};
ghost use Rattle.ring_words.specs.declared.device.Device.{Device as DeviceModel};
ghost use Rattle.ring_share.specs.Inner.Turns.{is_waiting, IsFirstWaiting};
ghost use Rattle.ring_share.specs.Want.{is_open, open_weight, total_weight, seat_count};
ghost use Rattle.ring_share.specs.Want.{whole_share, share_rest, IsBefore, AreShares, AreWanted};

use ring_model::Ring;
use ring_words::{Device, partition_count};
use std::alloc::{AllocError, Global};

/// Whether seats may go to a device: it isn't marked to be removed, and it weighs something.
pub fn is_open(device: &Device) -> bool
    ensures { result ≡ is_open device.now }
{
    !device.removed && device.row.weight.hundredths() > 0
}

/// The weight of an open device, in hundredths. Any other counts for nothing.
fn open_weight(device: &Device) -> u64
    ensures value { result ≡ open_weight device.now }
    ensures small { result < 2 ^ 27 }
{
    if is_open(device) {
        u64::from(device.row.weight.hundredths())
    } else {
        0
    }
}

/// What the open devices weigh together, in hundredths.
pub(crate) fn total_weight(devices: &[Device]) -> u64
    requires { length devices.now ≤ most_devices }
    ensures value { result ≡ total_weight devices.now }
    ensures small { result ≤ 2 ^ 35 }
{
    let mut total = 0;
    for device in devices {
        total += open_weight(device);
    }
    total
}

/// How many seats a ring has, one for each replica of each partition.
pub(crate) fn seat_count(ring: &Ring) -> u64
    ensures value { result ≡ seat_count ring.now }
    ensures some { 0 < result }
    ensures small { result ≤ most_seats }
{
    partition_count(ring.power()) as u64 * u64::from(ring.replicas().get())
}

/// The whole seats of a device's share.
fn whole_share(ring: &Ring, total: u64, device: &Device) -> u64
    requires total { total ≡ total_weight ring.now.devices }
    requires some { 0 < total }
    ensures value { result ≡ whole_share ring.now device.now }
    ensures small { device.now.row.weight ≤ total → result ≤ most_seats }
{
    seat_count(ring) * u64::from(device.row.weight.hundredths()) / total
}

/// What a device's share is beyond whole seats.
fn share_rest(ring: &Ring, total: u64, device: &Device) -> u64
    requires total { total ≡ total_weight ring.now.devices }
    requires some { 0 < total }
    ensures { result ≡ share_rest ring.now device.now }
{
    seat_count(ring) * u64::from(device.row.weight.hundredths()) % total
}

/// The whole seats of an open device's share. Any other device has none.
fn open_share(ring: &Ring, total: u64, device: &Device) -> u32
    requires total { total ≡ total_weight ring.now.devices }
    requires some { 0 < total }
    requires light { open_weight device.now ≤ total }
    ensures { result ≡ (if is_open device.now then whole_share ring.now device.now else 0) }
{
    if is_open(device) {
        whole_share(ring, total, device) as u32
    } else {
        0
    }
}

/// How many seats each device of a ring wants, in the order of the devices.
///
/// An open device wants its share of all seats by weight, in whole seats. The seats that are left
/// over go, one each, to the devices whose shares have most beyond whole seats, those of lower
/// numbers first. Any other device wants none.
pub fn wanted(alloc: Global, ring: &Ring) -> Result<Vec<u32>, AllocError>
    ensures { IfOk result (λ wanted. AreWanted ring.now wanted.items) }
{
    let total = total_weight(ring.devices());
    if total == 0 {
        return no_shares(alloc, ring.devices().len());
    }
    let mut wanted = whole_shares(alloc, ring, total)?;
    let left = seat_count(ring) - sum_of(&wanted);
    for _given in 0..left {
        give_one(ring, total, &mut wanted);
    }
    Ok(wanted)
}

/// No seat for any of so many devices.
fn no_shares(alloc: Global, count: usize) -> Result<Vec<u32>, AllocError>
    ensures { IfOk result (λ shares. shares.items ≡ replicate count 0) }
{
    vec![in alloc; 0; count]
}

/// The whole seats of each device's share.
fn whole_shares(alloc: Global, ring: &Ring, total: u64) -> Result<Vec<u32>, AllocError>
    requires total { total ≡ total_weight ring.now.devices }
    requires some { 0 < total }
    ensures { IfOk result (λ shares. shares.items ≡ map (λ device. if is_open device then
        whole_share ring.now device else 0) ring.now.devices) }
{
    let devices = ring.devices();
    let mut shares = Vec::new(alloc);
    for device in devices {
        shares.push(open_share(ring, total, device))?;
    }
    Ok(shares)
}

fn sum_of(shares: &[u32]) -> u64
    requires { length shares.now ≤ most_devices }
    ensures { result ≡ sum shares.now }
{
    let mut sum = 0;
    for share in shares {
        sum += u64::from(*share);
    }
    sum
}

/// Gives one more seat to the device that comes first of those that have none more than their whole
/// seats.
fn give_one(ring: &Ring, total: u64, shares: &mut [u32])
    requires total { total ≡ total_weight ring.now.devices }
    requires some { 0 < total }
    requires shares { AreShares ring.now shares.old }
    requires left { sum shares.old < seat_count ring.now }
    requires fits { seat_count ring.now ≤ most_seats }
    ensures shares { AreShares ring.now shares.new }
    ensures more { sum shares.new ≡ sum shares.old + 1 }
{
    if let Some(place) = first_waiting(ring, total, shares) {
        shares[place] += 1;
    } else {
        prove!(false);
    }
}

/// Whether the device at a place is open, and has no more than its whole seats.
fn is_waiting(ring: &Ring, total: u64, shares: &[u32], place: usize) -> bool
    requires total { total ≡ total_weight ring.now.devices }
    requires some { 0 < total }
    requires count { length shares.now ≡ length ring.now.devices }
    requires place { place < length shares.now }
    ensures { result ≡ is_waiting ring.now shares.now place }
{
    let device = &ring.devices()[place];
    is_open(device) && u64::from(shares[place]) == whole_share(ring, total, device)
}

/// The place of the device that comes first of those that wait for one more seat.
fn first_waiting(ring: &Ring, total: u64, shares: &[u32]) -> Option<usize>
    requires total { total ≡ total_weight ring.now.devices }
    requires some { 0 < total }
    requires count { length shares.now ≡ length ring.now.devices }
    ensures { IsFirstWaiting ring.now shares.now (length shares.now) result }
{
    let mut first = None;
    for place in 0..shares.len() {
        first = first_with(ring, total, shares, first, place);
    }
    first
}

/// The first of those that wait up to a place, from the first of those before it.
fn first_with(
    ring: &Ring,
    total: u64,
    shares: &[u32],
    first: Option<usize>,
    place: usize,
) -> Option<usize>
    requires total { total ≡ total_weight ring.now.devices }
    requires some { 0 < total }
    requires count { length shares.now ≡ length ring.now.devices }
    requires place { place < length shares.now }
    requires first { IsFirstWaiting ring.now shares.now place first }
    ensures { IsFirstWaiting ring.now shares.now (place + 1) result }
{
    if !is_waiting(ring, total, shares, place) {
        return first;
    }
    let Some(earlier) = first else {
        return Some(place);
    };
    let devices = ring.devices();
    if share_rest(ring, total, &devices[earlier]) < share_rest(ring, total, &devices[place]) {
        Some(place)
    } else {
        first
    }
}
