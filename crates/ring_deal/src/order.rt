//! In which order the cards of devices are laid in a row.
ghost use Rattle.std.specs.Prelude.{ℕ, ◌≡◌, ◌<◌, ◌≤◌, ◌^◌, ◌%◌, All, IfOk, List, length, map, slice_index};
ghost use Rattle.std.specs.List.{range_with_len};
ghost use Rattle.ring_words.specs.Limits.{most_devices};
ghost use Rattle.ring_deal.specs.Order.{behind, order_key, tier_order};
ghost use Rattle.ring_share.specs.Codes.{AreCodes};
ghost use Rattle.ring_share.specs.declared.tiers.Tier.TheVariants.{Region, Zone, Server};

use ring_share::{Tier, tier_codes};
use ring_words::{Device, MOST_DEVICES};
use std::alloc::{AllocError, Global};

/// For the device at each place the place of the first device in its region, in its zone and on its
/// server.
#[derive(Drop)]
pub(crate) struct Tiers {
    pub(crate) regions: [u8; MOST_DEVICES],
    pub(crate) zones: [u8; MOST_DEVICES],
    pub(crate) servers: [u8; MOST_DEVICES],
}

impl Tiers {
    /// Those of some devices.
    pub(crate) fn of(devices: &[Device]) -> Tiers
        requires { length devices.now ≤ most_devices }
        ensures regions { AreCodes Region devices.now result.regions }
        ensures zones { AreCodes Zone devices.now result.zones }
        ensures servers { AreCodes Server devices.now result.servers }
    {
        Tiers {
            regions: tier_codes(devices, Tier::Region),
            zones: tier_codes(devices, Tier::Zone),
            servers: tier_codes(devices, Tier::Server),
        }
    }
}

/// Two numbers as one, of which the second is below the count of devices that there may be.
fn behind(high: u64, low: usize) -> u64
    requires high { high < 2 ^ 48 }
    requires low { low < most_devices }
    ensures { result ≡ behind high low }
{
    high * MOST_DEVICES as u64 + low as u64
}

/// The rank of a tier of the device at a place: that of the tier's first device.
fn tier_rank(codes: &[u8; MOST_DEVICES], ranks: &[usize], place: usize) -> usize
    requires place { place < most_devices }
    requires first { slice_index codes.now place < length ranks.now }
    requires small { All (λ rank. rank < most_devices) ranks.now }
    ensures by_code { result ≡ slice_index ranks.now (slice_index codes.now place) }
    ensures small { result < most_devices }
{
    ranks[usize::from(codes[place])]
}

/// By what the device at a place is ordered: the rank of its region, then that of its zone, then
/// that of its server, then its own; its place comes last.
fn order_key(tiers: &Tiers, ranks: &[usize], place: usize) -> u64
    requires few { length ranks.now ≤ most_devices }
    requires place { place < length ranks.now }
    requires region { slice_index tiers.now.regions place < length ranks.now }
    requires zone { slice_index tiers.now.zones place < length ranks.now }
    requires server { slice_index tiers.now.servers place < length ranks.now }
    requires small { All (λ rank. rank < most_devices) ranks.now }
    ensures by_codes { let rank = λ (codes : List ℕ). slice_index ranks.now (slice_index codes place) in
        result ≡ behind (behind (behind (behind (rank tiers.now.regions) (rank tiers.now.zones))
        (rank tiers.now.servers)) (slice_index ranks.now place)) place }
{
    let region = tier_rank(&tiers.regions, ranks, place);
    let zone = tier_rank(&tiers.zones, ranks, place);
    let server = tier_rank(&tiers.servers, ranks, place);
    let tier_ranks = behind(behind(region as u64, zone), server);
    behind(behind(tier_ranks, ranks[place]), place)
}

/// By what the devices are ordered, by place.
fn order_keys(
    alloc: Global,
    devices: &[Device],
    tiers: &Tiers,
    ranks: &[usize],
) -> Result<Vec<u64>, AllocError>
    requires few { length devices.now ≤ most_devices }
    requires regions { AreCodes Region devices.now tiers.now.regions }
    requires zones { AreCodes Zone devices.now tiers.now.zones }
    requires servers { AreCodes Server devices.now tiers.now.servers }
    requires ranks { length ranks.now ≡ length devices.now }
    requires small { All (λ rank. rank < most_devices) ranks.now }
    ensures { IfOk result (λ keys. keys.items ≡ map (order_key devices.now ranks.now)
        (range_with_len 0 (length devices.now))) }
{
    let mut keys = Vec::new(alloc);
    for place in 0..devices.len() {
        keys.push(order_key(tiers, ranks, place))?;
    }
    Ok(keys)
}

/// The places that come last in such keys.
fn last_places(alloc: Global, keys: &[u64]) -> Result<Vec<usize>, AllocError>
    ensures { IfOk result (λ places. places.items ≡ map (λ key. key % most_devices) keys.now) }
{
    let mut places = Vec::new(alloc);
    for key in keys {
        places.push((*key % MOST_DEVICES as u64) as usize)?;
    }
    Ok(places)
}

/// The places of devices, region by region, in these zone by zone, in these server by server, each
/// in the order of the ranks of their first devices. An error where memory is refused.
pub(crate) fn tier_order(
    alloc: Global,
    devices: &[Device],
    tiers: &Tiers,
    ranks: &[usize],
) -> Result<Vec<usize>, AllocError>
    requires few { length devices.now ≤ most_devices }
    requires regions { AreCodes Region devices.now tiers.now.regions }
    requires zones { AreCodes Zone devices.now tiers.now.zones }
    requires servers { AreCodes Server devices.now tiers.now.servers }
    requires ranks { length ranks.now ≡ length devices.now }
    requires small { All (λ rank. rank < most_devices) ranks.now }
    ensures by_name { IfOk result (λ order. order.items ≡ tier_order devices.now ranks.now) }
{
    let mut keys = order_keys(alloc, devices, tiers, ranks)?;
    keys.sort_unstable();
    last_places(alloc, keys.as_slice())
}
