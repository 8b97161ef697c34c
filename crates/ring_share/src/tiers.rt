//! The tiers in which devices stand: regions, zones in these, and servers in zones.
ghost use Rattle.std.specs.Prelude.{◌≡◌, ◌<◌, ◌≤◌, All, Some, length, slice_get, take};
ghost use Rattle.ring_words.specs.Limits.{most_devices};
ghost use Rattle.std.specs.List.{list_any};
ghost use Rattle.ring_share.specs.Crowd.{pass_both};
ghost use Rattle.ring_share.specs.Tiers.{AreTier, shares};

use crate::crowds::{in_region, in_zone, on_server};
use crate::wants::is_open;
use ring_words::{Device, MOST_DEVICES};

/// A kind of tier, from the widest.
#[derive(Clone, Copy)]
pub enum Tier {
    /// Devices of one region.
    Region,
    /// Devices of one zone of one region.
    Zone,
    /// Devices at one address in one zone.
    Server,
}

/// Whether two devices share a tier of a kind.
pub(crate) fn shares(tier: Tier, one: &Device, other: &Device) -> bool
    ensures { result ≡ shares tier one.now other.now }
{
    match tier {
        Tier::Region => in_region(one, other),
        Tier::Zone => in_zone(one, other),
        Tier::Server => on_server(one, other),
    }
}

/// Whether a device at one of these places shares a tier of a kind with another device.
fn has_shared(devices: &[Device], places: &[usize], tier: Tier, device: &Device) -> bool
    requires { All (λ place. place < length devices.now) places.now }
    ensures { result ≡ list_any (λ place. pass_both (shares tier) (slice_get devices.now place)
        (Some device.now)) places.now }
{
    for place in places {
        if shares(tier, &devices[*place], device) {
            return true;
        }
    }
    false
}

fn no_places<const N: usize>() -> [usize; N]
    ensures { length result ≡ N }
{
    [0; N]
}

/// The place of one open device in each tier of a kind that has any, and how many they are. What
/// stands behind them is left over.
pub fn one_each(devices: &[Device], tier: Tier) -> ([usize; MOST_DEVICES], usize)
    requires { length devices.now ≤ most_devices }
    ensures tier { AreTier tier devices.now (take result.1 result.0) }
    ensures few { result.1 ≤ length devices.now }
{
    let mut places: [usize; MOST_DEVICES] = no_places();
    let mut count = 0;
    for (place, device) in devices.iter().enumerate() {
        if !is_open(device) || has_shared(devices, &places[..count], tier, device) {
            continue;
        }
        places[count] = place;
        count += 1;
    }
    (places, count)
}
