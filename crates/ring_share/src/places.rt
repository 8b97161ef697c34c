//! The places of devices among those of a ring.
ghost use Rattle.std.specs.Prelude.{◌≡◌, ◌<◌, ◌≤◌, ℕ, true, All, length, map, slice_get};
ghost use Rattle.ring_words.specs.Limits.{most_replicas};
ghost use Rattle.std.specs.Prelude.{slice_index, Some};
ghost use Rattle.std.specs.List.Sorted.{IsStrictlyIncreasing};
ghost use Rattle.ring_model.specs.Ring.{has_device};
ghost use Rattle.ring_share.specs.Crowd.{device_by_id};
ghost use Rattle.ring_share.specs.Near.{StandsAt};
ghost use Rattle.ring_share.specs.Room.{has_open};
ghost use Rattle.ring_share.specs.Want.{is_open};
ghost use Rattle.ring_words.specs.declared.device.Device.{Device as DeviceModel};

use ring_words::{Device, DeviceId, MOST_REPLICAS};

/// The places between which the device of a number stands, the second one left out: numbers rise,
/// so no more devices stand before it than there are numbers below its own, and no more behind it
/// than there are numbers from its own up to the last.
fn span_of(devices: &[Device], id: DeviceId) -> (usize, usize)
    requires rise { IsStrictlyIncreasing (map (λ device. device.id) devices.now) }
    requires known { has_device id devices.now ≡ true }
    ensures some { result.0 < result.1 }
    ensures within { result.1 ≤ length devices.now }
    ensures between { (k : ℕ) (device : DeviceModel) → slice_get devices.now k ≡ Some device →
        device.id ≡ id → (result.0 ≤ k) × (k < result.1) }
{
    let end = devices.len() - 1;
    let behind = usize::from(devices[end].id.saturating_sub(id));
    let past = devices.len().min(usize::from(id) + 1);
    (end.saturating_sub(behind), past)
}

/// Whether the device of a number stands at the place of that number, as each does where none was
/// dropped.
fn stands_at_its_number(devices: &[Device], id: DeviceId) -> bool
    ensures { result ≡ true → StandsAt devices.now id id }
{
    match devices.get(usize::from(id)) {
        Some(device) => device.id == id,
        None => false,
    }
}

/// The place of the device of a number among the devices of a ring, which stand by rising number.
pub fn place_in(devices: &[Device], id: DeviceId) -> usize
    requires rise { IsStrictlyIncreasing (map (λ device. device.id) devices.now) }
    requires known { has_device id devices.now ≡ true }
    ensures stands { StandsAt devices.now id result }
    ensures within { result < length devices.now }
{
    if stands_at_its_number(devices, id) {
        return usize::from(id);
    }
    place_by_halving(devices, id)
}

/// The device of a number among the devices of a ring.
pub(crate) fn device_of(devices: &[Device], id: DeviceId) -> &Device
    requires rise { IsStrictlyIncreasing (map (λ device. device.id) devices.now) }
    requires known { has_device id devices.now ≡ true }
    ensures found { device_by_id id devices.now ≡ Some result.now }
    ensures named { result.now.id ≡ id }
    ensures opens { is_open result.now ≡ has_open id devices.now }
{
    &devices[place_in(devices, id)]
}

/// The place of the device of a number, looked for by halving.
#[cold]
fn place_by_halving(devices: &[Device], id: DeviceId) -> usize
    requires rise { IsStrictlyIncreasing (map (λ device. device.id) devices.now) }
    requires known { has_device id devices.now ≡ true }
    ensures stands { StandsAt devices.now id result }
    ensures within { result < length devices.now }
{
    let (mut low, mut high) = span_of(devices, id);
    while high - low > 1 {
        let middle = low + (high - low) / 2;
        if devices[middle].id <= id {
            low = middle;
        } else {
            high = middle;
        }
    }
    low
}

/// The places of the devices of at most five numbers.
pub(crate) fn places_of(devices: &[Device], ids: &[DeviceId]) -> [usize; MOST_REPLICAS]
    requires rise { IsStrictlyIncreasing (map (λ device. device.id) devices.now) }
    requires known { All (λ id. has_device id devices.now ≡ true) ids.now }
    requires few { length ids.now ≤ most_replicas }
    ensures { (replica : ℕ) → replica < length ids.now →
        StandsAt devices.now (slice_index ids.now replica) (slice_index result replica) }
{
    let mut places = [0; MOST_REPLICAS];
    for (replica, id) in ids.iter().enumerate() {
        places[replica] = place_in(devices, *id);
    }
    places
}
