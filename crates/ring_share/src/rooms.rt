//! Seats that devices have, and room for more.
ghost use Rattle.std.specs.Prelude.{◌≡◌, ◌≤◌, ◌==◌, true, count_by};
ghost use Rattle.ring_words.specs.Limits.{most_seats};
ghost use Rattle.ring_model.specs.Ring.{has_device};
ghost use Rattle.ring_share.specs.Want.{AreWanted};
ghost use Rattle.ring_share.specs.Room.{have, has_room};

use crate::places::{device_of, place_in};
use crate::wants::is_open;
use ring_model::Ring;
use ring_words::DeviceId;

/// How many seats are on the device of a number.
pub fn have(ring: &Ring, id: DeviceId) -> u32
    ensures value { result ≡ have ring.now id }
    ensures small { result ≤ most_seats }
{
    count_of(ring.seats(), id) as u32
}

fn count_of(seats: &[DeviceId], id: DeviceId) -> usize
    ensures { result ≡ count_by (λ seat. seat == id) seats.now }
{
    seats.iter().filter(|seat| **seat == id).count()
}

/// Whether a device of the ring is open and has fewer seats than it wants. The wants are those of
/// `wanted`.
pub fn has_room(ring: &Ring, wanted: &[u32], device: DeviceId) -> bool
    requires wanted { AreWanted ring.now wanted.now }
    requires device { has_device device ring.now.devices ≡ true }
    ensures { result ≡ has_room ring.now wanted.now device }
{
    let devices = ring.devices();
    is_open(device_of(devices, device)) && have(ring, device) < wanted[place_in(devices, device)]
}
