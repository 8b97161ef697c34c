//! How many seats devices want and have, and where there is room for more.
ghost use Rattle.std.specs.Prelude.{◌≡◌, ◌<◌, ◌≤◌, ◌-◌, ◌&&◌, ◌==◌, ℕ, true, false, All, List, length, nat_lt};
ghost use Rattle.ring_words.specs.Limits.{most_devices};
ghost use Rattle.std.specs.Prelude.{take, count_by, slice_index, slice_set, IfOk, IfSome, IfNone};
ghost use Rattle.ring_model.specs.Ring.{has_device, has_present};
ghost use Rattle.ring_share.specs.Crowd.{is_outside};
ghost use Rattle.ring_share.specs.Room.{has_open, have, place_of as place_of_device};
ghost use Rattle.ring_share.specs.Want.{is_open as is_open_device, AreWanted};
ghost use Rattle.ring_room.specs.Load.{Load, IsLoad, have_in, want_in, has_room_in, load_put};
ghost use Rattle.ring_room.specs.Load.{load_take, is_free_in, crowd_in, IsLeast};
ghost use Rattle.ring_room.specs.Places.{id_at, seats_at};
ghost use Rattle.ring_room.specs.Inner.Lists.{AreRoomy};
ghost use Rattle.ring_room.specs.Cards.{lacks_at};
ghost use Rattle.ring_room.specs.Search.{roomy_places};
ghost use Rattle.ring_share.specs.Tiers.{AreTier};

use ring_model::Ring;
use ring_share::{Tier, counts_of, is_open, one_each, place_in, tier_codes};
use ring_words::{Device, DeviceId, MOST_DEVICES};
use std::alloc::{AllocError, Global};
use std::marker::Model;

/// The devices of a ring, with how many seats each of them wants and has. It keeps a list of those
/// that have room, so that they are found without a look at the others.
#[derive(Drop)]
pub struct Room {
    pub(crate) devices: Vec<Device>,
    pub(crate) wanted: Vec<u32>,
    pub(crate) counts: Vec<u32>,
    /// As many places as there are devices; those that have room, and no others, stand at the
    /// first.
    pub(crate) roomy: Vec<usize>,
    /// How many places of `roomy` are these first.
    pub(crate) count: usize,
    /// The place of one open device in each region, in each zone and on each server that has any.
    pub(crate) regions: Vec<usize>,
    pub(crate) zones: Vec<usize>,
    pub(crate) servers: Vec<usize>,
    /// For the device at each place a number that tells its region, one that tells its zone, and
    /// one that tells its server.
    pub(crate) in_region: [u8; MOST_DEVICES],
    pub(crate) in_zone: [u8; MOST_DEVICES],
    pub(crate) in_server: [u8; MOST_DEVICES],
    /// Whether no device is marked to be removed, and whether each wants a seat.
    pub(crate) all_present: bool,
    pub(crate) all_want: bool,
}

impl Model for Room {
    ghost use Rattle.ring_room.specs.Load.{Load};
    ghost use Rattle.ring_room.specs.Inner.Lists.{IsRoom};

    ghost Value = { Load };

    ghost view = { λ r. record {
      devices = r.devices.items;
      wanted = r.wanted.items;
      counts =
          r.counts.items;
    } };

    ghost invariant = { λ r. IsRoom (record {
      devices = r.devices.items;
      wanted = r.wanted.items;
      counts = r.counts.items;
    })
        r.roomy.items r.count r.regions.items r.zones.items r.servers.items r.in_region
        r.in_zone r.in_server r.all_present r.all_want };
}

/// Whether a device that wants and has so many seats is open and has fewer than it wants.
fn wants_more(device: &Device, wanted: u32, count: u32) -> bool
    ensures { result ≡ (is_open_device device.now && nat_lt count wanted) }
{
    count < wanted && is_open(device)
}

/// Whether the device at a place is open and has fewer seats than it wants.
fn has_room_at(devices: &[Device], wanted: &[u32], counts: &[u32], place: usize) -> bool
    requires load { IsLoad (record {
      devices = devices.now;
      wanted = wanted.now;
      counts =
          counts.now;
    }) }
    requires place { place < length devices.now }
    ensures { result ≡ has_room_in (record {
      devices = devices.now;
      wanted = wanted.now;
      counts =
          counts.now;
    }) (id_at devices.now place) }
{
    wants_more(&devices[place], wanted[place], counts[place])
}

/// Lists the places of the devices that have room, in their order, and answers how many they are.
/// What stands behind them is left over.
#[tactic(auto, using(crate::proofs::Searching::ByName::listed_more, crate::proofs::Searching::ByName::listed_same, crate::proofs::Searching::ByName::none_listed_yet))]
fn list_roomy(devices: &[Device], wanted: &[u32], counts: &[u32], places: &mut [usize]) -> usize
    requires load { IsLoad (record {
      devices = devices.now;
      wanted = wanted.now;
      counts =
          counts.now;
    }) }
    requires long { length places.old ≡ length devices.now }
    ensures long { length places.new ≡ length places.old }
    ensures few { result ≤ length places.new }
    ensures in_order { take result places.new ≡ roomy_places (record {
      devices = devices.now;
      wanted = wanted.now;
      counts =
          counts.now;
    }) }
    ensures roomy { AreRoomy (record {
      devices = devices.now;
      wanted = wanted.now;
      counts =
          counts.now;
    }) (take result places.new) }
{
    let mut count = 0;
    for place in 0..devices.len() {
        if has_room_at(devices, wanted, counts, place) {
            places[count] = place;
            count += 1;
        }
    }
    count
}

/// The place of one open device in each tier of a kind that has any.
fn tier_places(alloc: Global, devices: &[Device], tier: Tier) -> Result<Vec<usize>, AllocError>
    requires { length devices.now ≤ most_devices }
    ensures { IfOk result (λ places. AreTier tier devices.now places.items) }
{
    let (places, count) = one_each(devices, tier);
    Vec::from_slice(alloc, &places[..count])
}

/// Whether no device is marked to be removed.
fn are_present(devices: &[Device]) -> bool
    ensures { result ≡ true → All (λ device. device.removed ≡ false) devices.now }
{
    for device in devices {
        if device.removed {
            return false;
        }
    }
    true
}

/// Whether each device wants a seat.
fn do_want(wanted: &[u32]) -> bool
    ensures { result ≡ true → (place : ℕ) → place < length wanted.now →
        0 < slice_index wanted.now place }
{
    for want in wanted {
        if *want == 0 {
            return false;
        }
    }
    true
}

impl Room {
    /// The devices of a ring with the seats that they have. The wants are those of
    /// `ring_share::wanted`.
    pub fn of(alloc: Global, ring: &Ring, wanted: &[u32]) -> Result<Room, AllocError>
        requires wanted { AreWanted ring.now wanted.now }
        ensures devices { IfOk result (λ room. room.devices ≡ ring.now.devices) }
        ensures wants { IfOk result (λ room. room.wanted ≡ wanted.now) }
        ensures counts { IfOk result (λ room. (id : ℕ) → has_device id ring.now.devices ≡ true →
            have_in room id ≡ have ring.now id) }
        ensures load { IfOk result (λ room. IsLoad room) }
    {
        let devices = ring.devices();
        let counts = counts_of(ring);
        let counts = &counts[..devices.len()];
        let mut roomy = vec![in alloc; 0; devices.len()]?;
        let count = list_roomy(devices, wanted, counts, &mut roomy);
        Ok(Room {
            devices: devices.to_vec(alloc)?,
            wanted: Vec::from_slice(alloc, wanted)?,
            counts: Vec::from_slice(alloc, counts)?,
            roomy,
            count,
            regions: tier_places(alloc, devices, Tier::Region)?,
            zones: tier_places(alloc, devices, Tier::Zone)?,
            servers: tier_places(alloc, devices, Tier::Server)?,
            in_region: tier_codes(devices, Tier::Region),
            in_zone: tier_codes(devices, Tier::Zone),
            in_server: tier_codes(devices, Tier::Server),
            all_present: are_present(devices),
            all_want: do_want(wanted),
        })
    }

    /// The same devices with the same seats.
    pub fn copy(&self, alloc: Global) -> Result<Room, AllocError>
        ensures { IfOk result (λ room. room ≡ self.now) }
    {
        Ok(Room {
            devices: self.devices.to_vec(alloc)?,
            wanted: Vec::from_slice(alloc, &self.wanted)?,
            counts: Vec::from_slice(alloc, &self.counts)?,
            roomy: Vec::from_slice(alloc, &self.roomy)?,
            count: self.count,
            regions: Vec::from_slice(alloc, &self.regions)?,
            zones: Vec::from_slice(alloc, &self.zones)?,
            servers: Vec::from_slice(alloc, &self.servers)?,
            in_region: self.in_region,
            in_zone: self.in_zone,
            in_server: self.in_server,
            all_present: self.all_present,
            all_want: self.all_want,
        })
    }

    /// The place of a device of the ring among its devices.
    pub fn place_of(&self, id: DeviceId) -> usize
        requires { has_device id self.now.devices ≡ true }
        ensures value { result ≡ place_of_device id self.now.devices }
        ensures number { id_at self.now.devices result ≡ id }
        ensures within { result < length self.now.devices }
        ensures load { IsLoad self.now }
    {
        place_in(&self.devices, id)
    }

    /// A device of the ring has one seat more. The count 4294967295 stays.
    pub fn put(&mut self, device: DeviceId)
        requires { has_device device self.old.devices ≡ true }
        ensures put { self.new ≡ load_put self.old device }
        ensures load { IsLoad self.new }
    {
        self.put_at(self.place_of(device));
    }

    /// The device at a place has one seat more. The count 4294967295 stays.
    pub fn put_at(&mut self, place: usize)
        requires { place < length self.old.devices }
        ensures put { self.new ≡ load_put self.old (id_at self.old.devices place) }
        ensures load { IsLoad self.new }
    {
        let count = self.counts[place];
        let more = if count < u32::MAX { count + 1 } else { count };
        self.set_count(place, more);
    }

    /// A device of the ring has one seat less. The count 0 stays.
    pub fn take(&mut self, device: DeviceId)
        requires { has_device device self.old.devices ≡ true }
        ensures { self.new ≡ load_take self.old device }
    {
        let place = self.place_of(device);
        let count = self.counts[place];
        self.set_count(place, count.saturating_sub(1));
    }

    /// The device at a place has so many seats.
    fn set_count(&mut self, place: usize, count: u32)
        requires { place < length self.old.devices }
        ensures count { self.new ≡ record self.old {
          counts = slice_set self.old.counts place count;
        } }
        ensures load { IsLoad self.new }
    {
        let want = self.wanted[place];
        let wanted_more = self.counts[place] < want;
        self.counts[place] = count;
        if (count < want) != wanted_more {
            self.count = list_roomy(&self.devices, &self.wanted, &self.counts, &mut self.roomy);
        }
    }

    /// Whether a device of the ring is open and has fewer seats than it wants.
    pub fn has_room(&self, device: DeviceId) -> bool
        requires { has_device device self.now.devices ≡ true }
        ensures { result ≡ has_room_in self.now device }
    {
        self.has_room_at(self.place_of(device))
    }

    /// Whether the device at a place is open and has fewer seats than it wants.
    pub fn has_room_at(&self, place: usize) -> bool
        requires { place < length self.now.devices }
        ensures value { result ≡ has_room_in self.now (id_at self.now.devices place) }
        ensures load { IsLoad self.now }
    {
        has_room_at(&self.devices, &self.wanted, &self.counts, place)
    }

    /// The number of the device at a place.
    pub fn id_of(&self, place: usize) -> DeviceId
        requires { place < length self.now.devices }
        ensures number { result ≡ id_at self.now.devices place }
        ensures known { has_device result self.now.devices ≡ true }
    {
        self.devices[place].id
    }

    /// Whether a device of the ring isn't marked to be removed.
    pub fn is_present(&self, device: DeviceId) -> bool
        requires { has_device device self.now.devices ≡ true }
        ensures { result ≡ has_present device self.now.devices }
    {
        // mostly none is marked
        if self.all_present {
            return true;
        }
        !self.devices[self.place_of(device)].removed
    }

    /// How many seats a device of the ring wants.
    pub fn wants(&self, device: DeviceId) -> u32
        requires { has_device device self.now.devices ≡ true }
        ensures { result ≡ want_in self.now device }
    {
        self.wanted[self.place_of(device)]
    }

    /// Whether a device of the ring wants nothing.
    pub fn wants_nothing(&self, device: DeviceId) -> bool
        requires { has_device device self.now.devices ≡ true }
        ensures { result ≡ (want_in self.now device == 0) }
    {
        // mostly each wants a seat
        if self.all_want {
            return false;
        }
        self.wants(device) == 0
    }

    /// Whether a device of the ring keeps more seats than it wants.
    pub fn is_over(&self, device: DeviceId) -> bool
        requires { has_device device self.now.devices ≡ true }
        ensures { result ≡ nat_lt (want_in self.now device) (have_in self.now device) }
    {
        let place = self.place_of(device);
        self.wanted[place] < self.counts[place]
    }

    /// How many more seats a device of the ring keeps than it wants, 0 where it keeps no more.
    pub fn above(&self, device: DeviceId) -> u32
        requires { has_device device self.now.devices ≡ true }
        ensures { result ≡ have_in self.now device - want_in self.now device }
    {
        let place = self.place_of(device);
        self.counts[place].saturating_sub(self.wanted[place])
    }

    /// How many devices there are.
    pub fn count(&self) -> usize
        ensures count { result ≡ length self.now.devices }
        ensures few { result ≤ most_devices }
    {
        self.devices.len()
    }

    /// How many more seats the device at a place wants than it has, 0 where it wants no more.
    pub fn lacks_at(&self, place: usize) -> u32
        requires { place < length self.now.devices }
        ensures { result ≡ lacks_at self.now place }
    {
        self.wanted[place].saturating_sub(self.counts[place])
    }
}
