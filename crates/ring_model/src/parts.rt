//! The parts that a ring is made of.
ghost use Rattle.std.specs.Prelude.{◌≡◌, ◌==◌, ◌+◌, ◌*◌, ◌%◌, ◌<◌, ◌≤◌, ◌↔◌, ℕ};
ghost use Rattle.ring_words.specs.Limits.{long_count, most_partitions, most_replicas};
ghost use Rattle.std.specs.Prelude.{slice_index_or};
ghost use Rattle.std.specs.Prelude.{false, IfOk, IsTrue, All, length, map, find, true};
ghost use Rattle.std.specs.List.{list_any};
ghost use Rattle.std.specs.List.Sorted.{IsStrictlyIncreasing};
ghost use Rattle.std.specs.Option.{option_map};
ghost use Rattle.std.specs.Rc.{rc_str_bytes};
ghost use Rattle.ring_model.specs.Ring.{has_device, has_present, risen};
ghost use Rattle.ring_words.specs.Rows.{has_place, same_place};
ghost use Rattle.ring_model.specs.Parts.{record_of, texts_of};
ghost use Rattle.ring_model.specs.Inner.Twice.{IsTwice};
ghost use Rattle.ring_model.specs.Valid.{AreApart, AreDevices, AreDistinct, ArePublished, AreSeats};
ghost use Rattle.ring_model.specs.Valid.{IsValid};

use crate::proper::{devices_are_proper, moves_are_proper, texts_are_proper};
use ring_words::{
    Device, DeviceId, Hour, MOST_DEVICES, MOST_IDS, MOST_VERSIONS, Power, Replicas, Row,
    partition_count,
};
use std::alloc::{AllocError, Global};
use std::rc::RcStr;

/// The parts of a ring, whether they make a valid one or not.
#[derive(Drop)]
pub struct RingParts {
    /// The ring has `2^power` partitions.
    pub power: Power,
    /// How many replicas of each partition it keeps.
    pub replicas: Replicas,
    /// For how many hours a partition that was moved stays where it is.
    pub min_hours: u16,
    /// The number that the next device gets, at most 65536.
    pub next_id: u32,
    /// How often the ring was changed.
    pub version: u32,
    /// The devices by rising number, at most 256.
    pub devices: Vec<Device>,
    /// The devices of the seats, by partition and then by replica. None at all where the seats are
    /// empty.
    pub seats: Vec<DeviceId>,
    /// For each partition the hour at which it was moved last, or `None` for never.
    pub moved: Vec<Option<Hour>>,
    /// Versions and their published texts, by rising version, at most 1000.
    pub published: Vec<(u32, RcStr)>,
}

/// The version after a change: one more, and the greatest, 4294967295, stays.
pub fn risen(version: u32) -> u32
    ensures { result ≡ risen version }
{
    if version == u32::MAX {
        version
    } else {
        version + 1
    }
}

/// Rows of a width, one after another, each twice.
pub(crate) fn doubled<T: Copy>(
    alloc: Global,
    items: &[T],
    rows: usize,
    width: usize,
) -> Result<Vec<T>, AllocError>
    requires width { 0 < width }
    requires whole { length items.now ≡ rows * width }
    requires small { length items.now < long_count }
    ensures count { IfOk result (λ twice. length twice.items ≡ 2 * length items.now) }
    ensures halves { IfOk result (λ twice. IsTwice width items.now twice.items) }
{
    let mut twice = Vec::new(alloc);
    for place in 0..2 * items.len() {
        twice.push(items[place / width / 2 * width + place % width])?;
    }
    Ok(twice)
}

/// The text that is published under a version.
pub(crate) fn text_at(published: &[(u32, RcStr)], version: u32) -> Option<&str>
    ensures { option_map (λ text. text.now) result ≡ option_map (λ e. rc_str_bytes e.1)
        (find (λ e. e.0 == version) published.now) }
{
    let entry = published.iter().find(|entry| entry.0 == version)?;
    Some(entry.1.as_str())
}

/// Whether a device, marked to be removed or not, has this number.
pub(crate) fn has_device(devices: &[Device], id: DeviceId) -> bool
    ensures { result ≡ has_device id devices.now }
{
    devices.iter().any(|device| device.id == id)
}

/// Whether a device that isn't marked to be removed has this number.
pub(crate) fn has_present(devices: &[Device], id: DeviceId) -> bool
    ensures { result ≡ has_present id devices.now }
{
    devices
        .iter()
        .any(|device| device.id == id && !device.removed)
}

fn are_ids_below(devices: &[Device], next_id: u32) -> bool
    ensures { IsTrue result ↔ All (λ device. device.id < next_id) devices.now }
{
    devices.iter().all(|device| u32::from(device.id) < next_id)
}

/// Whether the numbers of devices rise.
fn are_ids_rising(devices: &[Device]) -> bool
    ensures { IsTrue result ↔ IsStrictlyIncreasing (map (λ device. device.id) devices.now) }
{
    devices.is_sorted_by(|one, next| one.id < next.id)
}

/// Whether the versions of published texts rise.
fn are_versions_rising(published: &[(u32, RcStr)]) -> bool
    ensures { IsTrue result ↔ IsStrictlyIncreasing (map (λ entry. entry.0) published.now) }
{
    published.is_sorted_by(|one, next| one.0 < next.0)
}

fn are_apart(devices: &[Device]) -> bool
    ensures { IsTrue result ↔ AreApart devices.now }
{
    for (place, device) in devices.iter().enumerate() {
        if device.row.has_place_in(&devices[..place]) {
            return false;
        }
    }
    true
}

/// No number is marked.
fn no_marks<const N: usize>() -> [bool; N]
    ensures { (id : ℕ) → slice_index_or result id false ≡ false }
{
    [false; N]
}

/// Marks the numbers of devices, in a table of all numbers that there may be.
fn known_ids(devices: &[Device]) -> [bool; MOST_IDS]
    ensures { (id : ℕ) → slice_index_or result id false ≡ has_device id devices.now }
{
    let mut known: [bool; MOST_IDS] = no_marks();
    for device in devices {
        known[usize::from(device.id)] = true;
    }
    known
}

/// Whether a number is marked.
fn is_known(known: &[bool; MOST_IDS], id: DeviceId) -> bool
    ensures { result ≡ slice_index_or known.now id false }
{
    known[usize::from(id)]
}

fn are_known(devices: &[Device], seats: &[DeviceId]) -> bool
    ensures { IsTrue result ↔ All (λ id. has_device id devices.now ≡ true) seats.now }
{
    let known = known_ids(devices);
    seats.iter().all(|seat| is_known(&known, *seat))
}

/// The number after a number below a bound, where 0 comes after the last.
fn next_below(bound: usize, number: usize) -> usize
    requires { number < bound }
    ensures { (place : ℕ) → number ≡ place % bound → result ≡ (place + 1) % bound }
{
    if number + 1 < bound { number + 1 } else { 0 }
}

fn are_distinct(seats: &[DeviceId], replicas: usize) -> bool
    requires { 0 < replicas }
    ensures { IsTrue result ↔ AreDistinct replicas seats.now }
{
    // how many seats of its partition stand before a seat
    let mut before = 0;
    for place in 0..seats.len() {
        if seats[place - before..place].contains(&seats[place]) {
            return false;
        }
        before = next_below(replicas, before);
    }
    true
}

fn are_devices(devices: &[Device], next_id: u32) -> bool
    ensures { IsTrue result ↔ AreDevices next_id devices.now }
{
    devices_are_proper(devices);
    devices.len() <= MOST_DEVICES
        && are_ids_below(devices, next_id)
        && are_ids_rising(devices)
        && are_apart(devices)
}

fn are_published(published: &[(u32, RcStr)]) -> bool
    ensures { IsTrue result ↔ ArePublished (texts_of published.now) }
{
    texts_are_proper(published);
    let is_few = published.len() <= MOST_VERSIONS;
    is_few && are_versions_rising(published)
}

/// Whether these are the seats of so many partitions and replicas.
fn are_seats(devices: &[Device], seats: &[DeviceId], partitions: usize, replicas: usize) -> bool
    requires partitions { partitions ≤ most_partitions }
    requires replicas { (1 ≤ replicas) × (replicas ≤ most_replicas) }
    ensures { IsTrue result ↔ AreSeats partitions replicas devices.now seats.now }
{
    let is_whole = seats.is_empty() || seats.len() == partitions * replicas;
    is_whole && are_distinct(seats, replicas) && are_known(devices, seats)
}

impl RingParts {
    /// Whether the parts are those of a ring.
    pub(crate) fn are_valid(&self) -> bool
        ensures { IsTrue result ↔ IsValid (record_of self.now) }
    {
        let (_hours, _version) = (self.min_hours, self.version);
        moves_are_proper(&self.moved);
        let partitions = partition_count(self.power);
        let replicas = usize::from(self.replicas.get());
        if self.next_id > MOST_IDS as u32 || self.moved.len() != partitions {
            return false;
        }
        if !are_devices(&self.devices, self.next_id) || !are_published(&self.published) {
            return false;
        }
        are_seats(&self.devices, &self.seats, partitions, replicas)
    }

    /// The seats where each partition is twice.
    pub(crate) fn doubled_seats(&self) -> Result<Vec<DeviceId>, AllocError>
        requires { IsValid (record_of self.now) }
        ensures count { IfOk result (λ seats. length seats.items ≡ 2 * length self.now.seats.items) }
        ensures halves { IfOk result (λ seats. IsTwice self.now.replicas self.now.seats.items
            seats.items) }
    {
        let rows = if self.seats.is_empty() {
            0
        } else {
            partition_count(self.power)
        };
        let replicas = usize::from(self.replicas.get());
        doubled(*self.seats.allocator(), &self.seats, rows, replicas)
    }

    /// The hours of moves where each partition is twice.
    pub(crate) fn doubled_moved(&self) -> Result<Vec<Option<Hour>>, AllocError>
        requires { IsValid (record_of self.now) }
        ensures count { IfOk result (λ moved. length moved.items ≡ 2 * length self.now.moved.items) }
        ensures halves { IfOk result (λ moved. IsTwice 1 self.now.moved.items moved.items) }
    {
        doubled(*self.moved.allocator(), &self.moved, self.moved.len(), 1)
    }

    /// The same parts once more.
    pub(crate) fn copy(&self) -> Result<RingParts, AllocError>
        ensures { IfOk result (λ copy. record_of copy ≡ record_of self.now) }
    {
        Ok(RingParts {
            power: self.power,
            replicas: self.replicas,
            min_hours: self.min_hours,
            next_id: self.next_id,
            version: self.version,
            devices: self.devices.clone()?,
            seats: self.seats.clone()?,
            moved: self.moved.clone()?,
            published: self.published.clone()?,
        })
    }
}
