//! Seats of partitions while some of them are empty.
ghost use Rattle.std.specs.Prelude.{◌≡◌, ◌<◌, ◌≤◌, ◌*◌, ℕ, length, slice_get, slice_set, take, IfOk};
ghost use Rattle.ring_words.specs.Limits.{most_replicas};
ghost use Rattle.std.specs.Prelude.{slice_index_or, count_by, IfNone, IfSome, None, Some};
ghost use Rattle.std.specs.List.{flat_map, list_any};
ghost use Rattle.ring_model.specs.Ring.{partition_count};
ghost use Rattle.ring_model.specs.Valid.{IsValid};
ghost use Rattle.ring_share.specs.Crowd.{rows_of};
ghost use Rattle.ring_place.specs.Made.{first_empty, most_empty};
ghost use Rattle.ring_place.specs.Made.{row_at};
ghost use Rattle.ring_room.specs.Rows.{devices_on, is_empty};

use ring_model::Ring;
use ring_words::{DeviceId, MOST_REPLICAS, partition_count};
use std::alloc::{AllocError, Global};
use std::marker::Model;

/// The seats of a partition, at most five, apart from all others, and how many they are.
pub(crate) fn row_copy(row: &[Option<DeviceId>]) -> ([Option<DeviceId>; MOST_REPLICAS], usize)
    requires { length row.now ≤ most_replicas }
    ensures row { take result.1 result.0 ≡ row.now }
    ensures few { result.1 ≤ most_replicas }
{
    let mut copy = [None; MOST_REPLICAS];
    copy[..row.len()].copy_from_slice(row);
    (copy, row.len())
}

/// Whether a partition has an empty seat.
pub(crate) fn has_empty(row: &[Option<DeviceId>]) -> bool
    ensures { result ≡ list_any is_empty row.now }
{
    for seat in row {
        if seat.is_none() {
            return true;
        }
    }
    false
}

/// The first empty seat of a partition by replica, if it has any.
pub(crate) fn first_empty(row: &[Option<DeviceId>]) -> Option<usize>
    ensures by_name { result ≡ first_empty row.now }
    ensures empty { IfSome result (λ replica. slice_get row.now replica ≡ Some None) }
    ensures full { IfNone result (count_by is_empty row.now ≡ 0) }
{
    for (replica, seat) in row.iter().enumerate() {
        if seat.is_none() {
            return Some(replica);
        }
    }
    None
}

/// How many seats of a partition are empty.
fn count_empty(row: &[Option<DeviceId>]) -> usize
    ensures { result ≡ count_by is_empty row.now }
{
    row.iter().filter(|seat| seat.is_none()).count()
}

/// Which device is on each seat of each partition, or none. Contracts see a row for each partition,
/// by replica.
#[derive(Drop)]
pub(crate) struct Seats {
    // by partition and then by replica
    pub(crate) seats: Vec<Option<DeviceId>>,
    partitions: usize,
    replicas: usize,
}

impl Model for Seats {
    ghost use Rattle.std.specs.Prelude.{ℕ, List, Option};
    ghost use Rattle.ring_place.specs.Inner.Rows.{rows_in};
    ghost use Rattle.ring_place.specs.Inner.SeatRows.{AreSeatRows};

    ghost Value = { List (List (Option ℕ)) };

    ghost view = { λ s. rows_in s.seats.items s.partitions s.replicas };

    ghost invariant = { λ s. AreSeatRows s.seats.items s.partitions s.replicas };
}

/// So many seats: these devices are on the first of them, and the others are empty.
fn seats_with(
    alloc: Global,
    devices: &[DeviceId],
    count: usize,
) -> Result<Vec<Option<DeviceId>>, AllocError>
    requires { length devices.now ≤ count }
    ensures long { IfOk result (λ seats. length seats.items ≡ count) }
    ensures seats { IfOk result (λ seats. (place : ℕ) →
        slice_index_or seats.items place None ≡ slice_get devices.now place) }
{
    let mut seats = vec![in alloc; None; count]?;
    for (place, device) in devices.iter().enumerate() {
        seats[place] = Some(*device);
    }
    Ok(seats)
}

impl Seats {
    /// The seats of a ring.
    pub(crate) fn of(alloc: Global, ring: &Ring) -> Result<Seats, AllocError>
        ensures rows { IfOk result (λ seats. seats ≡ rows_of ring.now) }
        ensures valid { IsValid ring.now }
    {
        Seats::with(alloc, ring, ring.seats())
    }

    /// The seats of a ring if these devices are on them, by partition and then by replica.
    pub(crate) fn with(
        alloc: Global,
        ring: &Ring,
        devices: &[DeviceId],
    ) -> Result<Seats, AllocError>
        requires few { length devices.now ≤ partition_count ring.now * ring.now.replicas }
        ensures rows { IfOk result (λ seats. seats ≡ rows_of (record ring.now {
          seats = devices.now;
        })) }
    {
        let partitions = partition_count(ring.power());
        let replicas = usize::from(ring.replicas().get());
        let seats = seats_with(alloc, devices, partitions * replicas)?;
        Ok(Seats {
            seats,
            partitions,
            replicas,
        })
    }

    /// The same seats.
    pub(crate) fn copy(&self, alloc: Global) -> Result<Seats, AllocError>
        ensures { IfOk result (λ seats. seats ≡ self.now) }
    {
        Ok(Seats {
            seats: Vec::from_slice(alloc, self.seats.as_slice())?,
            partitions: self.partitions,
            replicas: self.replicas,
        })
    }

    /// How many partitions there are.
    pub(crate) fn count(&self) -> usize
        ensures { result ≡ length self.now }
    {
        self.partitions
    }

    /// The seats of a partition by replica.
    pub(crate) fn row(&self, partition: usize) -> &[Option<DeviceId>]
        requires { partition < length self.now }
        ensures { result.now ≡ row_at self.now partition }
    {
        let first = partition * self.replicas;
        &self.seats[first..first + self.replicas]
    }

    /// How many empty seats the partition with the most of them has.
    pub(crate) fn most_empty(&self) -> usize
        ensures most { (partition : ℕ) → partition < length self.now →
            count_by is_empty (row_at self.now partition) ≤ result }
        ensures by_name { result ≡ most_empty self.now }
    {
        let mut most = 0;
        for partition in 0..self.partitions {
            most = count_empty(self.row(partition)).max(most);
        }
        most
    }

    /// A partition gets other seats, as many as it has.
    pub(crate) fn set_row(&mut self, partition: usize, row: &[Option<DeviceId>])
        requires partition { partition < length self.old }
        requires long { length row.now ≡ length (row_at self.old partition) }
        ensures { self.new ≡ slice_set self.old partition row.now }
    {
        let first = partition * self.replicas;
        self.seats[first..first + self.replicas].copy_from_slice(row);
    }

    /// A seat of a partition gets a device.
    pub(crate) fn set_seat(&mut self, partition: usize, replica: usize, device: DeviceId)
        requires partition { partition < length self.old }
        requires replica { replica < length (row_at self.old partition) }
        ensures { self.new ≡ slice_set self.old partition
            (slice_set (row_at self.old partition) replica (Some device)) }
    {
        self.seats[partition * self.replicas + replica] = Some(device);
    }

    /// The devices of the seats, by partition and then by replica.
    pub(crate) fn devices(&self, alloc: Global) -> Result<Vec<DeviceId>, AllocError>
        ensures { IfOk result (λ devices. devices.items ≡ flat_map devices_on self.now) }
    {
        let mut devices = Vec::with_capacity(alloc, self.seats.len())?;
        for seat in &self.seats {
            if let Some(device) = *seat {
                devices.push(device)?;
            }
        }
        Ok(devices)
    }
}
