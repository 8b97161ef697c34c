//! Rings.
ghost use Rattle.std.specs.Prelude.{◌≡◌, ℕ, ◌<◌, ◌≤◌, ◌^◌, ◌↔◌, Bool, IfOk, IsTrue, IsFalse};
ghost use Rattle.ring_words.specs.Limits.{greatest_power, most_devices, most_ids};
ghost use Rattle.std.specs.Prelude.{length, map, Some, None};
ghost use Rattle.std.specs.Option.{option_map, option_copied};

use crate::altering::{OnDevice, alter_all};
use crate::draft::Draft;
use crate::parts::{RingParts, has_device, has_present, risen, text_at};
use crate::proper::devices_are_proper;
use ring_words::{Device, DeviceAct, DeviceId, Hour, Power, Replicas, Row, partition_count};
use std::alloc::{AllocError, Global};
use std::marker::Model;
use std::rc::RcStr;

/// Why parts aren't made a ring.
#[derive(Clone, Copy, Debug, PartialEq, Eq)]
pub enum BuildFault {
    /// They make no valid ring.
    Invalid,
    /// A growth of memory was refused. `Ring::build` asks for none, and never answers this.
    NoMemory,
}

impl From<AllocError> for BuildFault {
    ghost use Rattle.std.specs.Prelude.{◌≡◌};
    ghost use Rattle.ring_model.specs.declared.ring.BuildFault.TheVariants.{NoMemory};

    ghost from_gives = { λ _ fault. fault ≡ NoMemory };

    fn from(_refused: AllocError) -> BuildFault {
        BuildFault::NoMemory
    }
}

/// Why a ring isn't raised.
#[derive(Clone, Copy, Debug, PartialEq, Eq)]
pub enum RaiseFault {
    /// It has the greatest power already.
    PowerLimit,
    /// A growth of memory was refused.
    NoMemory,
}

impl From<AllocError> for RaiseFault {
    ghost use Rattle.std.specs.Prelude.{◌≡◌};
    ghost use Rattle.ring_model.specs.declared.ring.RaiseFault.TheVariants.{NoMemory};

    ghost from_gives = { λ _ fault. fault ≡ NoMemory };

    fn from(_refused: AllocError) -> RaiseFault {
        RaiseFault::NoMemory
    }
}

/// Which device holds each replica of each of `2^power` partitions. Each value is valid: its seats
/// are on devices of the ring, those of one partition on different ones, and no two devices have
/// the same address, port and name. Contracts see the ring's record.
///
/// No call changes a ring: what makes a new one leaves the old as it was.
#[derive(Drop)]
pub struct Ring {
    parts: RingParts,
}

impl Model for Ring {
    ghost use Rattle.ring_model.specs.Ring.{RingRecord};
    ghost use Rattle.ring_model.specs.Parts.{record_of};
    ghost use Rattle.ring_model.specs.Valid.{IsValid};

    ghost Value = { RingRecord };

    ghost view = { λ ring. record_of ring.parts };

    ghost invariant = { λ ring. IsValid (record_of ring.parts) };
}

impl Ring {
    ghost use Rattle.std.specs.Prelude.{◌≡◌, ℕ, ◌<◌, ◌≤◌, ◌^◌, ◌↔◌, Bool, IfOk, IsOk, IsErrOf};
    ghost use Rattle.std.specs.Prelude.{IsTrue, length, map, Some, None, true, false};
    ghost use Rattle.std.specs.Option.{option_map, option_copied};
    ghost use Rattle.ring_model.specs.Ring.{RingRecord, new_ring, seat, moved_at, is_assigned};
    ghost use Rattle.ring_model.specs.Ring.{published_at, partition_count, has_device, has_present};
    ghost use Rattle.ring_model.specs.Ring.{with_altered, with_device, with_min_hours};
    ghost use Rattle.ring_model.specs.Ring.{with_hours_passed};
    ghost use Rattle.ring_model.specs.Reseat.{reseated};
    ghost use Rattle.ring_words.specs.Rows.{has_place};
    ghost use Rattle.ring_model.specs.Parts.{record_of, texts_of};
    ghost use Rattle.ring_model.specs.Raise.{IsRaised};
    ghost use Rattle.ring_model.specs.Valid.{IsValid};

    /// A ring without devices, at version 0.
    pub fn new(
        alloc: Global,
        power: Power,
        replicas: Replicas,
        min_hours: u16,
    ) -> Result<Ring, AllocError>
        ensures { IfOk result (λ ring. ring ≡ new_ring power replicas min_hours) }
    {
        let partitions = partition_count(power);
        let parts = RingParts {
            power,
            replicas,
            min_hours,
            next_id: 0,
            version: 0,
            devices: Vec::new(alloc),
            seats: Vec::new(alloc),
            moved: vec![in alloc; None; partitions]?,
            published: Vec::new(alloc),
        };
        Ok(Ring { parts })
    }

    /// The ring of these parts, exactly where they make a valid one, and Invalid exactly where they
    /// make none. No memory is asked for: the parts become the ring as they are.
    pub fn build(_alloc: Global, parts: RingParts) -> Result<Ring, BuildFault>
        ensures built { IfOk result (λ ring. ring ≡ record_of parts) }
        ensures valid { IsOk result ↔ IsValid (record_of parts) }
        ensures invalid { IsErrOf result BuildFault.Invalid ↔ ¬ IsValid (record_of parts) }
        ensures memory { IsErrOf result BuildFault.NoMemory → ⊥ }
    {
        if parts.are_valid() {
            Ok(Ring { parts })
        } else {
            Err(BuildFault::Invalid)
        }
    }

    /// The ring of parts that are known to make one.
    pub(crate) fn of_parts(parts: RingParts) -> Ring
        requires { IsValid (record_of parts) }
        ensures { result ≡ record_of parts }
    {
        Ring { parts }
    }

    /// The parts that the ring is made of.
    pub fn parts(&self) -> Result<RingParts, AllocError>
        ensures parts { IfOk result (λ parts. record_of parts ≡ self.now) }
        ensures valid { IsValid self.now }
    {
        self.parts.copy()
    }

    /// The ring with one more device, which gets the next number. The version rises.
    pub fn with_device(&self, row: &Row) -> Result<Ring, AllocError>
        requires room { length self.now.devices < most_devices }
        requires numbers { self.now.next_id < most_ids }
        requires apart { has_place row.now self.now.devices ≡ false }
        ensures { IfOk result (λ ring. ring ≡ with_device self.now row.now) }
    {
        let mut draft = Draft::of(self)?;
        draft.put(row)?;
        Ok(draft.finish())
    }

    /// The ring after this was done to a device. The version rises.
    pub fn with_altered(&self, id: DeviceId, what: DeviceAct) -> Result<Ring, AllocError>
        requires { has_device id self.now.devices ≡ true }
        ensures { IfOk result (λ ring. ring ≡ with_altered self.now id what) }
    {
        let mut parts = self.parts.copy()?;
        alter_all(&mut parts.devices, &OnDevice { id, what });
        devices_are_proper(&parts.devices);
        parts.version = risen(parts.version);
        Ok(Ring { parts })
    }

    /// The ring where a moved partition stays where it is for so many hours. The version rises.
    pub fn with_min_hours(&self, hours: u16) -> Result<Ring, AllocError>
        ensures { IfOk result (λ ring. ring ≡ with_min_hours self.now hours) }
    {
        let mut parts = self.parts.copy()?;
        parts.min_hours = hours;
        parts.version = risen(parts.version);
        Ok(Ring { parts })
    }

    /// The ring as if no partition had ever been moved. The version rises.
    pub fn with_hours_passed(&self) -> Result<Ring, AllocError>
        ensures { IfOk result (λ ring. ring ≡ with_hours_passed self.now) }
    {
        let mut parts = self.parts.copy()?;
        let partitions = partition_count(parts.power);
        parts.moved = vec![in *parts.moved.allocator(); None; partitions]?;
        parts.version = risen(parts.version);
        Ok(Ring { parts })
    }

    /// The ring with these devices and seats, of partitions that were moved at these hours, where
    /// these make a valid ring. The version rises. Only the published texts are copied.
    pub fn reseated(
        &self,
        devices: Vec<Device>,
        seats: Vec<DeviceId>,
        moved: Vec<Option<Hour>>,
    ) -> Result<Ring, AllocError>
        requires { IsValid (reseated self.now devices.items seats.items moved.items) }
        ensures { IfOk result (λ ring. ring ≡ reseated self.now devices.items seats.items
            moved.items) }
    {
        let published = self.parts.published.clone()?;
        Ok(Ring::of_parts(RingParts {
            power: self.parts.power,
            replicas: self.parts.replicas,
            min_hours: self.parts.min_hours,
            next_id: self.parts.next_id,
            version: risen(self.parts.version),
            devices,
            seats,
            moved,
            published,
        }))
    }

    /// The ring with each partition split into two halves, which are on the partition's devices and
    /// were moved when it was. PowerLimit exactly where the power is the greatest already. The
    /// version rises.
    pub fn raised(&self) -> Result<Ring, RaiseFault>
        ensures raised { IfOk result (λ ring. IsRaised self.now ring) }
        ensures limit { IsErrOf result RaiseFault.PowerLimit ↔ (self.now.power ≡ greatest_power) }
    {
        let Some(power) = Power::new(self.parts.power.get() + 1) else {
            return Err(RaiseFault::PowerLimit);
        };
        let mut parts = self.parts.copy()?;
        parts.seats = self.parts.doubled_seats()?;
        parts.moved = self.parts.doubled_moved()?;
        parts.power = power;
        parts.version = risen(parts.version);
        Ok(Ring { parts })
    }

    /// The ring has `2^power` partitions.
    pub fn power(&self) -> Power
        ensures value { result ≡ self.now.power }
        ensures valid { IsValid self.now }
    {
        self.parts.power
    }

    /// How many replicas of each partition the ring keeps.
    pub fn replicas(&self) -> Replicas
        ensures value { result ≡ self.now.replicas }
        ensures valid { IsValid self.now }
    {
        self.parts.replicas
    }

    /// For how many hours a partition that was moved stays where it is.
    pub fn min_hours(&self) -> u16
        ensures { result ≡ self.now.min_hours }
    {
        self.parts.min_hours
    }

    /// How often the ring was changed. The greatest count, 4294967295, stays.
    pub fn version(&self) -> u32
        ensures { result ≡ self.now.version }
    {
        self.parts.version
    }

    /// The number that the next device gets, 65536 where there is none left.
    pub fn next_id(&self) -> u32
        ensures { result ≡ self.now.next_id }
    {
        self.parts.next_id
    }

    /// The devices, those that are marked to be removed among them, by rising number.
    pub fn devices(&self) -> &[Device]
        ensures value { result.now ≡ self.now.devices }
        ensures valid { IsValid self.now }
    {
        self.parts.devices.as_slice()
    }

    /// Whether a device, marked to be removed or not, has this number.
    pub fn has_device(&self, id: DeviceId) -> bool
        ensures { result ≡ has_device id self.now.devices }
    {
        has_device(&self.parts.devices, id)
    }

    /// Whether a device that isn't marked to be removed has this number.
    pub fn has_present(&self, id: DeviceId) -> bool
        ensures { result ≡ has_present id self.now.devices }
    {
        has_present(&self.parts.devices, id)
    }

    /// Whether a device, marked to be removed or not, has a row's address, port and name.
    pub fn has_place(&self, row: &Row) -> bool
        ensures { result ≡ has_place row.now self.now.devices }
    {
        row.has_place_in(&self.parts.devices)
    }

    /// Which device holds a replica of a partition. `None` where the seats are empty.
    pub fn seat(&self, partition: u32, replica: u16) -> Option<DeviceId>
        requires partition { partition < partition_count self.now }
        requires replica { replica < self.now.replicas }
        ensures { result ≡ seat self.now partition replica }
    {
        let place = partition as usize * usize::from(self.parts.replicas.get())
            + usize::from(replica);
        self.parts.seats.get(place).copied()
    }

    /// The devices of the seats, by partition and then by replica. None at all where the seats are
    /// empty.
    pub fn seats(&self) -> &[DeviceId]
        ensures value { result.now ≡ self.now.seats }
        ensures valid { IsValid self.now }
    {
        self.parts.seats.as_slice()
    }

    /// The hours at which the partitions were moved last, by partition. `None` for one that never
    /// was.
    pub fn moves(&self) -> &[Option<Hour>]
        ensures value { result.now ≡ self.now.moved }
        ensures valid { IsValid self.now }
    {
        self.parts.moved.as_slice()
    }

    /// The hour at which a partition was moved last. `None` where it never was.
    pub fn moved(&self, partition: u32) -> Option<Hour>
        requires { partition < partition_count self.now }
        ensures { result ≡ moved_at self.now partition }
    {
        self.parts.moved[partition as usize]
    }

    /// Whether each seat is on a device. Else all seats are empty.
    pub fn is_assigned(&self) -> bool
        ensures value { result ≡ is_assigned self.now }
        ensures valid { IsValid self.now }
    {
        !self.parts.seats.is_empty()
    }

    /// The text that was published under a version.
    pub fn published(&self, version: u32) -> Option<&str>
        ensures { option_map (λ text. text.now) result ≡ published_at self.now version }
    {
        text_at(&self.parts.published, version)
    }

    /// All published texts, by rising version.
    pub fn published_list(&self) -> &[(u32, RcStr)]
        ensures { texts_of result.now ≡ self.now.published }
    {
        self.parts.published.as_slice()
    }
}
