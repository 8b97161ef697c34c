//! A ring that rows are put into.
ghost use Rattle.std.specs.Prelude.{◌≡◌, ◌<◌, IfOk, OnOk, OnErr, false, find, length};
ghost use Rattle.ring_words.specs.Limits.{most_devices, most_ids};
ghost use Rattle.std.specs.Option.{option_copied};
ghost use Rattle.ring_model.specs.Ring.{changed};
ghost use Rattle.ring_words.specs.Rows.{has_place, same_place};
ghost use Rattle.ring_model.specs.Import.{after_row};
ghost use Rattle.ring_model.specs.Valid.{IsValid};

use crate::altering::alter_all;
use crate::parts::{RingParts, risen};
use crate::proper::row_is_proper;
use crate::ring::Ring;
use ring_words::{Device, Row};
use std::alloc::AllocError;
use std::marker::Model;

/// A copy of a ring that rows are put into, one after another, until it is made the ring after
/// them. Contracts see the ring's record.
#[derive(Drop)]
pub struct Draft {
    parts: RingParts,
}

impl Model for Draft {
    ghost use Rattle.ring_model.specs.Ring.{RingRecord};
    ghost use Rattle.ring_model.specs.Parts.{record_of};
    ghost use Rattle.ring_model.specs.Valid.{IsValid};

    ghost Value = { RingRecord };

    ghost view = { λ draft. record_of draft.parts };

    ghost invariant = { λ draft. IsValid (record_of draft.parts) };
}

impl Draft {
    /// A copy of a ring.
    pub fn of(ring: &Ring) -> Result<Draft, AllocError>
        ensures { IfOk result (λ draft. draft ≡ ring.now) }
    {
        let parts = ring.parts()?;
        Ok(Draft { parts })
    }

    /// The device of a row's address, port and name, marked to be removed or not.
    pub fn device_at(&self, row: &Row) -> Option<&Device>
        ensures { option_copied result ≡ find (λ device. same_place device.row row.now)
            self.now.devices }
    {
        self.parts
            .devices
            .iter()
            .find(|device| device.row.is_at_place_of(row))
    }

    /// How many devices there are, those that are marked to be removed among them.
    pub fn device_count(&self) -> usize
        ensures { result ≡ length self.now.devices }
    {
        self.parts.devices.len()
    }

    /// The number that the next device gets, 65536 where there is none left.
    pub fn next_id(&self) -> u32
        ensures { result ≡ self.now.next_id }
    {
        self.parts.next_id
    }

    /// Puts a row in: the device of its address, port and name gets its weight, or there is one
    /// more device. Where there is no memory for one more, nothing is changed.
    pub fn put(&mut self, row: &Row) -> Result<(), AllocError>
        requires room { has_place row.now self.old.devices ≡ false
            → length self.old.devices < most_devices }
        requires numbers { has_place row.now self.old.devices ≡ false
            → self.old.next_id < most_ids }
        ensures ok { OnOk result (self.new ≡ after_row self.old row.now) }
        ensures err { OnErr result (self.new ≡ self.old) }
    {
        row_is_proper(row);
        if row.has_place_in(&self.parts.devices) {
            alter_all(&mut self.parts.devices, row);
            return Ok(());
        }
        let device = Device {
            id: self.parts.next_id as u16,
            row: row.clone()?,
            removed: false,
        };
        self.parts.devices.push(device)?;
        self.parts.next_id += 1;
        Ok(())
    }

    /// The ring with what was put in. The version rises.
    pub fn finish(self) -> Ring
        ensures { result ≡ changed self }
    {
        let mut parts = self.parts;
        parts.version = risen(parts.version);
        Ring::of_parts(parts)
    }
}
