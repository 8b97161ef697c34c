//! Snapshots of rings.
ghost use Rattle.std.specs.Prelude.{◌≡◌, ◌^◌};

use ring_words::{Device, DeviceId, Power, Replicas, RingName};
use std::marker::Model;

/// What the text of a ring tells: its name, and the ring without its hours and its published texts.
/// Each value is valid: all seats are taken, by devices of the snapshot, those of one partition by
/// different ones, and no two devices have the same address, port and name.
#[derive(Drop)]
pub struct Snapshot {
    pub(crate) name: RingName,
    pub(crate) version: u32,
    pub(crate) power: Power,
    pub(crate) replicas: Replicas,
    pub(crate) devices: Vec<Device>,
    pub(crate) seats: Vec<DeviceId>,
}

impl Model for Snapshot {
    ghost use Rattle.ring_text.specs.Snapshot.{SnapshotRecord, IsValidSnapshot};

    ghost Value = { SnapshotRecord };

    ghost view = { λ s. record {
      name = s.name;
      version = s.version;
      power = s.power;
      replicas =
          s.replicas;
      devices = s.devices.items;
      seats = s.seats.items;
    } };

    ghost invariant = { λ s. IsValidSnapshot (record {
      name = s.name;
      version = s.version;
      power =
          s.power;
      replicas = s.replicas;
      devices = s.devices.items;
      seats = s.seats.items;
    }) };
}

impl Snapshot {
    ghost use Rattle.std.specs.Prelude.{length};
    ghost use Rattle.ring_text.specs.Snapshot.{IsValidSnapshot};

    /// The ring's name.
    pub fn name(&self) -> &RingName
        ensures value { result.now ≡ self.now.name }
        ensures valid { IsValidSnapshot self.now }
    {
        &self.name
    }

    /// How often the ring had been changed.
    pub fn version(&self) -> u32
        ensures { result ≡ self.now.version }
    {
        self.version
    }

    /// The ring has `2^power` partitions.
    pub fn power(&self) -> Power
        ensures { result ≡ self.now.power }
    {
        self.power
    }

    /// How many replicas of each partition the ring keeps.
    pub fn replicas(&self) -> Replicas
        ensures { result ≡ self.now.replicas }
    {
        self.replicas
    }

    /// The devices, those that are marked to be removed among them, by rising number.
    pub fn devices(&self) -> &[Device]
        ensures value { result.now ≡ self.now.devices }
        ensures valid { IsValidSnapshot self.now }
    {
        self.devices.as_slice()
    }

    /// How many devices there are, at most 256.
    pub(crate) fn device_count(&self) -> u32
        ensures { result ≡ length self.now.devices }
    {
        self.devices.len() as u32
    }

    /// The devices of the seats, by partition and then by replica.
    pub fn seats(&self) -> &[DeviceId]
        ensures value { result.now ≡ self.now.seats }
        ensures valid { IsValidSnapshot self.now }
    {
        self.seats.as_slice()
    }
}
