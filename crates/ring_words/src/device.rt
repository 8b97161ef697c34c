//! Devices.
ghost use Rattle.std.specs.Prelude.{◌≡◌, IfOk};
ghost use Rattle.ring_words.specs.Rows.{has_place, same_place};

use crate::address::Address;
use crate::bounded::Port;
use crate::name::DeviceName;
use crate::weight::Weight;
use std::alloc::AllocError;

/// The number of a device in its ring. Numbers are given in order from 0 and never used again.
pub type DeviceId = u16;

/// A device as it is asked for: where it stands, what it is called and what it weighs.
#[derive(Clone, PartialEq, Eq, Drop)]
pub struct Row {
    /// The number of its region.
    pub region: u16,
    /// The number of its zone in the region.
    pub zone: u16,
    /// The address of its server.
    pub address: Address,
    /// The port that its server listens on.
    pub port: Port,
    /// What its server calls it.
    pub name: DeviceName,
    /// Its share of the seats, relative to the other devices' weights.
    pub weight: Weight,
}

/// A device of a ring.
#[derive(Clone, PartialEq, Eq, Drop)]
pub struct Device {
    /// Its number.
    pub id: DeviceId,
    /// Where it stands, what it is called and what it weighs.
    pub row: Row,
    /// Whether it is marked to be removed by the next rebalance.
    pub removed: bool,
}

impl Row {
    /// The same row. Its name shares the text.
    pub(crate) fn copy(&self) -> Result<Row, AllocError>
        ensures { IfOk result (λ copy. copy ≡ self.now) }
    {
        let row = self.clone()?;
        Ok(row)
    }

    /// Whether the two have the same address, port and name.
    pub fn is_at_place_of(&self, other: &Row) -> bool
        ensures { result ≡ same_place self.now other.now }
    {
        self.address == other.address && self.port == other.port && self.name == other.name
    }

    /// Whether a device, marked to be removed or not, has the row's address, port and name.
    pub fn has_place_in(&self, devices: &[Device]) -> bool
        ensures { result ≡ has_place self.now devices.now }
    {
        devices.iter().any(|device| device.row.is_at_place_of(self))
    }
}
