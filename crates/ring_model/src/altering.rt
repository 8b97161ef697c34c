//! Devices that are changed where they stand in their ring.
ghost use Rattle.std.specs.Prelude.{◌≡◌, map};
ghost use Rattle.ring_model.specs.Ring.{altered_at};
ghost use Rattle.ring_model.specs.Import.{reweighed_by};
ghost use Rattle.ring_words.specs.declared.device.Device.{Device};

use ring_words::{Device, DeviceAct, DeviceId, Row};

/// A change of devices.
pub(crate) trait Alteration {
    /// The device after it.
    ghost altered: { Self → Device → Device };

    /// Changes a device.
    fn alter(&self, device: &mut Device)
        ensures { device.new ≡ altered self.now device.old };
}

/// What is done to the device of a number.
#[derive(Clone, Copy)]
pub(crate) struct OnDevice {
    /// The number of the device.
    pub(crate) id: DeviceId,
    /// What is done to it.
    pub(crate) what: DeviceAct,
}

impl Alteration for OnDevice {
    ghost altered = { λ on device. altered_at on.id on.what device };

    fn alter(&self, device: &mut Device) {
        if device.id == self.id {
            match self.what {
                DeviceAct::SetWeight(weight) => device.row.weight = weight,
                DeviceAct::Remove => device.removed = true,
                DeviceAct::Keep => device.removed = false,
            }
        }
    }
}

/// The device of the row's address, port and name gets the row's weight.
impl Alteration for Row {
    ghost altered = { λ row device. reweighed_by row device };

    fn alter(&self, device: &mut Device) {
        if device.row.is_at_place_of(self) {
            device.row.weight = self.weight;
        }
    }
}

/// Changes each device.
pub(crate) fn alter_all<A: Alteration>(devices: &mut [Device], alteration: &A)
    ensures { devices.new ≡ map (A.altered alteration.now) devices.old }
{
    for device in devices.iter_mut() {
        alteration.alter(device);
    }
}
