//! The snapshot of a ring.
ghost use Rattle.std.specs.Prelude.{◌≡◌, IfOk, true};
ghost use Rattle.ring_model.specs.Ring.{is_assigned};
ghost use Rattle.ring_text.specs.Snapshot.{IsValidSnapshot, snapshot_of};

use crate::state::Snapshot;
use ring_model::Ring;
use ring_words::{Device, RingName};
use std::alloc::{AllocError, Global};

/// The same devices once more.
fn copied(alloc: Global, devices: &[Device]) -> Result<Vec<Device>, AllocError>
    ensures { IfOk result (λ copy. copy.items ≡ devices.now) }
{
    let mut copy = Vec::with_capacity(alloc, devices.len())?;
    for device in devices {
        copy.push(device.clone()?)?;
    }
    Ok(copy)
}

/// The snapshot of an assigned ring, under a name.
pub fn snapshot(alloc: Global, name: &RingName, ring: &Ring) -> Result<Snapshot, AllocError>
    requires { is_assigned ring.now ≡ true }
    ensures taken { IfOk result (λ snapshot. snapshot ≡ snapshot_of name.now ring.now) }
    ensures valid { IfOk result (λ snapshot. IsValidSnapshot snapshot) }
{
    let _valid_name = name.as_str();
    Ok(Snapshot {
        name: name.clone()?,
        version: ring.version(),
        power: ring.power(),
        replicas: ring.replicas(),
        devices: copied(alloc, ring.devices())?,
        seats: Vec::from_slice(alloc, ring.seats())?,
    })
}
