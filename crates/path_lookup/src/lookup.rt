//! From a partition to its devices.
ghost use Rattle.std.specs.Prelude.{◌≡◌, ◌<◌, ◌↔◌, IfOk, IsErrOf, false};
ghost use Rattle.ring_model.specs.Ring.{partition_count, is_assigned};
ghost use Rattle.path_lookup.specs.Nodes.{AreSeated};

use crate::fault::NodesFault;
use ring_model::Ring;
use ring_words::DeviceId;
use std::alloc::Global;

/// The devices that hold a partition, in order of replica. The partition is one of the ring's.
/// NotAssigned exactly where the ring's seats are empty.
pub fn nodes(alloc: Global, ring: &Ring, partition: u32) -> Result<Vec<DeviceId>, NodesFault>
    requires { partition < partition_count ring.now }
    ensures nodes { IfOk result (λ ids. AreSeated ring.now partition ids.items) }
    ensures unassigned { IsErrOf result NodesFault.NotAssigned ↔ (is_assigned ring.now ≡ false) }
{
    if !ring.is_assigned() {
        return Err(NodesFault::NotAssigned);
    }
    let replicas = usize::from(ring.replicas().get());
    let first = partition as usize * replicas;
    Ok(ring.seats()[first..first + replicas].to_vec(alloc)?)
}
