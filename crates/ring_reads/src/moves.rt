//! Partitions that change from one ring to another.
ghost use Rattle.std.specs.Prelude.{◌≡◌, ◌<◌, count_by};
ghost use Rattle.std.specs.List.{range_with_len};
ghost use Rattle.ring_model.specs.Ring.{partition_count as partitions_of, seat};
ghost use Rattle.ring_place.specs.Rebalance.{differs, has_changed};
ghost use Rattle.ring_reads.specs.Moves.{changed_partitions};

use ring_model::Ring;
use ring_words::{DeviceId, partition_count};

/// Whether what is on a seat differs from what was on it.
pub(crate) fn differ(from: Option<DeviceId>, to: Option<DeviceId>) -> bool
    ensures { result ≡ differs from to }
{
    from != to
}

/// How many seats of a partition differ.
fn differing_count(old: &Ring, new: &Ring, partition: u32) -> usize
    requires before { partition < partitions_of old.now }
    requires after { partition < partitions_of new.now }
    requires replicas { new.now.replicas ≡ old.now.replicas }
    ensures { result ≡ count_by (λ replica. differs (seat old.now partition replica)
        (seat new.now partition replica)) (range_with_len 0 old.now.replicas) }
{
    let mut differing = 0;
    for replica in 0..old.replicas().get() {
        let from = old.seat(partition, replica);
        let to = new.seat(partition, replica);
        if differ(from, to) {
            differing += 1;
        }
    }
    differing
}

/// Whether a seat of a partition differs.
fn has_changed(old: &Ring, new: &Ring, partition: u32) -> bool
    requires before { partition < partitions_of old.now }
    requires after { partition < partitions_of new.now }
    requires replicas { new.now.replicas ≡ old.now.replicas }
    ensures { result ≡ has_changed old.now new.now partition }
{
    differing_count(old, new, partition) > 0
}

/// How many partitions have a seat that differs between two rings.
pub(crate) fn changed_partitions(old: &Ring, new: &Ring) -> usize
    requires power { new.now.power ≡ old.now.power }
    requires replicas { new.now.replicas ≡ old.now.replicas }
    ensures { result ≡ changed_partitions old.now new.now }
{
    let mut changed = 0;
    for partition in 0..partition_count(old.power()) {
        if has_changed(old, new, partition as u32) {
            changed += 1;
        }
    }
    changed
}
