//! What follows from the definitions alone.
ghost use Rattle.std.specs.Prelude.{◌≡◌, ◌<◌, ◌≤◌, ℕ, List, count_by, false};
ghost use Rattle.ring_words.specs.Limits.{long_count};
ghost use Rattle.ring_model.specs.Ring.{RingRecord};
ghost use Rattle.ring_model.specs.Valid.{IsValid};
ghost use Rattle.ring_share.specs.Want.{AreWanted, is_open};
ghost use Rattle.ring_place.specs.First.{IsFirstApart};
ghost use Rattle.ring_place.specs.Rebalance.{IsLawfulRebalance, IsRebalance, Leaves};
ghost use Rattle.ring_place.specs.Rebalance.{UnlockedAreAtRest, changed_seats, is_locked};
ghost use Rattle.ring_place.specs.Seeded.{IsSeeded};

/// A rebalance moves seats of no more than a lawful gathering.
pub fn a_rebalance_is_lawful()
    ensures { (old new : RingRecord) (hour : ℕ) → IsRebalance old hour new →
        IsLawfulRebalance old hour new }
{}

/// A lawful rebalance of a valid ring leaves a valid ring.
pub fn valid_rings_stay_valid()
    ensures { (old new : RingRecord) (hour : ℕ) → hour < long_count → IsValid old →
        IsLawfulRebalance old hour new → IsValid new }
{}

/// No replica of a locked partition leaves a device that remains.
pub fn locked_replicas_stay()
    ensures { (old new : RingRecord) (hour partition replica : ℕ) → IsLawfulRebalance old hour new →
        Leaves old new partition replica → is_locked old hour partition ≡ false }
{}

/// Of each partition at most one replica leaves a device that remains.
pub fn one_replica_leaves()
    ensures { (old new : RingRecord) (hour partition replica other : ℕ) →
        IsLawfulRebalance old hour new
        → Leaves old new partition replica → Leaves old new partition other → replica ≡ other }
{}

/// Where a rebalance changes no seat, each seat of an unlocked partition is where it should be.
pub fn unchanged_is_settled()
    ensures { (old new : RingRecord) (hour : ℕ) (wanted : List ℕ) → hour < long_count →
        IsValid old → IsRebalance old hour new → AreWanted new wanted
        → changed_seats old new ≡ 0 → UnlockedAreAtRest new hour wanted }
{}

/// A seed gives one ring: of the same ring at the same hour no rebalance gives another.
pub fn a_seed_decides()
    ensures { (old one other : RingRecord) (hour seed : ℕ) → IsSeeded old hour seed one →
        IsSeeded old hour seed other → one ≡ other }
{}

/// Of a ring no seat of which had a device yet the first rebalance puts no more seats of a partition
/// into a region, into a zone or onto a server than what the devices there want forces on it.
pub fn first_seats_stand_apart()
    ensures { (old new : RingRecord) (hour seed : ℕ) → IsValid old →
        old.replicas ≤ count_by is_open old.devices → IsSeeded old hour seed new →
        IsFirstApart old new }
{}
