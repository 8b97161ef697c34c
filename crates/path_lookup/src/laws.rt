//! What follows from the definitions alone.
ghost use Rattle.std.specs.Prelude.{◌↔◌, ◌<◌, ℕ, List};
ghost use Rattle.ring_model.specs.Raise.{IsRaised};
ghost use Rattle.ring_model.specs.Ring.{RingRecord};
ghost use Rattle.path_lookup.specs.Names.{PathNames};
ghost use Rattle.path_lookup.specs.Nodes.{AreNodes};

/// Raising the power of a ring leaves every path on its nodes.
pub fn raised_nodes()
    ensures { (old new : RingRecord) (prefix suffix ids : List ℕ) (names : PathNames) →
        IsRaised old new → old.power < 32
        → (AreNodes new prefix names suffix ids ↔ AreNodes old prefix names suffix ids) }
{}
