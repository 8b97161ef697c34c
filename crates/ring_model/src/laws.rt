//! What follows from the definitions alone.
ghost use Rattle.std.specs.Prelude.{◌≡◌, ◌≢◌, ℕ, List};
ghost use Rattle.ring_model.specs.Ring.{RingRecord};
ghost use Rattle.ring_model.specs.Rings.{ring_at, with_ring};

/// A ring that is put under its name leaves every other name's ring as it was.
pub fn other_rings_stay()
    ensures { (rings : List (List ℕ × RingRecord)) (name other : List ℕ) (ring : RingRecord)
        → other ≢ name → ring_at other (with_ring rings name ring) ≡ ring_at other rings }
{}
