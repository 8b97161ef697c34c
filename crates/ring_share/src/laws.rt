//! What follows from the definitions alone.
ghost use Rattle.std.specs.Prelude.{◌≡◌, ℕ, List, sum, sum_by, true, if◌then◌else◌};
ghost use Rattle.std.specs.List.{list_any};
ghost use Rattle.ring_model.specs.Ring.{RingRecord, is_assigned};
ghost use Rattle.ring_model.specs.Valid.{IsValid};
ghost use Rattle.ring_share.specs.Crowd.{seats_on, rows_of};
ghost use Rattle.ring_share.specs.Room.{have};
ghost use Rattle.ring_share.specs.Want.{is_open, seat_count, AreWanted};

/// The wants of a ring's devices add up to all its seats, or to none where no device is open.
pub fn wants_add_up()
    ensures { (ring : RingRecord) (wanted : List ℕ) → AreWanted ring wanted
        → sum wanted ≡ (if list_any is_open ring.devices then seat_count ring else 0) }
{}

/// A ring's devices want one number of seats each: there is no second list of wants.
pub fn wants_are_determined()
    ensures { (ring : RingRecord) (one other : List ℕ) → AreWanted ring one → AreWanted ring other →
        one ≡ other }
{}

/// In an assigned ring a device has the seats that it has in each partition, together.
pub fn seats_add_up_by_partition()
    ensures { (ring : RingRecord) (id : ℕ) → IsValid ring → is_assigned ring ≡ true →
        have ring id ≡ sum_by (seats_on id) (rows_of ring) }
{}
