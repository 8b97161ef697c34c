//! What follows from the definitions alone.
ghost use Rattle.std.specs.Prelude.{◌≡◌, ◌<◌, ◌+◌, ◌*◌, ◌^◌, ℕ, slice_index};
ghost use Rattle.ring_text.specs.Snapshot.{SnapshotRecord, IsValidSnapshot};
ghost use Rattle.swift_ring.specs.SwiftFile.{seat_in, swift_file};

/// A reader of the file finds each seat where Swift looks for it: by replica and then by partition,
/// behind the JSON, whose length the file tells.
pub fn seats_stand_by_replica()
    ensures { (snapshot : SnapshotRecord) (replica partition : ℕ) → IsValidSnapshot snapshot →
        replica < snapshot.replicas → partition < 2 ^ snapshot.power →
        seat_in (swift_file snapshot) (2 ^ snapshot.power) replica partition
        ≡ slice_index snapshot.seats (partition * snapshot.replicas + replica) }
{}
