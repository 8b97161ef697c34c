//! What follows from the definitions alone.
ghost use Rattle.std.specs.Prelude.{◌≡◌, ◌≢◌, ◌<◌, ◌≤◌, ℕ, List, All, IsTrue, Some, length};
ghost use Rattle.ring_words.specs.Limits.{greatest_short, long_count, most_rings};
ghost use Rattle.ring_words.specs.Texts.{is_label};
ghost use Rattle.ring_model.specs.Ring.{RingRecord, moved_at, partition_count};
ghost use Rattle.ring_model.specs.Rings.{AreByName, ring_at};
ghost use Rattle.ring_model.specs.Valid.{IsValid};
ghost use Rattle.ring_text.specs.Snapshot.{IsValidSnapshot, SnapshotRecord, snapshot_of};
ghost use Rattle.ring_founding.specs.Founding.{AreFounded, IsAmong, IsFounded};
ghost use Rattle.ring_founding.specs.declared.founding.Terms.{Terms};

/// A snapshot that is taken of a founded ring, under the name that it came with, is the one that it
/// was founded from: the same devices are on the same seats.
pub fn snapshot_comes_again()
    ensures { (terms : Terms) (snapshot : SnapshotRecord) (ring : RingRecord) →
        IsFounded terms snapshot ring → snapshot_of snapshot.name ring ≡ snapshot }
{}

/// A founded ring is valid.
pub fn founded_ring_is_valid()
    ensures { (terms : Terms) (snapshot : SnapshotRecord) (ring : RingRecord) →
        IsValidSnapshot snapshot → terms.hour < long_count → terms.min_hours ≤ greatest_short →
        IsFounded terms snapshot ring → IsValid ring }
{}

/// Each partition of a founded ring counts as moved at the hour of the founding, so it stays where it
/// is until its hours have passed.
pub fn founded_ring_stays()
    ensures { (terms : Terms) (snapshot : SnapshotRecord) (ring : RingRecord) (partition : ℕ) →
        IsFounded terms snapshot ring → partition < partition_count ring →
        moved_at ring partition ≡ Some terms.hour }
{}

/// When rings are founded beside others, that of each snapshot is under its name in the end, and a
/// name that no snapshot has keeps its ring.
pub fn founded_rings_are_there()
    ensures each { (terms : Terms) (rings founded : List (List ℕ × RingRecord))
        (snapshots : List SnapshotRecord) → AreFounded terms rings snapshots founded →
        All (IsAmong terms founded) snapshots }
    ensures others { (terms : Terms) (rings founded : List (List ℕ × RingRecord))
        (snapshots : List SnapshotRecord) (name : List ℕ) →
        AreFounded terms rings snapshots founded →
        All (λ snapshot. snapshot.name ≢ name) snapshots →
        ring_at name founded ≡ ring_at name rings }
{}

/// Rings stay what the rings of a store have to be when others are founded beside them: no more
/// than may be kept, by rising name, each name that of a ring, and each ring valid.
pub fn founded_rings_are_valid()
    ensures count { (terms : Terms) (rings founded : List (List ℕ × RingRecord))
        (snapshots : List SnapshotRecord) → AreFounded terms rings snapshots founded →
        length rings ≤ most_rings → length founded ≤ most_rings }
    ensures by_name { (terms : Terms) (rings founded : List (List ℕ × RingRecord))
        (snapshots : List SnapshotRecord) → AreFounded terms rings snapshots founded →
        AreByName rings → AreByName founded }
    ensures named { (terms : Terms) (rings founded : List (List ℕ × RingRecord))
        (snapshots : List SnapshotRecord) → All IsValidSnapshot snapshots →
        AreFounded terms rings snapshots founded →
        All (λ named. IsTrue (is_label named.0)) rings →
        All (λ named. IsTrue (is_label named.0)) founded }
    ensures each { (terms : Terms) (rings founded : List (List ℕ × RingRecord))
        (snapshots : List SnapshotRecord) → All IsValidSnapshot snapshots →
        terms.hour < long_count → terms.min_hours ≤ greatest_short →
        AreFounded terms rings snapshots founded → All (λ named. IsValid named.1) rings →
        All (λ named. IsValid named.1) founded }
{}
