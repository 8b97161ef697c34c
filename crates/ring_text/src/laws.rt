//! What follows from the definitions alone.
ghost use Rattle.std.specs.Prelude.{◌≡◌, ◌++◌, [], ℕ, List};
ghost use Rattle.ring_text.specs.Snapshot.{SnapshotRecord};
ghost use Rattle.ring_text.specs.Spelling.{Spells};

/// A snapshot has one spelling, bytes spell at most one snapshot, and no spelling is the beginning
/// of another.
pub fn one_spelling()
    ensures one_text { (snapshot : SnapshotRecord) (a b : List ℕ) → Spells a snapshot →
        Spells b snapshot → a ≡ b }
    ensures one_snapshot { (bytes : List ℕ) (s t : SnapshotRecord) → Spells bytes s →
        Spells bytes t → s ≡ t }
    ensures no_beginning { (a more : List ℕ) (s t : SnapshotRecord) → Spells a s →
        Spells (a ++ more) t → more ≡ [] }
{}
