//! What follows from the definitions alone.
ghost use Rattle.std.specs.Prelude.{◌≡◌, ◌≢◌, ℕ, List, max};
ghost use Rattle.builder.specs.Preview.{Rebalances};
ghost use Rattle.builder.specs.Step.{State};
ghost use Rattle.ring_book.specs.Foretold.{Binds, Foretells};
ghost use Rattle.ring_book.specs.Told.{told_hidden};
ghost use Rattle.ring_messages.specs.declared.told.Told.TheVariants as told;
ghost use Rattle.ring_model.specs.Rings.{ring_at};
ghost use Rattle.ring_reads.specs.Holding.{Holding, hour_now};
ghost use Rattle.ring_reads.specs.Reads.{Hides, Shows};
ghost use Rattle.ring_reads.specs.declared.reads.Hidden.{Hidden};
ghost use Rattle.ring_reads.specs.declared.reads.Hidden.TheVariants.{NoMemory};
ghost use Rattle.ring_reads.specs.declared.reads.Question.TheVariants as question;
ghost use Rattle.ring_reads.specs.declared.reads.Read.TheVariants as read;
ghost use Rattle.ring_words.specs.declared.command.Reply.{Reply};
ghost use Rattle.ring_words.specs.declared.request.Limits.{Limits};

/// The preview is the rebalance. Where one is shown, each rebalance of that ring with that seed at
/// the hour of the preview is done, as long as the ring is as it was: it leaves the ring of which
/// the preview tells, and its reply has the figures of that ring. Other rings may change in
/// between. Where none is shown, and memory was not wanting, what is told in its place is the reply
/// to each such rebalance.
pub fn a_preview_is_the_rebalance()
    ensures shown { (limits : Limits) (held : Holding) (rings after : State)
        (prefix suffix name text : List ℕ) (seed asked : ℕ) (answer : Reply)
        → ring_at name rings ≡ ring_at name held.rings
        → Shows prefix suffix held (question.Ring name (read.Preview seed asked)) text
        → Rebalances limits rings (max (hour_now held) asked) name seed answer after
        → Foretells name (max (hour_now held) asked) seed held.rings text answer after }
    ensures refused { (limits : Limits) (held : Holding) (rings after : State) (name : List ℕ)
        (seed asked : ℕ) (why : Hidden) (answer : Reply)
        → ring_at name rings ≡ ring_at name held.rings
        → Hides held (question.Ring name (read.Preview seed asked)) why → why ≢ NoMemory
        → Rebalances limits rings (max (hour_now held) asked) name seed answer after
        → told_hidden why ≡ told.Reply answer }
{}

/// A rebalance can be held to its preview. Where it asks for the seed, the version and the hour that
/// a preview told, it is the rebalance that was told, or it is refused and changes nothing. It is
/// that one at that hour as long as the ring is as it was; and wherever it is done later in a run,
/// the ring that it leaves and the figures of its reply are those of which the preview tells.
pub fn a_rebalance_is_held_to_its_preview()
    ensures { (limits : Limits) (held : Holding) (prefix suffix name text : List ℕ)
        (seed asked : ℕ)
        → Shows prefix suffix held (question.Ring name (read.Preview seed asked)) text
        → Binds limits name (max (hour_now held) asked) seed held.rings text }
{}
