//! What follows from the definitions alone.
ghost use Rattle.std.specs.Prelude.{◌<◌};
ghost use Rattle.sqlite_wal.specs.Recovery.{Image};
ghost use Rattle.ring_words.specs.declared.request.Limits.{Limits};
ghost use Rattle.ring_words.specs.Limits.{long_count};
ghost use Rattle.builder.specs.Safety.{AreValidOnTheWay, IsSafeRun};
ghost use Rattle.store_rows.specs.Stands.{RingContent};
ghost use Rattle.file_stores.specs.Opened.{IsKept};

use builder::RingMachine;
use builder_store::laws::what_is_opened_is_valid;
use request_book::Keeper;

/// A safe run over a store that was opened needs no word on the rings that its file held: if the disk
/// returned what was written, all rings on its way are valid, and its hours have 32 bits.
pub fn runs_over_a_file_stay_valid<K: Keeper<RingMachine>>()
    ensures { (image : Image) (keeper : K) (limits : Limits) (new : RingContent)
        → IsKept K.Keeper image keeper → K.sound keeper
        → (run : IsSafeRun limits (K.content keeper) new)
        → AreValidOnTheWay run.led × (new.hour < long_count) }
{
    what_is_opened_is_valid();
}
