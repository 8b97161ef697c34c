//! What follows from the definitions alone.
ghost use Rattle.std.specs.Prelude.{◌≡◌, ◌≢◌, ◌+◌, ◌<◌, ◌≤◌, ℕ, Bool, List, length, slice_get};
ghost use Rattle.std.specs.Prelude.{[], All, Some, true};
ghost use Rattle.builder.specs.Life.{BeginsProperly, BookAnswers, BookCalls, BookContent};
ghost use Rattle.builder.specs.Life.{Deliveries, IsOneLife, IsProperCall, IsSureRun, KeepsReply};
ghost use Rattle.builder.specs.Life.{Lives, all_calls, nothing_held};
ghost use Rattle.builder.specs.Preview.{IsAsForetold, IsDoneAsTold, Rebalances, as_foretold, foretold_of};
ghost use Rattle.builder.specs.Safety.{AreValid, AreValidOnTheWay, BookEntry, DoNotFall, Entries};
ghost use Rattle.builder.specs.Safety.{FewLeft, HasRebalanced, IsProperEntry, IsSafeRun, IsWay};
ghost use Rattle.builder.specs.Safety.{IsDone, IsSameBeside, is_rebalance};
ghost use Rattle.builder.specs.Safety.{LeadsSafely, LockStays};
ghost use Rattle.builder.specs.Safety.{NeverFewerHours, NeverPretended, RestsFor};
ghost use Rattle.builder.specs.Step.{State, Step};
ghost use Rattle.request_book.specs.Log.{log_answers, log_deliveries};
ghost use Rattle.request_book.specs.Run.{AnswersAlike, RepeatsAreKept, Run};
ghost use Rattle.ring_messages.specs.Commands.{IsProperCommand};
ghost use Rattle.ring_model.specs.Ring.{RingRecord, partition_count};
ghost use Rattle.ring_model.specs.Rings.{ring_at};
ghost use Rattle.ring_place.specs.Rebalance.{IsRebalance, has_changed, is_locked};
ghost use Rattle.ring_place.specs.Seeded.{IsSeeded};
ghost use Rattle.ring_words.specs.Limits.{greatest_long, long_count};
ghost use Rattle.ring_words.specs.declared.request.Limits.{Limits};
ghost use Rattle.ring_words.specs.declared.command.Command.{Command};
ghost use Rattle.ring_words.specs.declared.command.Act.TheVariants as act;
ghost use Rattle.ring_words.specs.declared.command.DeviceAct.TheVariants as device_act;
ghost use Rattle.ring_words.specs.declared.command.Done.{Done};
ghost use Rattle.ring_words.specs.declared.command.Foretold.{Foretold};
ghost use Rattle.ring_words.specs.declared.command.Reply.{Reply};
ghost use Rattle.ring_words.specs.declared.command.Reply.TheVariants as reply;

/// A step changes no ring but the one that its command names.
pub fn other_rings_stay()
    ensures { (limits : Limits) (rings after : State) (hour : ℕ) (command : Command) (reply : Reply)
        (name : List ℕ)
        → Step limits rings hour command reply after → name ≢ command.ring → ring_at name after ≡ ring_at name rings }
{}

/// Each step keeps valid rings valid.
pub fn valid_rings_stay_valid()
    ensures { (limits : Limits) (rings after : State) (hour : ℕ) (command : Command) (reply : Reply)
        → hour < long_count → Step limits rings hour command reply after → IsProperCommand command
        → AreValid rings → AreValid after }
{}

/// So valid rings stay valid all the way, where each command and hour is such as there are.
pub fn valid_rings_stay_valid_in_a_run()
    ensures { (limits : Limits) (old new : State) (entries : Entries) (rings : ℕ → State)
        → IsWay limits old entries new rings → AreValid old → All IsProperEntry entries
        → (n : ℕ) → n ≤ length entries → AreValid (rings n) }
{}

/// A device that was marked to be removed and is kept is as it was: where one act marks it and the
/// next takes the mark off, the ring is the same but for its version.
pub fn a_kept_device_is_as_it_was()
    ensures { (limits : Limits) (rings mid after : State) (hour later : ℕ) (name : List ℕ)
        (id : ℕ) (marks unmarks : Done) (old new : RingRecord)
        → AreValid rings
        → Step limits rings hour (record { ring = name; act = act.OnDevice id device_act.Remove })
        (reply.Done marks) mid
        → Step limits mid later (record { ring = name; act = act.OnDevice id device_act.Keep })
        (reply.Done unmarks) after
        → ring_at name rings ≡ Some old → ring_at name after ≡ Some new
        → record new { version = old.version } ≡ old }
{}

/// In each rebalance, foretold or not, at most one replica of a partition leaves a device that
/// remains, and none before its hours have passed. No other ring is touched.
pub fn few_replicas_leave()
    ensures { (limits : Limits) (rings after : State) (hour : ℕ) (command : Command)
        (answer : Done) → is_rebalance command.act ≡ true
        → Step limits rings hour command (reply.Done answer) after
        → FewLeft rings command.ring hour after }
{}

/// So it is in each rebalance on the way of a run.
pub fn few_replicas_leave_in_a_run()
    ensures { (limits : Limits) (old new : State) (entries : Entries) (rings : ℕ → State)
        → IsWay limits old entries new rings
        → (name : List ℕ) (n : ℕ) (entry : BookEntry)
        → slice_get entries n ≡ Some entry → HasRebalanced name entry
        → FewLeft (rings n) name entry.hour (rings (n + 1)) }
{}

/// A partition of which a rebalance changed a seat is locked from then on, until the hours of its
/// ring have passed.
pub fn a_move_locks()
    ensures { (old new : RingRecord) (hour partition later : ℕ)
        → IsRebalance old hour new → partition < partition_count old
        → has_changed old new partition ≡ true
        → later < hour + old.min_hours → is_locked new later partition ≡ true }
{}

/// The lock stays, while the ring gets no `pretend_passed`, until as many hours have passed since
/// the move as the ring then says. A raise of the power hands it to both halves of the partition.
pub fn a_lock_stays()
    ensures { (limits : Limits) (old new : State) (entries : Entries) (rings : ℕ → State)
        → IsWay limits old entries new rings → DoNotFall entries
        → (name : List ℕ) (i j : ℕ) → i < j → j ≤ length entries
        → NeverPretended entries i j name → LockStays entries rings name i j }
{}

/// So, if a rebalance changed a seat of a partition, no later one takes a replica of it off a
/// device that remains before the ring's hours have passed, unless the ring got a `pretend_passed`
/// in between, or a `set_hours` of fewer hours.
pub fn moved_partitions_rest()
    ensures { (limits : Limits) (old new : State) (entries : Entries) (rings : ℕ → State)
        → IsWay limits old entries new rings → DoNotFall entries
        → (name : List ℕ) (hours i j : ℕ) → i < j
        → NeverPretended entries i j name
        → NeverFewerHours entries i j name hours
        → RestsFor hours entries rings name i j }
{}

/// A seed decides a rebalance: at the same hour and with the same seed, one ring is given one reply
/// and becomes one ring, whatever the other rings are.
pub fn a_seed_decides_reply_and_ring()
    ensures reply { (limits : Limits) (rings others left after : State) (hour seed : ℕ)
        (name : List ℕ) (told other : Reply)
        → ring_at name rings ≡ ring_at name others
        → Rebalances limits rings hour name seed told left
        → Rebalances limits others hour name seed other after → told ≡ other }
    ensures ring { (limits : Limits) (rings others left after : State) (hour seed : ℕ)
        (name : List ℕ) (told other : Reply)
        → ring_at name rings ≡ ring_at name others
        → Rebalances limits rings hour name seed told left
        → Rebalances limits others hour name seed other after
        → ring_at name left ≡ ring_at name after }
{}

/// Along a run a version is of one ring: where a ring has a version at a place, and the same one at a
/// later place, it is the same ring, save for texts that were published in between. The greatest
/// version, which doesn't rise, may be of several.
pub fn a_version_is_one_ring()
    ensures { (limits : Limits) (old new : State) (entries : Entries) (rings : ℕ → State)
        → IsWay limits old entries new rings
        → (name : List ℕ) (i j : ℕ) (first later : RingRecord)
        → i ≤ j → j ≤ length entries
        → ring_at name (rings i) ≡ Some first → ring_at name (rings j) ≡ Some later
        → later.version ≡ first.version → first.version < greatest_long
        → IsSameBeside first later }
{}

/// A rebalance that was foretold is the one that was foretold, or none. Where it is done, it does at
/// that hour what a plain one with the same seed does: it leaves the same rings, and its reply has
/// the same version and figures. That is the version that was told, and the hour that was told. And
/// where a plain one at the hour that was told is done, and leaves the version that was told, so is
/// this one.
pub fn a_foretold_rebalance_is_that_one()
    ensures only { (limits : Limits) (rings after : State) (hour : ℕ) (name : List ℕ)
        (told : Foretold) (answer : Done)
        → Step limits rings hour (foretold_of name told) (reply.Done answer) after
        → IsAsForetold limits rings hour name told answer after }
    ensures does { (limits : Limits) (rings after : State) (hour : ℕ) (name : List ℕ)
        (told : Foretold) (plain : Done)
        → Rebalances limits rings hour name told.seed (reply.Done plain) after
        → plain.version ≡ told.version → hour ≡ told.hour
        → Step limits rings hour (foretold_of name told) (reply.Done (as_foretold plain)) after }
{}

/// So it is in a run: a ring at one place of it would be rebalanced at an hour, with a seed, to this
/// ring of this version, and that was foretold. Where a later entry asks for that seed, version and
/// hour, and is done, it is done at that hour and leaves that ring, and its reply has the figures of
/// that ring, whatever came in between: only texts may have been published. The greatest version,
/// which doesn't rise, is left out.
pub fn a_foretold_rebalance_is_kept()
    ensures { (limits : Limits) (old new : State) (entries : Entries) (rings : ℕ → State)
        → IsWay limits old entries new rings
        → (name : List ℕ) (i j : ℕ) (first foretold : RingRecord) (told : Foretold)
        (entry : BookEntry)
        → i ≤ j → slice_get entries j ≡ Some entry
        → ring_at name (rings i) ≡ Some first → IsSeeded first told.hour told.seed foretold
        → told.version ≡ foretold.version → told.version < greatest_long
        → IsDone name (act.RebalanceAs told) entry
        → IsDoneAsTold name first foretold told entry (rings (j + 1)) }
{}

/// Whatever calls come, a run leads safely: on its way few replicas leave in each rebalance, and
/// moved partitions rest. A run of calls such as there are is safe: valid rings stay valid too.
pub fn a_run_is_safe()
    ensures led { (limits : Limits) (limit : ℕ) (closed : Bool) (old new : BookContent)
        (calls : BookCalls)
        → Run (Step limits) limit closed old calls new → LeadsSafely limits old new }
    ensures safe { (limits : Limits) (limit : ℕ) (closed : Bool) (old new : BookContent)
        (calls : BookCalls)
        → Run (Step limits) limit closed old calls new → All IsProperCall calls
        → IsSafeRun limits old new }
{}

/// Where the old rings are valid and each command is proper, all rings on the way of a run are
/// valid, whichever way that is.
pub fn a_run_stays_valid()
    ensures { (limits : Limits) (limit : ℕ) (closed : Bool) (old new : BookContent)
        (calls : BookCalls)
        → Run (Step limits) limit closed old calls new → old.hour < long_count
        → All IsProperCall calls → AreValid old.state
        → (led : LeadsSafely limits old new) → AreValidOnTheWay led }
{}

/// Two runs, of which the one begins with what the other left, lead safely as one.
pub fn runs_are_safe_together()
    ensures { (limits : Limits) (limit more : ℕ) (closed later : Bool)
        (old mid new : BookContent) (first second : BookCalls)
        → Run (Step limits) limit closed old first mid → Run (Step limits) more later mid second new
        → LeadsSafely limits old new }
{}

/// All calls of a life, in their order, come to one run, as if one book had been open all the time:
/// where the store failed in a delivery, or a crash cut it off, the run has that delivery with a
/// reply, which nobody got, or does not have it.
pub fn a_life_is_one_run()
    ensures { (limits : Limits) (limit : ℕ) (old new : BookContent) (runs : List BookCalls)
        → Lives limits limit old runs new → IsOneLife limits limit old runs new }
{}

/// The life of a store leads safely, however often a program is started over it: on its way few
/// replicas leave in each rebalance, and moved partitions rest, also from one start to the next. A
/// life of calls such as there are is one safe run.
pub fn a_life_is_safe()
    ensures led { (limits : Limits) (limit : ℕ) (old new : BookContent) (runs : List BookCalls)
        → Lives limits limit old runs new → LeadsSafely limits old new }
    ensures safe { (limits : Limits) (limit : ℕ) (old new : BookContent) (runs : List BookCalls)
        → Lives limits limit old runs new → All (All IsProperCall) runs
        → IsSafeRun limits old new }
{}

/// Where the rings were valid at first and each command is proper, they are at each place of a
/// life. So they are in each life of proper commands that begins with nothing.
pub fn a_life_stays_valid()
    ensures valid { (limits : Limits) (limit : ℕ) (old new : BookContent)
        (runs : List BookCalls)
        → Lives limits limit old runs new → old.hour < long_count
        → All (All IsProperCall) runs → AreValid old.state
        → (led : LeadsSafely limits old new) → AreValidOnTheWay led }
    ensures from_nothing { (limits : Limits) (limit : ℕ) (new : BookContent)
        (runs : List BookCalls) → Lives limits limit nothing_held runs new
        → All (All IsProperCall) runs
        → (led : LeadsSafely limits nothing_held new) → AreValidOnTheWay led }
{}

/// Each reply that was given in any run of a life is the one that the book of its end keeps under
/// that key and for that command. So two replies to one key are one reply, to one command, and a
/// repeat gets the reply of the first, however often the program was started in between, as long as
/// there is memory and the store works.
pub fn a_life_keeps_its_replies()
    ensures kept { (limits : Limits) (limit : ℕ) (old new : BookContent)
        (runs : List BookCalls)
        → Lives limits limit old runs new → All (All (KeepsReply new.book)) runs }
    ensures alike { (limits : Limits) (limit : ℕ) (old new : BookContent)
        (runs : List BookCalls)
        → Lives limits limit old runs new → AnswersAlike (all_calls runs) }
    ensures repeats { (limits : Limits) (limit : ℕ) (old new : BookContent)
        (runs : List BookCalls)
        → Lives limits limit old runs new → RepeatsAreKept (all_calls runs) }
{}

/// Each step is a function: of the same valid rings, at the same hour, one command is given one
/// reply and leaves one list of rings.
pub fn a_step_is_one()
    ensures { (limits : Limits) (rings left after : State) (hour : ℕ) (command : Command)
        (told other : Reply) → AreValid rings → Step limits rings hour command told left
        → Step limits rings hour command other after → (told ≡ other) × (left ≡ after) }
{}

/// One list of deliveries, which come at the same hours, leaves one content: where two runs of it
/// begin with one content, and nothing failed in either, they give the same answers and end with
/// the same content.
pub fn one_list_one_book()
    ensures { (limits : Limits) (limit : ℕ) (old new after : BookContent)
        (deliveries : Deliveries) (answers others : BookAnswers)
        → BeginsProperly old deliveries
        → IsSureRun limits limit old deliveries answers new
        → IsSureRun limits limit old deliveries others after → (answers ≡ others) × (new ≡ after) }
{}

/// The log of a life that began with an empty book gives the same book again: where its entries are
/// delivered in their order, each at its hour, over what the life began with and under the same
/// limits, they may be answered by the kept replies and leave what the life left; and wherever
/// nothing fails they are answered so and leave nothing else.
pub fn a_log_gives_the_same_book()
    ensures may { (limits : Limits) (limit : ℕ) (old new : BookContent) (runs : List BookCalls)
        → Lives limits limit old runs new → old.book ≡ [] → length new.book ≤ limit
        → IsSureRun limits limit old (log_deliveries new.book) (log_answers new.book) new }
    ensures only { (limits : Limits) (limit : ℕ) (old new after : BookContent)
        (runs : List BookCalls) (others : BookAnswers)
        → Lives limits limit old runs new → old.book ≡ [] → length new.book ≤ limit
        → old.hour < long_count → AreValid old.state → All (All IsProperCall) runs
        → IsSureRun limits limit old (log_deliveries new.book) others after
        → (others ≡ log_answers new.book) × (after ≡ new) }
{}
