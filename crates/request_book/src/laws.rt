//! What follows from the definitions alone.
ghost use Rattle.std.specs.Prelude.{◌+◌, ◌≡◌, ◌≤◌, [], Bool, List, None, false, length, ℕ};
ghost use Rattle.request_book.specs.Book.{Parts};
ghost use Rattle.request_book.specs.Call.{Call, calls_of, failed};
ghost use Rattle.request_book.specs.Called.{RunsGoOn};
ghost use Rattle.request_book.specs.Content.{Content, entries_from};
ghost use Rattle.request_book.specs.Front.{CallsGoOn, CallsMade};
ghost use Rattle.request_book.specs.Log.{log_answers, log_deliveries};
ghost use Rattle.request_book.specs.Once.{once};
ghost use Rattle.request_book.specs.Run.{AnswersAlike, RepeatsAreKept, Run, kept};

use crate::keeper::Keeper;
use crate::machine::Machine;

/// A run goes on by one call, of a delivery or of a read: so whatever is called between, the
/// deliveries of a book are one run.
#[tactic(auto, using(crate::proofs::Runs::run_snoc))]
pub fn run_goes_on<M: Machine>()
    ensures { (machine : M) → RunsGoOn (M.step machine) }
{}

/// In every run two replies to one key are one reply, to one command. So a delivery that comes again
/// gets the reply of the first, as long as there is memory and the store works.
pub fn replies_are_alike<M: Machine>()
    ensures repeats { (machine : M) (limit : ℕ) (closed : Bool) (old new : Content M.State M.Command
        M.Reply) (calls : List (Call M.Command M.Reply)) → Run (M.step machine) limit closed old
        calls new → RepeatsAreKept calls }
    ensures alike { (machine : M) (limit : ℕ) (closed : Bool) (old new : Content M.State M.Command
        M.Reply) (calls : List (Call M.Command M.Reply)) → Run (M.step machine) limit closed old
        calls new → AnswersAlike calls }
{}

/// The log is the run: where the store failed in no call, the entries behind those that a run found
/// are the deliveries that it decided, each once, in the order of first decision, at the hours that
/// were used and with the replies that were given. So is each page of them.
pub fn the_log_is_the_run<M: Machine>()
    ensures { (machine : M) (limit : ℕ) (closed : Bool) (old new : Content M.State M.Command
        M.Reply) (calls : List (Call M.Command M.Reply)) (place most : ℕ)
        → Run (M.step machine) limit closed old calls new → failed calls ≡ None
        → entries_from (length old.book + place) most new.book
        ≡ entries_from place most (kept old.hour (once old.book calls)) }
{}

/// The log of a run that began with an empty book can be run again: its entries as deliveries, over
/// what the run began with and under the same limit, may be answered by the kept replies, and leave
/// the state, the book and the hour that the run left.
pub fn a_log_can_be_run_again<M: Machine>()
    ensures { (machine : M) (limit : ℕ) (closed : Bool) (old new : Content M.State M.Command
        M.Reply) (calls : List (Call M.Command M.Reply))
        → Run (M.step machine) limit closed old calls new → failed calls ≡ None
        → old.book ≡ [] → length new.book ≤ limit
        → Run (M.step machine) limit false old
        (calls_of (log_deliveries new.book) (log_answers new.book)) new }
{}

/// No call leaves the book as it is, and the calls so far and one more are one run: so all calls of
/// a front are, whatever asks for them.
pub fn calls_go_on<M: Machine, K: Keeper<M>>()
    ensures none { (book : Parts M K) → CallsMade M.step K.content K.sound K.limit K.fault_count
        book book [] }
    ensures more { CallsGoOn M.step K.content K.sound K.limit K.fault_count }
{}
