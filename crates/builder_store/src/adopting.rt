//! Taking a connection over.
ghost use Rattle.std.specs.Prelude.{◌≡◌, ◌≤◌, ◌⊎◌, ◌↔◌, false, IfErr, IfOk, IsTrue};
ghost use Rattle.sqlite_trees.specs.Tree.{Trees};
ghost use Rattle.sqlite_trees.specs.View.{IsClean, doubt};
ghost use Rattle.sqlite.specs.Held.{state};
ghost use Rattle.sqlite.specs.State.{HasCleanDisk};
ghost use Rattle.store_tables.specs.Failing.{HasFailedSince, is_no_text, tells_failure};
ghost use Rattle.builder_store.specs.Inner.Faults.{opening_fault, reading_fault};
ghost use Rattle.builder_store.specs.Inner.Opened.{IsFresh};
ghost use Rattle.builder_store.specs.declared.fault.OpenFault.TheVariants.{BadTexts, NoMemory};
ghost use Rattle.builder_store.specs.Opening.{JudgesTables, TellsFault};

use crate::fault::OpenFault;
use sqlite::{Alter, Connection, Error, ErrorCode};
use std::alloc::Global;

/// What a refused opening gives back.
pub enum Left<S: Alter> {
    /// The connection, taken over.
    Connection(Connection<S>),
    /// Its store, where no connection could be made over it.
    Store(S),
}

// It is written out, so that a caller does not prove again how each part is dropped.
impl<S: Alter + Drop> Drop for Left<S> {
    fn drop(self) {
        match self {
            Left::Connection(_conn) => {}
            Left::Store(_store) => {}
        }
    }
}

impl<S: Alter + Drop> Left<S> {
    ghost use Rattle.builder_store.specs.Keepers.{left_may_leave};

    /// The store. What was not committed is rolled back.
    pub fn into_store(self) -> S
        ensures { (db : Trees) → S.Store.recovers result db → left_may_leave S.Store self db }
    {
        match self {
            Left::Connection(conn) => conn.into_store(),
            Left::Store(store) => store,
        }
    }
}

/// A new connection over the same store, which is rolled back and read anew, with no clock and no
/// limit on steps. An error comes with the store.
pub(crate) fn take_over<S: Alter + Drop>(
    alloc: Global,
    conn: Connection<S>,
) -> Result<Connection<S>, (Error, S)>
    ensures mode { IfOk result (λ c. c.in_transaction ≡ false) }
    ensures fresh { IfOk result (λ c. HasCleanDisk (state S.Store c) → IsFresh (state S.Store c)) }
    ensures clean { IfOk result (λ c. doubt (state S.Store conn).is_clean ≤ doubt
        (state S.Store c).is_clean) }
    ensures same { IfOk result (λ c. HasCleanDisk (state S.Store c)
        → (state S.Store c).committed.trees ≡ (state S.Store conn).committed.trees) }
    ensures crash { IfOk result (λ c. HasCleanDisk (state S.Store c) → (db : Trees)
        → (state S.Store c).may_leave db → (state S.Store conn).may_leave db) }
    ensures left { IfErr result (λ e. (db : Trees) → S.Store.recovers e.1 db →
        (state S.Store conn).may_leave db) }
    ensures cause { IfErr result (λ e. IsClean (S.Store.view e.1)
        → (opening_fault e.0 ≡ NoMemory) ⊎ (TellsFault (opening_fault e.0)
        × HasFailedSince (state S.Store conn) (S.Store.faults e.1))) }
{
    let store = conn.into_store();
    if store.is_broken() {
        return Err((Error::SqliteFailure(ErrorCode::Closed), store));
    }
    Connection::over(alloc, store)
}

/// Why an error of a connection ends an opening.
pub(crate) fn fault_of(error: &Error) -> OpenFault
    ensures which { result ≡ opening_fault error.now }
    ensures failed { TellsFault result → IsTrue (tells_failure error.now) }
    ensures unjudged { JudgesTables result → ⊥ }
{
    match error {
        Error::SqliteFailure(ErrorCode::OutOfMemory) => OpenFault::NoMemory,
        Error::SqliteFailure(ErrorCode::DatabaseCorrupt) => OpenFault::Damaged,
        Error::SqliteFailure(
            ErrorCode::SystemIoFailure | ErrorCode::DiskFull | ErrorCode::Closed,
        ) => OpenFault::Store,
        _ => OpenFault::Refused,
    }
}

/// Why an error with which rows are read ends an opening.
pub(crate) fn reading_fault(error: &Error) -> OpenFault
    ensures which { result ≡ reading_fault error.now }
    ensures texts { (result ≡ BadTexts) ↔ IsTrue (is_no_text error.now) }
    ensures failed { TellsFault result → IsTrue (tells_failure error.now) }
    ensures unjudged { JudgesTables result → result ≡ BadTexts }
{
    match error {
        Error::Utf8Error(_) => OpenFault::BadTexts,
        _ => fault_of(error),
    }
}
