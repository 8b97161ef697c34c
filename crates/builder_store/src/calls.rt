//! What the keeper asks of its connection.

ghost use Rattle.std.specs.Prelude.{◌≡◌, ◌≢◌, ◌↔◌, [], false, Err, IfErr, IfOk, IsTrue, OnOk};
ghost use Rattle.ring_words.specs.declared.spelling.SpellingFault.TheVariants as spelling;
ghost use Rattle.sqlite.specs.Held.{state};
ghost use Rattle.sqlite.specs.State.{HasCleanDisk, IsLive, IsNotRun, IsUnchanged, Survives};
ghost use Rattle.sqlite.specs.declared.error.Error.TheVariants.{InvalidQuery, SqliteFailure};
ghost use Rattle.sqlite.specs.declared.error.ErrorCode.TheVariants.{OutOfMemory};
ghost use Rattle.request_book.specs.Content.{entries_from, entry_of};
ghost use Rattle.request_book.specs.Keeper.{IsFound};
ghost use Rattle.request_book.specs.declared.keeper.KeepFault.TheVariants.{NoMemory, Store};
ghost use Rattle.store_rows.specs.Stands.{RingContent};
ghost use Rattle.builder_store.specs.Opening.{Stands};
ghost use Rattle.builder_store.specs.Inner.Bound.{BoundsIn};
ghost use Rattle.builder_store.specs.Inner.Answering.{IsUnanswered};
ghost use Rattle.builder_store.specs.Inner.Tables.{HasTables, IsSettledState};

use request_book::{Entry, Found, KeepFault};
use ring_words::{Command, Key, Reply, SpellingFault};
use sqlite::{Alter, Connection, Error, ErrorCode, Row};
use std::alloc::Global;
use store_rows::{Callers, read_entries, read_found};
use store_tables::{find_request, requests_from};

/// What is known of a connection that sees the tables outside a transaction: it sees a store, which
/// is committed.
pub(crate) fn settle<S: Alter>(conn: &Connection<S>)
    ensures live { IsLive (state S.Store conn.now) }
    ensures committed { conn.now.in_transaction ≡ false → IsTrue (state S.Store conn.now).is_open
        → (state S.Store conn.now).now ≡ (state S.Store conn.now).committed }
    ensures settled { conn.now.in_transaction ≡ false → HasTables (state S.Store conn.now)
        → IsSettledState (state S.Store conn.now) }
{
    let _schema = conn.schema();
    let _ended = conn.is_autocommit();
}

/// What the answer to an empty text tells: that it shows no rows, or that it was not run.
fn told_nothing(answer: Result<Vec<Row>, Error>) -> Result<(), Error>
    ensures nothing { OnOk result (IfErr answer (λ e. e ≡ InvalidQuery)) }
    ensures untold { IfErr result (λ e. (answer ≡ Err e) × (e ≢ InvalidQuery)) }
{
    match answer {
        Ok(_) => Ok(()),
        Err(Error::InvalidQuery) => Ok(()),
        Err(error) => Err(error),
    }
}

/// Asks a connection for nothing, by an empty text. Ok tells that it is open.
///
/// Where that text was compiled before, it takes no memory.
pub(crate) fn ask_nothing<S: Alter>(conn: &mut Connection<S>) -> Result<(), Error>
    requires { conn.old.in_transaction ≡ false }
    ensures mode { conn.new.in_transaction ≡ false }
    ensures answered { HasCleanDisk (state S.Store conn.new) → OnOk result (IsUnchanged
        (state S.Store conn.old) (state S.Store conn.new)) }
    ensures unanswered { HasCleanDisk (state S.Store conn.new) → IfErr result (IsNotRun
        (state S.Store conn.old) (state S.Store conn.new) [] []) }
    ensures survives { Survives (state S.Store conn.old) (state S.Store conn.new) (λ _. ⊥) }
{
    let answer = conn.query_all("", &[]);
    told_nothing(answer)
}

/// What a failed statement comes to: want of memory where the store still answers, and else the
/// store has failed.
///
/// Want of memory may come with the store shut, and then nobody knows what was committed.
pub(crate) fn cause<S: Alter>(conn: &mut Connection<S>, error: &Error) -> KeepFault
    requires { conn.old.in_transaction ≡ false }
    ensures mode { conn.new.in_transaction ≡ false }
    ensures same { HasCleanDisk (state S.Store conn.new) → result ≡ NoMemory
        → IsUnchanged (state S.Store conn.old) (state S.Store conn.new) }
    ensures memory { result ≡ NoMemory → error.now ≡ SqliteFailure OutOfMemory }
    ensures store { HasCleanDisk (state S.Store conn.new) → result ≡ Store
        → error.now ≡ SqliteFailure OutOfMemory
        → IsUnanswered (state S.Store conn.old) (state S.Store conn.new) }
    ensures survives { Survives (state S.Store conn.old) (state S.Store conn.new) (λ _. ⊥) }
{
    if !matches!(error, Error::SqliteFailure(ErrorCode::OutOfMemory)) {
        return KeepFault::Store;
    }
    match ask_nothing(conn) {
        Ok(()) => KeepFault::NoMemory,
        Err(_) => KeepFault::Store,
    }
}

/// What a row comes to that isn't read: memory was wanted, or it is no row of a store.
fn unread(fault: SpellingFault) -> KeepFault
    ensures { (result ≡ NoMemory) ↔ (fault ≡ spelling.NoMemory) }
{
    match fault {
        SpellingFault::NoMemory => KeepFault::NoMemory,
        SpellingFault::Bad => KeepFault::Store,
    }
}

/// What the tables have of a key and a command.
fn find<S: Alter>(
    alloc: Global,
    conn: &mut Connection<S>,
    key: &Key,
    command: &Command,
) -> Result<Found<Reply>, KeepFault>
    requires mode { conn.old.in_transaction ≡ false }
    requires tables { HasCleanDisk (state S.Store conn.old) → HasTables (state S.Store conn.old) }
    ensures mode { conn.new.in_transaction ≡ false }
    ensures tables { HasCleanDisk (state S.Store conn.new) → result ≢ Err Store
        → HasTables (state S.Store conn.new) }
    ensures found { HasCleanDisk (state S.Store conn.new) → (content : RingContent)
        → Stands (state S.Store conn.old).committed.trees content
        → IfOk result (IsFound (entry_of key.now content.book) command.now) }
    ensures survives { Survives (state S.Store conn.old) (state S.Store conn.new) (λ _. ⊥) }
{
    settle(conn);
    let answer = find_request(conn, key.caller.as_str(), key.number);
    let kept = match answer {
        Ok(kept) => kept,
        Err(error) => {
            let fault = cause(conn, &error);
            settle(conn);
            return Err(fault);
        }
    };
    match read_found(alloc, kept, command) {
        Ok(found) => Ok(found),
        Err(fault) => Err(unread(fault)),
    }
}

/// What the tables have of a key and a command, where no key of their book is beyond what these
/// callers used. They are asked only where the key is not beyond that.
pub(crate) fn look_up<S: Alter>(
    alloc: Global,
    conn: &mut Connection<S>,
    callers: &Callers,
    key: &Key,
    command: &Command,
) -> Result<Found<Reply>, KeepFault>
    requires mode { conn.old.in_transaction ≡ false }
    requires tables { HasCleanDisk (state S.Store conn.old) → HasTables (state S.Store conn.old) }
    requires known { HasCleanDisk (state S.Store conn.old) → BoundsIn callers.now
        (state S.Store conn.old).committed.trees }
    ensures mode { conn.new.in_transaction ≡ false }
    ensures tables { HasCleanDisk (state S.Store conn.new) → result ≢ Err Store
        → HasTables (state S.Store conn.new) }
    ensures found { HasCleanDisk (state S.Store conn.new) → (content : RingContent)
        → Stands (state S.Store conn.old).committed.trees content
        → IfOk result (IsFound (entry_of key.now content.book) command.now) }
    ensures survives { Survives (state S.Store conn.old) (state S.Store conn.new) (λ _. ⊥) }
{
    if callers.is_beyond(key) {
        return Ok(Found::New);
    }
    find(alloc, conn, key, command)
}

/// The decided requests that the tables have from a place on, in the order of their decisions, and
/// at most `most` of them.
#[tactic(auto, using(crate::proofs::Paged::page_of_content))]
pub(crate) fn read_page<S: Alter>(
    alloc: Global,
    conn: &mut Connection<S>,
    from: u32,
    most: u32,
) -> Result<Vec<Entry<Command, Reply>>, KeepFault>
    requires mode { conn.old.in_transaction ≡ false }
    requires tables { HasCleanDisk (state S.Store conn.old) → HasTables (state S.Store conn.old) }
    ensures mode { conn.new.in_transaction ≡ false }
    ensures tables { HasCleanDisk (state S.Store conn.new) → result ≢ Err Store
        → HasTables (state S.Store conn.new) }
    ensures entries { HasCleanDisk (state S.Store conn.new) → (content : RingContent)
        → Stands (state S.Store conn.old).committed.trees content
        → IfOk result (λ entries. entries.items ≡ entries_from from most content.book) }
    ensures survives { Survives (state S.Store conn.old) (state S.Store conn.new) (λ _. ⊥) }
{
    settle(conn);
    let answer = requests_from(alloc, conn, from, most);
    let rows = match answer {
        Ok(rows) => rows,
        Err(error) => {
            let fault = cause(conn, &error);
            settle(conn);
            return Err(fault);
        }
    };
    match read_entries(alloc, &rows) {
        Ok(entries) => Ok(entries),
        Err(fault) => Err(unread(fault)),
    }
}
