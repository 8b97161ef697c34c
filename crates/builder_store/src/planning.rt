//! What a commit writes, and its transaction.
ghost use Rattle.std.specs.Prelude.{◌++◌, ◌≡◌, ◌≢◌, ◌<◌, ◌≤◌, ◌∷◌, [], false, Err, IfOk};
ghost use Rattle.std.specs.Prelude.{List, OnOk};
ghost use Rattle.ring_words.specs.Limits.{most_numbers};
ghost use Rattle.sqlite.specs.Held.{state};
ghost use Rattle.sqlite.specs.State.{HasCleanDisk, Survives};
ghost use Rattle.request_book.specs.declared.keeper.KeepFault.TheVariants.{NoMemory, Store};
ghost use Rattle.store_tables.specs.Contents.{contents_of};
ghost use Rattle.builder_store.specs.Inner.Gains.{GainsIn, IsNextIn, LeadOn, written};
ghost use Rattle.builder_store.specs.Inner.Tables.{HasTables};
ghost use Rattle.store_tables.specs.Store.{CommitsTables, IsStoreWith, SeesStore};
ghost use Rattle.store_rows.specs.Differences.{with_state};
ghost use Rattle.store_rows.specs.Callers.{Bounds};
ghost use Rattle.store_rows.specs.Stands.{DecidedRequest, RingContent, gained};

use crate::calls::{cause, settle};
use request_book::{Entry, KeepFault};
use ring_model::Rings;
use ring_words::{Command, Hour, Reply};
use sqlite::{Alter, Connection, Error};
use std::alloc::{AllocError, Global};
use store_model::RowChange;
use store_rows::laws::one_content;
use store_rows::{Callers, Change, DecidedRows, decided_rows};
use store_tables::{commit_decided, commit_request};

/// What a commit writes: the rows of rings that differ, and those of the request.
#[derive(Drop)]
pub(crate) struct Plan {
    pub(crate) change: Change,
    pub(crate) rows: DecidedRows,
}

/// What a commit of a request writes that is the next in a book of `count` requests and leads from
/// the old rings to the new. Written over what stands for a content, it is what stands for the
/// content with the request and the new rings.
pub(crate) fn planned(
    alloc: Global,
    old: &Rings,
    new: &Rings,
    count: u32,
    entry: &Entry<Command, Reply>,
) -> Result<Plan, AllocError>
    requires { count < most_numbers }
    ensures { IfOk result (λ plan. (content : RingContent) → IsNextIn content old.now new.now count
        entry.now → LeadOn content (gained (with_state content new.now) entry.now) plan.change.0
        plan.rows.request plan.rows.meta) }
{
    let change = Change::between(alloc, &entry.command.ring, old, new)?;
    let rows = decided_rows(
        alloc,
        count,
        &entry.key,
        entry.hour,
        &entry.command,
        &entry.reply,
    )?;
    Ok(Plan { change, rows })
}

/// Makes the changes and keeps the request, in one transaction. The row on the whole store is
/// written where its hour is another.
fn commit_rows<S: Alter>(
    conn: &mut Connection<S>,
    changes: &[RowChange],
    rows: &DecidedRows,
    is_same_hour: bool,
) -> Result<(), Error>
    requires mode { conn.old.in_transaction ≡ false }
    requires store { SeesStore (state S.Store conn.old) }
    ensures mode { conn.new.in_transaction ≡ false }
    ensures commits { CommitsTables (state S.Store conn.old) (state S.Store conn.new) result
        (written is_same_hour (contents_of (state S.Store conn.old).now.trees) changes.now
        rows.now.request rows.now.meta) }
{
    if is_same_hour {
        return commit_request(conn, changes, &rows.request);
    }
    commit_decided(conn, changes, &rows.request, &rows.meta)
}

/// Makes the changes and keeps the request, in one transaction.
fn write<S: Alter>(
    conn: &mut Connection<S>,
    changes: &[RowChange],
    rows: &DecidedRows,
    is_same_hour: bool,
) -> Result<(), KeepFault>
    requires mode { conn.old.in_transaction ≡ false }
    requires tables { HasCleanDisk (state S.Store conn.old) → HasTables (state S.Store conn.old) }
    ensures mode { conn.new.in_transaction ≡ false }
    ensures tables { HasCleanDisk (state S.Store conn.new) → result ≢ Err Store
        → HasTables (state S.Store conn.new) }
    ensures done { HasCleanDisk (state S.Store conn.new)
        → OnOk result (IsStoreWith (written is_same_hour
        (contents_of (state S.Store conn.old).committed.trees) changes.now rows.now.request
        rows.now.meta) (state S.Store conn.new).committed.trees) }
    ensures none { HasCleanDisk (state S.Store conn.new) → result ≡ Err NoMemory
        → (state S.Store conn.new).committed ≡ (state S.Store conn.old).committed }
    ensures survives { Survives (state S.Store conn.old) (state S.Store conn.new)
        (IsStoreWith (written is_same_hour (contents_of (state S.Store conn.old).committed.trees)
        changes.now rows.now.request rows.now.meta)) }
{
    settle(conn);
    let done = commit_rows(conn, changes, rows, is_same_hour);
    match done {
        Ok(()) => Ok(()),
        Err(error) => Err(cause(conn, &error)),
    }
}

/// Keeps a decided request with the rings that it leads to, in one transaction, where the greatest
/// hour so far is this one, and notes its key. All that it needs of memory besides the store's own
/// is asked for before.
///
/// The key is noted before anything is written, and stays noted where it is not kept.
pub(crate) fn keep<S: Alter>(
    alloc: Global,
    conn: &mut Connection<S>,
    callers: &mut Callers,
    old: &Rings,
    new: &Rings,
    count: usize,
    limit: u32,
    hour: Hour,
    entry: &Entry<Command, Reply>,
) -> Result<(), KeepFault>
    requires mode { conn.old.in_transaction ≡ false }
    requires tables { HasCleanDisk (state S.Store conn.old) → HasTables (state S.Store conn.old) }
    requires small { limit ≤ most_numbers }
    ensures mode { conn.new.in_transaction ≡ false }
    ensures tables { HasCleanDisk (state S.Store conn.new) → result ≢ Err Store
        → HasTables (state S.Store conn.new) }
    ensures room { OnOk result (count < limit) }
    ensures noted { OnOk result ((book : List DecidedRequest) → Bounds callers.old book
        → Bounds callers.new (book ++ entry.now ∷ [])) }
    ensures bounds { (book : List DecidedRequest) → Bounds callers.old book
        → Bounds callers.new book }
    ensures done { HasCleanDisk (state S.Store conn.new)
        → OnOk result (GainsIn (state S.Store conn.old).committed.trees old.now count limit hour
        entry.now new.now
        (state S.Store conn.new).committed.trees) }
    ensures none { HasCleanDisk (state S.Store conn.new) → result ≡ Err NoMemory
        → (state S.Store conn.new).committed ≡ (state S.Store conn.old).committed }
    ensures survives { Survives (state S.Store conn.old) (state S.Store conn.new)
        (GainsIn (state S.Store conn.old).committed.trees old.now count limit hour entry.now
        new.now) }
{
    one_content();
    // While the keeper is sound, the book that asks has found room.
    if count >= limit as usize {
        return Err(KeepFault::Store);
    }
    callers.note(&entry.key)?;
    let Ok(plan) = planned(alloc, old, new, count as u32, entry) else {
        return Err(KeepFault::NoMemory);
    };
    write(conn, plan.change.rows(), &plan.rows, entry.hour == hour)
}
