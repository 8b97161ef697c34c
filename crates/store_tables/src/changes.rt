//! Changes of many rows, and the transaction that keeps a decided request.

ghost use Rattle.std.specs.Prelude.{◌≡◌, ◌≤◌, false};
ghost use Rattle.store_tables.specs.Tables.{table_count};
ghost use Rattle.sqlite.specs.Held.{state};
ghost use Rattle.store_model.specs.Changes.{with_change, changed_all, prepared, with_decided};
ghost use Rattle.store_model.specs.Changes.{with_kept};
ghost use Rattle.sqlite.specs.State.{HasCleanDisk};
ghost use Rattle.store_tables.specs.Contents.{contents_of};
ghost use Rattle.store_tables.specs.Failing.{FailsForCause};
ghost use Rattle.store_tables.specs.Inner.Writing.{Writes};
ghost use Rattle.store_tables.specs.Store.{CommitsTables, HasMadeTables, Reaches, SeesStore};
ghost use Rattle.store_tables.specs.Store.{begun_contents};

use crate::creating::create_missing;
use crate::writes::{
    Replaces, add_device, add_request, clear_moved, clear_seats, drop_device, put, put_published,
};
use sqlite::{Alter, Connection, Error, Transaction};
use store_model::{MetaRow, RequestRow, RowChange};

/// Makes one change.
fn apply_one<S: Alter>(tx: &mut Transaction<'_, S>, change: &RowChange) -> Result<(), Error>
    requires { SeesStore (state S.Store tx.old.conn.now) }
    ensures same_reference { tx.new.conn.ghost_name ≡ tx.old.conn.ghost_name }
    ensures writes { Writes (state S.Store tx.old.conn.now) (state S.Store tx.new.conn.now) result
        (λ c. with_change c change.now) }
    ensures cause { FailsForCause (state S.Store tx.old.conn.now)
        (state S.Store tx.new.conn.now) result }
{
    match change {
        RowChange::DropDevice(key) => drop_device(tx, key),
        RowChange::PutRing(row) => put(tx, row),
        RowChange::AddDevice(row) => add_device(tx, row),
        RowChange::PutPart(row) => put(tx, row),
        RowChange::AddPart(row) => row.add(tx),
        RowChange::PutPublished(row) => put_published(tx, row),
    }
}

/// Makes the changes in their order, up to the first that fails.
pub(crate) fn apply<S: Alter>(
    tx: &mut Transaction<'_, S>,
    changes: &[RowChange],
) -> Result<(), Error>
    requires { SeesStore (state S.Store tx.old.conn.now) }
    ensures same_reference { tx.new.conn.ghost_name ≡ tx.old.conn.ghost_name }
    ensures writes { Writes (state S.Store tx.old.conn.now) (state S.Store tx.new.conn.now) result
        (λ c. changed_all c changes.now) }
    ensures cause { FailsForCause (state S.Store tx.old.conn.now)
        (state S.Store tx.new.conn.now) result }
{
    'changes: for change in changes {
        apply_one(tx, change)?;
    }
    Ok(())
}

/// Makes the changes, adds the request and puts the row on the whole store.
fn write_decided<S: Alter>(
    tx: &mut Transaction<'_, S>,
    changes: &[RowChange],
    request: &RequestRow,
    meta: &MetaRow,
) -> Result<(), Error>
    requires { SeesStore (state S.Store tx.old.conn.now) }
    ensures same_reference { tx.new.conn.ghost_name ≡ tx.old.conn.ghost_name }
    ensures writes { Writes (state S.Store tx.old.conn.now) (state S.Store tx.new.conn.now) result
        (λ c. with_decided (changed_all c changes.now) request.now meta.now) }
{
    apply(tx, changes)?;
    add_request(tx, request)?;
    put(tx, meta)
}

/// Keeps a decided request with the changes that it made, in one transaction: all of it or
/// nothing, also over a crash. An `OutOfMemory` may come with the commit on the disk, or with the
/// store shut.
pub fn commit_decided<S: Alter>(
    conn: &mut Connection<S>,
    changes: &[RowChange],
    request: &RequestRow,
    meta: &MetaRow,
) -> Result<(), Error>
    requires mode { conn.old.in_transaction ≡ false }
    requires store { SeesStore (state S.Store conn.old) }
    ensures mode { conn.new.in_transaction ≡ false }
    ensures commits { CommitsTables (state S.Store conn.old) (state S.Store conn.new) result
        (with_decided (changed_all (contents_of (state S.Store conn.old).now.trees)
        changes.now) request.now meta.now) }
{
    let mut tx = conn.transaction();
    write_decided(&mut tx, changes, request, meta)?;
    tx.commit()
}

/// Makes the changes and adds the request.
fn write_request<S: Alter>(
    tx: &mut Transaction<'_, S>,
    changes: &[RowChange],
    request: &RequestRow,
) -> Result<(), Error>
    requires { SeesStore (state S.Store tx.old.conn.now) }
    ensures same_reference { tx.new.conn.ghost_name ≡ tx.old.conn.ghost_name }
    ensures writes { Writes (state S.Store tx.old.conn.now) (state S.Store tx.new.conn.now) result
        (λ c. with_kept (changed_all c changes.now) request.now) }
{
    apply(tx, changes)?;
    add_request(tx, request)
}

/// Keeps a decided request as `commit_decided` does, where the row on the whole store stays.
pub fn commit_request<S: Alter>(
    conn: &mut Connection<S>,
    changes: &[RowChange],
    request: &RequestRow,
) -> Result<(), Error>
    requires mode { conn.old.in_transaction ≡ false }
    requires store { SeesStore (state S.Store conn.old) }
    ensures mode { conn.new.in_transaction ≡ false }
    ensures commits { CommitsTables (state S.Store conn.old) (state S.Store conn.new) result
        (with_kept (changed_all (contents_of (state S.Store conn.old).now.trees) changes.now)
        request.now) }
{
    let mut tx = conn.transaction();
    write_request(&mut tx, changes, request)?;
    tx.commit()
}

/// Makes the missing tables and the changes, takes out the rows of schema 1, and puts the row on
/// the whole store.
fn write_prepared<S: Alter>(
    tx: &mut Transaction<'_, S>,
    made: usize,
    changes: &[RowChange],
    meta: &MetaRow,
) -> Result<(), Error>
    requires within { made ≤ table_count }
    requires begun { HasCleanDisk (state S.Store tx.old.conn.now)
        → HasMadeTables made (state S.Store tx.old.conn.now).now }
    ensures same_reference { tx.new.conn.ghost_name ≡ tx.old.conn.ghost_name }
    ensures reaches { Reaches (state S.Store tx.old.conn.now) (state S.Store tx.new.conn.now) result
        (prepared (begun_contents made (state S.Store tx.old.conn.now).now.trees)
        changes.now meta.now) }
    ensures cause { FailsForCause (state S.Store tx.old.conn.now)
        (state S.Store tx.new.conn.now) result }
{
    create_missing(tx, made)?;
    apply(tx, changes)?;
    clear_seats(tx)?;
    clear_moved(tx)?;
    put(tx, meta)
}

/// Makes a store of what is there, in one transaction: makes the tables that are missing, where
/// the first `made` ones are there, makes the changes, takes out the rows of schema 1, and puts
/// the row on the whole store. So a new store is made, and one of schema 1 becomes one of schema
/// 2.
pub fn prepare_store<S: Alter>(
    conn: &mut Connection<S>,
    made: usize,
    changes: &[RowChange],
    meta: &MetaRow,
) -> Result<(), Error>
    requires mode { conn.old.in_transaction ≡ false }
    requires within { made ≤ table_count }
    requires begun { HasCleanDisk (state S.Store conn.old)
        → HasMadeTables made (state S.Store conn.old).now }
    ensures mode { conn.new.in_transaction ≡ false }
    ensures commits { CommitsTables (state S.Store conn.old) (state S.Store conn.new) result
        (prepared (begun_contents made (state S.Store conn.old).now.trees) changes.now meta.now) }
    ensures cause { FailsForCause (state S.Store conn.old) (state S.Store conn.new) result }
{
    let mut tx = conn.transaction();
    write_prepared(&mut tx, made, changes, meta)?;
    tx.commit()
}
