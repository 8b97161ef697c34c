//! Opening a store.
ghost use Rattle.std.specs.Prelude.{◌≡◌, ◌≢◌, ◌≤◌, false, Err, IfErr, IfOk, IsErrAnd, OnOk};
ghost use Rattle.store_tables.specs.Tables.{table_count};
ghost use Rattle.sqlite.specs.Held.{state};
ghost use Rattle.sqlite.specs.State.{HasCleanDisk, Survives};
ghost use Rattle.store_tables.specs.Failing.{FailsForCause};
ghost use Rattle.store_tables.specs.Store.{CommitsTables, HasMadeTables, begun_contents};
ghost use Rattle.store_tables.specs.Texts.{AreTexts};
ghost use Rattle.store_rows.specs.Judging.{IsFoundIn};
ghost use Rattle.store_rows.specs.Stands.{RingContent};
ghost use Rattle.builder_store.specs.Opening.{JudgesRows, JudgesTables, OpensAs, no_contents};
ghost use Rattle.builder_store.specs.Inner.Opened.{FailsOnlyFor, LeadsInStore, LeadsTo, OpensRows};
ghost use Rattle.builder_store.specs.Inner.Opened.{completed};
ghost use Rattle.builder_store.specs.Inner.Tables.{HasTables, IsBegunState};
ghost use Rattle.builder_store.specs.declared.fault.OpenFault.TheVariants.{BadRows, BadTables, BadTexts};

use crate::adopting::{fault_of, reading_fault};
use crate::fault::OpenFault;
use crate::reading::{Opened, is_empty, read_rows};
use ring_model::Rings;
use ring_words::{Hour, SpellingFault};
use sqlite::{Alter, Connection, Error};
use std::alloc::Global;
use store_model::RowChange;
use store_rows::laws::nothing_is_holdable;
use store_rows::{Callers, Judged, judge, meta_row};
use store_tables::{TABLE_COUNT, create_missing, prepare_store};

/// Makes the tables that are missing, where the first `made` ones are there, in one transaction. No
/// row is changed.
fn make_missing<S: Alter>(conn: &mut Connection<S>, made: usize) -> Result<(), Error>
    requires mode { conn.old.in_transaction ≡ false }
    requires within { made ≤ table_count }
    requires begun { HasCleanDisk (state S.Store conn.old)
        → HasMadeTables made (state S.Store conn.old).now }
    ensures mode { conn.new.in_transaction ≡ false }
    ensures commits { CommitsTables (state S.Store conn.old) (state S.Store conn.new) result
        (begun_contents made (state S.Store conn.old).now.trees) }
    ensures cause { FailsForCause (state S.Store conn.old) (state S.Store conn.new) result }
{
    let mut tx = conn.transaction();
    create_missing(&mut tx, made)?;
    tx.commit()
}

/// Makes a store of no rings and no request, where the first `made` tables are there and have no
/// row.
fn begin<S: Alter>(
    alloc: Global,
    conn: &mut Connection<S>,
    made: usize,
) -> Result<Opened, OpenFault>
    requires mode { conn.old.in_transaction ≡ false }
    requires within { made ≤ table_count }
    requires begun { HasCleanDisk (state S.Store conn.old)
        → HasMadeTables made (state S.Store conn.old).now }
    ensures mode { conn.new.in_transaction ≡ false }
    ensures other { IfErr result (λ why. JudgesTables why → ⊥) }
    ensures opens { (HasCleanDisk (state S.Store conn.old) → begun_contents made
        (state S.Store conn.old).now.trees ≡ no_contents)
        → OpensRows no_contents (state S.Store conn.old) (state S.Store conn.new) result }
    ensures failed { FailsOnlyFor (state S.Store conn.old) (state S.Store conn.new) result }
{
    nothing_is_holdable();
    let meta = meta_row(0);
    match prepare_store(conn, made, &[], &meta) {
        Ok(()) => Ok(Opened {
            rings: Rings::new(alloc),
            count: 0,
            hour: 0,
            callers: Callers::new(alloc),
        }),
        Err(error) => Err(fault_of(&error)),
    }
}

/// Writes what a judged store lacks, where the first `made` tables are there, in one transaction:
/// the tables that are missing, and the changes that make one of schema 1 one of schema 2. Nothing
/// where it lacks nothing.
fn complete<S: Alter>(
    conn: &mut Connection<S>,
    made: usize,
    migration: Option<Vec<RowChange>>,
    hour: Hour,
) -> Result<(), Error>
    requires mode { conn.old.in_transaction ≡ false }
    requires within { made ≤ table_count }
    requires begun { HasCleanDisk (state S.Store conn.old)
        → IsBegunState made (state S.Store conn.old) }
    ensures mode { conn.new.in_transaction ≡ false }
    ensures commits { CommitsTables (state S.Store conn.old) (state S.Store conn.new) result
        (completed (begun_contents made (state S.Store conn.old).now.trees) hour migration) }
    ensures cause { FailsForCause (state S.Store conn.old) (state S.Store conn.new) result }
{
    if let Some(changes) = migration {
        return prepare_store(conn, made, &changes, &meta_row(hour));
    }
    if made == TABLE_COUNT {
        return Ok(());
    }
    make_missing(conn, made)
}

/// Completes a store that was judged, where the first `made` tables are there, and migrates it where
/// it is of schema 1.
fn migrate<S: Alter>(
    conn: &mut Connection<S>,
    made: usize,
    judged: Judged,
) -> Result<Opened, OpenFault>
    requires mode { conn.old.in_transaction ≡ false }
    requires within { made ≤ table_count }
    requires begun { HasCleanDisk (state S.Store conn.old)
        → IsBegunState made (state S.Store conn.old) }
    ensures mode { conn.new.in_transaction ≡ false }
    ensures other { IfErr result (λ why. JudgesTables why → ⊥) }
    ensures tables { HasCleanDisk (state S.Store conn.new) → OnOk result (HasTables
        (state S.Store conn.new)) }
    ensures found { HasCleanDisk (state S.Store conn.new) → (content : RingContent)
        → IsFoundIn (begun_contents made (state S.Store conn.old).now.trees) content judged
        → IfOk result (LeadsTo (begun_contents made (state S.Store conn.old).now.trees)
        (state S.Store conn.new).committed.trees) }
    ensures survives { Survives (state S.Store conn.old) (state S.Store conn.new)
        (λ trees. (content : RingContent)
        → IsFoundIn (begun_contents made (state S.Store conn.old).now.trees) content judged
        → LeadsInStore (begun_contents made (state S.Store conn.old).now.trees) trees) }
    ensures failed { FailsOnlyFor (state S.Store conn.old) (state S.Store conn.new) result }
{
    let Judged {
        rings,
        count,
        hour,
        callers,
        migration,
    } = judged;
    let opened = Opened {
        rings,
        count,
        hour,
        callers,
    };
    match complete(conn, made, migration, hour) {
        Ok(()) => Ok(opened),
        Err(error) => Err(fault_of(&error)),
    }
}

/// Judges all rows of a store of which the first `made` tables are there. Only where they stand for a
/// content are the other tables made, and is a store of schema 1 migrated, in one transaction.
pub(crate) fn open_rows<S: Alter>(
    alloc: Global,
    conn: &mut Connection<S>,
    made: usize,
) -> Result<Opened, OpenFault>
    requires mode { conn.old.in_transaction ≡ false }
    requires within { made ≤ table_count }
    requires begun { HasCleanDisk (state S.Store conn.old)
        → IsBegunState made (state S.Store conn.old) }
    ensures mode { conn.new.in_transaction ≡ false }
    ensures other { result ≢ Err BadTables }
    ensures opens { OpensRows (begun_contents made (state S.Store conn.old).now.trees)
        (state S.Store conn.old) (state S.Store conn.new) result }
    // Where the rows or their texts are refused, nothing was written.
    ensures quiet { IsErrAnd result JudgesRows
        → Survives (state S.Store conn.old) (state S.Store conn.new) (λ _. ⊥) }
    ensures bad { result ≡ Err BadRows → HasCleanDisk (state S.Store conn.new)
        → (content : RingContent)
        → OpensAs (begun_contents made (state S.Store conn.old).now.trees) content → ⊥ }
    ensures texts { result ≡ Err BadTexts → HasCleanDisk (state S.Store conn.new)
        → AreTexts (begun_contents made (state S.Store conn.old).now.trees) → ⊥ }
    ensures failed { FailsOnlyFor (state S.Store conn.old) (state S.Store conn.new) result }
{
    let rows = match read_rows(alloc, conn, made) {
        Ok(rows) => rows,
        Err(error) => return Err(reading_fault(&error)),
    };
    if is_empty(&rows) {
        return begin(alloc, conn, made);
    }
    match judge(alloc, rows) {
        Ok(judged) => migrate(conn, made, judged),
        Err(SpellingFault::NoMemory) => Err(OpenFault::NoMemory),
        Err(SpellingFault::Bad) => Err(OpenFault::BadRows),
    }
}
