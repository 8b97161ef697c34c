//! What is there when a connection is taken over.

ghost use Rattle.std.specs.Prelude.{◌≡◌, ◌≤◌, ◌↔◌, IfErr, IfOk, IfSome, IsTrue, None, OnOk, false, ℕ};
ghost use Rattle.sqlite.specs.Held.{state};
ghost use Rattle.sqlite.specs.State.{HasCleanDisk};
ghost use Rattle.store_tables.specs.Failing.{FailsForCause, tells_failure};
ghost use Rattle.store_tables.specs.Store.{AreOrdered, HasMadeTables};
ghost use Rattle.store_tables.specs.Tables.{no_tables, schema_of_first, table_count};

use crate::creating::{TABLE_COUNT, create_range};
use crate::matching::are_same;
use sqlite::{Alter, Connection, Error, MemStore};
use std::alloc::Global;

/// Makes the first tables of the store where there is nothing.
fn make_first<S: Alter>(conn: &mut Connection<S>, made: usize) -> Result<(), Error>
    requires mode { conn.old.in_transaction ≡ false }
    requires within { made ≤ table_count }
    requires begun { HasCleanDisk (state S.Store conn.old)
        → HasMadeTables 0 (state S.Store conn.old).now }
    ensures schema { HasCleanDisk (state S.Store conn.new) → OnOk result (conn.new.schema
        ≡ schema_of_first made) }
    ensures cause { FailsForCause (state S.Store conn.old) (state S.Store conn.new) result }
{
    let mut tx = conn.transaction();
    create_range(&mut tx, 0, made)?;
    tx.commit()
}

/// A database in memory that has the first tables of the store.
fn first_tables(alloc: Global, made: usize) -> Result<Connection<MemStore>, Error>
    requires { made ≤ table_count }
    ensures schema { IfOk result (λ c. c.schema ≡ schema_of_first made) }
    ensures unfailed { IfErr result (λ e. tells_failure e ≡ false) }
{
    let mut conn = Connection::open_in_memory(alloc)?;
    make_first(&mut conn, made)?;
    Ok(conn)
}

/// How many of the tables of the store are there, declared as in the store: the first so many in
/// the order in which they are made, and nothing else. None where other things are there, or the
/// tables are declared or ordered otherwise.
pub fn tables_made<S: Alter>(alloc: Global, conn: &Connection<S>) -> Result<Option<usize>, Error>
    ensures declared { IfOk result (λ found. IfSome found (λ made. (made ≤ table_count)
        × (conn.now.schema ≡ schema_of_first made))) }
    ensures missing { IfOk result (λ found. found ≡ None → (made : ℕ) → made ≤ table_count
        → conn.now.schema ≡ schema_of_first made → ⊥) }
    ensures begun { IsTrue (state S.Store conn.now).is_open
        → AreOrdered (state S.Store conn.now).now
        → IfOk result (λ found. IfSome found
        (λ made. HasMadeTables made (state S.Store conn.now).now)) }
    // It is told by a database in memory, which does not fail.
    ensures unfailed { IfErr result (λ e. tells_failure e ≡ false) }
{
    let schema = conn.schema();
    let made = schema.tables.as_slice().len();
    if made > TABLE_COUNT {
        return Ok(None);
    }
    let first = first_tables(alloc, made)?;
    if !are_same(alloc, schema, first.schema())? {
        return Ok(None);
    }
    Ok(Some(made))
}

/// Whether there is nothing yet: no table, no index and no view.
pub fn is_blank<S: Alter>(conn: &Connection<S>) -> bool
    ensures blank { IsTrue result ↔ (conn.now.schema ≡ no_tables) }
    ensures begun { IsTrue result → IsTrue (state S.Store conn.now).is_open
        → HasMadeTables 0 (state S.Store conn.now).now }
{
    let schema = conn.schema();
    schema.tables.as_slice().is_empty()
        && schema.indexes.as_slice().is_empty()
        && schema.views.as_slice().is_empty()
}
