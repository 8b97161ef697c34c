//! Making the tables.

ghost use Rattle.std.specs.Prelude.{◌≡◌, ◌<◌, ◌≤◌, ◌+◌};
ghost use Rattle.store_tables.specs.Tables.{table_count};
ghost use Rattle.sqlite.specs.Held.{state};
ghost use Rattle.sqlite.specs.State.{HasCleanDisk};
ghost use Rattle.store_tables.specs.Failing.{FailsForCause};
ghost use Rattle.store_tables.specs.Store.{HasMadeTables, Reaches, begun_contents};
ghost use Rattle.store_tables.specs.Inner.Making.{MakesTables};
ghost use Rattle.store_tables.specs.Inner.Texts.{create_text as text_of};

use crate::writes::run;
use sqlite::{Alter, Error, Transaction};

/// How many tables a store has.
pub const TABLE_COUNT: usize = 8;

/// The text that makes a table, by how many there are before it.
fn create_text(made: usize) -> &'static str
    requires { made < table_count }
    ensures { result.now ≡ text_of made }
{
    match made {
        0 => {
            "CREATE TABLE meta (one INTEGER NOT NULL, schema INTEGER NOT NULL, \
             hour INTEGER NOT NULL, UNIQUE (one)) STRICT"
        }
        1 => {
            "CREATE TABLE ring (name TEXT NOT NULL, power INTEGER NOT NULL, \
             replicas INTEGER NOT NULL, min_hours INTEGER NOT NULL, \
             next_id INTEGER NOT NULL, version INTEGER NOT NULL, PRIMARY KEY (name)) STRICT"
        }
        2 => {
            "CREATE TABLE device (ring TEXT NOT NULL REFERENCES ring (name), \
             id INTEGER NOT NULL, region INTEGER NOT NULL, zone INTEGER NOT NULL, \
             address TEXT NOT NULL, port INTEGER NOT NULL, name TEXT NOT NULL, \
             weight INTEGER NOT NULL, removed INTEGER NOT NULL, PRIMARY KEY (ring, id), \
             UNIQUE (ring, address, port, name)) STRICT"
        }
        3 => {
            "CREATE TABLE seat (ring TEXT NOT NULL, part INTEGER NOT NULL, \
             replica INTEGER NOT NULL, device INTEGER NOT NULL, \
             PRIMARY KEY (ring, part, replica), UNIQUE (ring, part, device), \
             FOREIGN KEY (ring, device) REFERENCES device (ring, id)) STRICT"
        }
        4 => {
            "CREATE TABLE moved (ring TEXT NOT NULL REFERENCES ring (name), \
             part INTEGER NOT NULL, hour INTEGER NOT NULL, PRIMARY KEY (ring, part)) STRICT"
        }
        5 => {
            "CREATE TABLE published (ring TEXT NOT NULL REFERENCES ring (name), \
             version INTEGER NOT NULL, body TEXT NOT NULL, \
             PRIMARY KEY (ring, version)) STRICT"
        }
        6 => {
            "CREATE TABLE request (caller TEXT NOT NULL, number INTEGER NOT NULL, \
             place INTEGER NOT NULL, hour INTEGER NOT NULL, command TEXT NOT NULL, \
             reply TEXT NOT NULL, PRIMARY KEY (caller, number), UNIQUE (place)) STRICT"
        }
        _ => {
            "CREATE TABLE part (ring TEXT NOT NULL REFERENCES ring (name), \
             part INTEGER NOT NULL, devices BLOB NOT NULL, hour INTEGER NOT NULL, \
             PRIMARY KEY (ring, part)) STRICT"
        }
    }
}

/// Makes the table that comes after the first `made` ones.
fn create_next<S: Alter>(tx: &mut Transaction<'_, S>, made: usize) -> Result<(), Error>
    requires missing { made < table_count }
    requires begun { HasCleanDisk (state S.Store tx.old.conn.now)
        → HasMadeTables made (state S.Store tx.old.conn.now).now }
    ensures same_reference { tx.new.conn.ghost_name ≡ tx.old.conn.ghost_name }
    ensures makes { MakesTables made (made + 1) (state S.Store tx.old.conn.now)
        (state S.Store tx.new.conn.now) result }
    ensures cause { FailsForCause (state S.Store tx.old.conn.now)
        (state S.Store tx.new.conn.now) result }
{
    run(tx, create_text(made), &[])
}

/// Makes the tables that come after the first `made` ones, up to `all` of them.
pub(crate) fn create_range<S: Alter>(
    tx: &mut Transaction<'_, S>,
    made: usize,
    all: usize,
) -> Result<(), Error>
    requires within { (made ≤ all) × (all ≤ table_count) }
    requires begun { HasCleanDisk (state S.Store tx.old.conn.now)
        → HasMadeTables made (state S.Store tx.old.conn.now).now }
    ensures same_reference { tx.new.conn.ghost_name ≡ tx.old.conn.ghost_name }
    ensures makes { MakesTables made all (state S.Store tx.old.conn.now)
        (state S.Store tx.new.conn.now) result }
    ensures cause { FailsForCause (state S.Store tx.old.conn.now)
        (state S.Store tx.new.conn.now) result }
{
    'tables: for at in made..all {
        create_next(tx, at)?;
    }
    Ok(())
}

/// Makes the tables that are missing, where the first `made` ones are there. Those stay as they
/// are, and the others are empty.
pub fn create_missing<S: Alter>(tx: &mut Transaction<'_, S>, made: usize) -> Result<(), Error>
    requires within { made ≤ table_count }
    requires begun { HasCleanDisk (state S.Store tx.old.conn.now)
        → HasMadeTables made (state S.Store tx.old.conn.now).now }
    ensures same_reference { tx.new.conn.ghost_name ≡ tx.old.conn.ghost_name }
    ensures reaches { Reaches (state S.Store tx.old.conn.now) (state S.Store tx.new.conn.now) result
        (begun_contents made (state S.Store tx.old.conn.now).now.trees) }
    ensures cause { FailsForCause (state S.Store tx.old.conn.now)
        (state S.Store tx.new.conn.now) result }
{
    create_range(tx, made, TABLE_COUNT)
}
