//! The statements that write.

ghost use Rattle.std.specs.Prelude.{◌≡◌, ◌<◌, IfOk, OnOk, ℕ, Ok};
ghost use Rattle.sqlite.specs.Held.{state};
ghost use Rattle.sqlite.specs.State.{Executes, HasCleanDisk, KeepsCommit, Survives};
ghost use Rattle.sqlite.specs.Values.{bound};
ghost use Rattle.store_model.specs.Contents.{device_key, device_of, published_of, request_of};
ghost use Rattle.store_model.specs.Contents.{with_device_row, with_published_row, with_request};
ghost use Rattle.store_model.specs.Contents.{without_device, without_moved, without_seats};
ghost use Rattle.store_tables.specs.Contents.{contents_of};
ghost use Rattle.store_tables.specs.Failing.{FailsForCause};
ghost use Rattle.store_tables.specs.Inner.Writing.{Writes, WritesOver};
ghost use Rattle.store_tables.specs.Store.{Becomes, SeesStore};

use sqlite::types::ValueRef;
use sqlite::{Alter, Error, Transaction, params};
use store_model::{DeviceKey, DeviceRow, MetaRow, PartRow, PublishedRow, RequestRow, RingRow};

/// Runs a statement within the transaction.
pub(crate) fn run<S: Alter>(
    tx: &mut Transaction<'_, S>,
    sql: &str,
    params: &[ValueRef<'_>],
) -> Result<(), Error>
    ensures same_reference { tx.new.conn.ghost_name ≡ tx.old.conn.ghost_name }
    ensures done { HasCleanDisk (state S.Store tx.new.conn.now) → OnOk result ((count : ℕ)
        × Executes sql.now (bound params.now) (state S.Store tx.old.conn.now)
        (state S.Store tx.new.conn.now) (Ok count)) }
    ensures inside { HasCleanDisk (state S.Store tx.new.conn.now)
        → OnOk result (tx.new.conn.now.in_transaction ≡ tx.old.conn.now.in_transaction) }
    ensures kept { HasCleanDisk (state S.Store tx.new.conn.now)
        → KeepsCommit (state S.Store tx.old.conn.now) (state S.Store tx.new.conn.now) }
    ensures survives { Survives (state S.Store tx.old.conn.now) (state S.Store tx.new.conn.now)
        (λ _. ⊥) }
    ensures cause { FailsForCause (state S.Store tx.old.conn.now)
        (state S.Store tx.new.conn.now) result }
{
    tx.execute(sql, params)?;
    Ok(())
}

/// Runs a statement within the transaction, and tells how many rows it wrote.
fn count<S: Alter>(
    tx: &mut Transaction<'_, S>,
    sql: &str,
    params: &[ValueRef<'_>],
) -> Result<usize, Error>
    ensures same_reference { tx.new.conn.ghost_name ≡ tx.old.conn.ghost_name }
    ensures done { HasCleanDisk (state S.Store tx.new.conn.now) → IfOk result (λ count.
        Executes sql.now (bound params.now) (state S.Store tx.old.conn.now)
        (state S.Store tx.new.conn.now) (Ok count)) }
    ensures inside { HasCleanDisk (state S.Store tx.new.conn.now)
        → OnOk result ((state S.Store tx.new.conn.now).in_transaction
        ≡ (state S.Store tx.old.conn.now).in_transaction) }
    ensures kept { HasCleanDisk (state S.Store tx.new.conn.now)
        → KeepsCommit (state S.Store tx.old.conn.now) (state S.Store tx.new.conn.now) }
    ensures survives { Survives (state S.Store tx.old.conn.now) (state S.Store tx.new.conn.now)
        (λ _. ⊥) }
    ensures cause { FailsForCause (state S.Store tx.old.conn.now)
        (state S.Store tx.new.conn.now) result }
{
    tx.execute(sql, params)
}

/// A row that is written over the one with its key, or beside the others.
pub(crate) trait Replaces {
    ghost use Rattle.store_model.specs.Contents.{Contents};

    /// The contents with this row, in place of one with its key.
    ghost with_row: { Contents → Self → Contents };

    /// Writes it over the row with its key, and tells how many rows that were: 1, or 0, and then
    /// nothing changed. No clause says that a 0 means that there is none: where one is there, the
    /// next statement writes over it or is refused, and then nothing is done.
    fn set<S: Alter>(&self, tx: &mut Transaction<'_, S>) -> Result<usize, Error>
        requires { SeesStore (state S.Store tx.old.conn.now) }
        ensures same_reference { tx.new.conn.ghost_name ≡ tx.old.conn.ghost_name }
        ensures set { WritesOver (state S.Store tx.old.conn.now) (state S.Store tx.new.conn.now)
            result (λ c. with_row c self.now) }
        ensures inside { HasCleanDisk (state S.Store tx.new.conn.now)
            → OnOk result ((state S.Store tx.new.conn.now).in_transaction
            ≡ (state S.Store tx.old.conn.now).in_transaction) }
        ensures kept { HasCleanDisk (state S.Store tx.new.conn.now)
            → KeepsCommit (state S.Store tx.old.conn.now) (state S.Store tx.new.conn.now) }
        ensures survives { Survives (state S.Store tx.old.conn.now) (state S.Store tx.new.conn.now)
            (λ _. ⊥) }
        ensures cause { FailsForCause (state S.Store tx.old.conn.now)
            (state S.Store tx.new.conn.now) result };

    /// Puts it beside the rows that are there.
    fn add<S: Alter>(&self, tx: &mut Transaction<'_, S>) -> Result<(), Error>
        requires { SeesStore (state S.Store tx.old.conn.now) }
        ensures same_reference { tx.new.conn.ghost_name ≡ tx.old.conn.ghost_name }
        ensures writes { Writes (state S.Store tx.old.conn.now) (state S.Store tx.new.conn.now) result
            (λ c. with_row c self.now) }
        ensures cause { FailsForCause (state S.Store tx.old.conn.now)
            (state S.Store tx.new.conn.now) result };
}

impl Replaces for MetaRow {
    ghost use Rattle.store_model.specs.Contents.{meta_of, with_meta_row};

    ghost with_row = { λ c row. with_meta_row c (meta_of row).0 (meta_of row).1 };

    fn set<S: Alter>(&self, tx: &mut Transaction<'_, S>) -> Result<usize, Error> {
        count(
            tx,
            "UPDATE meta SET schema = ?2, hour = ?3 WHERE one = ?1",
            params![&self.one, &self.schema, &self.hour],
        )
    }

    fn add<S: Alter>(&self, tx: &mut Transaction<'_, S>) -> Result<(), Error> {
        run(
            tx,
            "INSERT OR REPLACE INTO meta VALUES (?1, ?2, ?3)",
            params![&self.one, &self.schema, &self.hour],
        )
    }
}

impl Replaces for RingRow {
    ghost use Rattle.store_model.specs.Contents.{ring_of, with_ring_row};

    ghost with_row = { λ c row. with_ring_row c (ring_of row).0 (ring_of row).1 };

    fn set<S: Alter>(&self, tx: &mut Transaction<'_, S>) -> Result<usize, Error> {
        count(
            tx,
            "UPDATE ring SET power = ?2, replicas = ?3, min_hours = ?4, next_id = ?5, version = ?6 \
             WHERE name = ?1",
            params![
                &self.name,
                &self.power,
                &self.replicas,
                &self.min_hours,
                &self.next_id,
                &self.version
            ],
        )
    }

    fn add<S: Alter>(&self, tx: &mut Transaction<'_, S>) -> Result<(), Error> {
        run(
            tx,
            "INSERT OR REPLACE INTO ring VALUES (?1, ?2, ?3, ?4, ?5, ?6)",
            params![
                &self.name,
                &self.power,
                &self.replicas,
                &self.min_hours,
                &self.next_id,
                &self.version
            ],
        )
    }
}

impl Replaces for PartRow {
    ghost use Rattle.store_model.specs.Contents.{part_of, with_part};

    ghost with_row = { λ c row. with_part c (part_of row).0 (part_of row).1 };

    fn set<S: Alter>(&self, tx: &mut Transaction<'_, S>) -> Result<usize, Error> {
        count(
            tx,
            "UPDATE part SET devices = ?3, hour = ?4 WHERE ring = ?1 AND part = ?2",
            params![&self.ring, &self.part, &self.devices, &self.hour],
        )
    }

    fn add<S: Alter>(&self, tx: &mut Transaction<'_, S>) -> Result<(), Error> {
        run(
            tx,
            "INSERT INTO part VALUES (?1, ?2, ?3, ?4)",
            params![&self.ring, &self.part, &self.devices, &self.hour],
        )
    }
}

/// Puts a row, in place of the one with its key.
///
/// A row that is there is written over: to take it out and put another in its place would change
/// its entry in the index too.
pub(crate) fn put<T: Replaces, S: Alter>(tx: &mut Transaction<'_, S>, row: &T) -> Result<(), Error>
    requires { SeesStore (state S.Store tx.old.conn.now) }
    ensures same_reference { tx.new.conn.ghost_name ≡ tx.old.conn.ghost_name }
    ensures writes { Writes (state S.Store tx.old.conn.now) (state S.Store tx.new.conn.now) result
        (λ c. T.with_row c row.now) }
    ensures cause { FailsForCause (state S.Store tx.old.conn.now)
        (state S.Store tx.new.conn.now) result }
{
    let set = row.set(tx)?;
    if set > 0 {
        return Ok(());
    }
    row.add(tx)
}

/// Puts a published text, in place of the one with its key. Its ring has to be there.
pub(crate) fn put_published<S: Alter>(
    tx: &mut Transaction<'_, S>,
    row: &PublishedRow,
) -> Result<(), Error>
    requires { SeesStore (state S.Store tx.old.conn.now) }
    ensures same_reference { tx.new.conn.ghost_name ≡ tx.old.conn.ghost_name }
    ensures writes { Writes (state S.Store tx.old.conn.now) (state S.Store tx.new.conn.now) result
        (λ c. with_published_row c (published_of row.now).0 (published_of row.now).1) }
    ensures cause { FailsForCause (state S.Store tx.old.conn.now)
        (state S.Store tx.new.conn.now) result }
{
    run(
        tx,
        "INSERT OR REPLACE INTO published VALUES (?1, ?2, ?3)",
        params![&row.ring, &row.version, row.body.as_str()],
    )
}

/// Adds a device. Its ring has to be there. No row may have its key, nor its address, port and
/// name in the ring, else it is refused.
pub(crate) fn add_device<S: Alter>(
    tx: &mut Transaction<'_, S>,
    row: &DeviceRow,
) -> Result<(), Error>
    requires { SeesStore (state S.Store tx.old.conn.now) }
    ensures same_reference { tx.new.conn.ghost_name ≡ tx.old.conn.ghost_name }
    ensures writes { Writes (state S.Store tx.old.conn.now) (state S.Store tx.new.conn.now) result
        (λ c. with_device_row c (device_of row.now).0 (device_of row.now).1) }
    ensures cause { FailsForCause (state S.Store tx.old.conn.now)
        (state S.Store tx.new.conn.now) result }
{
    run(
        tx,
        "INSERT INTO device VALUES (?1, ?2, ?3, ?4, ?5, ?6, ?7, ?8, ?9)",
        params![
            &row.ring,
            &row.id,
            &row.region,
            &row.zone,
            &row.address,
            &row.port,
            &row.name,
            &row.weight,
            &row.removed
        ],
    )
}

/// Adds a request. Its number has to be new to the caller, and its place to all, else it is
/// refused.
pub(crate) fn add_request<S: Alter>(
    tx: &mut Transaction<'_, S>,
    row: &RequestRow,
) -> Result<(), Error>
    requires { SeesStore (state S.Store tx.old.conn.now) }
    ensures same_reference { tx.new.conn.ghost_name ≡ tx.old.conn.ghost_name }
    ensures writes { Writes (state S.Store tx.old.conn.now) (state S.Store tx.new.conn.now) result
        (λ c. with_request c (request_of row.now).0 (request_of row.now).1) }
{
    run(
        tx,
        "INSERT INTO request VALUES (?1, ?2, ?3, ?4, ?5, ?6)",
        params![
            &row.caller,
            &row.number,
            &row.place,
            &row.hour,
            &row.command,
            &row.reply
        ],
    )
}

/// Takes out the device with this key, if there is one.
pub(crate) fn drop_device<S: Alter>(
    tx: &mut Transaction<'_, S>,
    key: &DeviceKey,
) -> Result<(), Error>
    requires { SeesStore (state S.Store tx.old.conn.now) }
    ensures same_reference { tx.new.conn.ghost_name ≡ tx.old.conn.ghost_name }
    ensures writes { Writes (state S.Store tx.old.conn.now) (state S.Store tx.new.conn.now) result
        (λ c. without_device c (device_key key.now)) }
    ensures cause { FailsForCause (state S.Store tx.old.conn.now)
        (state S.Store tx.new.conn.now) result }
{
    run(
        tx,
        "DELETE FROM device WHERE ring = ?1 AND id = ?2",
        params![&key.ring, &key.id],
    )
}

/// Takes out all seats of schema 1.
pub(crate) fn clear_seats<S: Alter>(tx: &mut Transaction<'_, S>) -> Result<(), Error>
    requires { SeesStore (state S.Store tx.old.conn.now) }
    ensures same_reference { tx.new.conn.ghost_name ≡ tx.old.conn.ghost_name }
    ensures writes { Writes (state S.Store tx.old.conn.now) (state S.Store tx.new.conn.now) result
        (λ c. without_seats c) }
    ensures cause { FailsForCause (state S.Store tx.old.conn.now)
        (state S.Store tx.new.conn.now) result }
{
    run(tx, "DELETE FROM seat", &[])
}

/// Takes out all hours of moves of schema 1.
pub(crate) fn clear_moved<S: Alter>(tx: &mut Transaction<'_, S>) -> Result<(), Error>
    requires { SeesStore (state S.Store tx.old.conn.now) }
    ensures same_reference { tx.new.conn.ghost_name ≡ tx.old.conn.ghost_name }
    ensures writes { Writes (state S.Store tx.old.conn.now) (state S.Store tx.new.conn.now) result
        (λ c. without_moved c) }
    ensures cause { FailsForCause (state S.Store tx.old.conn.now)
        (state S.Store tx.new.conn.now) result }
{
    run(tx, "DELETE FROM moved", &[])
}
