//! Stores of schema 1, and stores that are none.
use super::Ended;
use super::deeds::{After, Deed};
use super::files::{Fused, in_files, new_files};
use super::rows::{AT_THE_HOUR, FIRST, LOCKED};
use super::tasks::{Deliver, adopted, over};
use crate::fixtures::check;
use builder_store::OpenFault;
use sqlite::{Alter, Connection, Error, MemStore};
use std::alloc::Global;
use std::test::Fail;
use test_fixtures::rows::WorkedRow;

/// What makes a store of schema 1: its tables, and what they hold once a moved partition's hour has
/// come. Of four partitions the last one has gone to device 2.
static OLD_STORE: [&str; 16] = [
    "CREATE TABLE meta (one INTEGER NOT NULL, schema INTEGER NOT NULL, \
     hour INTEGER NOT NULL, UNIQUE (one)) STRICT",
    "CREATE TABLE ring (name TEXT NOT NULL, power INTEGER NOT NULL, \
     replicas INTEGER NOT NULL, min_hours INTEGER NOT NULL, \
     next_id INTEGER NOT NULL, version INTEGER NOT NULL, PRIMARY KEY (name)) STRICT",
    "CREATE TABLE device (ring TEXT NOT NULL REFERENCES ring (name), \
     id INTEGER NOT NULL, region INTEGER NOT NULL, zone INTEGER NOT NULL, \
     address TEXT NOT NULL, port INTEGER NOT NULL, name TEXT NOT NULL, \
     weight INTEGER NOT NULL, removed INTEGER NOT NULL, PRIMARY KEY (ring, id), \
     UNIQUE (ring, address, port, name)) STRICT",
    "CREATE TABLE seat (ring TEXT NOT NULL, part INTEGER NOT NULL, \
     replica INTEGER NOT NULL, device INTEGER NOT NULL, \
     PRIMARY KEY (ring, part, replica), UNIQUE (ring, part, device), \
     FOREIGN KEY (ring, device) REFERENCES device (ring, id)) STRICT",
    "CREATE TABLE moved (ring TEXT NOT NULL REFERENCES ring (name), \
     part INTEGER NOT NULL, hour INTEGER NOT NULL, PRIMARY KEY (ring, part)) STRICT",
    "CREATE TABLE published (ring TEXT NOT NULL REFERENCES ring (name), \
     version INTEGER NOT NULL, body TEXT NOT NULL, \
     PRIMARY KEY (ring, version)) STRICT",
    "CREATE TABLE request (caller TEXT NOT NULL, number INTEGER NOT NULL, \
     place INTEGER NOT NULL, hour INTEGER NOT NULL, command TEXT NOT NULL, \
     reply TEXT NOT NULL, PRIMARY KEY (caller, number), UNIQUE (place)) STRICT",
    "INSERT INTO meta VALUES (1, 1, 24)",
    "INSERT INTO ring VALUES ('object', 2, 1, 24, 3, 6)",
    "INSERT INTO device VALUES ('object', 0, 1, 1, '10.0.0.1', 6200, 'd0', 10000, 0), \
     ('object', 1, 1, 1, '10.0.0.2', 6200, 'd1', 10000, 0), \
     ('object', 2, 1, 1, '10.0.0.3', 6200, 'd2', 10000, 0)",
    "INSERT INTO seat VALUES ('object', 0, 0, 0), ('object', 1, 0, 1), \
     ('object', 2, 0, 0), ('object', 3, 0, 2)",
    "INSERT INTO moved VALUES ('object', 0, 0), ('object', 1, 0), \
     ('object', 2, 0), ('object', 3, 24)",
    "INSERT INTO request VALUES \
     ('ops', 1, 0, 0, '{\"do\":\"create\",\"min_hours\":24,\"power\":2,\"replicas\":1,\"ring\":\"object\"}', \
     '{\"done\":\"create\",\"version\":0}'), \
     ('ops', 2, 1, 0, '{\"address\":\"10.0.0.1\",\"do\":\"add\",\"name\":\"d0\",\"port\":6200,\"region\":1,\"ring\":\"object\",\"weight\":\"100.00\",\"zone\":1}', \
     '{\"done\":\"add\",\"id\":0,\"version\":1}'), \
     ('ops', 3, 2, 0, '{\"address\":\"10.0.0.2\",\"do\":\"add\",\"name\":\"d1\",\"port\":6200,\"region\":1,\"ring\":\"object\",\"weight\":\"100.00\",\"zone\":1}', \
     '{\"done\":\"add\",\"id\":1,\"version\":2}'), \
     ('ops', 4, 3, 0, '{\"do\":\"rebalance\",\"ring\":\"object\",\"seed\":7}', \
     '{\"balance\":0,\"changed\":4,\"dispersion\":0,\"done\":\"rebalance\",\"version\":3}')",
    "INSERT INTO request VALUES \
     ('ops', 5, 4, 1, '{\"address\":\"10.0.0.3\",\"do\":\"add\",\"name\":\"d2\",\"port\":6200,\"region\":1,\"ring\":\"object\",\"weight\":\"100.00\",\"zone\":1}', \
     '{\"done\":\"add\",\"id\":2,\"version\":4}'), \
     ('ops', 6, 5, 23, '{\"do\":\"rebalance\",\"ring\":\"object\",\"seed\":7}', \
     '{\"balance\":10000,\"changed\":0,\"dispersion\":0,\"done\":\"rebalance\",\"version\":5}')",
    "INSERT INTO request VALUES \
     ('ops', 7, 6, 24, '{\"do\":\"rebalance\",\"ring\":\"object\",\"seed\":7}', \
     '{\"balance\":5000,\"changed\":1,\"dispersion\":0,\"done\":\"rebalance\",\"version\":6}')",
    "INSERT INTO published VALUES ('object', 5, 'swift-ring-text 1\nring object\nversion 5\n\
     power 2\nreplicas 1\ndevices 3\n0 1 1 10.0.0.1 6200 100.00 present d0\n\
     1 1 1 10.0.0.2 6200 100.00 present d1\n2 1 1 10.0.0.3 6200 100.00 present d2\n\
     seats\n0\n1\n0\n1\nend\n')",
];

/// What comes then.
static LATER: [WorkedRow<'static>; 1] = [(
    24,
    8,
    "'do':'rebalance','seed':7",
    "200 {'balance':5000,'changed':0,'dispersion':0,'done':'rebalance','version':7}",
)];

/// Changes of one of which no store is left.
static BREAKS: [&str; 17] = [
    "UPDATE meta SET schema = 3",
    "UPDATE meta SET hour = 23",
    "DELETE FROM meta",
    "DELETE FROM seat WHERE part = 3",
    "INSERT INTO seat VALUES ('object', 4, 0, 0)",
    "INSERT INTO moved VALUES ('object', 4, 0)",
    "UPDATE request SET place = 9 WHERE number = 7",
    "UPDATE request SET command = '{\"ring\":\"object\",\"do\":\"rebalance\",\"seed\":7}' WHERE number = 7",
    "UPDATE request SET command = '{}' WHERE number = 7",
    "UPDATE request SET reply = '{\"done\":\"rebalance\"}' WHERE number = 7",
    "UPDATE ring SET next_id = 2",
    "UPDATE device SET weight = -1 WHERE id = 0",
    "INSERT INTO ring VALUES ('Upper', 2, 1, 24, 0, 0)",
    "UPDATE device SET removed = 2 WHERE id = 0",
    "UPDATE published SET version = 4",
    "UPDATE published SET body = 'text'",
    "UPDATE published SET body = 'swift-ring-text 1\nring other\nversion 5\n\
     power 2\nreplicas 1\ndevices 3\n0 1 1 10.0.0.1 6200 100.00 present d0\n\
     1 1 1 10.0.0.2 6200 100.00 present d1\n2 1 1 10.0.0.3 6200 100.00 present d2\n\
     seats\n0\n1\n0\n1\nend\n'",
];

/// Changes of one of which a text in the rows is no UTF-8.
static BAD_TEXTS: [&str; 3] = [
    "UPDATE request SET command = CAST(x'7b22ff22' AS TEXT) WHERE number = 7",
    "UPDATE request SET caller = CAST(x'6fff73' AS TEXT) WHERE number = 7",
    "INSERT INTO published VALUES ('object', 6, CAST(x'ff' AS TEXT))",
];

/// A table that is none of a store.
static OTHER_TABLES: [&str; 1] = ["CREATE TABLE other (one INTEGER NOT NULL) STRICT"];

/// Carries out the statements that make a store of schema 1.
fn execute_old<S: Alter + Drop>(conn: &mut Connection<S>) -> Result<(), Error> {
    for text in &OLD_STORE {
        conn.execute(text, &[])?;
    }
    Ok(())
}

/// Makes a store of schema 1.
#[derive(Clone, Copy)]
struct MakeOld;

impl Deed for MakeOld {
    type Outcome = ();

    fn done_over<S: Alter + Drop>(
        &self,
        _alloc: Global,
        conn: Connection<S>,
    ) -> Option<((), After<S>)> {
        let mut conn = conn;
        execute_old(&mut conn).ok()?;
        Some(((), After::Open(conn)))
    }
}

/// Closed files with a store of schema 1.
pub fn old_files(alloc: Global) -> Option<Fused> {
    let ((), files) = in_files(alloc, new_files(alloc), &MakeOld)?;
    Some(files)
}

/// A connection with a store of schema 1.
fn old_store(alloc: Global) -> Result<Connection<MemStore>, Error> {
    let mut conn = Connection::open_in_memory(alloc)?;
    execute_old(&mut conn)?;
    Ok(conn)
}

/// Whether a store of schema 1 goes on, opened a second time too.
fn goes_on(alloc: Global) -> Option<bool> {
    let kept: [&[WorkedRow]; 3] = [&FIRST, &LOCKED, &AT_THE_HOUR];
    let (first, conn) = over(alloc, old_store(alloc).ok()?, &Deliver(&kept)).ok()?;
    let (again, conn) = over(alloc, conn, &Deliver(&kept)).ok()?;
    let (later, _) = over(alloc, conn, &Deliver(&[&LATER])).ok()?;
    Some(first == Ended::Whole && again == Ended::Whole && later == Ended::Whole)
}

#[test]
fn a_store_of_schema_1_goes_on_as_one_of_schema_2(rt: HostRuntime) -> Result<(), Fail> {
    check(goes_on(rt.alloc()))
}

/// Why a store of schema 1 isn't opened after a change, if it isn't.
fn refused_after(alloc: Global, text: &str) -> Result<Option<OpenFault>, Error> {
    let mut conn = old_store(alloc)?;
    conn.execute(text, &[])?;
    Ok(adopted(alloc, conn).err())
}

/// Fails at the first change after which a store of schema 1 isn't refused for this fault.
fn check_refused(alloc: Global, texts: &[&str], fault: OpenFault) -> Result<(), Fail> {
    for text in texts {
        let found = refused_after(alloc, text)?;
        if found != Some(fault) {
            return Err(Fail::new(format_args!("{text} {found:?}")));
        }
    }
    Ok(())
}

#[test]
fn broken_rows_are_refused(rt: HostRuntime) -> Result<(), Fail> {
    check_refused(rt.alloc(), &BREAKS, OpenFault::BadRows)
}

#[test]
fn texts_that_are_no_utf_8_are_refused(rt: HostRuntime) -> Result<(), Fail> {
    check_refused(rt.alloc(), &BAD_TEXTS, OpenFault::BadTexts)
}

#[test]
fn other_tables_are_refused(rt: HostRuntime) -> Result<(), Fail> {
    check_refused(rt.alloc(), &OTHER_TABLES, OpenFault::BadTables)
}
