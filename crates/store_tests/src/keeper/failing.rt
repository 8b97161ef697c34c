//! Disks that fail at some call, and are opened again.
use super::Ended;
use super::deeds::{After, Deed};
use super::files::{Fused, try_in_files};
use super::migrating::old_files;
use super::rows::{AT_THE_HOUR, FIRST};
use super::tasks::{Deliver, close_after};
use crate::fixtures::check;
use builder_store::SqlKeeper;
use ring_words::Limits;
use sqlite::{Alter, Connection, Files};
use sqlite_disk::{Disk, Fuse, Memory};
use std::alloc::Global;
use std::test::Fail;
use test_fixtures::rows::WorkedRow;

/// A file of these bytes, which fails after so many calls.
fn fused(alloc: Global, bytes: &[u8], calls: u64) -> Option<Fuse<Memory>> {
    let mut file = Memory::new(alloc);
    file.write_at(0, bytes).ok()?;
    Some(Fuse::new(file, calls))
}

/// A closed file of these bytes and its empty log, one of which fails after so many calls.
fn failing(alloc: Global, bytes: &[u8], calls: u64, fails_in_log: bool) -> Option<Fused> {
    let (log, db) = if fails_in_log {
        (calls, u64::MAX)
    } else {
        (u64::MAX, calls)
    };
    Some(Files {
        log: fused(alloc, b"", log)?,
        db: fused(alloc, bytes, db)?,
    })
}

/// Files of the same bytes, which never fail.
fn repaired(alloc: Global, files: &Fused) -> Option<Fused> {
    Some(Files {
        log: fused(alloc, files.log.inner().bytes(), u64::MAX)?,
        db: fused(alloc, files.db.inner().bytes(), u64::MAX)?,
    })
}

/// Runs rows until the store fails, and leaves it as it is then.
#[derive(Clone, Copy)]
struct RunUntilFailure<'a>(&'a [&'a [WorkedRow<'a>]]);

impl Deed for RunUntilFailure<'_> {
    type Outcome = Ended;

    fn done_over<S: Alter + Drop>(
        &self,
        alloc: Global,
        conn: Connection<S>,
    ) -> Option<(Ended, After<S>)> {
        let keeper = match SqlKeeper::adopt(alloc, conn, Limits::full()) {
            Ok(keeper) => keeper,
            Err((_, left)) => return Some((Ended::Failed, After::Left(left.into_store()))),
        };
        let (ended, conn) = close_after(alloc, Limits::full(), keeper, &Deliver(self.0));
        Some((ended, After::Left(conn.into_store())))
    }
}

/// Whether files may be used.
fn are_usable<D: Disk>(files: &Files<D>) -> bool {
    files.may_be_used()
}

/// Runs rows over files, and gives the files as the run left them.
fn run(alloc: Global, files: Fused, rows: &[&[WorkedRow<'_>]]) -> Option<(Ended, Fused)> {
    if !are_usable(&files) {
        return Some((Ended::Wrong, files));
    }
    let (ended, files) = try_in_files(alloc, files, &RunUntilFailure(rows))?;
    Some((ended.unwrap_or(Ended::Failed), files))
}

/// Whether rows end whole over files of the same bytes that never fail.
fn goes_on_repaired(alloc: Global, files: Fused, rows: &[&[WorkedRow<'_>]]) -> Option<bool> {
    let (ended, _) = run(alloc, repaired(alloc, &files)?, rows)?;
    Some(ended == Ended::Whole)
}

/// Whether, after one of two files fails at this call, each delivery that is sent again is answered
/// as its row. None where the run met no failure. The run begins with a file of these bytes.
fn goes_on(
    alloc: Global,
    bytes: &[u8],
    calls: u64,
    fails_in_log: bool,
    rows: &[&[WorkedRow<'_>]],
) -> Option<Option<bool>> {
    let (ended, files) = run(alloc, failing(alloc, bytes, calls, fails_in_log)?, rows)?;
    match ended {
        Ended::Whole => Some(None),
        Ended::Failed => Some(Some(goes_on_repaired(alloc, files, rows)?)),
        Ended::Wrong => Some(Some(false)),
    }
}

/// Whether every run goes on, whichever of the calls of one file is the first to fail: the first of
/// these, and then each that is so many calls later. Each call is too many for the time of a test;
/// `checks/kills.py` tries each of a real file.
fn all_go_on(
    alloc: Global,
    bytes: &[u8],
    fails_in_log: bool,
    step: u64,
    rows: &[&[WorkedRow<'_>]],
) -> Option<bool> {
    for turn in 0..100u64 {
        let calls = turn.saturating_mul(step);
        match goes_on(alloc, bytes, calls, fails_in_log, rows)? {
            Some(true) => {}
            Some(false) => return Some(false),
            None => return Some(true),
        }
    }
    Some(false)
}

/// The same, from new files.
fn new_go_on(alloc: Global, fails_in_log: bool) -> Option<bool> {
    all_go_on(alloc, b"", fails_in_log, 17, &[&FIRST])
}

/// The same, from files with a store of schema 1.
fn old_go_on(alloc: Global, fails_in_log: bool, step: u64) -> Option<bool> {
    let old = old_files(alloc)?;
    all_go_on(
        alloc,
        old.db.inner().bytes(),
        fails_in_log,
        step,
        &[&AT_THE_HOUR],
    )
}

#[test]
fn a_failing_log_loses_nothing_and_acts_once(rt: HostRuntime) -> Result<(), Fail> {
    check(new_go_on(rt.alloc(), true))
}

#[test]
fn a_failing_file_loses_nothing_and_acts_once(rt: HostRuntime) -> Result<(), Fail> {
    check(new_go_on(rt.alloc(), false))
}

#[test]
fn a_failing_log_leaves_a_store_of_one_schema(rt: HostRuntime) -> Result<(), Fail> {
    check(old_go_on(rt.alloc(), true, 29))
}

#[test]
fn a_failing_file_leaves_a_store_of_one_schema(rt: HostRuntime) -> Result<(), Fail> {
    check(old_go_on(rt.alloc(), false, 97))
}
