//! The keeper at work, over memory and over files in memory.

mod commands;
mod deeds;
mod failing;
mod files;
mod making;
mod migrating;
mod rows;
mod tasks;

use crate::fixtures::check;
use builder::{MessageFault, RingMachine, Told, read_delivery, status_of, told_text};
use deeds::Run;
use files::{Fused, in_files, new_files, with_new_log};
use request_book::{Book, Fault, Keeper};
use ring_words::{Command, Key, Limits};
use rows::{AT_THE_HOUR, FIRST, FULL, LOCKED};
use std::alloc::{AllocError, Global};
use std::test::Fail;
use tasks::{Deliver, ReadLog, in_memory};
use test_fixtures::rows::{RUNS, WorkedRow};

/// A text with `"` for `'`.
fn quoted(alloc: Global, text: &str) -> Result<String, AllocError> {
    let mut into = String::new(alloc);
    for character in text.chars() {
        into.push(if character == '\'' { '"' } else { character })?;
    }
    Ok(into)
}

/// The message of a row on the ring `object`.
fn message(alloc: Global, row: &WorkedRow<'_>) -> Result<String, AllocError> {
    let (_, number, what, _) = row;
    let text = format!(in alloc; "{{'caller':'ops','number':{number},'ring':'object',{what}}}")?;
    quoted(alloc, text.as_str())
}

/// What a delivery comes to.
fn told(answer: Result<ring_words::Reply, Fault>) -> Told {
    match answer {
        Ok(reply) => Told::Reply(reply),
        Err(Fault::NumberReused) => Told::NumberReused,
        Err(Fault::BookFull) => Told::BookFull,
        Err(Fault::NoMemory) => Told::NoMemory,
        Err(Fault::StoreFault) => Told::StoreFault,
        Err(Fault::Closed) => Told::Closed,
    }
}

/// The delivery of a row.
fn delivery(alloc: Global, row: &WorkedRow<'_>) -> Result<(Key, Command), MessageFault> {
    read_delivery(alloc, message(alloc, row)?.as_bytes())
}

/// What a row's delivery is answered.
fn answer<K: Keeper<RingMachine>>(
    alloc: Global,
    book: &mut Book<RingMachine, K>,
    row: &WorkedRow<'_>,
) -> Result<Told, MessageFault> {
    let (key, command) = delivery(alloc, row)?;
    Ok(told(book.deliver(row.0, key, command)))
}

/// Whether an answer is a row's.
fn is_answer(alloc: Global, told: &Told, row: &WorkedRow<'_>) -> Result<bool, AllocError> {
    let status = status_of(told);
    let text = told_text(alloc, told)?;
    let line = format!(in alloc; "{status} {text}")?;
    let want = quoted(alloc, row.3)?;
    Ok(line.as_str() == want.as_str())
}

/// How a run ended: every row was answered as it says, or the store failed before.
#[derive(Clone, Copy, PartialEq, Eq)]
pub enum Ended {
    Whole,
    Failed,
    Wrong,
}

impl Ended {
    /// How a run ends that ended so, once a further row is answered so.
    fn after(self, alloc: Global, told: Told, row: &WorkedRow<'_>) -> Result<Ended, AllocError> {
        match (self, told) {
            (Ended::Whole, Told::StoreFault) | (Ended::Failed, Told::Closed) => Ok(Ended::Failed),
            (Ended::Whole, told) if is_answer(alloc, &told, row)? => Ok(Ended::Whole),
            _ => Ok(Ended::Wrong),
        }
    }
}

/// Delivers rows until the store fails. From then on the book is closed.
fn deliver<K: Keeper<RingMachine>>(
    alloc: Global,
    book: &mut Book<RingMachine, K>,
    rows: &[&[WorkedRow<'_>]],
) -> Result<Ended, MessageFault> {
    let mut ended = Ended::Whole;
    for some in rows {
        for row in *some {
            let told = answer(alloc, book, row)?;
            ended = ended.after(alloc, told, row)?;
        }
    }
    Ok(ended)
}

/// Whether rows are answered as they say over memory that holds no more than this.
fn runs_in_memory(alloc: Global, limits: Limits, rows: &[&[WorkedRow<'_>]]) -> Option<bool> {
    Some(in_memory(alloc, limits, &Deliver(rows)).ok()? == Ended::Whole)
}

/// Whether the rows of each run are answered as they say, each over a memory of its own.
fn all_run_in_memory(alloc: Global, runs: &[&[&[WorkedRow<'_>]]]) -> Option<bool> {
    for rows in runs {
        if !runs_in_memory(alloc, Limits::full(), rows)? {
            return Some(false);
        }
    }
    Some(true)
}

#[test]
fn the_worked_rows_are_answered_over_memory(rt: HostRuntime) -> Result<(), Fail> {
    check(all_run_in_memory(rt.alloc(), &RUNS))
}

/// What the first example leaves of a log over memory, read so many entries at a time.
fn log_by(alloc: Global, most: u32) -> Option<String> {
    let task = ReadLog {
        rows: &[&FIRST],
        most,
    };
    in_memory(alloc, Limits::full(), &task).ok()?
}

/// Whether a log that is read by pages of one entry, two or three is this one.
fn is_same_by_pages(alloc: Global, whole: &str) -> Option<bool> {
    for most in [1, 2, 3] {
        if log_by(alloc, most)?.as_str() != whole {
            return Some(false);
        }
    }
    Some(true)
}

/// Whether there is a log, and it is the same by pages of any size.
fn logs_are_one(alloc: Global) -> Option<bool> {
    let whole = log_by(alloc, 1000)?;
    Some(!whole.is_empty() && is_same_by_pages(alloc, whole.as_str())?)
}

#[test]
fn a_log_is_the_same_by_pages_of_any_size(rt: HostRuntime) -> Result<(), Fail> {
    check(logs_are_one(rt.alloc()))
}

/// Whether a run over files ends whole, and the files as it left them.
fn run_once(alloc: Global, files: Fused, rows: &[&[WorkedRow<'_>]]) -> Option<(bool, Fused)> {
    let (found, files) = in_files(alloc, files, &Run(rows))?;
    Some((found.ended == Ended::Whole, files))
}

/// Whether each of some runs ends whole, one after the other, over a database file that is opened
/// again for each.
fn all_run_in_turn(alloc: Global, runs: &[&[WorkedRow<'_>]]) -> Option<bool> {
    let mut files = new_files(alloc);
    for rows in runs {
        let (whole, left) = run_once(alloc, files, &[rows])?;
        if !whole {
            return Some(false);
        }
        files = with_new_log(alloc, left);
    }
    Some(true)
}

#[test]
fn a_file_that_is_opened_again_goes_on(rt: HostRuntime) -> Result<(), Fail> {
    // Each request that comes again gets its reply, and what is new is decided.
    let runs: [&[WorkedRow]; 4] = [&FIRST, &FIRST, &LOCKED, &AT_THE_HOUR];
    check(all_run_in_turn(rt.alloc(), &runs))
}

#[test]
fn a_full_book_refuses_new_numbers(rt: HostRuntime) -> Result<(), Fail> {
    let limits = Limits {
        rings: 16,
        devices: 256,
        ids: 65536,
        versions: 1000,
        numbers: 2,
    };
    check(runs_in_memory(rt.alloc(), limits, &[&FULL]))
}
