//! What the tests do with a keeper. A keeper over files is a large value, so it is handed to a task in
//! one place only.
ghost use Rattle.std.specs.Prelude.{◌≡◌, IfOk};

use super::{Ended, deliver};
use builder::RingMachine;
use builder_store::{OpenFault, SqlKeeper, open_memory};
use request_book::{Book, Entry, Keeper};
use ring_log::{LogForm, entries_text};
use ring_model::Rings;
use ring_words::{Command, Hour, Limits, Reply};
use sqlite::{Alter, Connection};
use std::alloc::{AllocError, Global};
use test_fixtures::rows::WorkedRow;

/// What is done with a keeper, whatever it keeps its book in.
pub trait Task {
    /// What comes of it.
    type Outcome: Drop;

    /// Does it, and gives the keeper as it is then.
    fn done_with<K: Keeper<RingMachine>>(
        &self,
        alloc: Global,
        limits: Limits,
        keeper: K,
    ) -> (Self::Outcome, K)
        requires { K.fault_count keeper ≡ 0 };
}

/// Does a task with a keeper, and closes it.
pub fn close_after<S: Alter, T: Task>(
    alloc: Global,
    limits: Limits,
    keeper: SqlKeeper<S>,
    task: &T,
) -> (T::Outcome, Connection<S>)
    requires { keeper.faults ≡ 0 }
{
    let (outcome, keeper) = task.done_with(alloc, limits, keeper);
    (outcome, keeper.close())
}

/// The keeper of what a connection's store holds.
pub fn adopted<S: Alter + Drop>(
    alloc: Global,
    conn: Connection<S>,
) -> Result<SqlKeeper<S>, OpenFault>
    ensures { IfOk result (λ k. k.faults ≡ 0) }
{
    match SqlKeeper::adopt(alloc, conn, Limits::full()) {
        Ok(keeper) => Ok(keeper),
        Err((fault, _)) => Err(fault),
    }
}

/// Does a task with the keeper of what a connection's store holds, and gives the connection as it
/// is then.
pub fn over<S: Alter + Drop, T: Task>(
    alloc: Global,
    conn: Connection<S>,
    task: &T,
) -> Result<(T::Outcome, Connection<S>), OpenFault> {
    let keeper = adopted(alloc, conn)?;
    Ok(close_after(alloc, Limits::full(), keeper, task))
}

/// Does a task with a keeper over memory that holds no more than this.
pub fn in_memory<T: Task>(
    alloc: Global,
    limits: Limits,
    task: &T,
) -> Result<T::Outcome, OpenFault> {
    let keeper = open_memory(alloc, limits)?;
    let (outcome, _) = close_after(alloc, limits, keeper, task);
    Ok(outcome)
}

/// Delivers rows until the store fails. A row that is no message ends wrong.
#[derive(Clone, Copy)]
pub struct Deliver<'a>(pub &'a [&'a [WorkedRow<'a>]]);

impl Task for Deliver<'_> {
    type Outcome = Ended;

    fn done_with<K: Keeper<RingMachine>>(
        &self,
        alloc: Global,
        limits: Limits,
        keeper: K,
    ) -> (Ended, K) {
        let mut book = Book::open(alloc, RingMachine { limits }, keeper);
        let ended = deliver(alloc, &mut book, self.0);
        (ended.unwrap_or(Ended::Wrong), book.into_keeper())
    }
}

/// Reads the rings and the hour.
#[derive(Clone, Copy)]
pub struct Look;

/// The rings and the hour that a keeper holds, if it tells them.
fn held<K: Keeper<RingMachine>>(keeper: &mut K) -> Option<(Rings, Hour)>
    requires { K.fault_count keeper.old ≡ 0 }
{
    let Ok(hour) = keeper.hour() else {
        return None;
    };
    let Ok(()) = keeper.load() else {
        return None;
    };
    match keeper.state().clone() {
        Ok(rings) => Some((rings, hour)),
        Err(_) => None,
    }
}

impl Task for Look {
    type Outcome = Option<(Rings, Hour)>;

    fn done_with<K: Keeper<RingMachine>>(
        &self,
        _alloc: Global,
        _limits: Limits,
        keeper: K,
    ) -> (Option<(Rings, Hour)>, K) {
        let mut keeper = keeper;
        let held = held(&mut keeper);
        (held, keeper)
    }
}

/// Delivers rows, and reads the log then, so many entries at a time.
#[derive(Clone, Copy)]
pub struct ReadLog<'a> {
    pub rows: &'a [&'a [WorkedRow<'a>]],
    pub most: u32,
}

/// Puts entries behind a log, a line each.
fn push_page(
    alloc: Global,
    log: &mut String,
    from: u32,
    entries: &[Entry<Command, Reply>],
) -> Result<(), AllocError> {
    log.push_str(entries_text(alloc, LogForm::Deliveries, from, entries)?.as_str())
}

/// The log of a book, if it is told.
fn log_of<K: Keeper<RingMachine>>(
    alloc: Global,
    book: &mut Book<RingMachine, K>,
    most: u32,
) -> Option<String> {
    let mut log = String::new(alloc);
    let mut from: u32 = 0;
    for _page in 0..100 {
        let entries = book.entries(from, most).ok()?;
        push_page(alloc, &mut log, from, &entries).ok()?;
        from = from.saturating_add(most);
    }
    Some(log)
}

impl Task for ReadLog<'_> {
    /// The log, if the rows were answered as they say.
    type Outcome = Option<String>;

    fn done_with<K: Keeper<RingMachine>>(
        &self,
        alloc: Global,
        limits: Limits,
        keeper: K,
    ) -> (Option<String>, K) {
        let mut book = Book::open(alloc, RingMachine { limits }, keeper);
        let log = match deliver(alloc, &mut book, self.rows) {
            Ok(Ended::Whole) => log_of(alloc, &mut book, self.most),
            _ => None,
        };
        (log, book.into_keeper())
    }
}
