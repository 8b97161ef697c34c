//! What the tests do over a store.
use super::Ended;
use super::tasks::{Deliver, Look, over};
use builder_store::{MakeFault, SqlKeeper};
use ring_model::Rings;
use ring_words::{Hour, Limits};
use sqlite::{Alter, Connection};
use std::alloc::Global;
use store_rows::Change;
use test_fixtures::rows::WorkedRow;

/// What a deed leaves of a connection.
pub enum After<S: Alter> {
    /// The connection, to be closed.
    Open(Connection<S>),
    /// Its store, as it is.
    Left(S),
}

/// What is done over a connection, whatever its store is kept in.
pub trait Deed {
    /// What comes of it.
    type Outcome: Drop;

    /// Does it.
    fn done_over<S: Alter + Drop>(
        &self,
        alloc: Global,
        conn: Connection<S>,
    ) -> Option<(Self::Outcome, After<S>)>;
}

/// How a run over a store ended, and what the store holds then.
#[derive(Drop)]
pub struct Found {
    pub ended: Ended,
    pub rings: Rings,
    pub hour: Hour,
}

/// All rows of rings as a text.
fn rows_text(alloc: Global, rings: &Rings) -> Option<String> {
    let change = Change::making(alloc, rings).ok()?;
    format!(in alloc; "{:?}", change.rows()).ok()
}

/// Whether two lists of rings are one: no row of the store tells them apart.
fn are_same(alloc: Global, one: &Rings, other: &Rings) -> Option<bool> {
    Some(rows_text(alloc, one)? == rows_text(alloc, other)?)
}

impl Found {
    /// Whether the store holds these rings and this hour.
    pub fn is(&self, alloc: Global, rings: &Rings, hour: Hour) -> Option<bool> {
        Some(self.hour == hour && are_same(alloc, rings, &self.rings)?)
    }
}

/// Runs rows, and reads what the store holds then.
#[derive(Clone, Copy)]
pub struct Run<'a>(pub &'a [&'a [WorkedRow<'a>]]);

impl Deed for Run<'_> {
    type Outcome = Found;

    fn done_over<S: Alter + Drop>(
        &self,
        alloc: Global,
        conn: Connection<S>,
    ) -> Option<(Found, After<S>)> {
        let (ended, conn) = over(alloc, conn, &Deliver(self.0)).ok()?;
        let (held, conn) = over(alloc, conn, &Look).ok()?;
        let (rings, hour) = held?;
        Some((Found { ended, rings, hour }, After::Open(conn)))
    }
}

/// Makes a store of rings and an hour.
#[derive(Clone, Copy)]
pub struct Make<'a>(pub &'a Rings, pub Hour);

impl Deed for Make<'_> {
    /// Why it isn't made, where it isn't.
    type Outcome = Option<MakeFault>;

    fn done_over<S: Alter + Drop>(
        &self,
        alloc: Global,
        conn: Connection<S>,
    ) -> Option<(Option<MakeFault>, After<S>)> {
        let rings = self.0.clone().ok()?;
        match SqlKeeper::make(alloc, conn, rings, self.1, Limits::full()) {
            Ok(keeper) => Some((None, After::Open(keeper.close()))),
            Err((fault, left)) => Some((Some(fault), After::Left(left.into_store()))),
        }
    }
}
