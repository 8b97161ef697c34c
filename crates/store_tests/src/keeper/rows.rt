//! The worked rows that the tests deliver, each run in a table that no proof reads.
use test_fixtures::rows::{self, WorkedRow};

pub static FIRST: [WorkedRow<'static>; 4] = rows::FIRST;

pub static LOCKED: [WorkedRow<'static>; 2] = rows::LOCKED;

pub static AT_THE_HOUR: [WorkedRow<'static>; 1] = rows::AT_THE_HOUR;

pub static RISEN: [WorkedRow<'static>; 1] = rows::RISEN;

pub static RENEWED: [WorkedRow<'static>; 2] = rows::RENEWED;

pub static FULL: [WorkedRow<'static>; 5] = rows::FULL;
