//! Rows of devices from a text of CSV, over any reader.
//!
//! A text names the columns `region,zone,address,port,name,weight` in its first record and has a
//! row in each later one. The first fault in it is told with its row and column. What is read
//! depends on the reader's bytes, and not on how the reads cut them. The definitions that contracts
//! cite stand in `specs/`.
#![tactic(auto)]

mod fault;
mod fields;
mod read;
mod row;

pub use fault::CsvFault;
pub use read::read_rows;
