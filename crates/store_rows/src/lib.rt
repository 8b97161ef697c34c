//! Which rows of the store stand for rings and a book: the rows that a change writes, those of a
//! decided request, and what the rows of a store that is opened say.
//!
//! No SQL is here. Rows are those of the crate `store_model`, and contracts speak of the contents
//! of the tables. `contents_for` in `specs/Stands.antt` says what these are where the store holds a
//! content.
#![tactic(auto)]

mod all_rows;
mod books;
mod callers;
mod change;
mod comparing;
mod differences;
mod first_rows;
mod judging;
pub mod laws;
mod naming;
mod numbers;
mod proper;
mod requests;
mod ring_reading;
mod ring_rows;
mod rings_reading;
mod row_reading;
mod texts;
mod written;

pub use books::{FoundBook, ReadBook, read_book};
pub use callers::Callers;
pub use change::Change;
pub use judging::{Judged, StoreRows, judge};
pub use requests::{DecidedRows, decided_rows, meta_row, read_entries, read_found};
pub use texts::judge_texts;
