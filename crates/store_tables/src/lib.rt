//! The tables of the store in a SQL database, and what each call does to their rows.
#![tactic(auto)]

mod changes;
mod creating;
mod matching;
mod opening;
mod pages;
mod reads;
mod writes;

pub use changes::{commit_decided, commit_request, prepare_store};
pub use creating::{TABLE_COUNT, create_missing};
pub use opening::{is_blank, tables_made};
pub use pages::requests_from;
pub use reads::{all_rows, find_request};
