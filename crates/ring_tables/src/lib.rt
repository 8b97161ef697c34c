//! The tables of a ring that operators read, and the texts that stand in them.
//!
//! The layout of the tables is this project's own. The definitions that contracts cite stand in
//! `specs/`, and `docs/definitions.md` lists them.
#![tactic(auto)]

mod balances;
mod cells;
mod devices;

pub use balances::balance_table;
pub use cells::{hundredths_text, push_decimal};
pub use devices::{device_table, state_text};
