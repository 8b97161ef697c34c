//! All seats of a ring dealt at once, as cards are dealt round a table: so that each device has as
//! many as it wants, the seats of a partition are on different devices, and no tier of devices has
//! more of a partition than what they want forces on it.
//!
//! The definitions that contracts cite stand in `specs/`, and `docs/definitions.md` lists them.
#![tactic(auto)]

mod dealer;
mod draws;
mod hand;
mod order;

pub use dealer::deal;
pub use draws::{draws_of, shuffle, shuffled_order};
