//! How full the devices of a ring are while seats are moved, and which of them takes the next seat
//! of a partition.
//!
//! The definitions that contracts cite stand in `specs/`, and `docs/definitions.md` lists them.
#![tactic(auto)]

mod cards;
mod full;
mod piles;
mod rooms;
mod rows;
mod search;
mod tier_counts;
mod tiers;

pub use cards::{Card, Taken};
pub use piles::Pile;
pub use rooms::Room;
pub use rows::devices_on;
pub use tiers::{Crowd, is_less};
