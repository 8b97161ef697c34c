//! What one rebalance of a ring is, and how full its devices are while seats are moved.
//!
//! Rings, their replicas and the hours between moves are OpenStack Swift's; which seats are
//! gathered and where they go is this project's own rule. The definitions that contracts cite stand
//! in `specs/`, and `docs/definitions.md` lists them.
#![tactic(auto)]

mod deck;
mod gather;
mod homes;
pub mod laws;
mod new_seats;
mod place;
mod rebalances;
mod seats;
mod surplus;

pub use rebalances::{PlaceError, Rebalanced, rebalance};
pub use ring_room::Room;
