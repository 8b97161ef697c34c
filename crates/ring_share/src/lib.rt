//! The shares of a ring's devices: how many seats each wants and has, whether it has room, how
//! crowded it is for a seat of a partition, and how far the ring is from these shares and from
//! standing apart.
//!
//! The words are those of OpenStack Swift's 'The Rings'; the figures and the order of ties are this
//! project's own. The definitions that contracts cite stand in `specs/`, and `docs/definitions.md`
//! lists them.
#![tactic(auto)]

mod apart;
mod better;
mod crowds;
mod figures;
pub mod laws;
mod places;
mod rooms;
mod tiers;
mod wants;

pub use apart::{stand_apart, tier_codes};
pub use crowds::crowd;
pub use figures::{balance, balance_of, balance_with, counts_of, dispersion};
pub use places::place_in;
pub use rooms::{has_room, have};
pub use tiers::{Tier, one_each};
pub use wants::{is_open, wanted};
