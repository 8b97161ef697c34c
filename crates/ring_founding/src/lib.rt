//! Rings that come in with their seats: from their texts, as they stand.
//!
//! A ring that comes in so has the devices, the numbers and the seats of its text, so nothing moves
//! by its coming. Each of its partitions counts as moved at that hour. What that means stands in
//! `specs/Founding.antt`.
#![tactic(auto)]

mod founding;
pub mod laws;

pub use founding::{FoundFault, Terms, found_ring, found_rings};
