//! What several crates of tests use: worked rows, and streams that fail.
#![tactic(auto)]

pub mod rows;
mod streams;

pub use streams::{Giver, Taker};
