//! A book of rings: what it is asked and what it tells, whatever the protocol.
//!
//! A front reads what is asked in its own words, asks it here, and clothes what is told. What a
//! book is asked and what each call makes of it stands in `specs/Book.antt`, what it tells in
//! `specs/Told.antt`.
#![tactic(auto)]

mod asking;
pub mod laws;
mod telling;

pub use asking::{deliver, read};
pub use telling::{told_fault, told_hidden, told_of};
