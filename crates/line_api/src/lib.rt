//! The lines of `ringd run`: numbered requests and questions in, one a line, and their answers out.
//!
//! `run_lines` serves any reader and any writer by a book of the builder. What a line asks for and
//! what it is answered stands in `specs/Lines.antt`; that the deliveries of all lines are one run
//! of the book, in `specs/Served.antt`.
#![tactic(auto)]

pub mod laws;
mod lines;
mod questions;

pub use lines::{answer_text, run_lines};
