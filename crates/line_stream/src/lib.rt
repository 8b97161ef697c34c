//! A line protocol over any reader and any writer: each line that is read is answered, in order,
//! and a line feed ends each answer.
//!
//! `serve_lines` is generic over a `Handler`, which answers one line after another and keeps a
//! state. What is written depends on the bytes that are read and on the handler, and not on how the
//! reads cut them. The definitions that the contracts cite stand in `specs/`.
#![tactic(auto)]

mod handler;
pub mod laws;
mod line;
mod serving;

pub use handler::Handler;
pub use line::LONGEST_LINE;
pub use serving::serve_lines;
