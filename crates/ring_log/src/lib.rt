//! The log of a book of rings: its decided requests in the order of first decision, a line each, as
//! JSON or as what asks for them again; and what a book is asked, of which the log is a part.
//!
//! Of each entry the hour is told that it was decided at, its place, which is how many were decided
//! before it, its request as a message, and the reply that is kept of it with the status that this
//! reply has. A message that is told here is read back as the key and the command of its entry.
#![tactic(auto)]

mod inquiry;
mod text;

pub use inquiry::{Inquiry, read_size};
pub use text::{LogEntry, LogForm, entries_text};
