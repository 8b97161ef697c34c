//! Numbered requests that may come again, each decided once, for every machine and every keeper of
//! replies.
//!
//! A caller numbers its requests and sends each as often as it likes. The book keeps the reply of
//! every request that it decides, a refusal too, and answers a repeat by the kept reply. What
//! decides is a [`Machine`], what keeps the state and the replies is a [`Keeper`]. `specs/Run.antt`
//! says what a list of deliveries is answered and leaves. `specs/Front.antt` says what every front of
//! a book promises, whatever its protocol is: each item that it answers, a line or a request, leads to
//! one call of the book or to none, and all calls are one run.
#![tactic(auto)]

mod book;
mod entries;
mod entry;
mod keeper;
pub mod laws;
mod machine;
mod mem_keeper;

pub use book::{Answer, Book, Fault};
pub use entry::Entry;
pub use keeper::{Found, KeepFault, Keeper};
pub use machine::Machine;
pub use mem_keeper::MemKeeper;
