//! The keeper over a SQL store: the rings are held in memory beside the tables, and each decided
//! request is one transaction that writes what it changed of them and its reply.
#![tactic(auto)]

mod adopting;
mod calls;
mod closing;
mod fault;
mod keeper;
pub mod laws;
mod making;
mod opening;
mod over;
mod planning;
mod reading;
mod starting;

pub use adopting::Left;
pub use closing::close_keeper;
pub use fault::{FileFault, MakeFault, OpenFault};
pub use keeper::SqlKeeper;
pub use over::{FilesLeft, make_at, open_from, open_memory};
