//! Where the programs of `ringd` find the stores that words name, and why a program ends without doing
//! what was asked of it.
//!
//! `Stores` is the caller's: the stores in files are `file_stores`'. The programs are generic in it.
#![tactic(auto)]

mod faults;
mod stores;

pub use faults::ProgramFault;
pub use stores::Stores;
