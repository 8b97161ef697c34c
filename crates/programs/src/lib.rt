//! The programs of `ringd`: what the words of the command line ask for is done over three streams
//! and the stores that they name.
//!
//! `Stores` is where the stores are, and is the caller's: it opens, makes and closes them. Each
//! program has a file, which reads what its words ask for, does that over what any keeper holds, and
//! opens and closes the store round it. `perform` is what `main` calls, over the stores in files of
//! `file_stores`. What a program that is done has done, and what a fault leaves, stands in
//! `specs/Performed.antt`, a case for each program.
#![tactic(auto)]

mod book;
mod dropping;
mod faults;
mod founding;
mod hours;
mod importing;
pub mod laws;
mod lines;
mod logging;
mod meanings;
mod performing;
mod renewing;
mod service;
mod serving;
mod showing;
mod version;

pub use lines::MemoryKeeper;
pub use performing::perform;
