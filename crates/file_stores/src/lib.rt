//! Stores in files, for the programs of `ringd`: each is a database file, and the log beside it.
//!
//! How the keeper of such a store begins, where it is opened and where it is made, stands in
//! `specs/Opened.antt`, and how it is closed in `specs/Closed.antt`; what is left where it isn't
//! opened or made in `specs/Unopened.antt`. The files that words name beside stores are opened as a
//! `NamedFile` is (`specs/Texts.antt`).
//!
//! Faults of `builder_store` are told by functions and no `From`, so that `?` can't turn them: both
//! they and `ProgramFault` are of other crates.
#![tactic(auto)]

pub mod laws;
mod making;
mod opening;
mod reading;
mod stores;

pub use making::{NewFiles, NewKeeper, UnmadeFiles};
pub use opening::{ClosedFiles, FileKeeper, UnopenedFiles};
pub use reading::{NamedFile, TextRest};
pub use stores::{HeldFiles, HeldKeeper, StoreFiles};
