//! What is measured of rings: how many partitions are locked, and for how long each; and the figures
//! of a store and of its rings in the text format of Prometheus.
//!
//! The definitions that contracts cite stand in `specs/`, and `docs/definitions.md` lists them.
#![tactic(auto)]

mod locks;
mod measures;
mod metrics;

pub use locks::{LockEnd, lock_ends, locked_count, rest};
pub use metrics::{StoreFigures, metrics_text};
