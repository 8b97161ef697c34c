//! What is read of rings: which there are and how much is kept, as JSON; the metrics of all, in the
//! text format of Prometheus; of a ring its tables for operators, the whole of it, its locks, the
//! nodes of a path, the preview of a rebalance and what moved between two published versions as
//! JSON, and published texts.
//!
//! A front reads what is asked in its own words, and clothes what is shown; what that is, and why
//! nothing is shown, stands here alone. The definitions that contracts cite stand in `specs/`, and
//! `docs/definitions.md` lists them.
#![tactic(auto)]

mod held;
mod lists;
mod locks;
mod moves;
mod moves_text;
mod nodes;
mod plain;
mod preview;
mod reads;
mod seat_counts;
mod seat_moves;
mod whole_ring;
mod whole_store;

pub use held::Held;
pub use plain::Plain;
pub use reads::{Format, Hidden, Question, Read, show};
pub use whole_ring::ring_json;
pub use whole_store::{rings_json, status_json};
