//! Where an object lives: the partition of its path, and the devices of the partition.
//!
//! A path names an account, a container in it, or an object in that. Its hash says which partition
//! of a ring it belongs to, as in OpenStack Swift's 'The Rings'. The definitions that contracts
//! cite stand in `specs/`.
#![tactic(auto)]

mod fault;
mod hash;
pub mod laws;
mod lookup;
mod path;

pub use fault::{NodesFault, PathFault};
pub use hash::{HashNames, hash_path, partition_of};
pub use lookup::nodes;
pub use path::Path;
