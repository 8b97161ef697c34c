//! Rings that are valid by their type, and lists of rings by name.
//!
//! A ring maps each of `2^power` partitions to the devices that hold its replicas, as in OpenStack
//! Swift's 'The Rings'. The definitions that contracts cite stand in `specs/`, and
//! `docs/definitions.md` lists them.
#![tactic(auto)]

mod altering;
mod draft;
pub mod laws;
mod parts;
mod proper;
mod publishing;
mod ring;
mod rings;

pub use draft::Draft;
pub use parts::{RingParts, risen};
pub use ring::{BuildFault, RaiseFault, Ring};
pub use rings::Rings;
