//! A snapshot of a ring as Swift's own ring file, version 1, before it is compressed: what Swift
//! reads once `gzip` has been over it.
//!
//! Swift that has loaded the file writes these very bytes again. The file tells no
//! name of the ring, no hours, and not which devices are marked to be removed: as long as such a
//! device has seats it stands there with its weight.
#![tactic(auto)]

mod file;
mod json;
pub mod laws;
mod seats;

pub use file::write_swift_ring;
