//! A ring as text: a snapshot of an assigned ring, its one spelling, and the snapshot that bytes
//! spell.
//!
//! The text has a line for the form, five for the ring's name and numbers, one for each device, and
//! one for each partition with the devices of its seats. Lines end with a line feed and words are
//! parted by one space.
#![tactic(auto)]

mod head;
pub mod laws;
mod lines;
mod partition;
mod read;
mod state;
mod stops;
mod taking;
mod words;
mod write;

pub use read::read_ring;
use ring_words::SpellingFault;
pub use state::Snapshot;
pub use stops::stop_line;
pub use taking::snapshot;
pub use write::write_ring;

/// Why bytes aren't read as the text of a ring: Bad where they are the text of none, or want of
/// memory.
pub type TextFault = SpellingFault;
