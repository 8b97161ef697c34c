//! The rows of the store's tables, and a change of one of them.
//!
//! No SQL is here. `specs/Contents.antt` says what the tables contain, a map for each, and
//! `specs/Changes.antt` what a change makes of that.
#![tactic(auto)]

mod change;
mod rows;

pub use change::RowChange;
pub use rows::{
    DeviceKey, DeviceRow, KeptRequest, MetaRow, MovedRow, PartRow, PublishedRow, RequestRow,
    RingRow, SeatRow,
};
