//! The builder of rings: what each command is replied, and what it does to the rings.
//!
//! The definition that the contracts rest on is *Step*, in `specs/Step.antt`: a command is refused
//! for the first cause that stands and changes nothing, or it is done, and then it changes the
//! named ring and no other.
//!
//! The texts of messages and replies are those of the crate `ring_messages`, passed on.
#![tactic(auto)]

mod deciding;
mod importing;
pub mod laws;
mod machine;
mod previewing;
mod rebalancing;

pub use deciding::decide;
pub use machine::RingMachine;
pub use previewing::preview;
pub use ring_messages::{
    MessageFault, Told, command_text, no_memory, read_command, read_delivery, read_reply,
    reply_text, status_of, told_text,
};
