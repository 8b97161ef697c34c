//! The texts of requests and answers: read exactly, and written in one way.
//!
//! A message is a JSON object that says who asks, that caller's number for it, and a command. A
//! command, a reply and each further answer has one text, which is compact JSON with its keys in
//! byte order. Other crates write their objects by the same calls.
#![tactic(auto)]

mod commands;
mod laws;
mod objects;
mod parts;
mod read;
mod replies;
mod rows;
mod told;
mod words;
mod written;

pub use commands::{command_is_proper, command_text};
pub use laws::{a_message_is_read_back, one_message, one_reply, one_text};
pub use objects::{Scalar, new_text, text_of, write_members, write_object};
pub use read::{read_command, read_delivery};
pub use replies::{read_reply, reply_is_proper, reply_text, write_reply};
use ring_words::SpellingFault;
pub use told::{NO_MEMORY_TEXT, Told, no_memory, status_of, told_text};
pub use written::{message_text, write_message};

/// Why bytes aren't read as a message, a command or a reply: Bad where they are none, or want of
/// memory.
pub type MessageFault = SpellingFault;
