//! What is written of a request.
ghost use Rattle.std.specs.Prelude.{◌≡◌, ◌≤◌, IfOk, IsTrue, string_bytes};
ghost use Rattle.ring_words.specs.Limits.{greatest_long};
ghost use Rattle.ring_words.specs.Texts.{is_label};
ghost use Rattle.ring_messages.specs.Message.{IsMessage, message_data, message_text};
ghost use Rattle.ring_messages.specs.Objects.{AddsData};

use crate::commands::{command_is_proper, write_command};
use crate::objects::{new_text, text_of};
use json::Writer;
use ring_words::{Command, Key};
use std::alloc::{AllocError, Global};

/// Writes the object of a request: that of its command, and in it who asks and by which number.
pub fn write_message(
    writer: &mut Writer,
    alloc: Global,
    key: &Key,
    command: &Command,
) -> Result<(), AllocError>
    ensures { AddsData result writer.old writer.new (message_data key.now command.now) }
{
    write_command(writer, alloc, Some(key), command)
}

/// What is known of a key: its caller's name is one, and its number has 32 bits.
fn key_is_proper(key: &Key)
    ensures named { IsTrue (is_label key.now.caller) }
    ensures fits { key.now.number ≤ greatest_long }
{
    let _caller = key.caller.as_str();
    let _number = key.number;
}

/// The text of a request, in compact JSON, its keys in byte order. Read as a message it gives the
/// key and the command back.
pub fn message_text(alloc: Global, key: &Key, command: &Command) -> Result<String, AllocError>
    ensures text { IfOk result (λ s. string_bytes s ≡ message_text key.now command.now) }
    ensures read { IfOk result (λ s. IsMessage (string_bytes s) key.now command.now) }
{
    key_is_proper(key);
    command_is_proper(command);
    let mut writer = new_text(alloc)?;
    write_message(&mut writer, alloc, key, command)?;
    Ok(text_of(writer))
}
