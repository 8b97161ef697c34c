//! From the bytes of a message to what it asks for.
ghost use Rattle.std.specs.Prelude.{◌≡◌};
ghost use Rattle.serde_json.specs.View.{view};
ghost use Rattle.ring_messages.specs.Commands.{canonical, command_data, IsProperCommand};
ghost use Rattle.ring_messages.specs.Message.{IsMessage, members_count};
ghost use Rattle.ring_words.specs.Spelling.{Reads};
ghost use Rattle.ring_messages.specs.Inner.Says.{SaysCommand, SaysDelivery};

use crate::MessageFault;
use crate::commands::{act, command_text};
use crate::parts::{self, members_count, number32_at, value_of};
use ring_words::{Act, Command, DeviceAct, Key};
use serde_json::Value;
use std::alloc::Global;

/// The command that an object says.
fn command(alloc: Global, value: &Value) -> Result<Command, MessageFault>
    ensures { Reads (SaysCommand (view value.now)) result }
{
    let ring = parts::name(alloc, value.get("ring"))?;
    let act = act(alloc, value)?;
    Ok(Command { ring, act })
}

/// How many members the object of a command has: its word, its ring, and those of what it does.
fn own_count(command: &Command) -> usize
    ensures { result ≡ members_count (command_data command.now) }
{
    match &command.act {
        Act::PretendPassed | Act::RaisePower | Act::Publish => 2,
        Act::SetHours(_) | Act::Rebalance(_) | Act::Import(_) => 3,
        Act::OnDevice(_, DeviceAct::Remove | DeviceAct::Keep) => 3,
        Act::OnDevice(_, DeviceAct::SetWeight(_)) => 4,
        Act::Create(_) | Act::RebalanceAs(_) => 5,
        Act::Add(_) => 8,
    }
}

#[tactic(auto, using(crate::proofs::Messages::own_count))]
fn delivery(alloc: Global, value: &Value) -> Result<(Key, Command), MessageFault>
    ensures { Reads (λ m. SaysDelivery (view value.now) m.0 m.1) result }
{
    let caller = parts::name(alloc, value.get("caller"))?;
    let number = number32_at(value, "number")?;
    let command = command(alloc, value)?;
    let own = own_count(&command);
    let members = members_count(value);
    if members < 2 || members - 2 != own {
        return Err(MessageFault::Bad);
    }
    Ok((Key { caller, number }, command))
}

/// The key and the command of a message. Unreadable exactly where the bytes are no message.
pub fn read_delivery(alloc: Global, bytes: &[u8]) -> Result<(Key, Command), MessageFault>
    ensures { Reads (λ m. IsMessage bytes.now m.0 m.1) result }
{
    let value = value_of(alloc, bytes)?;
    delivery(alloc, &value)
}

/// The command whose canonical text this is. Unreadable exactly where it is no command's.
pub fn read_command(alloc: Global, text: &str) -> Result<Command, MessageFault>
    ensures { Reads (λ c. IsProperCommand c × (text.now ≡ canonical c)) result }
{
    let value = value_of(alloc, text.as_bytes())?;
    let command = command(alloc, &value)?;
    let written = command_text(alloc, &command)?;
    if written.as_str() != text {
        return Err(MessageFault::Bad);
    }
    Ok(command)
}
