//! Objects and lists, written a part at a time.
ghost use Rattle.std.specs.Prelude.{◌≡◌, ◌∷◌, [], IfOk, map, string_bytes};
ghost use Rattle.json.specs.Token.{begin_object};
ghost use Rattle.serde_json.specs.Data.{Data, array, object};
ghost use Rattle.serde_json.specs.View.{items_of};
ghost use Rattle.serde_json.specs.Written.{compact_text};
ghost use Rattle.ring_messages.specs.Objects.{Adds, AddsData, data_tokens, member_tokens};
ghost use Rattle.ring_messages.specs.Objects.{members_of, members_tokens, scalar_data, scalar_token};

use self::Scalar::{Number, Text};
use json::Writer;
use std::alloc::{AllocError, Global};

/// What stands under a key of an object, or in a list.
#[derive(Clone, Copy)]
pub enum Scalar<'a> {
    /// A whole number.
    Number(u64),
    /// A text, without quotes and escapes.
    Text(&'a str),
}

fn write_scalar(writer: &mut Writer, scalar: Scalar<'_>) -> Result<(), AllocError>
    ensures { Adds result writer.old writer.new (scalar_token scalar.entry ∷ []) }
{
    match scalar {
        Number(number) => writer.u64(number),
        Text(text) => writer.string(text),
    }
}

fn write_member(writer: &mut Writer, member: &(&str, Scalar<'_>)) -> Result<(), AllocError>
    ensures { Adds result writer.old writer.new (member_tokens member.now) }
{
    writer.key(member.0)?;
    write_scalar(writer, member.1)
}

/// Writes these members of an object that was begun and is not ended yet.
pub fn write_members(writer: &mut Writer, members: &[(&str, Scalar<'_>)]) -> Result<(), AllocError>
    ensures { Adds result writer.old writer.new (members_tokens members.now) }
{
    for member in members {
        write_member(writer, member)?;
    }
    Ok(())
}

/// Writes the object with these members, in this order.
pub fn write_object(writer: &mut Writer, members: &[(&str, Scalar<'_>)]) -> Result<(), AllocError>
    ensures { AddsData result writer.old writer.new (object (members_of members.now)) }
{
    writer.begin_object()?;
    write_members(writer, members)?;
    writer.end_object()
}

fn write_items(writer: &mut Writer, items: &[Scalar<'_>]) -> Result<(), AllocError>
    ensures { Adds result writer.old writer.new (map scalar_token items.now) }
{
    for item in items {
        write_scalar(writer, *item)?;
    }
    Ok(())
}

/// Writes the list of these items.
pub(crate) fn write_list(writer: &mut Writer, items: &[Scalar<'_>]) -> Result<(), AllocError>
    ensures { AddsData result writer.old writer.new (array (items_of (map scalar_data items.now))) }
{
    writer.begin_array()?;
    write_items(writer, items)?;
    writer.end_array()
}

/// A writer of a text of its own, with room for a short one.
pub fn new_text(alloc: Global) -> Result<Writer, AllocError>
    ensures before { IfOk result (λ writer. writer.before ≡ []) }
    ensures tokens { IfOk result (λ writer. writer.tokens ≡ []) }
{
    let bytes = Vec::with_capacity(alloc, 128)?;
    Ok(Writer::new(bytes))
}

/// The text of what was written.
pub fn text_of(writer: Writer) -> String
    requires { writer.before ≡ [] }
    ensures { (d : Data) → writer.tokens ≡ data_tokens d → string_bytes result ≡ compact_text d }
{
    match String::from_utf8(writer.into_inner()) {
        Ok(text) => text,
        Err(_) => unreachable!(),
    }
}
