//! The one text of a reply, and back.
ghost use Rattle.std.specs.Prelude.{◌≡◌, ◌≢◌, IfOk, IfSome, IfNone, Some, codes};
ghost use Rattle.std.specs.Prelude.{string_bytes};
ghost use Rattle.serde_json.specs.Find.{get};
ghost use Rattle.serde_json.specs.View.{view};
ghost use Rattle.ring_words.specs.declared.command.Refusal.{Refusal};
ghost use Rattle.ring_words.specs.declared.command.RowCause.{RowCause};
ghost use Rattle.ring_words.specs.Spelling.{Reads};
ghost use Rattle.ring_messages.specs.Fields.{AreProper};
ghost use Rattle.ring_messages.specs.Objects.{AddsData};
ghost use Rattle.ring_messages.specs.Replies.{done_data, done_fields};
ghost use Rattle.ring_messages.specs.Replies.{IsProperRefusal, IsProperReply, cause_rule};
ghost use Rattle.ring_messages.specs.Replies.{refusal_rule, refused_data, refusal_data};
ghost use Rattle.ring_messages.specs.Replies.{row_refused_data, reply_data, reply_text};
ghost use Rattle.ring_messages.specs.Inner.Says.{SaysDone, SaysRefusal, SaysReply};
ghost use Rattle.ring_messages.specs.Inner.Says.{SaysWhy};

use crate::MessageFault;
use crate::objects::Scalar::{Number, Text};
use crate::objects::{new_text, text_of, write_object};
use crate::parts::{number, number32_at, value_of};
use crate::words::{deed_of, kind_at, word_of};
use json::Writer;
use ring_words::{Deed, Done, Refusal, Reply, RowCause};
use serde_json::Value;
use std::alloc::{AllocError, Global};

/// Writes what was done: its word, the ring's version, and what else is told of it.
fn write_done(writer: &mut Writer, done: Done) -> Result<(), AllocError>
    ensures { AddsData result writer.old writer.new (done_data done) }
{
    let word = ("done", Text(word_of(done.deed.kind())));
    let version = ("version", Number(done.version.into()));
    match done.deed {
        Deed::Add { id } => write_object(writer, &[word, ("id", Number(id.into())), version]),
        Deed::Rebalance {
            balance,
            changed,
            dispersion,
        }
        | Deed::RebalanceAs {
            balance,
            changed,
            dispersion,
        } => write_object(
            writer,
            &[
                ("balance", Number(balance.into())),
                ("changed", Number(changed.into())),
                ("dispersion", Number(dispersion.into())),
                word,
                version,
            ],
        ),
        Deed::Import { added, reweighted } => write_object(
            writer,
            &[
                ("added", Number(added)),
                word,
                ("reweighted", Number(reweighted)),
                version,
            ],
        ),
        _ => write_object(writer, &[word, version]),
    }
}

pub(crate) fn write_refused(writer: &mut Writer, name: &str, rule: u8) -> Result<(), AllocError>
    ensures { AddsData result writer.old writer.new (refused_data name.now rule) }
{
    write_object(
        writer,
        &[("refused", Text(name)), ("rule", Number(rule.into()))],
    )
}

fn cause_rule(cause: RowCause) -> u8
    ensures { result ≡ cause_rule cause }
{
    match cause {
        RowCause::DeviceRemoved => 6,
        RowCause::TooManyDevices => 7,
        RowCause::IdsUsedUp => 8,
        RowCause::TierDiffers => 12,
    }
}

fn write_row_refused(writer: &mut Writer, row: u64, rule: u8) -> Result<(), AllocError>
    ensures { AddsData result writer.old writer.new (row_refused_data row rule) }
{
    write_object(
        writer,
        &[
            ("cause", Number(rule.into())),
            ("refused", Text("RowRefused")),
            ("row", Number(row)),
            ("rule", Number(13)),
        ],
    )
}

fn write_refusal(writer: &mut Writer, refusal: Refusal) -> Result<(), AllocError>
    ensures { AddsData result writer.old writer.new (refusal_data refusal) }
{
    match refusal {
        Refusal::NoRing => write_refused(writer, "NoRing", 1),
        Refusal::RingExists => write_refused(writer, "RingExists", 2),
        Refusal::TooManyRings => write_refused(writer, "TooManyRings", 3),
        Refusal::NoDevice => write_refused(writer, "NoDevice", 4),
        Refusal::DeviceExists => write_refused(writer, "DeviceExists", 5),
        Refusal::DeviceRemoved => write_refused(writer, "DeviceRemoved", 6),
        Refusal::TooManyDevices => write_refused(writer, "TooManyDevices", 7),
        Refusal::IdsUsedUp => write_refused(writer, "IdsUsedUp", 8),
        Refusal::RowRefused { row, cause } => write_row_refused(writer, row, cause_rule(cause)),
        Refusal::TooFewDevices => write_refused(writer, "TooFewDevices", 9),
        Refusal::NotAssigned => write_refused(writer, "NotAssigned", 10),
        Refusal::TooManyVersions => write_refused(writer, "TooManyVersions", 11),
        Refusal::PowerLimit => write_refused(writer, "PowerLimit", 14),
        Refusal::NotMarked => write_refused(writer, "NotMarked", 15),
        Refusal::OtherVersion => write_refused(writer, "OtherVersion", 16),
        Refusal::OtherHour => write_refused(writer, "OtherHour", 17),
    }
}

/// Writes the object of a reply.
pub fn write_reply(writer: &mut Writer, reply: Reply) -> Result<(), AllocError>
    ensures { AddsData result writer.old writer.new (reply_data reply) }
{
    match reply {
        Reply::Done(done) => write_done(writer, done),
        Reply::Refused(refusal) => write_refusal(writer, refusal),
    }
}

/// The text of a reply.
pub fn reply_text(alloc: Global, reply: &Reply) -> Result<String, AllocError>
    ensures { IfOk result (λ s. string_bytes s ≡ reply_text reply.now) }
{
    let mut writer = new_text(alloc)?;
    write_reply(&mut writer, *reply)?;
    Ok(text_of(writer))
}

fn done(value: &Value) -> Result<Done, MessageFault>
    ensures { Reads (SaysDone (view value.now)) result }
{
    let version = number32_at(value, "version")?;
    let Some(kind) = kind_at(value, "done") else {
        return Err(MessageFault::Bad);
    };
    let deed = deed_of(value, kind)?;
    Ok(Done { version, deed })
}

/// The refusal by a rule that says no more than its number.
fn refusal_by(rule: u64) -> Option<Refusal>
    ensures found { IfSome result (λ r. (refusal_rule r ≡ rule) × (rule ≢ 13)) }
    ensures none { IfNone result ((r : Refusal) → refusal_rule r ≡ rule → rule ≡ 13) }
{
    match rule {
        1 => Some(Refusal::NoRing),
        2 => Some(Refusal::RingExists),
        3 => Some(Refusal::TooManyRings),
        4 => Some(Refusal::NoDevice),
        5 => Some(Refusal::DeviceExists),
        6 => Some(Refusal::DeviceRemoved),
        7 => Some(Refusal::TooManyDevices),
        8 => Some(Refusal::IdsUsedUp),
        9 => Some(Refusal::TooFewDevices),
        10 => Some(Refusal::NotAssigned),
        11 => Some(Refusal::TooManyVersions),
        14 => Some(Refusal::PowerLimit),
        15 => Some(Refusal::NotMarked),
        16 => Some(Refusal::OtherVersion),
        17 => Some(Refusal::OtherHour),
        _ => None,
    }
}

fn cause_by(rule: u64) -> Option<RowCause>
    ensures found { IfSome result (λ cause. cause_rule cause ≡ rule) }
    ensures none { IfNone result ((cause : RowCause) → cause_rule cause ≡ rule → ⊥) }
{
    match rule {
        6 => Some(RowCause::DeviceRemoved),
        7 => Some(RowCause::TooManyDevices),
        8 => Some(RowCause::IdsUsedUp),
        12 => Some(RowCause::TierDiffers),
        _ => None,
    }
}

/// The refusal of a row.
fn row_refusal(value: &Value) -> Result<Refusal, MessageFault>
    ensures { Reads (λ r. SaysWhy (view value.now) r × (refusal_rule r ≡ 13)) result }
{
    let row = number(value.get("row"), u64::MAX)?;
    match value
        .get("cause")
        .and_then(Value::as_u64)
        .and_then(cause_by)
    {
        Some(cause) => Ok(Refusal::RowRefused { row, cause }),
        None => Err(MessageFault::Bad),
    }
}

/// The refusal of an object that has this under the key `rule`.
fn refusal(value: &Value, rule: &Value) -> Result<Refusal, MessageFault>
    requires { get (codes "rule") (view value.now) ≡ Some (view rule.now) }
    ensures { Reads (SaysRefusal (view value.now)) result }
{
    match rule.as_u64() {
        Some(13) => row_refusal(value),
        Some(rule) => refusal_by(rule).ok_or(MessageFault::Bad),
        None => Err(MessageFault::Bad),
    }
}

fn reply(value: &Value) -> Result<Reply, MessageFault>
    ensures { Reads (SaysReply (view value.now)) result }
{
    match value.get("rule") {
        Some(rule) => Ok(Reply::Refused(refusal(value, rule)?)),
        None => Ok(Reply::Done(done(value)?)),
    }
}

/// The reply whose text this is. Unreadable exactly where it is no reply's.
pub fn read_reply(alloc: Global, text: &str) -> Result<Reply, MessageFault>
    ensures { Reads (λ r. IsProperReply r × (text.now ≡ reply_text r)) result }
{
    let value = value_of(alloc, text.as_bytes())?;
    let reply = reply(&value)?;
    let written = reply_text(alloc, &reply)?;
    if written.as_str() != text {
        return Err(MessageFault::Bad);
    }
    Ok(reply)
}

fn done_is_proper(done: &Done)
    ensures { AreProper (done_fields done.now) }
{
    let _version = done.version;
    match done.deed {
        Deed::Add { id } => {
            let _id = id;
        }
        Deed::Rebalance {
            balance,
            changed,
            dispersion,
        }
        | Deed::RebalanceAs {
            balance,
            changed,
            dispersion,
        } => {
            let _balance = balance;
            let _changed = changed;
            let _dispersion = dispersion;
        }
        Deed::Import { added, reweighted } => {
            let _added = added;
            let _reweighted = reweighted;
        }
        _ => {}
    }
}

fn refusal_is_proper(refusal: &Refusal)
    ensures { IsProperRefusal refusal.now }
{
    if let Refusal::RowRefused { row, .. } = *refusal {
        let _row = row;
    }
}

/// Every reply is proper: its numbers are within their bounds.
pub fn reply_is_proper(reply: &Reply)
    ensures { IsProperReply reply.now }
{
    match reply {
        Reply::Done(done) => done_is_proper(done),
        Reply::Refused(refusal) => refusal_is_proper(refusal),
    }
}
