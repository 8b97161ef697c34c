//! Each command: what is written of it, how it is read, and what is known of it.
ghost use Rattle.std.specs.Prelude.{◌≡◌, [], IfOk, Some, codes, string_bytes};
ghost use Rattle.serde_json.specs.Data.{no_members, string};
ghost use Rattle.serde_json.specs.Find.{get};
ghost use Rattle.serde_json.specs.View.{view};
ghost use Rattle.ring_words.specs.Texts.{address_text, hundredths_text};
ghost use Rattle.ring_words.specs.declared.command.Act.TheVariants as act;
ghost use Rattle.ring_words.specs.declared.command.DeviceAct.TheVariants as device_act;
ghost use Rattle.ring_messages.specs.Words.{kind_word};
ghost use Rattle.ring_messages.specs.Commands.{command_object, act_fields};
ghost use Rattle.ring_messages.specs.Commands.{canonical, command_data, IsProperAct};
ghost use Rattle.ring_messages.specs.Commands.{IsProperCommand};
ghost use Rattle.ring_words.specs.Spelling.{Reads};
ghost use Rattle.ring_messages.specs.Inner.Parts.{AddsKeyed, AddsParts, Begins};
ghost use Rattle.ring_messages.specs.Inner.Says.{HasFields, SaysAct};

use crate::MessageFault;
use crate::objects::Scalar::{self, Number, Text};
use crate::objects::{new_text, text_of, write_members};
use crate::parts::{bounded, number16_at, number32_at, weight};
use crate::rows::{device, import, row_is_proper, rows_are_proper, write_rows};
use crate::words::{kind_at, word_of};
use json::Writer;
use ring_words::{
    Act, Command, DeviceAct, DeviceId, Foretold, Key, Kind, NewRing, RingName, Row, Rows, Weight,
};
use serde_json::Value;
use std::alloc::{AllocError, Global};

/// Begins the object of a command. Who asks and by which number, if that is told, stand behind its
/// first members and behind the middle ones: the keys are in byte order.
fn begin(
    writer: &mut Writer,
    key: Option<&Key>,
    first: &[(&str, Scalar<'_>)],
    middle: &[(&str, Scalar<'_>)],
    last: &[(&str, Scalar<'_>)],
) -> Result<(), AllocError>
    ensures { Begins result writer.old writer.new key.entry first.now middle.now last.now }
{
    writer.begin_object()?;
    write_members(writer, first)?;
    if let Some(key) = key {
        write_members(writer, &[("caller", Text(key.caller.as_str()))])?;
    }
    write_members(writer, middle)?;
    if let Some(key) = key {
        write_members(writer, &[("number", Number(key.number.into()))])?;
    }
    write_members(writer, last)
}

/// Writes the object of a command, whose members are those of these three parts.
fn write_parts(
    writer: &mut Writer,
    key: Option<&Key>,
    first: &[(&str, Scalar<'_>)],
    middle: &[(&str, Scalar<'_>)],
    last: &[(&str, Scalar<'_>)],
) -> Result<(), AllocError>
    ensures { AddsParts result writer.old writer.new key.entry first.now middle.now last.now
        no_members }
{
    begin(writer, key, first, middle, last)?;
    writer.end_object()
}

#[tactic(auto, using(crate::proofs::Putting::keyed_is))]
fn write_create<'a>(
    writer: &mut Writer,
    key: Option<&Key>,
    word: &'a str,
    ring: &'a RingName,
    new: &'a NewRing,
) -> Result<(), AllocError>
    ensures { AddsKeyed result writer.old writer.new key.entry (command_object word.now ring.now
        (act_fields (act.Create new.now))) }
{
    write_parts(
        writer,
        key,
        &[],
        &[
            ("do", Text(word)),
            ("min_hours", Number(new.min_hours.into())),
        ],
        &[
            ("power", Number(new.power.get().into())),
            ("replicas", Number(new.replicas.get().into())),
            ("ring", Text(ring.as_str())),
        ],
    )
}

#[tactic(auto, using(crate::proofs::Putting::keyed_is))]
/// Writes an addition, with the texts of the device's address and weight.
fn write_add_of_texts<'a>(
    writer: &mut Writer,
    key: Option<&Key>,
    word: &'a str,
    ring: &'a RingName,
    row: &'a Row,
    address: &'a str,
    weight: &'a str,
) -> Result<(), AllocError>
    requires address { address.now ≡ address_text row.now.address }
    requires weight { weight.now ≡ hundredths_text row.now.weight }
    ensures { AddsKeyed result writer.old writer.new key.entry (command_object word.now ring.now
        (act_fields (act.Add row.now))) }
{
    write_parts(
        writer,
        key,
        &[("address", Text(address))],
        &[("do", Text(word)), ("name", Text(row.name.as_str()))],
        &[
            ("port", Number(row.port.get().into())),
            ("region", Number(row.region.into())),
            ("ring", Text(ring.as_str())),
            ("weight", Text(weight)),
            ("zone", Number(row.zone.into())),
        ],
    )
}

fn write_add(
    writer: &mut Writer,
    alloc: Global,
    key: Option<&Key>,
    word: &str,
    ring: &RingName,
    row: &Row,
) -> Result<(), AllocError>
    ensures { AddsKeyed result writer.old writer.new key.entry (command_object word.now ring.now
        (act_fields (act.Add row.now))) }
{
    let address = row.address.to_string(alloc)?;
    let weight = row.weight.to_string(alloc)?;
    write_add_of_texts(
        writer,
        key,
        word,
        ring,
        row,
        address.as_str(),
        weight.as_str(),
    )
}

#[tactic(auto, using(crate::proofs::Putting::keyed_is))]
/// Writes a device's new weight, with its text.
fn write_weight_of_text<'a>(
    writer: &mut Writer,
    key: Option<&Key>,
    word: &'a str,
    ring: &'a RingName,
    id: DeviceId,
    to: Weight,
    weight: &'a str,
) -> Result<(), AllocError>
    requires { weight.now ≡ hundredths_text to }
    ensures { AddsKeyed result writer.old writer.new key.entry (command_object word.now ring.now
        (act_fields (act.OnDevice id (device_act.SetWeight to)))) }
{
    write_parts(
        writer,
        key,
        &[],
        &[("do", Text(word)), ("id", Number(id.into()))],
        &[("ring", Text(ring.as_str())), ("weight", Text(weight))],
    )
}

fn write_set_weight(
    writer: &mut Writer,
    alloc: Global,
    key: Option<&Key>,
    word: &str,
    ring: &RingName,
    id: DeviceId,
    to: Weight,
) -> Result<(), AllocError>
    ensures { AddsKeyed result writer.old writer.new key.entry (command_object word.now ring.now
        (act_fields (act.OnDevice id (device_act.SetWeight to)))) }
{
    let weight = to.to_string(alloc)?;
    write_weight_of_text(writer, key, word, ring, id, to, weight.as_str())
}

#[tactic(auto, using(crate::proofs::Putting::keyed_is))]
/// Writes a command that says nothing but a device.
fn write_device<'a>(
    writer: &mut Writer,
    key: Option<&Key>,
    word: &'a str,
    ring: &'a RingName,
    id: DeviceId,
) -> Result<(), AllocError>
    ensures { AddsKeyed result writer.old writer.new key.entry (command_object word.now ring.now
        (act_fields (act.OnDevice id device_act.Remove))) }
{
    write_parts(
        writer,
        key,
        &[],
        &[("do", Text(word)), ("id", Number(id.into()))],
        &[("ring", Text(ring.as_str()))],
    )
}

#[tactic(auto, using(crate::proofs::Putting::keyed_is))]
fn write_set_hours<'a>(
    writer: &mut Writer,
    key: Option<&Key>,
    word: &'a str,
    ring: &'a RingName,
    hours: u16,
) -> Result<(), AllocError>
    ensures { AddsKeyed result writer.old writer.new key.entry (command_object word.now ring.now
        (act_fields (act.SetHours hours))) }
{
    write_parts(
        writer,
        key,
        &[],
        &[("do", Text(word)), ("min_hours", Number(hours.into()))],
        &[("ring", Text(ring.as_str()))],
    )
}

#[tactic(auto, using(crate::proofs::Putting::keyed_is))]
/// Writes a command that says nothing but its ring.
fn write_plain<'a>(
    writer: &mut Writer,
    key: Option<&Key>,
    word: &'a str,
    ring: &'a RingName,
) -> Result<(), AllocError>
    ensures { AddsKeyed result writer.old writer.new key.entry (command_object word.now ring.now
        []) }
{
    write_parts(
        writer,
        key,
        &[],
        &[("do", Text(word))],
        &[("ring", Text(ring.as_str()))],
    )
}

fn write_import<'a>(
    writer: &mut Writer,
    alloc: Global,
    key: Option<&Key>,
    word: &'a str,
    ring: &'a RingName,
    rows: &'a Rows,
) -> Result<(), AllocError>
    ensures { AddsKeyed result writer.old writer.new key.entry (command_object word.now ring.now
        (act_fields (act.Import rows.now))) }
{
    begin(
        writer,
        key,
        &[],
        &[("do", Text(word))],
        &[("ring", Text(ring.as_str()))],
    )?;
    writer.key("rows")?;
    write_rows(writer, alloc, rows.as_slice())?;
    writer.end_object()
}

#[tactic(auto, using(crate::proofs::Putting::keyed_is))]
fn write_rebalance<'a>(
    writer: &mut Writer,
    key: Option<&Key>,
    word: &'a str,
    ring: &'a RingName,
    seed: u32,
) -> Result<(), AllocError>
    ensures { AddsKeyed result writer.old writer.new key.entry (command_object word.now ring.now
        (act_fields (act.Rebalance seed))) }
{
    write_parts(
        writer,
        key,
        &[],
        &[("do", Text(word))],
        &[("ring", Text(ring.as_str())), ("seed", Number(seed.into()))],
    )
}

#[tactic(auto, using(crate::proofs::Putting::keyed_is))]
fn write_rebalance_as<'a>(
    writer: &mut Writer,
    key: Option<&Key>,
    word: &'a str,
    ring: &'a RingName,
    told: &'a Foretold,
) -> Result<(), AllocError>
    ensures { AddsKeyed result writer.old writer.new key.entry (command_object word.now ring.now
        (act_fields (act.RebalanceAs told.now))) }
{
    write_parts(
        writer,
        key,
        &[],
        &[("do", Text(word)), ("hour", Number(told.hour.into()))],
        &[
            ("ring", Text(ring.as_str())),
            ("seed", Number(told.seed.into())),
            ("version", Number(told.version.into())),
        ],
    )
}

/// Writes the object of a command, and in it who asks and by which number, if that is told.
pub(crate) fn write_command(
    writer: &mut Writer,
    alloc: Global,
    key: Option<&Key>,
    command: &Command,
) -> Result<(), AllocError>
    ensures { AddsKeyed result writer.old writer.new key.entry (command_data command.now) }
{
    let word = word_of(command.act.kind());
    let ring = &command.ring;
    match &command.act {
        Act::Create(new) => write_create(writer, key, word, ring, new),
        Act::Add(row) => write_add(writer, alloc, key, word, ring, row),
        Act::OnDevice(id, DeviceAct::SetWeight(to)) => {
            write_set_weight(writer, alloc, key, word, ring, *id, *to)
        }
        Act::OnDevice(id, DeviceAct::Remove | DeviceAct::Keep) => {
            write_device(writer, key, word, ring, *id)
        }
        Act::SetHours(hours) => write_set_hours(writer, key, word, ring, *hours),
        Act::Rebalance(seed) => write_rebalance(writer, key, word, ring, *seed),
        Act::RebalanceAs(told) => write_rebalance_as(writer, key, word, ring, told),
        Act::Import(rows) => write_import(writer, alloc, key, word, ring, rows),
        Act::PretendPassed | Act::RaisePower | Act::Publish => write_plain(writer, key, word, ring),
    }
}

/// The canonical text of a command: two commands are one exactly where these texts are.
pub fn command_text(alloc: Global, command: &Command) -> Result<String, AllocError>
    ensures { IfOk result (λ s. string_bytes s ≡ canonical command.now) }
{
    let mut writer = new_text(alloc)?;
    write_command(&mut writer, alloc, None, command)?;
    Ok(text_of(writer))
}

fn new_ring(value: &Value) -> Result<NewRing, MessageFault>
    ensures { Reads (λ new. HasFields (view value.now) (act_fields (act.Create new))) result }
{
    Ok(NewRing {
        power: bounded(value.get("power"))?,
        replicas: bounded(value.get("replicas"))?,
        min_hours: number16_at(value, "min_hours")?,
    })
}

fn foretold(value: &Value) -> Result<Foretold, MessageFault>
    ensures { Reads (λ told. HasFields (view value.now) (act_fields (act.RebalanceAs told))) result }
{
    Ok(Foretold {
        hour: number32_at(value, "hour")?,
        seed: number32_at(value, "seed")?,
        version: number32_at(value, "version")?,
    })
}

/// What an object with this command's word under the key `do` asks for.
fn act_of(alloc: Global, value: &Value, kind: Kind) -> Result<Act, MessageFault>
    requires word { get (codes "do") (view value.now) ≡ Some (string (kind_word kind)) }
    ensures { Reads (SaysAct (view value.now)) result }
{
    match kind {
        Kind::Create => Ok(Act::Create(new_ring(value)?)),
        Kind::Add => Ok(Act::Add(device(alloc, value)?)),
        Kind::SetWeight => {
            let id = number16_at(value, "id")?;
            let weight = weight(value.get("weight"))?;
            Ok(Act::OnDevice(id, DeviceAct::SetWeight(weight)))
        }
        Kind::Remove => Ok(Act::OnDevice(number16_at(value, "id")?, DeviceAct::Remove)),
        Kind::Keep => Ok(Act::OnDevice(number16_at(value, "id")?, DeviceAct::Keep)),
        Kind::SetHours => Ok(Act::SetHours(number16_at(value, "min_hours")?)),
        Kind::PretendPassed => Ok(Act::PretendPassed),
        Kind::RaisePower => Ok(Act::RaisePower),
        Kind::Publish => Ok(Act::Publish),
        Kind::Rebalance => Ok(Act::Rebalance(number32_at(value, "seed")?)),
        Kind::RebalanceAs => Ok(Act::RebalanceAs(foretold(value)?)),
        Kind::Import => Ok(Act::Import(import(alloc, value)?)),
    }
}

/// What an object asks for.
pub(crate) fn act(alloc: Global, value: &Value) -> Result<Act, MessageFault>
    ensures { Reads (SaysAct (view value.now)) result }
{
    match kind_at(value, "do") {
        Some(kind) => act_of(alloc, value, kind),
        None => Err(MessageFault::Bad),
    }
}

fn new_ring_is_proper(new: &NewRing)
    ensures { IsProperAct (act.Create new.now) }
{
    let _power = new.power.get();
    let _replicas = new.replicas.get();
    let _min_hours = new.min_hours;
}

fn on_device_is_proper(id: DeviceId, what: &DeviceAct)
    ensures { IsProperAct (act.OnDevice id what.now) }
{
    match what {
        DeviceAct::SetWeight(to) => {
            let _weight = to.hundredths();
        }
        DeviceAct::Remove | DeviceAct::Keep => {}
    }
}

fn foretold_is_proper(told: &Foretold)
    ensures { IsProperAct (act.RebalanceAs told.now) }
{
    let _seed = told.seed;
    let _version = told.version;
    let _hour = told.hour;
}

#[tactic(auto, using(crate::proofs::RowLists::all_by_recursion))]
fn act_is_proper(act: &Act)
    ensures { IsProperAct act.now }
{
    match act {
        Act::Create(new) => new_ring_is_proper(new),
        Act::Add(row) => row_is_proper(row),
        Act::OnDevice(id, what) => on_device_is_proper(*id, what),
        Act::SetHours(hours) => {
            let _hours = *hours;
        }
        Act::Rebalance(seed) => {
            let _seed = *seed;
        }
        Act::RebalanceAs(told) => foretold_is_proper(told),
        Act::PretendPassed | Act::RaisePower | Act::Publish => {}
        Act::Import(rows) => rows_are_proper(rows.as_slice()),
    }
}

/// Every command is proper: its names are of their form, and its numbers within their bounds. Laws
/// have this as a premise, and a caller gets it of the command that it has.
pub fn command_is_proper(command: &Command)
    ensures { IsProperCommand command.now }
{
    let _ring = command.ring.as_str();
    act_is_proper(&command.act);
}
