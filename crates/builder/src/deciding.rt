//! Deciding commands.
ghost use Rattle.std.specs.Prelude.{◌≡◌, ◌∷◌, [], IfOk};
ghost use Rattle.builder.specs.Step.{AddsDevice, AltersDevice, NoRingEffect, PretendsPassed};
ghost use Rattle.builder.specs.Step.{PublishesText, RaisesPower, RingEffect, SetsHours};
ghost use Rattle.builder.specs.Step.{Step, first_cause, no_ring_causes, of_addition, of_device};
ghost use Rattle.builder.specs.Step.{of_mark, of_power, of_text, ring_causes};
ghost use Rattle.builder.specs.Inner.Outcome.{IsFirstOr, IsOutcome};

use crate::importing::import;
use crate::rebalancing::{move_as_foretold, move_seats};
use ring_model::{RaiseFault, Ring, Rings};
use ring_text::{snapshot, write_ring};
use ring_words::{
    Act, Command, Deed, DeviceAct, DeviceId, Done, Hour, Limits, NewRing, Refusal, Reply, RingName,
    Row,
};
use std::alloc::{AllocError, Global};

/// What a command comes to.
#[derive(Drop)]
pub(crate) enum Outcome {
    /// It is refused.
    Refused(Refusal),
    /// This is done, and the named ring is this one from now on.
    Done(Deed, Ring),
}

/// Adds a device, unless its place is taken, there are too many, or the numbers are used up.
fn add(ring: &Ring, row: &Row, limits: &Limits) -> Result<Outcome, AllocError>
    ensures { IfOk result (IsFirstOr (of_addition limits.now row.now ring.now)
        (AddsDevice row.now ring.now)) }
{
    if ring.has_place(row) {
        return Ok(Outcome::Refused(Refusal::DeviceExists));
    }
    if ring.devices().len() >= limits.devices as usize {
        return Ok(Outcome::Refused(Refusal::TooManyDevices));
    }
    if ring.next_id() >= limits.ids {
        return Ok(Outcome::Refused(Refusal::IdsUsedUp));
    }
    let added = ring.with_device(row)?;
    let id = ring.next_id() as u16;
    Ok(Outcome::Done(Deed::Add { id }, added))
}

/// Why the mark of a device is against what is done to it, if it is. A mark is taken off only where
/// there is one, and all else is done only to a device that isn't marked.
fn mark_refusal(ring: &Ring, id: DeviceId, what: &DeviceAct) -> Option<Refusal>
    ensures { result ≡ first_cause (of_mark id what.now ring.now ∷ []) }
{
    match (what, ring.has_present(id)) {
        (DeviceAct::Keep, true) => Some(Refusal::NotMarked),
        (DeviceAct::Keep, false) => None,
        (_, true) => None,
        (_, false) => Some(Refusal::DeviceRemoved),
    }
}

/// Does this to a device, unless there is no such device or its mark is against it.
fn alter(ring: &Ring, id: DeviceId, what: &DeviceAct) -> Result<Outcome, AllocError>
    ensures { IfOk result (IsFirstOr (of_device id what.now ring.now)
        (AltersDevice id what.now ring.now)) }
{
    if !ring.has_device(id) {
        return Ok(Outcome::Refused(Refusal::NoDevice));
    }
    if let Some(refusal) = mark_refusal(ring, id, what) {
        return Ok(Outcome::Refused(refusal));
    }
    let altered = ring.with_altered(id, *what)?;
    Ok(Outcome::Done(what.deed(), altered))
}

/// Sets for how many hours a partition that was moved stays where it is.
fn set_hours(ring: &Ring, hours: u16) -> Result<Outcome, AllocError>
    ensures { IfOk result (IsFirstOr [] (SetsHours hours ring.now)) }
{
    let set = ring.with_min_hours(hours)?;
    Ok(Outcome::Done(Deed::SetHours, set))
}

/// Lets each partition be moved as if it never had been.
fn pretend_passed(ring: &Ring) -> Result<Outcome, AllocError>
    ensures { IfOk result (IsFirstOr [] (PretendsPassed ring.now)) }
{
    let passed = ring.with_hours_passed()?;
    Ok(Outcome::Done(Deed::PretendPassed, passed))
}

/// Splits each partition into two, unless the ring has the greatest power.
fn raise_power(ring: &Ring) -> Result<Outcome, AllocError>
    ensures { IfOk result (IsFirstOr (of_power ring.now) (RaisesPower ring.now)) }
{
    let raised = match ring.raised() {
        Ok(raised) => raised,
        Err(RaiseFault::PowerLimit) => return Ok(Outcome::Refused(Refusal::PowerLimit)),
        Err(RaiseFault::NoMemory) => return Err(AllocError),
    };
    Ok(Outcome::Done(Deed::RaisePower, raised))
}

/// Publishes the text of the ring as it is under its version, unless the seats are empty, or as
/// many other versions are published as there may be.
fn publish(
    alloc: Global,
    name: &RingName,
    ring: &Ring,
    limits: &Limits,
) -> Result<Outcome, AllocError>
    ensures { IfOk result (IsFirstOr (of_text limits.now ring.now) (PublishesText name.now
        ring.now)) }
{
    if !ring.is_assigned() {
        return Ok(Outcome::Refused(Refusal::NotAssigned));
    }
    if !ring.is_published() && ring.published_list().len() >= limits.versions as usize {
        return Ok(Outcome::Refused(Refusal::TooManyVersions));
    }
    let text = write_ring(alloc, &snapshot(alloc, name, ring)?)?;
    let published = ring.with_published(alloc, text.as_str())?;
    Ok(Outcome::Done(Deed::Publish, published))
}

/// What an act on a ring that is there comes to.
fn on_ring(
    alloc: Global,
    name: &RingName,
    ring: &Ring,
    hour: Hour,
    act: &Act,
    limits: &Limits,
) -> Result<Outcome, AllocError>
    ensures { IfOk result (IsFirstOr (ring_causes limits.now hour ring.now act.now)
        (RingEffect name.now hour ring.now act.now)) }
{
    match act {
        Act::Create(_) => Ok(Outcome::Refused(Refusal::RingExists)),
        Act::Add(row) => add(ring, row, limits),
        Act::OnDevice(id, what) => alter(ring, *id, what),
        Act::SetHours(hours) => set_hours(ring, *hours),
        Act::PretendPassed => pretend_passed(ring),
        Act::RaisePower => raise_power(ring),
        Act::Import(rows) => import(ring, rows, limits),
        Act::Publish => publish(alloc, name, ring, limits),
        Act::Rebalance(seed) => move_seats(alloc, ring, hour, *seed),
        Act::RebalanceAs(told) => move_as_foretold(alloc, ring, hour, told),
    }
}

/// What an act comes to where no ring has the name: a new ring, unless there are too many.
fn on_no_ring(
    alloc: Global,
    rings: &Rings,
    act: &Act,
    limits: &Limits,
) -> Result<Outcome, AllocError>
    ensures { IfOk result (IsFirstOr (no_ring_causes limits.now rings.now act.now)
        (NoRingEffect act.now)) }
{
    let Act::Create(new) = act else {
        return Ok(Outcome::Refused(Refusal::NoRing));
    };
    if rings.list().len() >= limits.rings as usize {
        return Ok(Outcome::Refused(Refusal::TooManyRings));
    }
    let ring = Ring::new(alloc, new.power, new.replicas, new.min_hours)?;
    Ok(Outcome::Done(Deed::Create, ring))
}

/// What a command comes to.
fn outcome_of(
    alloc: Global,
    rings: &Rings,
    hour: Hour,
    command: &Command,
    limits: &Limits,
) -> Result<Outcome, AllocError>
    ensures { IfOk result (IsOutcome limits.now rings.now hour command.now) }
{
    match rings.get(&command.ring) {
        Some(ring) => on_ring(alloc, &command.ring, ring, hour, &command.act, limits),
        None => on_no_ring(alloc, rings, &command.act, limits),
    }
}

/// Decides a command at an hour: its reply, and the rings after it. The rings before it stay as
/// they were.
pub fn decide(
    alloc: Global,
    rings: &Rings,
    hour: Hour,
    command: &Command,
    limits: &Limits,
) -> Result<(Rings, Reply), AllocError>
    ensures { IfOk result (λ decided. Step limits.now rings.now hour command.now decided.1
        decided.0) }
{
    match outcome_of(alloc, rings, hour, command, limits)? {
        Outcome::Refused(refusal) => Ok((rings.clone()?, Reply::Refused(refusal))),
        Outcome::Done(deed, ring) => {
            let version = ring.version();
            let done = Done { version, deed };
            let name = command.ring.clone()?;
            Ok((rings.with(name, ring)?, Reply::Done(done)))
        }
    }
}
