//! Deciding rebalances.
ghost use Rattle.std.specs.Prelude.{◌≡◌, IfOk, count_by};
ghost use Rattle.builder.specs.Step.{MovesAsForetold, MovesSeats, first_cause, of_foretold};
ghost use Rattle.builder.specs.Step.{of_rebalance};
ghost use Rattle.builder.specs.Inner.Outcome.{IsFirstOr};
ghost use Rattle.ring_share.specs.Want.{is_open};

use crate::deciding::Outcome;
use ring_model::{Ring, risen};
use ring_place::{PlaceError, rebalance};
use ring_share::{balance, dispersion, is_open};
use ring_words::{Deed, Device, Foretold, Hour, Refusal};
use std::alloc::{AllocError, Global};

/// Rebalances a ring at an hour, unless fewer of its devices are open than each partition has
/// replicas.
pub(crate) fn move_seats(
    alloc: Global,
    ring: &Ring,
    hour: Hour,
    seed: u32,
) -> Result<Outcome, AllocError>
    ensures { IfOk result (IsFirstOr (of_rebalance ring.now) (MovesSeats hour seed ring.now)) }
{
    let rebalanced = match rebalance(alloc, ring, hour, seed) {
        Ok(rebalanced) => rebalanced,
        Err(PlaceError::TooFewDevices) => return Ok(Outcome::Refused(Refusal::TooFewDevices)),
        Err(PlaceError::NoMemory) => return Err(AllocError),
    };
    let deed = Deed::Rebalance {
        balance: balance(&rebalanced.ring),
        changed: rebalanced.changed,
        dispersion: dispersion(&rebalanced.ring),
    };
    Ok(Outcome::Done(deed, rebalanced.ring))
}

/// How many devices are open.
fn open_count(devices: &[Device]) -> usize
    ensures { result ≡ count_by is_open devices.now }
{
    devices.iter().filter(|device| is_open(device)).count()
}

/// Why a rebalance at an hour isn't the one that was foretold, if it isn't.
fn foretold_refusal(ring: &Ring, hour: Hour, told: &Foretold) -> Option<Refusal>
    ensures { result ≡ first_cause (of_foretold hour told.now ring.now) }
{
    if open_count(ring.devices()) < usize::from(ring.replicas().get()) {
        Some(Refusal::TooFewDevices)
    } else if risen(ring.version()) != told.version {
        Some(Refusal::OtherVersion)
    } else if hour != told.hour {
        Some(Refusal::OtherHour)
    } else {
        None
    }
}

/// Rebalances a ring at an hour as it was foretold, unless fewer of its devices are open than each
/// partition has replicas, or the ring would have another version after it than was told, or the
/// hour is another one.
pub(crate) fn move_as_foretold(
    alloc: Global,
    ring: &Ring,
    hour: Hour,
    told: &Foretold,
) -> Result<Outcome, AllocError>
    ensures { IfOk result (IsFirstOr (of_foretold hour told.now ring.now)
        (MovesAsForetold hour told.now ring.now)) }
{
    if let Some(refusal) = foretold_refusal(ring, hour, told) {
        return Ok(Outcome::Refused(refusal));
    }
    let rebalanced = match rebalance(alloc, ring, hour, told.seed) {
        Ok(rebalanced) => rebalanced,
        Err(PlaceError::TooFewDevices) => return Ok(Outcome::Refused(Refusal::TooFewDevices)),
        Err(PlaceError::NoMemory) => return Err(AllocError),
    };
    let deed = Deed::RebalanceAs {
        balance: balance(&rebalanced.ring),
        changed: rebalanced.changed,
        dispersion: dispersion(&rebalanced.ring),
    };
    Ok(Outcome::Done(deed, rebalanced.ring))
}
