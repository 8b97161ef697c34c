//! How many seats each device has, keeps, gives and takes, by its number. Each counts for all devices
//! in one pass over the seats.
ghost use Rattle.std.specs.Prelude.{◌≡◌, ◌==◌, ◌<◌, ◌+◌, ◌^◌, ℕ, IfOk, if◌then◌else◌, length};
ghost use Rattle.std.specs.Prelude.{min, slice_index};
ghost use Rattle.std.specs.List.{zip};
ghost use Rattle.ring_words.specs.Limits.{most_ids};
ghost use Rattle.ring_share.specs.Crowd.{is_on};
ghost use Rattle.ring_reads.specs.Moves.{stays_on};
ghost use Rattle.ring_reads.specs.Inner.SeatCounts.{AreSeatCounts};

use crate::seat_moves::Move;
use ring_words::{DeviceId, MOST_IDS};
use std::alloc::{AllocError, Global};

/// 0 for each of so many numbers.
fn no_counts(alloc: Global, count: usize) -> Result<Vec<usize>, AllocError>
    ensures long { IfOk result (λ counts. length counts.items ≡ count) }
    ensures zero { IfOk result (λ counts. (id : ℕ) → slice_index counts.items id ≡ 0) }
{
    vec![in alloc; 0; count]
}

/// Counts one more for the device on a seat, if there is one.
fn count_one(counts: &mut Vec<usize>, seat: Option<DeviceId>)
    requires long { length counts.old.items ≡ most_ids }
    requires small { (id : ℕ) → slice_index counts.old.items id < 2 ^ 63 }
    ensures long { length counts.new.items ≡ most_ids }
    ensures counted { (id : ℕ) → slice_index counts.new.items id ≡
        slice_index counts.old.items id + (if is_on (λ other. other == id) seat then 1 else 0) }
{
    if let Some(id) = seat {
        counts[usize::from(id)] += 1;
    }
}

/// How many of some seats are on each device.
pub(crate) fn seat_counts(alloc: Global, seats: &[DeviceId]) -> Result<Vec<usize>, AllocError>
    ensures { IfOk result (λ counts. AreSeatCounts (λ id seat. seat == id) seats.now counts.items) }
{
    let mut counts = no_counts(alloc, MOST_IDS)?;
    for seat in seats {
        count_one(&mut counts, Some(*seat));
    }
    Ok(counts)
}

fn lesser(a: usize, b: usize) -> usize
    ensures { result ≡ min a b }
{
    a.min(b)
}

/// The device that a seat was on and is on; `None` if they differ.
fn kept_by(before: DeviceId, after: DeviceId) -> Option<DeviceId>
    ensures { (id : ℕ) → is_on (λ other. other == id) result ≡ stays_on id (before, after) }
{
    if before == after { Some(after) } else { None }
}

/// How many seats are on each device in both lists, which tell the devices of the same seats in the
/// same order.
pub(crate) fn staying_counts(
    alloc: Global,
    before: &[DeviceId],
    after: &[DeviceId],
) -> Result<Vec<usize>, AllocError>
    ensures { IfOk result (λ counts. AreSeatCounts stays_on (zip before.now after.now) counts.items) }
{
    let mut counts = no_counts(alloc, MOST_IDS)?;
    for place in 0..lesser(before.len(), after.len()) {
        count_one(&mut counts, kept_by(before[place], after[place]));
    }
    Ok(counts)
}

/// How many of some seats that differ each device had.
pub(crate) fn given_counts(alloc: Global, moves: &[Move]) -> Result<Vec<usize>, AllocError>
    ensures { IfOk result (λ counts. AreSeatCounts (λ id move. is_on (λ other. other == id) move.from)
        moves.now counts.items) }
{
    let mut counts = no_counts(alloc, MOST_IDS)?;
    for one in moves {
        count_one(&mut counts, one.from);
    }
    Ok(counts)
}

/// How many of them each device has.
pub(crate) fn taken_counts(alloc: Global, moves: &[Move]) -> Result<Vec<usize>, AllocError>
    ensures { IfOk result (λ counts. AreSeatCounts (λ id move. is_on (λ other. other == id) move.to)
        moves.now counts.items) }
{
    let mut counts = no_counts(alloc, MOST_IDS)?;
    for one in moves {
        count_one(&mut counts, one.to);
    }
    Ok(counts)
}
