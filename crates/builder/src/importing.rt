//! Imports: rows that are put into a ring, all or none.
ghost use Rattle.std.specs.Prelude.{◌≡◌, ◌+◌, ◌≤◌, IfOk, None, length};
ghost use Rattle.ring_model.specs.Import.{after_rows};
ghost use Rattle.builder.specs.Step.{ImportsRows, first_cause, first_trouble, of_more, of_rows};
ghost use Rattle.builder.specs.Step.{of_weight, row_refusal};
ghost use Rattle.builder.specs.Inner.Outcome.{IsFirstOr};

use crate::deciding::Outcome;
use ring_model::{Draft, Ring};
use ring_words::{Deed, Device, Limits, Refusal, Row, RowCause, Rows};
use std::alloc::AllocError;

/// Why a row isn't taken as a new weight of this device, if it isn't.
fn weight_refusal(device: &Device, row: &Row) -> Option<RowCause>
    ensures { result ≡ first_trouble (of_weight row.now device.now) }
{
    if device.removed {
        Some(RowCause::DeviceRemoved)
    } else if device.row.region != row.region || device.row.zone != row.zone {
        Some(RowCause::TierDiffers)
    } else {
        None
    }
}

/// Why no device is added to a ring, if none is.
fn more_refusal(draft: &Draft, limits: &Limits) -> Option<RowCause>
    ensures { result ≡ first_trouble (of_more limits.now draft.now) }
{
    if draft.device_count() >= limits.devices as usize {
        Some(RowCause::TooManyDevices)
    } else if draft.next_id() >= limits.ids {
        Some(RowCause::IdsUsedUp)
    } else {
        None
    }
}

/// Why a row isn't put into a ring, if it isn't.
fn row_refusal(draft: &Draft, row: &Row, limits: &Limits) -> Option<RowCause>
    ensures { result ≡ row_refusal limits.now draft.now row.now }
{
    match draft.device_at(row) {
        Some(device) => weight_refusal(device, row),
        None => more_refusal(draft, limits),
    }
}

/// Puts rows into a ring up to the first that is refused, and answers its refusal.
fn put_rows(draft: &mut Draft, rows: &[Row], limits: &Limits) -> Result<Option<Refusal>, AllocError>
    ensures refused { IfOk result (λ refused. refused ≡ first_cause (of_rows limits.now 1 draft.old
        rows.now)) }
    ensures put { IfOk result (λ refused. refused ≡ None → draft.new ≡ after_rows draft.old
        rows.now) }
    ensures numbers { IfOk result (λ refused. (draft.old.next_id ≤ draft.new.next_id) ×
        (draft.new.next_id ≤ draft.old.next_id + length rows.now)) }
{
    for (place, row) in rows.iter().enumerate() {
        if let Some(cause) = row_refusal(draft, row, limits) {
            let row = place as u64 + 1;
            return Ok(Some(Refusal::RowRefused { row, cause }));
        }
        draft.put(row)?;
    }
    Ok(None)
}

/// Adds devices and sets weights by rows, unless one of them is refused.
pub(crate) fn import(ring: &Ring, rows: &Rows, limits: &Limits) -> Result<Outcome, AllocError>
    ensures { IfOk result (IsFirstOr (of_rows limits.now 1 ring.now rows.now)
        (ImportsRows rows.now ring.now)) }
{
    let mut draft = Draft::of(ring)?;
    if let Some(refusal) = put_rows(&mut draft, rows.as_slice(), limits)? {
        return Ok(Outcome::Refused(refusal));
    }
    let added = u64::from(draft.next_id() - ring.next_id());
    let reweighted = rows.as_slice().len() as u64 - added;
    let deed = Deed::Import { added, reweighted };
    Ok(Outcome::Done(deed, draft.finish()))
}
