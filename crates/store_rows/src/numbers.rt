//! Whole numbers of rows, read as what they stand for.
ghost use Rattle.std.specs.Prelude.{◌≡◌, ◌<◌, ◌≤◌, pos};
ghost use Rattle.ring_words.specs.Limits.{long_count, short_count};
ghost use Rattle.ring_words.specs.Spelling.{Reads};
ghost use Rattle.ring_words.specs.Texts.{greatest_weight};
ghost use Rattle.store_rows.specs.RingRows.{hour_number, mark_number};
ghost use Rattle.ring_model.specs.Valid.{IsHour};

use ring_words::{Bounded, Hour, SpellingFault, Weight};

/// The number of a row as one of 32 bits.
pub(crate) fn number32(number: i64) -> Result<u32, SpellingFault>
    ensures { Reads (λ n. (number ≡ pos n) × (n < long_count)) result }
{
    u32::try_from(number).map_err(|_| SpellingFault::Bad)
}

/// The number of a row as one of 16 bits.
pub(crate) fn number16(number: i64) -> Result<u16, SpellingFault>
    ensures { Reads (λ n. (number ≡ pos n) × (n < short_count)) result }
{
    u16::try_from(number).map_err(|_| SpellingFault::Bad)
}

/// The number of a row as one within bounds.
pub(crate) fn bounded<const LEAST: u16, const MOST: u16>(
    number: i64,
) -> Result<Bounded<LEAST, MOST>, SpellingFault>
    ensures { Reads (λ n. (number ≡ pos n) × (LEAST ≤ n) × (n ≤ MOST)) result }
{
    Bounded::new(number16(number)?).ok_or(SpellingFault::Bad)
}

/// The number of a row as a weight in hundredths.
pub(crate) fn weight(number: i64) -> Result<Weight, SpellingFault>
    ensures { Reads (λ n. (number ≡ pos n) × (n ≤ greatest_weight)) result }
{
    Weight::of(number32(number)?).ok_or(SpellingFault::Bad)
}

/// The number of a row as a mark: 1 or 0.
pub(crate) fn mark(number: i64) -> Result<bool, SpellingFault>
    ensures { Reads (λ marked. number ≡ mark_number marked) result }
{
    match number {
        0 => Ok(false),
        1 => Ok(true),
        _ => Err(SpellingFault::Bad),
    }
}

/// The number of a row as the hour of a last move: -1 for never.
pub(crate) fn last_move(number: i64) -> Result<Option<Hour>, SpellingFault>
    ensures { Reads (λ hour. (number ≡ hour_number hour) × IsHour hour) result }
{
    if number == -1 {
        return Ok(None);
    }
    Ok(Some(number32(number)?))
}

/// The number of a last move's hour: -1 for never.
pub(crate) fn number_of_move(hour: Option<Hour>) -> i64
    ensures { result ≡ hour_number hour }
{
    match hour {
        Some(hour) => i64::from(hour),
        None => -1,
    }
}
