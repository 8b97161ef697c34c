//! The lines of partitions, read byte by byte: a text has thousands of them.
ghost use Rattle.std.specs.Prelude.{◌≡◌, ◌+◌, ◌<◌, ◌≤◌, ◌==◌, ◌++◌, ◌∷◌, ℕ, List, IfOk, IsErrOf};
ghost use Rattle.std.specs.Prelude.{◌↔◌, IsTrue, decimal, drop, length, slice_index};
ghost use Rattle.std.specs.Int.{IsInRange};
ghost use Rattle.std.specs.List.{slice_split};
ghost use Rattle.ring_words.specs.Limits.{greatest_short, most_partitions};
ghost use Rattle.ring_words.specs.declared.spelling.SpellingFault.TheVariants.{Bad};
ghost use Rattle.ring_text.specs.Inner.Reading.{AreDigitsAt, ArePartitionLines, AreShort};
ghost use Rattle.ring_text.specs.Inner.Reading.{BeginsWithPartition, HasPartitions, IsNumberAt};
ghost use Rattle.ring_text.specs.Inner.Reading.{IsPartitionAt};

use crate::TextFault;
use ring_words::{DeviceId, Replicas};
use std::alloc::Global;

/// How many digits a number of 16 bits has at most.
const MOST_DIGITS: usize = 5;

/// The number that the digits from a place on are, five of them at most, and where they end.
fn digits_at(text: &[u8], from: usize) -> (u32, usize)
    requires { from ≤ length text.now }
    ensures read { AreDigitsAt text.now from result.1 result.0 }
    ensures stop { result.1 < length text.now → result.1 < from + 5 →
        IsInRange 48 57 (slice_index text.now result.1) → ⊥ }
{
    let limit = text.len().min(from + MOST_DIGITS);
    let mut number = 0u32;
    for place in from..limit {
        let byte = text[place];
        if !byte.is_ascii_digit() {
            return (number, place);
        }
        number = number * 10 + u32::from(byte - b'0');
    }
    (number, limit)
}

/// Whether a byte stands at a place.
fn stands_at(text: &[u8], place: usize, byte: u8) -> bool
    ensures { IsTrue result ↔ (place < length text.now) × (slice_index text.now place ≡ byte) }
{
    place < text.len() && text[place] == byte
}

/// Whether the digits from a place to another, with this number, are the one spelling of a number
/// of 16 bits: there is one, and no zero before another one.
fn are_short(text: &[u8], from: usize, end: usize, number: u32) -> bool
    requires { end ≤ length text.now }
    ensures { IsTrue result ↔ AreShort text.now from end number }
{
    from < end && (text[from] != b'0' || end == from + 1) && number <= u32::from(u16::MAX)
}

/// The number in decimal from a place on, from 0 to 65535, and the place behind the separator that
/// has to follow it.
fn number_at(text: &[u8], from: usize, separator: u8) -> Result<(u16, usize), TextFault>
    requires place { from ≤ length text.now }
    requires separator { separator < 48 }
    ensures read { IfOk result (λ x. IsNumberAt text.now from separator x.0 x.1) }
    ensures bad { IsErrOf result Bad → (n : ℕ) (rest : List ℕ) → n ≤ greatest_short →
        drop from text.now ≡ decimal n ++ separator ∷ rest → ⊥ }
{
    let (number, end) = digits_at(text, from);
    if !stands_at(text, end, separator) {
        return Err(TextFault::Bad);
    }
    if !are_short(text, from, end, number) {
        return Err(TextFault::Bad);
    }
    Ok((number as u16, end + 1))
}

/// Puts the devices of the partition whose line begins at a place behind the seats, so many as
/// there are replicas. Answers the place behind its line feed. Where there is no such line, some of
/// them may stand behind the seats.
fn push_partition(
    seats: &mut Vec<DeviceId>,
    text: &[u8],
    from: usize,
    replicas: Replicas,
) -> Result<usize, TextFault>
    requires { from ≤ length text.now }
    ensures read { IfOk result (λ next. IsPartitionAt replicas text.now from next seats.old.items
        seats.new.items) }
    ensures bad { IsErrOf result Bad → (row rest : List ℕ) → BeginsWithPartition replicas (drop from
        text.now) row rest → ⊥ }
{
    let mut place = from;
    for _replica in 1..replicas.get() {
        let (number, next) = number_at(text, place, b' ')?;
        seats.push(number)?;
        place = next;
    }
    let (number, next) = number_at(text, place, b'\n')?;
    seats.push(number)?;
    Ok(next)
}

/// The seats of so many partitions, whose lines are the first of a text, and what follows them.
pub(crate) fn seats_of(
    alloc: Global,
    text: &[u8],
    partitions: usize,
    replicas: Replicas,
) -> Result<(Vec<DeviceId>, &[u8]), TextFault>
    requires { partitions ≤ most_partitions }
    ensures read { IfOk result (λ x. HasPartitions partitions replicas text.now x.0.items x.1.now) }
    ensures bad { IsErrOf result Bad → (texts more : List (List ℕ)) (seats : List ℕ) → slice_split
        (λ b. b == 10) text.now ≡ texts ++ more → 0 < length more → length texts ≡ partitions →
        ArePartitionLines replicas texts seats → ⊥ }
{
    let count = partitions * usize::from(replicas.get());
    let mut seats = Vec::with_capacity(alloc, count)?;
    let mut place = 0;
    for _partition in 0..partitions {
        place = push_partition(&mut seats, text, place, replicas)?;
    }
    Ok((seats, &text[place..]))
}
