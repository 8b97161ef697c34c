//! The draws of a seed.
ghost use Rattle.std.specs.Prelude.{◌≡◌, ◌<◌, IfOk};
ghost use Rattle.std.specs.List.{range_with_len};
ghost use Rattle.std.specs.List.Sorted.{IsPermutation};
ghost use Rattle.ring_deal.specs.Draws.{draw_below, draws_of, shuffled};

use rand_core::utils::NextWord;
use rand_pcg::Pcg32;
use std::alloc::{AllocError, Global};

/// The draws of a seed: those of PCG-32 (M. O'Neill's generator) with this seed and the stream 0.
pub fn draws_of(seed: u32) -> Pcg32
    ensures { result ≡ draws_of seed }
{
    Pcg32::new(u64::from(seed), 0)
}

/// A number below a bound that isn't 0.
fn draw_below(draws: &mut Pcg32, bound: usize) -> usize
    requires { 0 < bound }
    ensures below { result < bound }
    ensures drawn { (result, draws.new) ≡ draw_below bound draws.old }
{
    ((u128::from(draws.next_word()) * bound as u128) >> 32) as usize
}

/// The numbers below a count.
fn numbers(alloc: Global, count: usize) -> Result<Vec<usize>, AllocError>
    ensures { IfOk result (λ numbers. numbers.items ≡ range_with_len 0 count) }
{
    let mut numbers = Vec::new(alloc);
    for number in 0..count {
        numbers.push(number)?;
    }
    Ok(numbers)
}

/// Puts items in an order that is drawn.
#[tactic(auto, using(ring_room::proofs::Steps::steps_none))]
pub fn shuffle<T>(items: &mut [T], draws: &mut Pcg32)
    ensures permutation { IsPermutation items.old items.new }
    ensures by_name { (items.new, draws.new) ≡ shuffled items.old draws.old }
{
    for place in 0..items.len() {
        let other = draw_below(draws, place + 1);
        items.swap(place, other);
    }
}

/// The numbers below a count, each once, in an order that is drawn. An error where memory is
/// refused.
pub fn shuffled_order(
    alloc: Global,
    count: usize,
    draws: &mut Pcg32,
) -> Result<Vec<usize>, AllocError>
    ensures permutation { IfOk result (λ order. IsPermutation (range_with_len 0 count) order.items) }
    ensures by_name { IfOk result (λ order. (order.items, draws.new) ≡ shuffled (range_with_len 0 count) draws.old) }
{
    let mut order = numbers(alloc, count)?;
    shuffle(order.as_mut_slice(), draws);
    Ok(order)
}
