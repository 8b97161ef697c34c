//! What a hand takes of the cards that devices have left, and how it goes round.
ghost use Rattle.std.specs.Prelude.{◌≡◌, ◌<◌, ◌≤◌, ◌*◌, ◌++◌, All, IfOk, OnOk, length, replicate};
ghost use Rattle.ring_words.specs.Limits.{most_devices, most_seats};
ghost use Rattle.ring_deal.specs.Hand.{cards_of, dealt_round, taken_of};

use std::alloc::{AllocError, Global};

/// So many cards of the device at a place come behind.
fn add_cards(hand: &mut Vec<u8>, place: usize, count: u32) -> Result<(), AllocError>
    requires { place < most_devices }
    ensures { OnOk result (hand.new.items ≡ hand.old.items ++ replicate count place) }
{
    let all = hand.len() + count as usize;
    hand.resize(all, place as u8)
}

/// What the next of so many hands takes: of the cards that are left, laid in a row in an order of
/// their devices, each so-manieth.
#[tactic(auto, using(ring_room::proofs::Steps::steps_none))]
pub(crate) fn take_hand(
    alloc: Global,
    hands: u32,
    order: &[usize],
    left: &mut [u32],
) -> Result<Vec<u8>, AllocError>
    requires hands { 0 < hands }
    requires few { length left.old ≤ most_devices }
    requires within { All (λ place. place < length left.old) order.now }
    requires small { All (λ cards. cards ≤ most_seats) left.old }
    requires fewer { hands ≤ most_seats }
    ensures long { length left.new ≡ length left.old }
    ensures hand { IfOk result (λ hand. hand.items ≡ (taken_of hands order.now left.old).hand) }
    ensures left { IfOk result (λ hand. left.new ≡ (taken_of hands order.now left.old).left) }
{
    let mut hand = Vec::new(alloc);
    let mut passed = 0;
    for n in 0..order.len() {
        let place = order[n];
        passed += left[place];
        let count = passed / hands;
        passed %= hands;
        left[place] -= count;
        add_cards(&mut hand, place, count)?;
    }
    Ok(hand)
}

/// Adds the cards that fall to one of so many partitions, one in each round.
fn add_cards_of(
    places: &mut Vec<u8>,
    hand: &[u8],
    size: usize,
    replicas: usize,
    n: usize,
) -> Result<(), AllocError>
    requires n { n < size }
    requires whole { length hand.now ≡ replicas * size }
    ensures { OnOk result (places.new.items ≡ places.old.items ++ cards_of hand.now size replicas n) }
{
    for round in 0..replicas {
        places.push(hand[round * size + n])?;
    }
    Ok(())
}

/// Adds those of all of them, one partition after another.
pub(crate) fn add_round(
    places: &mut Vec<u8>,
    hand: &[u8],
    size: usize,
    replicas: usize,
) -> Result<(), AllocError>
    requires whole { length hand.now ≡ replicas * size }
    ensures { OnOk result (places.new.items ≡ places.old.items ++ dealt_round hand.now size replicas) }
{
    for n in 0..size {
        add_cards_of(places, hand, size, replicas, n)?;
    }
    Ok(())
}
