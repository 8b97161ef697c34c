//! All seats of a ring, dealt hand by hand.
ghost use Rattle.std.specs.Prelude.{◌≡◌, ◌<◌, ◌≤◌, ◌-◌, ◌*◌, ◌^◌, [], All, IfOk, OnOk, length, map};
ghost use Rattle.rand_pcg.specs.Lcg.{Lcg};
ghost use Rattle.ring_words.specs.Limits.{greatest_power, most_devices, most_replicas, most_seats};
ghost use Rattle.ring_share.specs.Codes.{AreCodes};
ghost use Rattle.ring_share.specs.declared.tiers.Tier.TheVariants.{Region, Server, Zone};
ghost use Rattle.ring_room.specs.Places.{id_at};
ghost use Rattle.ring_room.specs.Steps.{after_steps};
ghost use Rattle.ring_deal.specs.Deal.{AreDealt, CanDeal, StandApart, deal_at, deal_hand, dealt_seats};
ghost use Rattle.ring_deal.specs.Deal.{hand_count, hand_power, hand_size};
ghost use Rattle.ring_deal.specs.Inner.Going.{AreLeft};

use crate::draws::shuffled_order;
use crate::hand::{add_round, take_hand};
use crate::order::{Tiers, tier_order};
use rand_pcg::Pcg32;
use ring_words::{Device, DeviceId, Power, Replicas};
use std::alloc::{AllocError, Global};
use std::marker::Model;

/// The partitions are parted among at most 2 to the power of this hands.
const HAND_POWER: u16 = 7;

/// What was dealt and what is still to be: the places of the devices of seats, by partition and then
/// by replica, how many cards are left of each device, and the draws that are to come.
#[derive(Drop)]
struct Dealer {
    places: Vec<u8>,
    left: Vec<u32>,
    draws: Pcg32,
}

impl Model for Dealer {
    ghost use Rattle.ring_deal.specs.Deal.{Dealing};

    ghost Value = { Dealing };

    ghost view = { λ d. record {
      places = d.places.items;
      left = d.left.items;
      draws = d.draws;
    } };
}

/// How many hands there are at a part power.
fn hand_count(power: Power) -> usize
    ensures value { result ≡ hand_count power }
    ensures few { (0 < result) × (result ≤ 2 ^ hand_power) }
{
    1usize << power.get().min(HAND_POWER)
}

/// Of how many partitions each of them is.
fn hand_size(power: Power) -> usize
    ensures value { result ≡ hand_size power }
    ensures few { (0 < result) × (result ≤ 2 ^ hand_power) }
{
    1usize << power.get().saturating_sub(HAND_POWER)
}

/// Deals the next of so many hands, its devices in an order that is drawn.
fn deal_hand(
    alloc: Global,
    devices: &[Device],
    tiers: &Tiers,
    size: usize,
    replicas: usize,
    hands: u32,
    dealer: &mut Dealer,
) -> Result<(), AllocError>
    requires few { length devices.now ≤ most_devices }
    requires regions { AreCodes Region devices.now tiers.now.regions }
    requires zones { AreCodes Zone devices.now tiers.now.zones }
    requires servers { AreCodes Server devices.now tiers.now.servers }
    requires long { length dealer.old.left ≡ length devices.now }
    requires some { 0 < hands }
    requires seats { hands * size * replicas ≤ most_seats }
    requires fewer { hands ≤ 2 ^ hand_power }
    requires left { AreLeft hands size replicas dealer.old.left }
    ensures { OnOk result (dealer.new ≡ deal_hand devices.now size replicas hands dealer.old) }
{
    let ranks = shuffled_order(alloc, devices.len(), &mut dealer.draws)?;
    let order = tier_order(alloc, devices, tiers, ranks.as_slice())?;
    let hand = take_hand(alloc, hands, order.as_slice(), dealer.left.as_mut_slice())?;
    add_round(&mut dealer.places, hand.as_slice(), size, replicas)
}

/// Deals all hands, one after another.
#[tactic(auto, using(ring_room::proofs::Steps::steps_none))]
fn deal_hands(
    alloc: Global,
    devices: &[Device],
    power: Power,
    replicas: usize,
    dealer: &mut Dealer,
) -> Result<(), AllocError>
    requires can { CanDeal devices.now dealer.old.left power replicas }
    requires none { dealer.old.places ≡ [] }
    ensures { OnOk result (dealer.new ≡ after_steps (deal_at devices.now (hand_size power) replicas
        (hand_count power)) (hand_count power) dealer.old) }
{
    let tiers = Tiers::of(devices);
    let hands = hand_count(power);
    let size = hand_size(power);
    for n in 0..hands {
        deal_hand(
            alloc,
            devices,
            &tiers,
            size,
            replicas,
            (hands - n) as u32,
            dealer,
        )?;
    }
    Ok(())
}

/// The numbers of the devices at these places.
fn numbers_of(alloc: Global, devices: &[Device], places: &[u8]) -> Result<Vec<DeviceId>, AllocError>
    requires { All (λ place. place < length devices.now) places.now }
    ensures { IfOk result (λ ids. ids.items ≡ map (id_at devices.now) places.now) }
{
    let mut ids = Vec::with_capacity(alloc, places.len())?;
    for place in places {
        ids.push(devices[usize::from(*place)].id)?;
    }
    Ok(ids)
}

/// All seats of a ring, by partition and then by replica, dealt to devices that want so many: each
/// device has as many as it wants, the seats of a partition are on different ones, and no partition
/// has more seats in a region, in a zone or on a server than what these want forces on it.
///
/// For the cards of devices are laid in a row tier by tier, and each hand takes a share of them
/// evenly and goes round its partitions. The draws vary which of several such rings it is. An error
/// where memory is refused.
pub fn deal(
    alloc: Global,
    devices: &[Device],
    wanted: &[u32],
    power: Power,
    replicas: Replicas,
    draws: Pcg32,
) -> Result<Vec<DeviceId>, AllocError>
    requires can { CanDeal devices.now wanted.now power replicas }
    ensures dealt { IfOk result (λ seats. AreDealt devices.now wanted.now power replicas
        seats.items) }
    ensures apart { IfOk result (λ seats. StandApart devices.now wanted.now power replicas
        seats.items) }
    ensures by_name { IfOk result (λ seats. seats.items ≡ dealt_seats devices.now wanted.now power
        replicas draws) }
{
    let mut dealer = Dealer {
        places: Vec::new(alloc),
        left: Vec::from_slice(alloc, wanted)?,
        draws,
    };
    deal_hands(
        alloc,
        devices,
        power,
        usize::from(replicas.get()),
        &mut dealer,
    )?;
    numbers_of(alloc, devices, dealer.places.as_slice())
}
