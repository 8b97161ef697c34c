//! The seats that devices lack as piles of cards, one for each zone.
ghost use Rattle.std.specs.Prelude.{◌≡◌, ◌<◌, ◌++◌, length, replicate, filter, IfOk, IfSome, OnOk};
ghost use Rattle.std.specs.List.{range_with_len};
ghost use Rattle.ring_words.specs.Limits.{most_devices};
ghost use Rattle.rand_pcg.specs.Lcg.{Lcg};
ghost use Rattle.rand_pcg.specs.Pcg.{pcg32};
ghost use Rattle.ring_room.specs.Cards.{IsCard};
ghost use Rattle.ring_place.specs.Made.{dealt, deck_of, is_first, pile_more, zone_cards, zone_places};

use rand_core::utils::NextWord;
use rand_pcg::Pcg32;
use ring_deal::shuffle;
use ring_room::{Card, Pile, Room};
use std::alloc::{AllocError, Global};
use std::marker::Model;

/// Piles of cards by the places of devices, each in an order that is drawn, and the draws that are
/// to come.
#[derive(Drop)]
pub(crate) struct Deck {
    piles: Vec<Pile>,
    draws: Pcg32,
}

impl Model for Deck {
    ghost use Rattle.ring_place.specs.Made.{Cards};

    ghost Value = { Cards };

    ghost view = { λ d. record { piles = d.piles.items; draws = d.draws } };
}

/// Whether no device before the one at a place shares its zone.
fn is_first(room: &Room, place: usize) -> bool
    requires { place < length room.now.devices }
    ensures { result ≡ is_first room.now place }
{
    for other in 0..place {
        if room.shares_zone(place, other) {
            return false;
        }
    }
    true
}

/// The place of the first device of each zone.
fn zone_places(alloc: Global, room: &Room) -> Result<Vec<usize>, AllocError>
    ensures { IfOk result (λ places. places.items ≡ zone_places room.now) }
{
    let mut places = Vec::new(alloc);
    for place in 0..room.count() {
        if is_first(room, place) {
            places.push(place)?;
        }
    }
    Ok(places)
}

/// So many cards of the device at a place come behind.
fn add_cards(cards: &mut Vec<u8>, place: usize, count: u32) -> Result<(), AllocError>
    requires { place < most_devices }
    ensures { OnOk result (cards.new.items ≡ cards.old.items ++ replicate count place) }
{
    let all = cards.len() + count as usize;
    cards.resize(all, place as u8)
}

/// A card for each seat that a device in the zone of the one at a place lacks.
fn zone_cards(alloc: Global, room: &Room, zone: usize) -> Result<Vec<u8>, AllocError>
    requires { zone < length room.now.devices }
    ensures { IfOk result (λ cards. cards.items ≡ zone_cards room.now zone) }
{
    let mut cards = Vec::new(alloc);
    for place in 0..room.count() {
        if room.shares_zone(zone, place) {
            add_cards(&mut cards, place, room.lacks_at(place))?;
        }
    }
    Ok(cards)
}

impl Deck {
    /// A card for each seat that a device lacks: a pile for each zone, in an order that is drawn,
    /// and the piles in one too.
    #[tactic(auto, using(ring_room::proofs::Steps::steps_none))]
    pub(crate) fn of(alloc: Global, room: &Room, draws: Pcg32) -> Result<Deck, AllocError>
        ensures { IfOk result (λ deck. deck ≡ deck_of room.now draws) }
    {
        let mut deck = Deck {
            piles: Vec::new(alloc),
            draws,
        };
        for zone in &zone_places(alloc, room)? {
            deck.add_pile(alloc, room, *zone)?;
        }
        shuffle(deck.piles.as_mut_slice(), &mut deck.draws);
        Ok(deck)
    }

    /// Adds a pile of the cards of a zone, if it has any.
    fn add_pile(&mut self, alloc: Global, room: &Room, zone: usize) -> Result<(), AllocError>
        requires { zone < length room.now.devices }
        ensures { OnOk result (self.new ≡ pile_more room.now zone self.old) }
    {
        let mut cards = zone_cards(alloc, room, zone)?;
        if cards.is_empty() {
            return Ok(());
        }
        shuffle(cards.as_mut_slice(), &mut self.draws);
        self.piles.push(Pile::of(cards))?;
        Ok(())
    }

    /// The next draw.
    pub(crate) fn draw(&mut self) -> u32
        ensures draw { result ≡ (pcg32 self.old.draws).0 }
        ensures left { self.new ≡ record self.old { draws = (pcg32 self.old.draws).1 } }
    {
        self.draws.next_word()
    }

    /// The piles.
    pub(crate) fn piles(&self) -> &[Pile]
        ensures { result.now ≡ self.now.piles }
    {
        &self.piles
    }

    /// Deals a card, if one is taken.
    pub(crate) fn deal(&mut self, card: Option<Card>)
        requires { IfSome card (IsCard self.old.piles) }
        ensures { self.new ≡ record self.old { piles = dealt self.old.piles card } }
    {
        if let Some(card) = card {
            self.piles[card.pile].deal(card.index);
        }
    }
}
