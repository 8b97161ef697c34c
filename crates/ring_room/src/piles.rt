//! The seats that the devices of a zone lack, as a pile of cards.
ghost use Rattle.std.specs.Prelude.{◌≡◌, ◌<◌, length, slice_get, slice_index};
ghost use Rattle.ring_room.specs.Cards.{in_front, without_card};

use std::marker::Model;

/// How many cards of a pile are looked at.
const WINDOW: usize = 16;

/// Cards by the places of the devices of one zone.
#[derive(Drop)]
pub struct Pile {
    cards: Vec<u8>,
}

impl Model for Pile {
    ghost use Rattle.std.specs.Prelude.{ℕ, List};

    ghost Value = { List ℕ };

    ghost view = { λ pile. pile.cards.items };
}

impl Pile {
    /// A pile of these cards.
    pub fn of(cards: Vec<u8>) -> Pile
        ensures { result ≡ cards.items }
    {
        Pile { cards }
    }

    /// How many cards there are.
    pub fn count(&self) -> usize
        ensures { result ≡ length self.now }
    {
        self.cards.len()
    }

    /// The place on the first card, if there is one.
    pub(crate) fn first(&self) -> Option<u8>
        ensures { result ≡ slice_get self.now 0 }
    {
        self.cards.first().copied()
    }

    /// The place on the card behind so many.
    pub(crate) fn place_at(&self, index: usize) -> usize
        requires { index < length self.now }
        ensures { result ≡ slice_index self.now index }
    {
        usize::from(self.cards[index])
    }

    /// The cards in front, those that are looked at.
    pub(crate) fn in_front(&self) -> &[u8]
        ensures { result.now ≡ in_front self.now }
    {
        &self.cards[..self.cards.len().min(WINDOW)]
    }

    /// Takes a card out. The last of all comes to its place.
    pub fn deal(&mut self, index: usize)
        requires { index < length self.old }
        ensures { self.new ≡ without_card self.old index }
    {
        self.cards.swap_remove(index);
    }
}
