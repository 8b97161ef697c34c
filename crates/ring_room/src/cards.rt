//! Which card a seat takes of the piles of cards for seats that devices lack.
ghost use Rattle.std.specs.Prelude.{◌≡◌, ◌<◌, ◌≤◌, ◌⊎◌, ℕ, true, false, All, length};
ghost use Rattle.std.specs.Prelude.{IfSome, IfNone, slice_index, slice_index_or, []};
ghost use Rattle.ring_words.specs.Limits.{most_replicas};
ghost use Rattle.std.specs.Prelude.{Some};
ghost use Rattle.ring_room.specs.Cards.{IsCard, best_pile, card_for, card_in, first_fit, fits, lower_of};
ghost use Rattle.ring_room.specs.Cards.{pile_rank, place_on, rank_of, taken};
ghost use Rattle.ring_room.specs.Load.{IsLeast, IsLoad, crowd_in, is_free_in};
ghost use Rattle.ring_room.specs.Places.{id_at, seats_at};
ghost use Rattle.ring_room.specs.Inner.TierCounts.{IsCounted};

use crate::piles::Pile;
use crate::rooms::Room;
use crate::search::place_after;
use crate::tier_counts::TierCounts;
use crate::tiers::{Crowd, is_less};

/// How many piles are compared at first.
const FEW_PILES: usize = 6;

/// A card of a pile.
#[derive(Clone, Copy)]
pub struct Card {
    /// Which of the piles it lies in.
    pub pile: usize,
    /// How many cards lie before it.
    pub index: usize,
}

/// A device that a seat takes.
#[derive(Clone, Copy)]
pub struct Taken {
    /// Its place.
    pub place: usize,
    /// The card that the seat takes with it, if any.
    pub card: Option<Card>,
}

/// The rank of a pile without a card of a device: behind all others.
const NO_RANK: u64 = u64::MAX;

/// The rank of a pile of so many cards whose zone is so crowded: the less crowded the lower, by
/// region and then by zone, and among equals the more cards the lower.
fn rank_of(crowd: Crowd, cards: usize) -> u64
    requires { (crowd.0 ≤ most_replicas) × (crowd.1 ≤ most_replicas) }
    ensures { result ≡ rank_of cards (Some crowd) }
{
    let crowded = u64::from(crowd.0 * 8 + crowd.1);
    (crowded << 32) + u64::from(u32::MAX).saturating_sub(cards as u64)
}

/// The best so far, a pile with its rank, or another pile if its rank is lower.
fn lower_of(best: (usize, u64), pile: usize, rank: u64) -> (usize, u64)
    ensures value { result ≡ lower_of best pile rank }
    ensures either { (result.0 ≡ best.0) ⊎ (result.0 ≡ pile) }
{
    if rank < best.1 { (pile, rank) } else { best }
}

impl Room {
    /// Whether there is a device at a place that has room, isn't among those at `others` and is no
    /// more crowded than this.
    fn fits(&self, others: &[usize], counts: &TierCounts, crowd: Crowd, place: usize) -> bool
        requires others { All (λ other. other < length self.now.devices) others.now }
        requires few { length others.now ≤ most_replicas }
        requires counts { IsCounted self.now (seats_at self.now.devices others.now) counts.now }
        ensures { result ≡ fits self.now (seats_at self.now.devices others.now) crowd place }
    {
        if place >= self.count() {
            return false;
        }
        self.is_free_at(others, place) && !is_less(crowd, self.crowd_by(others, counts, place))
    }

    /// At which of these cards the first such device is.
    fn first_fit(
        &self,
        others: &[usize],
        counts: &TierCounts,
        crowd: Crowd,
        cards: &[u8],
    ) -> Option<usize>
        requires others { All (λ other. other < length self.now.devices) others.now }
        requires few { length others.now ≤ most_replicas }
        requires counts { IsCounted self.now (seats_at self.now.devices others.now) counts.now }
        ensures by_name { result ≡ first_fit self.now (seats_at self.now.devices others.now) crowd
            cards.now }
        ensures within { IfSome result (λ index. index < length cards.now) }
        ensures fits { IfSome result (λ index. fits self.now (seats_at self.now.devices others.now)
            crowd (slice_index cards.now index) ≡ true) }
    {
        for (index, place) in cards.iter().enumerate() {
            if self.fits(others, counts, crowd, usize::from(*place)) {
                return Some(index);
            }
        }
        None
    }

    /// The rank of a pile for a seat.
    fn pile_rank(&self, others: &[usize], counts: &TierCounts, pile: &Pile) -> u64
        requires others { All (λ other. other < length self.now.devices) others.now }
        requires few { length others.now ≤ most_replicas }
        requires counts { IsCounted self.now (seats_at self.now.devices others.now) counts.now }
        ensures { result ≡ pile_rank self.now (seats_at self.now.devices others.now) pile.now }
    {
        let Some(place) = pile.first() else {
            return NO_RANK;
        };
        let place = usize::from(place);
        if place >= self.count() {
            return NO_RANK;
        }
        rank_of(self.crowd_by(others, counts, place), pile.count())
    }

    /// The best pile so far with its rank, or another if its rank is lower.
    fn better_pile(
        &self,
        others: &[usize],
        counts: &TierCounts,
        piles: &[Pile],
        pile: usize,
        best: (usize, u64),
    ) -> (usize, u64)
        requires others { All (λ other. other < length self.now.devices) others.now }
        requires few { length others.now ≤ most_replicas }
        requires counts { IsCounted self.now (seats_at self.now.devices others.now) counts.now }
        requires pile { pile < length piles.now }
        ensures value { result ≡ lower_of best pile (pile_rank self.now
            (seats_at self.now.devices others.now) (slice_index_or piles.now pile [])) }
        ensures either { (result.0 ≡ best.0) ⊎ (result.0 ≡ pile) }
    {
        // mostly its cards are too few, however crowded its zone
        if rank_of((0, 0, 0), piles[pile].count()) >= best.1 {
            return best;
        }
        lower_of(best, pile, self.pile_rank(others, counts, &piles[pile]))
    }

    /// The best of so many piles from one on: its zone is least crowded and, among equals, has most
    /// cards.
    #[tactic(auto, using(crate::proofs::Steps::steps_none))]
    fn best_pile(
        &self,
        others: &[usize],
        counts: &TierCounts,
        piles: &[Pile],
        start: usize,
        count: usize,
    ) -> usize
        requires others { All (λ other. other < length self.now.devices) others.now }
        requires few { length others.now ≤ most_replicas }
        requires counts { IsCounted self.now (seats_at self.now.devices others.now) counts.now }
        requires start { start < length piles.now }
        requires count { count ≤ length piles.now }
        ensures by_name { result ≡ best_pile self.now (seats_at self.now.devices others.now)
            piles.now start count }
        ensures within { result < length piles.now }
    {
        let mut best = (start, NO_RANK);
        for step in 0..count {
            let pile = place_after(piles.len(), start, step);
            best = self.better_pile(others, counts, piles, pile, best);
        }
        best.0
    }

    /// A card of the best of so many piles from one on: the first in front that fits a seat whose
    /// least crowded devices are so crowded.
    fn card_in(
        &self,
        others: &[usize],
        counts: &TierCounts,
        crowd: Crowd,
        piles: &[Pile],
        start: usize,
        count: usize,
    ) -> Option<Card>
        requires others { All (λ other. other < length self.now.devices) others.now }
        requires few { length others.now ≤ most_replicas }
        requires counts { IsCounted self.now (seats_at self.now.devices others.now) counts.now }
        requires start { start < length piles.now }
        requires count { count ≤ length piles.now }
        ensures by_name { result ≡ card_in self.now (seats_at self.now.devices others.now) crowd
            piles.now (best_pile self.now (seats_at self.now.devices others.now) piles.now start
            count) }
        ensures stands { IfSome result (λ card. IsCard piles.now card) }
        ensures fits { IfSome result (λ card. fits self.now (seats_at self.now.devices others.now)
            crowd (place_on piles.now card) ≡ true) }
    {
        let pile = self.best_pile(others, counts, piles, start, count);
        let index = self.first_fit(others, counts, crowd, piles[pile].in_front())?;
        Some(Card { pile, index })
    }

    /// The card for a seat whose least crowded devices are so crowded: of the best of a few piles
    /// from a drawn one on, or else of the best of all.
    fn card_for(
        &self,
        others: &[usize],
        counts: &TierCounts,
        crowd: Crowd,
        piles: &[Pile],
        draw: u32,
    ) -> Option<Card>
        requires others { All (λ other. other < length self.now.devices) others.now }
        requires few { length others.now ≤ most_replicas }
        requires counts { IsCounted self.now (seats_at self.now.devices others.now) counts.now }
        ensures by_name { result ≡ card_for self.now (seats_at self.now.devices others.now) crowd
            piles.now draw }
        ensures stands { IfSome result (λ card. IsCard piles.now card) }
        ensures fits { IfSome result (λ card. fits self.now (seats_at self.now.devices others.now)
            crowd (place_on piles.now card) ≡ true) }
    {
        if piles.is_empty() {
            return None;
        }
        let start = draw as usize % piles.len();
        let few = piles.len().min(FEW_PILES);
        if let Some(card) = self.card_in(others, counts, crowd, piles, start, few) {
            return Some(card);
        }
        self.card_in(others, counts, crowd, piles, start, piles.len())
    }

    /// The device that a seat takes whose other seats are on those at `others`: a least crowded
    /// one with room that isn't among them. A card of it is taken along where one is found.
    /// `None` exactly where no device outside has room.
    pub fn take_card(&self, others: &[usize], piles: &[Pile], draw: u32) -> Option<Taken>
        requires others { All (λ other. other < length self.now.devices) others.now }
        requires few { length others.now ≤ most_replicas }
        ensures by_name { result ≡ taken self.now (seats_at self.now.devices others.now) piles.now
            draw }
        ensures within { IfSome result (λ taken. taken.place < length self.now.devices) }
        ensures found { IfSome result (λ taken. IsLeast self.now
            (seats_at self.now.devices others.now) (id_at self.now.devices taken.place)) }
        ensures card { IfSome result (λ taken. IfSome taken.card (λ card. IsCard piles.now card ×
            (place_on piles.now card ≡ taken.place))) }
        ensures none { IfNone result ((id : ℕ) → is_free_in self.now
            (seats_at self.now.devices others.now) id ≡ false) }
    {
        if self.count == 0 {
            return None;
        }
        // mostly a card shows to be as good as any device
        let mut counts = TierCounts::none();
        self.count_tiers(others, &mut counts);
        let floor = self.floor(others, &counts);
        if let Some(card) = self.card_for(others, &counts, floor, piles, draw) {
            return Some(taken_with(piles, card));
        }
        let best = self.least_at(others, draw)?;
        let crowd = self.crowd_by(others, &counts, best);
        let Some(card) = self.card_for(others, &counts, crowd, piles, draw) else {
            return Some(Taken {
                place: best,
                card: None,
            });
        };
        Some(taken_with(piles, card))
    }
}

/// The device on a card, with the card.
fn taken_with(piles: &[Pile], card: Card) -> Taken
    requires { IsCard piles.now card }
    ensures { result ≡ record { place = place_on piles.now card; card = Some card } }
{
    Taken {
        place: piles[card.pile].place_at(card.index),
        card: Some(card),
    }
}
