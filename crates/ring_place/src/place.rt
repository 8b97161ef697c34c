//! Where lifted seats are put.
ghost use Rattle.std.specs.Prelude.{◌≡◌, ◌<◌, ◌≤◌, ◌==◌, ℕ, true, false, All, count_by, length, sum_by};
ghost use Rattle.ring_words.specs.Limits.{most_replicas, most_seats};
ghost use Rattle.std.specs.Prelude.{slice_get, slice_index_or, slice_set, IfSome, None, OnOk, Some};
ghost use Rattle.std.specs.Prelude.{take};
ghost use Rattle.std.specs.List.{range_with_len};
ghost use Rattle.std.specs.List.Sorted.{IsPermutation};
ghost use Rattle.ring_model.specs.Ring.{has_device, has_present};
ghost use Rattle.ring_share.specs.Crowd.{is_on, seats_on};
ghost use Rattle.ring_share.specs.Want.{is_open as is_open_device};
ghost use Rattle.ring_room.specs.Rows.{AreKnown, devices_on};
ghost use Rattle.ring_place.specs.Made.{row_at};
ghost use Rattle.ring_room.specs.Load.{IsLeast, IsLoad, have_in, load_put, seats_of};
ghost use Rattle.ring_place.specs.Inner.Placing.{AllPlaced, CanPlace, IsChosen, OpenWant, OwnWins};
ghost use Rattle.ring_place.specs.Inner.Placing.{AreFull, AreTurns, AreWaiting, CanPlaceAll, IsSeatPut};
ghost use Rattle.ring_place.specs.Inner.Placing.{IsTurnOf, have_on};
ghost use Rattle.ring_room.specs.Cards.{IsCard};
ghost use Rattle.ring_room.specs.Places.{id_at, seats_at};
ghost use Rattle.ring_room.specs.Inner.Places.{ArePlacesOf};
ghost use Rattle.ring_place.specs.Made.{Cards, all_placed, chosen, put_first, put_home, taken_for};
ghost use Rattle.ring_place.specs.Made.{most_empty, placed_in, put_seat, turn as turn_of, turns, with_card};
ghost use Rattle.ring_room.specs.Search.{own_or_place};

use crate::deck::Deck;
use crate::homes::{asking, homes_of, waiting};
use crate::seats::{Seats, first_empty};
use rand_pcg::Pcg32;
use ring_room::{Pile, Room, Taken, is_less};
use ring_words::{DeviceId, MOST_REPLICAS};
use std::alloc::{AllocError, Global};

/// The place of the seat's own device where that is as good as the best.
fn own_or(room: &Room, others: &[usize], own: Option<DeviceId>, best: usize) -> usize
    requires others { All (λ other. other < length room.now.devices) others.now }
    requires few { length others.now ≤ most_replicas }
    requires own { IfSome own (λ id. has_device id room.now.devices ≡ true) }
    requires within { best < length room.now.devices }
    requires best { IsLeast room.now (seats_at room.now.devices others.now)
        (id_at room.now.devices best) }
    ensures within { result < length room.now.devices }
    ensures least { IsLeast room.now (seats_at room.now.devices others.now)
        (id_at room.now.devices result) }
    ensures own_wins { OwnWins room.now (seats_at room.now.devices others.now) own
        (id_at room.now.devices result) }
    ensures value { result ≡ own_or_place room.now (seats_at room.now.devices others.now) own best }
{
    let Some(own) = own else {
        return best;
    };
    let own = room.place_of(own);
    if !room.is_free_at(others, own) {
        return best;
    }
    if is_less(room.crowd_at(others, best), room.crowd_at(others, own)) {
        return best;
    }
    own
}

/// A place, with the card of what is taken if that is it.
fn with_card(taken: Taken, place: usize) -> Taken
    ensures value { result ≡ with_card taken place }
    ensures place { result.place ≡ place }
{
    let card = if place == taken.place {
        taken.card
    } else {
        None
    };
    Taken { place, card }
}

/// The place of a device, with no card.
fn without_card(place: usize) -> Taken
    ensures value { result ≡ record { place = place; card = None } }
    ensures place { result.place ≡ place }
{
    Taken { place, card: None }
}

/// Where a lifted seat goes, and the card that goes with it: to a least crowded device with room
/// that isn't among those of its partition's other seats, at `others`, its own first. Where there
/// is none, back to its own if that isn't marked to be removed, and else to a least crowded open device outside.
fn choose(room: &Room, others: &[usize], own: Option<DeviceId>, piles: &[Pile], draw: u32) -> Taken
    requires others { All (λ other. other < length room.now.devices) others.now }
    requires few { length others.now ≤ most_replicas }
    requires own { IfSome own (λ id. has_device id room.now.devices ≡ true) }
    requires apart { IfSome own (λ id. has_present id room.now.devices ≡ true →
        seats_on id (seats_at room.now.devices others.now) ≡ 0) }
    requires enough { length others.now < count_by is_open_device room.now.devices }
    ensures within { result.place < length room.now.devices }
    ensures card { IfSome result.card (IsCard piles.now) }
    ensures by_name { result ≡ chosen room.now (seats_at room.now.devices others.now) own piles.now
        draw }
    ensures chosen { IsChosen room.now (seats_at room.now.devices others.now) own
        (id_at room.now.devices result.place) }
{
    if let Some(taken) = room.take_card(others, piles, draw) {
        return with_card(taken, own_or(room, others, own, taken.place));
    }
    if let Some(own) = own {
        if room.is_present(own) {
            return without_card(room.place_of(own));
        }
    }
    without_card(room.least_open(others))
}

/// The places of the devices of a partition's seats, in any order, and how many they are. What
/// stands behind them is left over.
pub(crate) fn places_on(room: &Room, row: &[Option<DeviceId>]) -> ([usize; MOST_REPLICAS], usize)
    requires row { AreKnown room.now.devices row.now }
    requires few { length row.now ≤ most_replicas }
    ensures long { length result.0 ≡ most_replicas }
    ensures few { result.1 ≤ most_replicas }
    ensures places { ArePlacesOf room.now.devices row.now (take result.1 result.0) }
    ensures by_name { seats_at room.now.devices (take result.1 result.0) ≡ seats_of (devices_on row.now) }
{
    room.places_on(row)
}

/// Whether a seat is on a device.
fn is_on(seat: Option<DeviceId>, device: DeviceId) -> bool
    ensures { result ≡ is_on (λ id. id == device) seat }
{
    seat == Some(device)
}

/// Where an empty seat of a partition goes by a draw, and the card that goes with it. `old` are the
/// seats before any was lifted.
fn find_place(
    room: &Room,
    old: &Seats,
    seats: &Seats,
    partition: usize,
    replica: usize,
    piles: &[Pile],
    draw: u32,
) -> Taken
    requires partition { partition < length seats.now }
    requires can { CanPlaceAll room.now old.now seats.now }
    requires empty { slice_get (row_at seats.now partition) replica ≡ Some None }
    ensures within { result.place < length room.now.devices }
    ensures card { IfSome result.card (IsCard piles.now) }
    ensures chosen { IsChosen room.now (row_at seats.now partition)
        (slice_index_or (row_at old.now partition) replica None)
        (id_at room.now.devices result.place) }
    ensures by_name { result ≡ taken_for room.now (row_at old.now partition)
        (row_at seats.now partition) replica piles.now draw }
{
    let own = old.row(partition)[replica];
    let (others, count) = places_on(room, seats.row(partition));
    choose(room, &others[..count], own, piles, draw)
}

/// Puts an empty seat of a partition on the device at a place.
fn put_on(room: &mut Room, seats: &mut Seats, partition: usize, replica: usize, place: usize)
    requires partition { partition < length seats.old }
    requires empty { slice_get (row_at seats.old partition) replica ≡ Some None }
    requires place { place < length room.old.devices }
    ensures room { room.new ≡ load_put room.old (id_at room.old.devices place) }
    ensures seats { seats.new ≡ slice_set seats.old partition
        (slice_set (row_at seats.old partition) replica (Some (id_at room.old.devices place))) }
    ensures load { IsLoad room.new }
{
    seats.set_seat(partition, replica, room.id_of(place));
    room.put_at(place);
}

/// Puts an empty seat of a partition where it goes by the next draw.
fn place_seat(
    room: &mut Room,
    old: &Seats,
    seats: &mut Seats,
    partition: usize,
    replica: usize,
    deck: &mut Deck,
)
    requires partition { partition < length seats.old }
    requires can { CanPlaceAll room.old old.now seats.old }
    requires empty { slice_get (row_at seats.old partition) replica ≡ Some None }
    ensures put { IsSeatPut room.old room.new old.now seats.old seats.new partition replica }
    ensures by_name { record { load = room.new; rows = seats.new; deck = deck.new } ≡ put_seat
        old.now partition replica (record {
          load = room.old;
          rows = seats.old;
          deck = deck.old;
        }) }
{
    let draw = deck.draw();
    let taken = find_place(room, old, seats, partition, replica, deck.piles(), draw);
    put_on(room, seats, partition, replica, taken.place);
    deck.deal(taken.card);
}

/// Puts an empty seat of a partition back where it was, if it goes there: that device is free for
/// it and no free one is less crowded, or none is free. It goes before all that are as good, so no
/// draw is needed.
fn return_seat(room: &mut Room, old: &Seats, seats: &mut Seats, partition: usize, replica: usize)
    requires partition { partition < length seats.old }
    requires can { CanPlaceAll room.old old.now seats.old }
    requires empty { slice_get (row_at seats.old partition) replica ≡ Some None }
    ensures put { IsTurnOf Turn.Home room.old room.new old.now seats.old seats.new partition }
    ensures by_name { (deck : Cards) → record { load = room.new; rows = seats.new; deck = deck } ≡
        put_home old.now partition replica (record {
          load = room.old;
          rows = seats.old;
          deck = deck;
        }) }
{
    let place = find_place(room, old, seats, partition, replica, &[], 0).place;
    if is_on(old.row(partition)[replica], room.id_of(place)) {
        put_on(room, seats, partition, replica, place);
    }
}

/// A turn of the partitions that have an empty seat.
#[derive(Clone, Copy)]
pub(crate) enum Turn {
    /// Those that keep no home put a seat.
    Homeless,
    /// Those that keep a home put their seat back, if it goes there.
    Home,
    /// Each puts a seat.
    Rest,
}

/// The turn of a partition, which keeps its home or doesn't: its first empty seat by replica is put
/// or waits.
fn take_turn(
    turn: Turn,
    keeps_home: bool,
    partition: usize,
    room: &mut Room,
    old: &Seats,
    seats: &mut Seats,
    deck: &mut Deck,
)
    requires partition { partition < length seats.old }
    requires can { CanPlaceAll room.old old.now seats.old }
    ensures put { IsTurnOf turn room.old room.new old.now seats.old seats.new partition }
    ensures by_name { record { load = room.new; rows = seats.new; deck = deck.new } ≡ put_first
        turn keeps_home old.now partition (record {
          load = room.old;
          rows = seats.old;
          deck = deck.old;
        }) }
{
    let Some(replica) = first_empty(seats.row(partition)) else {
        return;
    };
    match turn {
        Turn::Homeless => {
            if !keeps_home {
                place_seat(room, old, seats, partition, replica, deck);
            }
        }
        Turn::Home => {
            if keeps_home {
                return_seat(room, old, seats, partition, replica);
            }
        }
        Turn::Rest => place_seat(room, old, seats, partition, replica, deck),
    }
}

/// A turn of the partitions at `waiting`. `homes` says which of all partitions keep their homes.
fn place_turn(
    turn: Turn,
    homes: &[bool],
    waiting: &[usize],
    room: &mut Room,
    old: &Seats,
    seats: &mut Seats,
    deck: &mut Deck,
)
    requires waiting { AreWaiting homes.now waiting.now seats.old }
    requires can { CanPlaceAll room.old old.now seats.old }
    ensures turn { AreTurns turn 1 room.old room.new old.now seats.old seats.new }
    ensures by_name { record { load = room.new; rows = seats.new; deck = deck.new } ≡ turn_of
        turn homes.now waiting.now old.now (record {
          load = room.old;
          rows = seats.old;
          deck = deck.old;
        }) }
{
    for partition in waiting {
        let keeps_home = homes[*partition];
        take_turn(turn, keeps_home, *partition, room, old, seats, deck);
    }
}

/// Whether one of some partitions has an empty seat.
fn has_waiting(partitions: &[usize], seats: &Seats) -> bool
    requires { All (λ partition. partition < length seats.now) partitions.now }
    ensures { result ≡ false → AreFull seats.now partitions.now }
{
    for partition in partitions {
        if first_empty(seats.row(*partition)).is_some() {
            return true;
        }
    }
    false
}

/// So many turns of the partitions at `waiting`, one after another. Once none of them has an empty
/// seat a turn would change nothing, and isn't made.
fn place_turns(
    turn: Turn,
    count: usize,
    homes: &[bool],
    waiting: &[usize],
    room: &mut Room,
    old: &Seats,
    seats: &mut Seats,
    deck: &mut Deck,
)
    requires waiting { AreWaiting homes.now waiting.now seats.old }
    requires can { CanPlaceAll room.old old.now seats.old }
    ensures turns { AreTurns turn count room.old room.new old.now seats.old seats.new }
    ensures by_name { record { load = room.new; rows = seats.new; deck = deck.new } ≡ turns
        turn homes.now waiting.now old.now count (record {
          load = room.old;
          rows = seats.old;
          deck = deck.old;
        }) }
{
    for _turn in 0..count {
        if !has_waiting(waiting, seats) {
            return;
        }
        place_turn(turn, homes, waiting, room, old, seats, deck);
    }
}

/// Puts the empty seats of the partitions at `waiting` in turns. Those that can't all go home go
/// first, in as many turns as the partition with the most empty seats has. Then those go home that
/// do so anyway, before others take their places: in two turns, since the first fills devices that
/// were less crowded for some. Then the rest is put, in as many turns as at first.
fn place_waiting(
    homes: &[bool],
    waiting: &[usize],
    room: &mut Room,
    old: &Seats,
    seats: &mut Seats,
    deck: &mut Deck,
)
    requires waiting { AreWaiting homes.now waiting.now seats.old }
    requires can { CanPlaceAll room.old old.now seats.old }
    ensures placed { AllPlaced room.old room.new old.now seats.old seats.new }
    ensures by_name { record { load = room.new; rows = seats.new; deck = deck.new } ≡ placed_in
        waiting.now homes.now old.now (most_empty seats.old) (record {
          load = room.old;
          rows = seats.old;
          deck = deck.old;
        }) }
{
    let most = seats.most_empty();
    place_turns(Turn::Homeless, most, homes, waiting, room, old, seats, deck);
    place_turns(Turn::Home, 2, homes, waiting, room, old, seats, deck);
    place_turns(Turn::Rest, most, homes, waiting, room, old, seats, deck);
}

/// Puts the lifted seats of all partitions. `old` are the seats before any was lifted.
pub(crate) fn place_all(
    alloc: Global,
    room: &mut Room,
    order: &[usize],
    old: &Seats,
    seats: &mut Seats,
    draws: Pcg32,
) -> Result<(), AllocError>
    requires order { IsPermutation (range_with_len 0 (length seats.old)) order.now }
    requires as_many { length old.now ≡ length seats.old }
    requires rows { (partition : ℕ) → partition < length seats.old →
        CanPlace room.old.devices (row_at old.now partition) (row_at seats.old partition) }
    requires load { IsLoad room.old }
    requires closed { OpenWant room.old }
    requires counts { (id : ℕ) → has_device id room.old.devices ≡ true →
        have_in room.old id ≡ have_on id seats.old }
    requires few { sum_by (λ row. length row) seats.old ≤ most_seats }
    ensures placed { OnOk result (AllPlaced room.old room.new old.now seats.old seats.new) }
    ensures by_name { OnOk result (seats.new ≡ (all_placed order.now old.now room.old seats.old
        draws).rows) }
{
    let waiting = waiting(alloc, room, order, seats)?;
    let asking = asking(alloc, room, &waiting, old, seats)?;
    let (homes, left) = homes_of(alloc, room, &asking, old, seats)?;
    let mut deck = Deck::of(alloc, &left, draws)?;
    place_waiting(&homes, &waiting, room, old, seats, &mut deck);
    Ok(())
}
