//! Worked rows of the commands that take a device's mark off, and that hold a rebalance to what was
//! foretold: each is a request and its reply, written with `'` for `"`.
use crate::quotes::{behind_quoted, push_message};
use builder::{RingMachine, read_delivery, reply_text};
use request_book::{Book, Machine, MemKeeper};
use ring_model::Rings;
use ring_words::{Command, Hour, Limits, Reply};
use std::alloc::Global;

type RingBook = Book<RingMachine, MemKeeper<Rings, Command, Reply>>;

/// An hour, a number, what is asked for under that number, and the reply.
type Row<'a> = (Hour, u32, &'a str, &'a str);

fn open(alloc: Global) -> RingBook {
    let machine = RingMachine {
        limits: Limits::full(),
    };
    let keeper = MemKeeper::new(alloc, machine.start(alloc), Limits::full());
    Book::open(alloc, machine, keeper)
}

/// The reply to a message.
fn replied(alloc: Global, book: &mut RingBook, hour: Hour, message: &str) -> Option<Reply> {
    let (key, command) = read_delivery(alloc, message.as_bytes()).ok()?;
    book.deliver(hour, key, command).ok()
}

/// Whether a reply is spelled so.
fn is_spelled(alloc: Global, reply: &Reply, spelled: &str) -> bool {
    match reply_text(alloc, reply) {
        Ok(text) => behind_quoted(text.as_bytes(), spelled) == Some(b""),
        Err(_) => false,
    }
}

/// Whether the request of a row has its reply.
fn is_replied(alloc: Global, book: &mut RingBook, row: &Row<'_>) -> Option<bool> {
    let (hour, number, what, spelled) = *row;
    let mut message = String::new(alloc);
    push_message(alloc, &mut message, number, "photos", what).ok()?;
    let reply = replied(alloc, book, hour, message.as_str())?;
    Some(is_spelled(alloc, &reply, spelled))
}

/// The place of the first row that a new book replies to otherwise, or how many rows there are.
fn first_other(alloc: Global, rows: &[Row<'_>]) -> usize {
    let mut book = open(alloc);
    let mut place = 0usize;
    for row in rows {
        if is_replied(alloc, &mut book, row) != Some(true) {
            return place;
        }
        place = place.saturating_add(1);
    }
    place
}

const CREATE: &str = "'do':'create','power':1,'replicas':1,'min_hours':24";

const ADD: &str =
    "'do':'add','address':'10.0.0.1','port':6200,'name':'d0','region':0,'zone':0,'weight':'1.00'";

const REMOVE: &str = "'do':'remove','id':0";

const KEEP: &str = "'do':'keep','id':0";

const NOT_MARKED: &str = "{'refused':'NotMarked','rule':15}";

const OTHER_VERSION: &str = "{'refused':'OtherVersion','rule':16}";

const OTHER_HOUR: &str = "{'refused':'OtherHour','rule':17}";

const TOO_FEW: &str = "{'refused':'TooFewDevices','rule':9}";

/// A mark comes off a device that has one; a repeat gets the kept reply.
static KEPT: [Row<'_>; 10] = [
    (0, 1, KEEP, "{'refused':'NoRing','rule':1}"),
    (0, 2, CREATE, "{'done':'create','version':0}"),
    (0, 3, KEEP, "{'refused':'NoDevice','rule':4}"),
    (0, 4, ADD, "{'done':'add','id':0,'version':1}"),
    (0, 5, KEEP, NOT_MARKED),
    (0, 6, REMOVE, "{'done':'remove','version':2}"),
    (0, 7, KEEP, "{'done':'keep','version':3}"),
    (0, 7, KEEP, "{'done':'keep','version':3}"),
    (0, 8, KEEP, NOT_MARKED),
    (0, 5, KEEP, NOT_MARKED),
];

#[test]
fn a_mark_is_taken_off(rt: HostRuntime) {
    let place = first_other(rt.alloc(), &KEPT);
    assert!(rt; place == KEPT.len(), "{place}");
}

/// What is asked for at hour 5 with seed 7 of the ring that has one device.
const AS_TOLD: &str = "'do':'rebalance_as','hour':5,'seed':7,'version':2";

/// A rebalance that was foretold: first too few devices are told, then another version, then another
/// hour. Told is the version behind it. Done, it isn't done again: the ring has moved on. A repeat
/// gets the kept reply, and doesn't move the hour; a clock that goes back doesn't either.
static FORETOLD: [Row<'_>; 14] = [
    (0, 1, AS_TOLD, "{'refused':'NoRing','rule':1}"),
    (0, 2, CREATE, "{'done':'create','version':0}"),
    (0, 3, AS_TOLD, TOO_FEW),
    (0, 4, ADD, "{'done':'add','id':0,'version':1}"),
    (
        5,
        5,
        "'do':'rebalance_as','hour':5,'seed':7,'version':1",
        OTHER_VERSION,
    ),
    (
        5,
        6,
        "'do':'rebalance_as','hour':6,'seed':7,'version':3",
        OTHER_VERSION,
    ),
    (
        5,
        7,
        "'do':'rebalance_as','hour':6,'seed':7,'version':2",
        OTHER_HOUR,
    ),
    (
        5,
        8,
        AS_TOLD,
        "{'balance':0,'changed':2,'dispersion':0,'done':'rebalance_as','version':2}",
    ),
    (
        8,
        8,
        AS_TOLD,
        "{'balance':0,'changed':2,'dispersion':0,'done':'rebalance_as','version':2}",
    ),
    (
        8,
        7,
        "'do':'rebalance_as','hour':6,'seed':7,'version':2",
        OTHER_HOUR,
    ),
    (5, 9, AS_TOLD, OTHER_VERSION),
    (
        4,
        10,
        "'do':'rebalance_as','hour':5,'seed':8,'version':3",
        "{'balance':0,'changed':0,'dispersion':0,'done':'rebalance_as','version':3}",
    ),
    (5, 11, REMOVE, "{'done':'remove','version':4}"),
    (
        5,
        12,
        "'do':'rebalance_as','hour':6,'seed':7,'version':9",
        TOO_FEW,
    ),
];

#[test]
fn a_rebalance_is_done_as_foretold_or_not_at_all(rt: HostRuntime) {
    let place = first_other(rt.alloc(), &FORETOLD);
    assert!(rt; place == FORETOLD.len(), "{place}");
}
