//! The book at a small machine, over the keeper in memory and over one whose store fails.
ghost use Rattle.std.specs.Prelude.{◌<◌};

mod counter;
mod flaky;

use counter::Change::{self, Add, Reset};
use counter::Counted::{self, Done, PastBound};
use counter::Counter;
use flaky::Flaky;
use request_book::{Answer, Book, Entry, Fault, Keeper, Machine, MemKeeper};
use ring_words::{Caller, Delivery, Hour, Key, Limits};
use std::alloc::Global;

type Memory = MemKeeper<u32, Change, Counted>;

/// The limits of a service, save that the book has room for so many requests.
fn room_for(numbers: u32) -> Limits
    requires { numbers < 100 }
{
    Limits {
        rings: 16,
        devices: 256,
        ids: 65536,
        versions: 1000,
        numbers,
    }
}

/// The key of a number. Where memory is refused once, it asks again.
fn key(alloc: Global, number: u32) -> Option<Key> {
    let caller = match Caller::new(alloc, "ops") {
        Ok(caller) => caller,
        Err(_) => Caller::new(alloc, "ops").ok()?,
    };
    Some(Key { caller, number })
}

/// Delivers a change. Where memory is refused once, it sends the same delivery again.
fn send<K: Keeper<Counter>>(
    alloc: Global,
    book: &mut Book<Counter, K>,
    hour: Hour,
    number: u32,
    change: Change,
) -> Option<Answer<Counted>> {
    let answer = book.deliver(hour, key(alloc, number)?, change);
    if answer == Err(Fault::NoMemory) {
        return Some(book.deliver(hour, key(alloc, number)?, change));
    }
    Some(answer)
}

fn open(alloc: Global, numbers: u32) -> Book<Counter, Memory>
    requires { numbers < 100 }
{
    let machine = Counter { bound: 10 };
    let keeper = MemKeeper::new(alloc, machine.start(alloc), room_for(numbers));
    Book::open(alloc, machine, keeper)
}

/// An hour, a number, a change under that number, and its answer.
type Row = (Hour, u32, Change, Answer<Counted>);

/// The place of the first row that a book answers otherwise, or how many rows there are.
fn first_other<K: Keeper<Counter>>(
    alloc: Global,
    book: &mut Book<Counter, K>,
    rows: &[Row],
) -> usize {
    let mut place = 0usize;
    for row in rows {
        let (hour, number, change, answer) = *row;
        if send(alloc, book, hour, number, change) != Some(answer) {
            return place;
        }
        place = place.saturating_add(1);
    }
    place
}

/// Whether a book's count is this.
fn has_count<K: Keeper<Counter>>(book: &mut Book<Counter, K>, count: u32) -> bool {
    match book.load() {
        Ok(_hour) => *book.state() == count,
        Err(_) => false,
    }
}

/// Whether a book keeps so many requests, of at most so many.
fn keeps<K: Keeper<Counter>>(book: &mut Book<Counter, K>, count: usize, most: u32) -> bool {
    match book.load() {
        Ok(_hour) => book.count() == count && book.most() == most,
        Err(_) => false,
    }
}

/// Deliveries to a book of six, and their answers.
static DECIDED: [Row; 12] = [
    (3, 1, Add(7), Ok(Done { hour: 3, count: 7 })),
    // A repeat gets the kept reply, and doesn't move the hour; then the clock goes back.
    (9, 1, Add(7), Ok(Done { hour: 3, count: 7 })),
    (2, 2, Add(1), Ok(Done { hour: 3, count: 8 })),
    // Another command under a known number.
    (4, 1, Add(8), Err(Fault::NumberReused)),
    // A refusal moves the hour, and is kept though the command could be done later.
    (6, 3, Add(5), Ok(PastBound { hour: 6 })),
    (1, 4, Reset, Ok(Done { hour: 6, count: 0 })),
    (8, 3, Add(5), Ok(PastBound { hour: 6 })),
    (8, 5, Add(5), Ok(Done { hour: 8, count: 5 })),
    (0, 6, Add(5), Ok(Done { hour: 8, count: 10 })),
    // The book is full: new numbers find no room, known ones get their replies.
    (9, 7, Reset, Err(Fault::BookFull)),
    (9, 6, Add(5), Ok(Done { hour: 8, count: 10 })),
    (9, 6, Add(6), Err(Fault::NumberReused)),
];

/// How many of those a book in memory answers so up to the first that it doesn't, and whether it tells
/// what it holds then.
fn decided_once(alloc: Global) -> (usize, bool) {
    let mut book = open(alloc, 6);
    let place = first_other(alloc, &mut book, &DECIDED);
    (place, has_count(&mut book, 10) && keeps(&mut book, 6, 6))
}

#[test]
fn each_number_is_decided_once(rt: HostRuntime) {
    let (place, is_told) = decided_once(rt.alloc());
    assert!(rt; place == DECIDED.len() && is_told, "{place}");
}

/// An hour that was decided at, a number, the change under it and its reply.
type Kept = (Hour, u32, Change, Counted);

/// Whether a page holds these entries and no others.
fn holds(entries: &[Entry<Change, Counted>], page: &[Kept]) -> bool {
    let mut rest = page;
    for entry in entries {
        let Some((kept, behind)) = rest.split_first() else {
            return false;
        };
        if (entry.hour, entry.key.number, entry.command, entry.reply) != *kept {
            return false;
        }
        rest = behind;
    }
    rest.is_empty()
}

/// Whether a page of a book's entries is this. Where memory is refused once, it asks again.
fn has_page<K: Keeper<Counter>>(
    book: &mut Book<Counter, K>,
    from: u32,
    most: u32,
    page: &[Kept],
) -> bool {
    let entries = match book.entries(from, most) {
        Err(Fault::NoMemory) => book.entries(from, most),
        first => first,
    };
    match entries {
        Ok(entries) => holds(&entries, page),
        Err(_) => false,
    }
}

/// Deliveries, and their answers.
static LOGGED: [Row; 6] = [
    (3, 9, Add(7), Ok(Done { hour: 3, count: 7 })),
    // Neither a repeat nor a number that was used has an entry of its own.
    (9, 9, Add(7), Ok(Done { hour: 3, count: 7 })),
    (9, 9, Reset, Err(Fault::NumberReused)),
    (2, 2, Add(1), Ok(Done { hour: 3, count: 8 })),
    (6, 3, Add(5), Ok(PastBound { hour: 6 })),
    (1, 1, Reset, Ok(Done { hour: 6, count: 0 })),
];

/// What is kept of them, by place.
static LOG: [Kept; 4] = [
    (3, 9, Add(7), Done { hour: 3, count: 7 }),
    (3, 2, Add(1), Done { hour: 3, count: 8 }),
    (6, 3, Add(5), PastBound { hour: 6 }),
    (6, 1, Reset, Done { hour: 6, count: 0 }),
];

/// From which place on a page is asked for and for how many entries, and the places in the log of the
/// first that is on it and of the first behind it.
static PAGES: [(u32, u32, usize, usize); 5] = [
    (0, 100, 0, 4),
    (1, 2, 1, 3),
    (3, 2, 3, 4),
    (4, 2, 4, 4),
    (0, 0, 0, 0),
];

/// How many of those pages of a book are the log's, up to the first that isn't.
fn pages<K: Keeper<Counter>>(book: &mut Book<Counter, K>) -> usize {
    let mut count = 0usize;
    for (from, most, first, end) in &PAGES {
        match LOG.get(*first..*end) {
            Some(page) if has_page(book, *from, *most, page) => count = count.saturating_add(1),
            _ => return count,
        }
    }
    count
}

/// How many of those deliveries a book in memory answers so, and how many of its pages are the log's
/// then.
fn told_by_place(alloc: Global) -> (usize, usize) {
    let mut book = open(alloc, 6);
    let place = first_other(alloc, &mut book, &LOGGED);
    (place, pages(&mut book))
}

#[test]
fn entries_are_told_by_place(rt: HostRuntime) {
    let (place, pages) = told_by_place(rt.alloc());
    assert!(rt;
        place == LOGGED.len() && pages == PAGES.len(),
        "{place} {pages}"
    );
}

/// A book whose store fails in the call of its keeper that comes after so many.
fn open_flaky(alloc: Global, calls: u64, keeps_last: bool) -> Book<Counter, Flaky<Memory>> {
    let machine = Counter { bound: 10 };
    let keeper = MemKeeper::new(alloc, machine.start(alloc), room_for(6));
    Book::open(alloc, machine, Flaky::new(keeper, calls, keeps_last))
}

/// What is answered once the store has failed.
static CLOSED: [Row; 2] = [
    (3, 1, Add(7), Err(Fault::Closed)),
    (3, 2, Reset, Err(Fault::Closed)),
];

/// Whether a book is closed, as it is once its store has failed.
fn is_closed<K: Keeper<Counter>>(alloc: Global, book: &mut Book<Counter, K>) -> bool {
    first_other(alloc, book, &CLOSED) == CLOSED.len() && book.load() == Err(Fault::Closed)
}

/// Whether the store fails at a book's first delivery, and the book is closed from then on.
fn fails_and_closes<K: Keeper<Counter>>(alloc: Global, book: &mut Book<Counter, K>) -> bool {
    send(alloc, book, 3, 1, Add(7)) == Some(Err(Fault::StoreFault)) && is_closed(alloc, book)
}

/// Whether a book over a store that is opened again answers the same delivery, which comes at
/// another hour, as decided at this hour, and has carried it out once.
fn has_acted_once(alloc: Global, keeper: Memory, hour: Hour) -> bool {
    let mut book = Book::open(alloc, Counter { bound: 10 }, keeper);
    let answer = send(alloc, &mut book, 5, 1, Add(7));
    answer == Some(Ok(Done { hour, count: 7 })) && has_count(&mut book, 7)
}

/// Whether a failure in the call that comes after so many closes the book, and the delivery acts
/// once though it is sent again.
fn acts_once(alloc: Global, calls: u64, keeps_last: bool) -> bool {
    let mut book = open_flaky(alloc, calls, keeps_last);
    let closes = fails_and_closes(alloc, &mut book);
    let hour = if calls == 4 && keeps_last { 3 } else { 5 };
    let has_acted = has_acted_once(alloc, book.into_keeper().into_kept(), hour);
    closes && has_acted
}

#[test]
fn a_failed_delivery_closes_the_book_and_acts_once(rt: HostRuntime) {
    // A delivery of a new number makes five calls, and the last one is the commit.
    for calls in 0..5 {
        let acts = acts_once(rt.alloc(), calls, false) && acts_once(rt.alloc(), calls, true);
        assert!(rt; acts, "at call {calls}");
    }
}

/// Whether the store fails as a book is read, and the book is closed from then on.
fn closes_at_a_read<K: Keeper<Counter>>(alloc: Global, book: &mut Book<Counter, K>) -> bool {
    book.load() == Err(Fault::StoreFault) && is_closed(alloc, book)
}

/// Whether a page of a book's entries is refused for this fault.
fn has_no_page<K: Keeper<Counter>>(book: &mut Book<Counter, K>, due: Fault) -> bool {
    match book.entries(0, 1) {
        Ok(_) => false,
        Err(fault) => fault == due,
    }
}

/// Whether the store fails as a page is read, and the book is closed from then on, for pages too.
fn closes_at_a_page<K: Keeper<Counter>>(alloc: Global, book: &mut Book<Counter, K>) -> bool {
    has_no_page(book, Fault::StoreFault)
        && is_closed(alloc, book)
        && has_no_page(book, Fault::Closed)
}

/// Hours, numbers and changes: four deliveries, two of them repeats.
static FOUR: [(Hour, u32, Change); 4] = [
    (3, 1, Add(7)),
    (4, 1, Add(7)),
    (5, 2, Reset),
    (6, 1, Add(7)),
];

/// The four deliveries.
fn four(alloc: Global) -> Option<Vec<Delivery<Change>>> {
    let mut deliveries = Vec::with_capacity(alloc, 4).ok()?;
    for row in &FOUR {
        let (hour, number, command) = *row;
        let key = key(alloc, number)?;
        let delivery = Delivery { hour, key, command };
        deliveries.push(delivery).ok()?;
    }
    Some(deliveries)
}

/// Whether four deliveries are answered so, two of them repeats and the store failing at the third.
fn are_four(answers: &[Answer<Counted>]) -> bool {
    let [first, second, third, fourth] = answers else {
        return false;
    };
    // Where the first commit finds no memory, the repeat is the one that is decided.
    let hour = if *first == Err(Fault::NoMemory) { 4 } else { 3 };
    (hour == 4 || *first == Ok(Done { hour: 3, count: 7 }))
        && *second == Ok(Done { hour, count: 7 })
        && *third == Err(Fault::StoreFault)
        && *fourth == Err(Fault::Closed)
}

/// Whether a book answers its deliveries so, or `None` where no delivery was looked at for want of
/// memory.
fn run_four<K: Keeper<Counter>>(alloc: Global, book: &mut Book<Counter, K>) -> Option<bool> {
    let answers = book.run(four(alloc)?).ok()?;
    Some(are_four(&answers))
}

/// Whether a book answers a run so, and is closed from then on.
fn is_run<K: Keeper<Counter>>(alloc: Global, book: &mut Book<Counter, K>) -> bool {
    let is_run = match run_four(alloc, book) {
        Some(is_run) => is_run,
        None => run_four(alloc, book) == Some(true),
    };
    is_run && is_closed(alloc, book)
}

/// What is done to a book whose store fails in it.
#[derive(Clone, Copy)]
enum Call {
    Read,
    Page,
    Run,
}

/// Whether the store fails in a call, and the book is closed from then on.
fn closes_in<K: Keeper<Counter>>(alloc: Global, book: &mut Book<Counter, K>, call: Call) -> bool {
    match call {
        Call::Read => closes_at_a_read(alloc, book),
        Call::Page => closes_at_a_page(alloc, book),
        Call::Run => is_run(alloc, book),
    }
}

/// The same of a store that fails in the call of its keeper that comes after so many.
fn closes(alloc: Global, calls: u64, keeps_last: bool, call: Call) -> bool {
    closes_in(alloc, &mut open_flaky(alloc, calls, keeps_last), call)
}

#[test]
fn a_failed_read_closes_the_book(rt: HostRuntime) {
    assert!(rt; closes(rt.alloc(), 0, false, Call::Read));
}

#[test]
fn a_failed_page_closes_the_book(rt: HostRuntime) {
    assert!(rt; closes(rt.alloc(), 0, false, Call::Page));
}

#[test]
fn a_run_answers_as_its_deliveries_do(rt: HostRuntime) {
    // The first delivery makes five calls, its repeat one, and the third fails at its commit.
    assert!(rt; closes(rt.alloc(), 10, true, Call::Run));
}

/// Sends numbers 0 to 99,999, and tells whether each adds 1.
fn fills<K: Keeper<Counter>>(alloc: Global, book: &mut Book<Counter, K>) -> bool {
    for number in 0..100_000 {
        let hour = number;
        let count = number + 1;
        let answer = send(alloc, book, hour, number, Add(1));
        if answer != Some(Ok(Done { hour, count })) {
            return false;
        }
    }
    true
}

/// Deliveries to a book of those numbers, and their answers. A new number finds no room, and the
/// first and the last are answered as they were.
static FULL: [Row; 4] = [
    (100_000, 100_000, Add(1), Err(Fault::BookFull)),
    (7, 0, Add(1), Ok(Done { hour: 0, count: 1 })),
    (
        7,
        99_999,
        Add(1),
        Ok(Done {
            hour: 99_999,
            count: 100_000,
        }),
    ),
    (7, 99_999, Reset, Err(Fault::NumberReused)),
];

/// Whether a book in memory takes all those numbers, and how many of the deliveries it then answers
/// so.
fn filled(alloc: Global) -> (bool, usize) {
    let machine = Counter { bound: 1_000_000 };
    let keeper: Memory = MemKeeper::new(alloc, machine.start(alloc), Limits::full());
    let mut book = Book::open(alloc, machine, keeper);
    let is_filled = fills(alloc, &mut book);
    (is_filled, first_other(alloc, &mut book, &FULL))
}

#[test]
fn a_book_of_100000_numbers_is_full_and_keeps_each_reply(rt: HostRuntime) {
    let (is_filled, place) = filled(rt.alloc());
    assert!(rt; is_filled && place == FULL.len(), "{place}");
}
