//! Answers, their texts and their statuses.
use ring_messages::{NO_MEMORY_TEXT, Told, status_of, told_text};
use ring_words::{Deed, Done, Refusal, Reply};
use std::alloc::Global;

/// Replies, their texts and their statuses.
pub static REPLIES: [(Told, &str, u16); 2] = [
    (
        Told::Reply(done!(0, Deed::Create)),
        "{\"done\":\"create\",\"version\":0}",
        200,
    ),
    (
        Told::Reply(Reply::Refused(Refusal::NoRing)),
        "{\"refused\":\"NoRing\",\"rule\":1}",
        422,
    ),
];

/// Faults, their texts and their statuses.
pub static FAULTS: [(Told, &str, u16); 6] = [
    (
        Told::Unreadable,
        "{\"fault\":\"Unreadable\",\"rule\":20}",
        400,
    ),
    (
        Told::NumberReused,
        "{\"fault\":\"NumberReused\",\"rule\":21}",
        409,
    ),
    (Told::BookFull, "{\"fault\":\"BookFull\",\"rule\":22}", 507),
    (Told::NoMemory, NO_MEMORY_TEXT, 503),
    (
        Told::StoreFault,
        "{\"fault\":\"StoreFault\",\"rule\":24}",
        503,
    ),
    (Told::Closed, "{\"fault\":\"Closed\",\"rule\":25}", 503),
];

/// Faults of paths and tables, their texts and their statuses.
pub static TABLE_FAULTS: [(Told, &str, u16); 6] = [
    (Told::BadPath, "{\"refused\":\"BadPath\",\"rule\":30}", 400),
    (
        Told::NoVersion,
        "{\"refused\":\"NoVersion\",\"rule\":32}",
        422,
    ),
    (
        Told::BadHeader,
        "{\"fault\":\"BadHeader\",\"rule\":40}",
        400,
    ),
    (
        Told::ReadFailed,
        "{\"fault\":\"ReadFailed\",\"rule\":43}",
        503,
    ),
    (
        Told::BadRow {
            row: 18446744073709551615,
        },
        "{\"fault\":\"BadRow\",\"row\":18446744073709551615,\"rule\":41}",
        400,
    ),
    (
        Told::BadField { row: 1, column: 6 },
        "{\"column\":6,\"fault\":\"BadField\",\"row\":1,\"rule\":42}",
        400,
    ),
];

/// Whether an answer has this text.
fn is_told(alloc: Global, told: &Told, text: &str) -> bool {
    match told_text(alloc, told) {
        Ok(written) => written.as_str() == text,
        Err(_) => false,
    }
}

/// The place of the first answer that has another text or another status, or how many there are.
pub fn first_other_answer(alloc: Global, answers: &[(Told, &str, u16)]) -> usize {
    let mut place = 0usize;
    for (told, text, status) in answers {
        if status_of(told) != *status || !is_told(alloc, told, text) {
            return place;
        }
        place = place.saturating_add(1);
    }
    place
}
