//! Rebalances, raised rings and published texts, line by line. The rows are written with `'` for
//! `"`.
mod parts;

use super::answers_within;
use crate::quotes::{behind_quoted, push_message};
use builder::{decide, read_delivery};
use parts::{PUBLISH, Part, rows_of};
use ring_model::{Ring, Rings};
use ring_words::{Command, Limits, RingName};
use std::alloc::{AllocError, Global};
use std::str;
use test_fixtures::rows::{ADD_D0, ADD_D1, ADD_D2, ADD_D3, REBALANCE, WorkedRow};

/// Puts the lines of rows on a ring behind others.
fn push_lines(
    alloc: Global,
    lines: &mut String,
    ring: &str,
    rows: &[WorkedRow<'_>],
) -> Result<(), AllocError> {
    for row in rows {
        let (hour, number, what, _) = *row;
        let hour = format!(in alloc; "{hour} ")?;
        lines.push_str(hour.as_str())?;
        push_message(alloc, lines, number, ring, what)?;
        lines.push('\n')?;
    }
    Ok(())
}

/// Puts the lines of parts on a ring behind others, and a last one.
fn push_parts(
    alloc: Global,
    lines: &mut String,
    ring: &str,
    parts: &[Part],
    last: &str,
) -> Result<(), AllocError> {
    for part in parts {
        push_lines(alloc, lines, ring, rows_of(*part))?;
    }
    lines.push_str(last)
}

/// All that is told to parts on a ring, when the ring is asked for its tables last.
fn told(alloc: Global, limits: Limits, ring: &str, parts: &[Part], last: &str) -> Option<Vec<u8>> {
    let mut lines = String::new(alloc);
    push_parts(alloc, &mut lines, ring, parts, last).ok()?;
    answers_within(alloc, limits, lines.as_bytes())
}

/// What follows in a text behind the answers of rows, if it begins with them.
fn behind_rows<'a>(text: &'a [u8], rows: &[WorkedRow<'_>]) -> Option<&'a [u8]> {
    let mut rest = text;
    for (_, _, _, answer) in rows {
        rest = behind_quoted(rest, answer)?.strip_prefix(b"\n")?;
    }
    Some(rest)
}

/// What follows in a text behind the answers of parts, if it begins with them.
fn behind_parts<'a>(text: &'a [u8], parts: &[Part]) -> Option<&'a [u8]> {
    let mut rest = text;
    for part in parts {
        rest = behind_rows(rest, rows_of(*part))?;
    }
    Some(rest)
}

/// Whether parts on a ring are answered as their rows say, and what is asked behind them.
fn is_shown(
    alloc: Global,
    limits: Limits,
    ring: &str,
    parts: &[Part],
    last: &str,
    answers: &str,
) -> bool {
    match told(alloc, limits, ring, parts, last) {
        Some(text) => behind_parts(&text, parts) == Some(answers.as_bytes()),
        None => false,
    }
}

/// What runs on the ring `object` show, behind which nothing is asked, and their parts.
static RUNS: [(&str, [Part; 3]); 13] = [
    (
        "a_repeated_rebalance_gets_its_reply_and_moves_nothing",
        [Part::First, Part::Repeated, Part::Pretended],
    ),
    (
        "a_moved_partition_stays_for_its_hours",
        [Part::First, Part::Locked, Part::AtTheHour],
    ),
    (
        "hours_that_are_set_aside_lock_nothing",
        [Part::First, Part::Locked, Part::SetAside],
    ),
    (
        "a_drained_device_keeps_one_of_two_locked_seats",
        [Part::Pairs, Part::Drained, Part::Nothing],
    ),
    (
        "a_drained_device_keeps_its_seats_while_they_are_locked",
        [Part::First, Part::DrainedWhileLocked, Part::Nothing],
    ),
    (
        "too_few_open_devices_change_nothing",
        [Part::Few, Part::Nothing, Part::Nothing],
    ),
    (
        "a_marked_device_is_none_to_put_seats_on",
        [Part::Pairs, Part::Marked, Part::Nothing],
    ),
    (
        "a_want_that_no_seats_can_meet_moves_nothing",
        [Part::Unreachable, Part::Nothing, Part::Nothing],
    ),
    (
        "a_request_that_came_too_early_keeps_its_refusal",
        [Part::Reordered, Part::Nothing, Part::Nothing],
    ),
    (
        "a_clock_that_goes_back_frees_no_partition",
        [Part::ClockBack, Part::Nothing, Part::Nothing],
    ),
    (
        "two_full_devices_of_each_partition_give_a_seat_each",
        [Part::Small, Part::Spread, Part::Nothing],
    ),
    (
        "a_far_device_with_room_for_one_seat_takes_one",
        [Part::Small, Part::HalfFar, Part::Nothing],
    ),
    (
        "both_halves_of_a_locked_partition_stay",
        [Part::First, Part::Locked, Part::Raised],
    ),
];

/// What runs on the ring `object` show, their parts, what is asked of the ring behind them, and what
/// that is answered.
static ASKED: [(&str, [Part; 3], &str, &str); 4] = [
    (
        "the_first_assignment_is_shown",
        [Part::First, Part::Nothing, Part::Nothing],
        "? balance object\n? devices object\n",
        "   id     weight wanted    has balance
    0     100.00      2      2    0.00
    1     100.00      2      2    0.00
balance 0.00 dispersion 0.00 version 3
   id region  zone address          port     weight state   name
    0      1     1 10.0.0.1         6200     100.00 open    d0
    1      1     1 10.0.0.2         6200     100.00 open    d1
",
    ),
    (
        "removal_ignores_the_lock",
        [Part::First, Part::Removal, Part::Removed],
        "? balance object\n",
        "   id     weight wanted    has balance
    1     100.00      2      2    0.00
    2     100.00      2      2    0.00
balance 0.00 dispersion 0.00 version 6
",
    ),
    (
        "a_removed_device_gives_all_its_seats_away",
        [Part::Pairs, Part::Emptied, Part::Nothing],
        "? balance object\n",
        "   id     weight wanted    has balance
    1     100.00      4      4    0.00
    2     100.00      4      4    0.00
balance 0.00 dispersion 0.00 version 6
",
    ),
    (
        "a_far_device_lacks_a_seat_of_each_partition",
        [Part::Small, Part::Far, Part::Nothing],
        "? balance object\n",
        "   id     weight wanted    has balance
    0     100.00      1      2  100.00
    1     100.00      1      2  100.00
    2     200.00      2      0  100.00
balance 100.00 dispersion 100.00 version 4
",
    ),
];

/// What the first run of the first table shows that is answered otherwise.
fn first_other(alloc: Global) -> Option<&'static str> {
    for (shows, parts) in &RUNS {
        if !is_shown(alloc, Limits::full(), "object", parts, "", "") {
            return Some(*shows);
        }
    }
    None
}

#[test]
fn rows_are_answered_as_they_show(rt: HostRuntime) {
    assert_eq!(rt; first_other(rt.alloc()), None);
    for (shows, parts, last, answers) in &ASKED {
        let is_shown = is_shown(rt.alloc(), Limits::full(), "object", parts, last, answers);
        assert!(rt; is_shown, "{shows}");
    }
}

#[test]
fn a_full_book_still_gives_its_replies(rt: HostRuntime) {
    let mut limits = Limits::full();
    limits.numbers = 2;
    assert!(rt; is_shown(rt.alloc(), limits, "object", &[Part::Full], "", ""));
}

/// What follows the far device's first rebalance in the order of the words: the answer's end, its
/// row, and one of two last lines.
fn is_dispersed(told: &[u8]) -> bool {
    let Ok(told) = str::from_utf8(told) else {
        return false;
    };
    let Some((answer, table)) = told.split_once('\n') else {
        return false;
    };
    let near = table.ends_with("\nbalance 0.00 dispersion 0.00 version 5\n");
    let uneven = table.ends_with("\nbalance 100.00 dispersion 0.00 version 5\n");
    answer.ends_with("\"changed\":2,\"dispersion\":0,\"done\":\"rebalance\",\"version\":5}")
        && table.contains("\n    2     200.00      2      2    0.00\n")
        && (near || uneven)
}

/// The far device's first rebalance, and a question behind it.
static FAR_REBALANCE: &str =
    "0 {\"caller\":\"ops\",\"number\":6,\"ring\":\"object\",\"do\":\"rebalance\",\"seed\":7}\n? balance object\n";

/// Whether the far device takes a seat of each partition.
fn is_far_dispersed(alloc: Global) -> bool {
    let parts = [Part::Small, Part::Far];
    match told(alloc, Limits::full(), "object", &parts, FAR_REBALANCE) {
        Some(text) => behind_parts(&text, &parts).is_some_and(is_dispersed),
        None => false,
    }
}

#[test]
fn a_far_device_takes_a_seat_of_each_partition(rt: HostRuntime) {
    assert!(rt; is_far_dispersed(rt.alloc()));
}

#[test]
fn a_version_is_published_once(rt: HostRuntime) {
    let mut limits = Limits::full();
    limits.versions = 1;
    let parts = [Part::Tiny, Part::Then];
    assert!(rt; is_shown(rt.alloc(), limits, "tiny", &parts, "", ""));
}

/// The 119 bytes of the ring `tiny`.
static TINY_TEXT: &str =
    "swift-ring-text 1\nring tiny\nversion 2\npower 1\nreplicas 1\ndevices 1\n0 1 1 10.0.0.1 6200 100.00 present d0\nseats\n0\n0\nend\n";

/// The command of what is asked of a ring.
fn command(alloc: Global, ring: &str, what: &str) -> Option<Command> {
    let mut message = String::new(alloc);
    push_message(alloc, &mut message, 1, ring, what).ok()?;
    let (_, command) = read_delivery(alloc, message.as_bytes()).ok()?;
    Some(command)
}

/// The rings after one more command on a ring.
fn moved(alloc: Global, rings: &Rings, ring: &str, what: &str) -> Option<Rings> {
    let command = command(alloc, ring, what)?;
    match decide(alloc, rings, 0, &command, &Limits::full()) {
        Ok((after, _)) => Some(after),
        Err(_) => None,
    }
}

/// The rings after commands on one ring.
fn rings_after(alloc: Global, ring: &str, commands: &[&str]) -> Option<Rings> {
    let mut rings = Rings::new(alloc);
    for what in commands {
        rings = moved(alloc, &rings, ring, what)?;
    }
    Some(rings)
}

/// Commands that publish the ring `tiny` twice at one version.
static PUBLISHED_TWICE: [&str; 5] = [
    "'do':'create','power':1,'replicas':1,'min_hours':0",
    ADD_D0,
    REBALANCE,
    PUBLISH,
    PUBLISH,
];

/// The ring of a name.
fn ring_of<'a>(alloc: Global, rings: &'a Rings, name: &str) -> Option<&'a Ring> {
    let name = RingName::new(alloc, name).ok()?;
    rings.get(&name)
}

/// Whether the rings hold the text of `tiny` at version 2 then, and no other.
fn is_published(alloc: Global) -> Option<bool> {
    let rings = rings_after(alloc, "tiny", &PUBLISHED_TWICE)?;
    let ring = ring_of(alloc, &rings, "tiny")?;
    Some(ring.published(2) == Some(TINY_TEXT) && ring.published_list().len() == 1)
}

#[test]
fn the_text_of_a_version_is_published(rt: HostRuntime) {
    assert!(rt; matches!(is_published(rt.alloc()), Some(true)));
}

/// Commands that make a ring of four devices.
static OF_FOUR: [&str; 5] = [
    "'do':'create','power':4,'replicas':2,'min_hours':0",
    ADD_D0,
    ADD_D1,
    ADD_D2,
    ADD_D3,
];

/// The seats of that ring after a rebalance.
fn seats_after(alloc: Global, rebalance: &str) -> Option<Vec<u16>> {
    let made = rings_after(alloc, "object", &OF_FOUR)?;
    let rings = moved(alloc, &made, "object", rebalance)?;
    Vec::from_slice(alloc, ring_of(alloc, &rings, "object")?.seats()).ok()
}

/// Whether two rebalances of the same ring come to the same 32 seats.
fn come_to_the_same(alloc: Global, one: &str, other: &str) -> Option<bool> {
    let one = seats_after(alloc, one)?;
    let other = seats_after(alloc, other)?;
    Some(one.len() == 32 && one.as_slice() == other.as_slice())
}

#[test]
fn a_seed_gives_one_ring_and_another_seed_another(rt: HostRuntime) {
    let again = come_to_the_same(rt.alloc(), REBALANCE, REBALANCE);
    let another = come_to_the_same(rt.alloc(), REBALANCE, "'do':'rebalance','seed':8");
    assert!(rt; again == Some(true) && another == Some(false));
}
