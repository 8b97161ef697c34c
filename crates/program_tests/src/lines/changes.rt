//! What each command answers, line by line.
use super::{answers_within, push_all};
use ring_words::Limits;
use std::alloc::{AllocError, Global};

const CREATE: &str =
    "0 {\"caller\":\"ops\",\"do\":\"create\",\"min_hours\":24,\"number\":1,\"power\":2,\"replicas\":1,\"ring\":\"object\"}";

const ADD_D0: &str =
    "0 {\"address\":\"10.0.0.1\",\"caller\":\"ops\",\"do\":\"add\",\"name\":\"d0\",\"number\":2,\"port\":6200,\"region\":1,\"ring\":\"object\",\"weight\":\"100.00\",\"zone\":1}";

const ADD_D1: &str =
    "0 {\"address\":\"10.0.0.2\",\"caller\":\"ops\",\"do\":\"add\",\"name\":\"d1\",\"number\":3,\"port\":6200,\"region\":1,\"ring\":\"object\",\"weight\":\"100.00\",\"zone\":1}";

/// A line, and what it is answered.
pub type Line<'a> = (&'a str, &'a str);

/// Lines named by what they show, the lines before them, and these.
pub type Shown<'a> = (&'a str, &'a [Line<'a>], &'a [Line<'a>]);

/// What a line for a ring is answered that is not there.
pub const NO_RING: &str = "422 {\"refused\":\"NoRing\",\"rule\":1}";

/// What comes before each run of lines here: a ring with devices 0 and 1, at version 2.
pub static BEFORE: [Line<'_>; 3] = [
    (CREATE, "200 {\"done\":\"create\",\"version\":0}"),
    (ADD_D0, "200 {\"done\":\"add\",\"id\":0,\"version\":1}"),
    (ADD_D1, "200 {\"done\":\"add\",\"id\":1,\"version\":2}"),
];

/// Puts the texts of lines behind others.
fn push_lines(into: &mut Vec<u8>, lines: &[Line<'_>]) -> Result<(), AllocError> {
    for (line, _) in lines {
        push_all(into, &[line.as_bytes(), b"\n"])?;
    }
    Ok(())
}

/// The texts of lines, and of others behind them.
fn lines_of(alloc: Global, before: &[Line<'_>], then: &[Line<'_>]) -> Result<Vec<u8>, AllocError> {
    let mut lines = Vec::new(alloc);
    push_lines(&mut lines, before)?;
    push_lines(&mut lines, then)?;
    Ok(lines)
}

/// What a text holds behind the answers to lines, if it begins with them.
fn behind_answers<'a>(text: &'a [u8], lines: &[Line<'_>]) -> Option<&'a [u8]> {
    let mut rest = text;
    for (_, answer) in lines {
        rest = rest.strip_prefix(answer.as_bytes())?.strip_prefix(b"\n")?;
    }
    Some(rest)
}

/// Whether a text is the answers to lines, and to others behind them.
fn are_answers(text: &[u8], before: &[Line<'_>], then: &[Line<'_>]) -> bool {
    match behind_answers(text, before) {
        Some(rest) => behind_answers(rest, then) == Some(b""),
        None => false,
    }
}

/// Whether lines are answered so, behind others.
pub fn runs(alloc: Global, limits: Limits, before: &[Line<'_>], then: &[Line<'_>]) -> bool {
    let Ok(lines) = lines_of(alloc, before, then) else {
        return false;
    };
    match answers_within(alloc, limits, &lines) {
        Some(got) => are_answers(&got, before, then),
        None => false,
    }
}

/// Whether lines are answered so, behind those that make a ring with two devices.
pub fn runs_behind(alloc: Global, limits: Limits, then: &[Line<'_>]) -> bool {
    runs(alloc, limits, &BEFORE, then)
}

/// Rows are imported all or none.
static IMPORTED: [Line<'_>; 6] = [
    (
        "1 {\"caller\":\"ops\",\"do\":\"import\",\"number\":4,\"ring\":\"object\",\"rows\":[[1,1,\"10.0.0.1\",6200,\"d0\",\"50.00\"],[1,1,\"10.0.0.9\",6200,\"d9\",\"10.00\"],[1,2,\"10.0.0.2\",6200,\"d1\",\"100.00\"]]}",
        "422 {\"cause\":12,\"refused\":\"RowRefused\",\"row\":3,\"rule\":13}",
    ),
    (
        "1 {\"caller\":\"ops\",\"do\":\"set_weight\",\"id\":2,\"number\":5,\"ring\":\"object\",\"weight\":\"1.00\"}",
        "422 {\"refused\":\"NoDevice\",\"rule\":4}",
    ),
    (
        "1 {\"caller\":\"ops\",\"do\":\"import\",\"number\":6,\"ring\":\"object\",\"rows\":[[1,1,\"10.0.0.1\",6200,\"d0\",\"50.00\"],[1,1,\"10.0.0.9\",6200,\"d9\",\"10.00\"]]}",
        "200 {\"added\":1,\"done\":\"import\",\"reweighted\":1,\"version\":3}",
    ),
    (
        "1 {\"caller\":\"ops\",\"do\":\"import\",\"number\":7,\"ring\":\"object\",\"rows\":[]}",
        "200 {\"added\":0,\"done\":\"import\",\"reweighted\":0,\"version\":4}",
    ),
    (
        "2 {\"rows\":[[1,1,\"10.0.0.1\",6200,\"d0\",\"50.00\"],[1,1,\"10.0.0.9\",6200,\"d9\",\"10.00\"]],\"caller\":\"ops\",\"do\":\"import\",\"number\":6,\"ring\":\"object\"}",
        "200 {\"added\":1,\"done\":\"import\",\"reweighted\":1,\"version\":3}",
    ),
    (
        "2 {\"caller\":\"ops\",\"do\":\"set_weight\",\"id\":2,\"number\":8,\"ring\":\"object\",\"weight\":\"1.00\"}",
        "200 {\"done\":\"set_weight\",\"version\":5}",
    ),
];

/// A row sees what the rows before it did.
static IMPORTED_TWICE: [Line<'_>; 2] = [
    (
        "1 {\"caller\":\"ops\",\"do\":\"import\",\"number\":4,\"ring\":\"object\",\"rows\":[[1,1,\"10.0.0.9\",6200,\"d9\",\"10.00\"],[1,1,\"10.0.0.9\",6200,\"d9\",\"20.00\"]]}",
        "200 {\"added\":1,\"done\":\"import\",\"reweighted\":1,\"version\":3}",
    ),
    (
        "1 {\"caller\":\"ops\",\"do\":\"import\",\"number\":5,\"ring\":\"object\",\"rows\":[[2,1,\"10.0.0.8\",6200,\"d8\",\"10.00\"],[2,2,\"10.0.0.8\",6200,\"d8\",\"20.00\"]]}",
        "422 {\"cause\":12,\"refused\":\"RowRefused\",\"row\":2,\"rule\":13}",
    ),
];

/// A device is marked once.
static MARKED: [Line<'_>; 6] = [
    (
        "1 {\"caller\":\"ops\",\"do\":\"remove\",\"id\":0,\"number\":4,\"ring\":\"object\"}",
        "200 {\"done\":\"remove\",\"version\":3}",
    ),
    (
        "1 {\"caller\":\"ops\",\"do\":\"remove\",\"id\":0,\"number\":5,\"ring\":\"object\"}",
        "422 {\"refused\":\"DeviceRemoved\",\"rule\":6}",
    ),
    (
        "1 {\"caller\":\"ops\",\"do\":\"remove\",\"id\":2,\"number\":6,\"ring\":\"object\"}",
        "422 {\"refused\":\"NoDevice\",\"rule\":4}",
    ),
    (
        "1 {\"address\":\"10.0.0.1\",\"caller\":\"ops\",\"do\":\"add\",\"name\":\"d0\",\"number\":7,\"port\":6200,\"region\":1,\"ring\":\"object\",\"weight\":\"100.00\",\"zone\":1}",
        "422 {\"refused\":\"DeviceExists\",\"rule\":5}",
    ),
    (
        "1 {\"caller\":\"ops\",\"do\":\"import\",\"number\":8,\"ring\":\"object\",\"rows\":[[2,1,\"10.0.0.1\",6200,\"d0\",\"5.00\"]]}",
        "422 {\"cause\":6,\"refused\":\"RowRefused\",\"row\":1,\"rule\":13}",
    ),
    (
        "1 {\"caller\":\"ops\",\"do\":\"set_weight\",\"id\":0,\"number\":9,\"ring\":\"object\",\"weight\":\"1.00\"}",
        "422 {\"refused\":\"DeviceRemoved\",\"rule\":6}",
    ),
];

/// Hours are set and set aside.
static HOURS_SET: [Line<'_>; 3] = [
    (
        "1 {\"caller\":\"ops\",\"do\":\"set_hours\",\"min_hours\":65535,\"number\":4,\"ring\":\"object\"}",
        "200 {\"done\":\"set_hours\",\"version\":3}",
    ),
    (
        "1 {\"caller\":\"ops\",\"do\":\"pretend_passed\",\"number\":5,\"ring\":\"object\"}",
        "200 {\"done\":\"pretend_passed\",\"version\":4}",
    ),
    (
        "1 {\"caller\":\"ops\",\"do\":\"set_hours\",\"min_hours\":65536,\"number\":6,\"ring\":\"object\"}",
        "400 {\"fault\":\"Unreadable\",\"rule\":20}",
    ),
];

/// The power is raised up to 14.
static RAISED: [Line<'_>; 4] = [
    (
        "0 {\"caller\":\"ops\",\"do\":\"create\",\"min_hours\":24,\"number\":1,\"power\":13,\"replicas\":5,\"ring\":\"object\"}",
        "200 {\"done\":\"create\",\"version\":0}",
    ),
    (
        "0 {\"caller\":\"ops\",\"do\":\"raise_power\",\"number\":2,\"ring\":\"object\"}",
        "200 {\"done\":\"raise_power\",\"version\":1}",
    ),
    (
        "0 {\"caller\":\"ops\",\"do\":\"raise_power\",\"number\":3,\"ring\":\"object\"}",
        "422 {\"refused\":\"PowerLimit\",\"rule\":14}",
    ),
    (
        "0 {\"caller\":\"ops\",\"do\":\"create\",\"min_hours\":24,\"number\":4,\"power\":15,\"replicas\":5,\"ring\":\"more\"}",
        "400 {\"fault\":\"Unreadable\",\"rule\":20}",
    ),
];

/// Every command asks for its ring.
static WITHOUT_A_RING: [Line<'_>; 7] = [
    (
        "0 {\"caller\":\"ops\",\"do\":\"remove\",\"id\":0,\"number\":1,\"ring\":\"none\"}",
        NO_RING,
    ),
    (
        "0 {\"caller\":\"ops\",\"do\":\"set_hours\",\"min_hours\":0,\"number\":2,\"ring\":\"none\"}",
        NO_RING,
    ),
    (
        "0 {\"caller\":\"ops\",\"do\":\"pretend_passed\",\"number\":3,\"ring\":\"none\"}",
        NO_RING,
    ),
    (
        "0 {\"caller\":\"ops\",\"do\":\"raise_power\",\"number\":4,\"ring\":\"none\"}",
        NO_RING,
    ),
    (
        "0 {\"caller\":\"ops\",\"do\":\"import\",\"number\":5,\"ring\":\"none\",\"rows\":[]}",
        NO_RING,
    ),
    (
        "0 {\"caller\":\"ops\",\"do\":\"keep\",\"id\":0,\"number\":6,\"ring\":\"none\"}",
        NO_RING,
    ),
    (
        "0 {\"caller\":\"ops\",\"do\":\"rebalance_as\",\"hour\":0,\"number\":7,\"ring\":\"none\",\"seed\":1,\"version\":1}",
        NO_RING,
    ),
];

/// What the first lines show that are answered otherwise, and nothing where there are none.
fn first_other<'a>(alloc: Global, changes: &[Shown<'a>]) -> &'a str {
    for (shows, before, then) in changes {
        if !runs(alloc, Limits::full(), before, then) {
            return shows;
        }
    }
    ""
}

#[test]
fn commands_are_answered_as_they_show(rt: HostRuntime) {
    let changes: [Shown<'static>; 6] = [
        ("rows_are_imported_all_or_none", &BEFORE, &IMPORTED),
        (
            "a_row_sees_what_the_rows_before_it_did",
            &BEFORE,
            &IMPORTED_TWICE,
        ),
        ("a_device_is_marked_once", &BEFORE, &MARKED),
        ("hours_are_set_and_set_aside", &BEFORE, &HOURS_SET),
        ("the_power_is_raised_up_to_14", &[], &RAISED),
        ("every_command_asks_for_its_ring", &[], &WITHOUT_A_RING),
    ];
    let other = first_other(rt.alloc(), &changes);
    assert!(rt; other.is_empty(), "{other}");
}

/// A row that a ring has no room for.
static NO_ROOM: [Line<'_>; 1] = [(
    "1 {\"caller\":\"ops\",\"do\":\"import\",\"number\":4,\"ring\":\"object\",\"rows\":[[1,1,\"10.0.0.1\",6200,\"d0\",\"5.00\"],[1,1,\"10.0.0.9\",6200,\"d9\",\"10.00\"]]}",
    "422 {\"cause\":7,\"refused\":\"RowRefused\",\"row\":2,\"rule\":13}",
)];

/// A row that a ring has no id for.
static NO_ID: [Line<'_>; 1] = [(
    "1 {\"caller\":\"ops\",\"do\":\"import\",\"number\":4,\"ring\":\"object\",\"rows\":[[1,1,\"10.0.0.9\",6200,\"d9\",\"10.00\"]]}",
    "422 {\"cause\":8,\"refused\":\"RowRefused\",\"row\":1,\"rule\":13}",
)];

#[test]
fn a_row_past_the_greatest_count_is_refused(rt: HostRuntime) {
    let mut limits = Limits::full();
    limits.devices = 2;
    assert!(rt; runs_behind(rt.alloc(), limits, &NO_ROOM));
    let mut limits = Limits::full();
    limits.ids = 2;
    assert!(rt; runs_behind(rt.alloc(), limits, &NO_ID));
}

/// An import up to its rows.
static IMPORT: &str =
    "1 {\"caller\":\"ops\",\"do\":\"import\",\"number\":4,\"ring\":\"object\",\"rows\":[";

/// Puts a row behind others.
fn push_row(alloc: Global, line: &mut String, place: u32) -> Result<(), AllocError> {
    let comma = if place == 0 { "" } else { "," };
    let row = format!(in alloc; "{comma}[1,1,\"10.0.1.{place}\",6200,\"disk{place}\",\"10.00\"]")?;
    line.push_str(row.as_str())
}

/// Puts an import of 254 rows behind a text, and these rows more.
fn push_import(alloc: Global, line: &mut String, more: &str) -> Result<(), AllocError> {
    line.push_str(IMPORT)?;
    for place in 0..254u32 {
        push_row(alloc, line, place)?;
    }
    line.push_str(more)?;
    line.push_str("]}")
}

/// Whether an import of 254 rows and more is answered so.
fn imports(alloc: Global, more: &str, answer: &str) -> bool {
    let mut line = String::new(alloc);
    push_import(alloc, &mut line, more).is_ok()
        && runs_behind(alloc, Limits::full(), &[(line.as_str(), answer)])
}

/// Rows behind 254, and what the import of all is answered.
static FILLING: [Line<'_>; 2] = [
    (
        "",
        "200 {\"added\":254,\"done\":\"import\",\"reweighted\":0,\"version\":3}",
    ),
    (
        ",[1,1,\"10.0.2.0\",6200,\"d\",\"10.00\"]",
        "422 {\"cause\":7,\"refused\":\"RowRefused\",\"row\":255,\"rule\":13}",
    ),
];

#[test]
fn an_import_fills_a_ring(rt: HostRuntime) {
    for (more, answer) in &FILLING {
        assert!(rt; imports(rt.alloc(), more, answer), "{more}");
    }
}
