//! Questions for the rings and the status, for the tables of a ring, for the whole of it, for
//! previews, for what moved, and for the log.
use super::changes::{BEFORE, Line, NO_RING, runs, runs_behind};
use super::failing::Failing;
use super::{UNREADABLE, are_answered, is_given, open, tells};
use builder::RingMachine;
use request_book::{Book, Keeper, MemKeeper};
use ring_model::Rings;
use ring_words::Limits;
use std::alloc::Global;

/// The lines that make a ring and ask for its tables, named by what they show, and their answers.
type Shown<'a> = (&'a str, &'a str, &'a str);

static BALANCED: [Shown<'_>; 8] = [
    (
        "wants_and_balances_are_shown",
        "0 {\"caller\":\"ops\",\"do\":\"create\",\"min_hours\":24,\"number\":1,\"power\":3,\"replicas\":2,\"ring\":\"object\"}
0 {\"address\":\"10.0.0.1\",\"caller\":\"ops\",\"do\":\"add\",\"name\":\"d0\",\"number\":2,\"port\":6200,\"region\":1,\"ring\":\"object\",\"weight\":\"100.00\",\"zone\":1}
0 {\"address\":\"10.0.0.2\",\"caller\":\"ops\",\"do\":\"add\",\"name\":\"d1\",\"number\":3,\"port\":6200,\"region\":1,\"ring\":\"object\",\"weight\":\"50.00\",\"zone\":1}
0 {\"address\":\"10.0.0.3\",\"caller\":\"ops\",\"do\":\"add\",\"name\":\"d2\",\"number\":4,\"port\":6200,\"region\":1,\"ring\":\"object\",\"weight\":\"25.00\",\"zone\":1}
0 {\"address\":\"10.0.0.4\",\"caller\":\"ops\",\"do\":\"add\",\"name\":\"d3\",\"number\":5,\"port\":6200,\"region\":1,\"ring\":\"object\",\"weight\":\"0.00\",\"zone\":1}
? balance object",
        "200 {\"done\":\"create\",\"version\":0}
200 {\"done\":\"add\",\"id\":0,\"version\":1}
200 {\"done\":\"add\",\"id\":1,\"version\":2}
200 {\"done\":\"add\",\"id\":2,\"version\":3}
200 {\"done\":\"add\",\"id\":3,\"version\":4}
   id     weight wanted    has balance
    0     100.00      9      0  100.00
    1      50.00      5      0  100.00
    2      25.00      2      0  100.00
    3       0.00      0      0    0.00
balance 100.00 dispersion 0.00 version 4\n",
    ),
    (
        "a_tie_goes_to_the_lower_number",
        "0 {\"caller\":\"ops\",\"do\":\"create\",\"min_hours\":24,\"number\":1,\"power\":2,\"replicas\":2,\"ring\":\"object\"}
0 {\"address\":\"10.0.0.1\",\"caller\":\"ops\",\"do\":\"add\",\"name\":\"d0\",\"number\":2,\"port\":6200,\"region\":1,\"ring\":\"object\",\"weight\":\"100.00\",\"zone\":1}
0 {\"address\":\"10.0.0.2\",\"caller\":\"ops\",\"do\":\"add\",\"name\":\"d1\",\"number\":3,\"port\":6200,\"region\":1,\"ring\":\"object\",\"weight\":\"100.00\",\"zone\":1}
0 {\"address\":\"10.0.0.3\",\"caller\":\"ops\",\"do\":\"add\",\"name\":\"d2\",\"number\":4,\"port\":6200,\"region\":1,\"ring\":\"object\",\"weight\":\"100.00\",\"zone\":1}
? balance object",
        "200 {\"done\":\"create\",\"version\":0}
200 {\"done\":\"add\",\"id\":0,\"version\":1}
200 {\"done\":\"add\",\"id\":1,\"version\":2}
200 {\"done\":\"add\",\"id\":2,\"version\":3}
   id     weight wanted    has balance
    0     100.00      3      0  100.00
    1     100.00      3      0  100.00
    2     100.00      2      0  100.00
balance 100.00 dispersion 0.00 version 3\n",
    ),
    (
        "a_ring_without_devices_has_titles_and_figures_alone",
        "0 {\"caller\":\"ops\",\"do\":\"create\",\"min_hours\":24,\"number\":1,\"power\":2,\"replicas\":1,\"ring\":\"object\"}
? devices object
? balance object",
        "200 {\"done\":\"create\",\"version\":0}
   id region  zone address          port     weight state   name
   id     weight wanted    has balance
balance 0.00 dispersion 0.00 version 0\n",
    ),
    (
        "a_whole_ring_is_shown_in_one_line_at_the_greatest_hour",
        "0 {\"caller\":\"ops\",\"do\":\"create\",\"min_hours\":24,\"number\":1,\"power\":1,\"replicas\":1,\"ring\":\"object\"}
0 {\"address\":\"10.0.0.1\",\"caller\":\"ops\",\"do\":\"add\",\"name\":\"d0\",\"number\":2,\"port\":6200,\"region\":1,\"ring\":\"object\",\"weight\":\"100.00\",\"zone\":1}
5 {\"caller\":\"ops\",\"do\":\"rebalance\",\"number\":3,\"ring\":\"object\",\"seed\":7}
6 {\"caller\":\"ops\",\"do\":\"publish\",\"number\":4,\"ring\":\"object\"}
? ring object
? locks object",
        "200 {\"done\":\"create\",\"version\":0}
200 {\"done\":\"add\",\"id\":0,\"version\":1}
200 {\"balance\":0,\"changed\":2,\"dispersion\":0,\"done\":\"rebalance\",\"version\":2}
200 {\"done\":\"publish\",\"version\":2}
{\"balance\":0,\"devices\":[{\"address\":\"10.0.0.1\",\"has\":2,\"id\":0,\"name\":\"d0\",\"port\":6200,\"region\":1,\"state\":\"open\",\"wanted\":2,\"weight\":\"100.00\",\"zone\":1}],\"dispersion\":0,\"hour\":6,\"locked\":2,\"min_hours\":24,\"next_id\":1,\"power\":1,\"published\":[2],\"replicas\":1,\"rests\":23,\"ring\":\"object\",\"seats\":2,\"version\":2}
{\"hour\":6,\"locked\":2,\"min_hours\":24,\"partitions\":2,\"rests\":[{\"hours\":23,\"partitions\":2}],\"ring\":\"object\"}\n",
    ),
    (
        "rings_are_listed_by_name_and_a_refused_request_is_kept_and_a_repeat_is_not",
        "? rings
? status
5 {\"caller\":\"ops\",\"do\":\"create\",\"min_hours\":24,\"number\":1,\"power\":1,\"replicas\":1,\"ring\":\"object\"}
6 {\"caller\":\"ops\",\"do\":\"create\",\"min_hours\":24,\"number\":2,\"power\":1,\"replicas\":1,\"ring\":\"disks\"}
9 {\"caller\":\"ops\",\"do\":\"create\",\"min_hours\":24,\"number\":3,\"power\":1,\"replicas\":1,\"ring\":\"disks\"}
3 {\"caller\":\"ops\",\"do\":\"set_hours\",\"min_hours\":1,\"number\":4,\"ring\":\"object\"}
12 {\"caller\":\"ops\",\"do\":\"set_hours\",\"min_hours\":1,\"number\":4,\"ring\":\"object\"}
? rings
? status",
        "{\"rings\":[]}
{\"hour\":0,\"kept\":0,\"limit\":100000,\"rings\":0}
200 {\"done\":\"create\",\"version\":0}
200 {\"done\":\"create\",\"version\":0}
422 {\"refused\":\"RingExists\",\"rule\":2}
200 {\"done\":\"set_hours\",\"version\":1}
200 {\"done\":\"set_hours\",\"version\":1}
{\"rings\":[{\"ring\":\"disks\",\"version\":0},{\"ring\":\"object\",\"version\":1}]}
{\"hour\":9,\"kept\":4,\"limit\":100000,\"rings\":2}\n",
    ),
    (
        "the_log_has_each_decided_request_once_with_its_hour_its_place_and_its_reply",
        "? log 0 10
5 {\"caller\":\"ops\",\"do\":\"create\",\"min_hours\":24,\"number\":1,\"power\":1,\"replicas\":1,\"ring\":\"object\"}
6 {\"number\":2,\"ring\":\"object\",\"caller\":\"ops\",\"do\":\"create\",\"min_hours\":24,\"power\":1,\"replicas\":1}
3 {\"caller\":\"app\",\"do\":\"set_hours\",\"min_hours\":1,\"number\":4294967295,\"ring\":\"object\"}
9 {\"caller\":\"ops\",\"do\":\"create\",\"min_hours\":24,\"number\":1,\"power\":1,\"replicas\":1,\"ring\":\"object\"}
? log 0 1000
? log 1 1
? log 3 5
? log 4294967295 1000",
        "
200 {\"done\":\"create\",\"version\":0}
422 {\"refused\":\"RingExists\",\"rule\":2}
200 {\"done\":\"set_hours\",\"version\":1}
200 {\"done\":\"create\",\"version\":0}
{\"hour\":5,\"place\":0,\"reply\":{\"done\":\"create\",\"version\":0},\"request\":{\"caller\":\"ops\",\"do\":\"create\",\"min_hours\":24,\"number\":1,\"power\":1,\"replicas\":1,\"ring\":\"object\"},\"status\":200}
{\"hour\":6,\"place\":1,\"reply\":{\"refused\":\"RingExists\",\"rule\":2},\"request\":{\"caller\":\"ops\",\"do\":\"create\",\"min_hours\":24,\"number\":2,\"power\":1,\"replicas\":1,\"ring\":\"object\"},\"status\":422}
{\"hour\":6,\"place\":2,\"reply\":{\"done\":\"set_hours\",\"version\":1},\"request\":{\"caller\":\"app\",\"do\":\"set_hours\",\"min_hours\":1,\"number\":4294967295,\"ring\":\"object\"},\"status\":200}
{\"hour\":6,\"place\":1,\"reply\":{\"refused\":\"RingExists\",\"rule\":2},\"request\":{\"caller\":\"ops\",\"do\":\"create\",\"min_hours\":24,\"number\":2,\"power\":1,\"replicas\":1,\"ring\":\"object\"},\"status\":422}

\n",
    ),
    (
        "a_preview_is_of_no_earlier_hour_and_tells_what_a_rebalance_then_does",
        "0 {\"caller\":\"ops\",\"do\":\"create\",\"min_hours\":24,\"number\":1,\"power\":2,\"replicas\":1,\"ring\":\"object\"}
? preview object 7 5
0 {\"address\":\"10.0.0.1\",\"caller\":\"ops\",\"do\":\"add\",\"name\":\"d0\",\"number\":2,\"port\":6200,\"region\":1,\"ring\":\"object\",\"weight\":\"100.00\",\"zone\":1}
5 {\"caller\":\"ops\",\"do\":\"rebalance\",\"number\":3,\"ring\":\"object\",\"seed\":7}
6 {\"address\":\"10.0.0.2\",\"caller\":\"ops\",\"do\":\"add\",\"name\":\"d1\",\"number\":4,\"port\":6200,\"region\":1,\"ring\":\"object\",\"weight\":\"100.00\",\"zone\":1}
? preview object 7 3
? preview object 7 29
29 {\"caller\":\"ops\",\"do\":\"rebalance\",\"number\":5,\"ring\":\"object\",\"seed\":7}
? locks object",
        "200 {\"done\":\"create\",\"version\":0}
422 {\"refused\":\"TooFewDevices\",\"rule\":9}
200 {\"done\":\"add\",\"id\":0,\"version\":1}
200 {\"balance\":0,\"changed\":4,\"dispersion\":0,\"done\":\"rebalance\",\"version\":2}
200 {\"done\":\"add\",\"id\":1,\"version\":3}
{\"balance\":10000,\"changed\":0,\"devices\":[{\"gives\":0,\"has\":4,\"id\":0,\"takes\":0,\"then\":4,\"wanted\":2},{\"gives\":0,\"has\":0,\"id\":1,\"takes\":0,\"then\":0,\"wanted\":2}],\"dispersion\":0,\"hour\":6,\"locked\":4,\"partitions\":0,\"ring\":\"object\",\"seed\":7,\"version\":4}
{\"balance\":0,\"changed\":2,\"devices\":[{\"gives\":2,\"has\":4,\"id\":0,\"takes\":0,\"then\":2,\"wanted\":2},{\"gives\":0,\"has\":0,\"id\":1,\"takes\":2,\"then\":2,\"wanted\":2}],\"dispersion\":0,\"hour\":29,\"locked\":0,\"partitions\":2,\"ring\":\"object\",\"seed\":7,\"version\":4}
200 {\"balance\":0,\"changed\":2,\"dispersion\":0,\"done\":\"rebalance\",\"version\":4}
{\"hour\":29,\"locked\":2,\"min_hours\":24,\"partitions\":4,\"rests\":[{\"hours\":24,\"partitions\":2}],\"ring\":\"object\"}\n",
    ),
    (
        "moves_are_told_between_published_versions_and_by_the_partitions_of_the_greater_power",
        "0 {\"caller\":\"ops\",\"do\":\"create\",\"min_hours\":0,\"number\":1,\"power\":1,\"replicas\":1,\"ring\":\"object\"}
0 {\"address\":\"10.0.0.1\",\"caller\":\"ops\",\"do\":\"add\",\"name\":\"d0\",\"number\":2,\"port\":6200,\"region\":1,\"ring\":\"object\",\"weight\":\"100.00\",\"zone\":1}
0 {\"caller\":\"ops\",\"do\":\"rebalance\",\"number\":3,\"ring\":\"object\",\"seed\":7}
0 {\"caller\":\"ops\",\"do\":\"publish\",\"number\":4,\"ring\":\"object\"}
0 {\"address\":\"10.0.0.2\",\"caller\":\"ops\",\"do\":\"add\",\"name\":\"d1\",\"number\":5,\"port\":6200,\"region\":1,\"ring\":\"object\",\"weight\":\"100.00\",\"zone\":1}
0 {\"caller\":\"ops\",\"do\":\"rebalance\",\"number\":6,\"ring\":\"object\",\"seed\":7}
? moves object 2 4
0 {\"caller\":\"ops\",\"do\":\"publish\",\"number\":7,\"ring\":\"object\"}
? moves object 2 4
0 {\"caller\":\"ops\",\"do\":\"raise_power\",\"number\":8,\"ring\":\"object\"}
0 {\"caller\":\"ops\",\"do\":\"publish\",\"number\":9,\"ring\":\"object\"}
? moves object 4 5
? moves object 2 5",
        "200 {\"done\":\"create\",\"version\":0}
200 {\"done\":\"add\",\"id\":0,\"version\":1}
200 {\"balance\":0,\"changed\":2,\"dispersion\":0,\"done\":\"rebalance\",\"version\":2}
200 {\"done\":\"publish\",\"version\":2}
200 {\"done\":\"add\",\"id\":1,\"version\":3}
200 {\"balance\":0,\"changed\":1,\"dispersion\":0,\"done\":\"rebalance\",\"version\":4}
422 {\"refused\":\"NoVersion\",\"rule\":32}
200 {\"done\":\"publish\",\"version\":4}
{\"changed\":1,\"devices\":[{\"gives\":1,\"id\":0,\"takes\":0},{\"gives\":0,\"id\":1,\"takes\":1}],\"from\":2,\"partitions\":1,\"ring\":\"object\",\"to\":4}
200 {\"done\":\"raise_power\",\"version\":5}
200 {\"done\":\"publish\",\"version\":5}
{\"changed\":0,\"devices\":[],\"from\":4,\"partitions\":0,\"ring\":\"object\",\"to\":5}
{\"changed\":2,\"devices\":[{\"gives\":2,\"id\":0,\"takes\":0},{\"gives\":0,\"id\":1,\"takes\":2}],\"from\":2,\"partitions\":2,\"ring\":\"object\",\"to\":5}\n",
    ),
];

#[test]
fn tables_are_shown(rt: HostRuntime) {
    for (shows, lines, want) in &BALANCED {
        assert!(rt; are_answered(rt.alloc(), lines.as_bytes(), want), "{shows}");
    }
}

/// The table of two devices.
const BOTH: &str = "   id region  zone address          port     weight state   name
    0      1     1 10.0.0.1         6200     100.00 open    d0
    1      1     1 10.0.0.2         6200     100.00 open    d1";

const DRAIN: &str =
    "1 {\"caller\":\"ops\",\"do\":\"set_weight\",\"id\":1,\"number\":4,\"ring\":\"object\",\"weight\":\"0.00\"}";

const REMOVE: &str =
    "1 {\"caller\":\"ops\",\"do\":\"remove\",\"id\":0,\"number\":5,\"ring\":\"object\"}";

static BETWEEN: [Line<'_>; 7] = [
    ("? devices object", BOTH),
    ("? devices object", BOTH),
    (DRAIN, "200 {\"done\":\"set_weight\",\"version\":3}"),
    (
        "? devices object",
        "   id region  zone address          port     weight state   name
    0      1     1 10.0.0.1         6200     100.00 open    d0
    1      1     1 10.0.0.2         6200       0.00 drained d1",
    ),
    (REMOVE, "200 {\"done\":\"remove\",\"version\":4}"),
    (DRAIN, "200 {\"done\":\"set_weight\",\"version\":3}"),
    (
        "? devices object",
        "   id region  zone address          port     weight state   name
    0      1     1 10.0.0.1         6200     100.00 removed d0
    1      1     1 10.0.0.2         6200       0.00 drained d1",
    ),
];

static BEFORE_IT_IS_MADE: [Line<'_>; 2] = [
    ("? devices object", NO_RING),
    ("? balance object", NO_RING),
];

static NOT_THERE: [Line<'_>; 9] = [
    ("? devices none", NO_RING),
    ("? balance none", NO_RING),
    ("? ring none", NO_RING),
    ("? locks none", NO_RING),
    ("? preview none 1 0", NO_RING),
    ("? moves none 2 2", NO_RING),
    ("? devices objec", NO_RING),
    ("? balance object-2", NO_RING),
    ("? devices a2345678901234567890123456789012", NO_RING),
];

#[test]
fn a_question_sees_the_lines_before_it(rt: HostRuntime) {
    assert!(rt; runs_behind(rt.alloc(), Limits::full(), &BETWEEN));
    assert!(rt; runs(rt.alloc(), Limits::full(), &BEFORE_IT_IS_MADE, &BEFORE));
}

#[test]
fn a_ring_that_is_not_there_has_no_table(rt: HostRuntime) {
    assert!(rt; runs_behind(rt.alloc(), Limits::full(), &NOT_THERE));
}

static NO_QUESTIONS: [&str; 72] = [
    "?",
    "? ",
    "? devices",
    "? devices ",
    "?devices object",
    "?  devices object",
    "? devices  object",
    "? devices object ",
    " ? devices object",
    "? devices object\r",
    "? devices\tobject",
    "? device object",
    "? Devices object",
    "? tables object",
    "? devices Object",
    "? devices 1object",
    "? devices -object",
    "? devices object_1",
    "? devices ob\u{f6}ject",
    "? devices object balance",
    "? devices a23456789012345678901234567890123",
    "0 ? devices object",
    "? balance",
    "? balance ",
    "? balance  object",
    "? balanceobject",
    "? ring",
    "? Ring object",
    "? locks",
    "? locks ",
    "? lock object",
    "? locks Object",
    "? locks object 1",
    "? rings ",
    "? rings object",
    "?  rings",
    "?rings",
    "? Rings",
    "? status object",
    "? status\r",
    "? statu",
    "? status status",
    "? metrics",
    "? metrics object",
    "? preview object",
    "? preview object 1",
    "? preview object 1 ",
    "? preview object 1 2 3",
    "? preview object 1 2 ",
    "? preview object 1  2",
    "? preview  object 1 2",
    "? preview object 01 2",
    "? preview object 1 4294967296",
    "? preview object -1 2",
    "? preview Object 1 2",
    "? preview object 1 2\r",
    "? previews object 1 2",
    "? preview 1 2",
    "? moves object",
    "? moves object 1",
    "? moves object 1 2 --each",
    "? moves object 1 02",
    "? moves Object 1 2",
    "? move object 1 2",
    "? log",
    "? log 0",
    "? log 0 0",
    "? log 0 1001",
    "? log 00 1",
    "? log 0 1 ",
    "? log 4294967296 1",
    "? Log 0 1",
];

#[test]
fn other_lines_are_no_questions(rt: HostRuntime) {
    for line in &NO_QUESTIONS {
        assert!(rt;
            are_answered(rt.alloc(), line.as_bytes(), UNREADABLE),
            "{line}"
        );
    }
}

static CLOSING: &str =
    "0 {\"caller\":\"ops\",\"do\":\"create\",\"min_hours\":24,\"number\":1,\"power\":2,\"replicas\":1,\"ring\":\"object\"}
? devices object
? balance object
? devices object
? devices none
? devices Object
0 {\"address\":\"10.0.0.1\",\"caller\":\"ops\",\"do\":\"add\",\"name\":\"d0\",\"number\":2,\"port\":6200,\"region\":1,\"ring\":\"object\",\"weight\":\"1.00\",\"zone\":1}
";

/// The question for balances finds the store failing.
static FAILED_AT_A_QUESTION: &str = "200 {\"done\":\"create\",\"version\":0}
   id region  zone address          port     weight state   name
503 {\"fault\":\"StoreFault\",\"rule\":24}
503 {\"fault\":\"Closed\",\"rule\":25}
503 {\"fault\":\"Closed\",\"rule\":25}
400 {\"fault\":\"Unreadable\",\"rule\":20}
503 {\"fault\":\"Closed\",\"rule\":25}
";

/// The first delivery does.
static FAILED_AT_ONCE: &str = "503 {\"fault\":\"StoreFault\",\"rule\":24}
503 {\"fault\":\"Closed\",\"rule\":25}
503 {\"fault\":\"Closed\",\"rule\":25}
503 {\"fault\":\"Closed\",\"rule\":25}
503 {\"fault\":\"Closed\",\"rule\":25}
400 {\"fault\":\"Unreadable\",\"rule\":20}
503 {\"fault\":\"Closed\",\"rule\":25}
";

/// A ring, and each question of a book that fails at the third.
static CLOSING_READS: &str =
    "0 {\"caller\":\"ops\",\"do\":\"create\",\"min_hours\":24,\"number\":1,\"power\":2,\"replicas\":1,\"ring\":\"object\"}
? rings
? rings
? rings
? status
? ring object
? ring none
? locks object
? preview object 1 0
? moves object 1 1
? log 0 1
? log 0 0
? moves object 1 01
";

/// What they are answered: a question that is none is so of a closed book too.
static FAILED_AT_A_READ: &str = "200 {\"done\":\"create\",\"version\":0}
{\"rings\":[{\"ring\":\"object\",\"version\":0}]}
503 {\"fault\":\"StoreFault\",\"rule\":24}
503 {\"fault\":\"Closed\",\"rule\":25}
503 {\"fault\":\"Closed\",\"rule\":25}
503 {\"fault\":\"Closed\",\"rule\":25}
503 {\"fault\":\"Closed\",\"rule\":25}
503 {\"fault\":\"Closed\",\"rule\":25}
503 {\"fault\":\"Closed\",\"rule\":25}
503 {\"fault\":\"Closed\",\"rule\":25}
503 {\"fault\":\"Closed\",\"rule\":25}
400 {\"fault\":\"Unreadable\",\"rule\":20}
400 {\"fault\":\"Unreadable\",\"rule\":20}
";

/// Whether the lines are answered so whose book fails in its store once it was made ready so often.
fn closes(alloc: Global, loads: u32, lines: &str, want: &str) -> bool {
    let limits = Limits::full();
    let kept = MemKeeper::new(alloc, Rings::new(alloc), limits);
    let keeper = Failing::new(kept, loads);
    let mut book = Book::open(alloc, RingMachine { limits }, keeper);
    tells(alloc, &mut book, lines.as_bytes(), want)
}

#[test]
fn a_closed_book_answers_no_question(rt: HostRuntime) {
    assert!(rt; closes(rt.alloc(), 2, CLOSING, FAILED_AT_A_QUESTION));
    assert!(rt; closes(rt.alloc(), 0, CLOSING, FAILED_AT_ONCE));
    assert!(rt; closes(rt.alloc(), 2, CLOSING_READS, FAILED_AT_A_READ));
}

/// How many lines are answered so, up to the first that isn't, each asked again where its answer
/// found no memory.
fn given<K: Keeper<RingMachine>>(
    alloc: Global,
    book: &mut Book<RingMachine, K>,
    lines: &[Line<'_>],
) -> usize {
    let mut count = 0usize;
    for (line, want) in lines {
        if !is_given(alloc, book, line, want) {
            return count;
        }
        count = count.saturating_add(1);
    }
    count
}

static SHOWN: [Line<'_>; 7] = [
    ("? devices object", BOTH),
    (
        "? balance object",
        "   id     weight wanted    has balance
    0     100.00      2      0  100.00
    1     100.00      2      0  100.00
balance 100.00 dispersion 0.00 version 2",
    ),
    ("? balance none", NO_RING),
    (
        "? rings",
        "{\"rings\":[{\"ring\":\"object\",\"version\":2}]}",
    ),
    (
        "? status",
        "{\"hour\":0,\"kept\":3,\"limit\":100000,\"rings\":1}",
    ),
    (
        "? moves object 1 2",
        "422 {\"refused\":\"NoVersion\",\"rule\":32}",
    ),
    (
        "? log 2 1",
        "{\"hour\":0,\"place\":2,\"reply\":{\"done\":\"add\",\"id\":1,\"version\":2},\"request\":{\"address\":\"10.0.0.2\",\"caller\":\"ops\",\"do\":\"add\",\"name\":\"d1\",\"number\":3,\"port\":6200,\"region\":1,\"ring\":\"object\",\"weight\":\"100.00\",\"zone\":1},\"status\":200}",
    ),
];

/// How many of the lines before and of those questions are answered so.
fn given_anew(alloc: Global) -> (usize, usize) {
    let mut book = open(alloc, Limits::full());
    let made = given(alloc, &mut book, &BEFORE);
    (made, given(alloc, &mut book, &SHOWN))
}

#[test]
fn a_lost_table_is_shown_to_the_repeat(rt: HostRuntime) {
    let (made, shown) = given_anew(rt.alloc());
    assert!(rt;
        made == BEFORE.len() && shown == SHOWN.len(),
        "{made} {shown}"
    );
}
