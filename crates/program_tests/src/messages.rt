//! Messages, commands and replies: worked texts, each read and written, and hostile ones.
/// The reply to a command that was done, in fewer lines than its own.
macro_rules! done {
    ($version:expr, $deed:expr) => {
        Reply::Done(Done {
            version: $version,
            deed: $deed,
        })
    };
}

mod answers;

use answers::{FAULTS, REPLIES, TABLE_FAULTS, first_other_answer};
use ring_messages::{
    MessageFault, NO_MEMORY_TEXT, command_text, message_text, no_memory, read_command,
    read_delivery, read_reply, reply_text,
};
use ring_words::{Command, Deed, Done, Refusal, Reply, RowCause};
use serde_json::Value;
use std::alloc::Global;

/// Whether a text was read, or `None` where there was no memory to tell.
fn is_read<T: Drop>(answer: Result<T, MessageFault>) -> Option<bool> {
    match answer {
        Ok(_) => Some(true),
        Err(MessageFault::Bad) => Some(false),
        Err(MessageFault::NoMemory) => None,
    }
}

/// Whether what is read from a text of JSON is written so.
fn is_written(alloc: Global, text: &str, written: &str) -> Option<bool> {
    let value = Value::from_str(alloc, text).ok()?;
    Some(value.to_string(alloc).ok()?.as_str() == written)
}

/// Texts of JSON, and how what is read from them is written.
static JSON: [(&str, &str); 6] = [
    ("{\"a\":1,\"a\":2}", "{\"a\":2}"),
    (" {\"a\" : 1}\r\n\t ", "{\"a\":1}"),
    ("18446744073709551616", "1.8446744073709552e+19"),
    ("1e2", "100.0"),
    ("1.0", "1.0"),
    ("-0", "-0.0"),
];

#[test]
fn json_is_read_as_serde_json_reads_it(rt: HostRuntime) {
    for (text, written) in &JSON {
        let is_written = matches!(is_written(rt.alloc(), text, written), Some(true));
        assert!(rt; is_written, "{text}");
    }
}

/// Puts texts behind another one.
fn push_all(text: &mut String, parts: &[&str]) -> Option<()> {
    for part in parts {
        text.push_str(part).ok()?;
    }
    Some(())
}

/// Whether these parts make a message that is read.
fn is_read_of(alloc: Global, parts: &[&str]) -> Option<bool> {
    let mut text = String::new(alloc);
    push_all(&mut text, parts)?;
    is_read(read_delivery(alloc, text.as_bytes()))
}

/// A message up to its number, and behind it.
static BEFORE_NUMBER: &str = "{\"caller\":\"ann\",\"number\":";

static BEHIND_NUMBER: &str = ",\"ring\":\"object\",\"do\":\"remove\",\"id\":3}";

/// Whether a message is read where its number is spelled so, and this stands before and behind it.
fn is_read_between<'a>(
    alloc: Global,
    front: &'a str,
    number: &'a str,
    back: &'a str,
) -> Option<bool> {
    is_read_of(alloc, &[front, BEFORE_NUMBER, number, BEHIND_NUMBER, back])
}

/// What stands before a message, its number, what stands behind it, and whether it is read.
type Spelled<'a> = (&'a str, &'a str, &'a str, bool);

/// The place of the first message of which it is told otherwise whether it is read, or how many there
/// are.
fn first_misread(alloc: Global, all: &[Spelled<'_>]) -> usize {
    let mut place = 0usize;
    for (front, number, back, is_message) in all {
        if is_read_between(alloc, front, number, back) != Some(*is_message) {
            return place;
        }
        place = place.saturating_add(1);
    }
    place
}

/// What stands beside a message.
static BESIDE: [Spelled<'_>; 6] = [
    ("", "1", "", true),
    ("\t\r\n ", "1", " \n", true),
    ("", "1", "x", false),
    ("", "1", " {}", false),
    ("", "1", ",", false),
    ("\u{feff}", "1", "", false),
];

#[test]
fn nothing_but_white_space_stands_beside_a_message(rt: HostRuntime) {
    let place = first_misread(rt.alloc(), &BESIDE);
    assert!(rt; place == BESIDE.len(), "{place}");
}

/// How a number is spelled.
static NUMBERS: [Spelled<'_>; 11] = [
    ("", "0", "", true),
    ("", "4294967295", "", true),
    ("", "4294967296", "", false),
    ("", "01", "", false),
    ("", "+1", "", false),
    ("", "-0", "", false),
    ("", "1.0", "", false),
    ("", "1e0", "", false),
    ("", "1e999", "", false),
    ("", "\"\\ud800\"", "", false),
    ("", "", "", false),
];

#[test]
fn a_number_has_one_spelling(rt: HostRuntime) {
    let place = first_misread(rt.alloc(), &NUMBERS);
    assert!(rt; place == NUMBERS.len(), "{place}");
}

/// Puts a bracket behind a text, so many times.
fn push_times(text: &mut String, bracket: char, count: usize) -> Option<()> {
    for _ in 0..count {
        text.push(bracket).ok()?;
    }
    Some(())
}

/// Puts a number, and a caller that is a list within lists, so many in all, behind a text.
fn push_lists(text: &mut String, count: usize) -> Option<()> {
    text.push_str("1,\"caller\":").ok()?;
    push_times(text, '[', count)?;
    push_times(text, ']', count)
}

/// Whether a message is read whose caller is written twice, first as a list within lists, so many
/// in all.
fn is_read_with_lists(alloc: Global, count: usize) -> Option<bool> {
    let mut number = String::new(alloc);
    push_lists(&mut number, count)?;
    number.push_str(",\"caller\":\"ann\"").ok()?;
    is_read_between(alloc, "", number.as_str(), "")
}

/// How many lists are in one another, and whether a message with them is read.
static NESTED: [(usize, bool); 4] = [(1, true), (126, true), (127, false), (200, false)];

#[test]
fn lists_and_objects_nest_to_a_depth_of_127(rt: HostRuntime) {
    for (count, nests) in &NESTED {
        let is_told = is_read_with_lists(rt.alloc(), *count) == Some(*nests);
        assert!(rt; is_told, "{count}");
    }
}

/// Whether a command has this text, and the text is read as the command.
fn is_text(alloc: Global, command: &Command, written: &str) -> Option<bool> {
    let has_text = command_text(alloc, command).ok()?.as_str() == written;
    Some(has_text && read_command(alloc, written).ok()?.is(command))
}

/// Whether a message is Ann's, its command has this text, and the text is read as the command.
fn is_message_of(alloc: Global, message: &str, written: &str) -> Option<bool> {
    let (key, command) = read_delivery(alloc, message.as_bytes()).ok()?;
    let is_text = is_text(alloc, &command, written);
    Some(key.caller.as_str() == "ann" && is_text == Some(true))
}

/// The place of the first message that isn't Ann's with the command that has the text beside it, or
/// how many there are.
fn first_other_message(alloc: Global, messages: &[(&str, &str)]) -> usize {
    let mut place = 0usize;
    for (message, written) in messages {
        if is_message_of(alloc, message, written) != Some(true) {
            return place;
        }
        place = place.saturating_add(1);
    }
    place
}

/// Messages, and the texts of their commands. In the second a doubled key has its last value.
static MESSAGES: [(&str, &str); 3] = [
    (
        "{\"caller\":\"ann\",\"number\":7,\"ring\":\"object\",\"do\":\"create\",\"power\":14,\"replicas\":3,\"min_hours\":1}",
        "{\"do\":\"create\",\"min_hours\":1,\"power\":14,\"replicas\":3,\"ring\":\"object\"}",
    ),
    (
        " {\"do\":\"add\",\"caller\":\"bob\",\"caller\":\"ann\",\"number\":4294967295,\"ring\":\"object\",\"region\":1,\"zone\":2,\"address\":\"10.0.0.1\",\"port\":6200,\"name\":\"d0\",\"weight\":\"0.00\"}\r\n",
        "{\"address\":\"10.0.0.1\",\"do\":\"add\",\"name\":\"d0\",\"port\":6200,\"region\":1,\"ring\":\"object\",\"weight\":\"0.00\",\"zone\":2}",
    ),
    (
        "{\"weight\":\"1000000.00\",\"id\":3,\"do\":\"set_\\u0077eight\",\"ring\":\"object\",\"number\":0,\"caller\":\"ann\"}",
        "{\"do\":\"set_weight\",\"id\":3,\"ring\":\"object\",\"weight\":\"1000000.00\"}",
    ),
];

#[test]
fn messages_are_read_and_commands_written(rt: HostRuntime) {
    let place = first_other_message(rt.alloc(), &MESSAGES);
    assert!(rt; place == MESSAGES.len(), "{place}");
}

/// Bodies that are texts and no messages.
static HOSTILE: [&str; 16] = [
    "",
    " ",
    "{\"caller\":\"ann\",\"number\":1,\"ring\":\"object\",\"do\":\"remove\",\"id\":3,}",
    "null",
    "[]",
    "{}",
    "{\"caller\":\"Ann\",\"number\":1,\"ring\":\"object\",\"do\":\"set_weight\",\"id\":3,\"weight\":\"1.00\"}",
    "{\"caller\":\"ann\",\"number\":1.0,\"ring\":\"object\",\"do\":\"set_weight\",\"id\":3,\"weight\":\"1.00\"}",
    "{\"caller\":\"ann\",\"number\":1e0,\"ring\":\"object\",\"do\":\"set_weight\",\"id\":3,\"weight\":\"1.00\"}",
    "{\"caller\":\"ann\",\"number\":4294967296,\"ring\":\"object\",\"do\":\"set_weight\",\"id\":3,\"weight\":\"1.00\"}",
    "{\"caller\":\"ann\",\"number\":\"1\",\"ring\":\"object\",\"do\":\"set_weight\",\"id\":3,\"weight\":\"1.00\"}",
    "{\"caller\":\"ann\",\"number\":1,\"ring\":\"object\",\"do\":\"set_weight\",\"id\":3,\"weight\":\"1.00\",\"x\":1}",
    "{\"caller\":\"ann\",\"number\":1,\"ring\":\"object\",\"do\":\"set_weight\",\"id\":3}",
    "{\"caller\":\"ann\",\"number\":1,\"ring\":\"object\",\"do\":\"set_weight\",\"id\":65536,\"weight\":\"1.00\"}",
    "{\"caller\":\"ann\",\"number\":1,\"ring\":\"object\",\"do\":\"forget\",\"id\":3,\"weight\":\"1.00\"}",
    "{\"caller\":\"ann\",\"number\":1,\"ring\":\"object\",\"do\":\"create\",\"power\":15,\"replicas\":3,\"min_hours\":1}",
];

/// Whether a body is unreadable.
fn is_bad(alloc: Global, body: &[u8]) -> bool {
    matches!(read_delivery(alloc, body), Err(MessageFault::Bad))
}

/// The place of the first text that isn't refused as a message, or how many there are.
fn first_message(alloc: Global, texts: &[&str]) -> usize {
    let mut place = 0usize;
    for text in texts {
        if !is_bad(alloc, text.as_bytes()) {
            return place;
        }
        place = place.saturating_add(1);
    }
    place
}

/// Whether bodies that are no texts are unreadable.
fn are_bytes_bad(alloc: Global) -> bool {
    let body =
        b"{\"caller\":\"\xff\",\"number\":1,\"ring\":\"object\",\"do\":\"set_weight\",\"id\":3,\"weight\":\"1.00\"}";
    is_bad(alloc, b"\xff") && is_bad(alloc, body)
}

#[test]
fn hostile_bodies_are_unreadable(rt: HostRuntime) {
    let are_bytes_bad = are_bytes_bad(rt.alloc());
    let place = first_message(rt.alloc(), &HOSTILE);
    assert!(rt; are_bytes_bad && place == HOSTILE.len(), "{place}");
}

/// A message up to the weight that it sets.
static BEFORE_WEIGHT: &str =
    "{\"caller\":\"ann\",\"number\":1,\"ring\":\"object\",\"do\":\"set_weight\",\"id\":3,\"weight\":\"";

/// Whether a message is read that sets a device's weight to this text.
fn is_weight(alloc: Global, weight: &'static str) -> Option<bool> {
    is_read_of(alloc, &[BEFORE_WEIGHT, weight, "\"}"])
}

/// Spellings, and whether they are those of weights.
static WEIGHTS: [(&str, bool); 10] = [
    ("0.00", true),
    ("100.00", true),
    ("1000000.00", true),
    ("1000000.01", false),
    ("100.0", false),
    ("0100.00", false),
    (".50", false),
    ("+1.00", false),
    ("1e2", false),
    ("", false),
];

#[test]
fn weights_have_one_spelling(rt: HostRuntime) {
    for (weight, is_told) in &WEIGHTS {
        let is_so = is_weight(rt.alloc(), weight) == Some(*is_told);
        assert!(rt; is_so, "{weight}");
    }
}

/// Whether a text is refused as a command.
fn is_no_command(alloc: Global, text: &str) -> bool {
    matches!(read_command(alloc, text), Err(MessageFault::Bad))
}

/// The place of the first text that isn't refused as a reply, or how many there are.
fn first_reply(alloc: Global, texts: &[&str]) -> usize {
    let mut place = 0usize;
    for text in texts {
        if !matches!(read_reply(alloc, text), Err(MessageFault::Bad)) {
            return place;
        }
        place = place.saturating_add(1);
    }
    place
}

/// Spellings that are those of no reply.
static OTHER_REPLIES: [&str; 6] = [
    "{\"done\":\"create\", \"version\":0}",
    "{\"done\":\"remake\",\"version\":0}",
    "{\"done\":\"create\",\"version\":4294967296}",
    "{\"refused\":\"NoRing\",\"rule\":2}",
    "{\"refused\":\"NoRing\",\"rule\":20}",
    "{\"fault\":\"NoMemory\",\"rule\":23}",
];

/// Spellings that are those of no command.
static OTHER_COMMANDS: [&str; 3] = [
    "{\"do\":\"set_weight\",\"id\":3,\"ring\":\"object\", \"weight\":\"1.00\"}",
    "{\"id\":3,\"do\":\"set_weight\",\"ring\":\"object\",\"weight\":\"1.00\"}",
    "{\"caller\":\"ann\",\"do\":\"set_weight\",\"id\":3,\"number\":1,\"ring\":\"object\",\"weight\":\"1.00\"}",
];

#[test]
fn other_spellings_of_commands_and_replies_are_unreadable(rt: HostRuntime) {
    for text in &OTHER_COMMANDS {
        assert!(rt; is_no_command(rt.alloc(), text), "{text}");
    }
    let place = first_reply(rt.alloc(), &OTHER_REPLIES);
    assert!(rt; place == OTHER_REPLIES.len(), "{place}");
}

/// Whether a reply has this text.
fn has_text(alloc: Global, reply: &Reply, text: &str) -> bool {
    match reply_text(alloc, reply) {
        Ok(written) => written.as_str() == text,
        Err(_) => false,
    }
}

/// The place of the first reply that hasn't the text beside it, or isn't read from it, or how many
/// replies there are.
fn first_other_reply(alloc: Global, replies: &[(Reply, &str)]) -> usize {
    let mut place = 0usize;
    for (reply, text) in replies {
        let is_read = matches!(read_reply(alloc, text), Ok(read) if read == *reply);
        if !is_read || !has_text(alloc, reply, text) {
            return place;
        }
        place = place.saturating_add(1);
    }
    place
}

/// Replies to commands that were done, and their texts.
static DONE: [(Reply, &str); 4] = [
    (
        done!(0, Deed::Create),
        "{\"done\":\"create\",\"version\":0}",
    ),
    (
        done!(4294967295, Deed::Create),
        "{\"done\":\"create\",\"version\":4294967295}",
    ),
    (
        done!(1, Deed::Add { id: 65535 }),
        "{\"done\":\"add\",\"id\":65535,\"version\":1}",
    ),
    (
        done!(2, Deed::SetWeight),
        "{\"done\":\"set_weight\",\"version\":2}",
    ),
];

#[test]
fn done_replies_are_written_and_read_back(rt: HostRuntime) {
    let place = first_other_reply(rt.alloc(), &DONE);
    assert!(rt; place == DONE.len(), "{place}");
}

/// Refusals and their texts.
static REFUSALS: [(Reply, &str); 8] = [
    (
        Reply::Refused(Refusal::NoRing),
        "{\"refused\":\"NoRing\",\"rule\":1}",
    ),
    (
        Reply::Refused(Refusal::RingExists),
        "{\"refused\":\"RingExists\",\"rule\":2}",
    ),
    (
        Reply::Refused(Refusal::TooManyRings),
        "{\"refused\":\"TooManyRings\",\"rule\":3}",
    ),
    (
        Reply::Refused(Refusal::NoDevice),
        "{\"refused\":\"NoDevice\",\"rule\":4}",
    ),
    (
        Reply::Refused(Refusal::DeviceExists),
        "{\"refused\":\"DeviceExists\",\"rule\":5}",
    ),
    (
        Reply::Refused(Refusal::DeviceRemoved),
        "{\"refused\":\"DeviceRemoved\",\"rule\":6}",
    ),
    (
        Reply::Refused(Refusal::TooManyDevices),
        "{\"refused\":\"TooManyDevices\",\"rule\":7}",
    ),
    (
        Reply::Refused(Refusal::IdsUsedUp),
        "{\"refused\":\"IdsUsedUp\",\"rule\":8}",
    ),
];

#[test]
fn refusals_are_written_and_read_back(rt: HostRuntime) {
    let place = first_other_reply(rt.alloc(), &REFUSALS);
    assert!(rt; place == REFUSALS.len(), "{place}");
}

#[test]
fn replies_have_a_status(rt: HostRuntime) {
    let place = first_other_answer(rt.alloc(), &REPLIES);
    assert!(rt; place == REPLIES.len(), "{place}");
}

#[test]
fn faults_have_a_text_and_a_status(rt: HostRuntime) {
    let place = first_other_answer(rt.alloc(), &FAULTS);
    assert!(rt;
        place == FAULTS.len() && no_memory() == NO_MEMORY_TEXT,
        "{place}"
    );
}

#[test]
fn faults_of_paths_and_tables_have_a_text_and_a_status(rt: HostRuntime) {
    let place = first_other_answer(rt.alloc(), &TABLE_FAULTS);
    assert!(rt; place == TABLE_FAULTS.len(), "{place}");
}

/// Messages of commands that make no device, and the texts of these commands.
static WITHOUT_A_DEVICE: [(&str, &str); 8] = [
    (
        "{\"caller\":\"ann\",\"number\":1,\"ring\":\"object\",\"do\":\"remove\",\"id\":65535}",
        "{\"do\":\"remove\",\"id\":65535,\"ring\":\"object\"}",
    ),
    (
        "{\"caller\":\"ann\",\"number\":2,\"ring\":\"object\",\"do\":\"set_hours\",\"min_hours\":24}",
        "{\"do\":\"set_hours\",\"min_hours\":24,\"ring\":\"object\"}",
    ),
    (
        "{\"caller\":\"ann\",\"number\":3,\"ring\":\"object\",\"do\":\"pretend_passed\"}",
        "{\"do\":\"pretend_passed\",\"ring\":\"object\"}",
    ),
    (
        "{\"caller\":\"ann\",\"number\":4,\"ring\":\"object\",\"do\":\"raise_power\"}",
        "{\"do\":\"raise_power\",\"ring\":\"object\"}",
    ),
    (
        "{\"caller\":\"ann\",\"number\":5,\"ring\":\"object\",\"do\":\"publish\"}",
        "{\"do\":\"publish\",\"ring\":\"object\"}",
    ),
    (
        "{\"caller\":\"ann\",\"number\":6,\"seed\":4294967295,\"ring\":\"object\",\"do\":\"rebalance\"}",
        "{\"do\":\"rebalance\",\"ring\":\"object\",\"seed\":4294967295}",
    ),
    (
        "{\"caller\":\"ann\",\"number\":7,\"ring\":\"object\",\"do\":\"keep\",\"id\":65535}",
        "{\"do\":\"keep\",\"id\":65535,\"ring\":\"object\"}",
    ),
    (
        "{\"caller\":\"ann\",\"number\":8,\"version\":8,\"seed\":5,\"ring\":\"object\",\"do\":\"rebalance_as\",\"hour\":480000}",
        "{\"do\":\"rebalance_as\",\"hour\":480000,\"ring\":\"object\",\"seed\":5,\"version\":8}",
    ),
];

#[test]
fn commands_without_a_device_are_read_and_written(rt: HostRuntime) {
    let place = first_other_message(rt.alloc(), &WITHOUT_A_DEVICE);
    assert!(rt; place == WITHOUT_A_DEVICE.len(), "{place}");
}

/// Messages that ask for a rebalance as it was foretold, and lack a part, or have one of another form.
static BAD_FORETOLD: [&str; 5] = [
    "{\"caller\":\"ann\",\"number\":8,\"ring\":\"object\",\"do\":\"rebalance_as\",\"seed\":5,\"version\":8}",
    "{\"caller\":\"ann\",\"number\":8,\"ring\":\"object\",\"do\":\"rebalance_as\",\"hour\":480000,\"seed\":5}",
    "{\"caller\":\"ann\",\"number\":8,\"ring\":\"object\",\"do\":\"rebalance_as\",\"hour\":480000,\"version\":8}",
    "{\"caller\":\"ann\",\"number\":8,\"ring\":\"object\",\"do\":\"rebalance_as\",\"hour\":4294967296,\"seed\":5,\"version\":8}",
    "{\"caller\":\"ann\",\"number\":8,\"ring\":\"object\",\"do\":\"rebalance\",\"hour\":480000,\"seed\":5,\"version\":8}",
];

#[test]
fn a_foretold_rebalance_names_seed_version_and_hour(rt: HostRuntime) {
    let place = first_message(rt.alloc(), &BAD_FORETOLD);
    assert!(rt; place == BAD_FORETOLD.len(), "{place}");
}

/// Texts of requests, in which the members of a message stand in byte order of their keys.
static REQUESTS: [&str; 3] = [
    "{\"caller\":\"ann\",\"do\":\"rebalance_as\",\"hour\":480000,\"number\":8,\"ring\":\"object\",\"seed\":5,\"version\":8}",
    "{\"address\":\"10.0.0.1\",\"caller\":\"ann\",\"do\":\"add\",\"name\":\"d1\",\"number\":4294967295,\"port\":6200,\"region\":1,\"ring\":\"object\",\"weight\":\"1.00\",\"zone\":2}",
    "{\"caller\":\"b\",\"do\":\"publish\",\"number\":0,\"ring\":\"object\"}",
];

/// Whether a text, read as a message, is the text of what was read.
fn is_request(alloc: Global, text: &str) -> Option<bool> {
    let (key, command) = read_delivery(alloc, text.as_bytes()).ok()?;
    Some(message_text(alloc, &key, &command).ok()?.as_str() == text)
}

#[test]
fn a_request_is_written_as_its_message(rt: HostRuntime) {
    for text in &REQUESTS {
        let is_request = matches!(is_request(rt.alloc(), text), Some(true));
        assert!(rt; is_request, "{text}");
    }
}

/// A message up to the rows that it imports.
static BEFORE_ROWS: &str =
    "{\"caller\":\"ann\",\"number\":5,\"ring\":\"object\",\"do\":\"import\",\"rows\":";

/// Whether a message is unreadable that imports what this text spells.
fn are_no_rows(alloc: Global, rows: &'static str) -> bool {
    is_read_of(alloc, &[BEFORE_ROWS, rows, "}"]) == Some(false)
}

/// What stands for rows, and is none.
static BAD_ROWS: [&str; 9] = [
    "null",
    "{}",
    "[1]",
    "[[]]",
    "[[1,2,\"10.0.0.9\",6200,\"d9\"]]",
    "[[1,2,\"10.0.0.9\",6200,\"d9\",\"10.00\",1]]",
    "[[1,2,\"10.0.0.9\",0,\"d9\",\"10.00\"]]",
    "[[\"1\",2,\"10.0.0.9\",6200,\"d9\",\"10.00\"]]",
    "[[1,2,\"10.0.0.9\",6200,\"d9\",\"10.0\"]]",
];

/// Messages with rows, and the texts of their commands.
static WITH_ROWS: [(&str, &str); 2] = [
    (
        "{\"caller\":\"ann\",\"number\":5,\"ring\":\"object\",\"do\":\"import\",\"rows\":[]}",
        "{\"do\":\"import\",\"ring\":\"object\",\"rows\":[]}",
    ),
    (
        "{\"caller\":\"ann\",\"number\":5,\"ring\":\"object\",\"do\":\"import\",\"rows\":[[1, 2,\"10.0.0.9\",6200,\"d9\",\"10.00\"],[0,0,\"0.0.0.0\",1,\"x\",\"0.00\"]]}",
        "{\"do\":\"import\",\"ring\":\"object\",\"rows\":[[1,2,\"10.0.0.9\",6200,\"d9\",\"10.00\"],[0,0,\"0.0.0.0\",1,\"x\",\"0.00\"]]}",
    ),
];

#[test]
fn rows_are_read_and_written(rt: HostRuntime) {
    let place = first_other_message(rt.alloc(), &WITH_ROWS);
    assert!(rt; place == WITH_ROWS.len(), "{place}");
    for rows in &BAD_ROWS {
        assert!(rt; are_no_rows(rt.alloc(), rows), "{rows}");
    }
}

/// Replies to the other commands, and their texts.
static EVERY_COMMAND: [(Reply, &str); 9] = [
    (
        done!(7, Deed::Remove),
        "{\"done\":\"remove\",\"version\":7}",
    ),
    (
        done!(7, Deed::SetHours),
        "{\"done\":\"set_hours\",\"version\":7}",
    ),
    (
        done!(7, Deed::PretendPassed),
        "{\"done\":\"pretend_passed\",\"version\":7}",
    ),
    (
        done!(7, Deed::RaisePower),
        "{\"done\":\"raise_power\",\"version\":7}",
    ),
    (
        done!(7, Deed::Publish),
        "{\"done\":\"publish\",\"version\":7}",
    ),
    (
        done!(
            7,
            Deed::Rebalance {
                balance: 99999,
                changed: 4,
                dispersion: 0
            }
        ),
        "{\"balance\":99999,\"changed\":4,\"dispersion\":0,\"done\":\"rebalance\",\"version\":7}",
    ),
    (
        done!(
            7,
            Deed::Import {
                added: 1,
                reweighted: 18446744073709551615
            }
        ),
        "{\"added\":1,\"done\":\"import\",\"reweighted\":18446744073709551615,\"version\":7}",
    ),
    (done!(7, Deed::Keep), "{\"done\":\"keep\",\"version\":7}"),
    (
        done!(
            8,
            Deed::RebalanceAs {
                balance: 12345,
                changed: 4294967295,
                dispersion: 1
            }
        ),
        "{\"balance\":12345,\"changed\":4294967295,\"dispersion\":1,\"done\":\"rebalance_as\",\"version\":8}",
    ),
];

#[test]
fn replies_of_every_command_are_written_and_read_back(rt: HostRuntime) {
    let place = first_other_reply(rt.alloc(), &EVERY_COMMAND);
    assert!(rt; place == EVERY_COMMAND.len(), "{place}");
}

/// Further refusals and their texts.
static LATER_REFUSALS: [(Reply, &str); 7] = [
    (
        Reply::Refused(Refusal::TooFewDevices),
        "{\"refused\":\"TooFewDevices\",\"rule\":9}",
    ),
    (
        Reply::Refused(Refusal::NotAssigned),
        "{\"refused\":\"NotAssigned\",\"rule\":10}",
    ),
    (
        Reply::Refused(Refusal::TooManyVersions),
        "{\"refused\":\"TooManyVersions\",\"rule\":11}",
    ),
    (
        Reply::Refused(Refusal::PowerLimit),
        "{\"refused\":\"PowerLimit\",\"rule\":14}",
    ),
    (
        Reply::Refused(Refusal::NotMarked),
        "{\"refused\":\"NotMarked\",\"rule\":15}",
    ),
    (
        Reply::Refused(Refusal::OtherVersion),
        "{\"refused\":\"OtherVersion\",\"rule\":16}",
    ),
    (
        Reply::Refused(Refusal::OtherHour),
        "{\"refused\":\"OtherHour\",\"rule\":17}",
    ),
];

#[test]
fn refusals_have_a_name_and_a_rule(rt: HostRuntime) {
    let place = first_other_reply(rt.alloc(), &LATER_REFUSALS);
    assert!(rt; place == LATER_REFUSALS.len(), "{place}");
}

/// Refused rows, one for each cause, and their texts.
static ROW_REFUSALS: [(Reply, &str); 4] = [
    (
        Reply::Refused(Refusal::RowRefused {
            row: 3,
            cause: RowCause::DeviceRemoved,
        }),
        "{\"cause\":6,\"refused\":\"RowRefused\",\"row\":3,\"rule\":13}",
    ),
    (
        Reply::Refused(Refusal::RowRefused {
            row: 3,
            cause: RowCause::TooManyDevices,
        }),
        "{\"cause\":7,\"refused\":\"RowRefused\",\"row\":3,\"rule\":13}",
    ),
    (
        Reply::Refused(Refusal::RowRefused {
            row: 3,
            cause: RowCause::IdsUsedUp,
        }),
        "{\"cause\":8,\"refused\":\"RowRefused\",\"row\":3,\"rule\":13}",
    ),
    (
        Reply::Refused(Refusal::RowRefused {
            row: 3,
            cause: RowCause::TierDiffers,
        }),
        "{\"cause\":12,\"refused\":\"RowRefused\",\"row\":3,\"rule\":13}",
    ),
];

/// Spellings that are those of no refused row.
static OTHER_ROW_REFUSALS: [&str; 2] = [
    "{\"cause\":9,\"refused\":\"RowRefused\",\"row\":3,\"rule\":13}",
    "{\"refused\":\"RowRefused\",\"rule\":13}",
];

#[test]
fn a_row_is_refused_with_its_number_and_cause(rt: HostRuntime) {
    let place = first_other_reply(rt.alloc(), &ROW_REFUSALS);
    assert!(rt; place == ROW_REFUSALS.len(), "{place}");
    let place = first_reply(rt.alloc(), &OTHER_ROW_REFUSALS);
    assert!(rt; place == OTHER_ROW_REFUSALS.len(), "{place}");
}
