//! In which lines texts stop being those of rings.
use crate::fixtures::changed;
use ring_text::stop_line;
use std::alloc::Global;

/// The text of a ring on two devices, of which the second is marked to be removed.
static PAIR: &str = concat!(
    "swift-ring-text 1\n",
    "ring pair\n",
    "version 2\n",
    "power 1\n",
    "replicas 2\n",
    "devices 2\n",
    "0 1 1 10.0.0.1 6200 100.00 present d0\n",
    "3 1 2 10.0.0.2 6200 100.00 removed d1\n",
    "seats\n",
    "0 3\n",
    "3 0\n",
    "end\n",
);

/// Changes of the text above, each a part of it and what stands there then, and the lines in which
/// it stops then.
static STOPS: [(&str, &str, u32); 35] = [
    ("text 1", "text 2", 1), // the form
    ("pair", "Pair", 2), // the name
    ("ring pair", "ring", 2), // no name
    ("version", "versions", 3), // another key
    ("version 2", "version 02", 3), // the version
    ("power 1\n", "power 15\n", 4), // the power
    ("replicas 2", "replicas 6", 5), // the replicas
    ("devices 2", "devices two", 6), // the count of devices
    ("devices 2", "devices 257", 6), // more devices than a ring has
    ("devices 2", "devices 3", 9), // fewer devices than are told
    ("devices 2", "devices 1", 8), // more devices than are told
    ("10.0.0.2", "10.0.0.256", 8), // a device
    ("0 1 1", "0  1 1", 7), // the first device
    ("100.00 removed", "100.0 removed", 8), // a weight
    (" d1\n", "\n", 8), // a word too few
    ("0 1 1 10.0.0.1", "4 1 1 10.0.0.1", 8), // a number that falls
    ("3 1 2", "0 1 2", 8), // a number that is there
    // a place that is there
    (
        "10.0.0.2 6200 100.00 removed d1",
        "10.0.0.1 6200 5.00 removed d0",
        8,
    ),
    ("seats", "Seats", 9), // the seats
    ("seats\n0 3", "seats\n0", 10), // a seat too few
    ("3 0\n", "3 0 3\n", 11), // a seat too many
    ("3 0\n", "3 1\n", 11), // a seat on a device that isn't there
    ("seats\n0 3", "seats\n3 3", 10), // two seats on one device
    ("3 0\n", "3 x\n", 11), // a seat that is no number
    ("3 0\nend", "end", 11), // a partition too few
    ("end", "0 3\nend", 12), // a partition too many
    ("end", "END", 12), // the end
    ("end\n", "end\nend\n", 13), // a line behind the end
    ("end\n", "end\n\n", 13), // an empty line behind the end
    ("end\n", "end\n ", 13), // a byte behind the end
    ("end\n", "", 12), // no end
    ("end\n", "end", 12), // the last line feed
    (" removed d1\nseats\n0 3\n3 0\nend\n", "", 8), // the text in the middle of a device
    ("0 1 1", "\n0 1 1", 7), // the text behind the first lines
    ("pair\n", "pair\r\n", 2), // carriage returns
];

/// Whether a text stops in this line.
fn stop_in(alloc: Global, bytes: &[u8], line: u32) -> bool {
    matches!(stop_line(alloc, bytes), Ok(stop) if stop == line)
}

/// Whether the text above stops in this line after a change.
fn stops_after(alloc: Global, part: &str, other: &str, line: u32) -> bool {
    match changed(alloc, PAIR, part, other) {
        Some(text) => stop_in(alloc, text.as_bytes(), line),
        None => false,
    }
}

#[test]
fn texts_stop_in_their_lines(rt: HostRuntime) {
    for (part, other, line) in &STOPS {
        assert!(rt;
            stops_after(rt.alloc(), part, other, *line),
            "{part} {other}"
        );
    }
    // no line at all, and an empty line
    assert!(rt; stop_in(rt.alloc(), b"", 1) && stop_in(rt.alloc(), b"\n", 1));
}

/// Bytes that are no UTF-8, and the lines in which they stop.
static BYTES: [(&str, &[u8], u32); 4] = [
    ("a byte at the front", b"\xff", 1),
    (
        "a byte in a line",
        b"swift-ring-text 1\nring p\xffair\nversion 2\n",
        2,
    ),
    (
        "half a character",
        b"swift-ring-text 1\nring \xc3\nversion 2\n",
        2,
    ),
    (
        "a byte behind a line that is wrong",
        b"swift-ring-text 1\nring\nversion \xff\n",
        2,
    ),
];

#[test]
fn bytes_stop_in_their_lines(rt: HostRuntime) {
    for (stops, bytes, line) in &BYTES {
        assert!(rt; stop_in(rt.alloc(), bytes, *line), "{stops}");
    }
}

#[test]
fn the_text_of_a_ring_stops_at_its_end(rt: HostRuntime) {
    assert!(rt; stop_in(rt.alloc(), PAIR.as_bytes(), 13));
}
