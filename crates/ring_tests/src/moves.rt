//! What no contract says: what moved between published versions of a ring, byte for byte.
use crate::fixtures::{NamedRow, RingRow, WITHOUT_DEVICES};
use crate::reads::{Figures, is_hidden, is_text, shown_of};
use ring_reads::{Hidden, Read};
use std::alloc::Global;

/// A ring of two partitions at version 2, of four at version 5, where the power was raised between,
/// and of two partitions and one replica at version 6. The text of version 7 is that of no ring.
const PUBLISHED: RingRow = RingRow {
    published: &[
        (
            2,
            concat!(
                "swift-ring-text 1\nring photos\nversion 2\npower 1\nreplicas 2\ndevices 2\n",
                "0 1 1 10.0.0.1 6200 100.00 present d0\n1 1 1 10.0.0.2 6200 100.00 present d1\n",
                "seats\n0 1\n1 0\nend\n",
            ),
        ),
        (
            5,
            concat!(
                "swift-ring-text 1\nring photos\nversion 5\npower 2\nreplicas 2\ndevices 3\n",
                "0 1 1 10.0.0.1 6200 100.00 present d0\n1 1 1 10.0.0.2 6200 100.00 present d1\n",
                "3 1 1 10.0.0.4 6200 100.00 present d3\nseats\n0 1\n3 1\n1 3\n1 0\nend\n",
            ),
        ),
        (
            6,
            concat!(
                "swift-ring-text 1\nring photos\nversion 6\npower 1\nreplicas 1\ndevices 2\n",
                "0 1 1 10.0.0.1 6200 100.00 present d0\n1 1 1 10.0.0.2 6200 100.00 present d1\n",
                "seats\n0\n1\nend\n",
            ),
        ),
        (7, "swift-ring-text 1\n"),
    ],
    ..WITHOUT_DEVICES
};

/// Two versions, what moved between them as JSON, and as lines.
static MOVES: [(u32, u32, &str, &str); 5] = [
    (
        2,
        5,
        r#"{"changed":2,"devices":[{"gives":2,"id":0,"takes":0},{"gives":0,"id":3,"takes":2}],"from":2,"partitions":2,"ring":"photos","to":5}"#,
        "1 0 0 3\n2 1 0 3\n",
    ),
    (
        5,
        2,
        r#"{"changed":2,"devices":[{"gives":0,"id":0,"takes":2},{"gives":2,"id":3,"takes":0}],"from":5,"partitions":2,"ring":"photos","to":2}"#,
        "1 0 3 0\n2 1 3 0\n",
    ),
    (
        2,
        2,
        r#"{"changed":0,"devices":[],"from":2,"partitions":0,"ring":"photos","to":2}"#,
        "",
    ),
    (
        2,
        6,
        r#"{"changed":2,"devices":[{"gives":1,"id":0,"takes":0},{"gives":1,"id":1,"takes":0}],"from":2,"partitions":2,"ring":"photos","to":6}"#,
        "0 1 1 -\n1 1 0 -\n",
    ),
    (
        6,
        5,
        r#"{"changed":5,"devices":[{"gives":1,"id":0,"takes":1},{"gives":0,"id":1,"takes":2},{"gives":0,"id":3,"takes":2}],"from":6,"partitions":4,"ring":"photos","to":5}"#,
        "0 1 - 1\n1 0 0 3\n1 1 - 1\n2 1 - 3\n3 1 - 0\n",
    ),
];

/// That ring under its name.
static RINGS: [NamedRow; 1] = [("photos", PUBLISHED)];

/// What is held beside it.
const AT_FIRST: Figures = Figures {
    hour: 0,
    clock: 0,
    kept: 0,
    limit: 0,
};

/// What is shown of a read of the ring of a name, where those versions are published of `photos`.
fn shown(alloc: Global, name: &str, read: Read) -> Result<Vec<u8>, Hidden> {
    shown_of(alloc, &RINGS, AT_FIRST, name, read)
}

/// Whether these texts are what is shown of what moved between two versions.
fn are_shown(alloc: Global, from: u32, to: u32, json: &str, lines: &str) -> bool {
    is_text(shown(alloc, "photos", Read::Moves(from, to)), json)
        && is_text(shown(alloc, "photos", Read::EachMove(from, to)), lines)
}

#[test]
fn moves_are_shown(rt: HostRuntime) {
    for (from, to, json, lines) in &MOVES {
        let are_shown = are_shown(rt.alloc(), *from, *to, json, lines);
        assert!(rt; are_shown, "{from} to {to}");
    }
}

/// Versions of which one can't be read, and why.
static UNREAD: [(u32, u32, Hidden); 5] = [
    (2, 3, Hidden::NoVersion),
    (0, 2, Hidden::NoVersion),
    (7, 2, Hidden::BadText),
    (5, 7, Hidden::BadText),
    (8, 7, Hidden::NoVersion),
];

/// Whether what moved between two versions of the ring of a name is hidden for this reason.
fn are_hidden(alloc: Global, name: &str, from: u32, to: u32, why: Hidden) -> bool {
    is_hidden(shown(alloc, name, Read::Moves(from, to)), why)
        && is_hidden(shown(alloc, name, Read::EachMove(from, to)), why)
}

#[test]
fn versions_that_are_not_there_hide_what_moved(rt: HostRuntime) {
    for (from, to, why) in &UNREAD {
        let are_hidden = are_hidden(rt.alloc(), "photos", *from, *to, *why);
        assert!(rt; are_hidden, "{from} to {to}");
    }
    assert!(rt; are_hidden(rt.alloc(), "other", 2, 5, Hidden::NoRing));
}
