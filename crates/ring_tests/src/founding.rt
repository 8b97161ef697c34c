//! Rings that come in with their seats: they go out as they came, and each refusal on its own.
use crate::fixtures::{is_written_as, taken};
use ring_founding::{FoundFault, Terms, found_rings};
use ring_model::{Ring, Rings};
use ring_text::{Snapshot, read_ring};
use ring_words::{MOST_RINGS, RingName};
use std::alloc::{AllocError, Global};

/// How rings come in here.
const TERMS: Terms = Terms {
    min_hours: 24,
    hour: 480_000,
};

/// The text of a ring under a name: on devices 0 and 3, the second marked to be removed.
fn text(alloc: Global, name: &str) -> Result<String, AllocError> {
    format!(in alloc;
        "swift-ring-text 1\nring {name}\nversion 2\npower 1\nreplicas 2\ndevices 2\n0 1 1 10.0.0.1 6200 100.00 present d0\n3 1 2 10.0.0.2 6200 0.00 removed d1\nseats\n0 3\n3 0\nend\n"
    )
}

/// The snapshots of such texts under some names.
fn snapshots(alloc: Global, names: &[&str]) -> Option<Vec<Snapshot>> {
    let mut list = Vec::new(alloc);
    for name in names {
        let text = text(alloc, name).ok()?;
        list.push(read_ring(alloc, text.as_bytes()).ok()?).ok()?;
    }
    Some(list)
}

/// The rings of such texts under some names.
fn founded(alloc: Global, names: &[&str]) -> Option<Rings> {
    let list = snapshots(alloc, names)?;
    found_rings(alloc, TERMS, Rings::new(alloc), &list).ok()
}

/// Whether rings of such texts don't come in beside some that did, for this reason.
fn are_refused(alloc: Global, there: &[&str], names: &[&str], why: FoundFault) -> bool {
    let Some(list) = snapshots(alloc, names) else {
        return false;
    };
    let Some(rings) = founded(alloc, there) else {
        return false;
    };
    match found_rings(alloc, TERMS, rings, &list) {
        Ok(_) => false,
        Err(fault) => fault == why,
    }
}

/// Whether a ring counts as moved when it came in, and gives the number behind the greatest next.
fn is_new(ring: &Ring) -> bool {
    ring.next_id() == 4
        && ring.min_hours() == TERMS.min_hours
        && ring.moves() == [Some(TERMS.hour); 2].as_slice()
}

/// Whether a ring is written under a name as its text.
fn is_written(alloc: Global, name: &str, ring: &Ring) -> Option<bool> {
    let taken = taken(alloc, name, ring)?;
    let text = text(alloc, name).ok()?;
    Some(is_written_as(alloc, &taken, text.as_str()))
}

/// Whether the ring of a name among some came from its text.
fn is_there(alloc: Global, rings: &Rings, name: &str) -> Option<bool> {
    let own = RingName::new(alloc, name).ok()?;
    let ring = rings.get(&own)?;
    Some(is_new(ring) && is_written(alloc, name, ring)?)
}

fn go_out_as_they_came(alloc: Global) -> Option<bool> {
    let rings = founded(alloc, &["second", "first"])?;
    let is_first_there = rings.list().len() == 2 && is_there(alloc, &rings, "first")?;
    Some(is_first_there && is_there(alloc, &rings, "second")?)
}

#[test]
fn rings_go_out_as_they_came(rt: HostRuntime) {
    assert!(rt; matches!(go_out_as_they_came(rt.alloc()), Some(true)));
}

/// Names for as many rings as there may be.
static NAMES: [&str; MOST_RINGS] = [
    "a", "b", "c", "d", "e", "f", "g", "h", "i", "j", "k", "l", "m", "n", "o", "p",
];

#[test]
fn a_name_comes_in_once(rt: HostRuntime) {
    assert!(rt; are_refused(rt.alloc(), &["b"], &["a", "b"], FoundFault::RingExists));
    assert!(rt; are_refused(rt.alloc(), &[], &["a", "a"], FoundFault::RingExists));
    assert!(rt; are_refused(rt.alloc(), &NAMES, &["a"], FoundFault::RingExists));
}

#[test]
fn no_more_rings_come_in_than_there_may_be(rt: HostRuntime) {
    assert!(rt; are_refused(rt.alloc(), &NAMES, &["q"], FoundFault::TooManyRings));
}
