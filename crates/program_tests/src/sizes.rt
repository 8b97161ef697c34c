//! Every command over rings as large as they may be, and what is read of them.
use builder::decide;
use path_lookup::{HashNames, Path};
use ring_model::Rings;
use ring_reads::{Format, Held, Question, Read, show};
use ring_words::{
    Act, Address, Command, Deed, DeviceAct, DeviceName, Done, Foretold, Hour, Limits, NewRing,
    Port, Power, Refusal, Replicas, Reply, RingName, Row, Rows, Weight,
};
use std::alloc::Global;

/// Names of rings, as many as there may be.
static NAMES: [&str; 16] = [
    "large", "small", "c", "d", "e", "f", "g", "h", "i", "j", "k", "l", "m", "n", "o", "p",
];

/// What a command at an hour comes to, over rings that become those after it.
fn step(alloc: Global, rings: &mut Rings, hour: Hour, command: &Command) -> Option<Reply> {
    match decide(alloc, rings, hour, command, &Limits::full()) {
        Ok((after, reply)) => {
            *rings = after;
            Some(reply)
        }
        Err(_) => None,
    }
}

/// What an act on a ring at an hour comes to, over rings that become those after it.
fn decided(alloc: Global, rings: &mut Rings, hour: Hour, ring: &str, act: Act) -> Option<Reply> {
    let ring = RingName::new(alloc, ring).ok()?;
    step(alloc, rings, hour, &Command { ring, act })
}

/// A new ring of a power, with five replicas.
fn new_ring(power: u16) -> Option<Act> {
    Some(Act::Create(NewRing {
        power: Power::new(power)?,
        replicas: Replicas::new(5)?,
        min_hours: 24,
    }))
}

/// Rings as many as there may be: the first of power 13, and the others of power 1.
fn all_rings(alloc: Global) -> Option<Rings> {
    let mut rings = Rings::new(alloc);
    let mut power = 13;
    for name in &NAMES {
        decided(alloc, &mut rings, 0, name, new_ring(power)?)?;
        power = 1;
    }
    Some(rings)
}

/// The name of a device.
fn name_of(alloc: Global, number: u16) -> Option<DeviceName> {
    let name = format!(in alloc; "d{}", number).ok()?;
    DeviceName::new(alloc, name.as_str()).ok()
}

/// The address of a device.
fn address_of(alloc: Global, number: u16) -> Option<Address> {
    let address = format!(in alloc; "10.0.{}.{}", number / 256, number % 256).ok()?;
    Address::parse(address.as_str())
}

/// The row of a device: in one of three regions, of five zones in each, of its own server.
fn row(alloc: Global, number: u16) -> Option<Row> {
    let address = address_of(alloc, number)?;
    let port = Port::new(6200)?;
    let weight = Weight::of(10_000)?;
    let name = name_of(alloc, number)?;
    Some(Row {
        region: number % 3,
        zone: number % 15,
        address,
        port,
        name,
        weight,
    })
}

/// What the addition of a device to a ring comes to.
fn added(alloc: Global, rings: &mut Rings, ring: &str, number: u16) -> Option<Reply> {
    let act = Act::Add(row(alloc, number)?);
    decided(alloc, rings, 0, ring, act)
}

/// Adds the devices of the numbers before an end.
fn add(alloc: Global, rings: &mut Rings, ring: &str, end: u16) -> Option<()> {
    for number in 0..end {
        added(alloc, rings, ring, number)?;
    }
    Some(())
}

/// An import of a device.
fn import_of(alloc: Global, number: u16) -> Option<Act> {
    let mut rows = Vec::new(alloc);
    rows.push(row(alloc, number)?).ok()?;
    Some(Act::Import(Rows::new(rows)))
}

/// All rings, the first with as many devices as there may be: all but one are added, and that is
/// imported.
fn filled_rings(alloc: Global) -> Option<Rings> {
    let mut rings = all_rings(alloc)?;
    add(alloc, &mut rings, "large", 255)?;
    decided(alloc, &mut rings, 0, "large", import_of(alloc, 255)?)?;
    Some(rings)
}

/// What is asked of the large ring at one of eleven places, and at which hour.
fn act_at(place: u32) -> Option<(Hour, Act)> {
    let foretold = Foretold {
        seed: 9,
        version: 266,
        hour: 14,
    };
    let act = match place {
        0 => (0, Act::Rebalance(7)),
        1 => (
            1,
            Act::OnDevice(150, DeviceAct::SetWeight(Weight::of(5_000)?)),
        ),
        2 => (1, Act::OnDevice(200, DeviceAct::Remove)),
        3 => (1, Act::OnDevice(200, DeviceAct::Keep)),
        4 => (1, Act::OnDevice(201, DeviceAct::Remove)),
        5 => (1, Act::SetHours(12)),
        6 => (1, Act::PretendPassed),
        7 => (2, Act::Rebalance(8)),
        8 => (2, Act::RaisePower),
        9 => (14, Act::RebalanceAs(foretold)),
        _ => (14, Act::Publish),
    };
    Some(act)
}

/// How many seats changed, if a rebalance was done; 0 for anything else that was done.
fn changed(reply: &Reply) -> Option<u32> {
    match reply {
        Reply::Done(
            Done {
                deed: Deed::Rebalance { changed, .. } | Deed::RebalanceAs { changed, .. },
                ..
            },
        ) => Some(*changed),
        Reply::Done(_) => Some(0),
        Reply::Refused(_) => None,
    }
}

/// How many seats the act at a place changes, if it is done.
fn changed_at(alloc: Global, rings: &mut Rings, place: u32) -> Option<u32> {
    let (hour, act) = act_at(place)?;
    changed(&decided(alloc, rings, hour, "large", act)?)
}

/// Whether the act at a place is done: at first all seats are dealt, some move later, and some once
/// more at the next power.
fn is_done(alloc: Global, rings: &mut Rings, place: u32) -> bool {
    match changed_at(alloc, rings, place) {
        Some(changed) => match place {
            0 => changed == 40_960,
            7 | 9 => changed > 0,
            _ => true,
        },
        None => false,
    }
}

/// How many of the eleven acts on the large ring are done, up to the first that isn't.
fn done(alloc: Global, rings: &mut Rings) -> u32 {
    for place in 0..11 {
        if !is_done(alloc, rings, place) {
            return place;
        }
    }
    11
}

/// How many bytes a read of the large ring shows, and none where it is hidden.
fn shown(alloc: Global, rings: &Rings, read: Read) -> Option<usize> {
    let ring = RingName::new(alloc, "large").ok()?;
    let names = HashNames {
        prefix: b"",
        suffix: b"salt",
    };
    let held = Held {
        rings,
        hour: 14,
        clock: 0,
        kept: 0,
        limit: 0,
    };
    match show(alloc, names, &held, &Question::Ring(ring, read)) {
        Ok(bytes) => Some(bytes.len()),
        Err(_) => None,
    }
}

/// How many bytes the nodes of a path have.
fn nodes_shown(alloc: Global, rings: &Rings) -> Option<usize> {
    let path = Path::new(alloc, b"AUTH_test", Some(b"photos"), Some(b"cat.jpg")).ok()?;
    shown(alloc, rings, Read::Nodes(path))
}

/// The version of the large ring.
fn version_of(alloc: Global, rings: &Rings) -> Option<u32> {
    let name = RingName::new(alloc, "large").ok()?;
    Some(rings.get(&name)?.version())
}

/// Whether both tables have a line for each device, a path has its nodes, and a text is shown as it
/// is and as Swift's file.
fn shows_all(alloc: Global, rings: &Rings) -> Option<bool> {
    let version = version_of(alloc, rings)?;
    Some(
        shown(alloc, rings, Read::Tables)? > 255 * 80
            && nodes_shown(alloc, rings)? > 100
            && shown(alloc, rings, Read::Published(version, Format::Text))? > 81_920 * 2
            && shown(alloc, rings, Read::Published(version, Format::Swift))? > 81_920 * 2,
    )
}

/// How many of the acts are done over filled rings, and whether every read is shown then.
fn done_and_shown(alloc: Global) -> Option<(u32, bool)> {
    let mut rings = filled_rings(alloc)?;
    let count = done(alloc, &mut rings);
    Some((count, shows_all(alloc, &rings) == Some(true)))
}

#[test]
fn every_command_is_done_and_every_read_shown_at_full_size(rt: HostRuntime) {
    let (count, is_shown) = done_and_shown(rt.alloc()).unwrap_or((0, false));
    assert!(rt; count == 11 && is_shown, "{count}");
}

/// Why a command was refused, if it was.
fn refused(reply: Reply) -> Option<Refusal> {
    match reply {
        Reply::Refused(refusal) => Some(refusal),
        Reply::Done(_) => None,
    }
}

/// Why one more ring is refused, and one more device of the large ring.
fn refusals(alloc: Global) -> Option<(Refusal, Refusal)> {
    let mut rings = filled_rings(alloc)?;
    let ring = refused(decided(alloc, &mut rings, 0, "q", new_ring(1)?)?)?;
    let device = refused(added(alloc, &mut rings, "large", 256)?)?;
    Some((ring, device))
}

#[test]
fn no_ring_and_no_device_more_than_the_most(rt: HostRuntime) {
    let due = (Refusal::TooManyRings, Refusal::TooManyDevices);
    assert!(rt; refusals(rt.alloc()) == Some(due));
}

/// What the publication of the small ring under one more version comes to.
fn published(alloc: Global, rings: &mut Rings, number: u16) -> Option<Reply> {
    decided(alloc, rings, 0, "small", Act::SetHours(number))?;
    decided(alloc, rings, 0, "small", Act::Publish)
}

/// Publishes the small ring under so many versions, one after another, and tells whether the last
/// publication was refused for this cause, or was done where there is none.
fn publishes(alloc: Global, rings: &mut Rings, count: u16, due: Option<Refusal>) -> Option<bool> {
    let mut last = None;
    for number in 0..count {
        last = refused(published(alloc, rings, number)?);
    }
    Some(last == due)
}

/// All rings, the second with seats.
fn small_ring_with_seats(alloc: Global) -> Option<Rings> {
    let mut rings = all_rings(alloc)?;
    add(alloc, &mut rings, "small", 5)?;
    decided(alloc, &mut rings, 0, "small", Act::Rebalance(1))?;
    Some(rings)
}

/// Whether a thousand texts are published, and the next one is refused.
fn publishes_a_thousand(alloc: Global) -> Option<bool> {
    let mut rings = small_ring_with_seats(alloc)?;
    let are_published = publishes(alloc, &mut rings, 1000, None)?;
    let is_refused = publishes(alloc, &mut rings, 1, Some(Refusal::TooManyVersions))?;
    Some(are_published && is_refused)
}

#[test]
fn a_thousand_texts_are_published_and_no_more(rt: HostRuntime) {
    assert!(rt; matches!(publishes_a_thousand(rt.alloc()), Some(true)));
}
