//! What the clock tells.
use super::doubles::OwnClock;
use http_api::Clock;
use http_sockets::HourClock;

#[test]
fn a_given_hour_is_told_always(rt: HostRuntime) {
    let mut clock = HourClock::new(&rt, Some(7));
    assert!(rt; clock.hour() == 7 && clock.hour() == 7);
}

/// The seconds that a machine tells, or none, and the hour that is told then.
static HOURS: [(Option<u64>, u32); 7] = [
    (None, 0),
    (Some(7199), 1),
    (Some(7200), 2),
    (None, 2),
    (Some(4294967295 * 3600 + 3599), 4294967295),
    (Some(3600), 1),
    (Some(4294967296 * 3600), 1),
];

/// The place of the first hour that is told otherwise by a machine of these seconds, one after
/// another, or how many hours there are.
fn first_other(time: &OwnClock, hours: &[(Option<u64>, u32)]) -> usize {
    let mut clock = HourClock::new(time, None);
    for (place, (seconds, hour)) in hours.iter().enumerate() {
        time.seconds.set(*seconds);
        if clock.hour() != *hour {
            return place;
        }
    }
    hours.len()
}

#[test]
fn whole_hours_are_told_and_told_again_where_none_can_be_had(rt: HostRuntime) {
    let place = first_other(&OwnClock::new(false), &HOURS);
    assert!(rt; place == HOURS.len(), "{place}");
}

#[test]
fn the_hour_of_the_machine_is_past_2020(rt: HostRuntime) {
    let mut clock = HourClock::new(&rt, None);
    assert!(rt; clock.hour() > 438_000);
}
