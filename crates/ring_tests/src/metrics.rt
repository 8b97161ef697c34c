//! What no contract says: the metrics of a store, byte for byte. A script made the texts from the
//! figures that they tell.
use crate::fixtures::{
    DEVICE_0, DEVICE_1, DEVICE_2, DEVICE_3, DeviceRow, NEAR, NamedRow, RingRow, WITHOUT_DEVICES,
};
use crate::reads::{Figures, is_text, shown};
use ring_reads::Question;
use ring_words::Hour;
use std::alloc::Global;

/// Two open devices, of which one has a seat too many and the other none, a marked one that has a
/// seat, and a drained one. Two partitions are locked at hour 480000, and one is free since then.
const MISPLACED: RingRow = ring_like!(WITHOUT_DEVICES, power: 2, version: 9,
    devices: &[
        DEVICE_0,
        DEVICE_1,
        device_like!(DEVICE_2, removed: true),
        device_like!(DEVICE_3, weight: 0),
    ],
    seats: &[0, 0, 0, 2], moved: &[Some(479_990), Some(479_999), None, Some(479_976)],
    published: &[(2, "two"), (5, "five")]);

/// Rings under their names, of which the table below tells the metrics.
static STORES: [&[NamedRow]; 3] = [
    &[],
    &[("photos", WITHOUT_DEVICES)],
    &[("a-2", NEAR), ("a", MISPLACED)],
];

/// The greatest hour and that of the clock; how many numbers are kept, and how many may be; and the
/// metrics of that and of those rings, in their order.
type Told = ((Hour, Hour), (usize, u32), &'static str);

static METRICS: [Told; 3] = [
    (
        (0, 0),
        (0, 100_000),
        concat!(
            "# HELP ringd_numbers_kept Numbers of callers that are kept.\n",
            "# TYPE ringd_numbers_kept gauge\n",
            "ringd_numbers_kept 0\n",
            "# HELP ringd_numbers_limit Most numbers that may be kept.\n",
            "# TYPE ringd_numbers_limit gauge\n",
            "ringd_numbers_limit 100000\n",
            "# HELP ringd_greatest_hour Greatest hour decided at, in hours since 1970.\n",
            "# TYPE ringd_greatest_hour gauge\n",
            "ringd_greatest_hour 0\n",
            "# HELP ringd_ring_version Version of the ring.\n",
            "# TYPE ringd_ring_version gauge\n",
            "# HELP ringd_ring_partitions Partitions of the ring.\n",
            "# TYPE ringd_ring_partitions gauge\n",
            "# HELP ringd_ring_replicas Replicas of each partition.\n",
            "# TYPE ringd_ring_replicas gauge\n",
            "# HELP ringd_ring_balance_percent How far the worst device is from its share, in percent of it.\n",
            "# TYPE ringd_ring_balance_percent gauge\n",
            "# HELP ringd_ring_dispersion_percent Partitions that could stand farther apart, in percent of all.\n",
            "# TYPE ringd_ring_dispersion_percent gauge\n",
            "# HELP ringd_ring_locked_partitions Partitions that a rebalance now would leave where they are.\n",
            "# TYPE ringd_ring_locked_partitions gauge\n",
            "# HELP ringd_ring_locked_hours Hours until no partition is locked.\n",
            "# TYPE ringd_ring_locked_hours gauge\n",
            "# HELP ringd_ring_published_versions Published versions of the ring.\n",
            "# TYPE ringd_ring_published_versions gauge\n",
            "# HELP ringd_ring_published_limit Most versions that may be published.\n",
            "# TYPE ringd_ring_published_limit gauge\n",
            "# HELP ringd_ring_misplaced_seats Seats that devices have above those that they want.\n",
            "# TYPE ringd_ring_misplaced_seats gauge\n",
            "# HELP ringd_ring_devices Devices of the ring by state.\n",
            "# TYPE ringd_ring_devices gauge\n",
        ),
    ),
    (
        (u32::MAX, 0),
        (1, u32::MAX),
        concat!(
            "# HELP ringd_numbers_kept Numbers of callers that are kept.\n",
            "# TYPE ringd_numbers_kept gauge\n",
            "ringd_numbers_kept 1\n",
            "# HELP ringd_numbers_limit Most numbers that may be kept.\n",
            "# TYPE ringd_numbers_limit gauge\n",
            "ringd_numbers_limit 4294967295\n",
            "# HELP ringd_greatest_hour Greatest hour decided at, in hours since 1970.\n",
            "# TYPE ringd_greatest_hour gauge\n",
            "ringd_greatest_hour 4294967295\n",
            "# HELP ringd_ring_version Version of the ring.\n",
            "# TYPE ringd_ring_version gauge\n",
            "ringd_ring_version{ring=\"photos\"} 0\n",
            "# HELP ringd_ring_partitions Partitions of the ring.\n",
            "# TYPE ringd_ring_partitions gauge\n",
            "ringd_ring_partitions{ring=\"photos\"} 2\n",
            "# HELP ringd_ring_replicas Replicas of each partition.\n",
            "# TYPE ringd_ring_replicas gauge\n",
            "ringd_ring_replicas{ring=\"photos\"} 1\n",
            "# HELP ringd_ring_balance_percent How far the worst device is from its share, in percent of it.\n",
            "# TYPE ringd_ring_balance_percent gauge\n",
            "ringd_ring_balance_percent{ring=\"photos\"} 0.00\n",
            "# HELP ringd_ring_dispersion_percent Partitions that could stand farther apart, in percent of all.\n",
            "# TYPE ringd_ring_dispersion_percent gauge\n",
            "ringd_ring_dispersion_percent{ring=\"photos\"} 0.00\n",
            "# HELP ringd_ring_locked_partitions Partitions that a rebalance now would leave where they are.\n",
            "# TYPE ringd_ring_locked_partitions gauge\n",
            "ringd_ring_locked_partitions{ring=\"photos\"} 0\n",
            "# HELP ringd_ring_locked_hours Hours until no partition is locked.\n",
            "# TYPE ringd_ring_locked_hours gauge\n",
            "ringd_ring_locked_hours{ring=\"photos\"} 0\n",
            "# HELP ringd_ring_published_versions Published versions of the ring.\n",
            "# TYPE ringd_ring_published_versions gauge\n",
            "ringd_ring_published_versions{ring=\"photos\"} 0\n",
            "# HELP ringd_ring_published_limit Most versions that may be published.\n",
            "# TYPE ringd_ring_published_limit gauge\n",
            "ringd_ring_published_limit{ring=\"photos\"} 1000\n",
            "# HELP ringd_ring_misplaced_seats Seats that devices have above those that they want.\n",
            "# TYPE ringd_ring_misplaced_seats gauge\n",
            "ringd_ring_misplaced_seats{ring=\"photos\"} 0\n",
            "# HELP ringd_ring_devices Devices of the ring by state.\n",
            "# TYPE ringd_ring_devices gauge\n",
            "ringd_ring_devices{ring=\"photos\",state=\"open\"} 0\n",
            "ringd_ring_devices{ring=\"photos\",state=\"drained\"} 0\n",
            "ringd_ring_devices{ring=\"photos\",state=\"removed\"} 0\n",
        ),
    ),
    (
        (479_999, 480_000),
        (1_234, 100_000),
        concat!(
            "# HELP ringd_numbers_kept Numbers of callers that are kept.\n",
            "# TYPE ringd_numbers_kept gauge\n",
            "ringd_numbers_kept 1234\n",
            "# HELP ringd_numbers_limit Most numbers that may be kept.\n",
            "# TYPE ringd_numbers_limit gauge\n",
            "ringd_numbers_limit 100000\n",
            "# HELP ringd_greatest_hour Greatest hour decided at, in hours since 1970.\n",
            "# TYPE ringd_greatest_hour gauge\n",
            "ringd_greatest_hour 479999\n",
            "# HELP ringd_ring_version Version of the ring.\n",
            "# TYPE ringd_ring_version gauge\n",
            "ringd_ring_version{ring=\"a\"} 9\n",
            "ringd_ring_version{ring=\"a-2\"} 4\n",
            "# HELP ringd_ring_partitions Partitions of the ring.\n",
            "# TYPE ringd_ring_partitions gauge\n",
            "ringd_ring_partitions{ring=\"a\"} 4\n",
            "ringd_ring_partitions{ring=\"a-2\"} 2\n",
            "# HELP ringd_ring_replicas Replicas of each partition.\n",
            "# TYPE ringd_ring_replicas gauge\n",
            "ringd_ring_replicas{ring=\"a\"} 1\n",
            "ringd_ring_replicas{ring=\"a-2\"} 2\n",
            "# HELP ringd_ring_balance_percent How far the worst device is from its share, in percent of it.\n",
            "# TYPE ringd_ring_balance_percent gauge\n",
            "ringd_ring_balance_percent{ring=\"a\"} 999.99\n",
            "ringd_ring_balance_percent{ring=\"a-2\"} 100.00\n",
            "# HELP ringd_ring_dispersion_percent Partitions that could stand farther apart, in percent of all.\n",
            "# TYPE ringd_ring_dispersion_percent gauge\n",
            "ringd_ring_dispersion_percent{ring=\"a\"} 0.00\n",
            "ringd_ring_dispersion_percent{ring=\"a-2\"} 100.00\n",
            "# HELP ringd_ring_locked_partitions Partitions that a rebalance now would leave where they are.\n",
            "# TYPE ringd_ring_locked_partitions gauge\n",
            "ringd_ring_locked_partitions{ring=\"a\"} 2\n",
            "ringd_ring_locked_partitions{ring=\"a-2\"} 0\n",
            "# HELP ringd_ring_locked_hours Hours until no partition is locked.\n",
            "# TYPE ringd_ring_locked_hours gauge\n",
            "ringd_ring_locked_hours{ring=\"a\"} 23\n",
            "ringd_ring_locked_hours{ring=\"a-2\"} 0\n",
            "# HELP ringd_ring_published_versions Published versions of the ring.\n",
            "# TYPE ringd_ring_published_versions gauge\n",
            "ringd_ring_published_versions{ring=\"a\"} 2\n",
            "ringd_ring_published_versions{ring=\"a-2\"} 0\n",
            "# HELP ringd_ring_published_limit Most versions that may be published.\n",
            "# TYPE ringd_ring_published_limit gauge\n",
            "ringd_ring_published_limit{ring=\"a\"} 1000\n",
            "ringd_ring_published_limit{ring=\"a-2\"} 1000\n",
            "# HELP ringd_ring_misplaced_seats Seats that devices have above those that they want.\n",
            "# TYPE ringd_ring_misplaced_seats gauge\n",
            "ringd_ring_misplaced_seats{ring=\"a\"} 2\n",
            "ringd_ring_misplaced_seats{ring=\"a-2\"} 2\n",
            "# HELP ringd_ring_devices Devices of the ring by state.\n",
            "# TYPE ringd_ring_devices gauge\n",
            "ringd_ring_devices{ring=\"a\",state=\"open\"} 2\n",
            "ringd_ring_devices{ring=\"a\",state=\"drained\"} 1\n",
            "ringd_ring_devices{ring=\"a\",state=\"removed\"} 1\n",
            "ringd_ring_devices{ring=\"a-2\",state=\"open\"} 3\n",
            "ringd_ring_devices{ring=\"a-2\",state=\"drained\"} 0\n",
            "ringd_ring_devices{ring=\"a-2\",state=\"removed\"} 0\n",
        ),
    ),
];

/// Whether a text tells the metrics of the rings at a place.
fn are_told(alloc: Global, place: usize, told: &Told) -> bool {
    let ((hour, clock), (kept, limit), text) = *told;
    let figures = Figures {
        hour,
        clock,
        kept,
        limit,
    };
    match STORES.get(place) {
        Some(rows) => is_text(shown(alloc, rows, figures, &Question::Metrics), text),
        None => false,
    }
}

#[test]
fn metrics_are_told(rt: HostRuntime) {
    for (place, told) in METRICS.iter().enumerate() {
        assert!(rt; are_told(rt.alloc(), place, told), "{place}");
    }
}
