//! Rings that are read, and tables that are imported.
use crate::serving::{LOST, NO_RING, Sent, Step, Told, UNREADABLE, session, session_within};
use ring_page::page;
use ring_words::Limits;
use std::process::Abort;

/// Makes the ring `tiny`.
const CREATE_TINY: Step<'_> = (
    Sent::Message(
        "{\"caller\":\"ops\",\"do\":\"create\",\"min_hours\":0,\"number\":1,\"power\":1,\"replicas\":1,\"ring\":\"tiny\"}",
    ),
    Told::Json("200 OK", "{\"done\":\"create\",\"version\":0}"),
);

/// Gives its seats to its devices.
const REBALANCE_TINY: Step<'_> = (
    Sent::Message(
        "{\"caller\":\"ops\",\"do\":\"rebalance\",\"number\":3,\"ring\":\"tiny\",\"seed\":7}",
    ),
    Told::Json(
        "200 OK",
        "{\"balance\":0,\"changed\":2,\"dispersion\":0,\"done\":\"rebalance\",\"version\":2}",
    ),
);

/// Publishes it.
const PUBLISH_TINY: Step<'_> = (
    Sent::Message("{\"caller\":\"ops\",\"do\":\"publish\",\"number\":4,\"ring\":\"tiny\"}"),
    Told::Json("200 OK", "{\"done\":\"publish\",\"version\":2}"),
);

/// A ring `tiny` of one device, its version 2 published.
static TINY: [Step<'_>; 4] = [
    CREATE_TINY,
    (
        Sent::Message(
            "{\"address\":\"10.0.0.1\",\"caller\":\"ops\",\"do\":\"add\",\"name\":\"d0\",\"number\":2,\"port\":6200,\"region\":1,\"ring\":\"tiny\",\"weight\":\"100.00\",\"zone\":1}",
        ),
        Told::Json("200 OK", "{\"done\":\"add\",\"id\":0,\"version\":1}"),
    ),
    REBALANCE_TINY,
    PUBLISH_TINY,
];

/// A ring `object` of two devices, rebalanced at version 3.
static OBJECT: [Step<'_>; 4] = [
    (
        Sent::Message(
            "{\"caller\":\"ops\",\"do\":\"create\",\"min_hours\":24,\"number\":1,\"power\":2,\"replicas\":1,\"ring\":\"object\"}",
        ),
        Told::Json("200 OK", "{\"done\":\"create\",\"version\":0}"),
    ),
    (
        Sent::Message(
            "{\"address\":\"10.0.0.1\",\"caller\":\"ops\",\"do\":\"add\",\"name\":\"d0\",\"number\":2,\"port\":6200,\"region\":1,\"ring\":\"object\",\"weight\":\"100.00\",\"zone\":1}",
        ),
        Told::Json("200 OK", "{\"done\":\"add\",\"id\":0,\"version\":1}"),
    ),
    (
        Sent::Message(
            "{\"address\":\"10.0.0.2\",\"caller\":\"ops\",\"do\":\"add\",\"name\":\"d1\",\"number\":3,\"port\":6200,\"region\":1,\"ring\":\"object\",\"weight\":\"100.00\",\"zone\":1}",
        ),
        Told::Json("200 OK", "{\"done\":\"add\",\"id\":1,\"version\":2}"),
    ),
    (
        Sent::Message(
            "{\"caller\":\"ops\",\"do\":\"rebalance\",\"number\":4,\"ring\":\"object\",\"seed\":7}",
        ),
        Told::Json(
            "200 OK",
            "{\"balance\":0,\"changed\":4,\"dispersion\":0,\"done\":\"rebalance\",\"version\":3}",
        ),
    ),
];

/// The device table of the ring `object`.
const TWO_DEVICES: &str =
    "   id region  zone address          port     weight state   name\n    0      1     1 10.0.0.1         6200     100.00 open    d0\n    1      1     1 10.0.0.2         6200     100.00 open    d1\n";

/// Asserts that each step is answered as it says over a book that these other steps have filled.
fn session_after<R: AllocGlobal + Abort>(rt: &R, first: &[Step<'_>], then: &[Step<'_>]) {
    session_within(rt, Limits::full(), first, then);
}

/// Targets without a route, and those that have it by another method.
static NO_ROUTES: [Step<'_>; 4] = [
    (
        Sent::Get("/v2"),
        Told::Bytes(
            "HTTP/1.1 404 Not Found\r\nContent-Type: application/json\r\nContent-Length: 32\r\n\r\n{\"fault\":\"NoRoute\",\"status\":404}",
        ),
    ),
    (
        Sent::Get("/v1/requests"),
        Told::Bytes(
            "HTTP/1.1 405 Method Not Allowed\r\nContent-Type: application/json\r\nContent-Length: 36\r\nAllow: POST\r\n\r\n{\"fault\":\"WrongMethod\",\"status\":405}",
        ),
    ),
    (
        Sent::Post("/v1/rings/object/devices?a=b", ""),
        Told::Bytes(
            "HTTP/1.1 405 Method Not Allowed\r\nContent-Type: application/json\r\nContent-Length: 36\r\nAllow: GET\r\n\r\n{\"fault\":\"WrongMethod\",\"status\":405}",
        ),
    ),
    (
        Sent::Get("/v1/rings/none/nodes?account=a&object=o"),
        Told::Bytes(
            "HTTP/1.1 400 Bad Request\r\nContent-Type: application/json\r\nContent-Length: 31\r\n\r\n{\"refused\":\"BadPath\",\"rule\":30}",
        ),
    ),
];

#[test]
fn what_has_no_route_is_told_so(rt: HostRuntime) {
    session(&rt, &NO_ROUTES);
}

/// Reads of the ring `tiny`: its text of 119 bytes, and nodes of 101 bytes.
static TINY_READS: [Step<'_>; 3] = [
    (
        Sent::Get("/v1/rings/tiny/text/2"),
        Told::Bytes(
            "HTTP/1.1 200 OK\r\nContent-Type: text/plain\r\nContent-Length: 119\r\n\r\nswift-ring-text 1\nring tiny\nversion 2\npower 1\nreplicas 1\ndevices 1\n0 1 1 10.0.0.1 6200 100.00 present d0\nseats\n0\n0\nend\n",
        ),
    ),
    (
        Sent::Get("/v1/rings/tiny/nodes?account=a"),
        Told::Bytes(
            "HTTP/1.1 200 OK\r\nContent-Type: application/json\r\nContent-Length: 101\r\n\r\n{\"nodes\":[{\"address\":\"10.0.0.1\",\"device\":\"d0\",\"id\":0,\"port\":6200,\"region\":1,\"zone\":1}],\"partition\":0}",
        ),
    ),
    (
        Sent::Get("/v1/rings/tiny/text/1"),
        Told::Json(
            "422 Unprocessable Entity",
            "{\"refused\":\"NoVersion\",\"rule\":32}",
        ),
    ),
];

#[test]
fn a_published_text_and_its_nodes_are_read(rt: HostRuntime) {
    session_after(&rt, &TINY, &TINY_READS);
}

/// The device of `tiny`, under a name with which the JSON of Swift's file has 256 bytes: then all of
/// the file is ASCII.
const NAMED_DISK: Step<'_> = (
    Sent::Message(
        "{\"address\":\"10.0.0.1\",\"caller\":\"ops\",\"do\":\"add\",\"name\":\"disk0\",\"number\":2,\"port\":6200,\"region\":1,\"ring\":\"tiny\",\"weight\":\"100.00\",\"zone\":1}",
    ),
    Told::Json("200 OK", "{\"done\":\"add\",\"id\":0,\"version\":1}"),
);

/// The ring `tiny` with that device.
static NAMED_TINY: [Step<'_>; 4] = [CREATE_TINY, NAMED_DISK, REBALANCE_TINY, PUBLISH_TINY];

/// The ring `tiny` as the file that Swift loads. What is refused of its text is refused of this too,
/// in the same order: a ring of no form, a version of none, no such ring, no such version.
static SWIFT_READS: [Step<'_>; 6] = [
    (
        Sent::Get("/v1/rings/tiny/swift/2"),
        Told::Bytes(
            "HTTP/1.1 200 OK\r\nContent-Type: application/octet-stream\r\nContent-Length: 270\r\n\r\nR1NG\0\x01\0\0\x01\0{\"byteorder\": \"little\", \"devs\": [{\"device\": \"disk0\", \"id\": 0, \"ip\": \"10.0.0.1\", \"meta\": \"\", \"port\": 6200, \"region\": 1, \"replication_ip\": \"10.0.0.1\", \"replication_port\": 6200, \"weight\": 100.0, \"zone\": 1}], \"part_shift\": 31, \"replica_count\": 1, \"version\": 2}\0\0\0\0",
        ),
    ),
    (
        Sent::Get("/v1/rings/tiny/swift/1"),
        Told::Json(
            "422 Unprocessable Entity",
            "{\"refused\":\"NoVersion\",\"rule\":32}",
        ),
    ),
    (Sent::Get("/v1/rings/none/swift/2"), NO_RING),
    (Sent::Get("/v1/rings/none/swift/02"), UNREADABLE),
    (Sent::Get("/v1/rings/Tiny/swift/2"), UNREADABLE),
    (
        Sent::Post("/v1/rings/Tiny/swift/02", ""),
        Told::Bytes(
            "HTTP/1.1 405 Method Not Allowed\r\nContent-Type: application/json\r\nContent-Length: 36\r\nAllow: GET\r\n\r\n{\"fault\":\"WrongMethod\",\"status\":405}",
        ),
    ),
];

#[test]
fn a_published_ring_is_read_as_the_file_that_swift_loads(rt: HostRuntime) {
    session_after(&rt, &NAMED_TINY, &SWIFT_READS);
}

/// What is asked for beside the page.
static BESIDE_THE_PAGE: [Step<'_>; 3] = [
    (Sent::Get("/v1/page/"), LOST),
    (Sent::Get("/v1/pages"), LOST),
    (
        Sent::Post("/v1/page", ""),
        Told::Bytes(
            "HTTP/1.1 405 Method Not Allowed\r\nContent-Type: application/json\r\nContent-Length: 36\r\nAllow: GET\r\n\r\n{\"fault\":\"WrongMethod\",\"status\":405}",
        ),
    ),
];

/// Asserts that a page is told as it stands, and what is beside it.
fn page_session<R: AllocGlobal + Abort>(rt: &R, page: &str) {
    let steps = [
        (Sent::Get("/v1/page"), Told::Page(page)),
        (Sent::Get("/v1/page?more=1"), Told::Page(page)),
    ];
    session_after(rt, &steps, &BESIDE_THE_PAGE);
}

#[test]
fn the_page_is_told_as_it_stands(rt: HostRuntime) {
    page_session(&rt, page());
}

/// A read of a ring that is not there.
static NOT_THERE: [Step<'_>; 1] = [(Sent::Get("/v1/rings/object/devices"), NO_RING)];

#[test]
fn a_ring_that_is_not_there_is_not_read(rt: HostRuntime) {
    session(&rt, &NOT_THERE);
}

/// A read of nodes where no seats are assigned.
static UNASSIGNED: [Step<'_>; 1] = [(
    Sent::Get("/v1/rings/object/nodes?account=a&container=c&object=o%20o"),
    Told::Json(
        "422 Unprocessable Entity",
        "{\"refused\":\"NotAssigned\",\"rule\":10}",
    ),
)];

#[test]
fn a_ring_without_seats_has_no_nodes(rt: HostRuntime) {
    session_after(&rt, &OBJECT[..3], &UNASSIGNED);
}

/// Reads of the tables and the locks of the ring `object`.
static TABLES: [Step<'_>; 4] = [
    (
        Sent::Get("/v1/rings/object/balance?x"),
        Told::Text(
            "   id     weight wanted    has balance\n    0     100.00      2      2    0.00\n    1     100.00      2      2    0.00\nbalance 0.00 dispersion 0.00 version 3\n",
        ),
    ),
    (
        Sent::Get("/v1/rings/object/devices"),
        Told::Text(TWO_DEVICES),
    ),
    (
        Sent::Get("/v1/rings/object/locks?x"),
        Told::Json(
            "200 OK",
            "{\"hour\":0,\"locked\":4,\"min_hours\":24,\"partitions\":4,\"rests\":[{\"hours\":24,\"partitions\":4}],\"ring\":\"object\"}",
        ),
    ),
    (Sent::Get("/v1/rings/object/lock"), LOST),
];

#[test]
fn tables_are_read(rt: HostRuntime) {
    session_after(&rt, &OBJECT, &TABLES);
}

/// A read of the whole ring `tiny`, and of what is none.
static WHOLE: [Step<'_>; 2] = [
    (
        Sent::Get("/v1/rings/tiny"),
        Told::Json(
            "200 OK",
            "{\"balance\":0,\"devices\":[{\"address\":\"10.0.0.1\",\"has\":2,\"id\":0,\"name\":\"d0\",\"port\":6200,\"region\":1,\"state\":\"open\",\"wanted\":2,\"weight\":\"100.00\",\"zone\":1}],\"dispersion\":0,\"hour\":0,\"locked\":0,\"min_hours\":0,\"next_id\":1,\"power\":1,\"published\":[2],\"replicas\":1,\"rests\":0,\"ring\":\"tiny\",\"seats\":2,\"version\":2}",
        ),
    ),
    (Sent::Get("/v1/rings/tiny/ring"), LOST),
];

#[test]
fn a_whole_ring_is_read(rt: HostRuntime) {
    session_after(&rt, &TINY, &WHOLE);
}

/// Previews of the ring `tiny`, and of what is none.
static PREVIEWS: [Step<'_>; 4] = [
    (
        Sent::Get("/v1/rings/tiny/preview?seed=7"),
        Told::Json(
            "200 OK",
            "{\"balance\":0,\"changed\":0,\"devices\":[{\"gives\":0,\"has\":2,\"id\":0,\"takes\":0,\"then\":2,\"wanted\":2}],\"dispersion\":0,\"hour\":0,\"locked\":0,\"partitions\":0,\"ring\":\"tiny\",\"seed\":7,\"version\":3}",
        ),
    ),
    (
        Sent::Get("/v1/rings/tiny/preview?hour=5&seed=%34294967295"),
        Told::Json(
            "200 OK",
            "{\"balance\":0,\"changed\":0,\"devices\":[{\"gives\":0,\"has\":2,\"id\":0,\"takes\":0,\"then\":2,\"wanted\":2}],\"dispersion\":0,\"hour\":5,\"locked\":0,\"partitions\":0,\"ring\":\"tiny\",\"seed\":4294967295,\"version\":3}",
        ),
    ),
    (Sent::Get("/v1/rings/other/preview?seed=7"), NO_RING),
    (Sent::Get("/v1/rings/tiny/preview/7"), LOST),
];

/// Queries that are none of a preview.
static NO_PREVIEWS: [Step<'_>; 9] = [
    (Sent::Get("/v1/rings/tiny/preview"), UNREADABLE),
    (Sent::Get("/v1/rings/tiny/preview?seed="), UNREADABLE),
    (Sent::Get("/v1/rings/tiny/preview?seed=07"), UNREADABLE),
    (
        Sent::Get("/v1/rings/tiny/preview?seed=4294967296"),
        UNREADABLE,
    ),
    (Sent::Get("/v1/rings/tiny/preview?hour=5"), UNREADABLE),
    (Sent::Get("/v1/rings/tiny/preview?seed=7&hour="), UNREADABLE),
    (
        Sent::Get("/v1/rings/tiny/preview?seed=7&seed=7"),
        UNREADABLE,
    ),
    (
        Sent::Get("/v1/rings/tiny/preview?seed=7&hour=5&hour=5"),
        UNREADABLE,
    ),
    (
        Sent::Get("/v1/rings/tiny/preview?seed=7&more=1"),
        UNREADABLE,
    ),
];

#[test]
fn previews_are_read(rt: HostRuntime) {
    session_after(&rt, &TINY, &PREVIEWS);
    session_after(&rt, &TINY, &NO_PREVIEWS);
}

/// What moved between versions of the ring `tiny`, of which one is published.
static MOVES: [Step<'_>; 12] = [
    (
        Sent::Get("/v1/rings/tiny/moves?from=2&to=2"),
        Told::Json(
            "200 OK",
            "{\"changed\":0,\"devices\":[],\"from\":2,\"partitions\":0,\"ring\":\"tiny\",\"to\":2}",
        ),
    ),
    (
        Sent::Get("/v1/rings/tiny/moves?to=3&from=2"),
        Told::Json(
            "422 Unprocessable Entity",
            "{\"refused\":\"NoVersion\",\"rule\":32}",
        ),
    ),
    (Sent::Get("/v1/rings/other/moves?from=2&to=2"), NO_RING),
    (Sent::Get("/v1/rings/tiny/moves"), UNREADABLE),
    (Sent::Get("/v1/rings/tiny/moves?from=2"), UNREADABLE),
    (Sent::Get("/v1/rings/tiny/moves?from=2&to=x"), UNREADABLE),
    (
        Sent::Get("/v1/rings/tiny/moves?from=2&to=2&each=1"),
        UNREADABLE,
    ),
    (Sent::Get("/v1/rings/tiny/moves?from=2&from=2"), UNREADABLE),
    (Sent::Get("/v1/rings/tiny/moves?from=02&to=2"), UNREADABLE),
    (
        Sent::Get("/v1/rings/tiny/moves?from=2&to=4294967296"),
        UNREADABLE,
    ),
    (
        Sent::Get("/v1/rings/tiny/moves?from=2&to=2&to=2"),
        UNREADABLE,
    ),
    (Sent::Get("/v1/rings/tiny/moves/2"), LOST),
];

#[test]
fn moves_are_read(rt: HostRuntime) {
    session_after(&rt, &TINY, &MOVES);
}

/// A ring without devices, and the refusal of its preview.
static EMPTY_RING: [Step<'_>; 2] = [
    CREATE_TINY,
    (
        Sent::Get("/v1/rings/tiny/preview?seed=7"),
        Told::Json(
            "422 Unprocessable Entity",
            "{\"refused\":\"TooFewDevices\",\"rule\":9}",
        ),
    ),
];

#[test]
fn a_preview_is_refused_as_a_rebalance_is(rt: HostRuntime) {
    session(&rt, &EMPTY_RING);
}

/// Reads of which rings there are and of how much is kept, with the ring `tiny` and its four numbers.
static STORE: [Step<'_>; 3] = [
    (
        Sent::Get("/v1/rings"),
        Told::Json("200 OK", "{\"rings\":[{\"ring\":\"tiny\",\"version\":2}]}"),
    ),
    (
        Sent::Get("/v1/status?x"),
        Told::Json(
            "200 OK",
            "{\"hour\":0,\"kept\":4,\"limit\":100000,\"rings\":1}",
        ),
    ),
    (
        Sent::Post("/v1/status", ""),
        Told::Bytes(
            "HTTP/1.1 405 Method Not Allowed\r\nContent-Type: application/json\r\nContent-Length: 36\r\nAllow: GET\r\n\r\n{\"fault\":\"WrongMethod\",\"status\":405}",
        ),
    ),
];

/// The same reads where there is nothing.
static EMPTY_STORE: [Step<'_>; 2] = [
    (
        Sent::Get("/v1/rings?x=y"),
        Told::Json("200 OK", "{\"rings\":[]}"),
    ),
    (
        Sent::Get("/v1/status"),
        Told::Json(
            "200 OK",
            "{\"hour\":0,\"kept\":0,\"limit\":100000,\"rings\":0}",
        ),
    ),
];

/// The metrics of the ring `tiny` and its four numbers.
static METRICS: [Step<'_>; 4] = [
    (
        Sent::Get("/v1/metrics"),
        Told::Bytes(concat!(
            "HTTP/1.1 200 OK\r\nContent-Type: text/plain; version=0.0.4; charset=utf-8\r\nContent-Length: 2133\r\n\r\n",
            "# HELP ringd_numbers_kept Numbers of callers that are kept.\n",
            "# TYPE ringd_numbers_kept gauge\n",
            "ringd_numbers_kept 4\n",
            "# HELP ringd_numbers_limit Most numbers that may be kept.\n",
            "# TYPE ringd_numbers_limit gauge\n",
            "ringd_numbers_limit 100000\n",
            "# HELP ringd_greatest_hour Greatest hour decided at, in hours since 1970.\n",
            "# TYPE ringd_greatest_hour gauge\n",
            "ringd_greatest_hour 0\n",
            "# HELP ringd_ring_version Version of the ring.\n",
            "# TYPE ringd_ring_version gauge\n",
            "ringd_ring_version{ring=\"tiny\"} 2\n",
            "# HELP ringd_ring_partitions Partitions of the ring.\n",
            "# TYPE ringd_ring_partitions gauge\n",
            "ringd_ring_partitions{ring=\"tiny\"} 2\n",
            "# HELP ringd_ring_replicas Replicas of each partition.\n",
            "# TYPE ringd_ring_replicas gauge\n",
            "ringd_ring_replicas{ring=\"tiny\"} 1\n",
            "# HELP ringd_ring_balance_percent How far the worst device is from its share, in percent of it.\n",
            "# TYPE ringd_ring_balance_percent gauge\n",
            "ringd_ring_balance_percent{ring=\"tiny\"} 0.00\n",
            "# HELP ringd_ring_dispersion_percent Partitions that could stand farther apart, in percent of all.\n",
            "# TYPE ringd_ring_dispersion_percent gauge\n",
            "ringd_ring_dispersion_percent{ring=\"tiny\"} 0.00\n",
            "# HELP ringd_ring_locked_partitions Partitions that a rebalance now would leave where they are.\n",
            "# TYPE ringd_ring_locked_partitions gauge\n",
            "ringd_ring_locked_partitions{ring=\"tiny\"} 0\n",
            "# HELP ringd_ring_locked_hours Hours until no partition is locked.\n",
            "# TYPE ringd_ring_locked_hours gauge\n",
            "ringd_ring_locked_hours{ring=\"tiny\"} 0\n",
            "# HELP ringd_ring_published_versions Published versions of the ring.\n",
            "# TYPE ringd_ring_published_versions gauge\n",
            "ringd_ring_published_versions{ring=\"tiny\"} 1\n",
            "# HELP ringd_ring_published_limit Most versions that may be published.\n",
            "# TYPE ringd_ring_published_limit gauge\n",
            "ringd_ring_published_limit{ring=\"tiny\"} 1000\n",
            "# HELP ringd_ring_misplaced_seats Seats that devices have above those that they want.\n",
            "# TYPE ringd_ring_misplaced_seats gauge\n",
            "ringd_ring_misplaced_seats{ring=\"tiny\"} 0\n",
            "# HELP ringd_ring_devices Devices of the ring by state.\n",
            "# TYPE ringd_ring_devices gauge\n",
            "ringd_ring_devices{ring=\"tiny\",state=\"open\"} 1\n",
            "ringd_ring_devices{ring=\"tiny\",state=\"drained\"} 0\n",
            "ringd_ring_devices{ring=\"tiny\",state=\"removed\"} 0\n",
        )),
    ),
    (Sent::Get("/v1/metrics/"), LOST),
    (Sent::Get("/v1/metric"), LOST),
    (
        Sent::Post("/v1/metrics", ""),
        Told::Bytes(
            "HTTP/1.1 405 Method Not Allowed\r\nContent-Type: application/json\r\nContent-Length: 36\r\nAllow: GET\r\n\r\n{\"fault\":\"WrongMethod\",\"status\":405}",
        ),
    ),
];

/// Those where there is nothing. A query is passed over, as one of the rings is.
static NO_METRICS: [Step<'_>; 1] = [(
    Sent::Get("/v1/metrics?ring=tiny"),
    Told::Bytes(concat!(
        "HTTP/1.1 200 OK\r\nContent-Type: text/plain; version=0.0.4; charset=utf-8\r\nContent-Length: 1572\r\n\r\n",
        "# HELP ringd_numbers_kept Numbers of callers that are kept.\n",
        "# TYPE ringd_numbers_kept gauge\n",
        "ringd_numbers_kept 0\n",
        "# HELP ringd_numbers_limit Most numbers that may be kept.\n",
        "# TYPE ringd_numbers_limit gauge\n",
        "ringd_numbers_limit 100000\n",
        "# HELP ringd_greatest_hour Greatest hour decided at, in hours since 1970.\n",
        "# TYPE ringd_greatest_hour gauge\n",
        "ringd_greatest_hour 0\n",
        "# HELP ringd_ring_version Version of the ring.\n",
        "# TYPE ringd_ring_version gauge\n",
        "# HELP ringd_ring_partitions Partitions of the ring.\n",
        "# TYPE ringd_ring_partitions gauge\n",
        "# HELP ringd_ring_replicas Replicas of each partition.\n",
        "# TYPE ringd_ring_replicas gauge\n",
        "# HELP ringd_ring_balance_percent How far the worst device is from its share, in percent of it.\n",
        "# TYPE ringd_ring_balance_percent gauge\n",
        "# HELP ringd_ring_dispersion_percent Partitions that could stand farther apart, in percent of all.\n",
        "# TYPE ringd_ring_dispersion_percent gauge\n",
        "# HELP ringd_ring_locked_partitions Partitions that a rebalance now would leave where they are.\n",
        "# TYPE ringd_ring_locked_partitions gauge\n",
        "# HELP ringd_ring_locked_hours Hours until no partition is locked.\n",
        "# TYPE ringd_ring_locked_hours gauge\n",
        "# HELP ringd_ring_published_versions Published versions of the ring.\n",
        "# TYPE ringd_ring_published_versions gauge\n",
        "# HELP ringd_ring_published_limit Most versions that may be published.\n",
        "# TYPE ringd_ring_published_limit gauge\n",
        "# HELP ringd_ring_misplaced_seats Seats that devices have above those that they want.\n",
        "# TYPE ringd_ring_misplaced_seats gauge\n",
        "# HELP ringd_ring_devices Devices of the ring by state.\n",
        "# TYPE ringd_ring_devices gauge\n",
    )),
)];

#[test]
fn the_metrics_are_read(rt: HostRuntime) {
    session_after(&rt, &TINY, &METRICS);
    session(&rt, &NO_METRICS);
}

#[test]
fn the_rings_and_the_status_are_read(rt: HostRuntime) {
    session_after(&rt, &TINY, &STORE);
    session(&rt, &EMPTY_STORE);
}

/// What is told of a log that has nothing from a place on.
const NO_ENTRY: Told<'_> = Told::Bytes(
    "HTTP/1.1 200 OK\r\nContent-Type: application/x-ndjson\r\nContent-Length: 0\r\n\r\n",
);

/// Reads of the log of the ring `tiny`.
static LOG: [Step<'_>; 13] = [
    (
        Sent::Get("/v1/log?from=2&most=1"),
        Told::Bytes(
            "HTTP/1.1 200 OK\r\nContent-Type: application/x-ndjson\r\nContent-Length: 192\r\n\r\n{\"hour\":0,\"place\":2,\"reply\":{\"balance\":0,\"changed\":2,\"dispersion\":0,\"done\":\"rebalance\",\"version\":2},\"request\":{\"caller\":\"ops\",\"do\":\"rebalance\",\"number\":3,\"ring\":\"tiny\",\"seed\":7},\"status\":200}\n",
        ),
    ),
    (
        Sent::Get("/v1/log?from=3"),
        Told::Bytes(
            "HTTP/1.1 200 OK\r\nContent-Type: application/x-ndjson\r\nContent-Length: 140\r\n\r\n{\"hour\":0,\"place\":3,\"reply\":{\"done\":\"publish\",\"version\":2},\"request\":{\"caller\":\"ops\",\"do\":\"publish\",\"number\":4,\"ring\":\"tiny\"},\"status\":200}\n",
        ),
    ),
    (Sent::Get("/v1/log?most=1000&from=4"), NO_ENTRY),
    (Sent::Get("/v1/log?most=0"), UNREADABLE),
    (Sent::Get("/v1/log?most=1001"), UNREADABLE),
    (Sent::Get("/v1/log?from=1&from=1"), UNREADABLE),
    (Sent::Get("/v1/log?place=1"), UNREADABLE),
    (
        Sent::Post("/v1/log", ""),
        Told::Bytes(
            "HTTP/1.1 405 Method Not Allowed\r\nContent-Type: application/json\r\nContent-Length: 36\r\nAllow: GET\r\n\r\n{\"fault\":\"WrongMethod\",\"status\":405}",
        ),
    ),
    (Sent::Get("/v1/log?from=01"), UNREADABLE),
    (Sent::Get("/v1/log?from=4294967296"), UNREADABLE),
    (Sent::Get("/v1/log?most=01"), UNREADABLE),
    (Sent::Get("/v1/log?most="), UNREADABLE),
    (Sent::Get("/v1/log/"), LOST),
];

/// The log where there is nothing.
static NO_LOG: [Step<'_>; 1] = [(Sent::Get("/v1/log"), NO_ENTRY)];

#[test]
fn the_log_is_read(rt: HostRuntime) {
    session_after(&rt, &TINY, &LOG);
    session(&rt, &NO_LOG);
}

/// An import of two rows for one place, and its message.
static IMPORT_TWICE: [Step<'_>; 2] = [
    (
        Sent::Post(
            "/v1/import/object?caller=ops&number=5",
            "region,zone,address,port,name,weight\n1,1,10.0.0.9,6200,d9,10.00\n1,1,10.0.0.9,6200,d9,20.00\n",
        ),
        Told::Json(
            "200 OK",
            "{\"added\":1,\"done\":\"import\",\"reweighted\":1,\"version\":4}",
        ),
    ),
    (
        Sent::Message(
            "{\"caller\":\"ops\",\"do\":\"import\",\"number\":5,\"ring\":\"object\",\"rows\":[[1,1,\"10.0.0.9\",6200,\"d9\",\"10.00\"],[1,1,\"10.0.0.9\",6200,\"d9\",\"20.00\"]]}",
        ),
        Told::Json(
            "200 OK",
            "{\"added\":1,\"done\":\"import\",\"reweighted\":1,\"version\":4}",
        ),
    ),
];

#[test]
fn a_table_is_imported_as_its_message_is(rt: HostRuntime) {
    session_after(&rt, &OBJECT, &IMPORT_TWICE);
}

/// An import into a ring that has room for two devices, and the ring behind it.
static IMPORT_TOO_MANY: [Step<'_>; 2] = [
    (
        Sent::Post(
            "/v1/import/object?caller=ops&number=5",
            "region,zone,address,port,name,weight\n1,1,10.0.0.1,6200,d0,5.00\n1,1,10.0.0.9,6200,d9,10.00\n",
        ),
        Told::Json(
            "422 Unprocessable Entity",
            "{\"cause\":7,\"refused\":\"RowRefused\",\"row\":2,\"rule\":13}",
        ),
    ),
    (
        Sent::Get("/v1/rings/object/devices"),
        Told::Text(TWO_DEVICES),
    ),
];

#[test]
fn a_table_with_a_row_too_many_is_refused_whole(rt: HostRuntime) {
    let mut limits = Limits::full();
    limits.devices = 2;
    session_within(&rt, limits, &OBJECT, &IMPORT_TOO_MANY);
}

/// What an import of a table asks for.
const IMPORT: &str = "/v1/import/object?number=5&caller=ops";

/// The same number with no rows, which is decided.
const DECIDED: Step<'_> = (
    Sent::Post(IMPORT, "region,zone,address,port,name,weight\n"),
    Told::Json(
        "200 OK",
        "{\"added\":0,\"done\":\"import\",\"reweighted\":0,\"version\":4}",
    ),
);

/// Tables that are not read, and decide nothing: the number stays new.
static BAD_TABLES: [Step<'_>; 4] = [
    (
        Sent::Post(
            IMPORT,
            "region,zone,address,port,name,weight\n1,1,10.0.0.256,6200,d0,5.00\n",
        ),
        Told::Json(
            "400 Bad Request",
            "{\"column\":3,\"fault\":\"BadField\",\"row\":1,\"rule\":42}",
        ),
    ),
    (
        Sent::Post(
            IMPORT,
            "region,zone,address,port,name,weight\n1,1,10.0.0.9,6200,d9,5.00\n1,1,10.0.0.9,6200,d9\n",
        ),
        Told::Json(
            "400 Bad Request",
            "{\"fault\":\"BadRow\",\"row\":2,\"rule\":41}",
        ),
    ),
    (
        Sent::Post(IMPORT, ""),
        Told::Json("400 Bad Request", "{\"fault\":\"BadHeader\",\"rule\":40}"),
    ),
    DECIDED,
];

#[test]
fn a_table_that_is_not_read_is_not_decided(rt: HostRuntime) {
    session_after(&rt, &OBJECT, &BAD_TABLES);
}

const HEADER: &str = "region,zone,address,port,name,weight\n";

/// Imports whose target names no caller and number of their forms.
static BAD_TARGETS: [Step<'_>; 8] = [
    (Sent::Post("/v1/import/object", HEADER), UNREADABLE),
    (
        Sent::Post("/v1/import/object?caller=ops", HEADER),
        UNREADABLE,
    ),
    (
        Sent::Post("/v1/import/object?caller=ops&number=5&number=5", HEADER),
        UNREADABLE,
    ),
    (
        Sent::Post("/v1/import/object?caller=ops&number=5&x=y", HEADER),
        UNREADABLE,
    ),
    (
        Sent::Post("/v1/import/object?caller=Ops&number=5", HEADER),
        UNREADABLE,
    ),
    (
        Sent::Post("/v1/import/object?caller=ops&number=05", HEADER),
        UNREADABLE,
    ),
    (
        Sent::Post("/v1/import/Object?caller=ops&number=5", HEADER),
        UNREADABLE,
    ),
    DECIDED,
];

#[test]
fn an_import_without_its_number_is_not_decided(rt: HostRuntime) {
    session_after(&rt, &OBJECT, &BAD_TARGETS);
}
