//! Whose requests are answered by a service for programs alone.
use crate::serving::{NO_NAMES, RingBook, clock_at, open};
use byte_streams::{CountedReader, CountedWriter};
use http_api::{KnownClock, Site, serve_audience};
use http_messages::Audience;
use ring_words::Limits;
use std::alloc::Global;

/// The answer to who is not heard.
static NOT_ALLOWED: &str =
    "HTTP/1.1 403 Forbidden\r\nContent-Type: application/json\r\nContent-Length: 35\r\nConnection: close\r\n\r\n{\"fault\":\"NotAllowed\",\"status\":403}";

/// The answer to who is heard, and asks for what is not there.
static HEARD: &str =
    "HTTP/1.1 404 Not Found\r\nContent-Type: application/json\r\nContent-Length: 32\r\n\r\n{\"fault\":\"NoRoute\",\"status\":404}";

/// Serves a stream where the service is one for programs, which also send to `rings.example.com`:
/// whether it is served to its end, and what it is answered.
fn serve_programs(
    alloc: Global,
    clock: &mut KnownClock,
    book: &mut RingBook,
    site: &Site<'_>,
    stream: &str,
) -> (bool, Vec<u8>) {
    let mut reader = CountedReader::new(stream.as_bytes());
    let mut writer = CountedWriter::new(Vec::new(alloc));
    let audience = Audience::Programs(&["rings.example.com"]);
    let told = serve_audience(alloc, audience, &mut reader, &mut writer, clock, book, site);
    (told.is_ok(), writer.into_inner())
}

/// The same of a new book.
fn serve_programs_anew(alloc: Global, clock: &mut KnownClock, stream: &str) -> (bool, Vec<u8>) {
    let mut book = open(alloc, Limits::full());
    let site = Site::new(alloc, NO_NAMES);
    serve_programs(alloc, clock, &mut book, &site, stream)
}

/// Whether a stream to a new book of such a service is answered so.
fn is_answered(alloc: Global, stream: &str, want: &str) -> bool {
    let Ok(mut clock) = clock_at(alloc, 0) else {
        return false;
    };
    let (is_served, text) = serve_programs_anew(alloc, &mut clock, stream);
    is_served && text.as_slice() == want.as_bytes()
}

/// Heads, and whether they are heard.
static HEADS: [(&str, bool); 18] = [
    ("GET /v2 HTTP/1.1\r\nHost: 127.0.0.1\r\n\r\n", true),
    ("GET /v2 HTTP/1.1\r\nHost: 127.0.0.1:8642\r\n\r\n", true),
    ("GET /v2 HTTP/1.1\r\nHost: LocalHost:8642\r\n\r\n", true),
    ("GET /v2 HTTP/1.1\r\nHost: rings.example.com\r\n\r\n", true),
    (
        "GET /v2 HTTP/1.1\r\nHost: rings.example.com.evil.example\r\n\r\n",
        false,
    ),
    ("GET /v2 HTTP/1.1\r\nHost: evil.example\r\n\r\n", false),
    ("GET /v2 HTTP/1.1\r\nHost: localhost:8x\r\n\r\n", false),
    ("GET /v2 HTTP/1.1\r\nHost: 127.0.0.10\r\n\r\n", false),
    ("GET /v2 HTTP/1.1\r\nHost:\r\n\r\n", false),
    (
        "GET /v2 HTTP/1.1\r\nHost: localhost\r\nSec-Fetch-Site: none\r\n\r\n",
        true,
    ),
    (
        "GET /v2 HTTP/1.1\r\nHost: localhost\r\nSec-Fetch-Site: same-origin\r\n\r\n",
        true,
    ),
    (
        "GET /v2 HTTP/1.1\r\nHost: localhost\r\nsec-fetch-site: same-site\r\n\r\n",
        false,
    ),
    (
        "GET /v2 HTTP/1.1\r\nHost: localhost\r\nSec-Fetch-Site: cross-site\r\n\r\n",
        false,
    ),
    (
        "GET /v2 HTTP/1.1\r\nHost: localhost\r\nOrigin: http://localhost:8642\r\n\r\n",
        true,
    ),
    (
        "POST /v2 HTTP/1.1\r\nHost: localhost\r\nContent-Length: 0\r\n\r\n",
        true,
    ),
    (
        "POST /v2 HTTP/1.1\r\nHost: localhost\r\nORIGIN: null\r\nContent-Length: 0\r\n\r\n",
        false,
    ),
    (
        "POST /v2 HTTP/1.1\r\nHost: localhost\r\nSec-Fetch-Site: same-origin\r\nContent-Length: 0\r\n\r\n",
        false,
    ),
    (
        "POST /v2 HTTP/1.1\r\nHost: localhost\r\nOrigin: http://evil.example\r\nContent-Length: 99999\r\n\r\n",
        false,
    ),
];

/// The place of the first head that is answered otherwise, or how many heads there are.
fn first_other(alloc: Global, heads: &[(&str, bool)]) -> usize {
    for (place, (head, is_heard)) in heads.iter().enumerate() {
        let want = if *is_heard { HEARD } else { NOT_ALLOWED };
        if !is_answered(alloc, head, want) {
            return place;
        }
    }
    heads.len()
}

#[test]
fn pages_of_browsers_and_other_hosts_are_not_heard(rt: HostRuntime) {
    let place = first_other(rt.alloc(), &HEADS);
    assert!(rt; place == HEADS.len(), "{place}");
}

/// A page's request that would make a ring.
static CREATE_OF_A_PAGE: &str =
    "POST /v1/requests HTTP/1.1\r\nHost: localhost\r\nOrigin: null\r\nContent-Length: 95\r\n\r\n{\"caller\":\"ops\",\"do\":\"create\",\"min_hours\":24,\"number\":1,\"power\":2,\"replicas\":1,\"ring\":\"object\"}";

#[test]
fn nothing_is_done_behind_a_head_that_is_not_allowed(rt: HostRuntime) {
    assert!(rt; is_answered(rt.alloc(), CREATE_OF_A_PAGE, NOT_ALLOWED));
}
