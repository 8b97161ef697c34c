//! Streams that no client should send.
use crate::serving::{
    CREATED, LOST, NO_RING, Sent, Step, Told, UNREADABLE, session, session_of_one,
};
use std::alloc::{AllocError, Global};
use std::process::Abort;

const BAD_PATH: Told<'_> = Told::Json("400 Bad Request", "{\"refused\":\"BadPath\",\"rule\":30}");

const BAD_HEAD: Told<'_> = Told::Last("400 Bad Request", "{\"fault\":\"BadHead\",\"status\":400}");

const BAD_HOST: Told<'_> = Told::Last("400 Bad Request", "{\"fault\":\"BadHost\",\"status\":400}");

const BAD_LENGTH: Told<'_> = Told::Last(
    "400 Bad Request",
    "{\"fault\":\"BadLength\",\"status\":400}",
);

/// A long text: a front, a part so many times behind it, and another part so many times behind that.
type Long<'a> = (&'a str, (&'a str, u32), (&'a str, u32));

/// Puts a text so many times behind another one.
fn push_times(all: &mut String, part: (&str, u32)) -> Result<(), AllocError> {
    for _ in 0..part.1 {
        all.push_str(part.0)?;
    }
    Ok(())
}

/// A long text, where there is memory.
fn long_text(alloc: Global, long: Long<'_>) -> Result<String, AllocError> {
    let mut all = String::from_str(alloc, long.0)?;
    push_times(&mut all, long.1)?;
    push_times(&mut all, long.2)?;
    Ok(all)
}

/// Where a long text stands in what is sent.
#[derive(Clone, Copy)]
enum Place {
    Target,
    Message,
    Bytes,
    Before,
}

/// Asserts that a long text, sent at this place to a new book, is answered so.
fn session_of_text<R: AllocGlobal + Abort>(rt: &R, place: Place, text: &str, told: Told<'_>) {
    let sent = match place {
        Place::Target => Sent::Get(text),
        Place::Message => Sent::Message(text),
        Place::Bytes => Sent::Bytes(text),
        Place::Before => Sent::Before(text),
    };
    session_of_one(rt, sent, told);
}

/// The same of a text that is made.
fn session_of_long<R: AllocGlobal + Abort>(rt: &R, place: Place, long: Long<'_>, told: Told<'_>) {
    let text = long_text(rt.alloc(), long);
    assert!(rt; text.is_ok());
    if let Ok(text) = text {
        session_of_text(rt, place, &text, told);
    }
}

/// A head of so many bytes, without an end.
fn endless_head(bytes: u32) -> Long<'static> {
    (
        "GET /v2 HTTP/1.1\r\nHost: a\r\nX: ",
        ("x", bytes.saturating_sub(30)),
        ("", 0),
    )
}

#[test]
fn a_head_without_an_end_is_refused_at_8192_bytes(rt: HostRuntime) {
    session_of_long(&rt, Place::Bytes, endless_head(8191), Told::Bytes(""));
}

#[test]
fn a_head_of_8192_bytes_without_an_end_is_refused(rt: HostRuntime) {
    session_of_long(&rt, Place::Bytes, endless_head(8192), BAD_HEAD);
}

/// A head of so many fields.
fn head_of(count: u32) -> Long<'static> {
    (
        "GET /v2 HTTP/1.1\r\nHost: a\r\n",
        ("X: y\r\n", count.saturating_sub(1)),
        ("\r\n", 1),
    )
}

#[test]
fn a_head_of_32_fields_is_read(rt: HostRuntime) {
    session_of_long(&rt, Place::Bytes, head_of(32), LOST);
}

#[test]
fn a_head_of_33_fields_is_refused(rt: HostRuntime) {
    session_of_long(&rt, Place::Before, head_of(33), BAD_HEAD);
}

/// A request of another method.
static OTHER_METHOD: [Step<'_>; 1] = [(
    Sent::Before("PUT /v1/requests HTTP/1.1\r\nHost: a\r\n\r\n"),
    Told::Bytes("HTTP/1.1 501 Not Implemented\r\nContent-Length: 0\r\nConnection: close\r\n\r\n"),
)];

#[test]
fn another_method_is_refused_without_a_body(rt: HostRuntime) {
    session(&rt, &OTHER_METHOD);
}

/// Heads that end their connections: nothing behind them is answered.
static LAST_HEADS: [Step<'_>; 10] = [
    (
        Sent::Before("GET /v2 HTTP/1.0\r\nHost: a\r\n\r\n"),
        Told::Last(
            "505 HTTP Version Not Supported",
            "{\"fault\":\"WrongVersion\",\"status\":505}",
        ),
    ),
    (
        Sent::Before("GET /v2 HTTP/1.1\r\nHost: a\r\nhOST: a\r\n\r\n"),
        BAD_HOST,
    ),
    (Sent::Before("GET /v2 HTTP/1.1\r\n\r\n"), BAD_HOST),
    (
        Sent::Before(
            "POST /v1/requests HTTP/1.1\r\nHost: a\r\nContent-Length: 95\r\nContent-Length: 95\r\n\r\n",
        ),
        BAD_LENGTH,
    ),
    (
        Sent::Before(
            "POST /v1/requests HTTP/1.1\r\nHost: a\r\nContent-Length: 12345678901\r\n\r\n",
        ),
        BAD_LENGTH,
    ),
    (
        Sent::Before("POST /v1/requests HTTP/1.1\r\nHost: a\r\nContent-Length: +95\r\n\r\n"),
        BAD_LENGTH,
    ),
    (
        Sent::Before("POST /v1/requests HTTP/1.1\r\nHost: a\r\nContent-Length:\r\n\r\n"),
        BAD_LENGTH,
    ),
    (
        Sent::Before("POST /v1/requests HTTP/1.1\r\nHost: a\r\n\r\n"),
        Told::Last(
            "411 Length Required",
            "{\"fault\":\"LengthRequired\",\"status\":411}",
        ),
    ),
    (
        Sent::Before(
            "POST /v1/requests HTTP/1.1\r\nHost: a\r\nTransfer-Encoding: chunked\r\nContent-Length: 95\r\n\r\n",
        ),
        Told::Last(
            "501 Not Implemented",
            "{\"fault\":\"NoTransferCoding\",\"status\":501}",
        ),
    ),
    (
        Sent::Before("POST /v1/requests HTTP/1.1\r\nHost: a\r\nContent-Length: 65537\r\n\r\n"),
        Told::Last(
            "413 Payload Too Large",
            "{\"fault\":\"TooLarge\",\"status\":413}",
        ),
    ),
];

#[test]
fn a_refused_head_is_the_last(rt: HostRuntime) {
    session(&rt, &LAST_HEADS);
}

/// A request that makes a ring, whose length has leading zeros.
static LEADING_ZEROS: [Step<'_>; 1] = [(
    Sent::Bytes(
        "POST /v1/requests HTTP/1.1\r\nHost: a\r\nContent-Length: 0000000095\r\n\r\n{\"caller\":\"ops\",\"do\":\"create\",\"min_hours\":24,\"number\":1,\"power\":2,\"replicas\":1,\"ring\":\"object\"}",
    ),
    Told::Bytes(CREATED),
)];

#[test]
fn a_length_may_have_leading_zeros(rt: HostRuntime) {
    session(&rt, &LEADING_ZEROS);
}

/// A good request, and one of 65537 bytes behind it.
static TOO_LARGE: [Step<'_>; 1] = [(
    Sent::Before(
        "POST /v1/requests HTTP/1.1\r\nHost: a\r\nContent-Length: 95\r\n\r\n{\"caller\":\"ops\",\"do\":\"create\",\"min_hours\":24,\"number\":1,\"power\":2,\"replicas\":1,\"ring\":\"object\"}POST /v1/requests HTTP/1.1\r\nHost: a\r\nContent-Length: 65537\r\n\r\n",
    ),
    Told::Bytes(
        "HTTP/1.1 200 OK\r\nContent-Type: application/json\r\nContent-Length: 29\r\n\r\n{\"done\":\"create\",\"version\":0}HTTP/1.1 413 Payload Too Large\r\nContent-Type: application/json\r\nContent-Length: 33\r\nConnection: close\r\n\r\n{\"fault\":\"TooLarge\",\"status\":413}",
    ),
)];

#[test]
fn a_body_of_65537_bytes_is_too_large(rt: HostRuntime) {
    session(&rt, &TOO_LARGE);
}

#[test]
fn a_body_of_65536_bytes_is_read(rt: HostRuntime) {
    session_of_long(&rt, Place::Message, ("", (" ", 65536), ("", 0)), UNREADABLE);
}

#[test]
fn a_body_of_200_nested_lists_is_unreadable(rt: HostRuntime) {
    session_of_long(
        &rt,
        Place::Message,
        ("", ("[", 200), ("]", 200)),
        UNREADABLE,
    );
}

/// Bodies that are no messages.
static NO_MESSAGES: [Step<'_>; 5] = [
    (Sent::Message(""), UNREADABLE),
    (
        Sent::Message("{\"caller\":\"ops\",\"do\":\"publish\",\"number\":1.0,\"ring\":\"object\"}"),
        UNREADABLE,
    ),
    (
        Sent::Message("{\"caller\":\"ops\",\"do\":\"publish\",\"number\":1e0,\"ring\":\"object\"}"),
        UNREADABLE,
    ),
    (
        Sent::Message(
            "{\"caller\":\"ops\",\"do\":\"publish\",\"number\":4294967296,\"ring\":\"object\"}",
        ),
        UNREADABLE,
    ),
    (
        Sent::Message(
            "{\"caller\":\"ops\",\"do\":\"publish\",\"number\":1,\"ring\":\"object\",\"seed\":7}",
        ),
        UNREADABLE,
    ),
];

#[test]
fn bodies_that_are_no_messages_are_unreadable(rt: HostRuntime) {
    session(&rt, &NO_MESSAGES);
}

/// Queries that name no path.
static NO_PATHS: [Step<'_>; 7] = [
    (Sent::Get("/v1/rings/none/nodes?account=a%2Fb"), BAD_PATH),
    (
        Sent::Get("/v1/rings/none/nodes?account=a&account=a"),
        BAD_PATH,
    ),
    (
        Sent::Get("/v1/rings/none/nodes?account=a&object=o"),
        BAD_PATH,
    ),
    (
        Sent::Get("/v1/rings/none/nodes?account=a&other=o"),
        BAD_PATH,
    ),
    (Sent::Get("/v1/rings/none/nodes?account="), BAD_PATH),
    (Sent::Get("/v1/rings/none/nodes?container=c"), BAD_PATH),
    (Sent::Get("/v1/rings/none/nodes?"), BAD_PATH),
];

#[test]
fn paths_that_are_none_are_refused(rt: HostRuntime) {
    session(&rt, &NO_PATHS);
}

#[test]
fn an_account_of_257_bytes_is_refused(rt: HostRuntime) {
    let target = ("/v1/rings/none/nodes?account=", ("a", 257), ("", 0));
    session_of_long(&rt, Place::Target, target, BAD_PATH);
}

/// Segments are taken as they stand, and empty ones are none.
static SEGMENTS: [Step<'_>; 32] = [
    (Sent::Get("/v1/rings/object/text/01"), UNREADABLE),
    (Sent::Get("/v1/rings/object/text/4294967296"), UNREADABLE),
    (Sent::Get("/v1/rings/object/swift/01"), UNREADABLE),
    (Sent::Get("/v1/rings/object/swift/4294967296"), UNREADABLE),
    (Sent::Get("/v1/rings/%6Fbject/devices"), UNREADABLE),
    (Sent::Get("/v1/rings/Object/balance"), UNREADABLE),
    (Sent::Get("/v1/rings/Object/locks"), UNREADABLE),
    (Sent::Get("/v1/rings/object/locks/"), LOST),
    (Sent::Get("/v1/rings/Object"), UNREADABLE),
    (Sent::Get("/v1/rings/%6Fbject"), UNREADABLE),
    (Sent::Get("/v1/rings//devices"), LOST),
    (Sent::Get("/v1/rings/object"), NO_RING),
    (Sent::Get("/v1/rings/object/"), LOST),
    (Sent::Get("/v1/rings/"), LOST),
    (Sent::Get("/v1/ring"), LOST),
    (Sent::Get("/v1/Rings"), LOST),
    (Sent::Get("/v1/status/"), LOST),
    (Sent::Get("/v1/statu"), LOST),
    (Sent::Get("/v1/status%3F"), LOST),
    (Sent::Get("/v1/Metrics"), LOST),
    (Sent::Get("/v1/metrics/tiny"), LOST),
    (Sent::Get("/v1/metrics%3F"), LOST),
    (Sent::Get("/v1/rings/object/devices/"), LOST),
    (Sent::Get("/v1/rings/object/text/"), LOST),
    (Sent::Get("/v1/rings/object/swift/"), LOST),
    (Sent::Get("/v1/rings/object/swift"), LOST),
    (Sent::Get("/v1/rings/object/Swift/1"), LOST),
    (Sent::Get("/v1/rings/object/swift/1/2"), LOST),
    (Sent::Get("/v1/rings/a/b/devices"), LOST),
    (Sent::Get("/v1%2Frequests"), LOST),
    (Sent::Get("/V1/requests"), LOST),
    (Sent::Get("http://a/v1/requests"), LOST),
];

#[test]
fn segments_are_taken_as_they_stand(rt: HostRuntime) {
    session(&rt, &SEGMENTS);
}
