//! The request at the front of a buffer.
ghost use Rattle.std.specs.Prelude.{◌≡◌, ◌≤◌, All, length, map, take, codes};
ghost use Rattle.http_messages.specs.Requests.{longest_head, most_fields};
ghost use Rattle.httparse.specs.Spans.{IsHeaderWithin, header_bytes, IsRequestWithin, IsRequestOf};
ghost use Rattle.http_messages.specs.Fields.{values_named};
ghost use Rattle.http_messages.specs.Inner.Finding.{IsSmall};
ghost use Rattle.http_messages.specs.Requests.{framing_from, framing_of_lengths, method_of};
ghost use Rattle.http_messages.specs.Requests.{length_of_text, IsLook};

use crate::audience::{Audience, allows};
use crate::fields::{FieldFound, closes, find};
use httparse::Status;
use httparse::spans::{EMPTY_HEADER_SPAN, HeaderSpan, RequestSpans, Span, parse_request};

/// The methods that are served (RFC 9110, 9.3.1 and 9.3.3).
#[derive(Clone, Copy, PartialEq, Eq)]
pub enum Method {
    /// A read.
    Get,
    /// A request that may change something.
    Post,
}

/// Why a request is refused by its head alone, in the order in which they are looked for.
#[derive(Clone, Copy, PartialEq, Eq)]
pub enum HeadFault {
    /// No head, one of more than `MAX_HEAD` bytes, or one of more than `MAX_FIELDS` fields.
    BadHead,
    /// The method is neither GET nor POST.
    UnknownMethod,
    /// The version is HTTP/1.0.
    WrongVersion,
    /// There is no Host field, or more than one (RFC 9112, 3.2).
    BadHost,
    /// It is none of the audience: its Host is of another name, or a page in a browser sent it.
    NotAllowed,
    /// There is a Transfer-Encoding field.
    NoTransferCoding,
    /// There are two Content-Length fields, or its value isn't 1 to 10 digits.
    BadLength,
    /// The body has more than `MAX_BODY` bytes.
    TooLarge,
    /// A POST has no Content-Length field.
    LengthRequired,
}

/// What follows a head: a body of so many bytes, unless the request is refused.
#[derive(Clone, Copy)]
pub enum Framing {
    /// The request is refused.
    Faulty(HeadFault),
    /// A body of so many bytes, from 0 to `MAX_BODY`.
    Body(usize),
}

/// A whole request at the front of a buffer, by where its parts lie.
#[derive(Clone, Copy)]
pub struct RequestParts {
    /// Its method.
    pub method: Method,
    /// Its target, as it stands in the head.
    pub target: Span,
    /// Its body. The next request begins where this ends.
    pub body: Span,
    /// Whether its answer is to be the last of the stream.
    pub is_last: bool,
}

/// What is at the front of a buffer.
#[derive(Clone, Copy)]
pub enum Look {
    /// A part of a request: with fewer than so many bytes in all, it stays one.
    More(usize),
    /// A request that is refused.
    Faulty(HeadFault),
    /// A whole request.
    Whole(RequestParts),
}

/// The most bytes that a head may have.
pub const MAX_HEAD: usize = 8192;

/// The most fields that a head may have.
pub const MAX_FIELDS: usize = 32;

/// The most bytes that a body may have.
pub const MAX_BODY: usize = 65536;

/// The most digits that a Content-Length may have.
const MAX_DIGITS: usize = 10;

fn known_method(bytes: &[u8]) -> Option<Method>
    ensures { result ≡ method_of bytes.now }
{
    if bytes == b"GET".as_slice() {
        Some(Method::Get)
    } else if bytes == b"POST".as_slice() {
        Some(Method::Post)
    } else {
        None
    }
}

fn number(digits: &[u8]) -> Option<usize>
    ensures { result ≡ length_of_text digits.now }
{
    if digits.is_empty() || digits.len() > MAX_DIGITS {
        return None;
    }
    let mut value = 0usize;
    for digit in digits {
        if !digit.is_ascii_digit() {
            return None;
        }
        value = value * 10 + usize::from(*digit - b'0');
    }
    Some(value)
}

fn body_length(method: Method, buf: &[u8], headers: &[HeaderSpan]) -> Framing
    requires { All (IsHeaderWithin (length buf.now)) headers.now }
    ensures small { IsSmall result }
    ensures value { result ≡ framing_of_lengths method (values_named (codes "content-length")
        (map (header_bytes buf.now) headers.now)) }
{
    match find(buf, headers, b"content-length") {
        FieldFound::Missing => match method {
            Method::Get => Framing::Body(0),
            Method::Post => Framing::Faulty(HeadFault::LengthRequired),
        },
        FieldFound::One(value) => match number(value.of(buf)) {
            None => Framing::Faulty(HeadFault::BadLength),
            Some(length) if length > MAX_BODY => Framing::Faulty(HeadFault::TooLarge),
            Some(length) => Framing::Body(length),
        },
        FieldFound::Several => Framing::Faulty(HeadFault::BadLength),
    }
}

/// The first fault of a head, or the length of its body.
fn framing_at(
    audience: Audience<'_>,
    method: Option<Method>,
    minor: u8,
    buf: &[u8],
    headers: &[HeaderSpan],
) -> Framing
    requires { All (IsHeaderWithin (length buf.now)) headers.now }
    ensures value { result ≡ framing_from audience.entry method minor (map (header_bytes buf.now)
        headers.now) }
    ensures small { IsSmall result }
{
    let Some(method) = method else {
        return Framing::Faulty(HeadFault::UnknownMethod);
    };
    if minor == 0 {
        return Framing::Faulty(HeadFault::WrongVersion);
    }
    let FieldFound::One(_) = find(buf, headers, b"host") else {
        return Framing::Faulty(HeadFault::BadHost);
    };
    if !allows(audience, method, buf, headers) {
        return Framing::Faulty(HeadFault::NotAllowed);
    }
    let FieldFound::Missing = find(buf, headers, b"transfer-encoding") else {
        return Framing::Faulty(HeadFault::NoTransferCoding);
    };
    body_length(method, buf, headers)
}

/// What a buffer asks for whose front has this head.
fn whole(
    audience: Audience<'_>,
    front: &[u8],
    buf: &[u8],
    head: &RequestSpans,
    headers: &[HeaderSpan],
) -> Look
    requires front { front.now ≡ take longest_head buf.now }
    requires room { length headers.now ≤ most_fields }
    requires within { IsRequestWithin front.now headers.now head.now }
    requires head { IsRequestOf front.now headers.now head.now }
    ensures { IsLook audience.entry buf.now result }
{
    let fields = &headers[..head.headers];
    let method = known_method(head.method.of(front));
    match framing_at(audience, method, head.version, front, fields) {
        Framing::Faulty(why) => Look::Faulty(why),
        Framing::Body(length) => {
            let Some(method) = method else { unreachable!() };
            let end = head.len + length;
            if buf.len() < end {
                return Look::More(end);
            }
            Look::Whole(RequestParts {
                method,
                target: head.path,
                body: Span {
                    start: head.len,
                    end,
                },
                is_last: closes(front, fields),
            })
        }
    }
}

/// The part of a buffer that a head may lie in. What is refused must not depend on how much came
/// behind it.
fn head_room(buf: &[u8]) -> &[u8]
    ensures { result.now ≡ take longest_head buf.now }
{
    if buf.len() > MAX_HEAD {
        &buf[..MAX_HEAD]
    } else {
        buf
    }
}

/// What is at the front of a buffer: a whole request of this audience, one that is refused, or a
/// part of one. The head is read by `httparse`, in the first `MAX_HEAD` bytes.
pub fn look_at(audience: Audience<'_>, buf: &[u8]) -> Look
    ensures { IsLook audience.entry buf.now result }
{
    let front = head_room(buf);
    let mut headers = [EMPTY_HEADER_SPAN; MAX_FIELDS];
    match parse_request(front, &mut headers) {
        Ok(Status::Complete(head)) => whole(audience, front, buf, &head, &headers),
        Ok(Status::Partial) => {
            if buf.len() < MAX_HEAD {
                Look::More(buf.len() + 1)
            } else {
                Look::Faulty(HeadFault::BadHead)
            }
        }
        Err(_) => Look::Faulty(HeadFault::BadHead),
    }
}
