//! Whose requests are answered.
ghost use Rattle.std.specs.Prelude.{◌≡◌, ◌==◌, All, length, map, codes, not};
ghost use Rattle.std.specs.Char.{is_ascii_digit};
ghost use Rattle.std.specs.List.{list_all};
ghost use Rattle.std.specs.Str.{str_eq_ignore_ascii_case};
ghost use Rattle.httparse.specs.Spans.{IsHeaderWithin, header_bytes};
ghost use Rattle.http_messages.specs.Audiences.{is_allowed, is_host_among, is_host_of};
ghost use Rattle.http_messages.specs.Audiences.{is_of_a_page, is_of_elsewhere, is_port, is_sent_to};
ghost use Rattle.http_messages.specs.Fields.{values_named};

use crate::fields::{FieldFound, find};
use crate::request::Method;
use httparse::spans::HeaderSpan;

/// Whose requests are answered.
///
/// A page in a browser can send requests to a port of the machine that the browser runs on, and a
/// name of its own can be made to lead there. What tells such requests from a program's is the head
/// alone: its Host, its Origin (RFC 6454) and what browsers say in Sec-Fetch-Site (W3C, Fetch
/// Metadata Request Headers).
#[derive(Clone, Copy)]
pub enum Audience<'a> {
    /// Anyone's.
    Anyone,
    /// Those of programs, and what a browser reads for a page of the service's own. Their Host is
    /// `127.0.0.1`, `localhost` or one of these names, with a port or without. A request that may
    /// change something has neither an Origin nor a Sec-Fetch-Site; where one that reads has a
    /// Sec-Fetch-Site, it is `none` or `same-origin`.
    Programs(&'a [&'a str]),
}

/// Whether a text has digits alone.
fn are_digits(text: &[u8]) -> bool
    ensures { result ≡ list_all is_ascii_digit text.now }
{
    for byte in text {
        if !byte.is_ascii_digit() {
            return false;
        }
    }
    true
}

/// Whether a text is nothing, or a colon and digits.
fn is_port(text: &[u8]) -> bool
    ensures { result ≡ is_port text.now }
{
    match text.split_first() {
        None => true,
        Some((first, digits)) => *first == b':' && are_digits(digits),
    }
}

/// Whether two texts are the same but for the case of their ASCII letters.
fn are_alike(text: &[u8], name: &[u8]) -> bool
    ensures { result ≡ str_eq_ignore_ascii_case text.now name.now }
{
    text.eq_ignore_ascii_case(name)
}

/// Whether a Host is of this name, with a port or without one.
fn is_host_of(host: &[u8], name: &[u8]) -> bool
    ensures { result ≡ is_host_of host.now name.now }
{
    let (front, back) = host.split_at(name.len().min(host.len()));
    are_alike(front, name) && is_port(back)
}

/// Whether a Host is one of the machine's own names, or one of these.
fn is_host_among(names: &[&str], host: &[u8]) -> bool
    ensures { result ≡ is_host_among (map (λ name. name.now) names.now) host.now }
{
    if is_host_of(host, b"127.0.0.1") || is_host_of(host, b"localhost") {
        return true;
    }
    for name in names {
        if is_host_of(host, name.as_bytes()) {
            return true;
        }
    }
    false
}

/// Whether there is one Host, and it is such a name.
fn is_sent_to(names: &[&str], buf: &[u8], headers: &[HeaderSpan]) -> bool
    requires { All (IsHeaderWithin (length buf.now)) headers.now }
    ensures { result ≡ is_sent_to (map (λ name. name.now) names.now) (values_named (codes "host")
        (map (header_bytes buf.now) headers.now)) }
{
    match find(buf, headers, b"host") {
        FieldFound::One(host) => is_host_among(names, host.of(buf)),
        FieldFound::Missing | FieldFound::Several => false,
    }
}

/// Whether a browser says that a page of elsewhere sent it.
fn is_of_elsewhere(buf: &[u8], headers: &[HeaderSpan]) -> bool
    requires { All (IsHeaderWithin (length buf.now)) headers.now }
    ensures { result ≡ is_of_elsewhere (values_named (codes "sec-fetch-site")
        (map (header_bytes buf.now) headers.now)) }
{
    match find(buf, headers, b"sec-fetch-site") {
        FieldFound::Missing => false,
        FieldFound::One(value) => {
            let site = value.of(buf);
            site != b"none".as_slice() && site != b"same-origin".as_slice()
        }
        FieldFound::Several => true,
    }
}

/// Whether there is a field of this name.
fn has_field(buf: &[u8], headers: &[HeaderSpan], name: &[u8]) -> bool
    requires { All (IsHeaderWithin (length buf.now)) headers.now }
    ensures { result ≡ not (length (values_named name.now (map (header_bytes buf.now) headers.now))
        == 0) }
{
    !matches!(find(buf, headers, name), FieldFound::Missing)
}

/// Whether a browser sent it for a page that may not send it.
fn is_of_a_page(method: Method, buf: &[u8], headers: &[HeaderSpan]) -> bool
    requires { All (IsHeaderWithin (length buf.now)) headers.now }
    ensures { result ≡ is_of_a_page method (map (header_bytes buf.now) headers.now) }
{
    match method {
        Method::Get => is_of_elsewhere(buf, headers),
        Method::Post => {
            has_field(buf, headers, b"origin") || has_field(buf, headers, b"sec-fetch-site")
        }
    }
}

/// Whether the audience may send a request with this method and these fields.
pub(crate) fn allows(
    audience: Audience<'_>,
    method: Method,
    buf: &[u8],
    headers: &[HeaderSpan],
) -> bool
    requires { All (IsHeaderWithin (length buf.now)) headers.now }
    ensures { result ≡ is_allowed audience.entry method (map (header_bytes buf.now) headers.now) }
{
    match audience {
        Audience::Anyone => true,
        Audience::Programs(names) => {
            is_sent_to(names, buf, headers) && !is_of_a_page(method, buf, headers)
        }
    }
}
