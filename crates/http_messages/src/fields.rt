//! The fields of a request's head.
ghost use Rattle.std.specs.Prelude.{◌≡◌, All, length, map};
ghost use Rattle.std.specs.List.{list_any};
ghost use Rattle.std.specs.Str.{str_eq_ignore_ascii_case};
ghost use Rattle.httparse.specs.Spans.{IsHeaderWithin, header_bytes};
ghost use Rattle.http_messages.specs.Fields.{is_close, values_named};
ghost use Rattle.http_messages.specs.Inner.Finding.{IsFieldFound};

use httparse::spans::{HeaderSpan, Span};

/// How often a field comes.
#[derive(Clone, Copy)]
pub enum FieldFound {
    /// Never.
    Missing,
    /// Once, with the value that stands there.
    One(Span),
    /// Twice or more.
    Several,
}

fn is_named(buf: &[u8], header: &HeaderSpan, name: &[u8]) -> bool
    requires { IsHeaderWithin (length buf.now) header.now }
    ensures { result ≡ str_eq_ignore_ascii_case (header_bytes buf.now header.now).0 name.now }
{
    header.name.of(buf).eq_ignore_ascii_case(name)
}

fn asks_to_close(buf: &[u8], header: &HeaderSpan) -> bool
    requires { IsHeaderWithin (length buf.now) header.now }
    ensures { result ≡ is_close (header_bytes buf.now header.now) }
{
    is_named(buf, header, b"connection") && header.value.of(buf).eq_ignore_ascii_case(b"close")
}

/// How often the field of this name comes.
pub fn find(buf: &[u8], headers: &[HeaderSpan], name: &[u8]) -> FieldFound
    requires { All (IsHeaderWithin (length buf.now)) headers.now }
    ensures { IsFieldFound buf.now result (values_named name.now (map (header_bytes buf.now)
        headers.now)) }
{
    let mut found = FieldFound::Missing;
    for header in headers {
        if is_named(buf, header, name) {
            found = match found {
                FieldFound::Missing => FieldFound::One(header.value),
                _ => FieldFound::Several,
            };
        }
    }
    found
}

/// Whether a field asks that the connection be closed.
pub fn closes(buf: &[u8], headers: &[HeaderSpan]) -> bool
    requires { All (IsHeaderWithin (length buf.now)) headers.now }
    ensures { result ≡ list_any is_close (map (header_bytes buf.now) headers.now) }
{
    for header in headers {
        if asks_to_close(buf, header) {
            return true;
        }
    }
    false
}
