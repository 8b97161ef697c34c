//! An answer of any head and body.
ghost use Rattle.std.specs.Prelude.{◌≡◌, ◌++◌, IfOk, OnOk, codes};
ghost use Rattle.http_messages.specs.Answers.{allow_line, close_line, head_line, http_answer};
ghost use Rattle.http_messages.specs.Answers.{kind_text, length_line, status_line};

use crate::Method;
use http::StatusCode;
use std::alloc::{AllocError, Global};

/// What kind of body it is.
#[derive(Clone, Copy, PartialEq, Eq)]
pub enum BodyKind {
    /// `application/json`
    Json,
    /// `text/plain`
    Text,
    /// `text/plain` in the text format of Prometheus
    Metrics,
    /// `application/octet-stream`
    Bytes,
    /// `text/html`
    Html,
    /// `application/x-ndjson`, a JSON text a line
    JsonLines,
}

impl BodyKind {
    fn name(self) -> &'static str
        ensures { result.now ≡ kind_text self }
    {
        match self {
            BodyKind::Json => "application/json",
            BodyKind::Text => "text/plain",
            BodyKind::Metrics => "text/plain; version=0.0.4; charset=utf-8",
            BodyKind::Bytes => "application/octet-stream",
            BodyKind::Html => "text/html; charset=utf-8",
            BodyKind::JsonLines => "application/x-ndjson",
        }
    }
}

/// What the head of an answer tells, the length of the body aside.
#[derive(Clone, Copy)]
pub struct AnswerHead {
    /// The status, which is told with its phrase.
    pub status: StatusCode,
    /// What the body is.
    pub kind: BodyKind,
    /// The method that the target has, where the request came by the other one.
    pub allow: Option<Method>,
    /// Whether no answer follows.
    pub is_last: bool,
}

fn allow_text(allow: Option<Method>) -> &'static str
    ensures { result.now ≡ allow_line allow }
{
    match allow {
        None => "",
        Some(Method::Get) => "Allow: GET\r\n",
        Some(Method::Post) => "Allow: POST\r\n",
    }
}

fn close_text(is_last: bool) -> &'static str
    ensures { result.now ≡ close_line is_last }
{
    if is_last { "Connection: close\r\n" } else { "" }
}

fn push_line(text: &mut Vec<u8>, name: &str, value: &str) -> Result<(), AllocError>
    ensures { OnOk result (text.new.items ≡ text.old.items ++ head_line name.now value.now) }
{
    text.extend_from_slice(name.as_bytes())?;
    text.extend_from_slice(value.as_bytes())?;
    text.extend_from_slice(b"\r\n")?;
    Ok(())
}

fn push(text: &mut Vec<u8>, more: &str) -> Result<(), AllocError>
    ensures { OnOk result (text.new.items ≡ text.old.items ++ more.now) }
{
    text.extend_from_slice(more.as_bytes())?;
    Ok(())
}

fn push_status(text: &mut Vec<u8>, alloc: Global, status: StatusCode) -> Result<(), AllocError>
    ensures { OnOk result (text.new.items ≡ text.old.items ++ status_line status) }
{
    let status = status.to_string(alloc)?;
    push_line(text, "HTTP/1.1 ", &status)
}

fn push_length(text: &mut Vec<u8>, alloc: Global, length: usize) -> Result<(), AllocError>
    ensures { OnOk result (text.new.items ≡ text.old.items ++ length_line length) }
{
    let length = length.to_string(alloc)?;
    push_line(text, "Content-Length: ", &length)
}

/// The bytes of the answer with this head and this body.
pub fn answer_bytes(alloc: Global, head: AnswerHead, body: &[u8]) -> Result<Vec<u8>, AllocError>
    ensures { IfOk result (λ text. text.items ≡ http_answer head body.now) }
{
    let mut text = Vec::new(alloc);
    push_status(&mut text, alloc, head.status)?;
    push_line(&mut text, "Content-Type: ", head.kind.name())?;
    push_length(&mut text, alloc, body.len())?;
    push(&mut text, allow_text(head.allow))?;
    push(&mut text, close_text(head.is_last))?;
    push(&mut text, "\r\n")?;
    text.extend_from_slice(body)?;
    Ok(text)
}
