//! Answers of the builder as bytes of HTTP.
ghost use Rattle.std.specs.Prelude.{◌≡◌, IfOk};
ghost use Rattle.builder.specs.Replies.{answer_status};
ghost use Rattle.http_api.specs.Http.{shown_answer, told_answer, told_csv};

use builder::{Told, status_of, told_text};
use csv_import::CsvFault;
use http::StatusCode;
use http_messages::{AnswerHead, BodyKind, answer_bytes};
use std::alloc::{AllocError, Global};

/// What a table that can't be read is told as.
pub fn told_csv(fault: CsvFault) -> Told
    ensures { result ≡ told_csv fault }
{
    match fault {
        CsvFault::BadHeader => Told::BadHeader,
        CsvFault::BadRow(row) => Told::BadRow { row },
        CsvFault::BadField(row, column) => Told::BadField { row, column },
        CsvFault::ReadFailed => Told::ReadFailed,
        CsvFault::NoMemory => Told::NoMemory,
    }
}

fn status_code(told: &Told) -> StatusCode
    ensures { result ≡ answer_status told.now }
{
    match StatusCode::from_u16(status_of(told)) {
        Ok(status) => status,
        Err(_) => unreachable!(),
    }
}

/// The answer that tells this.
pub fn told_answer(alloc: Global, told: &Told, is_last: bool) -> Result<Vec<u8>, AllocError>
    ensures { IfOk result (λ text. text.items ≡ told_answer is_last told.now) }
{
    let head = AnswerHead {
        status: status_code(told),
        kind: BodyKind::Json,
        allow: None,
        is_last,
    };
    let body = told_text(alloc, told)?;
    answer_bytes(alloc, head, body.as_bytes())
}

/// The answer with a body that was asked for.
pub fn shown_answer(
    alloc: Global,
    kind: BodyKind,
    body: &[u8],
    is_last: bool,
) -> Result<Vec<u8>, AllocError>
    ensures { IfOk result (λ text. text.items ≡ shown_answer is_last kind body.now) }
{
    let head = AnswerHead {
        status: StatusCode::OK,
        kind,
        allow: None,
        is_last,
    };
    answer_bytes(alloc, head, body)
}
