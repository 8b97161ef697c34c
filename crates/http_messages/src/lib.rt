//! Messages of HTTP/1.1 (RFC 9112): one request at the front of a stream, and the bytes of answers.
//!
//! `look_at` tells of the bytes that came so far what they ask, whether it is refused, and where it
//! ends, by `httparse`. An `Audience` says whose requests are answered. `specs/Requests.antt` says it of all the bytes of a stream, so that how
//! reads cut them makes no difference; `laws` says that the bytes begin with one request alone.
//! `answer_bytes` writes an answer of any head and body; answers that are constants need no memory.
#![tactic(auto)]

mod answer;
mod audience;
mod faults;
mod fields;
pub mod laws;
mod request;

pub use answer::{AnswerHead, BodyKind, answer_bytes};
pub use audience::Audience;
pub use faults::{RouteFault, no_memory_text, refusal_text, route_fault_text};
pub use request::{
    Framing, HeadFault, Look, MAX_BODY, MAX_FIELDS, MAX_HEAD, Method, RequestParts, look_at,
};
