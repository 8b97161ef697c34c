//! An HTTP/1.1 server (RFC 9112) over any reader and any writer: each request that is read is
//! answered, in order.
//!
//! `serve_requests` is generic over a `Service`, which answers one request after another and keeps
//! a state. An `Audience` says whose requests it answers. What is written depends on the bytes that
//! are read, on the audience and on the service, and not on how the reads cut them. The definitions that the contracts cite stand in `specs/`.
#![tactic(auto)]

mod buffer;
pub mod laws;
mod service;
mod serving;

pub use service::Service;
pub use serving::serve_requests;
