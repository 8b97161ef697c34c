//! The service over HTTP/1.1: numbered requests and imports are posted, and rings are read.
//!
//! `serve_stream` serves any reader and any writer by a book of the builder, and `serve_audience`
//! does so for some alone, with a `Site` that is made once for all connections. What a request is
//! answered stands in `specs/Http.antt`; that the deliveries of all requests are one run of the
//! book, in `specs/Served.antt`.
#![tactic(auto)]

mod answers;
mod clock;
mod reads;
mod service;
mod site;

pub use answers::told_csv;
pub use clock::{Clock, KnownClock};
pub use service::{serve_audience, serve_stream};
pub use site::Site;
