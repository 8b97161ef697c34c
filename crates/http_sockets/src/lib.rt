//! The service over HTTP/1.1 on sockets of this machine, 127.0.0.1, one connection after another.
//!
//! `serve_connections` serves a port, `serve_on` serves until something ends it, and `loop_over`
//! serves the bytes of a file by way of a socket. That
//! the requests of all connections are one run of the book stands in `specs/Connections.antt`.
//! Connections come of a `Door`, which a `Ports` opens; a `Server` of this machine is one, and who
//! serves a door can tell of no connection that it did not give. `machine_hour` is the hour of the
//! machine, and `HourClock` tells that, or a given one.
#![tactic(auto)]

mod doors;
mod fault;
mod hours;
mod looping;
mod server;
mod serving;

pub use doors::{Door, Ends, Ports};
pub use fault::{ServeFault, ServiceEnd};
pub use hours::{HourClock, machine_hour};
pub use looping::{MOST_LOOPED, loop_over};
pub use server::Server;
pub use serving::{serve, serve_connections, serve_on};
