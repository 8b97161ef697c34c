//! Where connections come from.
ghost use Rattle.std.specs.Prelude.{◌≡◌, ℕ, IfErr, IfOk, MatchResult};
ghost use Rattle.http_sockets.specs.declared.fault.ServeFault.TheVariants.{NetFailed};

use crate::fault::ServeFault;
use ring_words::Port;
use std::alloc::Global;
use std::io::{Read, Write};
use std::net::OpenStream;
use timed_streams::{Desk, Patience};

/// Both ends of a connection: two handles of one stream, of which one is read and the other is
/// written.
#[derive(Drop)]
pub struct Ends<S> {
    /// What is read.
    pub reader: S,
    /// What is written.
    pub writer: S,
}

/// Gives connections, one after another, and knows whether others wait.
///
/// What it says of them is its own: who serves them can tell of a connection only where `accept`
/// gave it.
pub trait Door: Desk + Drop {
    /// The stream of a connection.
    type Stream: Read + Write + OpenStream + Drop;

    /// The first gave these two ends of a stream, and became the second.
    ghost gives: { Self → Self.Stream → Self.Stream → Self → Type 0 };

    /// The first could give no stream any more, and became the second.
    ghost fails: { Self → Self → Type 0 };

    /// Both ends of the next connection. `NetFailed` says that there will be none.
    fn accept(&mut self) -> Result<Ends<Self::Stream>, ServeFault>
        ensures given { MatchResult result (λ ends. gives self.old ends.reader ends.writer self.new)
            (λ _. fails self.old self.new) }
        ensures fault { IfErr result (λ fault. fault ≡ NetFailed) };

    /// How long a client may hold who serves it.
    fn patience(&self) -> Patience;

    /// Where memory comes from.
    fn alloc(&self) -> Global;
}

/// The ports of a machine.
pub trait Ports {
    /// What gives the connections of a port.
    type Door: Door;

    /// This port was opened, and this gives its connections.
    ghost opens: { ℕ → Self.Door → Type 0 };

    /// This port can't be had.
    ghost shuts: { ℕ → Type 0 };

    /// Opens a port. `NetFailed` says that it can't be had.
    fn open(self, port: Port) -> Result<Self::Door, ServeFault>
        ensures opened { MatchResult result (opens port) (λ _. shuts port) }
        ensures fault { IfErr result (λ fault. fault ≡ NetFailed) };
}
