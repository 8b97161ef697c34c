//! A server of a port of this machine.
ghost use Rattle.std.specs.Prelude.{◌≡◌, IfErr, IfOk, ⊤};
ghost use Rattle.http_sockets.specs.Listening.{AcceptsNone, AcceptsOne, HasAcceptedNone};
ghost use Rattle.http_sockets.specs.declared.fault.ServeFault.TheVariants.{NetFailed};

use crate::doors::{Door, Ends, Ports};
use crate::fault::ServeFault;
use ring_words::Port;
use std::alloc::Global;
use std::cell::Cell;
use std::io::{self, ErrorKind};
use std::net::{Ipv4Addr, Net, OpenListener, OpenStream, SocketAddr};
use std::time::{self, Duration};
use timed_streams::{Desk, Patience};

/// Both ends of a stream, if there can be two.
fn ends_of<S: OpenStream + Drop>(stream: S) -> Option<Ends<S>> {
    let writer = stream.try_clone().ok()?;
    Some(Ends {
        reader: stream,
        writer,
    })
}

/// Whether a listener goes on after it could not accept a peer: the peer was gone, or the listener
/// was left in a state in which it doesn't wait.
fn goes_on<L: OpenListener>(listener: &L, error: &io::Error) -> bool {
    match error.kind() {
        ErrorKind::ConnectionAborted | ErrorKind::Interrupted => true,
        ErrorKind::WouldBlock => listener.set_nonblocking(false).is_ok(),
        _ => false,
    }
}

/// Both ends of the next connection of a listener, and `None` where there will be none. A peer that
/// is gone before it is accepted is passed over, and so is one whose stream has no second handle.
fn next_of<L: OpenListener>(listener: &L) -> Option<Ends<L::Stream>>
where
    L::Stream: OpenStream,
{
    for stream in listener.incoming() {
        match stream {
            Ok(stream) => {
                if let Some(ends) = ends_of(stream) {
                    return Some(ends);
                }
            }
            Err(error) => {
                if !goes_on(listener, &error) {
                    return None;
                }
            }
        }
    }
    None
}

/// A peer of a listener that waits now, if there is one.
fn waiting_at<L: OpenListener>(listener: &L) -> Option<L::Stream> {
    listener.set_nonblocking(true).ok()?;
    let next = listener.accept();
    let _ = listener.set_nonblocking(false);
    match next {
        Ok((stream, _)) => Some(stream),
        Err(_) => None,
    }
}

/// A port of this machine, on 127.0.0.1, whose connections are served one after another.
///
/// It counts the connections that it accepted, and how often none could be accepted any more, both
/// up to 2^64 - 1. Its fields are private to this file, so that nothing else raises a count.
#[derive(Drop)]
pub struct Server<'a, R: Net> {
    rt: &'a R,
    listener: R::Listener,
    patience: Patience,
    /// The next connection, where it was looked for while another one was served.
    waiting: Cell<Option<R::Stream>>,
    accepted: u64,
    faults: u64,
}

impl<'a, R: Net> Server<'a, R> {
    /// A server of this port, or of any that is free where it is 0. `NetFailed` says that the port
    /// can't be had.
    pub fn bind(rt: &'a R, port: u16, patience: Patience) -> Result<Server<'a, R>, ServeFault>
        ensures fault { IfErr result (λ fault. fault ≡ NetFailed) }
        ensures new { IfOk result HasAcceptedNone }
    {
        let listener = rt.bind(SocketAddr::from((Ipv4Addr::LOCALHOST, port)))?;
        Ok(Server {
            rt,
            listener,
            patience,
            waiting: Cell::new(None),
            accepted: 0,
            faults: 0,
        })
    }

    /// Where the server is reached.
    pub fn address(&self) -> Result<SocketAddr, ServeFault>
        ensures { IfErr result (λ fault. fault ≡ NetFailed) }
    {
        Ok(self.listener.local_addr()?)
    }

    /// Both ends of the next connection.
    fn next(&self) -> Option<Ends<R::Stream>> {
        if let Some(stream) = self.waiting.take() {
            if let Some(ends) = ends_of(stream) {
                return Some(ends);
            }
        }
        next_of(&self.listener)
    }
}

impl<'a, R: Net + time::Clock> time::Clock for Server<'a, R> {
    fn monotonic(&self) -> io::Result<Duration> {
        self.rt.monotonic()
    }

    fn since_1970(&self) -> io::Result<Duration> {
        self.rt.since_1970()
    }
}

impl<'a, R: Net + time::Clock> Desk for Server<'a, R> {
    fn others_wait(&self) -> bool {
        let next = match self.waiting.take() {
            Some(stream) => Some(stream),
            None => waiting_at(&self.listener),
        };
        let is_there = next.is_some();
        self.waiting.set(next);
        is_there
    }
}

impl<'a, R: AllocGlobal + Net + time::Clock> Door for Server<'a, R> {
    type Stream = R::Stream;

    ghost gives = { λ old _ _ new. AcceptsOne old new };

    ghost fails = { AcceptsNone };

    fn accept(&mut self) -> Result<Ends<R::Stream>, ServeFault> {
        match self.next() {
            Some(ends) => {
                self.accepted = self.accepted.saturating_add(1);
                Ok(ends)
            }
            None => {
                self.faults = self.faults.saturating_add(1);
                Err(ServeFault::NetFailed)
            }
        }
    }

    fn patience(&self) -> Patience {
        self.patience
    }

    fn alloc(&self) -> Global {
        self.rt.alloc()
    }
}

/// The ports of 127.0.0.1. A client is waited for as long as is usual.
impl<'a, R: AllocGlobal + Net + time::Clock> Ports for &'a R {
    type Door = Server<'a, R>;

    ghost opens = { λ _ server. HasAcceptedNone server };

    ghost shuts = { λ _. ⊤ };

    fn open(self, port: Port) -> Result<Server<'a, R>, ServeFault> {
        Server::bind(self, port.get(), Patience::usual())
    }
}
