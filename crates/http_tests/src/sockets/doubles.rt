//! Sockets and clocks that are not there.
use std::cell::Cell;
use std::io::{self, ErrorKind, Read, Write};
use std::net::{IpAddr, Net, OpenListener, OpenStream, Shutdown, SocketAddr};
use std::os::fd::{AsRawFd, RawFd};
use std::time::{Clock, Duration};
use timed_streams::Desk;

/// A clock that goes on where it is told to, and tells that so many seconds have passed since 1970,
/// or nothing. It is a desk too, at which others wait or don't.
#[derive(Drop)]
pub struct OwnClock {
    passed: Cell<Duration>,
    pub seconds: Cell<Option<u64>>,
    others: bool,
}

impl OwnClock {
    pub fn new(others: bool) -> OwnClock {
        OwnClock {
            passed: Cell::new(Duration::ZERO),
            seconds: Cell::new(None),
            others,
        }
    }

    /// So much time passes.
    pub fn pass(&self, time: Duration) {
        self.passed.set(self.passed.get().saturating_add(time));
    }
}

impl Clock for OwnClock {
    fn monotonic(&self) -> io::Result<Duration> {
        Ok(self.passed.get())
    }

    fn since_1970(&self) -> io::Result<Duration> {
        match self.seconds.get() {
            Some(seconds) => Ok(Duration::from_secs(seconds)),
            None => Err(ErrorKind::Other.into()),
        }
    }
}

impl Desk for OwnClock {
    fn others_wait(&self) -> bool {
        self.others
    }
}

/// What a peer does.
#[derive(Clone, Copy)]
enum Does<'a> {
    /// It has gone: a stream of it fails when it is read or written.
    Leaves,
    /// It sends these bytes, and takes whatever is written.
    Sends(&'static [u8]),
    /// It gives and takes one byte a call, for ever, and so much time passes over each.
    Trickles(&'a OwnClock, Duration),
}

/// A stream of a peer. Both of its ends are at one port.
#[derive(Drop)]
pub struct Peer<'a> {
    does: Does<'a>,
    port: u16,
}

impl<'a> Peer<'a> {
    /// A peer whose every byte takes so much time.
    pub fn slow(clock: &'a OwnClock, step: Duration) -> Peer<'a> {
        Peer {
            does: Does::Trickles(clock, step),
            port: 0,
        }
    }
}

impl<'a> Read for Peer<'a> {
    fn read(&mut self, buf: &mut [u8]) -> io::Result<usize> {
        match self.does {
            Does::Leaves => Err(ErrorKind::ConnectionReset.into()),
            Does::Sends(text) => {
                let count = text.len().min(buf.len());
                buf[..count].copy_from_slice(&text[..count]);
                self.does = Does::Sends(&text[count..]);
                Ok(count)
            }
            Does::Trickles(clock, step) => {
                clock.pass(step);
                Ok(buf.len().min(1))
            }
        }
    }
}

impl<'a> Write for Peer<'a> {
    fn write(&mut self, buf: &[u8]) -> io::Result<usize> {
        match self.does {
            Does::Leaves => Err(ErrorKind::BrokenPipe.into()),
            Does::Sends(_) => Ok(buf.len()),
            Does::Trickles(clock, step) => {
                clock.pass(step);
                Ok(buf.len().min(1))
            }
        }
    }

    fn flush(&mut self) -> io::Result<()> {
        Ok(())
    }
}

impl<'a> OpenStream for Peer<'a> {
    fn peer_addr(&self) -> io::Result<SocketAddr> {
        Ok(SocketAddr::from(([127, 0, 0, 1], self.port)))
    }

    fn local_addr(&self) -> io::Result<SocketAddr> {
        Ok(SocketAddr::from(([127, 0, 0, 1], self.port)))
    }

    fn shutdown(&self, _how: Shutdown) -> io::Result<()> {
        Ok(())
    }

    fn set_read_timeout(&self, _dur: Option<Duration>) -> io::Result<()> {
        Ok(())
    }

    fn set_write_timeout(&self, _dur: Option<Duration>) -> io::Result<()> {
        Ok(())
    }

    fn try_clone(&self) -> io::Result<Peer<'a>> {
        Ok(Peer {
            does: self.does,
            port: self.port,
        })
    }
}

impl<'a> AsRawFd for Peer<'a> {
    fn as_raw_fd(&self) -> RawFd {
        0
    }
}

/// Who comes to a listener.
#[derive(Clone, Copy)]
pub enum Comers {
    /// A peer that is gone before it is accepted, then so many that go later, and then none.
    Gone(u32),
    /// So many strangers, which go, and then the client.
    Strangers(u32),
}

impl Comers {
    /// Who comes at this call, counted from 0.
    fn at(self, count: u32) -> io::Result<Peer<'static>> {
        match self {
            Comers::Gone(_) if count == 0 => Err(ErrorKind::ConnectionAborted.into()),
            Comers::Gone(peers) if count > peers => Err(ErrorKind::Other.into()),
            Comers::Strangers(strangers) if count >= strangers => Ok(Peer {
                does: Does::Sends(b""),
                port: 1,
            }),
            _ => Ok(Peer {
                does: Does::Leaves,
                port: 2,
            }),
        }
    }
}

/// A listener to which these come.
#[derive(Drop)]
pub struct OwnListener {
    accepts: Cell<u32>,
    comers: Comers,
}

impl OpenListener for OwnListener {
    type Stream = Peer<'static>;

    fn accept(&self) -> io::Result<(Peer<'static>, SocketAddr)> {
        let count = self.accepts.get();
        self.accepts.set(count.saturating_add(1));
        let peer = self.comers.at(count)?;
        let address = SocketAddr::from(([127, 0, 0, 1], peer.port));
        Ok((peer, address))
    }

    fn local_addr(&self) -> io::Result<SocketAddr> {
        Ok(SocketAddr::from(([127, 0, 0, 1], 3)))
    }
}

impl AsRawFd for OwnListener {
    fn as_raw_fd(&self) -> RawFd {
        0
    }
}

/// A machine whose net is such a listener, of any port of 127.0.0.1, whose clients are at port 1, and
/// whose time stands still.
#[derive(Drop)]
pub struct OwnNet {
    comers: Comers,
    /// The port that was bound last, 0 at first.
    pub bound: Cell<u16>,
}

impl OwnNet {
    pub fn new(comers: Comers) -> OwnNet {
        OwnNet {
            comers,
            bound: Cell::new(0),
        }
    }
}

impl Net for OwnNet {
    type Stream = Peer<'static>;

    type Listener = OwnListener;

    fn bind(&self, addr: SocketAddr) -> io::Result<OwnListener> {
        if addr.ip() != IpAddr::from([127, 0, 0, 1]) {
            return Err(ErrorKind::AddrNotAvailable.into());
        }
        self.bound.set(addr.port());
        Ok(OwnListener {
            accepts: Cell::new(0),
            comers: self.comers,
        })
    }

    fn connect(&self, _addr: SocketAddr) -> io::Result<Peer<'static>> {
        Ok(Peer {
            does: Does::Sends(b""),
            port: 1,
        })
    }
}

impl Clock for OwnNet {
    fn monotonic(&self) -> io::Result<Duration> {
        Ok(Duration::ZERO)
    }

    fn since_1970(&self) -> io::Result<Duration> {
        Ok(Duration::ZERO)
    }
}
