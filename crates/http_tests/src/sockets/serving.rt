//! Clients of a server.
use super::doubles::{Comers, OwnNet};
use crate::serving::{CREATE, CREATED, NO_NAMES, are_joined, open};
use builder::RingMachine;
use http_api::Clock as HourTeller;
use http_messages::Audience;
use http_sockets::{HourClock, Ports, ServeFault, Server, ServiceEnd, serve_connections, serve_on};
use request_book::{Book, Keeper};
use ring_words::{Limits, Port};
use std::alloc::Global;
use std::io::{Read, Write};
use std::net::{Net, OpenStream, SocketAddr};
use std::time::{Clock, Duration, Instant};
use timed_streams::Patience;

/// A last request of something that is not there, and its answer.
pub const LAST: &str = "GET /v2 HTTP/1.1\r\nHost: a\r\nConnection: close\r\n\r\n";

pub const LAST_ANSWER: &str =
    "HTTP/1.1 404 Not Found\r\nContent-Type: application/json\r\nContent-Length: 32\r\nConnection: close\r\n\r\n{\"fault\":\"NoRoute\",\"status\":404}";

/// A request that makes a ring.
pub static ONE: [&str; 1] = [CREATE];

/// Its answer.
pub static ONE_ANSWERED: [&str; 1] = [CREATED];

/// Patience in milliseconds.
fn patience(between: u64, within: u64, after: u64) -> Patience {
    Patience {
        between: Duration::from_millis(between),
        within: Duration::from_millis(within),
        after: Duration::from_millis(after),
        among_others: Duration::from_secs(60),
        in_all: Duration::from_secs(60),
    }
}

/// What a client sends, write by write, and all that it gets.
type Talk<'a> = (&'a [&'a str], &'a [&'a str]);

/// Sends texts. What the other side does is waited for up to five seconds.
fn send_all<S: Write + OpenStream>(stream: &mut S, texts: &[&str]) -> Option<()> {
    stream.set_read_timeout(Some(Duration::from_secs(5))).ok()?;
    stream.set_write_timeout(Some(Duration::from_secs(5))).ok()?;
    for text in texts {
        stream.write_all(text.as_bytes()).ok()?;
    }
    Some(())
}

/// A client that has sent these texts, and is not done.
fn client<R: Net>(rt: &R, address: SocketAddr, texts: &[&str]) -> Option<R::Stream> {
    let mut stream = rt.connect(address).ok()?;
    send_all(&mut stream, texts)?;
    Some(stream)
}

/// Whether a client gets exactly these texts until the end.
fn gets<S: Read>(alloc: Global, stream: &mut S, want: &[&str]) -> bool {
    let mut bytes = Vec::new(alloc);
    stream.read_to_end(&mut bytes).is_ok() && are_joined(&bytes, want)
}

/// A client, and what it is to get.
type Waiting<'a, S> = (S, &'a [&'a str]);

/// Whether each client gets what it is to get.
fn all_get<S: Read>(alloc: Global, clients: &mut [Waiting<'_, S>]) -> bool {
    let mut all = true;
    for (stream, want) in clients {
        all = gets(alloc, stream, *want) && all;
    }
    all
}

/// Puts the clients of some talks, each of which has sent its texts, behind others.
fn push_clients<'a, R: Net>(
    rt: &R,
    address: SocketAddr,
    talks: &[Talk<'a>],
    clients: &mut Vec<Waiting<'a, R::Stream>>,
) -> Option<()> {
    for talk in talks {
        clients.push((client(rt, address, talk.0)?, talk.1)).ok()?;
    }
    Some(())
}

/// How often serving went well, and how it ended.
type Served = (usize, Result<(), ServeFault>);

/// Serves so many connections by any clock and any book, then so many again, and so on.
fn serve_counts<R: AllocGlobal + Net + Clock, C: HourTeller, K: Keeper<RingMachine>>(
    server: &mut Server<'_, R>,
    counts: &[u16],
    clock: &mut C,
    book: &mut Book<RingMachine, K>,
) -> Served {
    for (done, count) in counts.iter().enumerate() {
        if let Err(fault) = server.serve(Audience::Anyone, *count, clock, book, NO_NAMES) {
            return (done, Err(fault));
        }
    }
    (counts.len(), Ok(()))
}

/// The same over a new book.
fn serve_new_book<R: AllocGlobal + Net + Clock>(
    rt: &R,
    server: &mut Server<'_, R>,
    counts: &[u16],
) -> Served {
    let mut clock = HourClock::new(rt, Some(7));
    let mut book = open(rt.alloc(), Limits::full());
    serve_counts(server, counts, &mut clock, &mut book)
}

/// Serves so many connections over a new book, and tells how long that took.
fn time_of_serving<R: AllocGlobal + Net + Clock>(
    rt: &R,
    server: &mut Server<'_, R>,
    count: u16,
) -> Option<Duration> {
    let began = Instant::now(rt).ok()?;
    serve_new_book(rt, server, &[count]).1.ok()?;
    began.elapsed(rt).ok()
}

/// Serves a client for each talk over a new book: whether each gets what its talk says, and how
/// long the serving took. The clients are put into an empty list.
fn serve_clients<'a, R: AllocGlobal + Net + Clock>(
    rt: &R,
    server: &mut Server<'_, R>,
    clients: &mut Vec<Waiting<'a, R::Stream>>,
    talks: &[Talk<'a>],
) -> Option<(bool, Duration)> {
    push_clients(rt, server.address().ok()?, talks, clients)?;
    let count = u16::try_from(talks.len()).unwrap_or(0);
    let took = time_of_serving(rt, server, count)?;
    Some((all_get(rt.alloc(), clients), took))
}

/// The same by a new server.
fn served<R: AllocGlobal + Net + Clock>(
    rt: &R,
    patience: Patience,
    talks: &[Talk<'_>],
) -> Option<(bool, Duration)> {
    let mut server = Server::bind(rt, 0, patience).ok()?;
    let mut clients = Vec::new(rt.alloc());
    serve_clients(rt, &mut server, &mut clients, talks)
}

/// Whether each talk goes as it says, in at least so many milliseconds and under four seconds.
fn goes_so(rt: &HostRuntime, patience: Patience, least: u64, talks: &[Talk<'_>]) -> bool {
    match served(rt, patience, talks) {
        Some((all, took)) => {
            all && took >= Duration::from_millis(least) && took < Duration::from_secs(4)
        }
        None => false,
    }
}

/// The same of two talks.
fn both_go_so<'a>(
    rt: &HostRuntime,
    patience: Patience,
    least: u64,
    first: Talk<'a>,
    second: Talk<'a>,
) -> bool {
    goes_so(rt, patience, least, &[first, second])
}

/// Two requests.
static TWO: [&str; 2] = [CREATE, LAST];

/// Their answers. A client that asks for both gets both.
static TWO_ANSWERED: [&str; 2] = [CREATED, LAST_ANSWER];

#[test]
fn two_requests_of_one_connection_are_answered(rt: HostRuntime) {
    assert!(rt; goes_so(&rt, patience(1000, 1000, 1000), 0, &[(&TWO, &TWO_ANSWERED)]));
}

#[test]
fn a_repeat_over_another_connection_gets_the_kept_reply(rt: HostRuntime) {
    assert!(rt;
        goes_so(
            &rt,
            patience(1000, 1000, 1000),
            0,
            &[(&TWO, &TWO_ANSWERED), (&TWO, &TWO_ANSWERED)]
        )
    );
}

#[test]
fn half_a_request_ends_in_time_and_the_next_is_served(rt: HostRuntime) {
    let half: [&str; 1] = [&CREATE[..80]];
    assert!(rt;
        both_go_so(
            &rt,
            patience(50, 150, 50),
            150,
            (&half, &[]),
            (&TWO, &TWO_ANSWERED)
        )
    );
}

#[test]
fn silence_between_requests_ends_sooner_than_within_one(rt: HostRuntime) {
    let talks: [Talk<'_>; 2] = [(&[], &[]), (&ONE, &ONE_ANSWERED)];
    assert!(rt; goes_so(&rt, patience(50, 9000, 50), 100, &talks));
}

#[test]
fn a_turn_ends_where_another_client_waits(rt: HostRuntime) {
    let patience = Patience {
        among_others: Duration::ZERO,
        ..patience(9000, 1000, 50)
    };
    assert!(rt;
        goes_so(
            &rt,
            patience,
            0,
            &[(&ONE, &ONE_ANSWERED), (&TWO, &TWO_ANSWERED)]
        )
    );
}

#[test]
fn what_comes_behind_the_last_request_loses_no_answer(rt: HostRuntime) {
    let mut many = [TWO[0]; 1201];
    many[0] = TWO[1];
    let talks: [Talk<'_>; 1] = [(&many, &TWO_ANSWERED[1..])];
    assert!(rt; goes_so(&rt, patience(1000, 1000, 1000), 0, &talks));
}

/// The port of a server.
fn port_of<R: Net>(server: &Server<'_, R>) -> Option<Port> {
    Port::new(server.address().ok()?.port())
}

/// A port that a server had, and gave back.
fn free_port<R: Net>(rt: &R) -> Option<Port> {
    port_of(&Server::bind(rt, 0, Patience::usual()).ok()?)
}

/// Serves no connection at a port of any ports.
fn serve_no_one<P: Ports, T: Clock + Drop>(
    alloc: Global,
    time: T,
    ports: P,
    port: Port,
) -> Result<(), ServeFault> {
    let mut book = open(alloc, Limits::full());
    let mut clock = HourClock::new(time, Some(7));
    serve_connections(ports, port, 0, &mut clock, &mut book, NO_NAMES)
}

/// Serves no connection at a port.
fn serve_none<R: AllocGlobal + Net + Clock>(rt: &R, port: Port) -> Result<(), ServeFault> {
    serve_no_one(rt.alloc(), rt, rt, port)
}

/// How the serving of no connection at a free port goes.
fn serve_free(rt: &HostRuntime) -> Option<Result<(), ServeFault>> {
    Some(serve_none(rt, free_port(rt)?))
}

#[test]
fn no_connection_is_waited_for_at_count_0(rt: HostRuntime) {
    assert!(rt; matches!(serve_free(&rt), Some(Ok(()))));
}

/// How the serving of no connection at port 80 goes, and the port that was bound.
fn bound_at_80(alloc: Global) -> Option<(Result<(), ServeFault>, u16)> {
    let port = Port::new(80)?;
    let machine = (OwnNet::new(Comers::Gone(0)), alloc);
    let served = serve_none(&machine, port);
    Some((served, machine.0.bound.get()))
}

#[test]
fn the_very_port_is_bound_on_127_0_0_1(rt: HostRuntime) {
    assert!(rt; matches!(bound_at_80(rt.alloc()), Some((Ok(()), 80))));
}

/// Serves no connection at a port that a server has.
fn serve_taken<R: AllocGlobal + Net + Clock>(rt: &R) -> Option<Result<(), ServeFault>> {
    let server = Server::bind(rt, 0, Patience::usual()).ok()?;
    let port = port_of(&server)?;
    Some(serve_none(rt, port))
}

#[test]
fn a_port_that_is_taken_is_told(rt: HostRuntime) {
    assert!(rt; matches!(serve_taken(&rt), Some(Err(ServeFault::NetFailed))));
}

/// Serves so many connections over a new book, and then so many again, of a listener that has so many
/// peers, which go.
fn served_twice(alloc: Global, peers: u32, counts: [u16; 2]) -> Option<Served> {
    let machine = (OwnNet::new(Comers::Gone(peers)), alloc);
    let mut server = Server::bind(&machine, 0, Patience::usual()).ok()?;
    Some(serve_new_book(&machine, &mut server, &counts))
}

#[test]
fn a_peer_that_is_gone_is_passed_over_and_a_net_that_fails_is_told(rt: HostRuntime) {
    let came = served_twice(rt.alloc(), 1, [1, 1]);
    assert!(rt; matches!(came, Some((1, Err(ServeFault::NetFailed)))));
}

#[test]
fn as_many_connections_are_served_as_a_service_may_be_asked_for(rt: HostRuntime) {
    let came = served_twice(rt.alloc(), 131070, [65535, 65535]);
    assert!(rt; matches!(came, Some((2, Ok(())))));
}

/// Why a service of programs alone over a new book ends.
fn end_of<R: AllocGlobal + Net + Clock>(rt: &R, server: &mut Server<'_, R>) -> ServiceEnd {
    let mut book = open(rt.alloc(), Limits::full());
    let mut clock = HourClock::new(rt, Some(7));
    serve_on(
        server,
        Audience::Programs(&[]),
        &mut clock,
        &mut book,
        NO_NAMES,
    )
}

/// Why a service over so many peers ends.
fn served_on(alloc: Global, peers: u32) -> Option<ServiceEnd> {
    let machine = (OwnNet::new(Comers::Gone(peers)), alloc);
    let mut server = Server::bind(&machine, 0, Patience::usual()).ok()?;
    Some(end_of(&machine, &mut server))
}

#[test]
fn a_service_goes_on_past_65535_connections_and_ends_where_none_comes(rt: HostRuntime) {
    assert!(rt; matches!(served_on(rt.alloc(), 65536), Some(ServiceEnd::NetFailed)));
}
