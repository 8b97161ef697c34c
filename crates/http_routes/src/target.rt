//! What a target asks for.
ghost use Rattle.std.specs.Prelude.{◌≡◌, ◌==◌, MatchResult, position};
ghost use Rattle.http_routes.specs.Targets.{TargetAsks, TargetFails, target_path, target_query};
ghost use Rattle.http_routes.specs.Inner.Routing.{LogAsks, LogFails, RingRouteFails, RouteAsks};
ghost use Rattle.http_routes.specs.Inner.Routing.{RouteFails};
ghost use Rattle.http_routes.specs.Routes.{IsOfRing};

use crate::query::{read_key, read_part, read_path, read_seed, read_versions};
use crate::routes::{Endpoint, FoundRoute};
use crate::table::Routes;
use http_messages::{Method, RouteFault};
use path_lookup::PathFault;
use ring_log::Inquiry;
use ring_reads::{Format, Question, Read};
use ring_words::{Key, RingName, SpellingFault, read_name, read_number};
use std::alloc::Global;

/// What a target asks for.
#[derive(Drop)]
pub enum TargetAsk {
    /// That the message in the body is delivered.
    Deliver,
    /// That the table in the body is imported into a ring.
    Import(RingName, Key),
    /// That this is read.
    Read(Inquiry),
    /// The page for a browser.
    Page,
}

/// Why a target asks for nothing.
#[derive(Clone, Copy, PartialEq, Eq)]
pub enum TargetFault {
    /// It has no route, or has it by the other method.
    Route(RouteFault),
    /// A name or a number in it is not of its form, or its query is none of its route.
    Unreadable,
    /// The query of a lookup names no path.
    BadPath,
    /// A growth of memory was refused.
    NoMemory,
}

impl From<SpellingFault> for TargetFault {
    ghost use Rattle.http_routes.specs.Faults.{spelling_fault};

    ghost from_gives = { λ fault made. made ≡ spelling_fault fault };

    fn from(fault: SpellingFault) -> TargetFault {
        match fault {
            SpellingFault::Bad => TargetFault::Unreadable,
            SpellingFault::NoMemory => TargetFault::NoMemory,
        }
    }
}

impl From<PathFault> for TargetFault {
    ghost use Rattle.http_routes.specs.Faults.{path_fault};

    ghost from_gives = { λ fault made. made ≡ path_fault fault };

    fn from(fault: PathFault) -> TargetFault {
        match fault {
            PathFault::BadPath => TargetFault::BadPath,
            PathFault::NoMemory => TargetFault::NoMemory,
        }
    }
}

/// Where the first question mark is.
fn question_mark(target: &[u8]) -> Option<usize>
    ensures { result ≡ position (λ byte. byte == 63) target.now }
{
    target.iter().position(|byte| *byte == b'?')
}

/// The parts of a target before and behind its first question mark.
fn split_target(target: &[u8]) -> (&[u8], &[u8])
    ensures path { result.0.now ≡ target_path target.now }
    ensures query { result.1.now ≡ target_query target.now }
{
    match question_mark(target) {
        Some(at) if at < target.len() => (&target[..at], &target[at + 1..]),
        _ => (target, b"".as_slice()),
    }
}

/// What a route of a ring asks for.
fn read_ring_route(
    alloc: Global,
    found: FoundRoute<'_>,
    query: &[u8],
) -> Result<TargetAsk, TargetFault>
    requires { IsOfRing found.endpoint }
    ensures { MatchResult result (RouteAsks found.entry.endpoint found.entry.ring.now
        found.entry.version.now query.now)
        (RingRouteFails found.entry.endpoint found.entry.ring.now found.entry.version.now
        query.now) }
{
    let ring: RingName = read_name(alloc, found.ring)?;
    match found.endpoint {
        Endpoint::Import => Ok(TargetAsk::Import(ring, read_key(alloc, query)?)),
        Endpoint::Word(plain) => {
            let word = Read::Plain(plain);
            Ok(TargetAsk::Read(Inquiry::Held(Question::Ring(ring, word))))
        }
        Endpoint::Nodes => {
            let path = read_path(alloc, query)?;
            let nodes = Read::Nodes(path);
            Ok(TargetAsk::Read(Inquiry::Held(Question::Ring(ring, nodes))))
        }
        Endpoint::Text => {
            let version = read_number(found.version, u32::MAX)?;
            let text = Read::Published(version, Format::Text);
            Ok(TargetAsk::Read(Inquiry::Held(Question::Ring(ring, text))))
        }
        Endpoint::Swift => {
            let version = read_number(found.version, u32::MAX)?;
            let file = Read::Published(version, Format::Swift);
            Ok(TargetAsk::Read(Inquiry::Held(Question::Ring(ring, file))))
        }
        Endpoint::Preview => {
            let (seed, hour) = read_seed(alloc, query)?;
            let preview = Read::Preview(seed, hour);
            Ok(TargetAsk::Read(Inquiry::Held(Question::Ring(ring, preview))))
        }
        Endpoint::Moves => {
            let (from, to) = read_versions(alloc, query)?;
            let moves = Read::Moves(from, to);
            Ok(TargetAsk::Read(Inquiry::Held(Question::Ring(ring, moves))))
        }
        _ => unreachable!(),
    }
}

/// What the query of the log asks for.
fn read_log_route(alloc: Global, query: &[u8]) -> Result<TargetAsk, TargetFault>
    ensures { MatchResult result (LogAsks query.now) (LogFails query.now) }
{
    match read_part(alloc, query) {
        Ok((from, most)) => Ok(TargetAsk::Read(Inquiry::Log(from, most))),
        Err(SpellingFault::Bad) => Err(TargetFault::Unreadable),
        Err(SpellingFault::NoMemory) => Err(TargetFault::NoMemory),
    }
}

/// What a route asks for.
fn read_route(alloc: Global, found: FoundRoute<'_>, query: &[u8]) -> Result<TargetAsk, TargetFault>
    ensures { MatchResult result (RouteAsks found.entry.endpoint found.entry.ring.now
        found.entry.version.now query.now)
        (RouteFails found.entry.endpoint found.entry.ring.now found.entry.version.now query.now) }
{
    match found.endpoint {
        Endpoint::Requests => Ok(TargetAsk::Deliver),
        Endpoint::Rings => Ok(TargetAsk::Read(Inquiry::Held(Question::Rings))),
        Endpoint::Status => Ok(TargetAsk::Read(Inquiry::Held(Question::Status))),
        Endpoint::Metrics => Ok(TargetAsk::Read(Inquiry::Held(Question::Metrics))),
        Endpoint::Log => read_log_route(alloc, query),
        Endpoint::Page => Ok(TargetAsk::Page),
        _ => read_ring_route(alloc, found, query),
    }
}

/// What a target asks for by a method. The path is looked at first, then the method, then the
/// ring's name, and then the version or the query. Segments are taken as they stand, and the values
/// of a query are decoded.
pub fn read_target(
    alloc: Global,
    routes: &Routes,
    method: Method,
    target: &[u8],
) -> Result<TargetAsk, TargetFault>
    ensures { MatchResult result (TargetAsks target.now method) (TargetFails target.now method) }
{
    let (path, query) = split_target(target);
    let Some(found) = routes.find_route(path) else {
        return Err(TargetFault::Route(RouteFault::NoRoute));
    };
    let allowed = found.endpoint.method();
    if method != allowed {
        return Err(TargetFault::Route(RouteFault::WrongMethod(allowed)));
    }
    read_route(alloc, found, query)
}
