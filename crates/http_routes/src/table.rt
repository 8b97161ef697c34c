//! The table of the routes.
ghost use Rattle.std.specs.Prelude.{◌≡◌, [], ℕ, List, IfOk, MatchOption};
ghost use Rattle.matchit.specs.Route.{parse_route};
ghost use Rattle.http_routes.specs.Inner.Table.{IsAdded, IsNewRoute, RowLeadsTo, all_routes};
ghost use Rattle.http_routes.specs.Routes.{HasRoute};

use crate::routes::{Endpoint, FoundRoute};
use matchit::{InsertError, Router};
use ring_reads::Plain;
use std::alloc::{AllocError, Global};
use std::str;

/// A row of the table.
#[derive(Clone, Copy)]
enum TableRow {
    /// A message is delivered.
    Requests,
    /// A table of devices is imported into a ring.
    Import,
    /// The nodes of a path in a ring.
    Nodes,
    /// A published text of a ring.
    Text,
    /// A published ring as Swift's ring file.
    Swift,
    /// A whole ring.
    Ring,
    /// What another word asks of a ring.
    Word,
    /// Which rings there are.
    Rings,
    /// How much is kept.
    Status,
    /// A part of the log.
    Log,
    /// The metrics of all that is held.
    Metrics,
    /// The page for a browser.
    Page,
}

/// The routes over HTTP, as a router holds them.
#[derive(Drop)]
pub struct Routes {
    router: Router<TableRow>,
    ghost held: { router ≡ all_routes },
}

/// Takes one more route. It conflicts with none that is there.
fn add(router: &mut Router<TableRow>, route: &str, row: TableRow) -> Result<(), AllocError>
    requires { IsNewRoute (parse_route route.now) router.old }
    ensures { IfOk result (λ _. IsAdded (parse_route route.now) row router.old router.new) }
{
    match router.insert(route, row) {
        Ok(()) => Ok(()),
        Err(InsertError::OutOfMemory) => Err(AllocError),
        Err(_) => unreachable!(),
    }
}

/// Takes all routes.
fn add_all(router: &mut Router<TableRow>) -> Result<(), AllocError>
    requires { router.old ≡ [] }
    ensures { IfOk result (λ _. router.new ≡ all_routes) }
{
    add(router, "/v1/requests", TableRow::Requests)?;
    add(router, "/v1/import/{ring}", TableRow::Import)?;
    add(router, "/v1/rings/{ring}/nodes", TableRow::Nodes)?;
    add(router, "/v1/rings/{ring}/text/{version}", TableRow::Text)?;
    add(router, "/v1/rings/{ring}/{word}", TableRow::Word)?;
    add(router, "/v1/rings/{ring}", TableRow::Ring)?;
    add(router, "/v1/rings", TableRow::Rings)?;
    add(router, "/v1/status", TableRow::Status)?;
    add(router, "/v1/metrics", TableRow::Metrics)?;
    add(router, "/v1/rings/{ring}/swift/{version}", TableRow::Swift)?;
    add(router, "/v1/log", TableRow::Log)?;
    add(router, "/v1/page", TableRow::Page)
}

/// Where the row of words leads for this one. `None` exactly where it is none of a preview, of what
/// moved or of a plain read, or that of the whole ring, which has a row of its own.
fn endpoint_of_word(word: &str) -> Option<Endpoint>
    ensures { MatchOption result
        ((endpoint : Endpoint) → RowLeadsTo TableRow.Word word.now endpoint → ⊥)
        (RowLeadsTo TableRow.Word word.now) }
{
    match word {
        "preview" => Some(Endpoint::Preview),
        "moves" => Some(Endpoint::Moves),
        _ => match Plain::of_word(word) {
            Some(Plain::Ring) => None,
            Some(plain) => Some(Endpoint::Word(plain)),
            None => None,
        },
    }
}

/// Where a row leads whose segment for a word is this one. `None` exactly where it is the row of
/// words, and leads nowhere for this one.
fn endpoint_of(row: TableRow, word: &str) -> Option<Endpoint>
    ensures { MatchOption result ((endpoint : Endpoint) → RowLeadsTo row word.now endpoint → ⊥)
        (RowLeadsTo row word.now) }
{
    match row {
        TableRow::Requests => Some(Endpoint::Requests),
        TableRow::Import => Some(Endpoint::Import),
        TableRow::Nodes => Some(Endpoint::Nodes),
        TableRow::Text => Some(Endpoint::Text),
        TableRow::Swift => Some(Endpoint::Swift),
        TableRow::Ring => Some(Endpoint::Word(Plain::Ring)),
        TableRow::Rings => Some(Endpoint::Rings),
        TableRow::Status => Some(Endpoint::Status),
        TableRow::Log => Some(Endpoint::Log),
        TableRow::Metrics => Some(Endpoint::Metrics),
        TableRow::Page => Some(Endpoint::Page),
        TableRow::Word => endpoint_of_word(word),
    }
}

impl Routes {
    /// All routes.
    pub fn new(alloc: Global) -> Result<Routes, AllocError> {
        let mut router = Router::new(alloc);
        add_all(&mut router)?;
        Ok(Routes { router })
    }

    /// The route of a path. `None` exactly where it has none, as where it isn't UTF-8.
    pub fn find_route<'p>(&self, path: &'p [u8]) -> Option<FoundRoute<'p>>
        ensures { MatchOption result
            ((endpoint : Endpoint) (ring version : List ℕ) → HasRoute path.now endpoint ring version
            → ⊥)
            (λ found. HasRoute path.now found.endpoint found.ring.now found.version.now) }
    {
        let Ok(path) = str::from_utf8(path) else {
            return None;
        };
        let Ok(found) = self.router.at(path) else {
            return None;
        };
        let word = found.params.get("word").unwrap_or("");
        Some(FoundRoute {
            endpoint: endpoint_of(*found.value, word)?,
            ring: found.params.get("ring").unwrap_or(""),
            version: found.params.get("version").unwrap_or(""),
        })
    }
}
