//! Where routes lead.
ghost use Rattle.std.specs.Prelude.{◌≡◌};
ghost use Rattle.http_routes.specs.Routes.{endpoint_method};

use http_messages::Method;
use ring_reads::Plain;

/// What a route leads to.
#[derive(Clone, Copy)]
pub enum Endpoint {
    /// A message is delivered.
    Requests,
    /// A table of devices is imported into a ring.
    Import,
    /// Which rings there are.
    Rings,
    /// How much is kept.
    Status,
    /// The metrics of all that is held.
    Metrics,
    /// What a word alone asks of a ring.
    Word(Plain),
    /// The nodes of a path in a ring.
    Nodes,
    /// A published text of a ring.
    Text,
    /// A published ring as Swift's ring file.
    Swift,
    /// What a rebalance of a ring would do.
    Preview,
    /// What moved between two published versions of a ring.
    Moves,
    /// A part of the log.
    Log,
    /// The page for a browser.
    Page,
}

impl Endpoint {
    /// The method that the endpoint has.
    pub fn method(self) -> Method
        ensures { result ≡ endpoint_method self }
    {
        match self {
            Endpoint::Requests | Endpoint::Import => Method::Post,
            Endpoint::Rings
            | Endpoint::Status
            | Endpoint::Metrics
            | Endpoint::Word(_)
            | Endpoint::Nodes
            | Endpoint::Text
            | Endpoint::Swift
            | Endpoint::Preview
            | Endpoint::Moves
            | Endpoint::Log
            | Endpoint::Page => Method::Get,
        }
    }
}

/// The route of a path. Its segments stand as they do in the path; one that the route doesn't have
/// is empty.
#[derive(Clone, Copy)]
pub struct FoundRoute<'p> {
    /// Where the route leads.
    pub endpoint: Endpoint,
    /// The segment that names a ring.
    pub ring: &'p str,
    /// The segment that is a version.
    pub version: &'p str,
}
