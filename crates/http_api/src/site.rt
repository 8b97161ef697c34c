//! What is made once for all connections of a service.
ghost use Rattle.std.specs.Prelude.{◌≡◌, MatchResult};
ghost use Rattle.http_api.specs.Sites.{site_names};
ghost use Rattle.http_routes.specs.Targets.{TargetAsks, TargetFails};

use http_messages::Method;
use http_routes::{Routes, TargetAsk, TargetFault, read_target};
use path_lookup::HashNames;
use std::alloc::Global;

/// What requests are read and answered with, made once for all connections: the routes, and what
/// the paths of a cluster are hashed between.
#[derive(Drop)]
pub struct Site<'a> {
    names: HashNames<'a>,
    /// None where there was no memory for them.
    routes: Option<Routes>,
}

impl<'a> Site<'a> {
    /// A site that hashes paths between these names. Where there is no memory for the routes, they
    /// are made anew for each request.
    pub fn new(alloc: Global, names: HashNames<'a>) -> Site<'a>
        ensures { site_names result ≡ names.entry }
    {
        Site {
            names,
            routes: Routes::new(alloc).ok(),
        }
    }

    /// What paths are hashed between.
    pub(crate) fn names(&self) -> HashNames<'a>
        ensures { result ≡ site_names self.now }
    {
        self.names
    }

    /// What a target asks for by a method.
    pub(crate) fn read(
        &self,
        alloc: Global,
        method: Method,
        target: &[u8],
    ) -> Result<TargetAsk, TargetFault>
        ensures { MatchResult result (TargetAsks target.now method) (TargetFails target.now method) }
    {
        match &self.routes {
            Some(routes) => read_target(alloc, routes, method, target),
            None => match Routes::new(alloc) {
                Ok(routes) => read_target(alloc, &routes, method, target),
                Err(_refused) => Err(TargetFault::NoMemory),
            },
        }
    }
}
