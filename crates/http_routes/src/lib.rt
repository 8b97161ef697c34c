//! What the target of a request asks for: its route, and what its segments and its query say.
//!
//! Routes are found by `matchit`, and queries are read by `form_urlencoded`. `specs/Routes.antt`
//! says which paths are routes, `specs/Queries.antt` what queries say, `specs/Targets.antt` what a
//! target asks for and why it may ask for nothing.
#![tactic(auto)]

mod query;
mod routes;
mod table;
mod target;

pub use routes::{Endpoint, FoundRoute};
pub use table::Routes;
pub use target::{TargetAsk, TargetFault, read_target};
