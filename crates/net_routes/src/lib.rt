//! Routes between the nodes of hosts, over the graph of a network.
#![tactic(auto)]

mod adjacency;
mod arc;
mod arcs;
mod cost;
mod error;
mod finding;
mod guesses;
mod hop;
mod kept;
mod kept_row;
pub mod laws;
mod node_ids;
mod numbered_costs;
mod route_row;
mod route_rows;
mod search;
mod table;

pub use error::RouteError;
pub use finding::routes;
pub use table::Routes;
