//! A run of nodes: a server with two entries, a client that inserts a third and one that scans
//! until it reads it, each on a thread of its own.
#![tactic(auto)]

mod delivery;
mod gate;
mod run;
pub mod work;

pub use gate::Gate;
pub use run::{NodesReport, NotRun, PolicySeeds, run_nodes, run_nodes_by};
