//! Failover over one fenced store: servers of earlier epochs continue for ever, and only their
//! changes are refused.
#![tactic(auto)]

pub mod machine_laws;
pub mod refinement_laws;
pub mod world_laws;
