//! Laws of what stands over worlds: threads that read a client, clients with leases, and clients of
//! several servers. Each function's contract is a law, and its body is empty.
#![tactic(auto)]

pub mod lease_laws;
pub mod reader_laws;
pub mod shard_laws;
