//! A partition of the points into shards, each served by a server of its own, and the parts of a
//! span that each shard has. Nothing here takes memory.
#![tactic(auto)]

mod part;
mod shards;

pub use part::Part;
pub use shards::{BadShards, MAX_SHARDS, Shards};
