//! Leases: how long a client may answer from its cache, by its own clock, and when its server may
//! evict it, by the server's. Nothing here takes memory.
#![tactic(auto)]

mod kept;
mod laws;
mod lease;
mod length;
mod until;

pub use kept::Kept;
pub use laws::{evicted_answer_nothing, evicts_somewhere, steady_agree};
pub use lease::Lease;
pub use length::{FOR_EVER, Terms};
pub use until::{TakeOver, Until};
