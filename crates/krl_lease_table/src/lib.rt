//! The leases of a server's clients: until when each may answer from its cache, who may be evicted,
//! and what has to be stored before a lease is granted. Nothing here takes memory or reads a clock.
#![tactic(auto)]

mod each;
mod flat;
mod laws;
mod refused;
mod row;
mod sign;
mod standing;
mod table;

pub use flat::FlatRow;
pub use laws::{evicted_answer_nothing, starts_as_stored};
pub use refused::Refused;
pub use row::Row;
pub use sign::{Asked, Grant, Heard, Older, Sign, Signer};
pub use standing::{End, Standing};
pub use table::LeaseTable;
