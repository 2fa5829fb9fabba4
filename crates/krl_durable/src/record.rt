//! What is kept of a client.
use krl_messages::Outcome;

/// What is kept of a client that has registered.
#[derive(Clone, Copy, PartialEq, Eq)]
pub struct Record {
    /// Its last registered incarnation.
    pub incarnation: u64,
    /// That incarnation has left.
    pub left: bool,
    /// The number of its last judged write, or 0.
    pub last: u64,
    /// How that write was judged. It is None exactly if `last` is 0.
    pub outcome: Option<Outcome>,
}
