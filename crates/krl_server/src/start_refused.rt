//! Why a server does not start.
use krl_durable::Durable;

/// Why a server does not start.
#[derive(Clone, Copy, PartialEq, Eq)]
pub enum ServerNotStarted {
    /// The epoch is END: there is none for another start.
    Spent,
    /// Memory was refused.
    OutOfMemory,
}

/// A server that did not start, and what it would have started on, unchanged.
#[derive(Drop)]
pub struct NotStarted {
    /// Why.
    pub refused: ServerNotStarted,
    /// What survives, as it was.
    pub durable: Durable,
}
