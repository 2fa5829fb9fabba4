//! Writes that changed the index.
use krl_messages::WriteOp;

/// A write that was Applied.
#[derive(Clone, Copy, PartialEq, Eq)]
pub struct AppliedWrite {
    /// The number of the client that wrote.
    pub client: u64,
    /// The client's incarnation.
    pub incarnation: u64,
    /// The write's number.
    pub number: u64,
    /// The change.
    pub op: WriteOp,
}
