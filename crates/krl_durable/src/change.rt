//! A change of what survives.
use krl_messages::{Outcome, WriteOp};

/// What a message to the server changes in what survives. `specs/Changes` states what a change
/// makes of it.
#[derive(Clone, Copy, PartialEq, Eq)]
pub enum Change {
    /// A client registers with a new incarnation, of which no write has been judged.
    Registered {
        /// The client's number.
        client: u64,
        /// The incarnation, from 1 to END.
        incarnation: u64,
    },
    /// A registered client leaves.
    Left {
        /// The client's number.
        client: u64,
    },
    /// The next write of a registered client is judged. It changes the index if it is Applied,
    /// and otherwise only the client's record.
    Judged {
        /// The client's number.
        client: u64,
        /// The write's number: the last one of its client from now on.
        number: u64,
        /// The write.
        op: WriteOp,
        /// How it is judged.
        outcome: Outcome,
    },
}
