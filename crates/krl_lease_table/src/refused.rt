//! Why a call of a lease table was refused. It changed nothing then.

/// What is wrong with a call.
#[derive(Clone, Copy, Debug, PartialEq, Eq)]
pub enum Refused {
    /// No client has this number.
    BadClient,
    /// The server has not begun: what it has to store first is not known to be stored.
    NotOpen,
    /// The server has begun, or a commit of what the table has to keep has.
    Begun,
    /// No commit of this number has begun.
    NoCommit,
    /// There is no number for another commit.
    Spent,
    /// A greater incarnation of the client was registered, or this one was.
    NotGreater,
    /// The registered incarnation may still answer: its successor's Hello was not admitted.
    StillAnswers,
}
