//! What became of a write.

/// How the server judged a write. Only `Applied` changed the index.
#[derive(Clone, Copy, PartialEq, Eq)]
pub enum Outcome {
    /// The index has changed as the write asks.
    Applied,
    /// An insert of a key that is an entry already.
    Exists,
    /// A put or a delete of a key that is no entry.
    Absent,
    /// The write needs a lock that the client does not hold.
    NotHeld,
    /// An insert into an index that has as many entries as it has room for.
    Full,
}
