//! What a client shows of itself.
use krl_messages::Outcome;

/// What a client shows of itself.
#[derive(Clone, Copy, PartialEq, Eq)]
pub struct Status {
    /// The epoch that it has joined; 0 before it has joined one.
    pub epoch: u64,
    /// The number of the last push that it has accepted in this epoch, or 0.
    pub seen: u64,
    /// Its last lock request.
    pub lock: LockStatus,
    /// Its last write.
    pub write: WriteStatus,
}

/// What became of the last lock request of this incarnation.
#[derive(Clone, Copy, PartialEq, Eq)]
pub enum LockStatus {
    /// There was none.
    NotAsked,
    /// It is not answered yet.
    Waiting,
    /// It was granted.
    Granted,
    /// There was no entry to lock.
    Absent,
    /// A new epoch took it away.
    Dropped,
}

/// What became of the last write of this incarnation.
#[derive(Clone, Copy, PartialEq, Eq)]
pub enum WriteStatus {
    /// There was none.
    NotWritten,
    /// The write of this number is not answered yet.
    Waiting(u64),
    /// The write of this number was judged so.
    Judged(u64, Outcome),
}
