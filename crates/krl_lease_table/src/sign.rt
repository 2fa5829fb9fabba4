//! What a client's host reports of its lease, and what it is answered.

/// What a client's host knows of the older incarnations of its client.
#[derive(Clone, Copy, Debug, PartialEq, Eq)]
pub enum Older {
    /// Nothing: each may still answer.
    Unknown,
    /// No process of this one is left: it stood in the lock file that this host holds.
    IsOver(u64),
    /// An operator vouches that none answers any more.
    Vouched,
}

/// What a client's host reports.
#[derive(Clone, Copy, Debug, PartialEq, Eq)]
pub struct Sign {
    pub incarnation: u64,
    /// When it was sent, by the client's clock. It comes back as it is.
    pub stamp: u64,
    /// The length of the lease by which the client lives: 0 before its first terms, and `FOR_EVER`
    /// if its lease does not end.
    pub said: u64,
    pub older: Older,
}

/// The greatest incarnation of a client of which a sign came.
#[derive(Clone, Copy, Debug, PartialEq, Eq)]
pub struct Signer {
    pub incarnation: u64,
    pub older: Older,
}

/// A sign that is to be answered by terms.
#[derive(Clone, Copy, Debug, PartialEq, Eq)]
pub struct Asked {
    pub incarnation: u64,
    pub stamp: u64,
    /// How many commits had begun when it came. It is answered once more of them have been made.
    pub commits: u64,
}

/// What becomes of a sign.
#[derive(Clone, Copy, Debug, PartialEq, Eq)]
pub enum Heard {
    /// The incarnation answers nothing any more, whatever it sends: it was evicted, has left, or a
    /// greater one is registered. Its host is to learn that.
    HasEnded,
    /// The terms may leave after the commit that begins next.
    Waits,
}

/// The terms that answer a sign.
#[derive(Clone, Copy, Debug, PartialEq, Eq)]
pub struct Grant {
    pub incarnation: u64,
    /// That of the sign.
    pub stamp: u64,
    /// The length of the lease from that moment on.
    pub length: u64,
}
