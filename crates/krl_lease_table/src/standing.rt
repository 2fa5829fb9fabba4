//! Whether the incarnation that is registered may answer, and until when.
ghost use Rattle.std.specs.Prelude.{◌≡◌};
ghost use Rattle.krl_lease_table.specs.Standings as standings;

use krl_leases::{Terms, Until};

/// From which moment on a client answers nothing, by the server's clock.
#[derive(Clone, Copy, Debug, PartialEq, Eq)]
pub enum End {
    /// In nanoseconds.
    At(u64),
    /// Its lease does not end.
    Never,
}

/// What became of the incarnation that was registered last.
#[derive(Clone, Copy, Debug, PartialEq, Eq)]
pub enum Standing {
    /// It has left, or there was none.
    Absent,
    /// It may answer until then.
    Present(Until),
    /// It answers nothing any more: it was evicted, or makes room for a greater one. The server has
    /// not registered another one yet, and has not judged a Bye.
    Ended,
}

impl Standing {
    /// Whether it may answer.
    pub fn may_answer(self) -> bool
        ensures { result ≡ standings.may_answer self }
    {
        matches!(self, Standing::Present(_))
    }

    /// After a sign of it.
    pub(crate) fn sign(self, terms: Terms, said: u64, now: u64) -> Standing
        ensures { result ≡ standings.signed terms self said now }
    {
        match self {
            Standing::Present(until) => Standing::Present(until.sign(terms, said, now)),
            Standing::Absent => Standing::Absent,
            Standing::Ended => Standing::Ended,
        }
    }

    /// Whether the incarnation may be evicted, or was and is still there.
    pub(crate) fn may_be_evicted(self, now: u64) -> bool
        ensures { result ≡ standings.may_be_evicted self now }
    {
        match self {
            Standing::Present(until) => until.has_come(now),
            Standing::Absent => false,
            Standing::Ended => true,
        }
    }

    /// The end of the lease of an incarnation that may answer.
    pub fn end(self) -> Option<End>
        ensures { result ≡ standings.end_of self }
    {
        match self {
            Standing::Present(until) if until.is_never() => Some(End::Never),
            Standing::Present(until) => Some(End::At(until.moment)),
            Standing::Absent => None,
            Standing::Ended => None,
        }
    }
}
