//! Until when a client may answer.
ghost use Rattle.std.specs.Prelude.{◌≡◌};
ghost use Rattle.krl_leases.specs.Servers as servers;

use crate::length::{FOR_EVER, Terms};

/// From which moment on a client answers nothing, by the server's clock.
#[derive(Clone, Copy, Debug, PartialEq, Eq)]
pub struct Until {
    /// In nanoseconds; `FOR_EVER`: never.
    pub moment: u64,
}

/// A Hello of another incarnation than the registered one.
#[derive(Clone, Copy, Debug, PartialEq, Eq)]
pub struct TakeOver {
    /// The incarnation that is registered and has not left.
    pub registered: u64,
    /// The one that sends Hello.
    pub incarnation: u64,
    /// The incarnation of which its host knows that it no longer answers: it stood in the lock
    /// file.
    pub over: u64,
    /// Whether an operator vouches that the registered one no longer answers.
    pub is_vouched: bool,
}

impl Until {
    /// Whether it may answer for ever.
    pub fn is_never(self) -> bool
        ensures { result ≡ servers.is_never self }
    {
        self.moment == FOR_EVER
    }

    /// Whether the moment has come: from then on the client may be evicted.
    pub fn has_come(self, now: u64) -> bool
        ensures { result ≡ servers.has_come self now }
    {
        self.moment < FOR_EVER && self.moment <= now
    }

    /// A client's sign has come, which states that it lives by a lease of the length `said`. This
    /// has to be known before the client is answered by the terms. `now` is read after the sign.
    pub fn sign(self, terms: Terms, said: u64, now: u64) -> Until
        ensures { result ≡ servers.signed terms self said now }
    {
        let moment = terms.end_of(now, said.max(terms.length));
        if self.is_never() {
            return Until { moment };
        }
        Until {
            moment: self.moment.max(moment),
        }
    }

    /// That of a client that registers now.
    pub fn register(terms: Terms, now: u64) -> Until
        ensures { result ≡ servers.since terms now }
    {
        Until {
            moment: terms.end_of(now, terms.length),
        }
    }

    /// Whether the Hello of another incarnation may be handed to the server now. This is the
    /// registered one's.
    pub fn hears(self, asks: TakeOver, now: u64) -> bool
        ensures { result ≡ servers.is_heard self asks now }
    {
        asks.incarnation <= asks.registered
            || asks.over == asks.registered
            || self.has_come(now)
            || self.is_never() && asks.is_vouched
    }
}
