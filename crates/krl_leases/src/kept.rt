//! What a server has to keep of leases, for the servers after it.
ghost use Rattle.std.specs.Prelude.{◌≡◌};
ghost use Rattle.krl_leases.specs.Servers as servers;

use crate::length::{FOR_EVER, Terms};
use crate::until::Until;

/// What outlives a server, of one client.
#[derive(Clone, Copy, Debug, PartialEq, Eq)]
pub struct Kept {
    /// No lease that ends and may still run is longer.
    pub longest: u64,
    /// Whether the client may have a lease that does not end.
    pub is_unleased: bool,
}

impl Kept {
    /// What a server with these terms has to store before it sends anything.
    pub fn start(self, terms: Terms) -> Kept
        ensures { result ≡ servers.kept_from self terms }
    {
        if terms.length == FOR_EVER {
            return Kept {
                longest: self.longest,
                is_unleased: true,
            };
        }
        Kept {
            longest: self.longest.max(terms.length),
            is_unleased: self.is_unleased,
        }
    }

    /// What it has to store before it answers a client that registers.
    pub fn register(self, terms: Terms) -> Kept
        ensures { result ≡ servers.kept_registered self terms }
    {
        Kept {
            longest: self.longest,
            is_unleased: terms.length == FOR_EVER,
        }
    }

    /// When no lease of an older server runs any more, unless it does not end. `now` is read after
    /// the start.
    pub fn old_end(self, terms: Terms, now: u64) -> Until
        ensures { result ≡ servers.old_end self terms now }
    {
        Until {
            moment: terms.end_of(now, self.longest),
        }
    }

    /// That of each client that is registered as a server starts.
    pub fn until(self, terms: Terms, now: u64) -> Until
        ensures { result ≡ servers.restarted self terms now }
    {
        if self.is_unleased {
            return Until { moment: FOR_EVER };
        }
        self.old_end(terms, now)
    }

    /// What may be stored from now on. `old` is the end of older leases, and `until` is the
    /// client's.
    pub fn revise(self, terms: Terms, old: Until, until: Until, now: u64) -> Kept
        ensures { result ≡ servers.revised self terms old until now }
    {
        if terms.length == FOR_EVER {
            return self;
        }
        let longest = if old.has_come(now) {
            terms.length
        } else {
            self.longest
        };
        Kept {
            longest,
            is_unleased: self.is_unleased && until.is_never(),
        }
    }
}
