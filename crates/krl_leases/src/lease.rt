//! A client's lease.
ghost use Rattle.std.specs.Prelude.{◌≡◌};
ghost use Rattle.krl_leases.specs.Clients.{no_terms, holds, with_terms};

use crate::length::FOR_EVER;

/// The lease of one incarnation of a client, by the client's clock, in nanoseconds.
#[repr(C)]
#[derive(Clone, Copy, Debug, PartialEq, Eq)]
pub struct Lease {
    /// From this moment on the client answers nothing from its cache.
    pub end: u64,
    /// What the last terms granted, which each sign states: 0 before the first terms.
    pub length: u64,
    /// The sign that the last terms answered: the moment at which it was sent.
    pub stamp: u64,
}

impl Lease {
    /// That of an incarnation without terms. It must send no Hello before it has taken terms, so it
    /// holds nothing.
    pub fn new() -> Lease
        ensures { result ≡ no_terms }
    {
        Lease {
            end: FOR_EVER,
            length: 0,
            stamp: 0,
        }
    }

    /// Whether what was read from the cache may be handed over. `now` has to be read **after** the
    /// rows.
    pub fn holds(&self, now: u64) -> bool
        ensures { result ≡ holds self.now now }
    {
        now < self.end
    }

    /// Takes a server's terms: the lease runs from the moment `stamp` of the sign that they answer,
    /// however long they were on their way. Nothing changes if the lease has ended, or if no
    /// later sign than the last one is answered.
    pub fn take_terms(&mut self, stamp: u64, length: u64, now: u64)
        ensures { self.new ≡ with_terms self.old stamp length now }
    {
        if self.stamp < stamp && self.holds(now) {
            *self = Lease {
                end: stamp.saturating_add(length),
                length,
                stamp,
            };
        }
    }
}
