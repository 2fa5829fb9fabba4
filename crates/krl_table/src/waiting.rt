//! How each client waits.
ghost use Rattle.std.specs.Prelude.{◌≡◌, ◌<◌, ◌↔◌, ℕ, true, Some, None, IfSome, MatchOption, set};
ghost use Rattle.std.specs.Prelude.{length, count_by, is_some};
ghost use Rattle.krl_table.specs.KeptWaiters.{waiter_in, unlisted, AllWaitBelow, IsLeastPoint};
ghost use Rattle.krl_table.specs.KeptWaiters.{lesser};
ghost use Rattle.krl_modes.specs.declared.limits.TheConstants.{MAX_CLIENTS};

use krl_modes::{MAX_CLIENTS, Point};
use krl_queue::Waiter;

/// The waiter of each client, if it has one. Its slot is the one of its point, so it is not kept
/// here: a slot that parts or goes changes nothing.
#[derive(Drop)]
pub(crate) struct Waiting {
    pub(crate) by_client: [Option<Waiter>; MAX_CLIENTS],
    /// How many of them wait.
    count: u64,
    ghost counted: { count ≡ count_by is_some by_client },
}

impl Waiting {
    /// Nobody waits.
    pub(crate) fn nobody() -> Waiting
        ensures nobody { (c : ℕ) → waiter_in result.by_client c ≡ None }
        ensures full { length result.by_client ≡ MAX_CLIENTS }
    {
        Waiting {
            by_client: [None; MAX_CLIENTS],
            count: 0,
        }
    }

    /// Whether nobody waits. It looks at one number.
    pub(crate) fn is_empty(&self) -> bool
        ensures { (result ≡ true) ↔ ((c : ℕ) → waiter_in self.now.by_client c ≡ None) }
    {
        self.count == 0
    }

    /// How the client waits.
    pub(crate) fn of(&self, client: u64) -> Option<Waiter>
        requires { client < MAX_CLIENTS }
        ensures { result ≡ waiter_in self.now.by_client client }
    {
        self.by_client[client as usize]
    }

    /// The waiter's client waits so from now on.
    pub(crate) fn note(&mut self, waiter: Waiter)
        requires { waiter.client < MAX_CLIENTS }
        ensures { self.new.by_client ≡ set self.old.by_client waiter.client (Some waiter) }
    {
        let client = waiter.client as usize;
        let count = match self.by_client[client] {
            Some(_) => self.count,
            None => self.count + 1,
        };
        self.by_client[client] = Some(waiter);
        self.count = count;
    }

    /// The waiter's client no longer waits, if there is one.
    pub(crate) fn leave(&mut self, waiter: &Option<Waiter>)
        requires { IfSome waiter.now (λ w. w.client < MAX_CLIENTS) }
        ensures { self.new.by_client ≡ unlisted self.old.by_client waiter.now }
    {
        if let Some(waiter) = *waiter {
            self.clear(waiter.client);
        }
    }

    /// The client no longer waits.
    pub(crate) fn clear(&mut self, client: u64)
        requires { client < MAX_CLIENTS }
        ensures { self.new.by_client ≡ set self.old.by_client client None }
    {
        let client = client as usize;
        let count = match self.by_client[client] {
            Some(_) => self.count - 1,
            None => self.count,
        };
        self.by_client[client] = None;
        self.count = count;
    }

    /// The least point at or above this one that somebody waits for. It looks at one number if
    /// nobody waits.
    pub(crate) fn least_from(&self, low: u64) -> Option<Point>
        ensures { MatchOption result (AllWaitBelow self.now.by_client low)
            (λ point. IsLeastPoint self.now.by_client low point) }
    {
        if self.is_empty() {
            return None;
        }
        let mut least = None;
        for waiter in &self.by_client {
            least = lesser(least, waiter, low);
        }
        least
    }
}

/// The lesser of the point and the waiter's, which counts only at or above `low`.
fn lesser(least: Option<Point>, waiter: &Option<Waiter>, low: u64) -> Option<Point>
    ensures { result ≡ lesser least waiter.now low }
{
    match (*waiter, least) {
        (Some(waiter), _) if waiter.point.get() < low => least,
        (Some(waiter), Some(point)) => Some(point.min(waiter.point)),
        (Some(waiter), None) => Some(waiter.point),
        (None, _) => least,
    }
}
