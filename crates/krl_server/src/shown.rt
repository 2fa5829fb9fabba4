//! Who waits for whom, and who holds what.
ghost use Rattle.std.specs.Prelude.{◌≡◌, ◌<◌, not, MatchOption};
ghost use Rattle.krl_server.specs.Callbacks.{is_compatible};
ghost use Rattle.krl_server.specs.StateMeaning.{meaning};
ghost use Rattle.krl_server.specs.FoundCases.{IsFormed};
ghost use Rattle.krl_server.specs.Waits.{waiter_of, is_in_the_way, waits_for, waited_for};
ghost use Rattle.krl_server.specs.Waits.{HoldsNoMore, IsNextHolding, reader_of, may_read};
ghost use Rattle.krl_modes.specs.declared.limits.TheConstants.{MAX_CLIENTS};

use crate::state::State;
use arrayvec::ArrayVec;
use krl_messages::Holding;
use krl_modes::{MAX_CLIENTS, Mode, Point};
use krl_queue::Waiter;

/// As the client would ask for the slot to read it.
fn reader_of(client: u64, slot: Point) -> Waiter
    ensures { result ≡ reader_of client slot }
{
    Waiter {
        client,
        req: 0,
        point: slot,
        hi: slot.get() + 1,
        mode: Mode::RangeSS,
    }
}

impl State {
    /// Whether the client would get the slot at once to read it.
    pub(crate) fn may_read(&self, client: u64, slot: Point) -> bool
        requires { client < MAX_CLIENTS }
        ensures { result ≡ may_read (meaning self.now) client slot }
    {
        let is_serving = !self.missing.is_recovering();
        is_serving && self.table.is_open_to(slot.get(), &reader_of(client, slot))
    }

    /// How the client waits.
    pub(crate) fn waiter_of(&self, client: u64) -> Option<Waiter>
        requires formed { IsFormed self.now }
        requires client { client < MAX_CLIENTS }
        ensures { result ≡ waiter_of (meaning self.now) client }
    {
        self.table.waiter_of(client)
    }

    /// Whether what the other client holds on the slot is not compatible with what the waiter
    /// wants.
    fn holds_against(&self, slot: u64, waiter: &Waiter, other: u64) -> bool
        requires clients { waiter.now.client < MAX_CLIENTS }
        requires other { other < MAX_CLIENTS }
        ensures { result ≡ not (is_compatible (meaning self.now) slot waiter.now other) }
    {
        if other == waiter.client {
            return false;
        }
        let wanted = self.table.mode(slot, waiter.client).join(waiter.mode);
        !wanted.compatible(self.table.mode(slot, other))
    }

    /// Whether the other client waits on the slot before the waiter, or holds there what is not
    /// compatible with what it wants.
    fn is_in_the_way(&self, slot: u64, waiter: &Waiter, other: u64) -> bool
        requires client { waiter.now.client < MAX_CLIENTS }
        requires other { other < MAX_CLIENTS }
        ensures { result ≡ is_in_the_way (meaning self.now) slot waiter.now other }
    {
        self.table.goes_before(slot, waiter.client, other)
            || self.holds_against(slot, waiter, other)
    }

    /// Whether the client waits for the other one.
    fn waits_for(&self, client: u64, other: u64) -> bool
        requires formed { IsFormed self.now }
        requires client { client < MAX_CLIENTS }
        requires other { other < MAX_CLIENTS }
        ensures { result ≡ waits_for (meaning self.now) client other }
    {
        match self.table.waiter_of(client) {
            Some(waiter) => {
                let slot = self.durable.slot_of(waiter.point.get());
                self.is_in_the_way(slot, &waiter, other)
            }
            None => false,
        }
    }

    /// The clients that the client waits for, in ascending order.
    pub(crate) fn waited_for(&self, client: u64) -> ArrayVec<u64, MAX_CLIENTS>
        requires formed { IsFormed self.now }
        requires client { client < MAX_CLIENTS }
        ensures { result.items ≡ waited_for (meaning self.now) client }
    {
        let mut others = ArrayVec::new();
        for other in 0..MAX_CLIENTS as u64 {
            if self.waits_for(client, other) {
                others.push(other);
            }
        }
        others
    }

    /// What the client holds on the first slot from this point on where its mode is not N.
    pub(crate) fn next_holding(&self, client: u64, from: u64) -> Option<Holding>
        requires formed { IsFormed self.now }
        requires client { client < MAX_CLIENTS }
        ensures { MatchOption result (HoldsNoMore (meaning self.now) client from)
            (IsNextHolding (meaning self.now) client from) }
    {
        match self.table.next_held(client, from) {
            Some(slot) => Some(self.holding(slot, client)),
            None => None,
        }
    }
}
