//! Callbacks for first waiters that are blocked.
ghost use Rattle.std.specs.Prelude.{◌≡◌, ◌≤◌, ◌<◌, ◌+◌, length};
ghost use Rattle.krl_table.specs.Replies.{asks_absent};
ghost use Rattle.krl_server.specs.Callbacks.{callbacks_for, callbacks, callbacks_at};
ghost use Rattle.krl_server.specs.Soundness.{IsSound};
ghost use Rattle.krl_table.specs.Kept.{mode_of};
ghost use Rattle.krl_server.specs.Outboxes.{Sends};
ghost use Rattle.krl_server.specs.CodeSteps.{call_if, IsFirst, HaveWaiters};
ghost use Rattle.krl_server.specs.StateMeaning.{meaning};
ghost use Rattle.krl_server.specs.FoundCases.{IsFormed};
ghost use Rattle.krl_modes.specs.declared.limits.TheConstants.{MAX_CLIENTS};

use crate::out::Outbox;
use crate::state::State;
use krl_modes::{MAX_CLIENTS, Mode, Span};
use krl_queue::Waiter;
use krl_table::FirstWaiter;

// The client's mode.
fn mode_of(modes: &[Mode; MAX_CLIENTS], client: u64) -> Mode
    requires { client < MAX_CLIENTS }
    ensures { result ≡ mode_of modes.now client }
{
    modes[client as usize]
}

impl State {
    /// Whether the waiter asks for an entry where there is none.
    fn asks_absent(&self, waiter: &Waiter) -> bool
        ensures { result ≡ asks_absent self.now.durable.index waiter.now }
    {
        if waiter.mode.needs_entry() {
            self.durable.get(waiter.point.get()).is_none()
        } else {
            false
        }
    }

    /// Calls the client back for the span, if what it holds there blocks the waiter, which wants
    /// this mode.
    fn call_back_one(
        &self,
        waiter: &Waiter,
        mode: Mode,
        span: Span,
        client: u64,
        held: Mode,
        outbox: &mut Outbox,
    )
        requires { length outbox.old.sent
            + length (call_if (meaning self.now) waiter.now mode span client held)
            ≤ outbox.old.room }
        ensures { Sends outbox.old outbox.new
            (call_if (meaning self.now) waiter.now mode span client held) }
    {
        // Most clients hold nothing here, and that is found at once.
        if held == Mode::N || client == waiter.client || mode.compatible(held) {
            return;
        }
        outbox.send(self.callback_to(client, span, mode.cap()));
    }

    /// Calls back all clients that block the slot's first waiter.
    pub(crate) fn call_back_for(&self, slot: u64, first: &FirstWaiter, outbox: &mut Outbox)
        requires formed { IsFormed self.now }
        requires first { IsFirst (meaning self.now) slot first.now }
        requires room { length outbox.old.sent
            + length (callbacks_for (meaning self.now) slot first.now.waiter) ≤ outbox.old.room }
        ensures { Sends outbox.old outbox.new
            (callbacks_for (meaning self.now) slot first.now.waiter) }
    {
        let FirstWaiter {
            waiter,
            span,
            modes,
        } = *first;
        if self.asks_absent(&waiter) {
            return;
        }
        let wanted = mode_of(&modes, waiter.client).join(waiter.mode);
        for client in 0..MAX_CLIENTS as u64 {
            let held = mode_of(&modes, client);
            self.call_back_one(&waiter, wanted, span, client, held, outbox);
        }
    }

    /// Calls back all clients that block the slot's first waiter, if somebody waits there.
    fn call_back_at(&self, slot: u64, outbox: &mut Outbox)
        requires formed { IsFormed self.now }
        requires room { length outbox.old.sent
            + length (callbacks_at (meaning self.now) slot ((meaning self.now).rows slot).queue)
            ≤ outbox.old.room }
        ensures { Sends outbox.old outbox.new
            (callbacks_at (meaning self.now) slot ((meaning self.now).rows slot).queue) }
    {
        match self.table.first(&self.durable, slot) {
            Some(first) => self.call_back_for(slot, &first, outbox),
            None => {}
        }
    }

    /// Calls back all clients that block the first waiter of a slot, at the least slot first. The
    /// list has the slots at which somebody waits, and perhaps others.
    pub(crate) fn call_back(&self, slots: &[u64], outbox: &mut Outbox)
        requires formed { IsFormed self.now }
        requires sound { IsSound (meaning self.now) }
        requires slots { HaveWaiters (meaning self.now) 0 slots.now }
        requires room { length outbox.old.sent + length (callbacks (meaning self.now))
            ≤ outbox.old.room }
        ensures { Sends outbox.old outbox.new (callbacks (meaning self.now)) }
    {
        for slot in slots {
            self.call_back_at(*slot, outbox);
        }
    }
}
