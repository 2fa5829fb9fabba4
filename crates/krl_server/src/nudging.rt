//! A nudge: what moves a client that seems stuck is sent again.
ghost use Rattle.std.specs.Prelude.{◌≡◌, ◌≤◌, ◌<◌, true, IfOk, IfSome};
ghost use Rattle.krl_server.specs.StateMeaning.{meaning};
ghost use Rattle.krl_server.specs.FoundCases.{IsFormed};
ghost use Rattle.krl_server.specs.Callbacks.{callbacks_of_among};
ghost use Rattle.krl_server.specs.Steps.{nudge, nudge_missing, nudge_served};
ghost use Rattle.krl_durable.specs.Registers.{record_of};
ghost use Rattle.krl_durable.specs.Index.{slots, slot_of};
ghost use Rattle.krl_modes.specs.declared.point.TheConstants.{END};
ghost use Rattle.krl_server.specs.CodeSteps.{is_registered, calls_of_first, calls_at_first};
ghost use Rattle.krl_server.specs.CodeSteps.{IsServer, IsFirst};
ghost use Rattle.krl_modes.specs.declared.limits.TheConstants.{MAX_CLIENTS};

use crate::out::Outbox;
use crate::state::State;
use krl_messages::{Items, ToClient};
use krl_modes::{MAX_CLIENTS, Point};
use krl_table::FirstWaiter;
use std::alloc::{AllocError, Global};

impl State {
    /// What a nudge of the client sends.
    ///
    /// # Errors
    ///
    /// `AllocError` if the list's memory is refused.
    pub(crate) fn nudge(&self, alloc: Global, client: u64) -> Result<Items<ToClient>, AllocError>
        requires { IsServer self.now }
        ensures { IfOk result (λ outs. outs ≡ nudge (meaning self.now) client) }
    {
        if !self.is_registered(client) {
            return Ok(Outbox::empty(alloc).into_items());
        }
        if self.missing.is_recovering() {
            self.nudge_missing(alloc, client)
        } else {
            self.nudge_served(alloc, client)
        }
    }

    /// Whether the client is registered and has not left.
    fn is_registered(&self, client: u64) -> bool
        ensures here { result ≡ is_registered (record_of self.now.durable.register client) }
        ensures client { result ≡ true → client < MAX_CLIENTS }
    {
        // By its clause `kept` the prover knows what holds of all that survives.
        let _kept = self.durable.epoch();
        match self.durable.record(client) {
            Some(known) => !known.left,
            None => false,
        }
    }

    /// While the server recovers, a missing client learns the epoch.
    fn nudge_missing(&self, alloc: Global, client: u64) -> Result<Items<ToClient>, AllocError>
        ensures { IfOk result (λ outs. outs ≡ nudge_missing (meaning self.now) client) }
    {
        if !self.missing.lists(client) {
            return Ok(Outbox::empty(alloc).into_items());
        }
        let mut outbox = Outbox::new(alloc, 1)?;
        outbox.send(self.epoch_to(client));
        Ok(outbox.into_items())
    }

    /// While it serves, the client's push that is not acknowledged is sent again; otherwise, if it
    /// waits first, the clients that block it are called back.
    fn nudge_served(&self, alloc: Global, client: u64) -> Result<Items<ToClient>, AllocError>
        requires server { IsServer self.now }
        requires client { client < MAX_CLIENTS }
        ensures { IfOk result (λ outs. outs ≡ nudge_served
            (meaning self.now) client ((meaning self.now).sessions client).unacked) }
    {
        if let Some(message) = self.push_again(alloc, client)? {
            let mut outbox = Outbox::new(alloc, 1)?;
            outbox.send(message);
            return Ok(outbox.into_items());
        }
        match self.first_waiter_of(client) {
            Some((slot, first)) => {
                let mut outbox = Outbox::new(alloc, MAX_CLIENTS - 1)?;
                self.call_back_for(slot, &first, &mut outbox);
                Ok(outbox.into_items())
            }
            None => Ok(Outbox::empty(alloc).into_items()),
        }
    }

    /// The slot at which the client waits first, and what it finds there.
    fn first_waiter_of(&self, client: u64) -> Option<(u64, FirstWaiter)>
        requires server { IsServer self.now }
        requires client { client < MAX_CLIENTS }
        ensures first { IfSome result (λ w. IsFirst (meaning self.now) w.0 w.1) }
        ensures client { IfSome result (λ w. w.1.waiter.client ≡ client) }
        ensures calls { calls_of_first (meaning self.now) result
            ≡ callbacks_of_among client (meaning self.now) (slots self.now.durable.index) }
    {
        match self.table.waiter_of(client) {
            Some(waiter) => self.first_at(waiter.point, client),
            None => None,
        }
    }

    /// The slot of the point, and its first waiter, if that is the client's.
    fn first_at(&self, point: Point, client: u64) -> Option<(u64, FirstWaiter)>
        requires formed { IsFormed self.now }
        requires point { point ≤ END }
        ensures first { IfSome result (λ w. IsFirst (meaning self.now) w.0 w.1) }
        ensures client { IfSome result (λ w. w.1.waiter.client ≡ client) }
        ensures calls { calls_of_first (meaning self.now) result
            ≡ calls_at_first (meaning self.now) (slot_of self.now.durable.index point) client }
    {
        let slot = self.durable.slot_of(point.get());
        match self.table.first(&self.durable, slot) {
            Some(first) => {
                if first.waiter.client == client {
                    Some((slot, first))
                } else {
                    None
                }
            }
            None => None,
        }
    }
}
