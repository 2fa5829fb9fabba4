//! A lock that nobody has to wait for.
ghost use Rattle.std.specs.Prelude.{◌≡◌, ◌<◌, ◌≤◌, ℕ, [], length, true, false};
ghost use Rattle.std.specs.Prelude.{IfOk, OnErr, IfSome, IfNone};
ghost use Rattle.krl_durable.specs.Index.{slot_of};
ghost use Rattle.krl_server.specs.Cases.{case_of};
ghost use Rattle.krl_server.specs.Effects.{acknowledged, queues};
ghost use Rattle.krl_server.specs.CodeSteps.{IsServer, HasAnsweredFirst, HasStepped};
ghost use Rattle.krl_server.specs.Soundness.{IsSound};
ghost use Rattle.krl_server.specs.StateMeaning.{meaning};
ghost use Rattle.krl_server.specs.FoundCases.{meant, IsFormed};
ghost use Rattle.krl_server.specs.GrantRooms.{most_slots, NobodyCame};
ghost use Rattle.krl_modes.specs.declared.limits.TheConstants.{MAX_CLIENTS};

use crate::case::Case;
use crate::grant_room::{GrantRoom, most_slots};
use crate::out::{Outbox, ServerOut};
use crate::state::State;
use krl_messages::ToServer;
use krl_modes::{END, MAX_CLIENTS};
use krl_queue::Waiter;
use std::alloc::{AllocError, Global};

impl State {
    /// Takes a lock request, grants it and sends the grant, if nobody waits on its slot: the
    /// lock is found free in one search, and the waiter takes no place in a queue. The last push
    /// counts as acknowledged. It takes no memory but the room for the holdings, which it is given.
    ///
    /// It answers `false`, and nothing changes and nothing is sent, if the request has to wait or
    /// asks for an entry that is not there, and if the number of the next push is spent.
    fn grant_at_once(&mut self, waiter: &Waiter, room: GrantRoom, outbox: &mut Outbox) -> bool
        requires formed { IsFormed self.old }
        requires client { waiter.now.client < MAX_CLIENTS }
        requires sound { IsSound (meaning self.old) }
        requires room { length outbox.old.sent < outbox.old.room }
        requires holdings { most_slots self.old.durable waiter.now.point waiter.now.hi ≤ room }
        ensures answered { result ≡ true → HasAnsweredFirst
            (queues (acknowledged (meaning self.old) waiter.now.client) waiter.now)
            (meaning self.new)
            (slot_of self.old.durable.index waiter.now.point) outbox.old outbox.new }
        ensures free { result ≡ true → ((meaning self.old).rows
            (slot_of self.old.durable.index waiter.now.point)).queue ≡ [] }
        ensures same { result ≡ false → self.new ≡ self.old }
        ensures unsent { result ≡ false → outbox.new ≡ outbox.old }
        ensures formed { IsFormed self.new }
    {
        // By its clause `kept` the prover knows how far a grant reaches.
        let _kept = self.durable.epoch();
        if self.session(waiter.client).last_push >= END {
            return false;
        }
        let Some(slots) = self.table.grant_at_once(&self.durable, waiter) else {
            return false;
        };
        self.note_request(waiter.client, waiter.req);
        let (kept, body) = self.grant_of(waiter.req, slots.as_slice(), waiter.client, room);
        self.push(waiter.client, kept, body, outbox);
        true
    }

    /// The step of a lock request that can be granted at once, while the server serves. Nobody else
    /// can be answered then: a client that waits at another slot still does, and others are called
    /// back for it. None, and nothing has changed, if it is another message, or the request has to
    /// wait.
    ///
    /// # Errors
    ///
    /// `AllocError` if the memory for the messages is refused. Nothing has changed then.
    pub(crate) fn step_at_once(
        &mut self,
        alloc: Global,
        message: &ToServer,
        case: &Case,
    ) -> Result<Option<ServerOut>, AllocError>
        requires server { IsServer self.old }
        requires case { meant (meaning self.old) message.now.client message.now.body case.now
            ≡ case_of (meaning self.old) message.now }
        ensures stepped { IfOk result (λ r. IfSome r
            (λ out. HasStepped (meaning self.old) message.now (meaning self.new) out)) }
        ensures waiters { IfOk result (λ r. IfSome r
            (λ _. NobodyCame (meaning self.old) (meaning self.new))) }
        ensures none { IfOk result (λ r. IfNone r (self.new ≡ self.old)) }
        ensures formed { IsFormed self.new }
        ensures refused { OnErr result (self.new ≡ self.old) }
    {
        let Case::Waits {
            req,
            point,
            hi,
            mode,
        } = *case
        else {
            return Ok(None);
        };
        if self.missing.is_recovering() {
            return Ok(None);
        }
        let room = GrantRoom::new(alloc, most_slots(&self.durable, point, hi))?;
        let mut outbox = Outbox::new(alloc, 1 + (MAX_CLIENTS - 1) * self.count_waiting())?;
        let waiter = Waiter {
            client: message.client,
            req,
            point,
            hi,
            mode,
        };
        if !self.grant_at_once(&waiter, room, &mut outbox) {
            return Ok(None);
        }
        let slots = self.table.waiting_slots(&self.durable);
        self.call_back(slots.as_slice(), &mut outbox);
        Ok(Some(ServerOut {
            messages: outbox.into_items(),
            alarm: None,
            change: None,
        }))
    }
}
