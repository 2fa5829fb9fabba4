//! What a server keeps.
ghost use Rattle.std.specs.Prelude.{◌≡◌, ◌<◌, ◌≤◌, ℕ, true, [], IsSome, IfOk, length, set};
ghost use Rattle.krl_messages.specs.declared.to_client.PushBody.TheVariants as push;
ghost use Rattle.std.specs.List.{AllByRecursion};
ghost use Rattle.krl_durable.specs.Index.{is_slot};
ghost use Rattle.krl_modes.specs.Modes.{key_of};
ghost use Rattle.krl_messages.specs.Ascending.{Ascend};
ghost use Rattle.krl_server.specs.Servers.{incarnation_of};
ghost use Rattle.krl_server.specs.StateMeaning.{meaning, sessions_of};
ghost use Rattle.krl_server.specs.FoundCases.{IsFormed};
ghost use Rattle.krl_server.specs.Outboxes.{as_list, Sends, pushed_again};
ghost use Rattle.krl_server.specs.Effects.{epoch_to, push_to, callback_to, shown, acknowledged};
ghost use Rattle.krl_server.specs.Effects.{holding, holdings, pushes};
ghost use Rattle.krl_modes.specs.declared.limits.TheConstants.{MAX_CLIENTS, MAX_HOLDINGS};

use crate::grant_room::GrantRoom;
use crate::missing::Missing;
use crate::out::Outbox;
use crate::session::Session;
use crate::sessions::Sessions;
use krl_blocks::Finger;
use krl_durable::Durable;
use krl_messages::{Gathering, Holding, Holdings, PushBody, ToClient, ToClientBody, Value};
use krl_modes::{END, KeyPart, Mode, Point, Span};
use krl_table::Table;
use std::alloc::{AllocError, Global};

/// What a server keeps, as it also is while a message is worked on.
#[derive(Drop)]
pub struct State {
    /// What survives a restart.
    pub(crate) durable: Durable,
    /// Which client holds which mode on which slot, and the waiters there.
    pub(crate) table: Table,
    /// What was pushed and asked, by client.
    pub(crate) sessions: Sessions,
    /// The clients that are missing.
    pub(crate) missing: Missing,
}

/// A value goes with a key part that reads it.
fn shown(part: KeyPart, value: Option<Value>) -> Option<Value>
    ensures { result ≡ shown part value }
{
    match part {
        KeyPart::N => None,
        KeyPart::S | KeyPart::U | KeyPart::X => value,
    }
}

impl State {
    /// The client's session.
    pub(crate) fn session(&self, client: u64) -> &Session
        requires formed { IsFormed self.now }
        requires client { client < MAX_CLIENTS }
        ensures { result.now ≡ sessions_of self.now.sessions client }
    {
        self.sessions.of(client)
    }

    /// The client's registered incarnation, or 0.
    fn incarnation_of(&self, client: u64) -> u64
        ensures { result ≡ incarnation_of (meaning self.now) client }
    {
        match self.durable.record(client) {
            Some(record) => record.incarnation,
            None => 0,
        }
    }

    /// Sends the client the epoch.
    pub(crate) fn epoch_to(&self, client: u64) -> ToClient
        ensures { result ≡ epoch_to (meaning self.now) client }
    {
        ToClient {
            client,
            incarnation: self.incarnation_of(client),
            body: ToClientBody::Epoch {
                epoch: self.durable.epoch(),
            },
        }
    }

    /// The push of this number.
    fn push_to(&self, client: u64, number: u64, body: PushBody) -> ToClient
        ensures { result ≡ push_to (meaning self.now) client number body }
    {
        ToClient {
            client,
            incarnation: self.incarnation_of(client),
            body: ToClientBody::Push {
                epoch: self.durable.epoch(),
                number,
                body,
            },
        }
    }

    /// The client's push that is not acknowledged, again.
    ///
    /// # Errors
    ///
    /// `AllocError` if the memory for its holdings is refused.
    pub(crate) fn push_again(
        &self,
        alloc: Global,
        client: u64,
    ) -> Result<Option<ToClient>, AllocError>
        ensures { IfOk result (λ again. as_list again
            ≡ pushed_again (meaning self.now) client
            ((meaning self.now).sessions client).unacked) }
    {
        let Some(session) = self.sessions.find(client) else {
            return Ok(None);
        };
        let Some(body) = &session.unacked else {
            return Ok(None);
        };
        let copy = body.try_clone(alloc)?;
        Ok(Some(self.push_to(client, session.last_push, copy)))
    }

    /// Asks the client to keep no more than this mode on the span.
    pub(crate) fn callback_to(&self, client: u64, span: Span, keep: Mode) -> ToClient
        ensures { result ≡ callback_to (meaning self.now) client span keep }
    {
        ToClient {
            client,
            incarnation: self.incarnation_of(client),
            body: ToClientBody::Callback {
                epoch: self.durable.epoch(),
                span,
                keep,
            },
        }
    }

    /// What the client holds on the slot.
    pub(crate) fn holding(&self, slot: u64, client: u64) -> Holding
        requires formed { IsFormed self.now }
        requires slot { is_slot self.now.durable.index slot ≡ true }
        requires client { client < MAX_CLIENTS }
        ensures { result ≡ holding (meaning self.now) slot client }
    {
        let mode = self.table.mode(slot, client);
        let (_, key) = mode.parts();
        Holding {
            span: self.durable.span_of(slot),
            mode,
            value: shown(key, self.durable.get(slot)),
        }
    }

    /// Like `holding`, by searches that begin at the fingers, one among the entries and one among
    /// the rows. They are moved to the slot.
    fn holding_by(&self, slot: u64, client: u64, entries: &mut Finger, rows: &mut Finger) -> Holding
        requires formed { IsFormed self.now }
        requires slot { is_slot self.now.durable.index slot ≡ true }
        requires client { client < MAX_CLIENTS }
        ensures { result ≡ holding (meaning self.now) slot client }
    {
        let mode = self.table.mode_by(slot, client, rows);
        let (_, key) = mode.parts();
        let (span, value) = self.durable.entry_by(slot, entries);
        Holding {
            span,
            mode,
            value: shown(key, value),
        }
    }

    /// What the client holds on each of these slots, of which there are 1 to 128, in their order.
    /// Fingers go along, so that a slot after the first costs no search if it is the next one.
    pub(crate) fn holdings(&self, slots: &[Point], client: u64, room: Gathering) -> Holdings
        requires formed { IsFormed self.now }
        requires slots { AllByRecursion (λ n. is_slot self.now.durable.index n ≡ true) slots.now }
        requires order { Ascend (holdings (meaning self.now) client slots.now) }
        requires some { 1 ≤ length slots.now }
        requires few { length slots.now ≤ MAX_HOLDINGS }
        requires client { client < MAX_CLIENTS }
        requires empty { room.holdings ≡ [] }
        requires room { length slots.now ≤ room.room }
        ensures { result ≡ holdings (meaning self.now) client slots.now }
    {
        let mut all = room;
        let (mut entries, mut rows) = (Finger::new(), Finger::new());
        for i in 0..slots.len() {
            let slot = slots[i].get();
            // Apart: the prover has to see the type of the value.
            let Holding { span, mode, value } = self.holding_by(
                slot,
                client,
                &mut entries,
                &mut rows,
            );
            all.push(Holding { span, mode, value });
        }
        all.into_holdings()
    }

    /// The grant of these slots, twice: for the session, and for what is sent.
    pub(crate) fn grant_of(
        &self,
        req: u64,
        slots: &[Point],
        client: u64,
        room: GrantRoom,
    ) -> (PushBody, PushBody)
        requires formed { IsFormed self.now }
        requires slots { AllByRecursion (λ n. is_slot self.now.durable.index n ≡ true) slots.now }
        requires order { Ascend (holdings (meaning self.now) client slots.now) }
        requires some { 1 ≤ length slots.now }
        requires few { length slots.now ≤ MAX_HOLDINGS }
        requires client { client < MAX_CLIENTS }
        requires room { length slots.now ≤ room }
        ensures kept { result.0
            ≡ push.Grant req (holdings (meaning self.now) client slots.now) }
        ensures sent { result.1
            ≡ push.Grant req (holdings (meaning self.now) client slots.now) }
    {
        let (kept, sent) = room.into_lists();
        let kept = self.holdings(slots, client, kept);
        let sent = sent.into_copy(&kept);
        (
            PushBody::Grant {
                req,
                holdings: kept,
            },
            PushBody::Grant {
                req,
                holdings: sent,
            },
        )
    }

    /// The client's last push counts as acknowledged.
    pub(crate) fn acknowledge(&mut self, client: u64)
        requires formed { IsFormed self.old }
        requires client { client < MAX_CLIENTS }
        ensures acknowledged { meaning self.new ≡ acknowledged (meaning self.old) client }
        ensures rest { self.new ≡ record self.old { sessions = self.new.sessions } }
        ensures formed { IsFormed self.new }
    {
        self.sessions.acknowledge(client);
    }

    /// The client's last push counts as acknowledged, and its request of this number is the last
    /// that was taken.
    pub(crate) fn note_request(&mut self, client: u64, req: u64)
        requires formed { IsFormed self.old }
        requires client { client < MAX_CLIENTS }
        ensures { self.new ≡ record self.old {
          sessions = set self.old.sessions client
              (record (sessions_of self.old.sessions client)
              { unacked = None; last_request = req });
        } }
    {
        self.sessions.note_request(client, req);
    }

    /// Sends the client its next push, of which the session keeps a copy. If its number is spent
    /// nothing is sent.
    pub(crate) fn push(&mut self, client: u64, kept: PushBody, body: PushBody, outbox: &mut Outbox)
        requires formed { IsFormed self.old }
        requires same { kept ≡ body }
        requires client { client < MAX_CLIENTS }
        requires room { length outbox.old.sent < outbox.old.room }
        ensures server { meaning self.new ≡ (pushes (meaning self.old) client body).server }
        ensures sent { Sends outbox.old outbox.new
            (pushes (meaning self.old) client body).outs }
        ensures rest { self.new ≡ record self.old { sessions = self.new.sessions } }
        ensures formed { IsFormed self.new }
    {
        let last_push = self.session(client).last_push;
        if last_push >= END {
            return;
        }
        let number = last_push + 1;
        outbox.send(self.push_to(client, number, body));
        self.sessions.note_push(client, number, kept);
    }
}
