//! What a step gives.
ghost use Rattle.std.specs.Prelude.{◌≡◌, ◌<◌, ◌≤◌, ◌+◌, [], ◌∷◌, length, IfOk};
ghost use Rattle.krl_server.specs.Outboxes.{as_list, Sends};

use krl_durable::Change;
use krl_messages::{Items, ToClient};
use std::alloc::{AllocError, Global};
use std::marker::Model;

/// What a step sends and reports.
#[derive(Drop)]
pub struct ServerOut {
    /// The messages, in the order in which they are sent: an Epoch or an answer to a write; then
    /// the answers to waiters, as they were answered, least slot first; then the callbacks, by slot
    /// and by client.
    pub messages: Items<ToClient>,
    /// The client whose report contradicts what the server knows, if the message was such a report.
    /// Nothing has changed then.
    pub alarm: Option<u64>,
    /// What has changed in what survives: None if that is unchanged.
    pub change: Option<Change>,
}

/// Messages on their way out, with room that was made before anything changed.
#[derive(Drop)]
pub(crate) struct Outbox {
    messages: Vec<ToClient>,
}

impl Model for Outbox {
    ghost use Rattle.std.specs.Prelude.{vec_capacity};
    ghost use Rattle.std.specs.Coded.{codes, coded_list};
    ghost use Rattle.krl_server.specs.Outboxes.{Sent};
    ghost use Rattle.krl_messages.specs.contracts.to_client.ToClient as to_client;

    ghost Value = { Sent };

    ghost coded = { Prim.hlevel (codes, coded_list to_client.the_row.coded) };

    ghost view = { λ o. record { sent = o.messages.items; room = vec_capacity o.messages } };
}

impl Outbox {
    /// No message, and no room.
    pub(crate) fn empty(alloc: Global) -> Outbox
        ensures { result.sent ≡ [] }
    {
        Outbox {
            messages: Vec::new(alloc),
        }
    }

    /// No message yet, and room for so many.
    pub(crate) fn new(alloc: Global, room: usize) -> Result<Outbox, AllocError>
        ensures { IfOk result (λ o. o ≡ record { sent = []; room = room }) }
    {
        let messages = Vec::with_capacity(alloc, room)?;
        Ok(Outbox { messages })
    }

    /// Sends the message after all others.
    pub(crate) fn send(&mut self, message: ToClient)
        requires { length self.old.sent < self.old.room }
        ensures { Sends self.old self.new (message ∷ []) }
    {
        self.messages.push_reserved(message);
    }

    /// Sends the message, if there is one.
    pub(crate) fn send_some(&mut self, message: Option<ToClient>)
        requires { length self.old.sent + length (as_list message) ≤ self.old.room }
        ensures { Sends self.old self.new (as_list message) }
    {
        if let Some(message) = message {
            self.send(message);
        }
    }

    /// The messages, in order.
    pub(crate) fn into_items(self) -> Items<ToClient>
        ensures { result ≡ self.sent }
    {
        let Outbox { messages } = self;
        Items::from(messages)
    }
}
