//! What a server does, with all that was sent.
ghost use Rattle.std.specs.Prelude.{◌≡◌, ◌<◌, ◌++◌, None, Some, length, slice_get, OnOk, OnErr};
ghost use Rattle.std.specs.Vec.{vec_len, vec_capacity};
ghost use Rattle.krl_messages.specs.declared.to_server.ToServer.{ToServer};
ghost use Rattle.krl_server.specs.StateMeaning.{meaning};
ghost use Rattle.krl_server.specs.Steps as steps;
ghost use Rattle.krl_world.specs.declared.message.Message.TheVariants as sent_message;
ghost use Rattle.krl_world.specs.States.{from_server};
ghost use Rattle.krl_world.specs.Steps.{server_down};
ghost use Rattle.krl_world.specs.Fields.{node_of};
ghost use Rattle.krl_world.specs.PlaceSteps.{HasServed, HasArrived, applied_in, as_list};

use crate::message::Message;
use crate::network::{MAX_OF_A_SERVER, send_to_clients};
use crate::node::ServerPlace;
use krl_durable::Change;
use krl_messages::{Outcome, ToServer};
use krl_server::Server;
use krl_steps::AppliedWrite;
use std::alloc::{AllocError, Global};

/// The write that the server applied, if this is what the message changed in what survives.
fn applied_in(message: &ToServer, change: Option<Change>) -> Option<AppliedWrite>
    ensures { as_list result ≡ applied_in message.now change }
{
    match change {
        Some(
            Change::Judged {
                client,
                number,
                op,
                outcome: Outcome::Applied,
            },
        ) => Some(AppliedWrite {
            client,
            incarnation: message.incarnation,
            number,
            op,
        }),
        _ => None,
    }
}

/// Notes a write that was applied, if one was. There is room.
fn note(writes: &mut Vec<AppliedWrite>, applied: Option<AppliedWrite>)
    requires { vec_len writes.old < vec_capacity writes.old }
    ensures { writes.new.items ≡ writes.old.items ++ as_list applied }
{
    if let Some(
        AppliedWrite {
            client,
            incarnation,
            number,
            op,
        },
    ) = applied
    {
        writes.push_reserved(AppliedWrite {
            client,
            incarnation,
            number,
            op,
        });
    }
}

/// The server reads a message that was sent. A write that it applies is noted.
fn read(
    alloc: Global,
    server: &mut Server,
    sent: &mut Vec<Message>,
    writes: &mut Vec<AppliedWrite>,
    at: usize,
) -> Result<(), AllocError>
    requires { at < length sent.old.items }
    ensures ok { OnOk result
        ((m : ToServer) → slice_get sent.old.items at ≡ Some (sent_message.ToServer m)
        → HasServed (meaning server.old) m (meaning server.new) sent.old.items sent.new.items
        writes.old.items writes.new.items) }
    ensures err { OnErr result
        ((server.new ≡ server.old) × (sent.new.items ≡ sent.old.items)
        × (writes.new.items ≡ writes.old.items)) }
{
    sent.reserve(MAX_OF_A_SERVER)?;
    writes.reserve(1)?;
    let Message::ToServer(message) = &sent[at] else {
        return Ok(());
    };
    let out = server.step(alloc, message)?;
    note(writes, applied_in(message, out.change));
    send_to_clients(sent, out.messages);
    Ok(())
}

/// A message that was sent comes to the server, which reads it; one that is down loses it.
pub(crate) fn arrive(
    alloc: Global,
    node: &mut ServerPlace,
    sent: &mut Vec<Message>,
    writes: &mut Vec<AppliedWrite>,
    at: usize,
) -> Result<(), AllocError>
    requires { at < length sent.old.items }
    ensures ok { OnOk result
        ((m : ToServer) → slice_get sent.old.items at ≡ Some (sent_message.ToServer m)
        → HasArrived (node_of node.old) m (node_of node.new) sent.old.items sent.new.items
        writes.old.items writes.new.items) }
    ensures up { OnErr result (server_down (node_of node.old) ≡ None) }
    ensures err { OnErr result
        ((node.new ≡ node.old) × (sent.new.items ≡ sent.old.items)
        × (writes.new.items ≡ writes.old.items)) }
{
    match node {
        ServerPlace::Up(server) => read(alloc, server, sent, writes, at),
        ServerPlace::Down(_) => Ok(()),
    }
}

/// The server is nudged for a client.
pub fn nudge(
    alloc: Global,
    server: &Server,
    sent: &mut Vec<Message>,
    client: u64,
) -> Result<(), AllocError>
    ensures ok { OnOk result
        (sent.new.items ≡ sent.old.items ++ from_server (steps.nudge (meaning server.now) client)) }
    ensures err { OnErr result (sent.new.items ≡ sent.old.items) }
{
    sent.reserve(MAX_OF_A_SERVER)?;
    let messages = server.nudge(alloc, client)?;
    send_to_clients(sent, messages);
    Ok(())
}
