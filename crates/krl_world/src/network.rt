//! The list of all that was sent.
ghost use Rattle.std.specs.Prelude.{◌≡◌, ◌≤◌, ◌+◌, ◌++◌, length, vec_len, vec_capacity};
ghost use Rattle.krl_world.specs.States.{from_clients, from_server};

use crate::message::Message;
use krl_messages::{Items, ToClient, ToServer};

/// The most messages that a step of a client sends.
pub const MAX_OF_A_CLIENT: usize = 3;

/// The most messages that a step of a server sends.
pub const MAX_OF_A_SERVER: usize = 4097;

/// Puts what a client sent after all that was sent. There is room.
pub fn send_to_server(sent: &mut Vec<Message>, messages: Vec<ToServer>)
    requires { vec_len sent.old + length messages.items ≤ vec_capacity sent.old }
    ensures { sent.new.items ≡ sent.old.items ++ from_clients messages.items }
{
    for message in messages {
        sent.push_reserved(Message::ToServer(message));
    }
}

/// Puts what a server sent after all that was sent. There is room.
pub fn send_to_clients(sent: &mut Vec<Message>, messages: Items<ToClient>)
    requires { vec_len sent.old + length messages ≤ vec_capacity sent.old }
    ensures { sent.new.items ≡ sent.old.items ++ from_server messages }
{
    for message in messages.into_vec() {
        sent.push_reserved(Message::ToClient(message));
    }
}
