//! Puts what was sent after the letters to each node.
ghost use Rattle.std.specs.Prelude.{◌≡◌, length, MatchResult};
ghost use Rattle.krl_nodes.specs.Sorting.{IsPut, AreSorted, AreSortedBack};

use crate::inbox::Inbox;
use krl_messages::{ToClient, ToServer};
use krl_world::Message;

// Puts the message after the letters to its reader, and drops one that no client reads. It comes
// back if memory is refused.
fn put(
    to_server: &mut Inbox<ToServer>,
    to_clients: &mut Vec<Inbox<ToClient>>,
    message: Message,
) -> Result<(), Message>
    ensures count { length to_clients.new.items ≡ length to_clients.old.items }
    ensures put { MatchResult result
        (λ _. IsPut to_server.old to_clients.old.items message to_server.new to_clients.new.items)
        (λ back. (back ≡ message) × (to_server.new ≡ to_server.old)
        × (to_clients.new.items ≡ to_clients.old.items)) }
{
    match message {
        Message::ToServer(letter) => match to_server.push(letter) {
            Ok(()) => Ok(()),
            Err(back) => Err(Message::ToServer(back.value)),
        },
        Message::ToClient(letter) => {
            let client = letter.client as usize;
            if client >= to_clients.len() {
                return Ok(());
            }
            match to_clients[client].push(letter) {
                Ok(()) => Ok(()),
                Err(back) => Err(Message::ToClient(back.value)),
            }
        }
    }
}

// Puts messages, the last one first, until memory is refused.
fn put_back(
    to_server: &mut Inbox<ToServer>,
    to_clients: &mut Vec<Inbox<ToClient>>,
    messages: &mut Vec<Message>,
)
    ensures count { length to_clients.new.items ≡ length to_clients.old.items }
    ensures sorted { AreSortedBack to_server.old to_clients.old.items messages.old.items
        to_server.new to_clients.new.items messages.new.items }
{
    for _ in 0..messages.len() {
        let Some(message) = messages.pop() else {
            return;
        };
        if let Err(back) = put(to_server, to_clients, message) {
            messages.push_reserved(back);
            return;
        }
    }
}

/// Puts messages after the letters to their readers, the oldest first, until memory is refused.
pub(crate) fn sort_all(
    to_server: &mut Inbox<ToServer>,
    to_clients: &mut Vec<Inbox<ToClient>>,
    messages: &mut Vec<Message>,
)
    ensures count { length to_clients.new.items ≡ length to_clients.old.items }
    ensures sorted { AreSorted to_server.old to_clients.old.items messages.old.items
        to_server.new to_clients.new.items messages.new.items }
{
    messages.reverse();
    put_back(to_server, to_clients, messages);
    messages.reverse();
}
