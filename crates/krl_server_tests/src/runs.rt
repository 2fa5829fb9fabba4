//! Acts, one after another, and whether each gives what it should. If an allocation is refused,
//! a server shows what it showed, and the refused call is made again.
use crate::acts::{Act, Gives, Told};
use crate::again::CALLS;
use crate::requests::message;
use crate::shows::{Shows, missing, nudge, showing, stays};
use crate::told::are_told;
use krl_messages::{ToServer, Value};
use krl_server::{Phase, Server, ServerOut};
use std::alloc::Global;

// Whether this comes of the step, if `stays` states whether nothing has changed.
fn is_given(server: &Server, stays: bool, out: &ServerOut, client: u64, expected: &Gives) -> bool {
    let epoch = server.durable().epoch();
    let messages = out.messages.as_slice();
    match expected {
        Gives::Told(told) => out.alarm.is_none() && are_told(epoch, messages, told),
        Gives::Only(told) => stays && out.alarm.is_none() && are_told(epoch, messages, told),
        Gives::Alarm => stays && out.alarm == Some(client) && messages.is_empty(),
        Gives::Missing(_) | Gives::Entries(_) => false,
    }
}

// Whether this comes of the message; None if memory is refused.
fn steps(
    alloc: Global,
    server: &mut Server,
    before: &Shows,
    message: &ToServer,
    expected: &Gives,
) -> Option<bool> {
    match server.step(alloc, message) {
        Ok(out) => {
            let stays = stays(alloc, server, before);
            Some(is_given(server, stays, &out, message.client, expected))
        }
        Err(_) => None,
    }
}

// Whether this comes of the message, perhaps after refusals, each of which changes nothing.
fn hears(alloc: Global, server: &mut Server, message: &ToServer, expected: &Gives) -> bool {
    let before = showing(alloc, server);
    for _ in 0..CALLS {
        if let Some(given) = steps(alloc, server, &before, message, expected) {
            return given;
        }
        if !stays(alloc, server, &before) {
            return false;
        }
    }
    false
}

// Whether just these entries are there, in this order.
fn are_entries(entries: &[(u64, Value)], expected: &[(u64, &'static str)]) -> bool {
    for (entry, (key, text)) in entries.iter().zip(expected) {
        if entry.0 != *key || entry.1.bytes() != text.as_bytes() {
            return false;
        }
    }
    entries.len() == expected.len()
}

fn are_missing(alloc: Global, server: &Server, expected: &[u64]) -> bool {
    match missing(alloc, server) {
        Some(clients) => clients.as_slice() == expected,
        None => false,
    }
}

fn nudges(alloc: Global, server: &Server, client: u64, expected: &[Told]) -> bool {
    match nudge(alloc, server, client) {
        Some(messages) => are_told(server.durable().epoch(), messages.as_slice(), expected),
        None => false,
    }
}

// Whether a look at the server shows this.
fn is_shown(alloc: Global, server: &Server, act: Act, expected: &Gives) -> bool {
    match (act, expected) {
        (Act::Missing, Gives::Missing(clients)) => {
            (server.phase() == Phase::Recovering) != clients.is_empty()
                && are_missing(alloc, server, clients)
        }
        (Act::Entries, Gives::Entries(entries)) => { are_entries(server.durable().run(0), entries) }
        (Act::Nudge(client), Gives::Only(told)) => nudges(alloc, server, client, told),
        _ => false,
    }
}

// Whether the act gives this.
fn acts(alloc: Global, server: &mut Server, act: Act, expected: &Gives) -> bool {
    match message(alloc, act) {
        Some(message) => hears(alloc, server, &message, expected),
        None => is_shown(alloc, server, act, expected),
    }
}

// Whether each act gives what its row states.
pub fn all_give(alloc: Global, server: &mut Server, rows: &[(Act, Gives)]) -> bool {
    for (act, expected) in rows {
        if !acts(alloc, server, *act, expected) {
            return false;
        }
    }
    true
}
