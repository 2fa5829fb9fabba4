//! What a server shows, before a call and after it.
use crate::again::CALLS;
use krl_durable::{Durable, Record};
use krl_messages::{Items, ToClient, Value};
use krl_server::{Phase, Server};
use std::alloc::Global;

// What survives, as far as four entries and four clients show it.
#[derive(Clone, Copy, PartialEq, Eq)]
pub struct Survives {
    pub epoch: u64,
    entries: [Option<(u64, Value)>; 4],
    records: [Option<Record>; 4],
}

// The entry of this place, if there is one.
fn entry(durable: &Durable, place: usize) -> Option<(u64, Value)> {
    durable.run(0).get(place).copied()
}

pub fn surviving(durable: &Durable) -> Survives {
    Survives {
        epoch: durable.epoch(),
        entries: [
            entry(durable, 0),
            entry(durable, 1),
            entry(durable, 2),
            entry(durable, 3),
        ],
        records: [
            durable.record(0),
            durable.record(1),
            durable.record(2),
            durable.record(3),
        ],
    }
}

// What a server is nudged to send to each of four clients.
#[derive(PartialEq, Drop)]
struct Nudges {
    client_0: Option<Items<ToClient>>,
    client_1: Option<Items<ToClient>>,
    client_2: Option<Items<ToClient>>,
    client_3: Option<Items<ToClient>>,
}

// What a server shows: what survives, its phase, the missing clients, and what it sends if it is
// nudged.
#[derive(PartialEq, Drop)]
pub struct Shows {
    survives: Survives,
    recovers: bool,
    missing: [Option<u64>; 4],
    nudges: Nudges,
}

pub fn missing(alloc: Global, server: &Server) -> Option<Items<u64>> {
    for _ in 0..CALLS {
        if let Ok(clients) = server.missing(alloc) {
            return Some(clients);
        }
    }
    None
}

pub fn nudge(alloc: Global, server: &Server, client: u64) -> Option<Items<ToClient>> {
    for _ in 0..CALLS {
        if let Ok(messages) = server.nudge(alloc, client) {
            return Some(messages);
        }
    }
    None
}

pub fn showing(alloc: Global, server: &Server) -> Shows {
    Shows {
        survives: surviving(server.durable()),
        recovers: server.phase() == Phase::Recovering,
        missing: first_missing(alloc, server),
        nudges: Nudges {
            client_0: nudge(alloc, server, 0),
            client_1: nudge(alloc, server, 1),
            client_2: nudge(alloc, server, 2),
            client_3: nudge(alloc, server, 3),
        },
    }
}

// The client of this place among those that are missing, if there is one.
fn nth(clients: &Items<u64>, place: usize) -> Option<u64> {
    clients.as_slice().get(place).copied()
}

fn first_missing(alloc: Global, server: &Server) -> [Option<u64>; 4] {
    match missing(alloc, server) {
        Some(all) => [nth(&all, 0), nth(&all, 1), nth(&all, 2), nth(&all, 3)],
        None => [None; 4],
    }
}

// Whether the server shows what it showed.
pub fn stays(alloc: Global, server: &Server, before: &Shows) -> bool {
    showing(alloc, server) == *before
}
