//! Servers that start on what survives, and starts that are refused.
use crate::again::CALLS;
use crate::shows::{Survives, surviving};
use krl_durable::Durable;
use krl_modes::END;
use krl_server::{NotStarted, Server, ServerNotStarted};
use std::alloc::Global;

// Whether a start was refused so, and what survives came back as it was.
fn is_refused(not_started: &NotStarted, refused: ServerNotStarted, before: &Survives) -> bool {
    not_started.refused == refused && surviving(&not_started.durable) == *before
}

// A server on what survives. If a start is refused memory that comes back as it was, and the
// start is made again, twice at most.
pub fn started(alloc: Global, durable: Durable) -> Option<Server> {
    let before = surviving(&durable);
    let mut durable = durable;
    for _ in 0..CALLS {
        match Server::start(alloc, durable) {
            Ok(server) => return Some(server),
            Err(not_started) => {
                if !is_refused(&not_started, ServerNotStarted::OutOfMemory, &before) {
                    return None;
                }
                durable = not_started.durable;
            }
        }
    }
    None
}

// Whether a server is refused on what survives since it is of the last epoch, and that comes back
// as it was.
pub fn is_spent(alloc: Global, durable: Option<Durable>) -> bool {
    let Some(durable) = durable else {
        return false;
    };
    let before = surviving(&durable);
    match Server::start(alloc, durable) {
        Ok(_) => false,
        Err(not_started) => {
            before.epoch == END && is_refused(&not_started, ServerNotStarted::Spent, &before)
        }
    }
}
