//! What is read of a world, as a line.
ghost use Rattle.std.specs.Prelude.{◌≡◌, IfOk};
ghost use Rattle.krl_client.specs.Clients as clients;
ghost use Rattle.krl_world.specs.States.{client_of};
ghost use Rattle.krl_world.specs.Fields as world_fields;
ghost use Rattle.krl_text.specs.Printing.{status_line, list_line, check_line};
ghost use Rattle.krl_script.specs.Shown.{missing_line, shown_lines};
ghost use Rattle.krl_script.specs.Soundness.{unsound_point};

use crate::soundness::unsound_point;
use krl_modes::MAX_CLIENTS;
use krl_server::Server;
use krl_text::Query;
use krl_text::print::refused;
use krl_text::shown::{held, index, running, unreported, writes};
use krl_world::{Refused, World};
use std::alloc::{AllocError, Global};

// The line of a client's state. A client above 63 is refused.
fn status(alloc: Global, world: &World, client: u64) -> Result<String, AllocError>
    ensures { IfOk result (λ line. line.bytes.items ≡
        status_line client (client_of (world_fields.meaning world.now) client)) }
{
    if client >= MAX_CLIENTS as u64 {
        return refused(alloc, Refused::BadClient);
    }
    match world.client(client) {
        None => format!(in alloc; "status down\n"),
        Some(client) => running(alloc, client.status()),
    }
}

// The line of the clients that have not reported to the server.
fn missing(alloc: Global, server: &Server) -> Result<String, AllocError>
    ensures { IfOk result (λ line. line.bytes.items ≡ list_line server.now.missing) }
{
    let clients = server.missing(alloc)?;
    unreported(alloc, clients.as_slice())
}

// The same, if a server runs.
fn server(alloc: Global, world: &World) -> Result<String, AllocError>
    ensures { IfOk result (λ line.
        line.bytes.items ≡ missing_line (world_fields.node_of world.now.server)) }
{
    match world.server() {
        None => format!(in alloc; "down\n"),
        Some(server) => missing(alloc, server),
    }
}

// The line of whether what clients hold is compatible.
fn check(alloc: Global, world: &World) -> Result<String, AllocError>
    ensures { IfOk result (λ line.
        line.bytes.items ≡ check_line (unsound_point (world_fields.meaning world.now))) }
{
    match unsound_point(world) {
        None => format!(in alloc; "sound\n"),
        Some(point) => format!(in alloc; "unsound {point}\n"),
    }
}

/// The line of what is read of a world.
pub fn line(alloc: Global, world: &World, what: Query) -> Result<String, AllocError>
    ensures { IfOk result (λ line.
        line.bytes.items ≡ shown_lines (world_fields.meaning world.now) what) }
{
    match what {
        Query::Hold { client, point } => {
            let (range, key) = world.held(client, point);
            held(alloc, client, point, range, key)
        }
        Query::Status(client) => status(alloc, world, client),
        Query::Missing => server(alloc, world),
        Query::Index => index(alloc, &world.index()),
        Query::Writes => writes(alloc, world.writes()),
        Query::Check => check(alloc, world),
    }
}
