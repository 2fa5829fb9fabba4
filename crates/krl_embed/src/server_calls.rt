//! What the exports do with a server.
ghost use Rattle.std.specs.Prelude.{◌≡◌, length};
ghost use Rattle.krl_embed.specs.Endpoints.{IsCode, IsUntold, OfServer};
ghost use Rattle.krl_embed.specs.Shown as shown;
ghost use Rattle.krl_embed.specs.Changes.{unchanged};
ghost use Rattle.krl_embed.specs.Servers as calls;
ghost use Rattle.krl_embed.specs.Servers.{OnServer, IsUnchanged};
ghost use Rattle.krl_embed.specs.Replies.{code_of};
ghost use Rattle.krl_embed.specs.Notes.{counted};

use crate::changes::ChangeRow;
use crate::code::Code;
use crate::endpoint::{Endpoint, Role};
use crate::frames::Frames;
use crate::notes::Notes;
use crate::records::RecordRow;
use crate::reply::Reply;
use krl_messages::ToServer;
use krl_server::{Phase, Server};
use krl_wire::{ReadError, to_server_of};
use std::alloc::Global;

/// What a step answers: the code, and what it changed of what survives.
#[repr(C)]
#[derive(Clone, Copy)]
pub struct Stepped {
    reply: Reply,
    change: ChangeRow,
}

/// What a server shows of itself.
#[repr(C)]
#[derive(Clone, Copy)]
pub struct ServerState {
    reply: Reply,
    epoch: u64,
    phase: u64,
}

/// A client's record at a server.
#[repr(C)]
#[derive(Clone, Copy)]
pub struct Recorded {
    reply: Reply,
    record: RecordRow,
}

impl Stepped {
    /// Nothing has changed, by this reply.
    pub(crate) fn unchanged(reply: Reply) -> Stepped
        ensures reply { result.reply ≡ reply }
        ensures change { result.change ≡ unchanged }
    {
        Stepped {
            reply,
            change: ChangeRow::none(),
        }
    }
}

impl ServerState {
    /// Nothing is shown, by this code.
    pub(crate) fn blank(code: Code) -> ServerState
        ensures { shown.IsNoServerState code result }
    {
        ServerState {
            reply: Reply::of(code),
            epoch: 0,
            phase: 0,
        }
    }
}

impl Recorded {
    /// No record, by this code.
    pub(crate) fn blank(code: Code) -> Recorded
        ensures { shown.IsNotRecorded code result }
    {
        Recorded {
            reply: Reply::of(code),
            record: RecordRow::blank(),
        }
    }
}

/// Gives the server the bytes of a message.
pub(crate) fn step(alloc: Global, endpoint: &mut Endpoint, bytes: &[u8]) -> Stepped
    ensures does { OnServer IsUnchanged (calls.Hears bytes.now) endpoint.old endpoint.new result }
    ensures notes { endpoint.new.notes
        ≡ counted (length endpoint.old.outgoing) result.change endpoint.old.notes }
{
    let Endpoint {
        role,
        outgoing,
        notes,
    } = endpoint;
    match role {
        Role::Server(server) => hear(alloc, server, outgoing, notes, bytes),
        Role::Client(_) | Role::Left(_) => Stepped::unchanged(Reply::of(Code::NoServer)),
    }
}

fn hear(
    alloc: Global,
    server: &mut Server,
    outgoing: &mut Frames,
    notes: &mut Notes,
    bytes: &[u8],
) -> Stepped
    ensures does { calls.Hears bytes.now server.old outgoing.old server.new outgoing.new result }
    ensures notes { notes.new ≡ counted (length outgoing.old) result.change notes.old }
{
    match to_server_of(alloc, bytes) {
        Ok(message) => act(alloc, server, outgoing, notes, &message),
        Err(ReadError::OutOfMemory) => Stepped::unchanged(Reply::of(Code::OutOfMemory)),
        Err(ReadError::Fault(fault)) => {
            Stepped::unchanged(Reply::with(Code::BadMessage, fault as u64))
        }
    }
}

// The server takes a message. If that changes something, the change is a note.
fn act(
    alloc: Global,
    server: &mut Server,
    outgoing: &mut Frames,
    notes: &mut Notes,
    message: &ToServer,
) -> Stepped
    ensures does { calls.Acts message.now server.old outgoing.old server.new outgoing.new result
        (code_of result.reply) }
    ensures notes { notes.new ≡ counted (length outgoing.old) result.change notes.old }
{
    // A note takes memory: it is reported before anything has changed.
    if notes.report(outgoing.len()).is_err() {
        return Stepped::unchanged(Reply::of(Code::OutOfMemory));
    }
    let stepped = take_message(alloc, server, outgoing, message);
    if !stepped.change.is_change() {
        notes.withdraw();
    }
    stepped
}

fn take_message(
    alloc: Global,
    server: &mut Server,
    outgoing: &mut Frames,
    message: &ToServer,
) -> Stepped
    ensures { calls.Acts message.now server.old outgoing.old server.new outgoing.new result
        (code_of result.reply) }
{
    let out = match server.step(alloc, message) {
        Ok(out) => out,
        Err(_) => return Stepped::unchanged(Reply::of(Code::OutOfMemory)),
    };
    if let Some(client) = out.alarm {
        return Stepped::unchanged(Reply::with(Code::Alarm, client));
    }
    let code = outgoing.tell(alloc, out.messages.as_slice());
    Stepped {
        reply: Reply::of(code),
        change: ChangeRow::of(&out.change),
    }
}

fn say_again(alloc: Global, server: &Server, outgoing: &mut Frames, client: u64) -> Reply
    ensures { calls.Nudges client server.now outgoing.old server.now outgoing.new result }
{
    match server.nudge(alloc, client) {
        Ok(messages) => Reply::of(outgoing.tell(alloc, messages.as_slice())),
        Err(_) => Reply::of(Code::OutOfMemory),
    }
}

/// Sends again to a client what it may have missed.
pub(crate) fn nudge(alloc: Global, endpoint: &mut Endpoint, client: u64) -> Reply
    ensures does { OnServer IsCode (calls.Nudges client) endpoint.old endpoint.new result }
    ensures notes { endpoint.new.notes ≡ endpoint.old.notes }
{
    match &endpoint.role {
        Role::Server(server) => say_again(alloc, server, &mut endpoint.outgoing, client),
        Role::Client(_) | Role::Left(_) => Reply::of(Code::NoServer),
    }
}

/// The server's epoch and phase.
pub(crate) fn status(endpoint: &Endpoint) -> ServerState
    ensures { OfServer shown.IsNoServerState shown.IsServerState endpoint.now.role result }
{
    match &endpoint.role {
        Role::Server(server) => ServerState {
            reply: Reply::of(Code::Done),
            epoch: server.durable().epoch(),
            phase: match server.phase() {
                Phase::Recovering => 0,
                Phase::Serving => 1,
            },
        },
        Role::Client(_) | Role::Left(_) => ServerState::blank(Code::NoServer),
    }
}

// The numbers go into `clients`: Done, and their count; or TooShort with that, and none goes there.
pub(crate) fn copy_clients(found: &[u64], clients: &mut [u64]) -> Reply
    ensures { shown.Copies found.now clients.old clients.new result }
{
    let count = found.len();
    if clients.len() < count {
        return Reply::with(Code::TooShort, count as u64);
    }
    clients[..count].copy_from_slice(found);
    Reply::with(Code::Done, count as u64)
}

/// The clients that the server waits for.
pub(crate) fn missing(alloc: Global, endpoint: &Endpoint, clients: &mut [u64]) -> Reply
    ensures { OfServer (IsUntold clients.old clients.new)
        (shown.TellsMissing clients.old clients.new) endpoint.now.role result }
{
    match &endpoint.role {
        Role::Server(server) => match server.missing(alloc) {
            Ok(found) => copy_clients(found.as_slice(), clients),
            Err(_) => Reply::of(Code::OutOfMemory),
        },
        Role::Client(_) | Role::Left(_) => Reply::of(Code::NoServer),
    }
}

/// What is kept of a client.
pub(crate) fn record(endpoint: &Endpoint, client: u64) -> Recorded
    ensures { OfServer shown.IsNotRecorded (shown.IsRecorded client) endpoint.now.role result }
{
    match &endpoint.role {
        Role::Server(server) => match server.durable().record(client) {
            Some(record) => Recorded {
                reply: Reply::of(Code::Done),
                record: RecordRow::of(client, record),
            },
            None => Recorded::blank(Code::BadClient),
        },
        Role::Client(_) | Role::Left(_) => Recorded::blank(Code::NoServer),
    }
}
