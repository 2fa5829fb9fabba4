//! What the exports do with a client.
ghost use Rattle.std.specs.Prelude.{◌≡◌, slice_get};
ghost use Rattle.krl_modes.specs.Names.{all_modes};
ghost use Rattle.krl_embed.specs.Clients as calls;
ghost use Rattle.krl_embed.specs.Endpoints.{IsUntold, OnClient, OfClient};
ghost use Rattle.krl_embed.specs.Frames.{said_frames, WaitsBy};
ghost use Rattle.krl_embed.specs.Replies.{code_of};
ghost use Rattle.krl_embed.specs.Shown.{GoesTo, Leaves};

use crate::code::Code;
use crate::endpoint::{Endpoint, Role};
use crate::frames::Frames;
use crate::reply::Reply;
use crate::rows::{Row, copy_rows};
use krl_client::{Client, CommandRefused, FindAnswer};
use krl_messages::{Items, ToServer, WriteOp};
use krl_modes::Mode;
use krl_wire::{ReadError, to_client_of};
use std::alloc::Global;
use std::mem::replace;

// The code of a refusal.
fn refusal_code(refused: CommandRefused) -> Code
    ensures { result ≡ calls.refusal_code refused }
{
    match refused {
        CommandRefused::OutOfMemory => Code::OutOfMemory,
        CommandRefused::BadPoint => Code::BadPoint,
        CommandRefused::BadSpan => Code::BadSpan,
        CommandRefused::NotJoined => Code::NotJoined,
        CommandRefused::Busy => Code::Busy,
        CommandRefused::NotHeld => Code::NotHeld,
        CommandRefused::Pinned => Code::Pinned,
        CommandRefused::Writing => Code::Writing,
        CommandRefused::TooManyPins => Code::TooManyPins,
        CommandRefused::Spent => Code::Spent,
    }
}

// What these send goes out.
fn say(alloc: Global, outgoing: &mut Frames, messages: &[ToServer]) -> Reply
    ensures waits { WaitsBy (said_frames messages.now) outgoing.old outgoing.new (code_of result) }
    ensures detail { result.detail ≡ 0 }
{
    Reply::of(outgoing.say(alloc, messages))
}

// What a command sends goes out.
fn said(
    alloc: Global,
    outgoing: &mut Frames,
    messages: Result<Vec<ToServer>, CommandRefused>,
) -> Reply
    ensures said { calls.SaidOr messages outgoing.old outgoing.new (code_of result) }
    ensures detail { result.detail ≡ 0 }
{
    match messages {
        Ok(messages) => say(alloc, outgoing, messages.as_slice()),
        Err(refused) => Reply::of(refusal_code(refused)),
    }
}

fn hear(alloc: Global, client: &mut Client, outgoing: &mut Frames, bytes: &[u8]) -> Reply
    ensures { calls.Hears bytes.now client.old outgoing.old client.new outgoing.new result }
{
    let message = match to_client_of(alloc, bytes) {
        Ok(message) => message,
        Err(ReadError::OutOfMemory) => return Reply::of(Code::OutOfMemory),
        Err(ReadError::Fault(fault)) => return Reply::with(Code::BadMessage, fault as u64),
    };
    match client.step(&message) {
        Ok(messages) => say(alloc, outgoing, messages.as_slice()),
        Err(_) => Reply::of(Code::OutOfMemory),
    }
}

/// Gives the client the bytes of a message.
pub(crate) fn step(alloc: Global, endpoint: &mut Endpoint, bytes: &[u8]) -> Reply
    ensures does { OnClient (calls.Hears bytes.now) endpoint.old endpoint.new result }
    ensures notes { endpoint.new.notes ≡ endpoint.old.notes }
{
    match &mut endpoint.role {
        Role::Client(client) => hear(alloc, client, &mut endpoint.outgoing, bytes),
        Role::Left(_) => Reply::of(Code::Gone),
        Role::Server(_) => Reply::of(Code::NoClient),
    }
}

fn say_again(alloc: Global, client: &Client, outgoing: &mut Frames) -> Reply
    ensures { calls.Ticks client.now outgoing.old client.now outgoing.new result }
{
    match client.tick() {
        Ok(messages) => say(alloc, outgoing, messages.as_slice()),
        Err(_) => Reply::of(Code::OutOfMemory),
    }
}

/// sends again what is not answered.
pub(crate) fn tick(alloc: Global, endpoint: &mut Endpoint) -> Reply
    ensures does { OnClient calls.Ticks endpoint.old endpoint.new result }
    ensures notes { endpoint.new.notes ≡ endpoint.old.notes }
{
    match &endpoint.role {
        Role::Client(client) => say_again(alloc, client, &mut endpoint.outgoing),
        Role::Left(_) => Reply::of(Code::Gone),
        Role::Server(_) => Reply::of(Code::NoClient),
    }
}

/// The mode at this place among all modes.
pub(crate) fn mode_at(place: u32) -> Option<Mode>
    ensures { result ≡ slice_get all_modes place }
{
    match Mode::ALL.get(place as usize) {
        Some(mode) => Some(*mode),
        None => None,
    }
}

fn ask(
    alloc: Global,
    client: &mut Client,
    outgoing: &mut Frames,
    point: u64,
    hi: u64,
    mode: u32,
) -> Reply
    ensures { calls.Locks point hi mode client.old outgoing.old client.new outgoing.new result }
{
    let Some(mode) = mode_at(mode) else {
        return Reply::of(Code::BadMode);
    };
    let messages = client.lock(point, hi, mode);
    said(alloc, outgoing, messages)
}

/// Asks for a lock. The mode is given by its place among all modes.
pub(crate) fn lock(alloc: Global, endpoint: &mut Endpoint, point: u64, hi: u64, mode: u32) -> Reply
    ensures does { OnClient (calls.Locks point hi mode) endpoint.old endpoint.new result }
    ensures notes { endpoint.new.notes ≡ endpoint.old.notes }
{
    match &mut endpoint.role {
        Role::Client(client) => ask(alloc, client, &mut endpoint.outgoing, point, hi, mode),
        Role::Left(_) => Reply::of(Code::Gone),
        Role::Server(_) => Reply::of(Code::NoClient),
    }
}

fn change(
    alloc: Global,
    client: &mut Client,
    outgoing: &mut Frames,
    change: Option<WriteOp>,
) -> Reply
    ensures { calls.Writes change client.old outgoing.old client.new outgoing.new result }
{
    let Some(op) = change else {
        return Reply::of(Code::BadValue);
    };
    let messages = client.write(op);
    said(alloc, outgoing, messages)
}

/// Asks for a change. There is none if its value is too long.
pub(crate) fn write(alloc: Global, endpoint: &mut Endpoint, op: Option<WriteOp>) -> Reply
    ensures does { OnClient (calls.Writes op) endpoint.old endpoint.new result }
    ensures notes { endpoint.new.notes ≡ endpoint.old.notes }
{
    match &mut endpoint.role {
        Role::Client(client) => change(alloc, client, &mut endpoint.outgoing, op),
        Role::Left(_) => Reply::of(Code::Gone),
        Role::Server(_) => Reply::of(Code::NoClient),
    }
}

fn change_taking(
    alloc: Global,
    client: &mut Client,
    outgoing: &mut Frames,
    change: Option<WriteOp>,
) -> Reply
    ensures { calls.WritesTaking change client.old outgoing.old client.new outgoing.new result }
{
    let Some(op) = change else {
        return Reply::of(Code::BadValue);
    };
    let messages = client.seize(op);
    said(alloc, outgoing, messages)
}

/// Asks for a change, and for the lock that it needs. There is none if its value is too long.
pub(crate) fn write_taking(alloc: Global, endpoint: &mut Endpoint, op: Option<WriteOp>) -> Reply
    ensures does { OnClient (calls.WritesTaking op) endpoint.old endpoint.new result }
    ensures notes { endpoint.new.notes ≡ endpoint.old.notes }
{
    match &mut endpoint.role {
        Role::Client(client) => change_taking(alloc, client, &mut endpoint.outgoing, op),
        Role::Left(_) => Reply::of(Code::Gone),
        Role::Server(_) => Reply::of(Code::NoClient),
    }
}

fn give_back(
    alloc: Global,
    client: &mut Client,
    outgoing: &mut Frames,
    lo: u64,
    hi: u64,
    keep: Option<Mode>,
) -> Reply
    ensures { calls.Lowers (record { lo = lo; hi = hi }) keep client.old outgoing.old
        client.new outgoing.new result }
{
    let Some(mode) = keep else {
        return Reply::of(Code::BadMode);
    };
    let messages = client.lower(lo, hi, mode);
    said(alloc, outgoing, messages)
}

/// Gives back what the client holds of a span above a mode.
pub(crate) fn lower(
    alloc: Global,
    endpoint: &mut Endpoint,
    lo: u64,
    hi: u64,
    keep: Option<Mode>,
) -> Reply
    ensures does { OnClient (calls.Lowers (record { lo = lo; hi = hi }) keep) endpoint.old
        endpoint.new result }
    ensures notes { endpoint.new.notes ≡ endpoint.old.notes }
{
    match &mut endpoint.role {
        Role::Client(client) => give_back(alloc, client, &mut endpoint.outgoing, lo, hi, keep),
        Role::Left(_) => Reply::of(Code::Gone),
        Role::Server(_) => Reply::of(Code::NoClient),
    }
}

/// Pins a span.
pub(crate) fn pin(endpoint: &mut Endpoint, lo: u64, hi: u64) -> Reply
    ensures does { OnClient (calls.Pins (record { lo = lo; hi = hi })) endpoint.old endpoint.new result }
    ensures notes { endpoint.new.notes ≡ endpoint.old.notes }
{
    match &mut endpoint.role {
        Role::Client(client) => match client.pin(lo, hi) {
            Ok(id) => Reply::with(Code::Done, id),
            Err(refused) => Reply::of(refusal_code(refused)),
        },
        Role::Left(_) => Reply::of(Code::Gone),
        Role::Server(_) => Reply::of(Code::NoClient),
    }
}

/// Frees a pin.
pub(crate) fn unpin(endpoint: &mut Endpoint, id: u64) -> Reply
    ensures does { OnClient (calls.Unpins id) endpoint.old endpoint.new result }
    ensures notes { endpoint.new.notes ≡ endpoint.old.notes }
{
    match &mut endpoint.role {
        Role::Client(client) => match client.unpin(id) {
            Ok(()) => Reply::of(Code::Done),
            Err(refused) => Reply::of(refusal_code(refused)),
        },
        Role::Left(_) => Reply::of(Code::Gone),
        Role::Server(_) => Reply::of(Code::NoClient),
    }
}

fn find(client: &Client, lo: u64, hi: u64, rows: &mut [Row]) -> Reply
    ensures { calls.Scans (record { lo = lo; hi = hi }) rows.old rows.new client.now result }
{
    match client.find(lo, hi) {
        Ok(FindAnswer::Rows(found)) => copy_rows(found, rows),
        Ok(FindAnswer::Miss(point)) => Reply::with(Code::Miss, point),
        Ok(FindAnswer::Pending(key)) => Reply::with(Code::Pending, key),
        Err(refused) => Reply::of(refusal_code(refused)),
    }
}

/// Scans the client's cache.
pub(crate) fn scan(endpoint: &Endpoint, lo: u64, hi: u64, rows: &mut [Row]) -> Reply
    ensures { OfClient (IsUntold rows.old rows.new)
        (calls.Scans (record { lo = lo; hi = hi }) rows.old rows.new) endpoint.now.role result }
{
    match &endpoint.role {
        Role::Client(client) => find(client, lo, hi, rows),
        Role::Left(_) => Reply::of(Code::Gone),
        Role::Server(_) => Reply::of(Code::NoClient),
    }
}

// The role after a leave.
fn gone(role: Role) -> (Role, Code)
    ensures { GoesTo role result.0 result.1 }
{
    match role {
        Role::Client(client) => match client.leave() {
            Ok(bye) => (Role::Left(Items::from(bye)), Code::Done),
            Err(client) => (Role::Client(client), Code::OutOfMemory),
        },
        Role::Left(bye) => (Role::Left(bye), Code::Done),
        Role::Server(server) => (Role::Server(server), Code::NoClient),
    }
}

/// Sends Bye: the client is gone. One that is gone already sends it again.
pub(crate) fn leave(alloc: Global, endpoint: &mut Endpoint) -> Reply
    ensures does { Leaves endpoint.old endpoint.new result }
    ensures notes { endpoint.new.notes ≡ endpoint.old.notes }
{
    let role = replace(&mut endpoint.role, Role::Left(Items::from(Vec::new(alloc))));
    let (role, code) = gone(role);
    endpoint.role = role;
    match &endpoint.role {
        Role::Left(bye) => say(alloc, &mut endpoint.outgoing, bye.as_slice()),
        Role::Client(_) | Role::Server(_) => Reply::of(code),
    }
}
