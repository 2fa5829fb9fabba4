//! Exports on clients.
ghost use Rattle.std.specs.Prelude.{◌≡◌, Some, None, OnOk, IfOk, IfErr, unwrap_or, slice_get};
ghost use Rattle.krl_modes.specs.Names.{all_modes};
ghost use Rattle.krl_modes.specs.declared.mode.Mode.TheVariants.{N};
ghost use Rattle.krl_client.specs.Fields.{meaning};
ghost use Rattle.krl_embed.specs.Opening as opening;
ghost use Rattle.krl_embed.specs.declared.code.Code.TheVariants as code;
ghost use Rattle.krl_embed.specs.Shown as shown;
ghost use Rattle.krl_messages.specs.declared.write_op.WriteOp.TheVariants as op;
ghost use Rattle.krl_embed.specs.Clients as calls;
ghost use Rattle.krl_embed.specs.Endpoints.{IsCode, IsUntold, OnHandle, OnClient, Shows};
ghost use Rattle.krl_embed.specs.Endpoints.{OfClient};
ghost use Rattle.krl_embed.specs.Notes.{notes_of};

use crate::client_calls;
use crate::client_shows::{self, ClientState, Held};
use crate::code::Code;
use crate::endpoint::{Endpoint, Role};
use crate::frames::Frames;
use crate::handle::{Handle, put, take};
use crate::notes::Notes;
use crate::reply::Reply;
use crate::rows::Row;
use krl_client::{Client, StartRefused};
use krl_messages::{Value, WriteOp};
use krl_modes::{MAX_CLIENTS, Mode};
use std::alloc::Global;

// A client that starts, and its Hello. The library's own start takes an incarnation of 0, whose
// messages every server ignores.
fn start(alloc: Global, number: u64, incarnation: u64) -> Result<Endpoint, Code>
    ensures none_due { OnOk result (opening.client_refusal number incarnation ≡ None) }
    ensures begun { IfOk result (opening.IsBegun number incarnation) }
    ensures why { IfErr result
        (λ refused. refused
        ≡ unwrap_or (opening.client_refusal number incarnation) code.OutOfMemory) }
{
    if number < MAX_CLIENTS as u64 && incarnation == 0 {
        return Err(Code::BadIncarnation);
    }
    let (client, hello) = match Client::start(alloc, number, incarnation) {
        Ok(started) => started,
        Err(StartRefused::BadClient) => return Err(Code::BadClient),
        Err(StartRefused::Spent) => return Err(Code::Spent),
    };
    let notes = match Notes::opening(alloc) {
        Ok(notes) => notes,
        Err(_) => return Err(Code::OutOfMemory),
    };
    let mut outgoing = Frames::empty(alloc);
    match outgoing.say(alloc, &[hello]) {
        Code::Done => Ok(Endpoint {
            role: Role::Client(client),
            outgoing,
            notes,
        }),
        _ => Err(Code::OutOfMemory),
    }
}

/// Starts a client in a closed handle.
#[unsafe(no_mangle)]
pub extern "C" fn krl_client_open(
    alloc: Global,
    handle: &mut Handle,
    number: u64,
    incarnation: u64,
) -> Reply
    ensures { opening.Begins number incarnation handle.old.owned.value handle.new.owned.value
        result }
{
    if let Some(endpoint) = take(alloc, handle) {
        put(handle, endpoint);
        return Reply::of(Code::OpenAlready);
    }
    let endpoint = match start(alloc, number, incarnation) {
        Ok(endpoint) => endpoint,
        Err(code) => return Reply::of(code),
    };
    match Box::new(alloc, endpoint) {
        Ok(endpoint) => {
            put(handle, endpoint);
            Reply::of(Code::Done)
        }
        Err(_) => Reply::of(Code::OutOfMemory),
    }
}

/// Gives the client the bytes of a message.
#[unsafe(no_mangle)]
pub extern "C" fn krl_client_step(alloc: Global, handle: &mut Handle, bytes: &[u8]) -> Reply
    ensures does { OnHandle IsCode (OnClient (calls.Hears bytes.now))
        handle.old.owned.value handle.new.owned.value result }
    ensures notes { notes_of handle.new.owned.value ≡ notes_of handle.old.owned.value }
{
    let Some(mut endpoint) = take(alloc, handle) else {
        return Reply::of(Code::Closed);
    };
    let reply = client_calls::step(alloc, &mut endpoint, bytes);
    put(handle, endpoint);
    reply
}

/// sends again what is not answered.
#[unsafe(no_mangle)]
pub extern "C" fn krl_client_tick(alloc: Global, handle: &mut Handle) -> Reply
    ensures does { OnHandle IsCode (OnClient calls.Ticks)
        handle.old.owned.value handle.new.owned.value result }
    ensures notes { notes_of handle.new.owned.value ≡ notes_of handle.old.owned.value }
{
    let Some(mut endpoint) = take(alloc, handle) else {
        return Reply::of(Code::Closed);
    };
    let reply = client_calls::tick(alloc, &mut endpoint);
    put(handle, endpoint);
    reply
}

/// Asks for a lock.
#[unsafe(no_mangle)]
pub extern "C" fn krl_client_lock(
    alloc: Global,
    handle: &mut Handle,
    point: u64,
    hi: u64,
    mode: u32,
) -> Reply
    ensures does { OnHandle IsCode (OnClient (calls.Locks point hi mode))
        handle.old.owned.value handle.new.owned.value result }
    ensures notes { notes_of handle.new.owned.value ≡ notes_of handle.old.owned.value }
{
    let Some(mut endpoint) = take(alloc, handle) else {
        return Reply::of(Code::Closed);
    };
    let reply = client_calls::lock(alloc, &mut endpoint, point, hi, mode);
    put(handle, endpoint);
    reply
}

fn write(alloc: Global, handle: &mut Handle, change: Option<WriteOp>) -> Reply
    ensures does { OnHandle IsCode (OnClient (calls.Writes change))
        handle.old.owned.value handle.new.owned.value result }
    ensures notes { notes_of handle.new.owned.value ≡ notes_of handle.old.owned.value }
{
    let Some(mut endpoint) = take(alloc, handle) else {
        return Reply::of(Code::Closed);
    };
    let reply = client_calls::write(alloc, &mut endpoint, change);
    put(handle, endpoint);
    reply
}

fn write_taking(alloc: Global, handle: &mut Handle, change: Option<WriteOp>) -> Reply
    ensures does { OnHandle IsCode (OnClient (calls.WritesTaking change))
        handle.old.owned.value handle.new.owned.value result }
    ensures notes { notes_of handle.new.owned.value ≡ notes_of handle.old.owned.value }
{
    let Some(mut endpoint) = take(alloc, handle) else {
        return Reply::of(Code::Closed);
    };
    let reply = client_calls::write_taking(alloc, &mut endpoint, change);
    put(handle, endpoint);
    reply
}

// An insert, if the value has at most 32 bytes.
fn insert_of(key: u64, bytes: &[u8]) -> Option<WriteOp>
    ensures { result ≡ calls.insert_of key bytes.now }
{
    let value = Value::new(bytes)?;
    Some(WriteOp::Insert { key, value })
}

// A put, if the value has at most 32 bytes.
fn put_of(key: u64, bytes: &[u8]) -> Option<WriteOp>
    ensures { result ≡ calls.put_of key bytes.now }
{
    let value = Value::new(bytes)?;
    Some(WriteOp::Put { key, value })
}

/// Asks for an insert.
#[unsafe(no_mangle)]
pub extern "C" fn krl_client_insert(
    alloc: Global,
    handle: &mut Handle,
    key: u64,
    bytes: &[u8],
) -> Reply
    ensures does { OnHandle IsCode (OnClient (calls.Writes (calls.insert_of key bytes.now)))
        handle.old.owned.value handle.new.owned.value result }
    ensures notes { notes_of handle.new.owned.value ≡ notes_of handle.old.owned.value }
{
    write(alloc, handle, insert_of(key, bytes))
}

/// Asks for a put.
#[unsafe(no_mangle)]
pub extern "C" fn krl_client_put(
    alloc: Global,
    handle: &mut Handle,
    key: u64,
    bytes: &[u8],
) -> Reply
    ensures does { OnHandle IsCode (OnClient (calls.Writes (calls.put_of key bytes.now)))
        handle.old.owned.value handle.new.owned.value result }
    ensures notes { notes_of handle.new.owned.value ≡ notes_of handle.old.owned.value }
{
    write(alloc, handle, put_of(key, bytes))
}

/// Asks for a delete.
#[unsafe(no_mangle)]
pub extern "C" fn krl_client_delete(alloc: Global, handle: &mut Handle, key: u64) -> Reply
    ensures does { OnHandle IsCode (OnClient (calls.Writes (Some (op.Delete key))))
        handle.old.owned.value handle.new.owned.value result }
    ensures notes { notes_of handle.new.owned.value ≡ notes_of handle.old.owned.value }
{
    write(alloc, handle, Some(WriteOp::Delete { key }))
}

/// Asks for an insert, and for the lock that it needs.
#[unsafe(no_mangle)]
pub extern "C" fn krl_client_take_insert(
    alloc: Global,
    handle: &mut Handle,
    key: u64,
    bytes: &[u8],
) -> Reply
    ensures does { OnHandle IsCode (OnClient (calls.WritesTaking (calls.insert_of key bytes.now)))
        handle.old.owned.value handle.new.owned.value result }
    ensures notes { notes_of handle.new.owned.value ≡ notes_of handle.old.owned.value }
{
    write_taking(alloc, handle, insert_of(key, bytes))
}

/// Asks for a put, and for the lock that it needs.
#[unsafe(no_mangle)]
pub extern "C" fn krl_client_take_put(
    alloc: Global,
    handle: &mut Handle,
    key: u64,
    bytes: &[u8],
) -> Reply
    ensures does { OnHandle IsCode (OnClient (calls.WritesTaking (calls.put_of key bytes.now)))
        handle.old.owned.value handle.new.owned.value result }
    ensures notes { notes_of handle.new.owned.value ≡ notes_of handle.old.owned.value }
{
    write_taking(alloc, handle, put_of(key, bytes))
}

/// Scans the client's cache.
#[unsafe(no_mangle)]
pub extern "C" fn krl_client_scan(
    alloc: Global,
    handle: &mut Handle,
    lo: u64,
    hi: u64,
    rows: &mut [Row],
) -> Reply
    ensures unchanged { handle.new.owned.value ≡ handle.old.owned.value }
    ensures answer { Shows (IsUntold rows.old rows.new) (OfClient (IsUntold rows.old rows.new)
        (calls.Scans (record { lo = lo; hi = hi }) rows.old rows.new))
        handle.old.owned.value result }
{
    let Some(endpoint) = take(alloc, handle) else {
        return Reply::of(Code::Closed);
    };
    let reply = client_calls::scan(&endpoint, lo, hi, rows);
    put(handle, endpoint);
    reply
}

fn lower(alloc: Global, handle: &mut Handle, lo: u64, hi: u64, keep: Option<Mode>) -> Reply
    ensures does { OnHandle IsCode (OnClient (calls.Lowers (record { lo = lo; hi = hi }) keep))
        handle.old.owned.value handle.new.owned.value result }
    ensures notes { notes_of handle.new.owned.value ≡ notes_of handle.old.owned.value }
{
    let Some(mut endpoint) = take(alloc, handle) else {
        return Reply::of(Code::Closed);
    };
    let reply = client_calls::lower(alloc, &mut endpoint, lo, hi, keep);
    put(handle, endpoint);
    reply
}

/// Gives back what the client holds of a span.
#[unsafe(no_mangle)]
pub extern "C" fn krl_client_forget(alloc: Global, handle: &mut Handle, lo: u64, hi: u64) -> Reply
    ensures does { OnHandle IsCode
        (OnClient (calls.Lowers (record { lo = lo; hi = hi }) (Some N)))
        handle.old.owned.value handle.new.owned.value result }
    ensures notes { notes_of handle.new.owned.value ≡ notes_of handle.old.owned.value }
{
    lower(alloc, handle, lo, hi, Some(Mode::N))
}

/// Gives back what the client holds of a span above a mode. The mode is given by its place among
/// all modes.
#[unsafe(no_mangle)]
pub extern "C" fn krl_client_lower(
    alloc: Global,
    handle: &mut Handle,
    lo: u64,
    hi: u64,
    keep: u32,
) -> Reply
    ensures does { OnHandle IsCode
        (OnClient (calls.Lowers (record { lo = lo; hi = hi }) (slice_get all_modes keep)))
        handle.old.owned.value handle.new.owned.value result }
    ensures notes { notes_of handle.new.owned.value ≡ notes_of handle.old.owned.value }
{
    lower(alloc, handle, lo, hi, client_calls::mode_at(keep))
}

/// Pins a span.
#[unsafe(no_mangle)]
pub extern "C" fn krl_client_pin(alloc: Global, handle: &mut Handle, lo: u64, hi: u64) -> Reply
    ensures does { OnHandle IsCode (OnClient (calls.Pins (record { lo = lo; hi = hi })))
        handle.old.owned.value handle.new.owned.value result }
    ensures notes { notes_of handle.new.owned.value ≡ notes_of handle.old.owned.value }
{
    let Some(mut endpoint) = take(alloc, handle) else {
        return Reply::of(Code::Closed);
    };
    let reply = client_calls::pin(&mut endpoint, lo, hi);
    put(handle, endpoint);
    reply
}

/// Frees a pin.
#[unsafe(no_mangle)]
pub extern "C" fn krl_client_unpin(alloc: Global, handle: &mut Handle, id: u64) -> Reply
    ensures does { OnHandle IsCode (OnClient (calls.Unpins id))
        handle.old.owned.value handle.new.owned.value result }
    ensures notes { notes_of handle.new.owned.value ≡ notes_of handle.old.owned.value }
{
    let Some(mut endpoint) = take(alloc, handle) else {
        return Reply::of(Code::Closed);
    };
    let reply = client_calls::unpin(&mut endpoint, id);
    put(handle, endpoint);
    reply
}

/// What the client believes that it holds at a point.
#[unsafe(no_mangle)]
pub extern "C" fn krl_client_held(alloc: Global, handle: &mut Handle, point: u64) -> Held
    ensures unchanged { handle.new.owned.value ≡ handle.old.owned.value }
    ensures answer { Shows shown.HoldsNothing
        (OfClient shown.HoldsNothing (λ k r. shown.IsHeld (meaning k) point r))
        handle.old.owned.value result }
{
    let Some(endpoint) = take(alloc, handle) else {
        return Held::blank(Code::Closed);
    };
    let held = client_shows::held_at(&endpoint, point);
    put(handle, endpoint);
    held
}

/// What the client shows of itself.
#[unsafe(no_mangle)]
pub extern "C" fn krl_client_status(alloc: Global, handle: &mut Handle) -> ClientState
    ensures unchanged { handle.new.owned.value ≡ handle.old.owned.value }
    ensures answer { Shows shown.IsBlank
        (OfClient shown.IsBlank (λ k r. shown.IsState (meaning k) r))
        handle.old.owned.value result }
{
    let Some(endpoint) = take(alloc, handle) else {
        return ClientState::blank(Code::Closed);
    };
    let state = client_shows::status(&endpoint);
    put(handle, endpoint);
    state
}

/// Sends Bye. A client that has left sends it again.
#[unsafe(no_mangle)]
pub extern "C" fn krl_client_leave(alloc: Global, handle: &mut Handle) -> Reply
    ensures does { OnHandle IsCode shown.Leaves handle.old.owned.value handle.new.owned.value result }
    ensures notes { notes_of handle.new.owned.value ≡ notes_of handle.old.owned.value }
{
    let Some(mut endpoint) = take(alloc, handle) else {
        return Reply::of(Code::Closed);
    };
    let reply = client_calls::leave(alloc, &mut endpoint);
    put(handle, endpoint);
    reply
}
