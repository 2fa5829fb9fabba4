//! Exports on either, and on messages only.
ghost use Rattle.std.specs.Prelude.{◌≡◌, ◌≤◌, None, length};
ghost use Rattle.krl_embed.specs.Endpoints.{IsCode, IsUntold, OnHandle};
ghost use Rattle.krl_wire.specs.Reading as reading;
ghost use Rattle.krl_wire.specs.Spelling as wire;
ghost use Rattle.krl_embed.specs.Notes.{Takes, TakesReady, ConfirmsNotes};
ghost use Rattle.krl_embed.specs.Respelling.{Respells};
ghost use Rattle.krl_embed.specs.Shown.{Copies};

use crate::code::Code;
use crate::endpoint::Endpoint;
use crate::handle::{Handle, put, take};
use crate::reply::Reply;
use krl_wire::{
    ReadError, has_counts, spell_to_client, spell_to_server, to_client_of, to_server_of,
};
use std::alloc::Global;

/// Confirms that the first so many notes are on the host's disk: the opening is the first, and each
/// change of a server is one more.
#[unsafe(no_mangle)]
pub extern "C" fn krl_confirm(alloc: Global, handle: &mut Handle, count: u64) -> Reply
    ensures { OnHandle IsCode (ConfirmsNotes count) handle.old.owned.value handle.new.owned.value
        result }
{
    match take(alloc, handle) {
        Some(mut endpoint) => {
            let reply = endpoint.notes.confirm(count);
            put(handle, endpoint);
            reply
        }
        None => Reply::of(Code::Closed),
    }
}

// So many bytes of what waits go into `bytes`: Done; or TooShort, and none is taken. The detail is
// how many bytes that is.
fn take_ready(endpoint: &mut Endpoint, ready: usize, bytes: &mut [u8]) -> Reply
    requires { ready ≤ length endpoint.old.outgoing }
    ensures { TakesReady ready bytes.old bytes.new endpoint.old endpoint.new result }
{
    if bytes.len() < ready {
        return Reply::with(Code::TooShort, ready as u64);
    }
    endpoint.outgoing.give(ready, bytes);
    endpoint.notes.give(ready);
    Reply::with(Code::Done, ready as u64)
}

// Takes what rests on confirmed notes only: Done; or Unkept, if that is nothing, and something
// waits.
fn take_confirmed(endpoint: &mut Endpoint, bytes: &mut [u8]) -> Reply
    ensures { Takes bytes.old bytes.new endpoint.old endpoint.new result }
{
    let waiting = endpoint.outgoing.len();
    let ready = endpoint.notes.ready(waiting);
    if ready == 0 && waiting != 0 {
        return Reply::with(Code::Unkept, endpoint.notes.reported());
    }
    take_ready(endpoint, ready, bytes)
}

/// Takes the frames that wait to be sent, as far as they rest on confirmed notes only.
#[unsafe(no_mangle)]
pub extern "C" fn krl_take(alloc: Global, handle: &mut Handle, bytes: &mut [u8]) -> Reply
    ensures { OnHandle (IsUntold bytes.old bytes.new) (Takes bytes.old bytes.new)
        handle.old.owned.value handle.new.owned.value result }
{
    let Some(mut endpoint) = take(alloc, handle) else {
        return Reply::of(Code::Closed);
    };
    let reply = take_confirmed(&mut endpoint, bytes);
    put(handle, endpoint);
    reply
}

/// Closes the handle: what it kept is freed. A client sends nothing.
#[unsafe(no_mangle)]
pub extern "C" fn krl_close(alloc: Global, handle: &mut Handle)
    ensures { handle.new.owned.value ≡ None }
{
    let _ = take(alloc, handle);
}

// The bytes go into `spelling`: Done, and their count; or TooShort with that, and none goes there.
fn copy_bytes(found: &[u8], spelling: &mut [u8]) -> Reply
    ensures { Copies found.now spelling.old spelling.new result }
{
    let count = found.len();
    if spelling.len() < count {
        return Reply::with(Code::TooShort, count as u64);
    }
    spelling[..count].copy_from_slice(found);
    Reply::with(Code::Done, count as u64)
}

/// Reads a message to the server, and writes its spelling: the same bytes.
#[unsafe(no_mangle)]
pub extern "C" fn krl_respell_to_server(alloc: Global, bytes: &[u8], spelling: &mut [u8]) -> Reply
    ensures { Respells reading.to_server_of wire.to_server bytes.now
        spelling.old spelling.new result }
{
    let message = match to_server_of(alloc, bytes) {
        Ok(message) => message,
        Err(ReadError::OutOfMemory) => return Reply::of(Code::OutOfMemory),
        Err(ReadError::Fault(fault)) => return Reply::with(Code::BadMessage, fault as u64),
    };
    if !has_counts(&message) {
        return Reply::of(Code::OutOfMemory);
    }
    match spell_to_server(alloc, &message) {
        Ok(spelled) => copy_bytes(&spelled, spelling),
        Err(_) => Reply::of(Code::OutOfMemory),
    }
}

/// Reads a message to a client, and writes its spelling: the same bytes.
#[unsafe(no_mangle)]
pub extern "C" fn krl_respell_to_client(alloc: Global, bytes: &[u8], spelling: &mut [u8]) -> Reply
    ensures { Respells reading.to_client_of wire.to_client bytes.now
        spelling.old spelling.new result }
{
    let message = match to_client_of(alloc, bytes) {
        Ok(message) => message,
        Err(ReadError::OutOfMemory) => return Reply::of(Code::OutOfMemory),
        Err(ReadError::Fault(fault)) => return Reply::with(Code::BadMessage, fault as u64),
    };
    match spell_to_client(alloc, &message) {
        Ok(spelled) => copy_bytes(&spelled, spelling),
        Err(_) => Reply::of(Code::OutOfMemory),
    }
}
