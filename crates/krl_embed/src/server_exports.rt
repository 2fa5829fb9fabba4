//! Exports on servers.
ghost use Rattle.std.specs.Prelude.{◌≡◌};
ghost use Rattle.krl_embed.specs.Endpoints.{IsCode, IsUntold, OnHandle, Shows, OfServer};
ghost use Rattle.krl_embed.specs.Opening as opening;
ghost use Rattle.krl_embed.specs.Shown as shown;
ghost use Rattle.krl_embed.specs.Servers as calls;
ghost use Rattle.krl_embed.specs.Servers.{OnServer, IsUnchanged};
ghost use Rattle.krl_embed.specs.Waits as waits;
ghost use Rattle.krl_embed.specs.Notes.{notes_of, counted_in};
ghost use Rattle.krl_embed.specs.Pages as pages;
ghost use Rattle.krl_embed.specs.Replies.{code_of};

use crate::code::Code;
use crate::endpoint::{Endpoint, Role};
use crate::frames::Frames;
use crate::handle::{Handle, put, take};
use crate::notes::Notes;
use crate::opening::{limits_of, start};
use crate::page::{Page, read_page};
use crate::records::RecordRow;
use crate::reply::Reply;
use crate::rows::Row;
use crate::server_calls::{self, Recorded, ServerState, Stepped};
use crate::server_shows::{self, HeldSlot, Waiting};
use std::alloc::Global;

/// Starts a server on what was kept, with room for so many entries and grants of up to so many
/// slots, in a closed handle. The detail is its epoch.
#[unsafe(no_mangle)]
pub extern "C" fn krl_server_open(
    alloc: Global,
    handle: &mut Handle,
    room: usize,
    reach: usize,
    epoch: u64,
    entries: &[Row],
    records: &[RecordRow],
) -> Reply
    ensures { opening.Opens (record { room = room; reach = reach }) epoch entries.now records.now
        handle.old.owned.value handle.new.owned.value result }
{
    if let Some(endpoint) = take(alloc, handle) {
        put(handle, endpoint);
        return Reply::of(Code::OpenAlready);
    }
    // No `?`, here and below: the contract names the reply as it came.
    let limits = match limits_of(room, reach) {
        Ok(limits) => limits,
        Err(reply) => return reply,
    };
    // Before the server: to give it up here would have it on the stack again.
    let notes = match Notes::opening(alloc) {
        Ok(notes) => notes,
        Err(_) => return Reply::of(Code::OutOfMemory),
    };
    let server = match start(alloc, limits, epoch, entries, records) {
        Ok(server) => server,
        Err(reply) => return reply,
    };
    let epoch = server.durable().epoch();
    let endpoint = Endpoint {
        role: Role::Server(server),
        outgoing: Frames::empty(alloc),
        notes,
    };
    match Box::new(alloc, endpoint) {
        Ok(endpoint) => {
            put(handle, endpoint);
            Reply::with(Code::Done, epoch)
        }
        Err(_) => Reply::of(Code::OutOfMemory),
    }
}

/// Gives the server the bytes of a message. The change is to be kept before anything is sent.
#[unsafe(no_mangle)]
pub extern "C" fn krl_server_step(alloc: Global, handle: &mut Handle, bytes: &[u8]) -> Stepped
    ensures does { OnHandle IsUnchanged (OnServer IsUnchanged (calls.Hears bytes.now))
        handle.old.owned.value handle.new.owned.value result }
    ensures notes { notes_of handle.new.owned.value
        ≡ counted_in result.change handle.old.owned.value }
{
    let Some(mut endpoint) = take(alloc, handle) else {
        return Stepped::unchanged(Reply::of(Code::Closed));
    };
    let stepped = server_calls::step(alloc, &mut endpoint, bytes);
    put(handle, endpoint);
    stepped
}

/// Sends again to a client what it may have missed.
#[unsafe(no_mangle)]
pub extern "C" fn krl_server_nudge(alloc: Global, handle: &mut Handle, client: u64) -> Reply
    ensures does { OnHandle IsCode (OnServer IsCode (calls.Nudges client))
        handle.old.owned.value handle.new.owned.value result }
    ensures notes { notes_of handle.new.owned.value ≡ notes_of handle.old.owned.value }
{
    let Some(mut endpoint) = take(alloc, handle) else {
        return Reply::of(Code::Closed);
    };
    let reply = server_calls::nudge(alloc, &mut endpoint, client);
    put(handle, endpoint);
    reply
}

/// The server's epoch and phase.
#[unsafe(no_mangle)]
pub extern "C" fn krl_server_status(alloc: Global, handle: &mut Handle) -> ServerState
    ensures unchanged { handle.new.owned.value ≡ handle.old.owned.value }
    ensures answer { Shows shown.IsNoServerState
        (OfServer shown.IsNoServerState shown.IsServerState)
        handle.old.owned.value result }
{
    let Some(endpoint) = take(alloc, handle) else {
        return ServerState::blank(Code::Closed);
    };
    let state = server_calls::status(&endpoint);
    put(handle, endpoint);
    state
}

/// The clients that the server waits for.
#[unsafe(no_mangle)]
pub extern "C" fn krl_server_missing(
    alloc: Global,
    handle: &mut Handle,
    clients: &mut [u64],
) -> Reply
    ensures unchanged { handle.new.owned.value ≡ handle.old.owned.value }
    ensures answer { Shows (IsUntold clients.old clients.new)
        (OfServer (IsUntold clients.old clients.new) (shown.TellsMissing clients.old clients.new))
        handle.old.owned.value result }
{
    let Some(endpoint) = take(alloc, handle) else {
        return Reply::of(Code::Closed);
    };
    let reply = server_calls::missing(alloc, &endpoint, clients);
    put(handle, endpoint);
    reply
}

/// What is kept of a client.
#[unsafe(no_mangle)]
pub extern "C" fn krl_server_record(alloc: Global, handle: &mut Handle, client: u64) -> Recorded
    ensures unchanged { handle.new.owned.value ≡ handle.old.owned.value }
    ensures answer { Shows shown.IsNotRecorded
        (OfServer shown.IsNotRecorded (shown.IsRecorded client))
        handle.old.owned.value result }
{
    let Some(endpoint) = take(alloc, handle) else {
        return Recorded::blank(Code::Closed);
    };
    let recorded = server_calls::record(&endpoint, client);
    put(handle, endpoint);
    recorded
}

/// How a client waits for a lock.
#[unsafe(no_mangle)]
pub extern "C" fn krl_server_waiter(alloc: Global, handle: &mut Handle, client: u64) -> Waiting
    ensures unchanged { handle.new.owned.value ≡ handle.old.owned.value }
    ensures answer { Shows waits.IsNoWait (OfServer waits.IsNoWait (waits.TellsWait client))
        handle.old.owned.value result }
{
    let Some(endpoint) = take(alloc, handle) else {
        return Waiting::blank(Code::Closed);
    };
    let waiting = server_shows::waiter(&endpoint, client);
    put(handle, endpoint);
    waiting
}

/// The clients that a client waits for.
#[unsafe(no_mangle)]
pub extern "C" fn krl_server_waited_for(
    alloc: Global,
    handle: &mut Handle,
    client: u64,
    clients: &mut [u64],
) -> Reply
    ensures unchanged { handle.new.owned.value ≡ handle.old.owned.value }
    ensures answer { Shows (IsUntold clients.old clients.new)
        (OfServer (IsUntold clients.old clients.new)
        (waits.TellsWaited client clients.old clients.new))
        handle.old.owned.value result }
{
    let Some(endpoint) = take(alloc, handle) else {
        return Reply::of(Code::Closed);
    };
    let reply = server_shows::waited_for(&endpoint, client, clients);
    put(handle, endpoint);
    reply
}

/// At how many slots a client holds something.
#[unsafe(no_mangle)]
pub extern "C" fn krl_server_held(alloc: Global, handle: &mut Handle, client: u64) -> Reply
    ensures unchanged { handle.new.owned.value ≡ handle.old.owned.value }
    ensures answer { Shows IsCode (OfServer IsCode (waits.TellsHeld client))
        handle.old.owned.value result }
{
    let Some(endpoint) = take(alloc, handle) else {
        return Reply::of(Code::Closed);
    };
    let reply = server_shows::held_slots(&endpoint, client);
    put(handle, endpoint);
    reply
}

/// What a client holds on the first slot from a point on where its mode is not N.
#[unsafe(no_mangle)]
pub extern "C" fn krl_server_next_held(
    alloc: Global,
    handle: &mut Handle,
    client: u64,
    from: u64,
) -> HeldSlot
    ensures unchanged { handle.new.owned.value ≡ handle.old.owned.value }
    ensures answer { Shows waits.IsNoHolding
        (OfServer waits.IsNoHolding (waits.TellsNext client from))
        handle.old.owned.value result }
{
    let Some(endpoint) = take(alloc, handle) else {
        return HeldSlot::blank(Code::Closed);
    };
    let held = server_shows::next_held(&endpoint, client, from);
    put(handle, endpoint);
    held
}

/// Whether a client would get at once, to read it, each slot that has one of the points from lo on
/// below hi.
#[unsafe(no_mangle)]
pub extern "C" fn krl_server_may_read(
    alloc: Global,
    handle: &mut Handle,
    client: u64,
    lo: u64,
    hi: u64,
) -> Reply
    ensures unchanged { handle.new.owned.value ≡ handle.old.owned.value }
    ensures answer { Shows IsCode (OfServer IsCode (waits.TellsReads client lo hi))
        handle.old.owned.value result }
{
    let Some(endpoint) = take(alloc, handle) else {
        return Reply::of(Code::Closed);
    };
    let reply = server_shows::may_read(&endpoint, client, lo, hi);
    put(handle, endpoint);
    reply
}

/// The entries of the server's index from lo on below hi, as many as there is room for. They may be
/// shown once the notes on which they rest are on the disk.
#[unsafe(no_mangle)]
pub extern "C" fn krl_server_rows(
    alloc: Global,
    handle: &mut Handle,
    lo: u64,
    hi: u64,
    rows: &mut [Row],
) -> Page
    ensures unchanged { handle.new.owned.value ≡ handle.old.owned.value }
    ensures answer { Shows (pages.IsUnfilled rows.old rows.new)
        (OfServer (pages.IsUnfilled rows.old rows.new)
        (pages.ShowsPage lo hi rows.old rows.new))
        handle.old.owned.value result }
    ensures after { result.after
        ≡ pages.rests_on_handle handle.old.owned.value (code_of result.reply) }
{
    let Some(endpoint) = take(alloc, handle) else {
        return Page::blank(Code::Closed);
    };
    let page = read_page(&endpoint, lo, hi, rows);
    put(handle, endpoint);
    page
}
