//! Who waits at a server, for whom, and what clients hold, as C sees it.
ghost use Rattle.std.specs.Prelude.{◌≤◌, ◌<◌, MatchBool};
ghost use Rattle.krl_modes.specs.declared.limits.TheConstants.{MAX_CLIENTS};
ghost use Rattle.krl_modes.specs.declared.point.TheConstants.{END};
ghost use Rattle.krl_server.specs.StateMeaning.{meaning};
ghost use Rattle.krl_embed.specs.declared.code.Code.TheVariants as code;
ghost use Rattle.krl_embed.specs.Endpoints.{IsCode, IsUntold, OfServer};
ghost use Rattle.krl_embed.specs.Waits as waits;
ghost use Rattle.krl_embed.specs.Waits.{IsNoWait, IsWait};

use crate::code::Code;
use crate::endpoint::{Endpoint, Role};
use crate::reply::Reply;
use crate::server_calls::copy_clients;
use krl_blocks::Finger;
use krl_messages::Holding;
use krl_modes::{END, MAX_CLIENTS, Point};
use krl_queue::Waiter;
use krl_server::Server;

/// How a client waits at a server.
#[repr(C)]
#[derive(Clone, Copy)]
pub struct Waiting {
    reply: Reply,
    request: u64,
    point: u64,
    hi: u64,
    mode: u32,
    waits: u32,
}

impl Waiting {
    /// Nobody waits, by this code.
    pub(crate) fn blank(code: Code) -> Waiting
        ensures { IsNoWait code result }
    {
        Waiting {
            reply: Reply::of(code),
            request: 0,
            point: 0,
            hi: 0,
            mode: 0,
            waits: 0,
        }
    }

    fn of(waiter: &Option<Waiter>) -> Waiting
        ensures code { IsCode code.Done result.reply }
        ensures wait { IsWait waiter.now result }
    {
        match *waiter {
            Some(waiter) => Waiting {
                reply: Reply::of(Code::Done),
                request: waiter.req,
                point: waiter.point.get(),
                hi: waiter.hi,
                mode: waiter.mode as u32,
                waits: 1,
            },
            None => Waiting::blank(Code::Done),
        }
    }
}

/// What a client holds at a slot of a server.
#[repr(C)]
#[derive(Clone, Copy)]
pub struct HeldSlot {
    reply: Reply,
    lo: u64,
    hi: u64,
    mode: u32,
    holds: u32,
}

impl HeldSlot {
    /// It holds nothing, by this code.
    pub(crate) fn blank(code: Code) -> HeldSlot
        ensures { waits.IsNoHolding code result }
    {
        HeldSlot {
            reply: Reply::of(code),
            lo: 0,
            hi: 0,
            mode: 0,
            holds: 0,
        }
    }

    fn of(holding: &Holding) -> HeldSlot
        ensures code { IsCode code.Done result.reply }
        ensures holding { waits.ShowsHolding holding.now result }
    {
        HeldSlot {
            reply: Reply::of(Code::Done),
            lo: holding.span.lo(),
            hi: holding.span.hi(),
            mode: holding.mode as u32,
            holds: 1,
        }
    }
}

/// How the client waits at the server.
pub(crate) fn waiter(endpoint: &Endpoint, client: u64) -> Waiting
    ensures { OfServer IsNoWait (waits.TellsWait client) endpoint.now.role result }
{
    match &endpoint.role {
        Role::Server(_) if client >= MAX_CLIENTS as u64 => Waiting::blank(Code::BadClient),
        Role::Server(server) => Waiting::of(&server.waiter_of(client)),
        Role::Client(_) | Role::Left(_) => Waiting::blank(Code::NoServer),
    }
}

fn copy_waited_for(server: &Server, client: u64, clients: &mut [u64]) -> Reply
    ensures { waits.TellsWaited client clients.old clients.new server.now result }
{
    if client >= MAX_CLIENTS as u64 {
        return Reply::of(Code::BadClient);
    }
    copy_clients(server.waited_for(client).as_slice(), clients)
}

/// The clients that the client waits for.
pub(crate) fn waited_for(endpoint: &Endpoint, client: u64, clients: &mut [u64]) -> Reply
    ensures { OfServer (IsUntold clients.old clients.new)
        (waits.TellsWaited client clients.old clients.new) endpoint.now.role result }
{
    match &endpoint.role {
        Role::Server(server) => copy_waited_for(server, client, clients),
        Role::Client(_) | Role::Left(_) => Reply::of(Code::NoServer),
    }
}

/// At how many slots the client holds a mode other than N.
pub(crate) fn held_slots(endpoint: &Endpoint, client: u64) -> Reply
    ensures { OfServer IsCode (waits.TellsHeld client) endpoint.now.role result }
{
    match &endpoint.role {
        Role::Server(_) if client >= MAX_CLIENTS as u64 => Reply::of(Code::BadClient),
        Role::Server(server) => Reply::with(Code::Done, server.held_slots(client)),
        Role::Client(_) | Role::Left(_) => Reply::of(Code::NoServer),
    }
}

fn next_of(server: &Server, client: u64, from: u64) -> HeldSlot
    ensures { waits.TellsNext client from server.now result }
{
    if client >= MAX_CLIENTS as u64 {
        return HeldSlot::blank(Code::BadClient);
    }
    match server.next_holding(client, from) {
        Some(holding) => HeldSlot::of(&holding),
        None => HeldSlot::blank(Code::Done),
    }
}

/// What the client holds on the first slot from this point on where its mode is not N.
pub(crate) fn next_held(endpoint: &Endpoint, client: u64, from: u64) -> HeldSlot
    ensures { OfServer waits.IsNoHolding (waits.TellsNext client from) endpoint.now.role result }
{
    match &endpoint.role {
        Role::Server(server) => next_of(server, client, from),
        Role::Client(_) | Role::Left(_) => HeldSlot::blank(Code::NoServer),
    }
}

// Whether the client would get at once, to read it, each slot that has one of these points.
fn may_read_each(server: &Server, client: u64, lo: u64, hi: u64) -> bool
    requires client { client < MAX_CLIENTS }
    requires hi { hi ≤ END }
    ensures { MatchBool result (waits.MayReadEach (meaning server.now) client lo hi)
        (waits.MayNotRead (meaning server.now) client lo hi) }
{
    let durable = server.durable();
    // By its clause `kept` the prover knows that no key is END or more, so no slot is above END.
    let _kept = durable.epoch();
    let mut finger = Finger::new();
    let mut point = lo;
    while point < hi {
        let slot = durable.find_by(point, &mut finger).point;
        if !server.may_read(client, Point::new(slot).unwrap()) {
            return false;
        }
        point = slot + 1;
    }
    true
}

fn reads_of(server: &Server, client: u64, lo: u64, hi: u64) -> Reply
    ensures { waits.TellsReads client lo hi server.now result }
{
    if client >= MAX_CLIENTS as u64 {
        return Reply::of(Code::BadClient);
    }
    if hi > END {
        return Reply::of(Code::BadPoint);
    }
    if may_read_each(server, client, lo, hi) {
        Reply::with(Code::Done, 1)
    } else {
        Reply::with(Code::Done, 0)
    }
}

/// Whether the client would get at once, to read it, each slot that has one of these points.
pub(crate) fn may_read(endpoint: &Endpoint, client: u64, lo: u64, hi: u64) -> Reply
    ensures { OfServer IsCode (waits.TellsReads client lo hi) endpoint.now.role result }
{
    match &endpoint.role {
        Role::Server(server) => reads_of(server, client, lo, hi),
        Role::Client(_) | Role::Left(_) => Reply::of(Code::NoServer),
    }
}
