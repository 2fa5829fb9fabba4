//! What a client shows of itself, as C sees it.
ghost use Rattle.krl_client.specs.Fields.{meaning};
ghost use Rattle.krl_embed.specs.Endpoints.{OfClient};
ghost use Rattle.krl_embed.specs.Shown as shown;

use crate::code::Code;
use crate::endpoint::{Endpoint, Role};
use crate::records::outcome_number;
use crate::reply::Reply;
use krl_client::{Client, WriteStatus};

/// What a client shows of itself.
#[repr(C)]
#[derive(Clone, Copy)]
pub struct ClientState {
    reply: Reply,
    epoch: u64,
    seen: u64,
    lock: u32,
    write: u32,
    number: u64,
    outcome: u64,
}

/// What a client believes that it holds at a point.
#[repr(C)]
#[derive(Clone, Copy)]
pub struct Held {
    reply: Reply,
    range: u32,
    key: u32,
}

impl ClientState {
    /// Nothing is shown, by this code.
    pub(crate) fn blank(code: Code) -> ClientState
        ensures { shown.IsBlank code result }
    {
        ClientState {
            reply: Reply::of(code),
            epoch: 0,
            seen: 0,
            lock: 0,
            write: 0,
            number: 0,
            outcome: 0,
        }
    }

    fn of(client: &Client) -> ClientState
        ensures { shown.IsState (meaning client.now) result }
    {
        let status = client.status();
        let (write, number, outcome) = match status.write {
            WriteStatus::NotWritten => (0, 0, 0),
            WriteStatus::Waiting(number) => (1, number, 0),
            WriteStatus::Judged(number, outcome) => (2, number, outcome_number(Some(outcome))),
        };
        ClientState {
            reply: Reply::of(Code::Done),
            epoch: status.epoch,
            seen: status.seen,
            lock: status.lock as u32,
            write,
            number,
            outcome: outcome as u64,
        }
    }
}

impl Held {
    /// Nothing is shown, by this code.
    pub(crate) fn blank(code: Code) -> Held
        ensures { shown.HoldsNothing code result }
    {
        Held {
            reply: Reply::of(code),
            range: 0,
            key: 0,
        }
    }

    fn of(client: &Client, point: u64) -> Held
        ensures { shown.IsHeld (meaning client.now) point result }
    {
        let (range, key) = client.held(point);
        Held {
            reply: Reply::of(Code::Done),
            range: range as u32,
            key: key as u32,
        }
    }
}

/// What the client shows of itself.
pub(crate) fn status(endpoint: &Endpoint) -> ClientState
    ensures { OfClient shown.IsBlank (λ k r. shown.IsState (meaning k) r)
        endpoint.now.role result }
{
    match &endpoint.role {
        Role::Client(client) => ClientState::of(client),
        Role::Left(_) => ClientState::blank(Code::Gone),
        Role::Server(_) => ClientState::blank(Code::NoClient),
    }
}

/// What the client believes that it holds at the point.
pub(crate) fn held_at(endpoint: &Endpoint, point: u64) -> Held
    ensures { OfClient shown.HoldsNothing (λ k r. shown.IsHeld (meaning k) point r)
        endpoint.now.role result }
{
    match &endpoint.role {
        Role::Client(client) => Held::of(client, point),
        Role::Left(_) => Held::blank(Code::Gone),
        Role::Server(_) => Held::blank(Code::NoClient),
    }
}
