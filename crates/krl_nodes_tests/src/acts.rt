//! Calls of nodes that are made again if memory was refused, once or twice in a row: then the
//! node has to be as it was, and the last call to do what the first would have done.
ghost use Rattle.std.specs.Prelude.{◌≡◌, IfOk, IfSome};
ghost use Rattle.krl_nodes.specs.Nodes.{IsSameServer, IsSameClient};

use krl_client::ScanAnswer;
use krl_messages::Value;
use krl_nodes::{
    ClientNode, ClientOrder, NotSeated, Office, Policy, ServerNode, ServerOrder, Turn,
};
use krl_world::Refused;
use std::alloc::Global;
use std::sync::Wait;

/// How often a call is made at most: twice it may be refused.
const CALLS: u64 = 3;

/// What came of a turn. What a node answered is let go here, once for all tests.
#[derive(Clone, Copy)]
pub enum Came {
    /// The order was carried out.
    Did,
    /// No letter waited for the node.
    Idle,
    /// A letter to the node was lost.
    Lost,
    /// The turn was refused.
    Refused(Refused),
    /// The turn was refused for want of memory, and has changed the client all the same.
    Torn,
    /// The client has no seat.
    Away,
}

impl Came {
    fn of(turn: Result<Turn, Refused>) -> Came {
        match turn {
            Ok(Turn::Did(_)) => Came::Did,
            Ok(Turn::Idle) => Came::Idle,
            Ok(Turn::Lost) => Came::Lost,
            Err(refused) => Came::Refused(refused),
        }
    }

    /// Whether the order was carried out.
    pub fn did(self) -> bool {
        matches!(self, Came::Did)
    }

    /// Whether no letter waited.
    pub fn is_idle(self) -> bool {
        matches!(self, Came::Idle)
    }

    /// Whether a letter was lost.
    pub fn is_lost(self) -> bool {
        matches!(self, Came::Lost)
    }

    /// Whether the turn was refused so.
    pub fn is_refused(self, expected: Refused) -> bool {
        match self {
            Came::Refused(refused) => refused == expected,
            _ => false,
        }
    }
}

/// The entries that a test begins with, in its index.
fn try_open(alloc: Global, entries: &[(u64, u64)]) -> Result<(Office, ServerNode), Refused>
    ensures { IfOk result (λ r. r.1.office ≡ r.0) }
{
    let mut list = Vec::new(alloc);
    for (key, value) in entries {
        list.push((*key, Value::from_u64(*value)))?;
    }
    Office::open(alloc, list)
}

/// An office with a server on these entries.
pub fn open(alloc: Global, entries: &[(u64, u64)]) -> Result<(Office, ServerNode), Refused>
    ensures { IfOk result (λ r. r.1.office ≡ r.0) }
{
    for _ in 0..CALLS {
        match try_open(alloc, entries) {
            Err(Refused::OutOfMemory) => {}
            opened => return opened,
        }
    }
    Err(Refused::OutOfMemory)
}

/// Seats the client of this number, in place of the one that has the seat. Why it gets no seat,
/// if it gets none.
pub fn seat<R: Wait>(
    rt: &R,
    office: &Office,
    server: &mut ServerNode,
    seat: &mut Option<ClientNode>,
    number: u64,
) -> Option<NotSeated>
    requires server { server.old.office ≡ office.now }
    requires client { IfSome seat.old (λ c. c.office ≡ office.now) }
    ensures server { server.new.office ≡ office.now }
    ensures client { IfSome seat.new (λ c. c.office ≡ office.now) }
{
    match office.seat_client(rt, server, number) {
        Ok(client) => {
            *seat = Some(client);
            None
        }
        Err(refused) => Some(refused),
    }
}

/// Whether the client gives its seat back. One that runs keeps it.
pub fn retire<R: Wait>(
    rt: &R,
    office: &Office,
    server: &mut ServerNode,
    seat: &mut Option<ClientNode>,
) -> bool
    requires server { server.old.office ≡ office.now }
    requires client { IfSome seat.old (λ c. c.office ≡ office.now) }
    ensures server { server.new.office ≡ office.now }
    ensures client { IfSome seat.new (λ c. c.office ≡ office.now) }
{
    let Some(client) = seat.take() else {
        return false;
    };
    match office.retire(rt, server, client) {
        Ok(()) => true,
        Err(up) => {
            *seat = Some(up.still_up);
            false
        }
    }
}

/// The server's turn.
pub fn serve<R: Wait>(rt: &R, office: &Office, server: &mut ServerNode, order: ServerOrder) -> Came
    requires { server.old.office ≡ office.now }
    ensures { IsSameServer server.old server.new }
{
    for _ in 0..CALLS {
        match Came::of(server.turn(rt, office, order)) {
            Came::Refused(Refused::OutOfMemory) => {}
            came => return came,
        }
    }
    Came::Refused(Refused::OutOfMemory)
}

/// The client's turn, made once.
fn act_once<R: Wait>(
    rt: &R,
    office: &Office,
    seat: &mut Option<ClientNode>,
    order: ClientOrder,
) -> Came
    requires { IfSome seat.old (λ c. c.office ≡ office.now) }
    ensures { IfSome seat.new (λ c. c.office ≡ office.now) }
{
    let Some(client) = seat else {
        return Came::Away;
    };
    let before = client.status();
    let came = Came::of(client.turn(rt, office, order));
    if came.is_refused(Refused::OutOfMemory) && client.status() != before {
        return Came::Torn;
    }
    came
}

/// The client's turn.
pub fn act<R: Wait>(
    rt: &R,
    office: &Office,
    seat: &mut Option<ClientNode>,
    order: ClientOrder,
) -> Came
    requires { IfSome seat.old (λ c. c.office ≡ office.now) }
    ensures { IfSome seat.new (λ c. c.office ≡ office.now) }
{
    for _ in 0..CALLS {
        match act_once(rt, office, seat, *&order) {
            Came::Refused(Refused::OutOfMemory) => {}
            came => return came,
        }
    }
    Came::Refused(Refused::OutOfMemory)
}

/// The client's scan of its own cache.
pub fn scan(client: &ClientNode, lo: u64, hi: u64) -> Result<ScanAnswer, Refused> {
    for _ in 0..CALLS {
        match client.scan(lo, hi) {
            Err(Refused::OutOfMemory) => {}
            answer => return answer,
        }
    }
    Err(Refused::OutOfMemory)
}

/// The server's turn by the policy, made again if memory was refused, twice at most.
pub fn serve_by<R: Wait, P: Policy>(
    rt: &R,
    office: &Office,
    server: &mut ServerNode,
    order: ServerOrder,
    policy: &mut P,
) -> Came
    requires { server.old.office ≡ office.now }
    ensures { IsSameServer server.old server.new }
{
    for _ in 0..CALLS {
        match Came::of(server.turn_by(rt, office, order, policy)) {
            Came::Refused(Refused::OutOfMemory) => {}
            came => return came,
        }
    }
    Came::Refused(Refused::OutOfMemory)
}

/// The client's turn by the policy, made again if memory was refused, twice at most.
pub fn act_by<R: Wait, P: Policy>(
    rt: &R,
    office: &Office,
    seat: &mut Option<ClientNode>,
    order: ClientOrder,
    policy: &mut P,
) -> Came
    requires { IfSome seat.old (λ c. c.office ≡ office.now) }
    ensures { IfSome seat.new (λ c. c.office ≡ office.now) }
{
    let Some(client) = seat else {
        return Came::Away;
    };
    for _ in 0..CALLS {
        match Came::of(client.turn_by(rt, office, *&order, policy)) {
            Came::Refused(Refused::OutOfMemory) => {}
            came => return came,
        }
    }
    Came::Refused(Refused::OutOfMemory)
}

/// Whether these are the rows, each value a number.
pub fn are_numbers(rows: &[(u64, Value)], expected: &[(u64, u64)]) -> bool {
    if rows.len() != expected.len() {
        return false;
    }
    for i in 0..rows.len() {
        let (key, value) = rows[i];
        if key != expected[i].0 || value.as_u64() != Some(expected[i].1) {
            return false;
        }
    }
    true
}
