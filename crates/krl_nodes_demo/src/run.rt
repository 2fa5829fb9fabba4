//! A server and two clients, each on a thread of its own.
ghost use Rattle.std.specs.Prelude.{◌≡◌, ◌≤◌, Bool, false, None, Some, IfOk, IfSome};
ghost use Rattle.krl_modes.specs.declared.point.TheConstants.{END};
ghost use Rattle.krl_nodes.specs.Nodes.{IsSameServer, IsSameClient};
ghost use Rattle.krl_nodes_demo.specs.Deliveries.{delivery_of, seeds_of, Serves, Goes};
ghost use Rattle.krl_nodes_demo.specs.RunRows.{IsFound, max_turns, seeds};
ghost use Rattle.krl_nodes_demo.specs.declared.work.TheConstants.{MAX_TURNS};

use crate::delivery::Delivery;
use crate::gate::Gate;
use crate::work::{insert, read, serve};
use krl_cache::Rows;
use krl_messages::Value;
use krl_nodes::{ClientNode, Office, ServerNode};
use std::alloc::{AllocError, Global};
use std::sync::Wait;
use std::sync::atomic::{AtomicU64, Ordering};
use std::thread;
use std::thread::Threads;

/// From which seed each node drew its picks, if it had a policy.
#[derive(Clone, Copy)]
pub struct PolicySeeds {
    pub server: Option<u64>,
    /// Client 1.
    pub writer: Option<u64>,
    /// Client 2.
    pub reader: Option<u64>,
}

/// What the second client read.
#[derive(Drop)]
pub struct NodesReport {
    /// The entries from 11 on below 21, with key 15 among them.
    pub rows: Rows,
    /// The seeds of the nodes' policies.
    pub seeds: PolicySeeds,
}

/// Why there is no report.
#[derive(Clone, Copy, Debug, PartialEq, Eq)]
pub enum NotRun {
    /// Memory that the office needed was not there.
    OutOfMemory,
    /// A client came to its last turn.
    GaveUp,
}

/// What a thread does with a node, over what threads share.
pub(crate) trait Work<T> {
    ghost ready: { Self → T → Type 0 };

    ghost done: { Self → Self → Type 0 };

    fn work<R: Wait, G: Gate>(self, rt: &R, shared: &T, gate: &mut G, ended: &AtomicU64) -> Self
        requires { ready self shared.now }
        ensures { done self result };
}

// The server.
#[derive(Drop)]
pub(crate) struct Serving {
    node: ServerNode,
    delivery: Delivery,
}

// The client that writes, and whether it came to its end.
#[derive(Drop)]
pub(crate) struct Writer {
    node: ClientNode,
    delivery: Delivery,
    is_done: bool,
}

// The client that reads, and what it found.
#[derive(Drop)]
pub(crate) struct Reader {
    node: ClientNode,
    delivery: Delivery,
    rows: Option<Rows>,
}

impl Work<Office> for Serving {
    ghost ready = { λ s office. s.node.office ≡ office };

    ghost done = { λ s t. IsSameServer s.node t.node × (t.delivery.seed ≡ s.delivery.seed)
        × ((next : Bool) × Serves s.delivery s.node next t.delivery t.node) };

    fn work<R: Wait, G: Gate>(
        self,
        rt: &R,
        shared: &Office,
        gate: &mut G,
        ended: &AtomicU64,
    ) -> Serving {
        let Serving { node, mut delivery } = self;
        let node = serve(rt, shared, node, &mut delivery, gate, ended);
        Serving { node, delivery }
    }
}

impl Work<Office> for Writer {
    ghost ready = { λ w office. w.node.office ≡ office };

    ghost done = { λ w v. IsSameClient w.node v.node × (v.delivery.seed ≡ w.delivery.seed)
        × Goes w.delivery w.node v.delivery v.node };

    fn work<R: Wait, G: Gate>(
        self,
        rt: &R,
        shared: &Office,
        gate: &mut G,
        ended: &AtomicU64,
    ) -> Writer {
        let Writer {
            node,
            mut delivery,
            is_done: _,
        } = self;
        let (node, is_done) = insert(rt, shared, node, &mut delivery, gate);
        ended.fetch_add(1, Ordering::SeqCst);
        Writer {
            node,
            delivery,
            is_done,
        }
    }
}

impl Work<Office> for Reader {
    ghost ready = { λ r office. r.node.office ≡ office };

    ghost done = { λ r s. IsSameClient r.node s.node × (s.delivery.seed ≡ r.delivery.seed)
        × Goes r.delivery r.node s.delivery s.node × IfSome s.rows (IsFound r.node.opening) };

    fn work<R: Wait, G: Gate>(
        self,
        rt: &R,
        shared: &Office,
        gate: &mut G,
        ended: &AtomicU64,
    ) -> Reader {
        let Reader {
            node,
            mut delivery,
            rows: _,
        } = self;
        let (node, rows) = read(rt, shared, node, &mut delivery, gate);
        ended.fetch_add(1, Ordering::SeqCst);
        Reader {
            node,
            delivery,
            rows,
        }
    }
}

// Two nodes at once. If no thread can be made for the first, it runs after the second.
fn beside<
    R: Threads + Wait + Sync,
    T: Sync,
    B: Work<T> + Send + Drop,
    G: Gate + Send + Drop,
    C: Work<T> + Drop,
    H: Gate + Drop,
>(rt: &R, shared: &T, b: B, gate1: G, c: C, gate2: H, ended: &AtomicU64) -> (B, C)
    requires { B.ready b shared.now × C.ready c shared.now }
    ensures { B.done b result.0 × C.done c result.1 }
{
    let mut gate1 = gate1;
    let mut gate2 = gate2;
    thread::join(
        rt,
        move || -> B
            requires { B.ready b shared.now }
            ensures { B.done b result }
        { b.work(rt, shared, &mut gate1, ended) },
        || -> C
            requires { C.ready c shared.now }
            ensures { C.done c result }
        { c.work(rt, shared, &mut gate2, ended) },
    )
}

// Three nodes at once. If no thread can be made for the first, it runs after the others: so the
// first is the one for which the others do not wait without end.
fn together<
    R: Threads + Wait + Sync,
    T: Sync,
    A: Work<T> + Send + Drop,
    F: Gate + Send + Drop,
    B: Work<T> + Send + Drop,
    G: Gate + Send + Drop,
    C: Work<T> + Drop,
    H: Gate + Drop,
>(
    rt: &R,
    shared: &T,
    a: A,
    gate0: F,
    b: B,
    gate1: G,
    c: C,
    gate2: H,
    ended: &AtomicU64,
) -> (A, (B, C))
    requires { A.ready a shared.now × B.ready b shared.now × C.ready c shared.now }
    ensures { A.done a result.0 × B.done b result.1.0 × C.done c result.1.1 }
{
    let mut gate0 = gate0;
    thread::join(
        rt,
        move || -> A
            requires { A.ready a shared.now }
            ensures { A.done a result }
        { a.work(rt, shared, &mut gate0, ended) },
        || -> (B, C)
            requires { B.ready b shared.now × C.ready c shared.now }
            ensures { B.done b result.0 × C.done c result.1 }
        { beside(rt, shared, b, gate1, c, gate2, ended) },
    )
}

// The entries of a run: 10=1 and 20=2.
fn seeds(alloc: Global) -> Result<Vec<(u64, Value)>, AllocError>
    ensures { IfOk result (λ entries. entries.items ≡ seeds) }
{
    Vec::from_slice(alloc, &[(10, Value::from_u64(1)), (20, Value::from_u64(2))])
}

// How the node of this number comes by its letters.
fn delivery(seed: Option<u64>, number: u64) -> Delivery
    ensures { result ≡ delivery_of seed number }
{
    match seed {
        Some(seed) => Delivery::drawn(seed.wrapping_add(number)),
        None => Delivery::in_order(),
    }
}

// The run, with letters in order, or lost, repeated and reordered as the seed has it.
fn run<R: Threads + Wait + Sync, F: Gate + Send + Drop, G: Gate + Send + Drop, H: Gate + Drop>(
    rt: &R,
    alloc: Global,
    gate0: F,
    gate1: G,
    gate2: H,
    seed: Option<u64>,
) -> Result<NodesReport, NotRun>
    ensures found { IfOk result (λ report. IsFound seeds report.rows) }
    ensures seeds { IfOk result (λ report. report.seeds ≡ seeds_of seed) }
{
    let Ok(entries) = seeds(alloc) else {
        return Err(NotRun::OutOfMemory);
    };
    let Ok((office, mut server)) = Office::open(alloc, entries) else {
        return Err(NotRun::OutOfMemory);
    };
    let Ok(one) = office.seat_client(rt, &mut server, 1) else {
        return Err(NotRun::GaveUp);
    };
    let Ok(two) = office.seat_client(rt, &mut server, 2) else {
        return Err(NotRun::GaveUp);
    };
    let ended = AtomicU64::new(0);
    let serving = Serving {
        node: server,
        delivery: delivery(seed, 0),
    };
    let writer = Writer {
        node: one,
        delivery: delivery(seed, 1),
        is_done: false,
    };
    let reader = Reader {
        node: two,
        delivery: delivery(seed, 2),
        rows: None,
    };
    let (serving, (writer, reader)) = together(
        rt, &office, serving, gate0, writer, gate1, reader, gate2, &ended,
    );
    let seeds = PolicySeeds {
        server: serving.delivery.seed(),
        writer: writer.delivery.seed(),
        reader: reader.delivery.seed(),
    };
    let is_done = writer.is_done;
    let Reader {
        node: _,
        delivery: _,
        rows,
    } = reader;
    match rows {
        Some(rows) => {
            if is_done {
                Ok(NodesReport { rows, seeds })
            } else {
                Err(NotRun::GaveUp)
            }
        }
        None => Err(NotRun::GaveUp),
    }
}

/// Runs a server with the entries 10=1 and 20=2 and the clients 1 and 2, each on a thread of its
/// own: client 1 inserts 15=5 and leaves, and client 2 scans until it reads key 15. Each letter is
/// read once, the oldest first. Each node has a gate: `gate0` is the server's.
///
/// # Errors
///
/// `OutOfMemory` if the memory for the office is refused; `GaveUp` if a client came to its
/// last turn, also if no thread could be made for the server or the other client.
pub fn run_nodes<
    R: Threads + Wait + Sync,
    F: Gate + Send + Drop,
    G: Gate + Send + Drop,
    H: Gate + Drop,
>(rt: &R, alloc: Global, gate0: F, gate1: G, gate2: H) -> Result<NodesReport, NotRun>
    ensures limit { MAX_TURNS ≡ max_turns }
    ensures found { IfOk result (λ report. IsFound seeds report.rows) }
    ensures in_order { IfOk result (λ report. report.seeds ≡ seeds_of None) }
{
    run(rt, alloc, gate0, gate1, gate2, None)
}

/// Runs the same server and clients, and each reads its letters by a policy of its own: one letter
/// in eight is lost, two are repeated, and any that waits may be the next, as drawn from the seed
/// and the node's number, which is 0 for the server. So a node that found no letter sends again
/// what is not answered: a client by a tick, the server by a nudge of client 1 or 2, by turns.
///
/// # Errors
///
/// As of `run_nodes`. A client comes to its last turn also if what was lost keeps it waiting:
/// if the last messages of client 1 are lost, nobody sends them again.
pub fn run_nodes_by<
    R: Threads + Wait + Sync,
    F: Gate + Send + Drop,
    G: Gate + Send + Drop,
    H: Gate + Drop,
>(rt: &R, alloc: Global, gate0: F, gate1: G, gate2: H, seed: u64) -> Result<NodesReport, NotRun>
    requires { seed ≤ END }
    ensures limit { MAX_TURNS ≡ max_turns }
    ensures found { IfOk result (λ report. IsFound seeds report.rows) }
    ensures by_policy { IfOk result (λ report. report.seeds ≡ seeds_of (Some seed)) }
{
    run(rt, alloc, gate0, gate1, gate2, Some(seed))
}
