//! What each node of `run_nodes` does.
ghost use Rattle.std.specs.Prelude.{◌≡◌, suc, Bool, false, MatchBool, IfOk, IfSome};
ghost use Rattle.krl_nodes.specs.Nodes.{IsSameServer, IsSameClient};
ghost use Rattle.krl_nodes_demo.specs.Deliveries.{ServesOnce, ServerNudges, ClientTicks, nudged};
ghost use Rattle.krl_nodes_demo.specs.Deliveries.{Serves, Goes, is_for_letter};
ghost use Rattle.krl_nodes_demo.specs.RunRows.{HasKey, IsFound};

use crate::delivery::Delivery;
use crate::gate::Gate;
use krl_cache::Rows;
use krl_client::{LockStatus, ScanAnswer, Status, WriteStatus};
use krl_messages::{Outcome, Value, WriteOp};
use krl_modes::Mode;
use krl_nodes::{ClientNode, ClientOrder, Office, ServerNode, ServerOrder};
use krl_world::{Command, Refused};
use std::sync::Wait;
use std::sync::atomic::{AtomicU64, Ordering};

/// The most turns of a client, with the scans that found no memory.
pub const MAX_TURNS: u64 = 10_000;

/// What the writer does next.
#[derive(Clone, Copy)]
enum Writing {
    Start,
    Lock,
    Insert,
    Forget,
    Leave,
    End,
}

/// What the reader does next.
#[derive(Clone, Copy)]
enum Reading {
    Start,
    First,
    Second,
    Scan,
}

// Whether the client runs and waits for a letter.
fn waits(status: Option<Status>) -> bool {
    match status {
        Some(status) => {
            status.epoch == 0
                || matches!(status.lock, LockStatus::Waiting)
                || matches!(status.write, WriteStatus::Waiting(_))
        }
        None => false,
    }
}

// Whether the client's last write was not held.
fn was_not_held(status: Option<Status>) -> bool {
    match status {
        Some(status) => matches!(status.write, WriteStatus::Judged(_, Outcome::NotHeld)),
        None => false,
    }
}

impl Writing {
    // A write that was not held begins again.
    fn seen(self, status: Option<Status>) -> Writing {
        match self {
            Writing::Forget if was_not_held(status) => Writing::Lock,
            other => other,
        }
    }

    // What it asks for next: no letter. At the end it asks for nothing more.
    fn order(self) -> ClientOrder
        ensures { is_for_letter result ≡ false }
    {
        match self {
            Writing::Start => ClientOrder::Start,
            Writing::Lock => ClientOrder::Command(Command::Lock {
                point: 15,
                hi: 16,
                mode: Mode::RangeIN,
            }),
            Writing::Insert => ClientOrder::Command(Command::Write(WriteOp::Insert {
                key: 15,
                value: Value::from_u64(5),
            })),
            Writing::Forget => ClientOrder::Command(Command::Lower {
                lo: 11,
                hi: 21,
                keep: Mode::N,
            }),
            Writing::Leave => ClientOrder::Command(Command::Leave),
            Writing::End => ClientOrder::Tick,
        }
    }

    fn next(self) -> Writing {
        match self {
            Writing::Start => Writing::Lock,
            Writing::Lock => Writing::Insert,
            Writing::Insert => Writing::Forget,
            Writing::Forget => Writing::Leave,
            Writing::Leave | Writing::End => Writing::End,
        }
    }
}

impl Reading {
    // What it asks for next: no letter. While it scans it asks for nothing more.
    fn order(self) -> ClientOrder
        ensures { is_for_letter result ≡ false }
    {
        match self {
            Reading::Start => ClientOrder::Start,
            Reading::First => ClientOrder::Command(Command::Lock {
                point: 15,
                hi: 16,
                mode: Mode::RangeSS,
            }),
            Reading::Second => ClientOrder::Command(Command::Lock {
                point: 16,
                hi: 17,
                mode: Mode::RangeSS,
            }),
            Reading::Scan => ClientOrder::Tick,
        }
    }

    fn next(self) -> Reading {
        match self {
            Reading::Start => Reading::First,
            Reading::First => Reading::Second,
            Reading::Second | Reading::Scan => Reading::Scan,
        }
    }
}

// The client that the server nudges: the first, or the second.
fn nudged(is_second: bool) -> u64
    ensures { result ≡ nudged is_second }
{
    if is_second { 2 } else { 1 }
}

// Nudges that client.
fn nudge<R: Wait>(rt: &R, office: &Office, node: &mut ServerNode, is_second: bool)
    requires { node.old.office ≡ office.now }
    ensures same { IsSameServer node.old node.new }
    ensures nudges { ServerNudges is_second node.old node.new }
    ensures once { node.new.given ≡ suc node.old.given }
{
    let _ = node.turn(rt, office, ServerOrder::Nudge(nudged(is_second)));
}

// Reads a letter, or, if one may be lost, rests and nudges a client. Reports whether the next nudge
// is for the second.
fn serve_once<R: Wait, G: Gate>(
    rt: &R,
    office: &Office,
    node: &mut ServerNode,
    delivery: &mut Delivery,
    gate: &mut G,
    is_second: bool,
) -> bool
    requires { node.old.office ≡ office.now }
    ensures same { IsSameServer node.old node.new }
    ensures serves { ServesOnce is_second delivery.old node.old result delivery.new node.new }
    ensures once { node.new.given ≡ suc node.old.given }
{
    if delivery.may_lack() {
        gate.pause();
        nudge(rt, office, node, is_second);
        !is_second
    } else {
        delivery.serve(rt, office, node);
        is_second
    }
}

/// Reads letters until both clients have ended. If a letter may be lost it nudges clients 1 and
/// 2 by turns.
pub(crate) fn serve<R: Wait, G: Gate>(
    rt: &R,
    office: &Office,
    mut node: ServerNode,
    delivery: &mut Delivery,
    gate: &mut G,
    ended: &AtomicU64,
) -> ServerNode
    requires { node.office ≡ office.now }
    ensures same { IsSameServer node result }
    ensures seed { delivery.new.seed ≡ delivery.old.seed }
    ensures serves { (next : Bool) × Serves delivery.old node next delivery.new result }
{
    let mut is_second = false;
    for _ in rt.forever() {
        if ended.load(Ordering::SeqCst) >= 2 {
            return node;
        }
        is_second = serve_once(rt, office, &mut node, delivery, gate, is_second);
    }
    unreachable!()
}

// sends again what is not answered.
fn tick<R: Wait>(rt: &R, office: &Office, node: &mut ClientNode)
    requires { node.old.office ≡ office.now }
    ensures same { IsSameClient node.old node.new }
    ensures ticks { ClientTicks node.old node.new }
    ensures once { node.new.given ≡ suc node.old.given }
{
    let _ = node.turn(rt, office, ClientOrder::Tick);
}

/// Starts, inserts 15=5, gives back what it holds there and leaves; and reports whether it came to
/// that.
pub(crate) fn insert<R: Wait, G: Gate>(
    rt: &R,
    office: &Office,
    mut node: ClientNode,
    delivery: &mut Delivery,
    gate: &mut G,
) -> (ClientNode, bool)
    requires { node.office ≡ office.now }
    ensures same { IsSameClient node result.0 }
    ensures seed { delivery.new.seed ≡ delivery.old.seed }
    ensures goes { Goes delivery.old node delivery.new result.0 }
{
    let mut stage = Writing::Start;
    let mut is_read = false;
    for turn in 0..MAX_TURNS {
        let status = node.status();
        gate.pass(turn, status);
        if delivery.may_lack() {
            tick(rt, office, &mut node);
            continue;
        }
        // A client reads all its letters before it asks for more: one that asked for its lock again
        // before it obeyed a callback would keep the lock for ever.
        let is_waiting = waits(status);
        if is_waiting || !is_read {
            is_read = delivery.read(rt, office, &mut node);
            if is_read && is_waiting {
                gate.pause();
            }
            continue;
        }
        is_read = false;
        stage = stage.seen(status);
        match node.turn(rt, office, stage.order()) {
            Ok(_) => stage = stage.next(),
            Err(Refused::NotHeld) => stage = Writing::Lock,
            Err(_) => {}
        }
        if let Writing::End = stage {
            return (node, true);
        }
    }
    (node, false)
}

fn has_key(rows: &[(u64, Value)], key: u64) -> bool
    ensures { MatchBool result (HasKey key rows.now) (HasKey key rows.now → ⊥) }
{
    for row in rows {
        if row.0 == key {
            return true;
        }
    }
    false
}

// The rows from 11 on below 21, if the client knows them and key 15 is among them.
fn look(node: &ClientNode) -> Result<Option<Rows>, Refused>
    ensures { IfOk result (λ rows. IfSome rows (IsFound node.now.opening)) }
{
    let answer = node.scan(11, 21)?;
    match answer {
        ScanAnswer::Rows(rows) => {
            if has_key(rows.as_slice(), 15) {
                Ok(Some(rows))
            } else {
                Ok(None)
            }
        }
        ScanAnswer::Miss(_) | ScanAnswer::Pending(_) => Ok(None),
    }
}

/// Starts, and locks 15 and 16 and scans 11 to 21 until the rows contain key 15.
pub(crate) fn read<R: Wait, G: Gate>(
    rt: &R,
    office: &Office,
    mut node: ClientNode,
    delivery: &mut Delivery,
    gate: &mut G,
) -> (ClientNode, Option<Rows>)
    requires { node.office ≡ office.now }
    ensures node { IsSameClient node result.0 }
    ensures seed { delivery.new.seed ≡ delivery.old.seed }
    ensures goes { Goes delivery.old node delivery.new result.0 }
    ensures found { IfSome result.1 (IsFound node.opening) }
{
    let mut stage = Reading::Start;
    let mut is_read = false;
    let mut is_rested = false;
    for turn in 0..MAX_TURNS {
        let status = node.status();
        gate.pass(turn, status);
        if delivery.may_lack() {
            tick(rt, office, &mut node);
            continue;
        }
        // A client reads all its letters before it asks for more: one that asked for its lock again
        // before it obeyed a callback would keep the lock for ever.
        let is_waiting = waits(status);
        if is_waiting || !is_read {
            is_read = delivery.read(rt, office, &mut node);
            is_rested = is_rested && is_read;
            if is_read && is_waiting {
                gate.pause();
            }
            continue;
        }
        is_read = false;
        // It rests after letters before it asks for more. By them it may have given back what the
        // writer waits for: asked for again at once, that would be called back from the writer
        // before it could insert.
        if !is_rested {
            is_rested = true;
            gate.pause();
            continue;
        }
        if let Reading::Scan = stage {
            match look(&node) {
                Ok(Some(rows)) => return (node, Some(rows)),
                Ok(None) => stage = Reading::First,
                Err(_) => continue,
            }
        }
        if let Ok(_) = node.turn(rt, office, stage.order()) {
            stage = stage.next();
        }
    }
    (node, None)
}
