//! A table next to what survives, as one value: tests ask it for locks and writes, and look at what
//! it answers.
ghost use Rattle.std.specs.Prelude.{◌≡◌, ◌<◌, true, IfSome, IsSomeAnd};
ghost use Rattle.krl_modes.specs.declared.point.TheConstants.{END};
ghost use Rattle.krl_durable.specs.Registers.{record_of};

use super::report::{Report, pieces};
use crate::again::CALLS;
use krl_durable::{Durable, EntriesRefused, Limits, Record};
use krl_messages::{Outcome, Value, WriteOp};
use krl_modes::{END, Mode, Point, TOP};
use krl_queue::{WaitNode, Waiter};
use krl_table::{Reply, Table};
use std::alloc::{AllocError, Global};
use std::marker::Model;

/// The client that is registered, and so may write.
const WRITER: u64 = 0;

static REGISTERED: [(u64, Record); 1] = [(
    WRITER,
    Record {
        incarnation: 1,
        left: false,
        last: 0,
        outcome: None,
    },
)];

/// A table, and what survives, whose slots its rows stand at. Contracts see nothing of it: a test
/// looks only at answers.
pub struct Bench {
    durable: Durable,
    table: Table,
}

impl Model for Bench {
    ghost use Rattle.std.specs.Prelude.{◌<◌};
    ghost use Rattle.krl_table.specs.KeptRows.{IsOver};

    ghost Value = { Unit {0} };

    ghost view = { λ _. tt };

    ghost invariant = { λ b. IsOver b.durable.index b.table.map
        × (b.durable.room < b.table.room) };
}

impl Drop for Bench {
    fn drop(self) {
        let Bench {
            durable: _,
            table: _,
        } = self;
    }
}

/// A waiter that asks from the point up to `hi`.
fn waiter(client: u64, at: u64, hi: u64, mode: Mode) -> Option<Waiter>
    ensures { IfSome result (λ made. made.client ≡ client) }
{
    let point = Point::new(at)?;
    Some(Waiter {
        client,
        req: 1,
        point,
        hi,
        mode,
    })
}

/// A node of the waiter. One that is refused memory is made again of the waiter that came back,
/// twice at most.
fn node(alloc: Global, waiter: Waiter) -> Option<WaitNode>
    ensures { IfSome result (λ made. made ≡ waiter) }
{
    WaitNode::try_new(alloc, waiter)
        .or_else(|refused| WaitNode::try_new(alloc, refused.value))
        .or_else(|refused| WaitNode::try_new(alloc, refused.value))
        .ok()
}

/// Entries at these keys.
fn entries_at(alloc: Global, keys: &[u64]) -> Result<Vec<(u64, Value)>, AllocError> {
    let mut entries = Vec::new(alloc);
    for key in keys {
        entries.push((*key, Value::from_u64(*key)))?;
    }
    Ok(entries)
}

/// What survives of entries at these keys, if the writer is registered.
fn durable_of(alloc: Global, keys: &[u64]) -> Result<Durable, EntriesRefused> {
    let entries = entries_at(alloc, keys)?;
    Durable::from_parts(alloc, Limits::standard(), &entries, 0, &REGISTERED)
}

/// The writer is registered, and there is a number for another write of it.
fn has_number(durable: &Durable) -> bool
    ensures { result ≡ true
        → IsSomeAnd (record_of durable.now.register 0) (λ r. r.last < END) }
{
    match durable.record(WRITER) {
        Some(record) => record.last < END,
        None => false,
    }
}

/// The modes at a slot where one client has this one, and no other client has any.
fn alone(client: usize, mode: Mode) -> [Mode; 64] {
    let mut modes = [Mode::N; 64];
    if client < 64 {
        modes[client] = mode;
    }
    modes
}

impl Bench {
    fn try_open(alloc: Global, keys: &[u64]) -> Result<Bench, EntriesRefused> {
        let durable = durable_of(alloc, keys)?;
        let _kept = durable.epoch();
        let table = Table::new(alloc, durable.room())?;
        Ok(Bench { durable, table })
    }

    /// A table in which nobody holds anything and nobody waits, over entries at these keys. One
    /// that is refused memory is opened again.
    pub fn open(alloc: Global, keys: &[u64]) -> Option<Bench> {
        for _ in 0..CALLS {
            if let Ok(bench) = Bench::try_open(alloc, keys) {
                return Some(bench);
            }
        }
        None
    }

    /// The client, which waits nowhere yet, waits at the point.
    pub fn waits(&mut self, alloc: Global, client: u64, at: u64, mode: Mode) -> bool {
        at < TOP && self.waits_to(alloc, client, at, at + 1, mode)
    }

    /// It waits at the point, for a lock of the points from there up to `hi`.
    pub fn waits_to(&mut self, alloc: Global, client: u64, at: u64, hi: u64, mode: Mode) -> bool {
        if client >= 64 || self.table.waiter_of(client).is_some() {
            return false;
        }
        let Some(waiter) = waiter(client, at, hi, mode) else {
            return false;
        };
        match node(alloc, waiter) {
            Some(node) => {
                self.table.enqueue(&self.durable, node);
                true
            }
            None => false,
        }
    }

    /// The client asks for the points from this one up to `hi`, and gets them at once: the slots
    /// that are taken.
    pub fn taken_at_once(&mut self, client: u64, at: u64, hi: u64, mode: Mode) -> usize {
        if client >= 64 {
            return 0;
        }
        let Some(waiter) = waiter(client, at, hi, mode) else {
            return 0;
        };
        match self.table.grant_at_once(&self.durable, &waiter) {
            Some(taken) => taken.len(),
            None => 0,
        }
    }

    /// Nobody waits.
    pub fn is_quiet(&self) -> bool {
        self.table.nobody_waits()
    }

    /// The first waiter at the point's slot gets what it wants: the slots that are taken.
    pub fn taken(&mut self, at: u64) -> usize {
        let slot = self.durable.slot_of(at);
        match self.table.answerable(slot, true) {
            Some(Reply::Grant) => {
                let taken = self.table.grant(&self.durable, slot);
                taken.len()
            }
            Some(Reply::Absent) | None => 0,
        }
    }

    /// The client's mode at the point. None if that is no slot.
    pub fn mode(&self, client: u64, at: u64) -> Option<Mode> {
        if client < 64 && self.durable.slot_of(at) == at {
            Some(self.table.mode(at, client))
        } else {
            None
        }
    }

    /// Where the span of the slot at this point begins. None if there is none.
    pub fn span_from(&self, at: u64) -> Option<u64> {
        if at <= END && self.durable.slot_of(at) == at {
            Some(self.durable.span_of(at).lo())
        } else {
            None
        }
    }

    /// The client that is first at the point's slot.
    pub fn first(&self, at: u64) -> Option<u64> {
        let waiter = self.table.front(self.durable.slot_of(at))?;
        Some(waiter.client)
    }

    /// The client is first at the point's slot, whose span begins there, and finds the holder's
    /// mode, and no other.
    pub fn finds(&self, client: u64, at: u64, lo: u64, holder: usize, mode: Mode) -> bool {
        let slot = self.durable.slot_of(at);
        match self.table.first(&self.durable, slot) {
            Some(first) => {
                first.waiter.client == client
                    && first.span.lo() == lo
                    && first.modes == alone(holder, mode)
            }
            None => false,
        }
    }

    /// Nobody is first at the point's slot.
    pub fn finds_nobody(&self, at: u64) -> bool {
        let slot = self.durable.slot_of(at);
        self.table.first(&self.durable, slot).is_none()
    }

    /// Somebody waits at these slots, and at no other.
    pub fn waiting(&self, slots: &[u64]) -> bool {
        let waiting = self.table.waiting_slots(&self.durable);
        waiting.as_slice() == slots
    }

    /// The client has no waiter.
    pub fn waits_nowhere(&self, client: u64) -> bool {
        client < 64 && self.table.waiter_of(client).is_none()
    }

    /// The first waiter at the point's slot goes.
    pub fn drops(&mut self, at: u64) -> bool {
        let slot = self.durable.slot_of(at);
        self.table.drop_front(slot);
        true
    }

    /// The client goes.
    pub fn clears(&mut self, client: u64) -> bool {
        if client >= 64 {
            return false;
        }
        self.table.clear(client);
        true
    }

    /// The client reports this: whether it is taken in, or contradicts what others hold.
    pub fn adopts(&mut self, alloc: Global, client: u64, report: Report) -> Option<bool> {
        if client >= 64 {
            return None;
        }
        let pieces = pieces(alloc, report)?;
        let adopted = self.table.adopt_report(&self.durable, client, &pieces);
        Some(adopted.is_ok())
    }

    /// How the writer's insert of the key is judged. If it is Applied, the key is a slot then.
    pub fn inserts(&mut self, key: u64) -> Option<Outcome> {
        let Some(point) = Point::new(key) else {
            return None;
        };
        if key >= END || !has_number(&self.durable) {
            return None;
        }
        let op = WriteOp::Insert {
            key,
            value: Value::from_u64(key),
        };
        let (needed, judged) = (op, op);
        let held = self.table.held(&self.durable, WRITER, needed);
        match self.durable.judge(judged, held) {
            Outcome::Applied => {
                self.table.split(&self.durable, point, WRITER);
                Some(self.durable.apply(WRITER, op, held))
            }
            refused => Some(refused),
        }
    }

    /// How the writer's delete of the key is judged. If it is Applied, the key is no slot then.
    pub fn deletes(&mut self, key: u64) -> Option<Outcome> {
        if key >= END || !has_number(&self.durable) {
            return None;
        }
        let op = WriteOp::Delete { key };
        let (needed, judged) = (op, op);
        let held = self.table.held(&self.durable, WRITER, needed);
        match self.durable.judge(judged, held) {
            Outcome::Applied => {
                self.table.merge(&self.durable, key);
                Some(self.durable.apply(WRITER, op, held))
            }
            refused => Some(refused),
        }
    }
}
