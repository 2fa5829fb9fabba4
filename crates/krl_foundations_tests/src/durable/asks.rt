//! What is asked of what survives, one row after another, and what has to come of it.
use crate::again::CALLS;
use crate::durable::starts::{Start, started};
use crate::values::first_bytes;
use krl_durable::{Durable, Record};
use krl_messages::{Outcome, Value, WriteOp};
use krl_modes::END;
use std::alloc::Global;
use std::process::Abort;

/// A value.
#[derive(Clone, Copy)]
pub enum Worth {
    Number(u64),
    /// The first bytes of a text, as many as this.
    First(usize),
}

/// A write.
#[derive(Clone, Copy)]
pub enum Change {
    Insert(u64, Worth),
    Put(u64, Worth),
    Delete(u64),
}

/// A row: what is done, or looked at, and what has to come of it. A client is its number, and comes
/// first.
#[derive(Clone, Copy)]
pub enum Ask {
    /// The client registers with this incarnation.
    Registers(u64, u64),
    /// The client leaves.
    Leaves(u64),
    /// The epoch rises.
    Rises,
    /// The write of the client, which registers first if it has not, is judged so and noted. The
    /// third states whether the client has the lock.
    Writes(u64, Change, bool, Outcome),
    /// The write of client 1 is Applied, and the entry is there or gone.
    Applies(Change),
    /// The write would be judged so.
    Judges(Change, bool, Outcome),
    Epoch(u64),
    /// Those that have not left, in the order in which they first registered.
    Missing(&'static [u64]),
    Recorded(u64, Option<Record>),
    /// The entries of the first run, whose values are numbers.
    Entries(&'static [(u64, u64)]),
    /// How many entries the first run has.
    Count(usize),
    Holds(u64, Worth),
    HasNo(u64),
    /// The slot of the point.
    Slot(u64, u64),
    /// The slot's span begins at the second and ends before the third.
    Spans(u64, u64, u64),
}

fn value_of(worth: Worth) -> Option<Value> {
    match worth {
        Worth::Number(number) => Some(Value::from_u64(number)),
        Worth::First(len) => Value::new(first_bytes(len)),
    }
}

fn write_of(change: Change) -> Option<WriteOp> {
    match change {
        Change::Insert(key, worth) => Some(WriteOp::Insert {
            key,
            value: value_of(worth)?,
        }),
        Change::Put(key, worth) => Some(WriteOp::Put {
            key,
            value: value_of(worth)?,
        }),
        Change::Delete(key) => Some(WriteOp::Delete { key }),
    }
}

// Whether the client registers, at once or after refusals that changed nothing.
fn registers(durable: &mut Durable, c: u64, incarnation: u64) -> bool {
    if c >= 64 || incarnation == 0 || incarnation > END {
        return false;
    }
    let before = durable.record(c);
    for _ in 0..CALLS {
        if durable.register(c, incarnation).is_ok() {
            return true;
        }
        if durable.record(c) != before {
            return false;
        }
    }
    false
}

fn leaves(durable: &mut Durable, c: u64) -> bool {
    if durable.record(c).is_none() {
        return false;
    }
    durable.leave(c);
    true
}

fn rises(durable: &mut Durable) -> bool {
    if durable.epoch() >= END {
        return false;
    }
    durable.next_epoch();
    true
}

// Whether the client's record is the next one, with this outcome.
fn is_noted(durable: &Durable, c: u64, before: Record, outcome: Outcome) -> bool {
    match durable.record(c) {
        None => false,
        Some(record) => {
            record.last == before.last.saturating_add(1) && record.outcome == Some(outcome)
        }
    }
}

// Whether the write of a registered client is judged so and noted.
fn is_judged(durable: &mut Durable, c: u64, op: WriteOp, held: bool, expected: Outcome) -> bool {
    let asked = op;
    let Some(record) = durable.record(c) else {
        return false;
    };
    if record.last >= END || asked.key() >= END {
        return false;
    }
    durable.apply(c, op, held) == expected && is_noted(durable, c, record, expected)
}

fn writes(durable: &mut Durable, c: u64, change: Change, held: bool, expected: Outcome) -> bool {
    if durable.record(c).is_none() && !registers(durable, c, 1) {
        return false;
    }
    match write_of(change) {
        Some(op) => is_judged(durable, c, op, held, expected),
        None => false,
    }
}

fn is_worth(value: Value, worth: Worth) -> bool {
    match worth {
        Worth::Number(number) => value == Value::from_u64(number),
        Worth::First(len) => value.bytes() == first_bytes(len),
    }
}

fn holds(durable: &Durable, key: u64, worth: Worth) -> bool {
    match durable.get(key) {
        Some(value) => is_worth(value, worth),
        None => false,
    }
}

// Whether the entry is as the write leaves it.
fn is_done(durable: &Durable, change: Change) -> bool {
    match change {
        Change::Insert(key, worth) | Change::Put(key, worth) => holds(durable, key, worth),
        Change::Delete(key) => durable.get(key).is_none(),
    }
}

fn judges(durable: &Durable, change: Change, held: bool, expected: Outcome) -> bool {
    match write_of(change) {
        Some(op) => durable.judge(op, held) == expected,
        None => false,
    }
}

// Whether these are missing, asked for again if memory was refused.
fn are_missing(durable: &Durable, alloc: Global, expected: &[u64]) -> bool {
    for _ in 0..CALLS {
        if let Ok(clients) = durable.not_left(alloc) {
            return clients.as_slice() == expected;
        }
    }
    false
}

fn has_entries(durable: &Durable, expected: &[(u64, u64)]) -> bool {
    let run = durable.run(0);
    for (entry, (key, number)) in run.iter().zip(expected) {
        if entry.0 != *key || !is_worth(entry.1, Worth::Number(*number)) {
            return false;
        }
    }
    run.len() == expected.len()
}

fn spans(durable: &Durable, slot: u64, lo: u64, hi: u64) -> bool {
    slot <= END && durable.span_of(slot).lo() == lo && durable.span_of(slot).hi() == hi
}

// Whether it shows what the row states. A row that does something is no such row.
fn shows(durable: &Durable, alloc: Global, ask: Ask) -> bool {
    match ask {
        Ask::Judges(change, held, outcome) => judges(durable, change, held, outcome),
        Ask::Epoch(epoch) => durable.epoch() == epoch,
        Ask::Missing(clients) => are_missing(durable, alloc, clients),
        Ask::Recorded(c, record) => durable.record(c) == record,
        Ask::Entries(entries) => has_entries(durable, entries),
        Ask::Count(count) => durable.run(0).len() == count,
        Ask::Holds(key, worth) => holds(durable, key, worth),
        Ask::HasNo(key) => durable.get(key).is_none(),
        Ask::Slot(point, slot) => durable.slot_of(point) == slot,
        Ask::Spans(slot, lo, hi) => spans(durable, slot, lo, hi),
        _ => false,
    }
}

// Whether the row is so, once it is done.
fn is_so(durable: &mut Durable, alloc: Global, ask: Ask) -> bool {
    match ask {
        Ask::Registers(c, incarnation) => registers(durable, c, incarnation),
        Ask::Leaves(c) => leaves(durable, c),
        Ask::Rises => rises(durable),
        Ask::Writes(c, change, held, outcome) => writes(durable, c, change, held, outcome),
        Ask::Applies(change) => {
            writes(durable, 1, change, true, Outcome::Applied) && is_done(durable, change)
        }
        _ => shows(durable, alloc, ask),
    }
}

// The first row that is not so.
fn first_that_fails(durable: &mut Durable, alloc: Global, rows: &[Ask]) -> Option<usize> {
    for i in 0..rows.len() {
        if !is_so(durable, alloc, rows[i]) {
            return Some(i);
        }
    }
    None
}

// The first row that is not so, of what survives of these entries.
fn fails(
    rt: &impl Abort,
    alloc: Global,
    start: Start,
    entries: &[(u64, Value)],
    rows: &[Ask],
) -> Option<usize> {
    let Some(mut durable) = started(alloc, start, entries) else {
        panic!(rt; "refused");
    };
    first_that_fails(&mut durable, alloc, rows)
}

/// Ends the test with the number of the first of these rows that is not so, if any, of what
/// survives of these entries.
pub fn check(rt: &impl Abort, alloc: Global, start: Start, entries: &[(u64, Value)], rows: &[Ask]) {
    assert_eq!(rt; fails(rt, alloc, start, entries, rows), None);
}
