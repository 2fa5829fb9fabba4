//! What survives, made of its parts. A call that is refused memory is made again, so that each run
//! ends alike, whichever one or two allocations in a row fail.
use crate::again::CALLS;
use krl_durable::{Durable, EntriesRefused, Limits, Record, Room};
use krl_messages::{Outcome, Value};
use std::alloc::{AllocError, Global};

/// What there is next to the entries.
#[derive(Clone, Copy)]
pub enum Start {
    /// Nothing has happened to them yet.
    Unused,
    /// Epoch 7, and the records of two clients.
    Brought,
    /// The same, written out and brought back.
    WrittenOut,
    /// The same, with room for so many entries.
    Roomed(usize),
}

/// A client that has not left, and never wrote.
pub const SILENT: Record = Record {
    incarnation: 1,
    left: false,
    last: 0,
    outcome: None,
};

/// A client that has left after its fourth write.
pub const LEFT: Record = Record {
    incarnation: 3,
    left: true,
    last: 4,
    outcome: Some(Outcome::Applied),
};

static RECORDS: [(u64, Record); 2] = [(5, SILENT), (2, LEFT)];

/// Two entries, the later one first.
pub fn two_entries() -> [(u64, Value); 2] {
    [(20, Value::from_u64(2)), (10, Value::from_u64(1))]
}

fn brought(
    alloc: Global,
    limits: Limits,
    entries: &[(u64, Value)],
) -> Result<Durable, EntriesRefused> {
    Durable::from_parts(alloc, limits, entries, 7, &RECORDS)
}

// What it shows, written out and brought back.
fn written_out(alloc: Global, durable: &Durable) -> Result<Durable, EntriesRefused> {
    let records = durable.records(alloc)?;
    Durable::from_parts(
        alloc,
        durable.limits(),
        durable.run(0),
        durable.epoch(),
        &records,
    )
}

// With room for so many entries, written out and brought back.
fn roomed(alloc: Global, room: usize, entries: &[(u64, Value)]) -> Result<Durable, EntriesRefused> {
    let room = Room::new(room).ok_or(EntriesRefused::Full)?;
    let limits = Limits {
        room,
        ..Limits::standard()
    };
    written_out(alloc, &brought(alloc, limits, entries)?)
}

fn try_start(
    alloc: Global,
    start: Start,
    entries: &[(u64, Value)],
) -> Result<Durable, EntriesRefused> {
    match start {
        Start::Unused => Durable::new(alloc, entries),
        Start::Brought => brought(alloc, Limits::standard(), entries),
        Start::WrittenOut => written_out(alloc, &brought(alloc, Limits::standard(), entries)?),
        Start::Roomed(room) => roomed(alloc, room, entries),
    }
}

/// What survives of these entries. None if it is refused.
pub fn started(alloc: Global, start: Start, entries: &[(u64, Value)]) -> Option<Durable> {
    for _ in 0..CALLS {
        if let Ok(durable) = try_start(alloc, start, entries) {
            return Some(durable);
        }
    }
    None
}

/// How these entries are refused. None if they are not.
pub fn refusal(alloc: Global, start: Start, entries: &[(u64, Value)]) -> Option<EntriesRefused> {
    for _ in 1..CALLS {
        match try_start(alloc, start, entries) {
            Err(EntriesRefused::OutOfMemory) => {}
            answer => return answer.err(),
        }
    }
    try_start(alloc, start, entries).err()
}

// As many entries as this, with keys that fall or rise.
fn try_many(alloc: Global, n: u64, falls: bool) -> Result<Vec<(u64, Value)>, AllocError> {
    let mut entries = Vec::new(alloc);
    for i in 0..n {
        let key = if falls { n.saturating_sub(i) } else { i };
        entries.push((key, Value::from_u64(i)))?;
    }
    Ok(entries)
}

/// As many entries as this, with keys that fall or rise. None if memory is refused.
pub fn many(alloc: Global, n: u64, falls: bool) -> Option<Vec<(u64, Value)>> {
    for _ in 0..CALLS {
        if let Ok(entries) = try_many(alloc, n, falls) {
            return Some(entries);
        }
    }
    None
}
