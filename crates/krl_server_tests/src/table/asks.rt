//! What a table is asked, one row after another, and what it has to give.
use super::bench::Bench;
use super::report::Report;
use krl_messages::Outcome;
use krl_modes::Mode;
use std::alloc::Global;
use std::process::Abort;

/// A client that has this mode, if no other has one.
#[derive(Clone, Copy)]
pub struct Alone(pub usize, pub Mode);

/// A row: what is done to the table, or looked at, and what has to come of it. A client is its
/// number, and comes first; a slot is that of the point.
#[derive(Clone, Copy)]
pub enum Ask {
    /// The client waits at the point for the mode, and gets it on one slot.
    Gets(u64, u64, Mode),
    /// The client, which waits nowhere yet, waits at the point.
    Waits(u64, u64, Mode),
    /// The same, for a lock of the points from there up to one past the last.
    WaitsTo(u64, u64, u64, Mode),
    /// The first waiter of the slot is granted this many slots; none if it has to wait.
    Takes(u64, usize),
    /// The client asks from the point up to one past the last, and is granted this many slots at
    /// once.
    TakesAtOnce(u64, u64, u64, Mode, usize),
    /// The first waiter of the slot goes.
    Drops(u64),
    /// The client goes.
    Clears(u64),
    /// The writer inserts the key, and receives the outcome.
    Inserts(u64, Outcome),
    /// The writer deletes the key, and receives the outcome.
    Deletes(u64, Outcome),
    /// The client's report is taken in.
    Adopts(u64, Report),
    /// The client's report contradicts what others hold.
    Contradicts(u64, Report),
    /// The point is a slot, if the client has this mode.
    Holds(u64, u64, Mode),
    /// The point is a slot, whose span begins there.
    Spans(u64, u64),
    /// The point is no slot.
    IsNoSlot(u64),
    /// The client is first at the slot.
    IsFirst(u64, u64),
    /// The client is first at the slot, whose span begins there, and finds only this mode.
    Finds(u64, u64, u64, Alone),
    /// Nobody waits at the slot.
    FindsNobody(u64),
    /// Somebody waits at these slots, and at no other.
    Waiting(&'static [u64]),
    /// Whether nobody waits anywhere.
    IsQuiet(bool),
    /// The client has no waiter.
    WaitsNowhere(u64),
}

/// Whether the table shows what the row states. A row that does something is no such row.
fn shows(bench: &Bench, ask: Ask) -> bool {
    match ask {
        Ask::Holds(client, at, mode) => bench.mode(client, at) == Some(mode),
        Ask::Spans(at, lo) => bench.span_from(at) == Some(lo),
        Ask::IsNoSlot(at) => bench.span_from(at).is_none(),
        Ask::IsFirst(client, at) => bench.first(at) == Some(client),
        Ask::Finds(client, at, lo, Alone(holder, mode)) => {
            bench.finds(client, at, lo, holder, mode)
        }
        Ask::FindsNobody(at) => bench.finds_nobody(at),
        Ask::Waiting(slots) => bench.waiting(slots),
        Ask::IsQuiet(expected) => bench.is_quiet() == expected,
        Ask::WaitsNowhere(client) => bench.waits_nowhere(client),
        _ => false,
    }
}

/// Whether the row is so, once it is done.
fn is_so(bench: &mut Bench, alloc: Global, ask: Ask) -> bool {
    match ask {
        Ask::Gets(client, at, mode) => bench.waits(alloc, client, at, mode) && bench.taken(at) == 1,
        Ask::Waits(client, at, mode) => bench.waits(alloc, client, at, mode),
        Ask::WaitsTo(client, at, hi, mode) => bench.waits_to(alloc, client, at, hi, mode),
        Ask::Takes(at, slots) => bench.taken(at) == slots,
        Ask::TakesAtOnce(client, at, hi, mode, slots) => {
            bench.taken_at_once(client, at, hi, mode) == slots
        }
        Ask::Drops(at) => bench.drops(at),
        Ask::Clears(client) => bench.clears(client),
        Ask::Inserts(key, outcome) => bench.inserts(key) == Some(outcome),
        Ask::Deletes(key, outcome) => bench.deletes(key) == Some(outcome),
        Ask::Adopts(client, report) => bench.adopts(alloc, client, report) == Some(true),
        Ask::Contradicts(client, report) => bench.adopts(alloc, client, report) == Some(false),
        _ => shows(bench, ask),
    }
}

/// The first row that is not so.
fn first_that_fails(bench: &mut Bench, alloc: Global, rows: &[Ask]) -> Option<usize> {
    for i in 0..rows.len() {
        if !is_so(bench, alloc, rows[i]) {
            return Some(i);
        }
    }
    None
}

/// The first of these rows that is not so, on a table over entries at these keys.
fn fails(rt: &impl Abort, alloc: Global, keys: &[u64], rows: &[Ask]) -> Option<usize> {
    let Some(mut bench) = Bench::open(alloc, keys) else {
        panic!(rt; "no table opens");
    };
    first_that_fails(&mut bench, alloc, rows)
}

/// Ends the test with the number of the first of these rows that is not so, if any, on a table over
/// entries at these keys.
pub fn check(rt: &impl Abort, alloc: Global, keys: &[u64], rows: &[Ask]) {
    assert_eq!(rt; fails(rt, alloc, keys, rows), None);
}
