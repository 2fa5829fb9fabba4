//! What survives a restart: which entries are refused, writes, registration.
mod asks;
mod starts;

use crate::durable::asks::{Ask, Change, Worth, check};
use crate::durable::starts::{LEFT, SILENT, Start, many, refusal, two_entries};
use krl_durable::{EntriesRefused, Room};
use krl_messages::{Outcome, Value};
use krl_modes::{END, MAX_ROOM, TOP};
use std::alloc::Global;
use std::process::Abort;

/// Three keys, of which some are bad, and how the first of those is refused.
static BAD_KEYS: [(u64, u64, u64, EntriesRefused); 4] = [
    (1, 2, 1, EntriesRefused::Twice),
    (END, 2, 2, EntriesRefused::BadKey),
    (2, 2, END, EntriesRefused::Twice),
    (2, END, 2, EntriesRefused::BadKey),
];

// The first row that is not refused so.
fn first_not_refused(alloc: Global, start: Start) -> Option<usize> {
    let zero = Value::from_u64(0);
    for i in 0..BAD_KEYS.len() {
        let (a, b, c, expected) = BAD_KEYS[i];
        if refusal(alloc, start, &[(a, zero), (b, zero), (c, zero)]) != Some(expected) {
            return Some(i);
        }
    }
    None
}

#[test]
fn refuses_the_first_bad_entry(rt: HostRuntime) {
    assert_eq!(rt; first_not_refused(rt.alloc(), Start::Unused), None);
}

#[test]
fn refuses_bad_entries_of_other_parts(rt: HostRuntime) {
    assert_eq!(rt; first_not_refused(rt.alloc(), Start::Brought), None);
}

/// A full index takes an entry only once it has lost one.
static MAKES_ROOM: [Ask; 6] = [
    Ask::Judges(MORE, true, Outcome::Full),
    Ask::Judges(MORE, false, Outcome::NotHeld),
    Ask::Applies(Change::Delete(5)),
    Ask::Applies(MORE),
    Ask::Holds(70000, Worth::Number(1)),
    Ask::HasNo(5),
];

const MORE: Change = Change::Insert(70000, Worth::Number(1));

static FALLS: [Ask; 2] = [Ask::Slot(0, 1), Ask::Slot(65537, END)];

// How one entry more than there may be is refused.
fn refusal_of_one_more(alloc: Global) -> Option<EntriesRefused> {
    refusal(alloc, Start::Unused, &many(alloc, 65537, false)?)
}

// Checks the rows on as many entries as there may be.
fn check_full(rt: &impl Abort, alloc: Global, falls: bool, rows: &[Ask]) {
    let Some(entries) = many(alloc, 65536, falls) else {
        panic!(rt; "no memory");
    };
    check(rt, alloc, Start::Unused, &entries, rows);
}

#[test]
fn large_index_holds_the_most_entries(rt: HostRuntime) {
    check_full(&rt, rt.alloc(), false, &MAKES_ROOM);
    assert!(rt; refusal_of_one_more(rt.alloc()) == Some(EntriesRefused::Full));
}

#[test]
fn large_index_sorts_falling_entries(rt: HostRuntime) {
    check_full(&rt, rt.alloc(), true, &FALLS);
}

/// An index with room for two entries, which has two.
static FULL_AT_TWO: [Ask; 4] = [
    Ask::Writes(3, FIVE_AT_15, true, Outcome::Full),
    Ask::Writes(3, Change::Delete(10), true, Outcome::Applied),
    Ask::Writes(3, FIVE_AT_15, true, Outcome::Applied),
    Ask::Judges(SEVEN_MORE, true, Outcome::Full),
];

const SEVEN_MORE: Change = Change::Insert(16, Worth::Number(7));

#[test]
fn small_index_is_full_at_its_room(rt: HostRuntime) {
    let room = Start::Roomed(2);
    check(&rt, rt.alloc(), room, &two_entries(), &FULL_AT_TWO);
}

#[test]
fn more_entries_than_the_room_are_refused(rt: HostRuntime) {
    let refused = refusal(rt.alloc(), Start::Roomed(1), &two_entries());
    assert!(rt; refused == Some(EntriesRefused::Full));
}

#[test]
fn room_has_bounds(rt: HostRuntime) {
    assert!(rt; Room::new(0).is_none());
    assert!(rt; Room::new(1).is_some());
    assert!(rt; Room::new(MAX_ROOM).is_some());
    assert!(rt; Room::new(MAX_ROOM + 1).is_none());
}

static WRITES: [Ask; 14] = [
    Ask::Entries(&[(10, 1), (20, 2)]),
    Ask::Writes(3, FIVE_AT_15, false, Outcome::NotHeld),
    Ask::Writes(3, FIVE_AT_15, true, Outcome::Applied),
    Ask::Writes(3, SIX_AT_15, true, Outcome::Exists),
    Ask::Writes(3, SIX_AT_15, false, Outcome::Exists),
    Ask::Writes(3, SEVEN_AT_15, false, Outcome::NotHeld),
    Ask::Writes(3, SEVEN_AT_15, true, Outcome::Applied),
    Ask::Writes(3, SEVEN_AT_16, true, Outcome::Absent),
    Ask::Writes(3, Change::Delete(10), true, Outcome::Applied),
    Ask::Writes(3, Change::Delete(10), false, Outcome::Absent),
    Ask::Entries(&[(15, 7), (20, 2)]),
    Ask::Slot(16, 20),
    Ask::Spans(20, 16, 21),
    Ask::Spans(END, 21, TOP),
];

const FIVE_AT_15: Change = Change::Insert(15, Worth::Number(5));

const SIX_AT_15: Change = Change::Insert(15, Worth::Number(6));

const SEVEN_AT_15: Change = Change::Put(15, Worth::Number(7));

const SEVEN_AT_16: Change = Change::Put(16, Worth::Number(7));

#[test]
fn judges_writes_and_notes_them(rt: HostRuntime) {
    check(&rt, rt.alloc(), Start::Unused, &two_entries(), &WRITES);
}

/// A value of each length of `LENGTHS` is inserted at that key, then gets the length of the one as
/// far from the other end, and is taken out.
static LENGTHS_IN_TURN: [Ask; 39] = [
    Ask::Applies(Change::Insert(0, Worth::First(0))),
    Ask::Applies(Change::Insert(1, Worth::First(1))),
    Ask::Applies(Change::Insert(7, Worth::First(7))),
    Ask::Applies(Change::Insert(8, Worth::First(8))),
    Ask::Applies(Change::Insert(9, Worth::First(9))),
    Ask::Applies(Change::Insert(31, Worth::First(31))),
    Ask::Applies(Change::Insert(32, Worth::First(32))),
    Ask::Rises,
    Ask::Holds(0, Worth::First(0)),
    Ask::Applies(Change::Put(0, Worth::First(32))),
    Ask::Holds(1, Worth::First(1)),
    Ask::Applies(Change::Put(1, Worth::First(31))),
    Ask::Holds(7, Worth::First(7)),
    Ask::Applies(Change::Put(7, Worth::First(9))),
    Ask::Holds(8, Worth::First(8)),
    Ask::Applies(Change::Put(8, Worth::First(8))),
    Ask::Holds(9, Worth::First(9)),
    Ask::Applies(Change::Put(9, Worth::First(7))),
    Ask::Holds(31, Worth::First(31)),
    Ask::Applies(Change::Put(31, Worth::First(1))),
    Ask::Holds(32, Worth::First(32)),
    Ask::Applies(Change::Put(32, Worth::First(0))),
    Ask::Rises,
    Ask::Count(7),
    Ask::Holds(0, Worth::First(32)),
    Ask::Applies(Change::Delete(0)),
    Ask::Holds(1, Worth::First(31)),
    Ask::Applies(Change::Delete(1)),
    Ask::Holds(7, Worth::First(9)),
    Ask::Applies(Change::Delete(7)),
    Ask::Holds(8, Worth::First(8)),
    Ask::Applies(Change::Delete(8)),
    Ask::Holds(9, Worth::First(7)),
    Ask::Applies(Change::Delete(9)),
    Ask::Holds(31, Worth::First(1)),
    Ask::Applies(Change::Delete(31)),
    Ask::Holds(32, Worth::First(0)),
    Ask::Applies(Change::Delete(32)),
    Ask::Count(0),
];

#[test]
fn keeps_values_of_each_length(rt: HostRuntime) {
    check(&rt, rt.alloc(), Start::Unused, &[], &LENGTHS_IN_TURN);
}

static REGISTRATIONS: [Ask; 10] = [
    Ask::Registers(5, 1),
    Ask::Registers(2, 1),
    Ask::Registers(9, 1),
    Ask::Registers(5, 2),
    Ask::Missing(&[5, 2, 9]),
    Ask::Leaves(2),
    Ask::Missing(&[5, 9]),
    Ask::Epoch(0),
    Ask::Rises,
    Ask::Epoch(1),
];

#[test]
fn keeps_the_order_of_first_registration(rt: HostRuntime) {
    check(&rt, rt.alloc(), Start::Unused, &[], &REGISTRATIONS);
}

static PARTS: [Ask; 7] = [
    Ask::Epoch(7),
    Ask::Entries(&[(10, 1), (20, 2)]),
    Ask::Missing(&[5]),
    Ask::Recorded(5, Some(SILENT)),
    Ask::Recorded(2, Some(LEFT)),
    Ask::Recorded(3, None),
    // It continues from there.
    Ask::Writes(2, FIVE_AT_15, true, Outcome::Applied),
];

#[test]
fn holds_the_parts_that_it_is_made_of(rt: HostRuntime) {
    check(&rt, rt.alloc(), Start::Brought, &two_entries(), &PARTS);
}

#[test]
fn comes_back_as_it_is_written_out(rt: HostRuntime) {
    check(&rt, rt.alloc(), Start::WrittenOut, &two_entries(), &PARTS);
}
