use super::asks::{Alone, Ask, check};
use super::orders::{ORDERS, is_brought_into_order};
use super::report::Report;
use krl_messages::Outcome;
use krl_modes::{END, KeyPart, Mode, RangePart, TOP};

static TWO_KEYS: [u64; 2] = [10, 20];

static EIGHT_KEYS: [u64; 8] = [10, 20, 30, 40, 50, 60, 70, 80];

static INSERTS: [Ask; 21] = [
    Ask::Gets(0, 15, Mode::RangeIN),
    Ask::Gets(1, 15, Mode::RangeIN),
    Ask::Waits(2, 13, Mode::RangeXX),
    Ask::Waits(3, 18, Mode::RangeXX),
    Ask::Waiting(&[20]),
    Ask::Inserts(15, Outcome::Applied),
    Ask::Holds(0, 15, Mode::RangeIX),
    Ask::Holds(1, 15, Mode::RangeIN),
    Ask::Holds(0, 20, Mode::RangeIN),
    Ask::Spans(15, 11),
    Ask::Spans(20, 16),
    Ask::IsFirst(2, 15),
    Ask::IsFirst(3, 20),
    Ask::Waiting(&[15, 20]),
    Ask::Clears(2),
    Ask::Waiting(&[20]),
    Ask::WaitsNowhere(2),
    // It is an entry now, and the writer holds nothing at 25.
    Ask::Inserts(15, Outcome::Exists),
    Ask::Inserts(25, Outcome::NotHeld),
    Ask::IsNoSlot(25),
    Ask::Waiting(&[20]),
];

#[test]
fn inserts_among_waiters(rt: HostRuntime) {
    check(&rt, rt.alloc(), &TWO_KEYS, &INSERTS);
}

static DELETES: [Ask; 15] = [
    Ask::Gets(0, 5, Mode::RangeXX),
    Ask::Deletes(10, Outcome::NotHeld),
    Ask::Gets(0, 15, Mode::RangeXX),
    Ask::Waits(1, 3, Mode::RangeSS),
    Ask::Waits(2, 15, Mode::RangeSS),
    Ask::Takes(3, 0),
    Ask::Deletes(10, Outcome::Applied),
    Ask::Spans(20, 0),
    Ask::IsNoSlot(10),
    Ask::Holds(0, 20, Mode::RangeXX),
    Ask::IsFirst(1, 20),
    Ask::Drops(20),
    Ask::IsFirst(2, 20),
    Ask::Drops(20),
    Ask::Waiting(&[]),
];

#[test]
fn deletes_between_waiters(rt: HostRuntime) {
    check(&rt, rt.alloc(), &TWO_KEYS, &DELETES);
}

static EIGHT_OF_NINE: [Ask; 18] = [
    // The eight slots from the first key on, though the client asks for all nine.
    Ask::WaitsTo(0, 5, TOP, Mode::RangeSS),
    Ask::Takes(5, 8),
    Ask::Holds(0, 10, Mode::RangeSS),
    Ask::Holds(0, 20, Mode::RangeSS),
    Ask::Holds(0, 30, Mode::RangeSS),
    Ask::Holds(0, 40, Mode::RangeSS),
    Ask::Holds(0, 50, Mode::RangeSS),
    Ask::Holds(0, 60, Mode::RangeSS),
    Ask::Holds(0, 70, Mode::RangeSS),
    Ask::Holds(0, 80, Mode::RangeSS),
    Ask::Holds(0, END, Mode::N),
    // Up to the first slot where another's lock bars the way.
    Ask::Gets(1, 90, Mode::RangeXX),
    Ask::WaitsTo(2, 61, TOP, Mode::RangeSS),
    Ask::Takes(61, 2),
    Ask::Holds(2, 70, Mode::RangeSS),
    Ask::Holds(2, 80, Mode::RangeSS),
    Ask::Holds(2, END, Mode::N),
    Ask::Waiting(&[]),
];

#[test]
fn takes_eight_of_nine_free_slots(rt: HostRuntime) {
    check(&rt, rt.alloc(), &EIGHT_KEYS, &EIGHT_OF_NINE);
}

static AT_ONCE: [Ask; 16] = [
    Ask::IsQuiet(true),
    // As many slots as a waiter would get.
    Ask::TakesAtOnce(0, 5, TOP, Mode::RangeSS, 8),
    Ask::Holds(0, 10, Mode::RangeSS),
    Ask::Holds(0, 80, Mode::RangeSS),
    Ask::Holds(0, END, Mode::N),
    Ask::IsQuiet(true),
    // Another may read there, but not write.
    Ask::TakesAtOnce(1, 15, 16, Mode::RangeSS, 1),
    Ask::TakesAtOnce(2, 15, 16, Mode::RangeXX, 0),
    // There is no entry at 15.
    Ask::TakesAtOnce(2, 15, 16, Mode::S, 0),
    Ask::TakesAtOnce(2, 20, 21, Mode::S, 1),
    Ask::Holds(2, 20, Mode::S),
    // No client goes past one that waits.
    Ask::Waits(3, 15, Mode::RangeXX),
    Ask::IsQuiet(false),
    Ask::TakesAtOnce(4, 15, 16, Mode::RangeSS, 0),
    Ask::Holds(4, 20, Mode::N),
    Ask::IsFirst(3, 20),
];

#[test]
fn grants_at_once_where_nobody_waits(rt: HostRuntime) {
    check(&rt, rt.alloc(), &EIGHT_KEYS, &AT_ONCE);
}

static WAITERS: [Ask; 10] = [
    Ask::Waiting(&[]),
    // Two of them wait in one slot.
    Ask::Waits(0, 55, Mode::RangeSS),
    Ask::Waits(1, 15, Mode::RangeSS),
    Ask::Waits(2, 12, Mode::RangeSS),
    Ask::Waits(3, 5, Mode::RangeSS),
    Ask::Waits(63, 85, Mode::RangeSS),
    Ask::Waiting(&[10, 20, 60, END]),
    // Without the last of them nobody waits there, and where two waited one still does.
    Ask::Clears(63),
    Ask::Clears(1),
    Ask::Waiting(&[10, 20, 60]),
];

#[test]
fn finds_the_slots_where_somebody_waits(rt: HostRuntime) {
    check(&rt, rt.alloc(), &EIGHT_KEYS, &WAITERS);
}

static FIRST_WAITERS: [Ask; 6] = [
    Ask::Gets(5, 15, Mode::RangeXX),
    Ask::FindsNobody(20),
    Ask::Waits(1, 15, Mode::RangeSS),
    Ask::Waits(2, 12, Mode::S),
    Ask::Finds(1, 20, 11, Alone(5, Mode::RangeXX)),
    Ask::FindsNobody(30),
];

#[test]
fn tells_what_a_first_waiter_finds(rt: HostRuntime) {
    check(&rt, rt.alloc(), &EIGHT_KEYS, &FIRST_WAITERS);
}

const FIRST: Report = Report(
    &[(0, 11, RangePart::S), (5, 15, RangePart::I)],
    &[(10, KeyPart::S)],
);

const SECOND: Report = Report(&[(16, 17, RangePart::I)], &[(15, KeyPart::X)]);

const THIRD: Report = Report(
    &[(5, 15, RangePart::I), (0, 11, RangePart::S)],
    &[(20, KeyPart::X)],
);

static REPORTS: [Ask; 18] = [
    Ask::Adopts(0, FIRST),
    Ask::Holds(0, 10, Mode::RangeXS),
    Ask::Holds(0, 20, Mode::RangeIN),
    Ask::Holds(0, END, Mode::N),
    // A key part at a point that is no slot is passed over.
    Ask::Adopts(1, SECOND),
    Ask::Holds(1, 10, Mode::N),
    Ask::Holds(1, 20, Mode::RangeIN),
    // One slot is in the way, so nothing changes on the other either.
    Ask::Contradicts(2, THIRD),
    Ask::Holds(2, 10, Mode::N),
    Ask::Holds(2, 20, Mode::N),
    Ask::Holds(0, 10, Mode::RangeXS),
    Ask::Holds(1, 20, Mode::RangeIN),
    // What was refused is forgotten.
    Ask::Adopts(2, SECOND),
    Ask::Holds(2, 10, Mode::N),
    Ask::Holds(2, 20, Mode::RangeIN),
    // Of what it held before nothing is left.
    Ask::Adopts(0, SECOND),
    Ask::Holds(0, 10, Mode::N),
    Ask::Holds(0, 20, Mode::RangeIN),
];

#[test]
fn brings_reports_into_order(rt: HostRuntime) {
    for (report, expected) in &ORDERS {
        assert!(rt; is_brought_into_order(rt.alloc(), *report, *expected));
    }
}

#[test]
fn takes_reports_in(rt: HostRuntime) {
    check(&rt, rt.alloc(), &TWO_KEYS, &REPORTS);
}
