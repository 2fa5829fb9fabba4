//! Locks over ranges, and values from the shortest to the longest.
use crate::acts::{Act, Asked, Change, Gives, Held, Told};
use crate::named::{A, B, C, FIRST, LOCK_5};
use krl_messages::Outcome;
use krl_modes::{END, KeyPart, Mode, RangePart, TOP};

// On 10=1 and 20=2: one grant covers every slot that begins below the end that was asked for, in
// ascending order, and is sent again as it was.
pub static COVERS: [(Act, Gives); 9] = [
    (Act::Hello(A), Gives::Told(&[Told::Epoch(A, 1)])),
    (Act::Hello(B), Gives::Told(&[Told::Epoch(B, 1)])),
    (
        Act::Asks(A, 1, 0, Asked::LockTo(1, 5, 22, Mode::RangeSS)),
        Gives::Told(&[Told::Grants(A, 1, 1, WHOLE)]),
    ),
    (Act::Nudge(0), Gives::Only(&[Told::Grants(A, 1, 1, WHOLE)])),
    (
        Act::Asks(A, 1, 0, Asked::LockTo(1, 5, 22, Mode::RangeSS)),
        Gives::Only(&[Told::Grants(A, 1, 1, WHOLE)]),
    ),
    // Slot END begins at 21, so a lock up to 21 does not reach it.
    (
        Act::Asks(B, 1, 0, Asked::LockTo(1, 10, 21, Mode::S)),
        Gives::Told(&[Told::Grants(B, 1, 1, ENTRIES)]),
    ),
    // S asks for an entry, which END is not.
    (
        Act::Asks(B, 1, 1, Asked::LockTo(2, 20, TOP, Mode::S)),
        Gives::Told(&[Told::Grant(B, 2, 2, Held(11, 21, Mode::S, Some("2")))]),
    ),
    (
        Act::Asks(B, 1, 2, Asked::LockTo(3, 11, TOP, Mode::S)),
        Gives::Told(&[Told::Absent(B, 3, 3, 11)]),
    ),
    (
        Act::Asks(A, 1, 1, Asked::LockTo(2, END, TOP, Mode::RangeSS)),
        Gives::Told(&[Told::Grant(A, 2, 2, Held(21, TOP, Mode::RangeSS, None))]),
    ),
];

// On 10=1 and 20=2, with a reach of two: a grant ends after two slots, though the next one is free.
pub static ENDS_AT_THE_REACH: [(Act, Gives); 2] = [
    (Act::Hello(A), Gives::Told(&[Told::Epoch(A, 1)])),
    (
        Act::Asks(A, 1, 0, Asked::LockTo(1, 5, TOP, Mode::RangeSS)),
        Gives::Told(&[Told::Grants(A, 1, 1, FIRST_TWO)]),
    ),
];

// The same after a crash, with a reach of one: the next grant ends after one slot.
pub static ENDS_AT_THE_NEXT_REACH: [(Act, Gives); 3] = [
    (Act::Hello(A), Gives::Only(&[Told::Epoch(A, 2)])),
    (Act::Report(A, 2, &[], &[]), Gives::Told(&[])),
    (
        Act::Asks(A, 2, 0, Asked::LockTo(1, 5, TOP, Mode::RangeSS)),
        Gives::Told(&[Told::Grant(A, 1, 1, Held(0, 11, Mode::RangeSS, Some("1")))]),
    ),
];

const FIRST_TWO: &[Held] = &[
    Held(0, 11, Mode::RangeSS, Some("1")),
    Held(11, 21, Mode::RangeSS, Some("2")),
];

const WHOLE: &[Held] = &[
    Held(0, 11, Mode::RangeSS, Some("1")),
    Held(11, 21, Mode::RangeSS, Some("2")),
    Held(21, TOP, Mode::RangeSS, None),
];

const ENTRIES: &[Held] = &[
    Held(0, 11, Mode::S, Some("1")),
    Held(11, 21, Mode::S, Some("2")),
];

// On 10=1 and 20=2: a grant ends before a slot where another client's lock forbids it, though the
// slot after it is free, and nobody is called back for it. If the first slot is such a one the
// client waits there.
pub static ENDS_BEFORE_A_HELD_SLOT: [(Act, Gives); 8] = [
    (Act::Hello(A), Gives::Told(&[Told::Epoch(A, 1)])),
    (Act::Hello(B), Gives::Told(&[Told::Epoch(B, 1)])),
    (
        Act::Asks(A, 1, 0, Asked::Lock(1, 20, Mode::X)),
        Gives::Told(&[Told::Grant(A, 1, 1, Held(11, 21, Mode::X, Some("2")))]),
    ),
    (
        Act::Asks(B, 1, 0, Asked::LockTo(1, 5, TOP, Mode::RangeSS)),
        Gives::Told(&[Told::Grant(B, 1, 1, Held(0, 11, Mode::RangeSS, Some("1")))]),
    ),
    (Act::Asks(A, 1, 1, Asked::Ack), Gives::Told(&[])),
    (Act::Nudge(0), Gives::Only(&[])),
    (
        Act::Asks(B, 1, 1, Asked::LockTo(2, 11, TOP, Mode::RangeSS)),
        Gives::Told(&[Told::Callback(A, 11, 21, Mode::RangeSU)]),
    ),
    // Once it is let in, it continues over the slot after it.
    (
        Act::Asks(A, 1, 1, Asked::Release(11, 21, Mode::N)),
        Gives::Told(&[Told::Grants(
            B,
            2,
            2,
            &[
                Held(11, 21, Mode::RangeSS, Some("2")),
                Held(21, TOP, Mode::RangeSS, None),
            ],
        )]),
    ),
];

// On 10=1 and 20=2: a grant ends before a slot where somebody waits, though its mode could stand
// there.
pub static ENDS_BEFORE_A_WAITER: [(Act, Gives); 8] = [
    (Act::Hello(A), Gives::Told(&[Told::Epoch(A, 1)])),
    (Act::Hello(B), Gives::Told(&[Told::Epoch(B, 1)])),
    (Act::Hello(C), Gives::Told(&[Told::Epoch(C, 1)])),
    (
        Act::Asks(A, 1, 0, Asked::Lock(1, 11, Mode::RangeSS)),
        Gives::Told(&[Told::Grant(A, 1, 1, Held(11, 21, Mode::RangeSS, Some("2")))]),
    ),
    (
        Act::Asks(B, 1, 0, Asked::Lock(1, 11, Mode::RangeXX)),
        Gives::Told(&[Told::Callback(A, 11, 21, Mode::N)]),
    ),
    (
        Act::Asks(C, 1, 0, Asked::LockTo(1, 5, TOP, Mode::RangeSS)),
        Gives::Told(&[
            Told::Grant(C, 1, 1, Held(0, 11, Mode::RangeSS, Some("1"))),
            Told::Callback(A, 11, 21, Mode::N),
        ]),
    ),
    (
        Act::Asks(A, 1, 1, Asked::Release(11, 21, Mode::N)),
        Gives::Told(&[Told::Grant(B, 1, 1, Held(11, 21, Mode::RangeXX, Some("2")))]),
    ),
    // The same lock reaches no further while the one that waited holds its slot.
    (
        Act::Asks(C, 1, 1, Asked::LockTo(2, 5, TOP, Mode::RangeSS)),
        Gives::Told(&[Told::Grant(C, 2, 2, Held(0, 11, Mode::RangeSS, Some("1")))]),
    ),
];

// The bytes of the longest value.
const LONGEST: &str = "this text has thirty-two bytes..";

// A's two values, which B and C read.
const READ: &[Held] = &[
    Held(0, 4, Mode::RangeSS, Some("")),
    Held(4, 11, Mode::RangeSS, Some(LONGEST)),
];

// On 10=1: A gives the entry the longest value, and inserts another of no bytes; it is called back,
// and B reads both.
pub static WRITES_VALUES: [(Act, Gives); 8] = [
    (Act::Hello(A), Gives::Told(&[Told::Epoch(A, 1)])),
    (Act::Hello(B), Gives::Told(&[Told::Epoch(B, 1)])),
    (
        Act::Asks(A, 1, 0, LOCK_5),
        Gives::Told(&[Told::Grant(A, 1, 1, FIRST)]),
    ),
    (
        Act::Asks(A, 1, 1, Asked::Write(1, Change::Put(10, LONGEST))),
        Gives::Told(&[Told::Answer(
            A,
            2,
            1,
            Outcome::Applied,
            Held(0, 11, Mode::RangeXX, Some(LONGEST)),
        )]),
    ),
    (
        Act::Asks(A, 1, 2, Asked::Write(2, Change::Insert(3, ""))),
        Gives::Told(&[Told::Answer(
            A,
            3,
            2,
            Outcome::Applied,
            Held(0, 4, Mode::RangeXX, Some("")),
        )]),
    ),
    (
        Act::Asks(B, 1, 0, Asked::LockTo(1, 3, 11, Mode::RangeSS)),
        Gives::Told(&[Told::Callback(A, 0, 4, Mode::RangeSU)]),
    ),
    (
        Act::Asks(A, 1, 3, Asked::Release(0, 11, Mode::RangeSU)),
        Gives::Told(&[Told::Grants(B, 1, 1, READ)]),
    ),
    (Act::Entries, Gives::Entries(&[(3, ""), (10, LONGEST)])),
];

// After a restart C reads both too.
pub static READS_VALUES_AGAIN: [(Act, Gives); 6] = [
    (Act::Missing, Gives::Missing(&[0, 1])),
    (
        Act::Report(
            A,
            2,
            &[(0, 11, RangePart::S)],
            &[(3, KeyPart::U), (10, KeyPart::U)],
        ),
        Gives::Told(&[]),
    ),
    (
        Act::Report(
            B,
            2,
            &[(0, 11, RangePart::S)],
            &[(3, KeyPart::S), (10, KeyPart::S)],
        ),
        Gives::Told(&[]),
    ),
    (Act::Hello(C), Gives::Told(&[Told::Epoch(C, 2)])),
    (
        Act::Asks(C, 2, 0, Asked::LockTo(1, 0, 11, Mode::RangeSS)),
        Gives::Told(&[Told::Grants(C, 1, 1, READ)]),
    ),
    (Act::Entries, Gives::Entries(&[(3, ""), (10, LONGEST)])),
];
