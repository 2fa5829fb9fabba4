//! Writes, and write that are sent again after a restart.
use crate::acts::{Act, Asked, Change, Gives, Held, Told};
use crate::named::{A, B, BOTH, DELETE, FIRST, LOCK_3, LOCK_5, SECOND};
use krl_messages::Outcome;
use krl_modes::{END, KeyPart, Mode, RangePart};

// On 10=1 and 20=2: each outcome of a write, a write that is sent again, and numbers that are none.
pub static WRITES: [(Act, Gives); 22] = [
    (Act::Hello(A), Gives::Told(&[Told::Epoch(A, 1)])),
    (Act::Hello(B), Gives::Told(&[Told::Epoch(B, 1)])),
    (
        Act::Asks(A, 1, 0, LOCK_5),
        Gives::Told(&[Told::Grant(A, 1, 1, FIRST)]),
    ),
    (
        Act::Asks(A, 1, 1, Asked::Lock(2, 11, Mode::RangeXX)),
        Gives::Told(&[Told::Grant(A, 2, 2, SECOND)]),
    ),
    (
        Act::Asks(A, 1, 2, DELETE),
        Gives::Told(&[Told::Answer(A, 3, 1, Outcome::Applied, BOTH)]),
    ),
    (Act::Entries, Gives::Entries(&[(20, "2")])),
    (
        Act::Asks(B, 1, 0, LOCK_3),
        Gives::Told(&[Told::Callback(A, 0, 21, Mode::RangeSU)]),
    ),
    (
        Act::Asks(A, 1, 3, DELETE),
        Gives::Told(&[
            Told::Answer(A, 4, 1, Outcome::Applied, BOTH),
            Told::Callback(A, 0, 21, Mode::RangeSU),
        ]),
    ),
    (
        Act::Asks(A, 1, 4, Asked::Ack),
        Gives::Told(&[Told::Callback(A, 0, 21, Mode::RangeSU)]),
    ),
    // B waits below the new entry.
    (
        Act::Asks(A, 1, 4, Asked::Write(2, Change::Insert(7, "70"))),
        Gives::Told(&[
            Told::Answer(
                A,
                5,
                2,
                Outcome::Applied,
                Held(0, 8, Mode::RangeXX, Some("70")),
            ),
            Told::Callback(A, 0, 8, Mode::RangeSU),
        ]),
    ),
    (Act::Entries, Gives::Entries(&[(7, "70"), (20, "2")])),
    (
        Act::Asks(A, 1, 5, Asked::Release(0, 8, Mode::RangeSU)),
        Gives::Told(&[Told::Grant(B, 1, 1, Held(0, 8, Mode::RangeSS, Some("70")))]),
    ),
    (
        Act::Asks(A, 1, 5, Asked::Write(3, Change::Insert(7, "71"))),
        Gives::Told(&[Told::Answer(
            A,
            6,
            3,
            Outcome::Exists,
            Held(0, 8, Mode::RangeSU, Some("70")),
        )]),
    ),
    (
        Act::Asks(A, 1, 6, Asked::Write(4, Change::Delete(9))),
        Gives::Told(&[Told::Answer(
            A,
            7,
            4,
            Outcome::Absent,
            Held(8, 21, Mode::RangeXX, Some("2")),
        )]),
    ),
    (
        Act::Asks(A, 1, 7, Asked::Write(5, Change::Put(20, "3"))),
        Gives::Told(&[Told::Answer(
            A,
            8,
            5,
            Outcome::Applied,
            Held(8, 21, Mode::RangeXX, Some("3")),
        )]),
    ),
    (
        Act::Asks(B, 1, 1, Asked::Write(1, Change::Put(20, "4"))),
        Gives::Told(&[Told::Answer(B, 2, 1, Outcome::NotHeld, Held(8, 21, Mode::N, None))]),
    ),
    // Numbers of an earlier write, of none, and of one too far; keys that are none.
    (
        Act::Asks(A, 1, 8, Asked::Write(4, Change::Delete(9))),
        Gives::Told(&[]),
    ),
    (
        Act::Asks(A, 1, 8, Asked::Write(0, Change::Delete(7))),
        Gives::Only(&[]),
    ),
    (
        Act::Asks(A, 1, 8, Asked::Write(7, Change::Delete(7))),
        Gives::Only(&[]),
    ),
    (
        Act::Asks(A, 1, 8, Asked::Write(END + 1, Change::Delete(7))),
        Gives::Only(&[]),
    ),
    (
        Act::Asks(A, 1, 8, Asked::Write(6, Change::Insert(END, "1"))),
        Gives::Only(&[]),
    ),
    (Act::Entries, Gives::Entries(&[(7, "70"), (20, "3")])),
];

// A deletes, and the answer gets lost; then the server crashes.
pub static LOSES_AN_ANSWER: [(Act, Gives); 5] = [
    (Act::Hello(A), Gives::Told(&[Told::Epoch(A, 1)])),
    (Act::Hello(B), Gives::Told(&[Told::Epoch(B, 1)])),
    (
        Act::Asks(A, 1, 0, LOCK_5),
        Gives::Told(&[Told::Grant(A, 1, 1, FIRST)]),
    ),
    (
        Act::Asks(A, 1, 1, Asked::Lock(2, 15, Mode::RangeXX)),
        Gives::Told(&[Told::Grant(A, 2, 2, SECOND)]),
    ),
    (
        Act::Asks(A, 1, 2, DELETE),
        Gives::Told(&[Told::Answer(A, 3, 1, Outcome::Applied, BOTH)]),
    ),
];

// A sends its write again, and is answered with what became of it; B gets its lock once A has given
// way.
pub static ANSWERS_AGAIN: [(Act, Gives); 12] = [
    (
        Act::Report(
            A,
            2,
            &[(0, 21, RangePart::X)],
            &[(10, KeyPart::X), (20, KeyPart::X)],
        ),
        Gives::Told(&[]),
    ),
    (Act::Report(B, 2, &[], &[]), Gives::Told(&[])),
    (
        Act::Asks(B, 2, 0, LOCK_3),
        Gives::Told(&[Told::Callback(A, 0, 21, Mode::RangeSU)]),
    ),
    // A's write is outstanding, so it does not give way yet: it reports, and sends its write again.
    (
        Act::Report(
            A,
            2,
            &[(0, 21, RangePart::X)],
            &[(10, KeyPart::X), (20, KeyPart::X)],
        ),
        Gives::Only(&[]),
    ),
    (
        Act::Asks(A, 2, 0, DELETE),
        Gives::Told(&[
            Told::Answer(A, 1, 1, Outcome::Applied, BOTH),
            Told::Callback(A, 0, 21, Mode::RangeSU),
        ]),
    ),
    (Act::Entries, Gives::Entries(&[(20, "2")])),
    (
        Act::Asks(A, 2, 1, Asked::Ack),
        Gives::Told(&[Told::Callback(A, 0, 21, Mode::RangeSU)]),
    ),
    (
        Act::Asks(A, 2, 1, Asked::Release(0, 21, Mode::RangeSU)),
        Gives::Told(&[Told::Grant(B, 1, 1, Held(0, 21, Mode::RangeSS, Some("2")))]),
    ),
    (
        Act::Asks(A, 2, 1, Asked::Release(0, 21, Mode::RangeSU)),
        Gives::Only(&[]),
    ),
    (Act::Asks(B, 2, 1, Asked::Ack), Gives::Told(&[])),
    (Act::Nudge(1), Gives::Only(&[])),
    (Act::Missing, Gives::Missing(&[])),
];

// On 10=1, if A's last write was one of the last number and was applied: it is answered again,
// and there is no number after it.
pub static LAST_NUMBER: [(Act, Gives); 7] = [
    (Act::Missing, Gives::Missing(&[0])),
    (
        Act::Report(A, 2, &[(0, 11, RangePart::X)], &[(10, KeyPart::X)]),
        Gives::Told(&[]),
    ),
    (
        Act::Asks(A, 2, 0, Asked::Write(END, Change::Delete(10))),
        Gives::Told(&[Told::Answer(A, 1, END, Outcome::Applied, FIRST)]),
    ),
    (Act::Entries, Gives::Entries(&[(10, "1")])),
    // It is passed over, though it states that A has seen the push.
    (
        Act::Asks(A, 2, 1, Asked::Write(END + 1, Change::Delete(10))),
        Gives::Told(&[]),
    ),
    (
        Act::Asks(A, 2, 1, Asked::Write(END + 1, Change::Delete(10))),
        Gives::Only(&[]),
    ),
    (Act::Entries, Gives::Entries(&[(10, "1")])),
];
