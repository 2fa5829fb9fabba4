//! Strangers, and clients that contradict what the server knows.
use crate::acts::{Act, Asked, Change, Gives, Told, Who};
use crate::named::{A, A2, B, C, FIRST, KEEP_FIRST, LOCK_3, LOCK_5};
use krl_modes::{END, KeyPart, Mode, RangePart, TOP};

// Strangers, and clients that contradict what the server knows.
pub static STRANGERS: [(Act, Gives); 43] = [
    (Act::Hello(A), Gives::Told(&[Told::Epoch(A, 1)])),
    (Act::Hello(B), Gives::Told(&[Told::Epoch(B, 1)])),
    (
        Act::Asks(A, 1, 0, LOCK_5),
        Gives::Told(&[Told::Grant(A, 1, 1, FIRST)]),
    ),
    // The push to A is not acknowledged yet: too little and too much is seen.
    (Act::Asks(A, 1, 2, Asked::Ack), Gives::Only(&[])),
    (Act::Asks(A, 1, END, Asked::Ack), Gives::Only(&[])),
    (Act::Asks(A, 1, END + 1, Asked::Ack), Gives::Only(&[])),
    (
        Act::Asks(A, 1, 18446744073709551615, KEEP_FIRST),
        Gives::Only(&[]),
    ),
    (
        Act::Asks(A, 1, 0, KEEP_FIRST),
        Gives::Only(&[Told::Grant(A, 1, 1, FIRST)]),
    ),
    (Act::Asks(A, 1, 1, Asked::Ack), Gives::Told(&[])),
    (Act::Asks(A, 1, 0, KEEP_FIRST), Gives::Only(&[])),
    // Numbers of clients and of incarnations that are none.
    (Act::Hello(Who(64, 1)), Gives::Only(&[])),
    (Act::Hello(Who(18446744073709551615, 1)), Gives::Only(&[])),
    (Act::Hello(Who(2, 0)), Gives::Only(&[])),
    (Act::Hello(Who(2, END + 1)), Gives::Only(&[])),
    (Act::Asks(Who(64, 1), 1, 0, LOCK_5), Gives::Only(&[])),
    // Nobody of that name.
    (Act::Bye(C), Gives::Only(&[])),
    (
        Act::Report(C, 1, &[(0, 11, RangePart::X)], &[]),
        Gives::Only(&[]),
    ),
    (Act::Asks(C, 1, 0, LOCK_3), Gives::Only(&[])),
    (Act::Bye(A2), Gives::Only(&[])),
    (Act::Asks(A2, 1, 1, KEEP_FIRST), Gives::Only(&[])),
    // Other epochs.
    (
        Act::Asks(A, 0, 1, KEEP_FIRST),
        Gives::Only(&[Told::Epoch(A, 1)]),
    ),
    (
        Act::Asks(A, 2, 1, KEEP_FIRST),
        Gives::Only(&[Told::Epoch(A, 1)]),
    ),
    (
        Act::Asks(A, END + 1, 1, KEEP_FIRST),
        Gives::Only(&[Told::Epoch(A, 1)]),
    ),
    (
        Act::Report(B, 2, &[(0, 11, RangePart::X)], &[(10, KeyPart::X)]),
        Gives::Only(&[Told::Epoch(B, 1)]),
    ),
    // It is not missing, though what it reports contradicts A's lock.
    (
        Act::Report(B, 1, &[(0, 11, RangePart::X)], &[(10, KeyPart::X)]),
        Gives::Only(&[]),
    ),
    // Requests and points that are none.
    (
        Act::Asks(B, 1, 0, Asked::Lock(0, 15, Mode::RangeSS)),
        Gives::Only(&[]),
    ),
    (
        Act::Asks(A, 1, 1, Asked::Lock(0, 5, Mode::RangeSS)),
        Gives::Only(&[]),
    ),
    (
        Act::Asks(A, 1, 1, Asked::Lock(1, 11, Mode::RangeSS)),
        Gives::Only(&[]),
    ),
    (
        Act::Asks(A, 1, 1, Asked::Lock(3, 11, Mode::RangeSS)),
        Gives::Only(&[]),
    ),
    (
        Act::Asks(A, 1, 1, Asked::Lock(18446744073709551615, 11, Mode::S)),
        Gives::Only(&[]),
    ),
    (
        Act::Asks(A, 1, 1, Asked::Lock(2, END + 1, Mode::RangeSS)),
        Gives::Only(&[]),
    ),
    (
        Act::Asks(A, 1, 1, Asked::Lock(2, 18446744073709551615, Mode::S)),
        Gives::Only(&[]),
    ),
    // Spans that have no point, and spans that go past the last one.
    (
        Act::Asks(A, 1, 1, Asked::LockTo(2, 11, 11, Mode::RangeSS)),
        Gives::Only(&[]),
    ),
    (
        Act::Asks(A, 1, 1, Asked::LockTo(2, 11, 0, Mode::RangeSS)),
        Gives::Only(&[]),
    ),
    (
        Act::Asks(A, 1, 1, Asked::LockTo(2, 0, 0, Mode::RangeSS)),
        Gives::Only(&[]),
    ),
    (
        Act::Asks(A, 1, 1, Asked::LockTo(2, 11, TOP + 1, Mode::RangeSS)),
        Gives::Only(&[]),
    ),
    (
        Act::Asks(
            A,
            1,
            1,
            Asked::LockTo(2, END, 18446744073709551615, Mode::RangeSS),
        ),
        Gives::Only(&[]),
    ),
    // Writes and keys that are none.
    (
        Act::Asks(A, 1, 1, Asked::Write(0, Change::Delete(10))),
        Gives::Only(&[]),
    ),
    (
        Act::Asks(A, 1, 1, Asked::Write(2, Change::Delete(10))),
        Gives::Only(&[]),
    ),
    (
        Act::Asks(A, 1, 1, Asked::Write(1, Change::Put(END, "1"))),
        Gives::Only(&[]),
    ),
    (
        Act::Asks(A, 1, 1, Asked::Write(1, Change::Delete(END + 1))),
        Gives::Only(&[]),
    ),
    // B gives back what A holds.
    (
        Act::Asks(B, 1, 0, Asked::Release(0, 21, Mode::N)),
        Gives::Only(&[]),
    ),
    (Act::Nudge(64), Gives::Only(&[])),
];
