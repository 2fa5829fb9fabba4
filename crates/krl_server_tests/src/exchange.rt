//! Locks, callbacks, releases, and clients that wait together.
use crate::acts::{Act, Asked, Gives, Held, Told};
use crate::named::{A, A2, B, C, FIRST, KEEP_FIRST, LOCK_3, LOCK_5, SHARED};
use krl_modes::{END, Mode};

// On 10=1: a lock, a callback, releases that are too early and too late, locks of no entry, and a
// client that leaves.
pub static EXCHANGE: [(Act, Gives); 23] = [
    (Act::Hello(A), Gives::Told(&[Told::Epoch(A, 1)])),
    (Act::Hello(B), Gives::Told(&[Told::Epoch(B, 1)])),
    (
        Act::Asks(A, 1, 0, LOCK_5),
        Gives::Told(&[Told::Grant(A, 1, 1, FIRST)]),
    ),
    (
        Act::Asks(B, 1, 0, LOCK_3),
        Gives::Told(&[Told::Callback(A, 0, 11, Mode::RangeSU)]),
    ),
    (Act::Nudge(0), Gives::Only(&[Told::Grant(A, 1, 1, FIRST)])),
    (
        Act::Nudge(1),
        Gives::Only(&[Told::Callback(A, 0, 11, Mode::RangeSU)]),
    ),
    (Act::Nudge(2), Gives::Only(&[])),
    // The push is sent again, and the release is not obeyed.
    (
        Act::Asks(A, 1, 0, KEEP_FIRST),
        Gives::Only(&[Told::Grant(A, 1, 1, FIRST)]),
    ),
    (
        Act::Asks(A, 1, 1, KEEP_FIRST),
        Gives::Told(&[Told::Grant(B, 1, 1, SHARED)]),
    ),
    (Act::Asks(A, 1, 0, KEEP_FIRST), Gives::Only(&[])),
    (Act::Asks(A, 1, 2, KEEP_FIRST), Gives::Only(&[])),
    (
        Act::Asks(A, 1, 1, Asked::Lock(2, END, Mode::S)),
        Gives::Told(&[Told::Absent(A, 2, 2, END)]),
    ),
    (
        Act::Asks(A, 1, 2, Asked::Lock(3, 7, Mode::X)),
        Gives::Told(&[Told::Absent(A, 3, 3, 7)]),
    ),
    (Act::Asks(A, 1, 3, Asked::Ack), Gives::Told(&[])),
    (Act::Asks(A, 1, 3, Asked::Ack), Gives::Only(&[])),
    // B, which has not acknowledged its push, waits for X at 10; A blocks it.
    (
        Act::Asks(B, 1, 1, Asked::Lock(2, 10, Mode::X)),
        Gives::Told(&[Told::Callback(A, 0, 11, Mode::N)]),
    ),
    (
        Act::Bye(A),
        Gives::Told(&[Told::Grant(B, 2, 2, Held(0, 11, Mode::RangeXX, Some("1")))]),
    ),
    (Act::Bye(A), Gives::Only(&[])),
    (Act::Hello(A), Gives::Only(&[])),
    (Act::Asks(A, 1, 3, Asked::Ack), Gives::Only(&[])),
    (Act::Hello(A2), Gives::Told(&[Told::Epoch(A2, 1)])),
    (Act::Asks(A, 1, 0, LOCK_5), Gives::Only(&[])),
    (
        Act::Asks(A2, 1, 0, LOCK_5),
        Gives::Told(&[Told::Callback(B, 0, 11, Mode::N)]),
    ),
];

// On 10=1: two wait at one slot, and only the first in line calls others back.
pub static CROWD: [(Act, Gives); 9] = [
    (Act::Hello(A), Gives::Told(&[Told::Epoch(A, 1)])),
    (Act::Hello(B), Gives::Told(&[Told::Epoch(B, 1)])),
    (Act::Hello(C), Gives::Told(&[Told::Epoch(C, 1)])),
    (
        Act::Asks(A, 1, 0, LOCK_5),
        Gives::Told(&[Told::Grant(A, 1, 1, FIRST)]),
    ),
    (
        Act::Asks(B, 1, 0, LOCK_3),
        Gives::Told(&[Told::Callback(A, 0, 11, Mode::RangeSU)]),
    ),
    (
        Act::Asks(C, 1, 0, Asked::Lock(1, 10, Mode::RangeXX)),
        Gives::Told(&[Told::Callback(A, 0, 11, Mode::RangeSU)]),
    ),
    (Act::Nudge(2), Gives::Only(&[])),
    (
        Act::Bye(A),
        Gives::Told(&[
            Told::Grant(B, 1, 1, SHARED),
            Told::Callback(B, 0, 11, Mode::N),
        ]),
    ),
    (
        Act::Asks(B, 1, 1, Asked::Release(0, 11, Mode::N)),
        Gives::Told(&[Told::Grant(C, 1, 1, FIRST)]),
    ),
];

// On 10=1: two wait at one slot, and one release answers both, in their order.
pub static SHARES: [(Act, Gives); 7] = [
    (Act::Hello(A), Gives::Told(&[Told::Epoch(A, 1)])),
    (Act::Hello(B), Gives::Told(&[Told::Epoch(B, 1)])),
    (Act::Hello(C), Gives::Told(&[Told::Epoch(C, 1)])),
    (
        Act::Asks(A, 1, 0, LOCK_5),
        Gives::Told(&[Told::Grant(A, 1, 1, FIRST)]),
    ),
    (
        Act::Asks(C, 1, 0, LOCK_3),
        Gives::Told(&[Told::Callback(A, 0, 11, Mode::RangeSU)]),
    ),
    (
        Act::Asks(B, 1, 0, LOCK_3),
        Gives::Told(&[Told::Callback(A, 0, 11, Mode::RangeSU)]),
    ),
    (
        Act::Asks(A, 1, 1, KEEP_FIRST),
        Gives::Told(&[Told::Grant(C, 1, 1, SHARED), Told::Grant(B, 1, 1, SHARED)]),
    ),
];
