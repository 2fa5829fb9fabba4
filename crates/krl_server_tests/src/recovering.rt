//! What a server receives after a restart.
use crate::acts::{Act, Asked, Gives, Told};
use crate::named::{A, B, B2, C, C2, LOCK_3, LOCK_5, SHARED};
use krl_modes::{END, KeyPart, Mode, RangePart};

pub static REGISTERS: [(Act, Gives); 4] = [
    (Act::Hello(A), Gives::Told(&[Told::Epoch(A, 1)])),
    (Act::Hello(C), Gives::Told(&[Told::Epoch(C, 1)])),
    (Act::Hello(B), Gives::Told(&[Told::Epoch(B, 1)])),
    (Act::Missing, Gives::Missing(&[])),
];

// X from 0 to 20, as no client's cache reports it.
const ALL_IN_NO_ORDER: [(u64, u64, RangePart); 3] = [
    (11, 21, RangePart::S),
    (0, 12, RangePart::X),
    (11, 21, RangePart::I),
];

// After a restart: nothing is granted before each client has reported, has registered again or has
// left; a second Hello is no report, and a report that contradicts another changes nothing.
pub static RECOVERS: [(Act, Gives); 22] = [
    (Act::Missing, Gives::Missing(&[0, 2, 1])),
    (Act::Nudge(0), Gives::Only(&[Told::Epoch(A, 2)])),
    (Act::Hello(A), Gives::Only(&[Told::Epoch(A, 2)])),
    (Act::Asks(A, 2, 0, LOCK_5), Gives::Only(&[])),
    (
        Act::Asks(A, 1, 0, LOCK_5),
        Gives::Only(&[Told::Epoch(A, 2)]),
    ),
    (
        Act::Report(A, 1, &[], &[]),
        Gives::Only(&[Told::Epoch(A, 2)]),
    ),
    (
        Act::Report(A, 2, &ALL_IN_NO_ORDER, &[(10, KeyPart::X)]),
        Gives::Told(&[]),
    ),
    (Act::Missing, Gives::Missing(&[2, 1])),
    (Act::Nudge(0), Gives::Only(&[])),
    (Act::Report(A, 2, &[], &[]), Gives::Only(&[])),
    (
        Act::Report(B, 2, &[(5, 6, RangePart::S)], &[]),
        Gives::Alarm,
    ),
    (
        Act::Report(B, 2, &[(30, 40, RangePart::S)], &[(10, KeyPart::S)]),
        Gives::Alarm,
    ),
    (Act::Missing, Gives::Missing(&[2, 1])),
    (
        Act::Report(B, 2, &[(30, 40, RangePart::S)], &[(20, KeyPart::U)]),
        Gives::Told(&[]),
    ),
    (Act::Asks(B, 2, 0, LOCK_3), Gives::Only(&[])),
    (Act::Missing, Gives::Missing(&[2])),
    (Act::Hello(C2), Gives::Told(&[Told::Epoch(C2, 2)])),
    (Act::Missing, Gives::Missing(&[])),
    (Act::Bye(C), Gives::Only(&[])),
    (
        Act::Asks(B, 2, 0, LOCK_3),
        Gives::Told(&[Told::Callback(A, 0, 11, Mode::RangeSU)]),
    ),
    (
        Act::Asks(B, 2, 0, Asked::Lock(2, END, Mode::RangeSS)),
        Gives::Told(&[Told::Callback(A, 0, 11, Mode::RangeSU)]),
    ),
    (Act::Bye(A), Gives::Told(&[Told::Grant(B, 1, 1, SHARED)])),
];

// On 10=1, if A and B were registered when it was kept: B reports what A holds. The server waits
// for B until that registers again, and then serves.
pub static CONTRADICTS: [(Act, Gives); 8] = [
    (Act::Missing, Gives::Missing(&[0, 1])),
    (
        Act::Report(A, 2, &[(0, 11, RangePart::X)], &[(10, KeyPart::X)]),
        Gives::Told(&[]),
    ),
    (Act::Missing, Gives::Missing(&[1])),
    (
        Act::Report(B, 2, &[(0, 11, RangePart::X)], &[(10, KeyPart::X)]),
        Gives::Alarm,
    ),
    (Act::Missing, Gives::Missing(&[1])),
    (Act::Hello(B2), Gives::Told(&[Told::Epoch(B2, 2)])),
    (Act::Missing, Gives::Missing(&[])),
    (
        Act::Asks(B2, 2, 0, LOCK_3),
        Gives::Told(&[Told::Callback(A, 0, 11, Mode::RangeSU)]),
    ),
];
