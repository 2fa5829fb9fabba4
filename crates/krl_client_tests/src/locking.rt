//! Locks of a client, and its pins.
use crate::acts::{Act, Gives, Held, Says};
use krl_client::{CommandRefused, LockStatus, WriteStatus};
use krl_modes::{KeyPart, Mode, RangePart};

// A lock, its grant, the same again, one that is too late and one that is too early. What is
// granted is given back in part, and then whole.
pub static LOCKS: [(Act, Gives); 28] = [
    (Act::Epoch(1), Gives::One(Says::Report(1, &[], &[]))),
    (
        Act::Lock(5, Mode::RangeXX),
        Gives::One(Says::Lock(1, 0, 1, 5, Mode::RangeXX)),
    ),
    (Act::Lock(5, Mode::S), Gives::Refused(CommandRefused::Busy)),
    (
        Act::Tick,
        Gives::Two(
            Says::Report(1, &[], &[]),
            Says::Lock(1, 0, 1, 5, Mode::RangeXX),
        ),
    ),
    // The value is missing, though the entry is read.
    (
        Act::Grant(1, 1, 1, Held(0, 11, Mode::RangeXX, None)),
        Gives::Nothing,
    ),
    (
        Act::Grant(1, 2, 1, Held(0, 11, Mode::RangeXX, Some(1))),
        Gives::Nothing,
    ),
    // It was asked for by an earlier request, so that the client still waits.
    (
        Act::Grant(1, 1, 7, Held(11, 21, Mode::RangeSS, Some(2))),
        Gives::One(Says::Ack(1, 1)),
    ),
    (
        Act::Status,
        Gives::Shows(1, 1, LockStatus::Waiting, WriteStatus::NotWritten),
    ),
    (
        Act::Grant(1, 2, 1, Held(0, 11, Mode::RangeXX, Some(1))),
        Gives::One(Says::Ack(1, 2)),
    ),
    (
        Act::Grant(1, 2, 1, Held(0, 11, Mode::RangeXX, Some(1))),
        Gives::One(Says::Ack(1, 2)),
    ),
    (
        Act::Grant(1, 1, 1, Held(0, 11, Mode::N, None)),
        Gives::Nothing,
    ),
    (
        Act::Status,
        Gives::Shows(1, 2, LockStatus::Granted, WriteStatus::NotWritten),
    ),
    (Act::At(10), Gives::Here(RangePart::X, KeyPart::X)),
    (Act::At(15), Gives::Here(RangePart::S, KeyPart::N)),
    (Act::At(21), Gives::Here(RangePart::N, KeyPart::N)),
    (Act::Scan(0, 21), Gives::Rows(&[(10, 1), (20, 2)])),
    (Act::Scan(0, 22), Gives::Miss(21)),
    (Act::Tick, Gives::One(Says::Ack(1, 2))),
    (
        Act::Lock(13, Mode::S),
        Gives::One(Says::Lock(1, 2, 2, 13, Mode::S)),
    ),
    (Act::Absent(1, 3, 2, 13), Gives::One(Says::Ack(1, 3))),
    (
        Act::Status,
        Gives::Shows(1, 3, LockStatus::Absent, WriteStatus::NotWritten),
    ),
    (
        Act::Lower(0, 11, Mode::RangeSS),
        Gives::One(Says::Release(1, 3, 0, 11, Mode::RangeSS)),
    ),
    (Act::At(10), Gives::Here(RangePart::S, KeyPart::S)),
    (Act::Scan(0, 21), Gives::Rows(&[(10, 1), (20, 2)])),
    (
        Act::Lower(0, 21, Mode::RangeIX),
        Gives::One(Says::Release(1, 3, 0, 21, Mode::RangeIX)),
    ),
    (Act::At(10), Gives::Here(RangePart::N, KeyPart::S)),
    (Act::At(20), Gives::Here(RangePart::N, KeyPart::S)),
    (
        Act::Forget(0, 21),
        Gives::One(Says::Release(1, 3, 0, 21, Mode::N)),
    ),
];

// Eight pins, each under the least id that is free; nothing is given back that meets one.
pub static PINS: [(Act, Gives); 20] = [
    (Act::Epoch(1), Gives::One(Says::Report(1, &[], &[]))),
    (
        Act::Grant(1, 1, 1, Held(0, 11, Mode::RangeXX, Some(1))),
        Gives::One(Says::Ack(1, 1)),
    ),
    (Act::Pin(0, 1), Gives::Id(0)),
    (Act::Pin(1, 2), Gives::Id(1)),
    (Act::Pin(2, 3), Gives::Id(2)),
    (Act::Pin(3, 4), Gives::Id(3)),
    (Act::Pin(4, 5), Gives::Id(4)),
    (Act::Pin(5, 6), Gives::Id(5)),
    (Act::Pin(6, 7), Gives::Id(6)),
    (Act::Pin(7, 8), Gives::Id(7)),
    (Act::Pin(8, 9), Gives::Refused(CommandRefused::TooManyPins)),
    (Act::Pin(9, 8), Gives::Refused(CommandRefused::BadSpan)),
    (Act::Callback(1, 7, 11, Mode::N), Gives::Nothing),
    (Act::Forget(3, 4), Gives::Refused(CommandRefused::Pinned)),
    (
        Act::Lower(3, 4, Mode::RangeXX),
        Gives::Refused(CommandRefused::Pinned),
    ),
    (Act::Unpin(3), Gives::Nothing),
    (Act::Unpin(3), Gives::Refused(CommandRefused::NotHeld)),
    (
        Act::Forget(3, 4),
        Gives::One(Says::Release(1, 1, 3, 4, Mode::N)),
    ),
    (Act::Pin(8, 20), Gives::Id(3)),
    (Act::Callback(1, 8, 11, Mode::N), Gives::Nothing),
];
