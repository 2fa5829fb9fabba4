//! A client before it has joined an epoch, and as it joins a later one.
use crate::acts::{Act, Change, Gives, Held, Says};
use crate::writing::PUT;
use krl_client::{CommandRefused, LockStatus, WriteStatus};
use krl_messages::Outcome;
use krl_modes::{END, KeyPart, Mode, RangePart, TOP};

// Each refusal in its order, before the client has joined an epoch; and what it ignores.
pub static BEFORE_IT_JOINS: [(Act, Gives); 26] = [
    (
        Act::Lock(END + 1, Mode::S),
        Gives::Refused(CommandRefused::BadPoint),
    ),
    (
        Act::LockTo(END + 1, TOP, Mode::S),
        Gives::Refused(CommandRefused::BadPoint),
    ),
    (
        Act::LockTo(5, 5, Mode::S),
        Gives::Refused(CommandRefused::BadSpan),
    ),
    (
        Act::LockTo(0, TOP + 1, Mode::S),
        Gives::Refused(CommandRefused::BadSpan),
    ),
    (
        Act::LockTo(0, TOP, Mode::S),
        Gives::Refused(CommandRefused::NotJoined),
    ),
    (
        Act::Lock(END, Mode::S),
        Gives::Refused(CommandRefused::NotJoined),
    ),
    (
        Act::Write(Change::Put(END, 1)),
        Gives::Refused(CommandRefused::BadPoint),
    ),
    (Act::Write(PUT), Gives::Refused(CommandRefused::NotJoined)),
    (Act::Forget(9, 3), Gives::Refused(CommandRefused::BadSpan)),
    (
        Act::Forget(0, 11),
        Gives::Refused(CommandRefused::NotJoined),
    ),
    (Act::Scan(3, 3), Gives::Refused(CommandRefused::BadSpan)),
    (
        Act::Scan(0, TOP + 1),
        Gives::Refused(CommandRefused::BadSpan),
    ),
    (Act::Scan(0, TOP), Gives::Miss(0)),
    (Act::Pin(5, 5), Gives::Refused(CommandRefused::BadSpan)),
    (Act::Unpin(0), Gives::Refused(CommandRefused::NotHeld)),
    (Act::Unpin(8), Gives::Refused(CommandRefused::NotHeld)),
    (Act::Tick, Gives::One(Says::Hello)),
    (Act::Epoch(0), Gives::Nothing),
    (Act::ForAnother(1), Gives::Nothing),
    (Act::ForAnEarlier(1), Gives::Nothing),
    (Act::Callback(1, 0, 11, Mode::N), Gives::Nothing),
    (
        Act::Grant(1, 1, 1, Held(0, 11, Mode::RangeSS, Some(1))),
        Gives::Nothing,
    ),
    (
        Act::Status,
        Gives::Shows(0, 0, LockStatus::NotAsked, WriteStatus::NotWritten),
    ),
    (Act::Epoch(1), Gives::One(Says::Report(1, &[], &[]))),
    (
        Act::Status,
        Gives::Shows(1, 0, LockStatus::NotAsked, WriteStatus::NotWritten),
    ),
    (Act::Tick, Gives::One(Says::Report(1, &[], &[]))),
];

// A later epoch: it reports, drops what waits, keeps its write, and ignores the messages of an
// earlier one.
pub static EPOCHS: [(Act, Gives); 15] = [
    (Act::Epoch(1), Gives::One(Says::Report(1, &[], &[]))),
    (
        Act::Grant(1, 1, 1, Held(0, 11, Mode::RangeXX, Some(1))),
        Gives::One(Says::Ack(1, 1)),
    ),
    (Act::Write(PUT), Gives::One(Says::Write(1, 1, 1, PUT))),
    (
        Act::Lock(15, Mode::RangeSS),
        Gives::One(Says::Lock(1, 1, 1, 15, Mode::RangeSS)),
    ),
    (
        Act::Epoch(3),
        Gives::One(Says::Report(3, &[(0, 11, RangePart::X)], &[(10, KeyPart::X)])),
    ),
    (
        Act::Status,
        Gives::Shows(3, 0, LockStatus::Dropped, WriteStatus::Waiting(1)),
    ),
    (Act::Epoch(2), Gives::Nothing),
    (
        Act::Grant(1, 1, 1, Held(11, 21, Mode::RangeSS, Some(2))),
        Gives::Nothing,
    ),
    (Act::Callback(1, 0, 5, Mode::N), Gives::Nothing),
    (Act::At(15), Gives::Here(RangePart::N, KeyPart::N)),
    (
        Act::Tick,
        Gives::Two(
            Says::Report(3, &[(0, 11, RangePart::X)], &[(10, KeyPart::X)]),
            Says::Write(3, 0, 1, PUT),
        ),
    ),
    (
        Act::Answer(
            3,
            1,
            1,
            Outcome::NotHeld,
            Held(0, 11, Mode::RangeXX, Some(1)),
        ),
        Gives::One(Says::Ack(3, 1)),
    ),
    (
        Act::Status,
        Gives::Shows(
            3,
            1,
            LockStatus::Dropped,
            WriteStatus::Judged(1, Outcome::NotHeld),
        ),
    ),
    (
        Act::Lock(15, Mode::RangeSS),
        Gives::One(Says::Lock(3, 1, 1, 15, Mode::RangeSS)),
    ),
    (Act::Scan(0, 11), Gives::Rows(&[(10, 1)])),
];
