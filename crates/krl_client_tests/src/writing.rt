//! Writes of a client.
use crate::acts::{Act, Change, Gives, Held, Says};
use krl_client::{CommandRefused, LockStatus, WriteStatus};
use krl_messages::Outcome;
use krl_modes::{KeyPart, Mode, RangePart};

pub const PUT: Change = Change::Put(10, 9);

pub const INSERT: Change = Change::Insert(15, 5);

pub const DELETE: Change = Change::Delete(10);

// What a write needs, what it keeps while it is outstanding, and its answer.
pub static WRITES: [(Act, Gives); 27] = [
    (Act::Epoch(1), Gives::One(Says::Report(1, &[], &[]))),
    (Act::Write(PUT), Gives::Refused(CommandRefused::NotHeld)),
    (
        Act::Grant(1, 1, 1, Held(0, 11, Mode::RangeXX, Some(1))),
        Gives::One(Says::Ack(1, 1)),
    ),
    // The gap after the entry isn't held.
    (Act::Write(DELETE), Gives::Refused(CommandRefused::NotHeld)),
    (Act::Write(INSERT), Gives::Refused(CommandRefused::NotHeld)),
    (
        Act::Grant(1, 2, 2, Held(11, 21, Mode::RangeXX, Some(2))),
        Gives::One(Says::Ack(1, 2)),
    ),
    (Act::Write(DELETE), Gives::One(Says::Write(1, 2, 1, DELETE))),
    (Act::Write(PUT), Gives::Refused(CommandRefused::Writing)),
    (Act::Scan(0, 11), Gives::Pending(10)),
    (Act::Scan(11, 21), Gives::Rows(&[(20, 2)])),
    (
        Act::Status,
        Gives::Shows(1, 2, LockStatus::NotAsked, WriteStatus::Waiting(1)),
    ),
    (
        Act::Lock(30, Mode::S),
        Gives::One(Says::Lock(1, 2, 1, 30, Mode::S)),
    ),
    (
        Act::Tick,
        Gives::Three(
            Says::Ack(1, 2),
            Says::Lock(1, 2, 1, 30, Mode::S),
            Says::Write(1, 2, 1, DELETE),
        ),
    ),
    // Nothing is given back where the write's key lies.
    (Act::Callback(1, 0, 11, Mode::RangeSU), Gives::Nothing),
    (Act::Forget(5, 12), Gives::Refused(CommandRefused::Writing)),
    (
        Act::Callback(1, 11, 21, Mode::RangeSS),
        Gives::One(Says::Release(1, 2, 11, 21, Mode::RangeSS)),
    ),
    (Act::At(20), Gives::Here(RangePart::S, KeyPart::S)),
    // An answer to an earlier write brings its holding, and leaves the outstanding one.
    (
        Act::Answer(1, 3, 0, Outcome::Full, Held(30, 31, Mode::S, Some(3))),
        Gives::One(Says::Ack(1, 3)),
    ),
    (Act::Scan(0, 11), Gives::Pending(10)),
    (Act::Scan(30, 31), Gives::Rows(&[(30, 3)])),
    (
        Act::Answer(
            1,
            4,
            1,
            Outcome::Applied,
            Held(0, 21, Mode::RangeXX, Some(2)),
        ),
        Gives::One(Says::Ack(1, 4)),
    ),
    (
        Act::Status,
        Gives::Shows(
            1,
            4,
            LockStatus::Waiting,
            WriteStatus::Judged(1, Outcome::Applied),
        ),
    ),
    (Act::Scan(0, 21), Gives::Rows(&[(20, 2)])),
    (Act::Write(INSERT), Gives::One(Says::Write(1, 4, 2, INSERT))),
    (Act::Callback(0, 0, 9, Mode::N), Gives::Nothing),
    (
        Act::Callback(1, 0, 9, Mode::N),
        Gives::One(Says::Release(1, 4, 0, 9, Mode::N)),
    ),
    (Act::At(0), Gives::Here(RangePart::N, KeyPart::N)),
];
