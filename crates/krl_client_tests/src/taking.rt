//! Writes of a client that take the locks that they need.
use crate::acts::{Act, Change, Gives, Held, Says};
use crate::writing::{DELETE, INSERT, PUT};
use krl_client::CommandRefused;
use krl_messages::Outcome;
use krl_modes::{END, KeyPart, Mode, RangePart};

// Each refusal in its order; what each tick sends again, in a later epoch too; and the answers.
pub static TAKES: [(Act, Gives); 18] = [
    (
        Act::Take(Change::Put(END, 1)),
        Gives::Refused(CommandRefused::BadPoint),
    ),
    (Act::Take(PUT), Gives::Refused(CommandRefused::NotJoined)),
    (Act::Epoch(1), Gives::One(Says::Report(1, &[], &[]))),
    // A delete takes no lock.
    (Act::Take(DELETE), Gives::Refused(CommandRefused::NotHeld)),
    (Act::Take(PUT), Gives::One(Says::Take(1, 0, 1, PUT))),
    (Act::Take(DELETE), Gives::Refused(CommandRefused::Writing)),
    (Act::Scan(0, 11), Gives::Pending(10)),
    (
        Act::Tick,
        Gives::Two(Says::Report(1, &[], &[]), Says::Take(1, 0, 1, PUT)),
    ),
    (Act::Epoch(3), Gives::One(Says::Report(3, &[], &[]))),
    (
        Act::Tick,
        Gives::Two(Says::Report(3, &[], &[]), Says::Take(3, 0, 1, PUT)),
    ),
    (
        Act::Answer(3, 1, 1, Outcome::Applied, Held(0, 11, Mode::X, Some(9))),
        Gives::One(Says::Ack(3, 1)),
    ),
    (Act::At(10), Gives::Here(RangePart::N, KeyPart::X)),
    (Act::Write(INSERT), Gives::Refused(CommandRefused::NotHeld)),
    (Act::Take(INSERT), Gives::One(Says::Take(3, 1, 2, INSERT))),
    (
        Act::Answer(
            3,
            2,
            2,
            Outcome::Applied,
            Held(11, 16, Mode::RangeIX, Some(5)),
        ),
        Gives::One(Says::Ack(3, 2)),
    ),
    (Act::At(15), Gives::Here(RangePart::I, KeyPart::X)),
    // A write after it takes no lock.
    (Act::Write(PUT), Gives::One(Says::Write(3, 2, 3, PUT))),
    (
        Act::Tick,
        Gives::Two(Says::Ack(3, 2), Says::Write(3, 2, 3, PUT)),
    ),
];
