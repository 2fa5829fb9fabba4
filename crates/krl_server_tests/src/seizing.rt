//! Writes that take the locks that they need.
use crate::acts::{Act, Asked, Change, Gives, Held, Told};
use crate::named::{A, B, C};
use krl_messages::Outcome;
use krl_modes::Mode;

// On 10=1 and 20=2: what raises nothing, what is applied with the lock that it takes, and what is
// judged with what its client holds, as somebody holds or waits there.
pub static TAKES: [(Act, Gives); 19] = [
    (Act::Hello(A), Gives::Told(&[Told::Epoch(A, 1)])),
    (Act::Hello(B), Gives::Told(&[Told::Epoch(B, 1)])),
    (Act::Hello(C), Gives::Told(&[Told::Epoch(C, 1)])),
    // An entry that exists, one that is absent, and a delete, which takes nothing.
    (
        Act::Asks(A, 1, 0, Asked::Take(1, Change::Insert(10, "9"))),
        Gives::Told(&[Told::Answer(A, 1, 1, Outcome::Exists, Held(0, 11, Mode::N, None))]),
    ),
    (
        Act::Asks(A, 1, 1, Asked::Take(2, Change::Put(15, "9"))),
        Gives::Told(&[Told::Answer(A, 2, 2, Outcome::Absent, Held(11, 21, Mode::N, None))]),
    ),
    (
        Act::Asks(A, 1, 2, Asked::Take(3, Change::Delete(10))),
        Gives::Told(&[Told::Answer(A, 3, 3, Outcome::NotHeld, Held(0, 11, Mode::N, None))]),
    ),
    // A put, and the same again, whether it states that it takes its lock or not.
    (
        Act::Asks(A, 1, 3, Asked::Take(4, Change::Put(10, "3"))),
        Gives::Told(&[Told::Answer(A, 4, 4, Outcome::Applied, Held(0, 11, Mode::X, Some("3")))]),
    ),
    (
        Act::Asks(A, 1, 4, Asked::Take(4, Change::Put(10, "3"))),
        Gives::Told(&[Told::Answer(A, 5, 4, Outcome::Applied, Held(0, 11, Mode::X, Some("3")))]),
    ),
    (
        Act::Asks(A, 1, 5, Asked::Write(4, Change::Put(10, "3"))),
        Gives::Told(&[Told::Answer(A, 6, 4, Outcome::Applied, Held(0, 11, Mode::X, Some("3")))]),
    ),
    // A delete of an entry of which it holds the key takes no gap.
    (
        Act::Asks(A, 1, 6, Asked::Take(5, Change::Delete(10))),
        Gives::Told(&[Told::Answer(A, 7, 5, Outcome::NotHeld, Held(0, 11, Mode::X, Some("3")))]),
    ),
    (
        Act::Asks(A, 1, 7, Asked::Take(6, Change::Insert(15, "5"))),
        Gives::Told(&[Told::Answer(
            A,
            8,
            6,
            Outcome::Applied,
            Held(11, 16, Mode::RangeIX, Some("5")),
        )]),
    ),
    // A holds the entry, and both insert into the gap.
    (
        Act::Asks(B, 1, 0, Asked::Take(1, Change::Put(10, "4"))),
        Gives::Told(&[Told::Answer(B, 1, 1, Outcome::NotHeld, Held(0, 11, Mode::N, None))]),
    ),
    (
        Act::Asks(B, 1, 1, Asked::Take(2, Change::Insert(17, "7"))),
        Gives::Told(&[Told::Answer(
            B,
            2,
            2,
            Outcome::Applied,
            Held(16, 18, Mode::RangeIX, Some("7")),
        )]),
    ),
    (
        Act::Entries,
        Gives::Entries(&[(10, "3"), (15, "5"), (17, "7"), (20, "2")]),
    ),
    // B waits there for A to give way: C takes nothing, and A writes with what it holds.
    (
        Act::Asks(B, 1, 2, Asked::Lock(1, 19, Mode::RangeSS)),
        Gives::Told(&[Told::Callback(A, 18, 21, Mode::U)]),
    ),
    (
        Act::Asks(C, 1, 0, Asked::Take(1, Change::Insert(18, "8"))),
        Gives::Told(&[
            Told::Answer(C, 1, 1, Outcome::NotHeld, Held(18, 21, Mode::N, None)),
            Told::Callback(A, 18, 21, Mode::U),
        ]),
    ),
    (
        Act::Asks(C, 1, 1, Asked::Take(2, Change::Put(20, "8"))),
        Gives::Told(&[
            Told::Answer(C, 2, 2, Outcome::NotHeld, Held(18, 21, Mode::N, None)),
            Told::Callback(A, 18, 21, Mode::U),
        ]),
    ),
    (
        Act::Asks(A, 1, 8, Asked::Take(7, Change::Insert(18, "6"))),
        Gives::Told(&[
            Told::Answer(
                A,
                9,
                7,
                Outcome::Applied,
                Held(18, 19, Mode::RangeIX, Some("6")),
            ),
            Told::Callback(A, 19, 21, Mode::U),
        ]),
    ),
    (
        Act::Entries,
        Gives::Entries(&[(10, "3"), (15, "5"), (17, "7"), (18, "6"), (20, "2")]),
    ),
];

// On the same, without room for a third entry: an insert would be Full with its lock, and takes
// none; a put takes its lock.
pub static TAKES_WITHOUT_ROOM: [(Act, Gives); 4] = [
    (Act::Hello(A), Gives::Told(&[Told::Epoch(A, 1)])),
    (
        Act::Asks(A, 1, 0, Asked::Take(1, Change::Insert(15, "5"))),
        Gives::Told(&[Told::Answer(A, 1, 1, Outcome::NotHeld, Held(11, 21, Mode::N, None))]),
    ),
    (
        Act::Asks(A, 1, 1, Asked::Take(2, Change::Put(20, "3"))),
        Gives::Told(&[Told::Answer(A, 2, 2, Outcome::Applied, Held(11, 21, Mode::X, Some("3")))]),
    ),
    (Act::Entries, Gives::Entries(&[(10, "1"), (20, "3")])),
];
