//! What each message changes in what survives, as the step reports it.
use crate::acts::{Act, Asked, Change as Write, Who};
use crate::again::CALLS;
use crate::named::{A, A2, B, DELETE, LOCK_5};
use crate::requests::{message, write};
use krl_durable::Change;
use krl_messages::{Outcome, ToServer};
use krl_modes::Mode;
use krl_server::Server;
use std::alloc::Global;

// What a step reports of what survives.
#[derive(Clone, Copy)]
pub enum Says {
    Nothing,
    Registered(Who),
    // The client's number.
    Left(u64),
    // The client's number, and the write's.
    Judged(u64, u64, Write, Outcome),
}

// On 10=1 and 20=2: clients that register, ask, write, repeat a write, and leave.
pub static CHANGES: [(Act, Says); 16] = [
    (Act::Bye(A), Says::Nothing),
    (Act::Hello(A), Says::Registered(A)),
    (Act::Hello(A), Says::Nothing),
    (Act::Hello(B), Says::Registered(B)),
    (Act::Asks(A, 1, 0, LOCK_5), Says::Nothing),
    (
        Act::Asks(A, 1, 1, Asked::Lock(2, 15, Mode::RangeXX)),
        Says::Nothing,
    ),
    (
        Act::Asks(A, 1, 2, DELETE),
        Says::Judged(0, 1, Write::Delete(10), Outcome::Applied),
    ),
    // The write is answered again, and no more is done.
    (Act::Asks(A, 1, 3, DELETE), Says::Nothing),
    (
        Act::Asks(A, 1, 4, Asked::Write(2, Write::Insert(7, "70"))),
        Says::Judged(0, 2, Write::Insert(7, "70"), Outcome::Applied),
    ),
    (
        Act::Asks(A, 1, 5, Asked::Write(3, Write::Insert(7, "71"))),
        Says::Judged(0, 3, Write::Insert(7, "71"), Outcome::Exists),
    ),
    // A number that is passed over.
    (
        Act::Asks(A, 1, 6, Asked::Write(5, Write::Delete(7))),
        Says::Nothing,
    ),
    (
        Act::Asks(B, 1, 0, Asked::Write(1, Write::Put(20, "4"))),
        Says::Judged(1, 1, Write::Put(20, "4"), Outcome::NotHeld),
    ),
    (
        Act::Asks(A, 1, 6, Asked::Release(0, 21, Mode::N)),
        Says::Nothing,
    ),
    (Act::Bye(A), Says::Left(0)),
    (Act::Bye(A), Says::Nothing),
    (Act::Hello(A2), Says::Registered(A2)),
];

// Whether this is the change.
fn is_change(change: Option<Change>, expected: Says) -> bool {
    match expected {
        Says::Nothing => change.is_none(),
        Says::Registered(Who(client, incarnation)) => {
            change
                == Some(Change::Registered {
                    client,
                    incarnation,
                })
        }
        Says::Left(client) => change == Some(Change::Left { client }),
        Says::Judged(client, number, asked, outcome) => match write(asked) {
            Some(op) => {
                change
                    == Some(Change::Judged {
                        client,
                        number,
                        op,
                        outcome,
                    })
            }
            None => false,
        },
    }
}

// Whether the step reports this, at once or after refusals of memory.
fn is_said(alloc: Global, server: &mut Server, message: &ToServer, expected: Says) -> bool {
    for _ in 0..CALLS {
        if let Ok(out) = server.step(alloc, message) {
            return is_change(out.change, expected);
        }
    }
    false
}

// Whether each act's step reports what its row has.
pub fn all_say(alloc: Global, server: &mut Server, rows: &[(Act, Says)]) -> bool {
    for (act, expected) in rows {
        let Some(message) = message(alloc, *act) else {
            return false;
        };
        if !is_said(alloc, server, &message, *expected) {
            return false;
        }
    }
    true
}
