//! Clients that are driven by hand. Each run ends alike, whichever one or two allocations
//! in a row fail.
use crate::acts::{Act, Gives, Says, fails, is_said};
use crate::again::CALLS;
use crate::joining::{BEFORE_IT_JOINS, EPOCHS};
use crate::locking::{LOCKS, PINS};
use crate::taking::TAKES;
use crate::writing::WRITES;
use krl_client::{Client, CommandRefused, StartRefused};
use krl_messages::{ToServer, ToServerBody};
use krl_modes::END;
use std::alloc::{AllocError, Global};

// A client that has sent its Hello.
fn started(alloc: Global) -> Option<Client> {
    let Ok((client, hello)) = Client::start(alloc, 3, 2) else {
        return None;
    };
    if is_said(&hello, &Says::Hello) {
        return Some(client);
    }
    None
}

// Whether a client gives each of these rows: the first that it does not, if any.
fn fails_on(alloc: Global, rows: &[(Act, Gives)]) -> Option<usize> {
    match started(alloc) {
        Some(mut client) => fails(alloc, &mut client, rows),
        None => Some(usize::MAX),
    }
}

#[test]
fn clients_give_each_row(rt: HostRuntime) {
    for rows in [
        BEFORE_IT_JOINS.as_slice(),
        LOCKS.as_slice(),
        WRITES.as_slice(),
        TAKES.as_slice(),
        PINS.as_slice(),
        EPOCHS.as_slice(),
    ] {
        assert_eq!(rt; fails_on(rt.alloc(), rows), None);
    }
}

fn is_bye(list: &[ToServer]) -> bool {
    match list {
        [message] => message.client == 3 && message.body == ToServerBody::Bye,
        _ => false,
    }
}

// Whether a client leaves, perhaps after refusals, each of which hands it back.
fn leaves(alloc: Global) -> bool {
    let Some(client) = started(alloc) else {
        return false;
    };
    let said = client
        .leave()
        .or_else(|client| client.leave())
        .or_else(|client| client.leave());
    said.is_ok_and(|list| is_bye(list.as_slice()))
}

#[test]
fn leaves_with_a_bye(rt: HostRuntime) {
    assert!(rt; leaves(rt.alloc()));
}

static STARTS: [(u64, u64, Option<StartRefused>); 5] = [
    (64, 1, Some(StartRefused::BadClient)),
    (64, END + 1, Some(StartRefused::BadClient)),
    (63, END + 1, Some(StartRefused::Spent)),
    (63, END, None),
    (0, 0, None),
];

// Why no client of this number and incarnation starts. None if one starts.
fn refusal(alloc: Global, number: u64, incarnation: u64) -> Option<StartRefused> {
    Client::start(alloc, number, incarnation).err()
}

#[test]
fn starts_by_its_limits(rt: HostRuntime) {
    for (number, incarnation, expected) in &STARTS {
        assert!(rt; refusal(rt.alloc(), *number, *incarnation) == *expected);
    }
}

static NAMES: [(CommandRefused, &str); 10] = [
    (CommandRefused::OutOfMemory, "OutOfMemory"),
    (CommandRefused::BadPoint, "BadPoint"),
    (CommandRefused::BadSpan, "BadSpan"),
    (CommandRefused::NotJoined, "NotJoined"),
    (CommandRefused::Busy, "Busy"),
    (CommandRefused::NotHeld, "NotHeld"),
    (CommandRefused::Pinned, "Pinned"),
    (CommandRefused::Writing, "Writing"),
    (CommandRefused::TooManyPins, "TooManyPins"),
    (CommandRefused::Spent, "Spent"),
];

// Whether a text for people is the refusal's name.
fn reads(alloc: Global, refusal: CommandRefused, name: &str) -> Result<bool, AllocError> {
    let text = format!(in alloc; "{refusal}")?;
    Ok(text.as_str() == name && refusal.name() == name)
}

// The same, asked for again if memory was refused.
fn is_named(alloc: Global, refusal: CommandRefused, name: &str) -> bool {
    for _ in 0..CALLS {
        if let Ok(is_right) = reads(alloc, refusal, name) {
            return is_right;
        }
    }
    false
}

// The place of the first refusal that is not named so.
fn misnamed(alloc: Global) -> Option<usize> {
    for i in 0..NAMES.len() {
        if !is_named(alloc, NAMES[i].0, NAMES[i].1) {
            return Some(i);
        }
    }
    None
}

#[test]
fn refusals_are_named(rt: HostRuntime) {
    assert_eq!(rt; misnamed(rt.alloc()), None);
}
