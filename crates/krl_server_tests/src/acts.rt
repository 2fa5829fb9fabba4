//! What a server receives, act by act, and what may come of it.
use krl_messages::{Outcome, Value};
use krl_modes::{KeyPart, Mode, RangePart};

// A client's number, and its incarnation.
#[derive(Clone, Copy)]
pub struct Who(pub u64, pub u64);

// What a server receives or is asked, with spans by their ends.
#[derive(Clone, Copy)]
pub enum Act {
    Hello(Who),
    Bye(Who),
    // The epoch, range parts and key parts.
    Report(Who, u64, &'static [(u64, u64, RangePart)], &'static [(u64, KeyPart)]),
    // The epoch, and the last push that the client has seen.
    Asks(Who, u64, u64, Asked),
    Nudge(u64),
    Missing,
    Entries,
}

// What a request asks.
#[derive(Clone, Copy)]
pub enum Asked {
    // The request's number, the point and the mode.
    Lock(u64, u64, Mode),
    // The same, and one past the last point.
    LockTo(u64, u64, u64, Mode),
    // The write's number.
    Write(u64, Change),
    // The same, of a write that takes the lock that it needs.
    Take(u64, Change),
    Release(u64, u64, Mode),
    Ack,
}

// A change of one entry. Its value is the bytes of a text.
#[derive(Clone, Copy)]
pub enum Change {
    Insert(u64, &'static str),
    Put(u64, &'static str),
    Delete(u64),
}

// A holding, by the ends of its span, with the bytes of a text as its value.
#[derive(Clone, Copy)]
pub struct Held(pub u64, pub u64, pub Mode, pub Option<&'static str>);

// What a client receives.
#[derive(Clone, Copy)]
pub enum Told {
    Epoch(Who, u64),
    // The push's number, and the request's.
    Grant(Who, u64, u64, Held),
    // The same, over several slots.
    Grants(Who, u64, u64, &'static [Held]),
    // The same, and the point.
    Absent(Who, u64, u64, u64),
    // The push's number, and the write's.
    Answer(Who, u64, u64, Outcome, Held),
    Callback(Who, u64, u64, Mode),
}

// What comes of it.
pub enum Gives {
    // These messages.
    Told(&'static [Told]),
    // These messages, and nothing changes.
    Only(&'static [Told]),
    // The report contradicts what others hold: nothing is sent, and nothing changes.
    Alarm,
    Missing(&'static [u64]),
    Entries(&'static [(u64, &'static str)]),
}

// The value that has the bytes of the text.
pub fn value(text: &str) -> Option<Value> {
    Value::new(text.as_bytes())
}
