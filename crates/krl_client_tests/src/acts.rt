//! What a client receives and is asked to do, one act after another, and what comes of it. If an
//! allocation is refused, a client shows what it showed, and the refused call is made again.
use crate::again::{CALLS, put, room_for};
use crate::shown::{are_numbers, are_told};
use krl_client::{Client, CommandRefused, LockStatus, ScanAnswer, Status, WriteStatus};
use krl_messages::{
    Holding, Holdings, Outcome, PushBody, Request, RequestBody, ToClient, ToClientBody, ToServer,
    ToServerBody, Value, WriteOp,
};
use krl_modes::{END, KeyPart, Mode, RangePart, Span};
use std::alloc::Global;

// A write. Its value is the eight bytes of a number.
#[derive(Clone, Copy)]
pub enum Change {
    Insert(u64, u64),
    Put(u64, u64),
    Delete(u64),
}

// What a client receives or is asked to do, by the ends of its span.
#[derive(Clone, Copy)]
pub enum Act {
    Epoch(u64),
    // The epoch and the number of a push; then what it brings.
    Grant(u64, u64, u64, Held),
    Absent(u64, u64, u64, u64),
    Answer(u64, u64, u64, Outcome, Held),
    Callback(u64, u64, u64, Mode),
    // An epoch for another client, and for another incarnation.
    ForAnother(u64),
    ForAnEarlier(u64),
    Lock(u64, Mode),
    LockTo(u64, u64, Mode),
    Write(Change),
    // A write that takes the lock that it needs.
    Take(Change),
    Lower(u64, u64, Mode),
    Forget(u64, u64),
    Pin(u64, u64),
    Unpin(u64),
    Scan(u64, u64),
    Tick,
    At(u64),
    Status,
}

// A holding, by the ends of its span. Its value is the eight bytes of a number.
#[derive(Clone, Copy)]
pub struct Held(pub u64, pub u64, pub Mode, pub Option<u64>);

// What it sends, with its epoch and the last push that it has accepted.
pub enum Says {
    Hello,
    Ack(u64, u64),
    Lock(u64, u64, u64, u64, Mode),
    Write(u64, u64, u64, Change),
    Take(u64, u64, u64, Change),
    Release(u64, u64, u64, u64, Mode),
    Report(u64, &'static [(u64, u64, RangePart)], &'static [(u64, KeyPart)]),
}

// What comes of it.
pub enum Gives {
    Nothing,
    One(Says),
    Two(Says, Says),
    Three(Says, Says, Says),
    Refused(CommandRefused),
    Rows(&'static [(u64, u64)]),
    Miss(u64),
    Pending(u64),
    Id(u64),
    Here(RangePart, KeyPart),
    Shows(u64, u64, LockStatus, WriteStatus),
}

static POINTS: [u64; 8] = [0, 3, 8, 10, 15, 20, 30, END];

fn op_of(change: Change) -> WriteOp {
    match change {
        Change::Insert(key, number) => WriteOp::Insert {
            key,
            value: Value::from_u64(number),
        },
        Change::Put(key, number) => WriteOp::Put {
            key,
            value: Value::from_u64(number),
        },
        Change::Delete(key) => WriteOp::Delete { key },
    }
}

// What the client shows: its status, and what it holds at the points that the rows name.
fn seen(client: &Client) -> (Status, [(RangePart, KeyPart); 8]) {
    let mut all = [(RangePart::N, KeyPart::N); 8];
    for i in 0..8usize {
        all[i] = client.held(POINTS[i]);
    }
    (client.status(), all)
}

fn is_release(body: &RequestBody, lo: u64, hi: u64, keep: Mode) -> bool {
    match body {
        RequestBody::Release { span, mode } => {
            span.lo() == lo && span.hi() == hi && *mode == keep
        }
        _ => false,
    }
}

// Whether it asks for the change by this number, and takes the lock that it needs or not.
fn is_write(body: &RequestBody, number: u64, change: Change, seizes: bool) -> bool {
    let op = op_of(change);
    *body == RequestBody::Write { number, op, seizes }
}

// Whether the request is the expected one, in this epoch and after this push.
fn is_request(request: &Request, expected: &Says) -> bool {
    let Request { epoch, seen, body } = request;
    match *expected {
        Says::Ack(e, s) => (*epoch, *seen) == (e, s) && *body == RequestBody::Ack,
        Says::Lock(e, s, req, point, mode) => {
            let hi = point.saturating_add(1);
            (*epoch, *seen) == (e, s)
                && *body
                    == RequestBody::Lock {
                        req,
                        point,
                        hi,
                        mode,
                    }
        }
        Says::Write(e, s, number, change) => {
            (*epoch, *seen) == (e, s) && is_write(body, number, change, false)
        }
        Says::Take(e, s, number, change) => {
            (*epoch, *seen) == (e, s) && is_write(body, number, change, true)
        }
        Says::Release(e, s, lo, hi, keep) => {
            (*epoch, *seen) == (e, s) && is_release(body, lo, hi, keep)
        }
        Says::Hello | Says::Report(..) => false,
    }
}

pub fn is_said(message: &ToServer, expected: &Says) -> bool {
    if message.client != 3 || message.incarnation != 2 {
        return false;
    }
    match (&message.body, expected) {
        (ToServerBody::Hello, Says::Hello) => true,
        (ToServerBody::Report { epoch, pieces }, Says::Report(number, ranges, keys)) => {
            epoch == number && are_told(pieces, ranges, keys)
        }
        (ToServerBody::Request(request), _) => is_request(request, expected),
        _ => false,
    }
}

// Whether the client sends this.
fn are_said(messages: &[ToServer], expected: &Gives) -> bool {
    match (messages, expected) {
        ([], Gives::Nothing) => true,
        ([one], Gives::One(first)) => is_said(one, first),
        ([one, two], Gives::Two(first, second)) => is_said(one, first) && is_said(two, second),
        ([one, two, three], Gives::Three(first, second, third)) => {
            is_said(one, first) && is_said(two, second) && is_said(three, third)
        }
        _ => false,
    }
}

fn holding(held: Held) -> Option<Holding> {
    let Held(lo, hi, mode, number) = held;
    let value = match number {
        Some(number) => Some(Value::from_u64(number)),
        None => None,
    };
    match Span::new(lo, hi) {
        Ok(span) => Some(Holding { span, mode, value }),
        Err(_) => None,
    }
}

fn push(epoch: u64, number: u64, body: PushBody) -> ToClientBody {
    ToClientBody::Push {
        epoch,
        number,
        body,
    }
}

// The holding of one slot.
fn one(alloc: Global, held: Held) -> Option<Holdings> {
    let mut items = room_for(alloc, 1)?;
    put(&mut items, holding(held))?;
    Holdings::new(items)
}

// What the client receives, if the act is a message.
fn told(alloc: Global, act: Act) -> Option<ToClientBody> {
    match act {
        Act::Epoch(epoch) | Act::ForAnother(epoch) | Act::ForAnEarlier(epoch) => {
            Some(ToClientBody::Epoch { epoch })
        }
        Act::Grant(epoch, number, req, held) => {
            let holdings = one(alloc, held)?;
            Some(push(epoch, number, PushBody::Grant { req, holdings }))
        }
        Act::Absent(epoch, number, req, point) => {
            Some(push(epoch, number, PushBody::Absent { req, point }))
        }
        Act::Answer(epoch, push_number, number, outcome, held) => {
            let holding = holding(held)?;
            let body = PushBody::Answer {
                number,
                outcome,
                holding,
            };
            Some(push(epoch, push_number, body))
        }
        Act::Callback(epoch, lo, hi, keep) => match Span::new(lo, hi) {
            Ok(span) => Some(ToClientBody::Callback { epoch, span, keep }),
            Err(_) => None,
        },
        _ => None,
    }
}

fn message(act: Act, body: ToClientBody) -> ToClient {
    let (client, incarnation) = match act {
        Act::ForAnother(_) => (4, 2),
        Act::ForAnEarlier(_) => (3, 1),
        _ => (3, 2),
    };
    ToClient {
        client,
        incarnation,
        body,
    }
}

// Whether the client answers the message with this, perhaps after refusals, each of which changes
// nothing.
fn hears(client: &mut Client, message: &ToClient, expected: &Gives) -> bool {
    let before = seen(client);
    for _ in 0..CALLS {
        if let Ok(list) = client.step(message) {
            return are_said(list.as_slice(), expected);
        }
        if seen(client) != before {
            return false;
        }
    }
    false
}

// A command that sends.
fn command(client: &mut Client, act: Act) -> Result<Vec<ToServer>, CommandRefused> {
    match act {
        Act::Lock(point, mode) => client.lock(point, point.saturating_add(1), mode),
        Act::LockTo(point, hi, mode) => client.lock(point, hi, mode),
        Act::Write(change) => client.write(op_of(change)),
        Act::Take(change) => client.seize(op_of(change)),
        Act::Lower(lo, hi, keep) => client.lower(lo, hi, keep),
        Act::Forget(lo, hi) => client.forget(lo, hi),
        _ => match client.tick() {
            Ok(list) => Ok(list),
            Err(_) => Err(CommandRefused::OutOfMemory),
        },
    }
}

fn is_answered(answer: Result<Vec<ToServer>, CommandRefused>, expected: &Gives) -> bool {
    match (answer, expected) {
        (Ok(list), _) => are_said(list.as_slice(), expected),
        (Err(refusal), Gives::Refused(reason)) => refusal == *reason,
        (Err(_), _) => false,
    }
}

// Whether the command is answered so, perhaps after refusals; whatever refuses it changes nothing.
fn commands(client: &mut Client, act: Act, expected: &Gives) -> bool {
    let before = seen(client);
    for _ in 0..CALLS {
        let answer = command(client, act);
        if answer.is_err() && seen(client) != before {
            return false;
        }
        if !matches!(answer, Err(CommandRefused::OutOfMemory)) {
            return is_answered(answer, expected);
        }
    }
    false
}

fn is_found(answer: &ScanAnswer, expected: &Gives) -> bool {
    match (answer, expected) {
        (ScanAnswer::Rows(rows), Gives::Rows(entries)) => are_numbers(rows.as_slice(), entries),
        (ScanAnswer::Miss(p), Gives::Miss(point)) => p == point,
        (ScanAnswer::Pending(key), Gives::Pending(point)) => key == point,
        _ => false,
    }
}

// Whether the scan is answered so, perhaps after refusals.
fn scans(client: &Client, lo: u64, hi: u64, expected: &Gives) -> bool {
    for _ in 0..CALLS {
        match (client.scan(lo, hi), expected) {
            (Ok(answer), _) => return is_found(&answer, expected),
            (Err(CommandRefused::OutOfMemory), _) => {}
            (Err(refusal), Gives::Refused(reason)) => return refusal == *reason,
            (Err(_), _) => return false,
        }
    }
    false
}

fn pins(client: &mut Client, lo: u64, hi: u64, expected: &Gives) -> bool {
    match (client.pin(lo, hi), expected) {
        (Ok(id), Gives::Id(least)) => id == *least,
        (Err(refusal), Gives::Refused(reason)) => refusal == *reason,
        _ => false,
    }
}

fn unpins(client: &mut Client, id: u64, expected: &Gives) -> bool {
    match (client.unpin(id), expected) {
        (Ok(()), Gives::Nothing) => true,
        (Err(refusal), Gives::Refused(reason)) => refusal == *reason,
        _ => false,
    }
}

fn shows(client: &Client, expected: &Gives) -> bool {
    let Status {
        epoch,
        seen,
        lock,
        write,
    } = client.status();
    match expected {
        Gives::Shows(e, s, l, w) => (epoch, seen) == (*e, *s) && lock == *l && write == *w,
        _ => false,
    }
}

// Whether the act gives this.
fn acts(alloc: Global, client: &mut Client, act: Act, expected: &Gives) -> bool {
    match act {
        Act::Scan(lo, hi) => scans(client, lo, hi, expected),
        Act::Pin(lo, hi) => pins(client, lo, hi, expected),
        Act::Unpin(id) => unpins(client, id, expected),
        Act::Status => shows(client, expected),
        Act::At(p) => match expected {
            Gives::Here(range, key) => client.held(p) == (*range, *key),
            _ => false,
        },
        _ => match told(alloc, act) {
            Some(body) => hears(client, &message(act, body), expected),
            None => commands(client, act, expected),
        },
    }
}

// The row that fails first, if any.
pub fn fails(alloc: Global, client: &mut Client, rows: &[(Act, Gives)]) -> Option<usize> {
    for i in 0..rows.len() {
        if !acts(alloc, client, rows[i].0, &rows[i].1) {
            return Some(i);
        }
    }
    None
}
