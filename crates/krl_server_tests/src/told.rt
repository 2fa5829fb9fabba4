//! Whether messages to clients are the ones that are expected.
use crate::acts::{Held, Told, Who, value};
use krl_messages::{Holding, Outcome, PushBody, ToClient, ToClientBody};
use krl_modes::Span;

fn holding(held: Held) -> Option<Holding> {
    let Held(lo, hi, mode, text) = held;
    let span = Span::new(lo, hi).ok()?;
    let value = match text {
        None => None,
        Some(text) => Some(value(text)?),
    };
    Some(Holding { span, mode, value })
}

fn receiver(told: Told) -> Who {
    match told {
        Told::Epoch(who, _)
        | Told::Grant(who, ..)
        | Told::Grants(who, ..)
        | Told::Absent(who, ..)
        | Told::Answer(who, ..)
        | Told::Callback(who, ..) => who,
    }
}

// Whether these are the holdings, one after another.
fn are_held(holdings: &[Holding], expected: &[Held]) -> bool {
    for (found, held) in holdings.iter().zip(expected) {
        if holding(*held) != Some(*found) {
            return false;
        }
    }
    holdings.len() == expected.len()
}

// Whether the push answers the request with just these holdings.
fn is_granted(push: &PushBody, req: u64, expected: &[Held]) -> bool {
    match push {
        PushBody::Grant {
            req: answered,
            holdings,
        } => *answered == req && are_held(holdings.as_slice(), expected),
        _ => false,
    }
}

// Whether the push answers the write so.
fn is_answered(push: &PushBody, number: u64, outcome: Outcome, expected: Held) -> bool {
    match push {
        PushBody::Answer {
            number: answered,
            outcome: found,
            holding: after,
        } => *answered == number && *found == outcome && holding(expected) == Some(*after),
        _ => false,
    }
}

// Whether a push of this number is the one that is expected.
fn is_pushed(number: u64, push: &PushBody, told: Told) -> bool {
    match told {
        Told::Grant(_, pushed, req, held) => pushed == number && is_granted(push, req, &[held]),
        Told::Grants(_, pushed, req, held) => pushed == number && is_granted(push, req, held),
        Told::Absent(_, pushed, req, point) => {
            pushed == number && *push == PushBody::Absent { req, point }
        }
        Told::Answer(_, pushed, write, outcome, held) => {
            pushed == number && is_answered(push, write, outcome, held)
        }
        Told::Epoch(..) | Told::Callback(..) => false,
    }
}

// Whether this is sent by a server of the epoch.
fn is_said(epoch: u64, body: &ToClientBody, told: Told) -> bool {
    match body {
        ToClientBody::Epoch { epoch: said } => {
            matches!(told, Told::Epoch(_, expected) if expected == *said)
        }
        ToClientBody::Push {
            epoch: said,
            number,
            body,
        } => *said == epoch && is_pushed(*number, body, told),
        ToClientBody::Callback {
            epoch: said,
            span,
            keep,
        } => match told {
            Told::Callback(_, lo, hi, mode) => {
                *said == epoch && *keep == mode && (span.lo(), span.hi()) == (lo, hi)
            }
            _ => false,
        },
    }
}

fn is_told(epoch: u64, message: &ToClient, told: Told) -> bool {
    let Who(client, incarnation) = receiver(told);
    message.client == client
        && message.incarnation == incarnation
        && is_said(epoch, &message.body, told)
}

pub fn are_told(epoch: u64, messages: &[ToClient], expected: &[Told]) -> bool {
    for (message, told) in messages.iter().zip(expected) {
        if !is_told(epoch, message, *told) {
            return false;
        }
    }
    messages.len() == expected.len()
}
