//! The messages of clients, as the acts name them.
use crate::acts::{Act, Asked, Change, Who, value};
use crate::again::CALLS;
use krl_messages::{
    KeyPiece, KeyPieces, Pieces, RangePiece, RangePieces, Request, RequestBody, ToServer,
    ToServerBody, WriteOp,
};
use krl_modes::{KeyPart, RangePart, Span};
use std::alloc::{AllocError, Global};

fn range_pieces(
    alloc: Global,
    ranges: &[(u64, u64, RangePart)],
) -> Result<RangePieces, AllocError> {
    let mut pieces = Vec::new(alloc);
    for (lo, hi, part) in ranges {
        if let Ok(span) = Span::new(*lo, *hi) {
            pieces.push(RangePiece { span, part: *part })?;
        }
    }
    Ok(pieces.into())
}

fn key_pieces(alloc: Global, keys: &[(u64, KeyPart)]) -> Result<KeyPieces, AllocError> {
    let mut pieces = Vec::new(alloc);
    for (point, part) in keys {
        pieces.push(KeyPiece {
            point: *point,
            part: *part,
        })?;
    }
    Ok(pieces.into())
}

/// The pieces of these ranges and keys. A range that is no span is passed over.
pub fn pieces(
    alloc: Global,
    ranges: &[(u64, u64, RangePart)],
    keys: &[(u64, KeyPart)],
) -> Result<Pieces, AllocError> {
    Ok(Pieces {
        ranges: range_pieces(alloc, ranges)?,
        keys: key_pieces(alloc, keys)?,
    })
}

// The write that an act names.
pub fn write(change: Change) -> Option<WriteOp> {
    match change {
        Change::Insert(key, text) => Some(WriteOp::Insert {
            key,
            value: value(text)?,
        }),
        Change::Put(key, text) => Some(WriteOp::Put {
            key,
            value: value(text)?,
        }),
        Change::Delete(key) => Some(WriteOp::Delete { key }),
    }
}

fn request(asked: Asked) -> Option<RequestBody> {
    match asked {
        Asked::Lock(req, point, mode) => Some(RequestBody::Lock {
            req,
            point,
            hi: point.saturating_add(1),
            mode,
        }),
        Asked::LockTo(req, point, hi, mode) => Some(RequestBody::Lock {
            req,
            point,
            hi,
            mode,
        }),
        Asked::Write(number, change) => Some(RequestBody::Write {
            number,
            op: write(change)?,
            seizes: false,
        }),
        Asked::Take(number, change) => Some(RequestBody::Write {
            number,
            op: write(change)?,
            seizes: true,
        }),
        Asked::Release(lo, hi, mode) => Some(RequestBody::Release {
            span: Span::new(lo, hi).ok()?,
            mode,
        }),
        Asked::Ack => Some(RequestBody::Ack),
    }
}

fn try_message(alloc: Global, act: Act) -> Result<Option<ToServer>, AllocError> {
    let (Who(client, incarnation), body) = match act {
        Act::Hello(who) => (who, ToServerBody::Hello),
        Act::Bye(who) => (who, ToServerBody::Bye),
        Act::Report(who, epoch, ranges, keys) => {
            let pieces = pieces(alloc, ranges, keys)?;
            (who, ToServerBody::Report { epoch, pieces })
        }
        Act::Asks(who, epoch, seen, asked) => {
            let Some(body) = request(asked) else {
                return Ok(None);
            };
            (who, ToServerBody::Request(Request { epoch, seen, body }))
        }
        Act::Nudge(_) | Act::Missing | Act::Entries => return Ok(None),
    };
    Ok(Some(ToServer {
        client,
        incarnation,
        body,
    }))
}

// The message that the server receives. It is made again if memory is refused. None if the act is
// no message.
pub fn message(alloc: Global, act: Act) -> Option<ToServer> {
    for _ in 0..CALLS {
        if let Ok(message) = try_message(alloc, act) {
            return message;
        }
    }
    None
}
