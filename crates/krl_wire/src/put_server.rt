//! Messages to the server, written.
ghost use Rattle.std.specs.Prelude.{◌≡◌, ◌<◌, ◌^◌, ◌++◌, [], ◌∷◌, ◌↔◌, length, IfOk, OnOk, IsTrue};
ghost use Rattle.std.specs.List.{flat_map};
ghost use Rattle.krl_wire.specs.Fitting.{HasCounts};
ghost use Rattle.krl_wire.specs.Spelling as spelling;

use crate::kinds::{
    ACK, BYE, DELETE, HELLO, INSERT, LOCK, PUT, RELEASE, REPORT, TAKE_DELETE, TAKE_INSERT, TAKE_PUT,
};
use crate::put_fields::{put_head, put_mode, put_number, put_span, put_span_and_mode, put_value};
use krl_messages::{
    KeyPiece, Pieces, RangePiece, Request, RequestBody, ToServer, ToServerBody, Value, WriteOp,
};
use krl_modes::{KeyPart, Mode, RangePart};
use std::alloc::{AllocError, Global};

// One past the greatest count of four bytes.
const PAST_COUNTS: usize = 4294967296;

// A room for each message but a long report, so that none of them is moved while it is spelled.
const ROOM: usize = 96;

fn range_tag(part: RangePart) -> u8
    ensures { result ≡ spelling.range_tag part }
{
    part as u8
}

fn key_tag(part: KeyPart) -> u8
    ensures { result ≡ spelling.key_tag part }
{
    part as u8
}

fn put_range(out: &mut Vec<u8>, piece: &RangePiece) -> Result<(), AllocError>
    ensures { OnOk result (out.new.items ≡ out.old.items ++ spelling.range_piece piece.now) }
{
    put_span(out, piece.span)?;
    Ok(out.push(range_tag(piece.part))?)
}

fn put_key(out: &mut Vec<u8>, piece: &KeyPiece) -> Result<(), AllocError>
    ensures { OnOk result (out.new.items ≡ out.old.items ++ spelling.key_piece piece.now) }
{
    put_number(out, piece.point)?;
    Ok(out.push(key_tag(piece.part))?)
}

fn put_ranges(out: &mut Vec<u8>, pieces: &[RangePiece]) -> Result<(), AllocError>
    ensures { OnOk result (out.new.items
        ≡ out.old.items ++ flat_map spelling.range_piece pieces.now) }
{
    for piece in pieces {
        put_range(out, piece)?;
    }
    Ok(())
}

fn put_keys(out: &mut Vec<u8>, pieces: &[KeyPiece]) -> Result<(), AllocError>
    ensures { OnOk result (out.new.items
        ≡ out.old.items ++ flat_map spelling.key_piece pieces.now) }
{
    for piece in pieces {
        put_key(out, piece)?;
    }
    Ok(())
}

fn put_pieces(out: &mut Vec<u8>, pieces: &Pieces) -> Result<(), AllocError>
    requires ranges { length pieces.now.ranges < 2 ^ 32 }
    requires keys { length pieces.now.keys < 2 ^ 32 }
    ensures { OnOk result (out.new.items ≡ out.old.items ++ spelling.pieces pieces.now) }
{
    let ranges = pieces.ranges.as_slice();
    out.extend_from_slice(&(ranges.len() as u32).to_le_bytes())?;
    put_ranges(out, ranges)?;
    let keys = pieces.keys.as_slice();
    out.extend_from_slice(&(keys.len() as u32).to_le_bytes())?;
    put_keys(out, keys)
}

fn put_lock(out: &mut Vec<u8>, req: u64, point: u64, hi: u64, mode: Mode) -> Result<(), AllocError>
    ensures { OnOk result (out.new.items ≡ out.old.items
        ++ (spelling.number req ++ spelling.number point ++ spelling.number hi
        ++ spelling.mode_tag mode ∷ [])) }
{
    put_number(out, req)?;
    put_number(out, point)?;
    put_number(out, hi)?;
    put_mode(out, mode)
}

// The fields of an insert and a put.
fn put_change(out: &mut Vec<u8>, number: u64, key: u64, value: &Value) -> Result<(), AllocError>
    ensures { OnOk result (out.new.items ≡ out.old.items
        ++ (spelling.number number ++ spelling.number key ++ spelling.value value.now)) }
{
    put_number(out, number)?;
    put_number(out, key)?;
    put_value(out, value)
}

fn put_delete(out: &mut Vec<u8>, number: u64, key: u64) -> Result<(), AllocError>
    ensures { OnOk result (out.new.items ≡ out.old.items
        ++ (spelling.number number ++ spelling.number key)) }
{
    put_number(out, number)?;
    put_number(out, key)
}

fn put_request_body(out: &mut Vec<u8>, body: &RequestBody) -> Result<(), AllocError>
    ensures { OnOk result (out.new.items ≡ out.old.items ++ spelling.request_body body.now) }
{
    match *body {
        RequestBody::Lock {
            req,
            point,
            hi,
            mode,
        } => put_lock(out, req, point, hi, mode),
        RequestBody::Write { number, op, .. } => match op {
            WriteOp::Insert { key, value } => put_change(out, number, key, &value),
            WriteOp::Put { key, value } => put_change(out, number, key, &value),
            WriteOp::Delete { key } => put_delete(out, number, key),
        },
        RequestBody::Release { span, mode } => put_span_and_mode(out, span, mode),
        RequestBody::Ack => Ok(()),
    }
}

// The kind names the change, and whether the write seizes the lock that it needs.
fn write_kind(op: &WriteOp, seizes: bool) -> u8
    ensures { result ≡ spelling.write_kind op.now seizes }
{
    match (op, seizes) {
        (WriteOp::Insert { .. }, false) => INSERT,
        (WriteOp::Put { .. }, false) => PUT,
        (WriteOp::Delete { .. }, false) => DELETE,
        (WriteOp::Insert { .. }, true) => TAKE_INSERT,
        (WriteOp::Put { .. }, true) => TAKE_PUT,
        (WriteOp::Delete { .. }, true) => TAKE_DELETE,
    }
}

fn request_kind(body: &RequestBody) -> u8
    ensures { result ≡ spelling.request_kind body.now }
{
    match body {
        RequestBody::Lock { .. } => LOCK,
        RequestBody::Write { op, seizes, .. } => write_kind(op, *seizes),
        RequestBody::Release { .. } => RELEASE,
        RequestBody::Ack => ACK,
    }
}

fn to_server_kind(body: &ToServerBody) -> u8
    ensures { result ≡ spelling.to_server_kind body.now }
{
    match body {
        ToServerBody::Hello => HELLO,
        ToServerBody::Bye => BYE,
        ToServerBody::Report { .. } => REPORT,
        ToServerBody::Request(request) => request_kind(&request.body),
    }
}

fn put_report(out: &mut Vec<u8>, epoch: u64, pieces: &Pieces) -> Result<(), AllocError>
    requires ranges { length pieces.now.ranges < 2 ^ 32 }
    requires keys { length pieces.now.keys < 2 ^ 32 }
    ensures { OnOk result (out.new.items
        ≡ out.old.items ++ (spelling.number epoch ++ spelling.pieces pieces.now)) }
{
    put_number(out, epoch)?;
    put_pieces(out, pieces)
}

fn put_request(out: &mut Vec<u8>, request: &Request) -> Result<(), AllocError>
    ensures { OnOk result (out.new.items ≡ out.old.items
        ++ (spelling.number request.now.epoch ++ spelling.number request.now.seen
        ++ spelling.request_body request.now.body)) }
{
    put_number(out, request.epoch)?;
    put_number(out, request.seen)?;
    put_request_body(out, &request.body)
}

fn put_to_server_body(out: &mut Vec<u8>, body: &ToServerBody) -> Result<(), AllocError>
    requires { HasCounts body.now }
    ensures { OnOk result (out.new.items ≡ out.old.items ++ spelling.to_server_body body.now) }
{
    match body {
        ToServerBody::Hello => Ok(()),
        ToServerBody::Bye => Ok(()),
        ToServerBody::Report { epoch, pieces } => put_report(out, *epoch, pieces),
        ToServerBody::Request(request) => put_request(out, request),
    }
}

/// Whether the message has a spelling: a report has one if each of its lists has less than 2^32
/// items, and every other message has one.
pub fn has_counts(message: &ToServer) -> bool
    ensures { IsTrue result ↔ HasCounts message.now.body }
{
    match &message.body {
        ToServerBody::Report { pieces, .. } => {
            pieces.ranges.as_slice().len() < PAST_COUNTS
                && pieces.keys.as_slice().len() < PAST_COUNTS
        }
        ToServerBody::Hello | ToServerBody::Bye | ToServerBody::Request(_) => true,
    }
}

fn put_to_server(out: &mut Vec<u8>, message: &ToServer) -> Result<(), AllocError>
    requires { HasCounts message.now.body }
    ensures { OnOk result (out.new.items ≡ out.old.items ++ spelling.to_server message.now) }
{
    put_head(
        out,
        to_server_kind(&message.body),
        message.client,
        message.incarnation,
    )?;
    put_to_server_body(out, &message.body)
}

/// The message's spelling. `has_counts` reports whether it has one.
///
/// # Errors
///
/// `AllocError` if memory is refused.
pub fn spell_to_server(alloc: Global, message: &ToServer) -> Result<Vec<u8>, AllocError>
    requires { HasCounts message.now.body }
    ensures { IfOk result (λ bytes. bytes.items ≡ spelling.to_server message.now) }
{
    let mut out = Vec::with_capacity(alloc, ROOM)?;
    put_to_server(&mut out, message)?;
    Ok(out)
}
