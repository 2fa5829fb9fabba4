//! Messages to the server, read.
ghost use Rattle.std.specs.Prelude.{◌≡◌, Ok, Err, IfOk};
ghost use Rattle.krl_messages.specs.declared.to_server.ToServer.{ToServer};
ghost use Rattle.krl_wire.specs.Fitting.{FitsToServer};
ghost use Rattle.krl_wire.specs.Spelling as spelling;
ghost use Rattle.krl_wire.specs.declared.fault.ReadError.TheVariants as errors;
ghost use Rattle.krl_wire.specs.Reading.{Reads, ReadsIfRoom, GivesIfRoom, lock_at, insert_at};
ghost use Rattle.krl_wire.specs.Reading.{put_at, delete_at, release_at, request_body_at};
ghost use Rattle.krl_wire.specs.Reading.{request_at, report_at, to_server_body_at, BeginsReport};
ghost use Rattle.krl_wire.specs.Reading as reading;

use crate::fault::{Fault, ReadError};
use crate::kinds::{
    ACK, BYE, DELETE, HELLO, INSERT, LOCK, PUT, RELEASE, REPORT, TAKE_DELETE, TAKE_INSERT, TAKE_PUT,
};
use crate::read_pieces::pieces;
use crate::reader::Reader;
use krl_messages::{Request, RequestBody, ToServer, ToServerBody, WriteOp};
use std::alloc::Global;

#[tactic(auto, unfolding(crate::specs::Reading::lock_at))]
fn lock(reader: &mut Reader<'_>) -> Result<RequestBody, Fault>
    ensures { Reads result reader.new (lock_at reader.old) }
{
    let req = reader.number()?;
    let point = reader.number()?;
    let hi = reader.number()?;
    let mode = reader.mode()?;
    Ok(RequestBody::Lock {
        req,
        point,
        hi,
        mode,
    })
}

#[tactic(auto, unfolding(crate::specs::Reading::insert_at))]
fn insert(reader: &mut Reader<'_>, seizes: bool) -> Result<RequestBody, Fault>
    ensures { Reads result reader.new (insert_at seizes reader.old) }
{
    let number = reader.number()?;
    let key = reader.number()?;
    let value = reader.value()?;
    let op = WriteOp::Insert { key, value };
    Ok(RequestBody::Write { number, op, seizes })
}

#[tactic(auto, unfolding(crate::specs::Reading::put_at))]
fn put(reader: &mut Reader<'_>, seizes: bool) -> Result<RequestBody, Fault>
    ensures { Reads result reader.new (put_at seizes reader.old) }
{
    let number = reader.number()?;
    let key = reader.number()?;
    let value = reader.value()?;
    let op = WriteOp::Put { key, value };
    Ok(RequestBody::Write { number, op, seizes })
}

#[tactic(auto, unfolding(crate::specs::Reading::delete_at))]
fn delete(reader: &mut Reader<'_>, seizes: bool) -> Result<RequestBody, Fault>
    ensures { Reads result reader.new (delete_at seizes reader.old) }
{
    let number = reader.number()?;
    let key = reader.number()?;
    let op = WriteOp::Delete { key };
    Ok(RequestBody::Write { number, op, seizes })
}

#[tactic(auto, unfolding(crate::specs::Reading::release_at))]
fn release(reader: &mut Reader<'_>) -> Result<RequestBody, Fault>
    ensures { Reads result reader.new (release_at reader.old) }
{
    let span = reader.span()?;
    let mode = reader.mode()?;
    Ok(RequestBody::Release { span, mode })
}

// What a request of this kind asks. The kind is 3 to 11.
#[tactic(auto, unfolding(crate::specs::Reading::request_body_at))]
fn request_body(reader: &mut Reader<'_>, kind: u8) -> Result<RequestBody, Fault>
    ensures { Reads result reader.new (request_body_at kind reader.old) }
{
    match kind {
        LOCK => lock(reader),
        INSERT => insert(reader, false),
        PUT => put(reader, false),
        DELETE => delete(reader, false),
        RELEASE => release(reader),
        ACK => Ok(RequestBody::Ack),
        TAKE_INSERT => insert(reader, true),
        TAKE_PUT => put(reader, true),
        _ => delete(reader, true),
    }
}

#[tactic(auto, unfolding(crate::specs::Reading::request_at))]
fn request(reader: &mut Reader<'_>, kind: u8) -> Result<ToServerBody, Fault>
    ensures { Reads result reader.new (request_at kind reader.old) }
{
    let epoch = reader.number()?;
    let seen = reader.number()?;
    let body = request_body(reader, kind)?;
    Ok(ToServerBody::Request(Request { epoch, seen, body }))
}

#[tactic(auto, unfolding(crate::specs::Reading::report_at))]
fn report(reader: &mut Reader<'_>, alloc: Global) -> Result<ToServerBody, ReadError>
    ensures { ReadsIfRoom result reader.new (report_at reader.old) }
{
    let epoch = reader.number()?;
    let pieces = pieces(reader, alloc)?;
    Ok(ToServerBody::Report { epoch, pieces })
}

// What a message of this kind has after its head. The kind is 0 to 11.
#[tactic(auto, unfolding(crate::specs::Reading::to_server_body_at))]
fn to_server_body(
    reader: &mut Reader<'_>,
    alloc: Global,
    kind: u8,
) -> Result<ToServerBody, ReadError>
    ensures reads { ReadsIfRoom result reader.new (to_server_body_at kind reader.old) }
    ensures memory { result ≡ Err errors.OutOfMemory → kind ≡ 2 }
{
    match kind {
        HELLO => Ok(ToServerBody::Hello),
        BYE => Ok(ToServerBody::Bye),
        REPORT => report(reader, alloc),
        _ => Ok(request(reader, kind)?),
    }
}

// The message that all the bytes spell.
#[tactic(auto, unfolding(crate::specs::Reading::to_server_of))]
fn read(alloc: Global, bytes: &[u8]) -> Result<ToServer, ReadError>
    ensures gives { GivesIfRoom result (reading.to_server_of bytes.now) }
    ensures memory { result ≡ Err errors.OutOfMemory → BeginsReport bytes.now }
{
    let mut reader = Reader::new(bytes);
    let kind = reader.head(HELLO, TAKE_DELETE)?;
    let client = reader.number()?;
    let incarnation = reader.number()?;
    let body = to_server_body(&mut reader, alloc, kind)?;
    if !reader.is_empty() {
        return Err(ReadError::Fault(Fault::Trailing));
    }
    Ok(ToServer {
        client,
        incarnation,
        body,
    })
}

/// The message to the server that all the bytes spell. Only a report takes memory, for its two
/// lists; a count that promises more than the bytes can hold is refused before.
///
/// # Errors
///
/// `Fault` with the first fault from the left, if the bytes are no message; `OutOfMemory` if
/// the memory for a list is refused.
pub fn to_server_of(alloc: Global, bytes: &[u8]) -> Result<ToServer, ReadError>
    // What is read is spelled so.
    ensures found { IfOk result (λ m. FitsToServer m × (bytes.now ≡ spelling.to_server m)) }
    // What is spelled so is read, unless memory runs out.
    ensures only { (m : ToServer) → FitsToServer m → bytes.now ≡ spelling.to_server m
        → GivesIfRoom result (Ok m) }
    // Which fault it is.
    ensures exact { GivesIfRoom result (reading.to_server_of bytes.now) }
    // Only a report is refused for want of memory.
    ensures memory { result ≡ Err errors.OutOfMemory → BeginsReport bytes.now }
{
    read(alloc, bytes)
}
