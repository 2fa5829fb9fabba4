//! Messages to a client, read.
ghost use Rattle.std.specs.Prelude.{◌≡◌, Ok, Err, IfOk};
ghost use Rattle.krl_messages.specs.declared.to_client.ToClient.{ToClient};
ghost use Rattle.krl_wire.specs.Fitting.{FitsToClient};
ghost use Rattle.krl_wire.specs.Spelling as spelling;
ghost use Rattle.krl_wire.specs.declared.fault.ReadError.TheVariants as errors;
ghost use Rattle.krl_wire.specs.Reading.{Reads, ReadsIfRoom, GivesIfRoom, grant_at, absent_at};
ghost use Rattle.krl_wire.specs.Reading.{answer_at, push_body_at, push_at, epoch_at, callback_at};
ghost use Rattle.krl_wire.specs.Reading.{to_client_body_at, BeginsGrant};
ghost use Rattle.krl_wire.specs.Reading as reading;

use crate::fault::{Fault, ReadError};
use crate::kinds::{ABSENT, CALLBACK, EPOCH, GRANT};
use crate::read_holdings::{holding, holdings};
use crate::reader::Reader;
use krl_messages::{Outcome, PushBody, ToClient, ToClientBody};
use std::alloc::Global;

// Each outcome stands at its tag.
static OUTCOMES: [Outcome; 5] = [
    Outcome::Applied,
    Outcome::Exists,
    Outcome::Absent,
    Outcome::NotHeld,
    Outcome::Full,
];

#[tactic(auto, unfolding(crate::specs::Reading::grant_at))]
fn grant(reader: &mut Reader<'_>, alloc: Global) -> Result<PushBody, ReadError>
    ensures { ReadsIfRoom result reader.new (grant_at reader.old) }
{
    let req = reader.number()?;
    let holdings = holdings(reader, alloc)?;
    Ok(PushBody::Grant { req, holdings })
}

#[tactic(auto, unfolding(crate::specs::Reading::absent_at))]
fn absent(reader: &mut Reader<'_>) -> Result<PushBody, Fault>
    ensures { Reads result reader.new (absent_at reader.old) }
{
    let req = reader.number()?;
    let point = reader.number()?;
    Ok(PushBody::Absent { req, point })
}

#[tactic(auto, unfolding(crate::specs::Reading::answer_at))]
fn answer(reader: &mut Reader<'_>) -> Result<PushBody, Fault>
    ensures { Reads result reader.new (answer_at reader.old) }
{
    let number = reader.number()?;
    let outcome = reader.tag(&OUTCOMES, Fault::Outcome)?;
    let holding = holding(reader)?;
    Ok(PushBody::Answer {
        number,
        outcome,
        holding,
    })
}

// What a push of this kind carries. The kind is 17 to 19.
#[tactic(auto, unfolding(crate::specs::Reading::push_body_at))]
fn push_body(reader: &mut Reader<'_>, alloc: Global, kind: u8) -> Result<PushBody, ReadError>
    ensures reads { ReadsIfRoom result reader.new (push_body_at kind reader.old) }
    ensures memory { result ≡ Err errors.OutOfMemory → kind ≡ 17 }
{
    match kind {
        GRANT => grant(reader, alloc),
        ABSENT => Ok(absent(reader)?),
        _ => Ok(answer(reader)?),
    }
}

#[tactic(auto, unfolding(crate::specs::Reading::push_at))]
fn push(reader: &mut Reader<'_>, alloc: Global, kind: u8) -> Result<ToClientBody, ReadError>
    ensures reads { ReadsIfRoom result reader.new (push_at kind reader.old) }
    ensures memory { result ≡ Err errors.OutOfMemory → kind ≡ 17 }
{
    let epoch = reader.number()?;
    let number = reader.number()?;
    let body = push_body(reader, alloc, kind)?;
    Ok(ToClientBody::Push {
        epoch,
        number,
        body,
    })
}

#[tactic(auto, unfolding(crate::specs::Reading::epoch_at))]
fn epoch(reader: &mut Reader<'_>) -> Result<ToClientBody, Fault>
    ensures { Reads result reader.new (epoch_at reader.old) }
{
    let epoch = reader.number()?;
    Ok(ToClientBody::Epoch { epoch })
}

#[tactic(auto, unfolding(crate::specs::Reading::callback_at))]
fn callback(reader: &mut Reader<'_>) -> Result<ToClientBody, Fault>
    ensures { Reads result reader.new (callback_at reader.old) }
{
    let epoch = reader.number()?;
    let span = reader.span()?;
    let keep = reader.mode()?;
    Ok(ToClientBody::Callback { epoch, span, keep })
}

// What a message of this kind has after its head. The kind is 16 to 20.
#[tactic(auto, unfolding(crate::specs::Reading::to_client_body_at))]
fn to_client_body(
    reader: &mut Reader<'_>,
    alloc: Global,
    kind: u8,
) -> Result<ToClientBody, ReadError>
    ensures reads { ReadsIfRoom result reader.new (to_client_body_at kind reader.old) }
    ensures memory { result ≡ Err errors.OutOfMemory → kind ≡ 17 }
{
    match kind {
        EPOCH => Ok(epoch(reader)?),
        CALLBACK => Ok(callback(reader)?),
        _ => push(reader, alloc, kind),
    }
}

// The message that all the bytes spell.
#[tactic(auto, unfolding(crate::specs::Reading::to_client_of))]
fn read(alloc: Global, bytes: &[u8]) -> Result<ToClient, ReadError>
    ensures gives { GivesIfRoom result (reading.to_client_of bytes.now) }
    ensures memory { result ≡ Err errors.OutOfMemory → BeginsGrant bytes.now }
{
    let mut reader = Reader::new(bytes);
    let kind = reader.head(EPOCH, CALLBACK)?;
    let client = reader.number()?;
    let incarnation = reader.number()?;
    let body = to_client_body(&mut reader, alloc, kind)?;
    if !reader.is_empty() {
        return Err(ReadError::Fault(Fault::Trailing));
    }
    Ok(ToClient {
        client,
        incarnation,
        body,
    })
}

/// The message to a client that all the bytes spell. Only a grant takes memory, for its holdings.
///
/// # Errors
///
/// `Fault` with the first fault from the left, if the bytes are no message; `OutOfMemory` if
/// the memory for the list is refused.
pub fn to_client_of(alloc: Global, bytes: &[u8]) -> Result<ToClient, ReadError>
    // What is read is spelled so.
    ensures found { IfOk result (λ m. FitsToClient m × (bytes.now ≡ spelling.to_client m)) }
    // What is spelled so is read, unless memory runs out.
    ensures only { (m : ToClient) → FitsToClient m → bytes.now ≡ spelling.to_client m
        → GivesIfRoom result (Ok m) }
    // Which fault it is.
    ensures exact { GivesIfRoom result (reading.to_client_of bytes.now) }
    // Only a grant is refused for want of memory.
    ensures memory { result ≡ Err errors.OutOfMemory → BeginsGrant bytes.now }
{
    read(alloc, bytes)
}
