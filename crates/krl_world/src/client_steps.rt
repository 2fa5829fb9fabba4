//! What a client does, with all that was sent.
ghost use Rattle.std.specs.Prelude.{◌≡◌, ◌<◌, List, Some, length, slice_get};
ghost use Rattle.std.specs.Prelude.{OnOk, OnErr, IfErr};
ghost use Rattle.krl_messages.specs.declared.to_client.ToClient.{ToClient};
ghost use Rattle.krl_client.specs.Fields.{meaning};
ghost use Rattle.krl_world.specs.declared.message.Message.{Message};
ghost use Rattle.krl_world.specs.declared.message.Message.TheVariants as sent_message;
ghost use Rattle.krl_steps.specs.declared.step.Command.TheVariants as command;
ghost use Rattle.krl_steps.specs.Refusals.{refused_by_client};
ghost use Rattle.krl_world.specs.Fields.{place_of, client_there};
ghost use Rattle.krl_world.specs.PlaceSteps.{IsRefused, Commanded, CommandedAt, Started, Ticked};
ghost use Rattle.krl_world.specs.PlaceSteps.{HasRead, starting_refusal};
ghost use Rattle.krl_world.specs.Steps.{named};

use crate::message::Message;
use crate::network::{MAX_OF_A_CLIENT, send_to_server};
use crate::node::ClientPlace;
use krl_client::{Client, CommandRefused, ScanAnswer};
use krl_messages::{ToClient, WriteOp};
use krl_modes::Mode;
use krl_steps::{Answer, Command, Refused};
use std::alloc::{AllocError, Global};

/// Why a command is refused if there is no room for what it would send: a refusal that is due comes
/// before want of memory.
fn refused_without_room(due: Option<CommandRefused>) -> Refused
    ensures { IsRefused (named refused_by_client due) (Unit {0}) result }
{
    match due {
        Some(refusal) => Refused::from(refusal),
        None => Refused::OutOfMemory,
    }
}

// A command is judged once, by the client's call. The room for what it sends is taken before that
// call, since nothing may fail once the client has changed. If that memory is refused, the call is
// not made, and the client is only asked why it refuses the command.

/// The client asks for a lock.
fn lock(
    client: &mut Client,
    sent: &mut Vec<Message>,
    point: u64,
    hi: u64,
    mode: Mode,
) -> Result<Answer, Refused>
    ensures { Commanded (meaning client.old) (command.Lock point hi mode)
        (Some (meaning client.new)) sent.old.items sent.new.items result }
{
    if sent.reserve(MAX_OF_A_CLIENT).is_err() {
        return Err(refused_without_room(client.lock_refusal(point, hi)));
    }
    let messages = client.lock(point, hi, mode)?;
    send_to_server(sent, messages);
    Ok(Answer::Done)
}

/// The client writes.
fn write(client: &mut Client, sent: &mut Vec<Message>, op: WriteOp) -> Result<Answer, Refused>
    ensures { Commanded (meaning client.old) (command.Write op) (Some (meaning client.new))
        sent.old.items sent.new.items result }
{
    if sent.reserve(MAX_OF_A_CLIENT).is_err() {
        return Err(refused_without_room(client.write_refusal(op)));
    }
    let messages = client.write(op)?;
    send_to_server(sent, messages);
    Ok(Answer::Done)
}

/// The client writes, and seizes the lock that it needs, if that is free.
fn seize(client: &mut Client, sent: &mut Vec<Message>, op: WriteOp) -> Result<Answer, Refused>
    ensures { Commanded (meaning client.old) (command.Seize op) (Some (meaning client.new))
        sent.old.items sent.new.items result }
{
    if sent.reserve(MAX_OF_A_CLIENT).is_err() {
        return Err(refused_without_room(client.seize_refusal(op)));
    }
    let messages = client.seize(op)?;
    send_to_server(sent, messages);
    Ok(Answer::Done)
}

/// The client gives back what it holds of a span above a mode.
fn lower(
    client: &mut Client,
    sent: &mut Vec<Message>,
    lo: u64,
    hi: u64,
    keep: Mode,
) -> Result<Answer, Refused>
    ensures { Commanded (meaning client.old) (command.Lower lo hi keep) (Some (meaning client.new))
        sent.old.items sent.new.items result }
{
    if sent.reserve(MAX_OF_A_CLIENT).is_err() {
        return Err(refused_without_room(client.lower_refusal(lo, hi)));
    }
    let messages = client.lower(lo, hi, keep)?;
    send_to_server(sent, messages);
    Ok(Answer::Done)
}

/// The client answers a scan from its cache.
fn scan(client: &Client, lo: u64, hi: u64) -> Result<Answer, Refused>
    ensures { (old : List Message) → Commanded (meaning client.now) (command.Scan lo hi)
        (Some (meaning client.now)) old old result }
{
    match client.scan(lo, hi)? {
        ScanAnswer::Rows(rows) => Ok(Answer::Rows(rows)),
        ScanAnswer::Miss(point) => Ok(Answer::Miss(point)),
        ScanAnswer::Pending(key) => Ok(Answer::Pending(key)),
    }
}

/// The client pins a span.
fn pin(client: &mut Client, lo: u64, hi: u64) -> Result<Answer, Refused>
    ensures { (old : List Message) → Commanded (meaning client.old) (command.Pin lo hi)
        (Some (meaning client.new)) old old result }
{
    let id = client.pin(lo, hi)?;
    Ok(Answer::Pinned(id))
}

/// The client frees a pin.
fn unpin(client: &mut Client, id: u64) -> Result<Answer, Refused>
    ensures { (old : List Message) → Commanded (meaning client.old) (command.Unpin id)
        (Some (meaning client.new)) old old result }
{
    client.unpin(id)?;
    Ok(Answer::Done)
}

/// The client leaves.
fn leave(place: &mut ClientPlace, sent: &mut Vec<Message>) -> Result<Answer, Refused>
    ensures commanded { CommandedAt (client_there place.old.client) command.Leave
        (client_there place.new.client) sent.old.items sent.new.items result }
    ensures last_incarnation { place.new.last_incarnation ≡ place.old.last_incarnation }
{
    let Some(client) = place.client.take() else {
        return Err(Refused::Down);
    };
    if sent.reserve(MAX_OF_A_CLIENT).is_err() {
        place.client = Some(client);
        return Err(Refused::OutOfMemory);
    }
    match client.leave() {
        Ok(messages) => {
            send_to_server(sent, messages);
            Ok(Answer::Done)
        }
        Err(client) => {
            place.client = Some(client);
            Err(Refused::OutOfMemory)
        }
    }
}

/// The client at the place, if one runs, obeys the command.
pub fn obey(
    place: &mut ClientPlace,
    sent: &mut Vec<Message>,
    what: Command,
) -> Result<Answer, Refused>
    ensures commanded { CommandedAt (client_there place.old.client) what
        (client_there place.new.client) sent.old.items sent.new.items result }
    ensures last_incarnation { place.new.last_incarnation ≡ place.old.last_incarnation }
{
    let Some(client) = &mut place.client else {
        return Err(Refused::Down);
    };
    match what {
        Command::Lock { point, hi, mode } => lock(client, sent, point, hi, mode),
        Command::Write(op) => write(client, sent, op),
        Command::Seize(op) => seize(client, sent, op),
        Command::Scan { lo, hi } => scan(client, lo, hi),
        Command::Lower { lo, hi, keep } => lower(client, sent, lo, hi, keep),
        Command::Pin { lo, hi } => pin(client, lo, hi),
        Command::Unpin(id) => unpin(client, id),
        Command::Leave => leave(place, sent),
    }
}

/// The client sends again what is not answered.
pub fn tick(client: &Client, sent: &mut Vec<Message>) -> Result<(), AllocError>
    ensures ok { OnOk result (Ticked (meaning client.now) sent.old.items sent.new.items) }
    ensures err { OnErr result (sent.new.items ≡ sent.old.items) }
{
    sent.reserve(MAX_OF_A_CLIENT)?;
    let messages = client.tick()?;
    send_to_server(sent, messages);
    Ok(())
}

/// The client reads the message.
pub fn read(
    client: &mut Client,
    sent: &mut Vec<Message>,
    message: &ToClient,
) -> Result<(), AllocError>
    ensures ok { OnOk result (HasRead (meaning client.old) message.now (meaning client.new)
        sent.old.items sent.new.items) }
    ensures err { OnErr result ((client.new ≡ client.old) × (sent.new.items ≡ sent.old.items)) }
{
    sent.reserve(MAX_OF_A_CLIENT)?;
    let messages = client.step(message)?;
    send_to_server(sent, messages);
    Ok(())
}

/// The client reads a message that was sent.
pub fn read_sent(client: &mut Client, sent: &mut Vec<Message>, at: usize) -> Result<(), AllocError>
    requires { at < length sent.old.items }
    ensures ok { OnOk result
        ((m : ToClient) → slice_get sent.old.items at ≡ Some (sent_message.ToClient m)
        → HasRead (meaning client.old) m (meaning client.new) sent.old.items sent.new.items) }
    ensures err { OnErr result ((client.new ≡ client.old) × (sent.new.items ≡ sent.old.items)) }
{
    sent.reserve(MAX_OF_A_CLIENT)?;
    let Message::ToClient(message) = &sent[at] else {
        return Ok(());
    };
    let messages = client.step(message)?;
    send_to_server(sent, messages);
    Ok(())
}

/// A client of this number starts at its place, with the next incarnation.
pub fn start(
    alloc: Global,
    place: &mut ClientPlace,
    sent: &mut Vec<Message>,
    number: u64,
) -> Result<(), Refused>
    ensures ok { OnOk result
        (Started number (place_of place.old) (place_of place.new) sent.old.items sent.new.items) }
    ensures due { IfErr result
        (IsRefused (starting_refusal number (place_of place.old)) (Unit {0})) }
    ensures err { OnErr result ((place.new ≡ place.old) × (sent.new.items ≡ sent.old.items)) }
{
    if place.client.is_some() {
        return Err(Refused::Running);
    }
    let incarnation = place.last_incarnation.saturating_add(1);
    let (client, hello) = Client::start(alloc, number, incarnation)?;
    sent.push(Message::ToServer(hello))?;
    place.last_incarnation = incarnation;
    place.client = Some(client);
    Ok(())
}
