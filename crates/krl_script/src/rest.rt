//! Good rounds after a run, until nobody waits.
ghost use Rattle.std.specs.Prelude.{◌≡◌, ◌++◌, ◌∷◌, [], ◌-◌, ℕ, true, length, is_none};
ghost use Rattle.std.specs.Prelude.{IfOk, OnOk, OnErr, IsErrOf, Err};
ghost use Rattle.krl_steps.specs.declared.refused.Refused.TheVariants.{OutOfMemory};
ghost use Rattle.std.specs.List.{flat_map};
ghost use Rattle.krl_world.specs.States.{client_of};
ghost use Rattle.krl_world.specs.Fields.{meaning};
ghost use Rattle.krl_world.specs.Promises.{IsCompatible};
ghost use Rattle.krl_world.specs.Steps.{IsReachable, Steps};
ghost use Rattle.krl_text.specs.Transfers.{IsSteady};
ghost use Rattle.krl_script.specs.RandomRuns.{WroteLineOf};
ghost use Rattle.krl_script.specs.Rests.{is_of_round, GoesByRounds, IsWhole};
ghost use Rattle.krl_script.specs.Rests.{awaited_by, awaited_of, is_nothing, nobody_waits};
ghost use Rattle.krl_script.specs.Rests.{awaited_text, waiter_text, rest_line};
ghost use Rattle.krl_script.specs.Rests.{EndsAs, WroteRest};
ghost use Rattle.krl_script.specs.Rests.{had_memory, Leads, starts_below, ticks_below};
ghost use Rattle.krl_script.specs.Rests.{deliveries, IsRound, GoesRound, rounds_of};
ghost use Rattle.krl_script.specs.Rests.{StartsAndGoesRound};
ghost use Rattle.krl_script.specs.Soundness.{first_unsound, numbers_below};

use crate::soundness::least_unsound;
use krl_client::{LockStatus, WriteStatus};
use krl_text::{ScriptFault, Sink, write_line};
use krl_world::{Answer, Refused, Step, World};
use std::alloc::{AllocError, Global};

// How many clients a random run has.
const CLIENTS: u64 = 4;

// Their numbers.
const NUMBERS: [u64; 4] = [0, 1, 2, 3];

// They are looked at at the points below this one.
const POINTS: u64 = 64;

// A write is answered within so many good rounds, and a recovery over before them:
// `writes_outlast_recoveries` of krl_progress.
const WRITE_ROUNDS: u64 = 11;

// Within so many more, in which nobody asks for anything, each lock request is answered:
// `locks_are_answered` of krl_progress.
const LOCK_ROUNDS: u64 = 1161;

// The most rounds: the line of `missed` names this number, 1172.
const MAX_ROUNDS: u64 = WRITE_ROUNDS + LOCK_ROUNDS;

/// How good rounds ended.
#[derive(Clone, Copy, PartialEq, Eq)]
pub enum Rest {
    /// Nobody waits, after so many rounds.
    Reached(u64),
    /// Somebody still waits after the last round.
    Missed,
    /// After so many rounds what the clients held did not go together.
    Unsound(u64),
}

/// What a client waits for.
#[derive(Clone, Copy)]
enum Awaited {
    Nothing,
    Lock,
    Write,
    Both,
}

// What is not answered yet.
fn awaited_by(lock: LockStatus, write: WriteStatus) -> Awaited
    ensures { result ≡ awaited_by lock write }
{
    match (lock, write) {
        (LockStatus::Waiting, WriteStatus::Waiting(_)) => Awaited::Both,
        (LockStatus::Waiting, _) => Awaited::Lock,
        (_, WriteStatus::Waiting(_)) => Awaited::Write,
        (_, _) => Awaited::Nothing,
    }
}

// What the client waits for: nothing if it does not run.
fn waits_for(world: &World, client: u64) -> Awaited
    ensures { result ≡ awaited_of (client_of (meaning world.now) client) }
{
    match world.client(client) {
        None => Awaited::Nothing,
        Some(client) => {
            let status = client.status();
            awaited_by(status.lock, status.write)
        }
    }
}

// Whether the client waits for nothing.
fn is_idle(world: &World, client: u64) -> bool
    ensures { result ≡ is_nothing (awaited_of (client_of (meaning world.now) client)) }
{
    match waits_for(world, client) {
        Awaited::Nothing => true,
        _ => false,
    }
}

// Whether no client waits.
fn nobody_waits(world: &World) -> bool
    ensures { result ≡ nobody_waits (meaning world.now) }
{
    'clients: for client in 0..CLIENTS {
        if !is_idle(world, client) {
            return false;
        }
    }
    true
}

// Whether what the clients hold goes together.
fn is_sound(world: &World) -> bool
    ensures sound { IsCompatible (meaning world.now) → result ≡ true }
    ensures looks { result ≡ is_none (first_unsound (meaning world.now) 4 (numbers_below 64)) }
{
    least_unsound(world, CLIENTS, POINTS).is_none()
}

// Whether the step was not refused for want of memory.
fn had_memory(outcome: &Result<Answer, Refused>) -> bool
    ensures { result ≡ had_memory outcome.now }
{
    match outcome {
        Err(Refused::OutOfMemory) => false,
        _ => true,
    }
}

// Takes a step. One that is refused, except for want of memory, has nothing to do: only want of
// memory is an error.
fn take(world: &mut World, step: Step) -> Result<(), AllocError>
    ensures goes { is_of_round step ≡ true → GoesByRounds (meaning world.old) (meaning world.new) }
    ensures whole { IsWhole (meaning world.new) }
    ensures leads { OnOk result (Leads (meaning world.old) (step ∷ []) (meaning world.new)) }
    ensures lacked { OnErr result
        (Steps (meaning world.old) step (Err OutOfMemory) (meaning world.new)) }
{
    let outcome = world.step(step);
    if had_memory(&outcome) {
        Ok(())
    } else {
        Err(AllocError)
    }
}

// Starts whatever does not run: what a client held that is gone stays held until it starts again.
fn start_all(world: &mut World) -> Result<(), AllocError>
    ensures goes { GoesByRounds (meaning world.old) (meaning world.new) }
    ensures whole { IsWhole (meaning world.new) }
    ensures leads { OnOk result (Leads (meaning world.old) (starts_below 4) (meaning world.new)) }
{
    take(world, Step::StartServer)?;
    'clients: for client in 0..CLIENTS {
        take(world, Step::StartClient(client))?;
    }
    Ok(())
}

// Each client ticks.
fn tick_all(world: &mut World) -> Result<(), AllocError>
    ensures goes { GoesByRounds (meaning world.old) (meaning world.new) }
    ensures whole { IsWhole (meaning world.old) → IsWhole (meaning world.new) }
    ensures leads { OnOk result (Leads (meaning world.old) (ticks_below 4) (meaning world.new)) }
{
    'clients: for client in 0..CLIENTS {
        take(world, Step::Tick(client))?;
    }
    Ok(())
}

// Delivers the messages after the first `past`, up to the one of number `last`.
fn deliver_all(world: &mut World, past: u64, last: u64) -> Result<(), AllocError>
    ensures goes { GoesByRounds (meaning world.old) (meaning world.new) }
    ensures whole { IsWhole (meaning world.old) → IsWhole (meaning world.new) }
    ensures leads { OnOk result
        (Leads (meaning world.old) (deliveries past (last - past)) (meaning world.new)) }
{
    'messages: for before in past..last {
        take(world, Step::Deliver(before + 1))?;
    }
    Ok(())
}

// A good round: each client ticks, and what was sent in the round before is delivered. Gives how
// many messages were sent before it.
fn go_round(world: &mut World, past: u64) -> Result<u64, AllocError>
    ensures goes { GoesByRounds (meaning world.old) (meaning world.new) }
    ensures whole { IsWhole (meaning world.old) → IsWhole (meaning world.new) }
    ensures sent { IfOk result (λ last. last ≡ length (meaning world.old).sent) }
    ensures round { OnOk result (IsRound past (meaning world.old) (meaning world.new)) }
{
    let last = world.sent();
    tick_all(world)?;
    deliver_all(world, past, last)?;
    Ok(last)
}

// Goes round until nobody waits. Messages after the first `past` are those of the round before.
fn go_rounds(world: &mut World, past: u64) -> Result<Rest, AllocError>
    ensures goes { GoesByRounds (meaning world.old) (meaning world.new) }
    ensures whole { IsWhole (meaning world.old) → IsWhole (meaning world.new) }
    ensures ended { IsWhole (meaning world.old)
        → IfOk result (λ rest. EndsAs (meaning world.new) rest) }
    ensures rounds { IfOk result
        (λ rest. GoesRound past (meaning world.old) (meaning world.new) rest) }
{
    let mut past = past;
    'rounds: for rounds in 0..MAX_ROUNDS {
        if !is_sound(world) {
            return Ok(Rest::Unsound(rounds));
        }
        if nobody_waits(world) {
            return Ok(Rest::Reached(rounds));
        }
        past = go_round(world, past)?;
    }
    Ok(last_of(world))
}

// How the last round ended.
fn last_of(world: &World) -> Rest
    ensures ended { IsWhole (meaning world.now) → EndsAs (meaning world.now) result }
    ensures last { rounds_of result ≡ 1172 }
{
    if !is_sound(world) {
        return Rest::Unsound(MAX_ROUNDS);
    }
    if nobody_waits(world) {
        return Rest::Reached(MAX_ROUNDS);
    }
    Rest::Missed
}

// Starts whatever does not run, and goes round until nobody waits.
fn brought_to_rest(world: &mut World) -> Result<Rest, AllocError>
    ensures goes { GoesByRounds (meaning world.old) (meaning world.new) }
    ensures whole { IsWhole (meaning world.new) }
    ensures ended { IfOk result (λ rest. EndsAs (meaning world.new) rest) }
    ensures rounds { IfOk result
        (λ rest. StartsAndGoesRound (meaning world.old) (meaning world.new) rest) }
{
    let past = world.sent();
    start_all(world)?;
    go_rounds(world, past)
}

// Puts what the client waits for at the end of a line.
fn push_awaited(line: &mut String, client: u64, awaited: Awaited) -> Result<(), AllocError>
    ensures { OnOk result
        (line.new.bytes.items ≡ line.old.bytes.items ++ awaited_text client awaited) }
{
    match awaited {
        Awaited::Nothing => Ok(()),
        Awaited::Lock => write!(line, "; client {client} waits for its lock"),
        Awaited::Write => write!(line, "; client {client} waits for its write"),
        Awaited::Both => write!(line, "; client {client} waits for its lock and its write"),
    }
}

// Puts what each of these clients waits for at the end of a line.
fn push_waiters(line: &mut String, world: &World, clients: &[u64]) -> Result<(), AllocError>
    ensures { OnOk result (line.new.bytes.items
        ≡ line.old.bytes.items ++ flat_map (waiter_text (meaning world.now)) clients.now) }
{
    for client in clients {
        push_awaited(line, *client, waits_for(world, *client))?;
    }
    Ok(())
}

// The line of a run in which somebody still waits.
fn missed(alloc: Global, world: &World) -> Result<String, AllocError>
    ensures { IfOk result (λ line. line.bytes.items ≡ rest_line (meaning world.now) Rest.Missed) }
{
    let mut line = format!(in alloc; "no rest after 1172 rounds")?;
    push_waiters(&mut line, world, &NUMBERS)?;
    line.push('\n')?;
    Ok(line)
}

// The line of how good rounds ended.
fn verdict(alloc: Global, world: &World, rest: Rest) -> Result<String, AllocError>
    ensures { IfOk result (λ line. line.bytes.items ≡ rest_line (meaning world.now) rest) }
{
    match rest {
        Rest::Reached(rounds) => format!(in alloc; "rest after {rounds} rounds\n"),
        Rest::Missed => missed(alloc, world),
        Rest::Unsound(rounds) => format!(in alloc; "unsound after {rounds} rounds\n"),
    }
}

// Writes that line.
fn write_verdict<W: Sink>(
    alloc: Global,
    writer: &mut W,
    world: &World,
    rest: Rest,
) -> Result<(), ScriptFault>
    ensures wrote { WroteLineOf (W.contents writer.old) (W.contents writer.new)
        (rest_line (meaning world.now) rest) result }
    ensures steady { IsSteady (W.interruptions writer.old) →
        ¬ IsErrOf result ScriptFault.Write }
{
    let line = verdict(alloc, world, rest)?;
    write_line(writer, line.as_bytes())
}

/// Brings a world to rest by good rounds, and writes a line that reports how that ended. It first
/// starts the server and each of the clients 0 to 3, if they do not run. In a good round each
/// client ticks, and each message that was sent in the round before is delivered; nobody asks for
/// more, crashes or leaves. The rounds end once nobody waits for a lock or a write, or after 1172.
/// Before each, and at the end, it looks at every two clients and every point from 0 to 63.
///
/// A client that waits for a pin to be freed continues to wait: pins stay.
///
/// # Errors
///
/// `Write` if the writer fails; `OutOfMemory` if a step, or the line, finds no memory:
/// nothing is written then.
pub fn bring_to_rest<W: Sink>(
    alloc: Global,
    writer: &mut W,
    world: &mut World,
) -> Result<Rest, ScriptFault>
    ensures goes { GoesByRounds (meaning world.old) (meaning world.new) }
    ensures reachable { IsReachable (meaning world.new) }
    ensures ended { IfOk result (λ rest. EndsAs (meaning world.new) rest) }
    ensures rounds { IfOk result
        (λ rest. StartsAndGoesRound (meaning world.old) (meaning world.new) rest) }
    ensures wrote { WroteRest (W.contents writer.old) (W.contents writer.new)
        (meaning world.new) result }
    ensures steady { IsSteady (W.interruptions writer.old) →
        ¬ IsErrOf result ScriptFault.Write }
{
    let rest = brought_to_rest(world)?;
    write_verdict(alloc, writer, world, rest)?;
    Ok(rest)
}
