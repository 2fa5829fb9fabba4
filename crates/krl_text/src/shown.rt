//! The lines that report what was read of a world.
ghost use Rattle.std.specs.Prelude.{◌≡◌, ◌++◌, codes, IfOk, OnOk};
ghost use Rattle.std.specs.List.{flat_map};
ghost use Rattle.krl_blocks.specs.Laid.{flat};
ghost use Rattle.krl_blocks.specs.Runs.{runs_of};
ghost use Rattle.krl_text.specs.Printing.{line_of, row_text, hold_line, lock_text, outcome_name};
ghost use Rattle.krl_text.specs.Printing.{write_text, status_text, number_text, list_line};
ghost use Rattle.krl_text.specs.Printing.{applied_text, writes_line};

use crate::print::{push_rows, refused};
use krl_blocks::Entries;
use krl_client::{LockStatus, Status, WriteStatus};
use krl_messages::{Outcome, Value};
use krl_modes::{END, KeyPart, MAX_CLIENTS, RangePart};
use krl_steps::{AppliedWrite, Refused};
use std::alloc::{AllocError, Global};

/// The line of what a client holds at a point: its range part and its key part there. A client
/// above 63 is refused, and then a point above END.
pub fn held(
    alloc: Global,
    client: u64,
    point: u64,
    range: RangePart,
    key: KeyPart,
) -> Result<String, AllocError>
    ensures { IfOk result (λ line. line.bytes.items ≡ hold_line client point range key) }
{
    if client >= MAX_CLIENTS as u64 {
        return refused(alloc, Refused::BadClient);
    }
    if point > END {
        return refused(alloc, Refused::BadPoint);
    }
    format!(in alloc; "hold {} {}\n", range.name(), key.name())
}

// The word for what became of a lock request.
fn lock_word(lock: LockStatus) -> &'static str
    ensures { result.now ≡ lock_text lock }
{
    match lock {
        LockStatus::NotAsked => "none",
        LockStatus::Waiting => "waiting",
        LockStatus::Granted => "granted",
        LockStatus::Absent => "absent",
        LockStatus::Dropped => "dropped",
    }
}

fn outcome_word(outcome: Outcome) -> &'static str
    ensures { result.now ≡ outcome_name outcome }
{
    match outcome {
        Outcome::Applied => "Applied",
        Outcome::Exists => "Exists",
        Outcome::Absent => "Absent",
        Outcome::NotHeld => "NotHeld",
        Outcome::Full => "Full",
    }
}

// What became of a write, after its number.
fn push_write(line: &mut String, write: WriteStatus) -> Result<(), AllocError>
    ensures { OnOk result (line.new.bytes.items ≡ line.old.bytes.items ++ write_text write) }
{
    match write {
        WriteStatus::NotWritten => line.push_str("none"),
        WriteStatus::Waiting(number) => write!(line, "{number} waiting"),
        WriteStatus::Judged(number, outcome) => write!(line, "{number} {}", outcome_word(outcome)),
    }
}

/// The line of a client that runs.
pub fn running(alloc: Global, status: Status) -> Result<String, AllocError>
    ensures { IfOk result (λ line. line.bytes.items ≡ line_of (status_text status)) }
{
    let lock = lock_word(status.lock);
    let mut line = format!(in alloc; "status {} {} {lock} ", status.epoch, status.seen)?;
    push_write(&mut line, status.write)?;
    line.push('\n')?;
    Ok(line)
}

fn push_numbers(line: &mut String, numbers: &[u64]) -> Result<(), AllocError>
    ensures { OnOk result
        (line.new.bytes.items ≡ line.old.bytes.items ++ flat_map number_text numbers.now) }
{
    for number in numbers {
        write!(line, " {number}")?;
    }
    Ok(())
}

/// The line of the clients that have not reported to the server.
pub fn unreported(alloc: Global, clients: &[u64]) -> Result<String, AllocError>
    ensures { IfOk result (λ line. line.bytes.items ≡ list_line clients.now) }
{
    let mut line = format!(in alloc; "missing")?;
    push_numbers(&mut line, clients)?;
    line.push('\n')?;
    Ok(line)
}

// Puts each entry at the end of a line.
fn push_entries(
    alloc: Global,
    line: &mut String,
    entries: &Entries<'_, Value>,
) -> Result<(), AllocError>
    ensures { OnOk result (line.new.bytes.items
        ≡ line.old.bytes.items ++ flat_map row_text (flat (runs_of entries.now))) }
{
    for i in 0..entries.len() {
        push_rows(alloc, line, entries.get(i))?;
    }
    Ok(())
}

/// The line of the index.
pub fn index(alloc: Global, entries: &Entries<'_, Value>) -> Result<String, AllocError>
    ensures { IfOk result (λ line.
        line.bytes.items ≡ line_of (codes "index"
        ++ flat_map row_text (flat (runs_of entries.now)))) }
{
    let mut line = format!(in alloc; "index")?;
    push_entries(alloc, &mut line, entries)?;
    line.push('\n')?;
    Ok(line)
}

fn push_writes(line: &mut String, writes: &[AppliedWrite]) -> Result<(), AllocError>
    ensures { OnOk result
        (line.new.bytes.items ≡ line.old.bytes.items ++ flat_map applied_text writes.now) }
{
    for write in writes {
        write!(
            line,
            " {}.{}.{}",
            write.client, write.incarnation, write.number
        )?;
    }
    Ok(())
}

/// The line of the applied writes.
pub fn writes(alloc: Global, writes: &[AppliedWrite]) -> Result<String, AllocError>
    ensures { IfOk result (λ line. line.bytes.items ≡ writes_line writes.now) }
{
    let mut line = format!(in alloc; "writes")?;
    push_writes(&mut line, writes)?;
    line.push('\n')?;
    Ok(line)
}
