//! The lines that are printed.
ghost use Rattle.std.specs.Prelude.{◌≡◌, ◌++◌, IfOk, OnOk};
ghost use Rattle.std.specs.List.{flat_map};
ghost use Rattle.krl_text.specs.Printing.{value_text, row_text, refused_line, rows_line};
ghost use Rattle.krl_text.specs.Printing.{answer_lines, outcome_lines, beside_text};
ghost use Rattle.krl_text.specs.Printing.{compatible_line, join_line, modes_lines, fault_line};

use crate::fault::SyntaxFault;
use krl_messages::Value;
use krl_modes::Mode;
use krl_steps::{Answer, Refused};
use std::alloc::{AllocError, Global};

// The pairs of published modes whose joins are the conversion modes.
static CONVERSIONS: [(Mode, Mode); 5] = [
    (Mode::S, Mode::RangeIN),
    (Mode::U, Mode::RangeIN),
    (Mode::X, Mode::RangeIN),
    (Mode::RangeIN, Mode::RangeSS),
    (Mode::RangeIN, Mode::RangeSU),
];

/// The line of a refusal.
pub fn refused(alloc: Global, refused: Refused) -> Result<String, AllocError>
    ensures { IfOk result (λ line. line.bytes.items ≡ refused_line refused) }
{
    let name = refused.name();
    format!(in alloc; "refused {name}\n")
}

/// The text of a value: its number if it has eight bytes, otherwise x and two digits for each byte.
fn value(alloc: Global, value: &Value) -> Result<String, AllocError>
    ensures { IfOk result (λ text. text.bytes.items ≡ value_text value.now) }
{
    match value.as_u64() {
        Some(number) => format!(in alloc; "{number}"),
        None => {
            let digits = hex::encode(alloc, value.bytes())?;
            format!(in alloc; "x{digits}")
        }
    }
}

/// Puts each row at the end of a line.
pub fn push_rows(alloc: Global, line: &mut String, rows: &[(u64, Value)]) -> Result<(), AllocError>
    ensures { OnOk result
        (line.new.bytes.items ≡ line.old.bytes.items ++ flat_map row_text rows.now) }
{
    for (key, held) in rows {
        let text = value(alloc, held)?;
        write!(line, " {key}={text}")?;
    }
    Ok(())
}

/// The line of a scan's rows.
pub fn rows(alloc: Global, rows: &[(u64, Value)]) -> Result<String, AllocError>
    ensures { IfOk result (λ line. line.bytes.items ≡ rows_line rows.now) }
{
    let mut line = format!(in alloc; "rows")?;
    push_rows(alloc, &mut line, rows)?;
    line.push('\n')?;
    Ok(line)
}

/// The lines of an answer: one, or none.
pub fn answered(alloc: Global, answer: &Answer) -> Result<String, AllocError>
    ensures { IfOk result (λ lines. lines.bytes.items ≡ answer_lines answer.now) }
{
    match answer {
        Answer::Done => Ok(String::new(alloc)),
        Answer::Pinned(id) => format!(in alloc; "pin {id}\n"),
        Answer::Rows(list) => rows(alloc, list.as_slice()),
        Answer::Miss(point) => format!(in alloc; "miss {point}\n"),
        Answer::Pending(key) => format!(in alloc; "pending {key}\n"),
    }
}

/// The lines of a step of the world: one, or none.
pub fn outcome(alloc: Global, outcome: &Result<Answer, Refused>) -> Result<String, AllocError>
    ensures { IfOk result (λ lines. lines.bytes.items ≡ outcome_lines outcome.now) }
{
    match outcome {
        Ok(answer) => answered(alloc, answer),
        Err(reason) => refused(alloc, *reason),
    }
}

// The other mode's name, if the two are compatible.
fn push_beside(line: &mut String, mode: Mode, other: Mode) -> Result<(), AllocError>
    ensures { OnOk result (line.new.bytes.items ≡ line.old.bytes.items ++ beside_text mode other) }
{
    if mode.compatible(other) {
        write!(line, " {}", other.name())?;
    }
    Ok(())
}

fn push_all_beside(line: &mut String, mode: Mode, others: &[Mode]) -> Result<(), AllocError>
    ensures { OnOk result
        (line.new.bytes.items ≡ line.old.bytes.items ++ flat_map (beside_text mode) others.now) }
{
    for other in others {
        push_beside(line, mode, *other)?;
    }
    Ok(())
}

// The line of the published modes that are compatible with one.
fn push_compatible(lines: &mut String, mode: Mode) -> Result<(), AllocError>
    ensures { OnOk result (lines.new.bytes.items ≡ lines.old.bytes.items ++ compatible_line mode) }
{
    write!(lines, "compat {}:", mode.name())?;
    push_all_beside(lines, mode, &Mode::PUBLISHED)?;
    lines.push('\n')?;
    Ok(())
}

fn push_all_compatible(lines: &mut String, modes: &[Mode]) -> Result<(), AllocError>
    ensures { OnOk result
        (lines.new.bytes.items ≡ lines.old.bytes.items ++ flat_map compatible_line modes.now) }
{
    for mode in modes {
        push_compatible(lines, *mode)?;
    }
    Ok(())
}

// The line of a join of two published modes.
fn push_join(lines: &mut String, first: Mode, second: Mode) -> Result<(), AllocError>
    ensures { OnOk result
        (lines.new.bytes.items ≡ lines.old.bytes.items ++ join_line (first, second)) }
{
    let join = first.join(second);
    write!(
        lines,
        "join {} {} = {}\n",
        first.name(),
        second.name(),
        join.name()
    )
}

fn push_all_joins(lines: &mut String, pairs: &[(Mode, Mode)]) -> Result<(), AllocError>
    ensures { OnOk result
        (lines.new.bytes.items ≡ lines.old.bytes.items ++ flat_map join_line pairs.now) }
{
    for (first, second) in pairs {
        push_join(lines, *first, *second)?;
    }
    Ok(())
}

/// The tables of modes: which published modes are compatible, and the joins that give the
/// conversion modes.
#[tactic(auto, unfolding(crate::specs::Printing::modes_lines))]
pub fn modes(alloc: Global) -> Result<String, AllocError>
    ensures { IfOk result (λ lines. lines.bytes.items ≡ modes_lines) }
{
    let mut lines = String::new(alloc);
    push_all_compatible(&mut lines, &Mode::PUBLISHED)?;
    push_all_joins(&mut lines, &CONVERSIONS)?;
    Ok(lines)
}

/// Only the text.
pub fn text(alloc: Global, text: &str) -> Result<String, AllocError>
    ensures { IfOk result (λ line. line.bytes.items ≡ text.now) }
{
    format!(in alloc; "{text}")
}

/// The line of a fault in the line of this number.
pub fn faulted(alloc: Global, number: u64, what: SyntaxFault) -> Result<String, AllocError>
    ensures { IfOk result (λ line. line.bytes.items ≡ fault_line number what) }
{
    let text = what.text();
    format!(in alloc; "fault line {number}: {text}\n")
}
