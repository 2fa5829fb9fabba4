//! A whole script.
ghost use Rattle.std.specs.Prelude.{◌≡◌, ℕ, ◌≤◌, length, Some, IfErr, IsErrOf, OnOk};
ghost use Rattle.std.specs.Str.Lines.{lines};
ghost use Rattle.krl_text.specs.Limits.{max_text, max_turns, max_interruptions};
ghost use Rattle.krl_script.specs.Transcripts.{first_stage, Prints};
ghost use Rattle.krl_script.specs.Fields.{meaning};
ghost use Rattle.krl_script.specs.Runs.{Wrote, EndsInFault, RunsLine, Ran};
ghost use Rattle.krl_text.specs.Transfers.{Counts, MayEndReading, IsSteady};

use crate::interpreter::Interpreter;
use krl_text::{
    LineFault, MAX_TEXT, ScriptFault, Sink, Source, SyntaxFault, first_line, print, read_text,
    write_line,
};
use std::alloc::Global;

// Writes the line of a fault, which ends the script.
fn end_in_fault<W: Sink>(
    alloc: Global,
    writer: &mut W,
    line: u64,
    what: SyntaxFault,
) -> Result<(), ScriptFault>
    ensures ends { EndsInFault (W.contents writer.old) (W.contents writer.new) line what result }
    ensures steady { IsSteady (W.interruptions writer.old) →
        ¬ IsErrOf result ScriptFault.Write }
{
    let text = print::faulted(alloc, line, what)?;
    write_line(writer, text.as_bytes())?;
    Err(ScriptFault::Syntax { line, what })
}

// Obeys a line, and writes what it prints.
fn run_line<W: Sink>(
    alloc: Global,
    interpreter: &mut Interpreter,
    writer: &mut W,
    number: u64,
    line: &[u8],
) -> Result<(), ScriptFault>
    ensures runs { RunsLine (W.contents writer.old) (W.contents writer.new)
        (meaning interpreter.old) number line.now result (meaning interpreter.new) }
    ensures steady { IsSteady (W.interruptions writer.old) →
        (¬ IsErrOf result ScriptFault.Write)
        × OnOk result (IsSteady (W.interruptions writer.new)) }
{
    match interpreter.obey_line(number, line) {
        Ok(printed) => write_line(writer, printed.as_bytes()),
        Err(LineFault::Syntax(what)) => end_in_fault(alloc, writer, number, what),
        Err(LineFault::OutOfMemory) => Err(ScriptFault::OutOfMemory),
    }
}

// Obeys the lines of a text, one after another.
fn obey_lines<W: Sink>(
    alloc: Global,
    interpreter: &mut Interpreter,
    text: &[u8],
    writer: &mut W,
) -> Result<(), ScriptFault>
    requires { length text.now ≤ max_text }
    ensures wrote { Wrote (W.contents writer.old) (W.contents writer.new)
        (Prints (meaning interpreter.old) 1 (lines text.now)) result }
    ensures steady { IsSteady (W.interruptions writer.old) →
        ¬ IsErrOf result ScriptFault.Write }
{
    let mut rest = text;
    let mut number = 1u64;
    'lines: while !rest.is_empty() {
        let (line, after) = first_line(rest);
        run_line(alloc, interpreter, writer, number, line)?;
        rest = after;
        number += 1;
    }
    Ok(())
}

fn run_lines<W: Sink>(alloc: Global, text: &[u8], writer: &mut W) -> Result<(), ScriptFault>
    requires { length text.now ≤ max_text }
    ensures wrote { Wrote (W.contents writer.old) (W.contents writer.new)
        (Prints first_stage 1 (lines text.now)) result }
    ensures steady { IsSteady (W.interruptions writer.old) →
        ¬ IsErrOf result ScriptFault.Write }
{
    let mut interpreter = Interpreter::new(alloc)?;
    obey_lines(alloc, &mut interpreter, text, writer)
}

/// Reads a script to its end, and then runs it line by line. What a line prints is written before
/// the next line is run. What is written is exactly a transcript of what was read, or the front of
/// one if the writer fails or memory runs out. A read or a write that is interrupted is tried
/// again.
///
/// # Errors
///
/// `Read` if a read fails, and `NoEnd` if 2,097,152 reads gave no end: nothing is written
/// then. `Write` if the writer fails, takes nothing, or is interrupted more than 2,097,152 times
/// in one line. `Syntax` for the first fault of the text, which the transcript's last line reports
/// too. `OutOfMemory` at any point.
pub fn run_script<R: Source, W: Sink>(
    alloc: Global,
    reader: &mut R,
    writer: &mut W,
) -> Result<(), ScriptFault>
    ensures ran { Ran (R.remaining reader.old) (R.remaining reader.new)
        (W.contents writer.old) (W.contents writer.new) result }
    // A reader that is at most interrupted is read, unless that takes too many reads; and a writer
    // that is at most interrupted is written, unless that takes too many writes.
    ensures read { (n : ℕ) → R.interruptions reader.old ≡ Some n → IfErr result (MayEndReading n) }
    ensures turns { IsErrOf result ScriptFault.NoEnd →
        Counts (R.reads reader.old) (R.reads reader.new) max_turns }
    ensures written { (n : ℕ) → W.interruptions writer.old ≡ Some n → n ≤ max_interruptions →
        ¬ IsErrOf result ScriptFault.Write }
{
    let text = read_text(alloc, reader)?;
    if text.len() > MAX_TEXT {
        end_in_fault(alloc, writer, 0, SyntaxFault::TextTooLong)
    } else {
        run_lines(alloc, &text, writer)
    }
}
