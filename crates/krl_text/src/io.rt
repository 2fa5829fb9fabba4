//! A text is read whole, and lines are written whole, unless the reader or the writer fails.
ghost use Rattle.std.specs.Prelude.{◌≡◌, ℕ, ◌≤◌, List, [], ◌++◌, length, Some, IfOk, OnOk, IfErr};
ghost use Rattle.std.specs.Prelude.{IsOk, IsErrOf};
ghost use Rattle.std.specs.Io.KnownBytes.{Appends, Consumes};
ghost use Rattle.krl_text.specs.Limits.{max_turns};
ghost use Rattle.krl_text.specs.Transfers.{Counts, ReadsWhole, ComesOfReading, MayEndReading};
ghost use Rattle.krl_text.specs.Transfers.{IsSteady};

use crate::fault::ScriptFault;
use crate::limits::{MAX_TEXT, MAX_TURNS};
use crate::source::{Sink, Source};
use std::alloc::Global;
use std::io::ErrorKind;

/// Reads to the end, or until the text is too long. A read that is interrupted is tried again.
pub fn read_text<R: Source>(alloc: Global, reader: &mut R) -> Result<Vec<u8>, ScriptFault>
    ensures ok { IfOk result (λ text.
        ReadsWhole (R.remaining reader.old) (R.remaining reader.new) text.items) }
    ensures err { IfErr result (λ e. ComesOfReading e
        × (taken : List ℕ) × Consumes (R.remaining reader.old) (R.remaining reader.new) taken) }
    ensures steady { (n : ℕ) → R.interruptions reader.old ≡ Some n →
        IfErr result (MayEndReading n) }
    ensures turns { IsErrOf result ScriptFault.NoEnd →
        Counts (R.reads reader.old) (R.reads reader.new) max_turns }
{
    let mut text = Vec::new(alloc);
    let mut buffer = [0u8; 4096];
    for _ in 0..MAX_TURNS {
        match reader.read_some(&mut buffer) {
            Ok(n) => {
                text.extend_from_slice(&buffer[..n])?;
                if n == 0 || text.len() > MAX_TEXT {
                    return Ok(text);
                }
            }
            Err(error) => {
                if error.kind() != ErrorKind::Interrupted {
                    return Err(ScriptFault::Read(error));
                }
            }
        }
    }
    Err(ScriptFault::NoEnd)
}

/// Writes the bytes, or a front of them if the writer fails. A write that is interrupted is
/// tried again, up to `MAX_TURNS` times.
pub fn write_line<W: Sink>(writer: &mut W, bytes: &[u8]) -> Result<(), ScriptFault>
    ensures ok { OnOk result (Appends (W.contents writer.old) (W.contents writer.new) bytes.now) }
    ensures err { IfErr result (λ e. (e ≡ ScriptFault.Write)
        × (front : List ℕ) × (back : List ℕ) × (front ++ back ≡ bytes.now)
        × Appends (W.contents writer.old) (W.contents writer.new) front) }
    ensures steady { IsSteady (W.interruptions writer.old) →
        IsOk result × IsSteady (W.interruptions writer.new) }
{
    let mut at = 0;
    let mut interrupted = 0;
    while at < bytes.len() {
        match writer.write_some(&bytes[at..]) {
            Ok(n) => {
                if n == 0 {
                    return Err(ScriptFault::Write);
                }
                at += n;
            }
            Err(failure) => {
                if failure.kind() != ErrorKind::Interrupted {
                    return Err(ScriptFault::Write);
                }
                if interrupted == MAX_TURNS {
                    return Err(ScriptFault::Write);
                }
                interrupted += 1;
            }
        }
    }
    Ok(())
}
