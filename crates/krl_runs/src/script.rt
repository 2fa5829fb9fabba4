//! Scripts.
ghost use Rattle.std.specs.Prelude.{◌≡◌, IfErr};
ghost use Rattle.krl_runs.specs.Statuses.{RanTo, RanText};

use crate::status;
use krl_command_line::{Form, say_of_script};
use krl_picture::{write_drawing, write_picture};
use krl_script::run_script;
use krl_text::{ScriptFault, Sink, Source, read_text};

// Reports on standard error why a script was not run to its end.
fn report<H: Eprint>(rt: &H, ended: &Result<(), ScriptFault>, text: &[u8]) {
    if let Err(fault) = ended {
        say_of_script(rt, *fault, text);
    }
}

/// Reports on standard error why the text of a script can't be read, and returns the exit status.
pub fn refuse_text<H: Eprint>(rt: &H, fault: ScriptFault) -> u8
    ensures { result ≡ 1 }
{
    let ended = Err(fault);
    report(rt, &ended, &[]);
    status::of_script(&ended)
}

/// Reads the text of a script.
///
/// # Errors
///
/// The exit status, if the text can't be read: why is reported on standard error.
pub fn text_of<H: Eprint + AllocGlobal, R: Source>(rt: &H, reader: &mut R) -> Result<Vec<u8>, u8>
    ensures { IfErr result (λ status. status ≡ 1) }
{
    match read_text(rt.alloc(), reader) {
        Ok(text) => Ok(text),
        Err(fault) => Err(refuse_text(rt, fault)),
    }
}

// Runs the script that is read, writes its transcript, and reports on standard error why it ended
// before its last line; the text of the script serves only that sentence.
fn run_over<H: Eprint + AllocGlobal, R: Source, W: Sink>(
    rt: &H,
    text: &[u8],
    reader: &mut R,
    writer: &mut W,
) -> u8
    ensures { RanTo (R.remaining reader.old) (R.remaining reader.new)
        (W.contents writer.old) (W.contents writer.new) result }
{
    let ended = run_script(rt.alloc(), reader, writer);
    report(rt, &ended, text);
    status::of_script(&ended)
}

// Runs the script of this text, and writes its transcript.
pub(crate) fn run<H: Eprint + AllocGlobal, W: Sink>(rt: &H, text: &[u8], writer: &mut W) -> u8
    ensures { RanText text.now (W.contents writer.old) (W.contents writer.new) result }
{
    let mut unread = text;
    run_over(rt, text, &mut unread, writer)
}

// Writes a picture of this script's run.
pub(crate) fn draw<H: Eprint + AllocGlobal, W: Sink>(
    rt: &H,
    text: &[u8],
    form: Form,
    writer: &mut W,
) -> u8 {
    let mut unread = text;
    let ended = match form {
        Form::Text => write_picture(rt.alloc(), &mut unread, writer),
        Form::Svg => write_drawing(rt.alloc(), &mut unread, writer),
    };
    report(rt, &ended, text);
    status::of_script(&ended)
}
