//! What is done for the words.
ghost use Rattle.krl_runs.specs.Requests.{Obeyed};
ghost use Rattle.krl_simulator.specs.Answers.{Answered};

use crate::words::asked;
use krl_command_line::Request;
use krl_runs::{obey, refuse_text};
use krl_text::{ScriptFault, Sink};
use std::io;

// Does what was asked for. Nodes are reported as not there.
fn obey_here<H: Eprint + AllocGlobal, W: Sink>(
    rt: &H,
    request: Request,
    text: &[u8],
    writer: &mut W,
) -> u8
    ensures { Obeyed request text.now (W.contents writer.old) (W.contents writer.new) result }
{
    if let Request::Nodes(_) = request {
        let _ = eprintln!(rt; "krl: nodes need the program that './krl --prove' builds");
    }
    obey(rt, request, text, false, writer)
}

/// Does what these words ask for with this text, unless the text can't be read, by this number of
/// an error of the system; 0 is none.
pub(crate) fn answer<H: Eprint + AllocGlobal, W: Sink>(
    rt: &H,
    words: &[u8],
    text: &[u8],
    failure: i32,
    writer: &mut W,
) -> u8
    ensures { Answered text.now (W.contents writer.old) (W.contents writer.new) result }
{
    match asked(rt, words) {
        Ok(request) if failure == 0 => obey_here(rt, request, text, writer),
        Ok(_) => {
            let error = io::Error::from_raw_os_error(failure);
            refuse_text(rt, ScriptFault::Read(error))
        }
        Err(status) => status,
    }
}
