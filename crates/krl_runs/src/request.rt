//! A request.
ghost use Rattle.krl_runs.specs.Requests.{Obeyed};

use crate::random::random;
use crate::script::{draw, run};
use krl_command_line::{NO_RUN, Request};
use krl_text::Sink;

/// Does what was asked for with this text, which only a script takes, and returns the exit status.
/// Reports go to standard error: why a run ended early, and how far a random run is, if the request
/// or `is_told` asks for that. Nodes need threads: nothing is done for them, and the status is
/// `NO_RUN`.
pub fn obey<H: Eprint + AllocGlobal, W: Sink>(
    rt: &H,
    request: Request,
    text: &[u8],
    is_told: bool,
    writer: &mut W,
) -> u8
    ensures { Obeyed request text.now (W.contents writer.old) (W.contents writer.new) result }
{
    match request {
        Request::Script => run(rt, text, writer),
        Request::Picture(form) => draw(rt, text, form, writer),
        Request::Random(Some(options)) => random(rt, &options, is_told, writer),
        Request::Random(None) | Request::Nodes(_) => NO_RUN,
    }
}
