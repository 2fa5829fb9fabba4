//! Random runs.
ghost use Rattle.std.specs.Prelude.{◌≡◌, None, true, IfOk};
ghost use Rattle.krl_script.specs.RandomRuns.{random_line, WroteLineOf};
ghost use Rattle.krl_runs.specs.Statuses.{DroveTo, CameToRest, DroveBy};
ghost use Rattle.krl_runs.specs.Statuses.{random_status, rest_status};

use crate::progress::Told;
use crate::status;
use krl_command_line::{RandomOptions, say_of_run};
use krl_script::{Progress, Rest, bring_to_rest, busy_run, random_run};
use krl_text::{ScriptFault, Sink};
use krl_world::World;
use std::alloc::Global;

// The exit status of a random run. If its line can't be written, that is reported on standard
// error.
fn status_of<H: Eprint + AllocGlobal, T>(rt: &H, ended: &Result<(T, bool), ScriptFault>) -> u8
    ensures { result ≡ random_status ended.now }
{
    if let Err(fault) = ended {
        say_of_run(rt, *fault);
    }
    status::of_random(ended)
}

// The exit status of the rounds after it. If their line can't be written, that is reported too.
fn status_of_rest<H: Eprint + AllocGlobal>(rt: &H, ended: &Result<Rest, ScriptFault>) -> u8
    ensures { result ≡ rest_status ended.now }
{
    if let Err(fault) = ended {
        say_of_run(rt, *fault);
    }
    status::of_rest(ended)
}

// Takes the steps, and writes the line of the run.
fn drive<W: Sink, P: Progress>(
    alloc: Global,
    writer: &mut W,
    progress: &mut P,
    options: &RandomOptions,
) -> Result<(World, bool), ScriptFault>
    ensures sound { IfOk result (λ end. end.1 ≡ true) }
    ensures wrote { WroteLineOf (W.contents writer.old) (W.contents writer.new)
        (random_line options.now.seed options.now.steps None) result }
{
    let (seed, steps) = (options.seed, options.steps);
    if options.busy {
        busy_run(alloc, writer, progress, seed, steps)
    } else {
        random_run(alloc, writer, progress, seed, steps)
    }
}

// Takes the steps, writes the line of the run, and reports on standard error why it can't be
// written.
fn random_over<H: Eprint + AllocGlobal, W: Sink, P: Progress>(
    rt: &H,
    writer: &mut W,
    progress: &mut P,
    options: &RandomOptions,
) -> u8
    ensures { DroveTo (W.contents writer.old) (W.contents writer.new)
        (random_line options.now.seed options.now.steps None) result }
{
    let ended = drive(rt.alloc(), writer, progress, options);
    status_of(rt, &ended)
}

// The same, and then good rounds until nobody waits, with a line of their own.
fn rest_over<H: Eprint + AllocGlobal, W: Sink, P: Progress>(
    rt: &H,
    writer: &mut W,
    progress: &mut P,
    options: &RandomOptions,
) -> u8
    ensures { CameToRest (W.contents writer.old) (W.contents writer.new)
        (random_line options.now.seed options.now.steps None) result }
{
    match drive(rt.alloc(), writer, progress, options) {
        Ok((mut world, true)) => {
            let ended = bring_to_rest(rt.alloc(), writer, &mut world);
            status_of_rest(rt, &ended)
        }
        ended => status_of(rt, &ended),
    }
}

// Takes the steps of a random run, and writes whether all was sound.
pub(crate) fn random<H: Eprint + AllocGlobal, W: Sink>(
    rt: &H,
    options: &RandomOptions,
    is_told: bool,
    writer: &mut W,
) -> u8
    ensures { DroveBy options.now.rest (W.contents writer.old) (W.contents writer.new)
        (random_line options.now.seed options.now.steps None) result }
{
    let is_told = options.progress || is_told;
    let mut progress = Told::new(rt, is_told, options.steps);
    if options.rest {
        rest_over(rt, writer, &mut progress, options)
    } else {
        random_over(rt, writer, &mut progress, options)
    }
}
