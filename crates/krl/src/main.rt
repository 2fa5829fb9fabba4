//! The program: `krl script` runs a script that is read from standard input, `krl random` drives a
//! world through steps that are drawn, and `krl nodes` runs a server and two clients on threads.
#![tactic(auto)]

ghost use Rattle.std.specs.Prelude.{◌≡◌, IfOk};
ghost use Rattle.krl_nodes_demo.specs.Deliveries.{seeds_of};

mod nodes;

use krl_command_line::{NodesOptions, Request, read, refuse_bytes};
use krl_nodes_demo::{Gate, NodesReport, NotRun, run_nodes, run_nodes_by};
use krl_runs::{obey, text_of};
use krl_text::{AnyReader, AnyWriter};
use nodes::{Telling, tell};
use std::io;
use std::io::IsTerminal;
use std::process::ExitCode;
use std::sync::Wait;
use std::thread::Threads;
use std::time::Clock;

// What the command line asks for, or the exit status of words that ask for no run. Words that are
// refused give status 2, even if standard error can't be written.
fn asked(rt: &HostRuntime) -> io::Result<Result<Request, u8>> {
    let words = match std::env::args(rt) {
        Err(error) if error.kind() == io::ErrorKind::InvalidData => {
            return Ok(Err(refuse_bytes(rt)));
        }
        words => words?,
    };
    let words: Vec<String> = words.collect(rt.alloc())?;
    Ok(read(rt, words.as_slice()))
}

// Does what was asked for, on one thread. A script is read from standard input, and what is written
// goes to standard output.
fn do_request(rt: &HostRuntime, request: Request) -> u8 {
    let text = match request {
        Request::Script | Request::Picture(_) => text_of(rt, &mut AnyReader(rt.reader())),
        Request::Random(_) | Request::Nodes(_) => Ok(Vec::new(rt.alloc())),
    };
    let mut writer = AnyWriter(io::writer(rt));
    match text {
        Ok(text) => obey(rt, request, &text, rt.stderr().is_terminal(), &mut writer),
        Err(status) => status,
    }
}

// Runs a server and two clients on threads, by policies if the options have a number for them.
fn nodes_by<
    R: Threads + Wait + Sync + AllocGlobal,
    F: Gate + Send + Drop,
    G: Gate + Send + Drop,
    H: Gate + Drop,
>(rt: &R, server: F, first: G, second: H, options: NodesOptions) -> Result<NodesReport, NotRun>
    ensures { IfOk result (λ report. report.seeds ≡ seeds_of options.policy) }
{
    match options.policy {
        Some(seed) => run_nodes_by(rt, rt.alloc(), server, first, second, seed),
        None => run_nodes(rt, rt.alloc(), server, first, second),
    }
}

// Runs a server and two clients on threads, and prints what the second client read.
fn run_threads<R: Threads + Wait + Sync + Clock + Print + Eprint + AllocGlobal>(
    rt: &R,
    is_told: bool,
    options: NodesOptions,
) -> u8 {
    let server = Telling::new(rt, 0, false);
    let first = Telling::new(rt, 1, is_told);
    let second = Telling::new(rt, 2, is_told);
    let ended = nodes_by(rt, server, first, second, options);
    tell(rt, &mut AnyWriter(io::writer(rt)), &ended)
}

fn main(rt: HostRuntime) -> ExitCode {
    let status = match asked(&rt) {
        Ok(Ok(Request::Nodes(Some(options)))) => {
            run_threads(&rt, rt.stderr().is_terminal(), options)
        }
        Ok(Ok(request)) => do_request(&rt, request),
        Ok(Err(status)) => status,
        Err(error) => {
            let _ = eprintln!(rt; "krl: {error}");
            1
        }
    };
    ExitCode::from(status)
}
