//! Nodes on threads: how far they are, and what is printed of them.
ghost use Rattle.std.specs.Prelude.{◌≡◌, IfOk};
ghost use Rattle.krl.specs.Nodes.{nodes_line, ToldNodes};

use krl_client::Status;
use krl_command_line::say_of_run;
use krl_nodes_demo::{Gate, NodesReport, NotRun};
use krl_text::{ScriptFault, Sink, print, write_line};
use std::alloc::{AllocError, Global};
use std::thread;
use std::time::{Clock, Duration};

// How long a client waits if no letter is there for it, in milliseconds.
const PAUSE: u64 = 1;

// How long it reports nothing, in seconds.
const SILENCE: u64 = 1;

/// Passed at once; reports on standard error at which turn the client is, once a second at most,
/// if reports are wanted.
#[derive(Drop)]
pub struct Telling<'a, R> {
    rt: &'a R,
    client: u64,
    is_told: bool,
    last: Option<Duration>,
}

impl<'a, R> Telling<'a, R> {
    /// Names the client of this number.
    pub fn new(rt: &'a R, client: u64, is_told: bool) -> Telling<'a, R> {
        Telling {
            rt,
            client,
            is_told,
            last: None,
        }
    }
}

impl<R: Clock> Telling<'_, R> {
    // Whether a second has passed since the last line, or since the first turn.
    fn is_due(&mut self) -> bool {
        let Ok(now) = self.rt.monotonic() else {
            return false;
        };
        match self.last {
            Some(last) if now.saturating_sub(last) < Duration::from_secs(SILENCE) => false,
            last => {
                self.last = Some(now);
                last.is_some()
            }
        }
    }
}

impl<R: Clock + Eprint> Gate for Telling<'_, R> {
    // A line that can't be written is passed over: the run is the same without it.
    fn pass(&mut self, turn: u64, _status: Option<Status>) {
        if self.is_told && self.is_due() {
            let _ = eprintln!(self.rt; "krl: client {} is at turn {turn}", self.client);
        }
    }

    fn pause(&mut self) {
        thread::sleep(self.rt, Duration::from_millis(PAUSE));
    }
}

// The line of what came of nodes; none if they found no memory.
fn line(alloc: Global, ended: &Result<NodesReport, NotRun>) -> Result<String, AllocError>
    ensures { IfOk result (λ line. line.bytes.items ≡ nodes_line ended.now) }
{
    match ended {
        Ok(report) => print::rows(alloc, report.rows.as_slice()),
        Err(NotRun::GaveUp) => format!(in alloc; "nodes gave up\n"),
        Err(NotRun::OutOfMemory) => Ok(String::new(alloc)),
    }
}

/// Writes what came of nodes, and gives the exit status: 0 if the second client read its rows
/// and they were written, otherwise 1. What went wrong is reported on standard error.
pub fn tell<R: Eprint + AllocGlobal, W: Sink>(
    rt: &R,
    writer: &mut W,
    ended: &Result<NodesReport, NotRun>,
) -> u8
    ensures { ToldNodes (W.contents writer.old) (W.contents writer.new) ended.now result }
{
    let Ok(line) = line(rt.alloc(), ended) else {
        say_of_run(rt, ScriptFault::OutOfMemory);
        return 1;
    };
    if let Err(fault) = write_line(writer, line.as_bytes()) {
        say_of_run(rt, fault);
        return 1;
    }
    match ended {
        Ok(_) => 0,
        Err(NotRun::OutOfMemory) => {
            say_of_run(rt, ScriptFault::OutOfMemory);
            1
        }
        Err(NotRun::GaveUp) => 1,
    }
}
