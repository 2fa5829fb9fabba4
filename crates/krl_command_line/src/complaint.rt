//! What is reported of words that ask for no run.
ghost use Rattle.std.specs.Prelude.{◌≡◌, IfErr};
ghost use Rattle.clap.specs.Values.{kind_of};
ghost use Rattle.clap.specs.declared.error.kind.ErrorKind.{ErrorKind};
ghost use Rattle.krl_command_line.specs.Statuses.{words_status};

use crate::command::{self, Request};
use clap::Error;
use clap::error::ErrorKind;
use std::io;

/// The exit status of a command line that asks for no run.
pub const NO_RUN: u8 = 2;

// The exit status of words that ask for no run: 1 if memory ran out, otherwise 2, for help and the
// version too.
fn status_of(error: &Error) -> u8
    ensures { result ≡ words_status (kind_of error.now) }
{
    if error.kind() == ErrorKind::OutOfMemory {
        1
    } else {
        NO_RUN
    }
}

// Reports what clap found.
fn complain<R: Eprint>(rt: &R, error: &Error) {
    if error.kind() == ErrorKind::OutOfMemory {
        let _ = eprintln!(rt; "krl: {}", io::Error::from(io::ErrorKind::OutOfMemory));
    } else {
        let _ = rt.eprint(error);
    }
}

/// Reads the words of a command line, the first of which is the program's name. If they ask for no
/// run it reports why on standard error, or prints what `--help` and `--version` ask for.
///
/// # Errors
///
/// The exit status of words that ask for no run, even if standard error can't be written to: 1
/// if memory ran out, otherwise 2.
pub fn read<R: Eprint + AllocGlobal>(rt: &R, words: &[String]) -> Result<Request, u8>
    ensures { IfErr result (λ status. (kind : ErrorKind) × (status ≡ words_status kind)) }
{
    match command::read(rt.alloc(), words) {
        Ok(request) => Ok(request),
        Err(error) => {
            complain(rt, &error);
            Err(status_of(&error))
        }
    }
}

/// Reports on standard error that a word of the command line is no UTF-8, and returns the exit
/// status: `NO_RUN`.
pub fn refuse_bytes<R: Eprint>(rt: &R) -> u8
    ensures { result ≡ 2 }
{
    let _ = eprintln!(rt; "krl: a word of the command line is no UTF-8 (try 'krl --help')");
    NO_RUN
}
