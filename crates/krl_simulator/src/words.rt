//! The words of a command line, as C hands them over.
ghost use Rattle.std.specs.Prelude.{IfErr};
ghost use Rattle.krl_simulator.specs.Answers.{Refused};

use krl_command_line::{Request, read, refuse_bytes};
use std::alloc::{AllocError, Global};
use std::io;

// Each word but the last ends in a zero byte. None if one is no UTF-8.
fn words_of(alloc: Global, bytes: &[u8]) -> Result<Option<Vec<String>>, AllocError> {
    let mut words = Vec::new(alloc);
    for word in bytes.split(|byte| *byte == 0) {
        let Ok(word) = str::from_utf8(word) else {
            return Ok(None);
        };
        words.push(String::from_str(alloc, word)?)?;
    }
    Ok(Some(words))
}

/// What the words ask for, the first of which is the program's name.
///
/// # Errors
///
/// The exit status of words that ask for no run. Why is reported on standard error.
pub(crate) fn asked<H: Eprint + AllocGlobal>(rt: &H, bytes: &[u8]) -> Result<Request, u8>
    ensures { IfErr result Refused }
{
    match words_of(rt.alloc(), bytes) {
        Ok(Some(words)) => read(rt, words.as_slice()),
        Ok(None) => Err(refuse_bytes(rt)),
        Err(_) => {
            let _ = eprintln!(rt; "krl: {}", io::Error::from(io::ErrorKind::OutOfMemory));
            Err(1)
        }
    }
}
