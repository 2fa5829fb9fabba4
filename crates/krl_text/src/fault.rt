//! How a script fails.
ghost use Rattle.std.specs.Prelude.{◌≡◌, Some};
ghost use Rattle.krl_text.specs.Printing.{fault_text};
ghost use Rattle.krl_text.specs.declared.fault.LineFault.TheVariants as line;
ghost use Rattle.krl_text.specs.declared.fault.ScriptFault.TheVariants as script;

use std::alloc::{AllocError, AllocFailed};
use std::{fmt, io};
use thiserror::Error;

/// What is wrong with a text or a line of it. Each prints as its text in a transcript.
#[derive(Clone, Copy, Debug, PartialEq, Eq)]
pub enum SyntaxFault {
    /// The text has more than `MAX_TEXT` bytes. It is reported of line 0, and no line is run.
    TextTooLong,
    /// The line comes after the first `MAX_LINES`.
    TooManyLines,
    /// The line has more than `MAX_LINE` bytes.
    LineTooLong,
    /// The first word is none of the script's.
    UnknownWord,
    /// There are fewer arguments than the word takes.
    MissingArgument,
    /// There are more arguments than the word takes.
    ExtraArgument,
    /// An argument that has to be a number is none.
    BadNumber,
    /// An argument that has to be a pair is none.
    BadPair,
    /// The value of an `insert` or `put` is none.
    BadValue,
    /// The mode is no name of one that `lock` takes.
    BadMode,
    /// The world is made already.
    LateSeed,
}

impl SyntaxFault {
    /// The fault as a transcript reports it.
    pub fn text(self) -> &'static str
        ensures { result.now ≡ fault_text self }
    {
        match self {
            SyntaxFault::TextTooLong => "text too long",
            SyntaxFault::TooManyLines => "too many lines",
            SyntaxFault::LineTooLong => "line too long",
            SyntaxFault::UnknownWord => "unknown word",
            SyntaxFault::MissingArgument => "missing argument",
            SyntaxFault::ExtraArgument => "extra argument",
            SyntaxFault::BadNumber => "bad number",
            SyntaxFault::BadPair => "bad pair",
            SyntaxFault::BadValue => "bad value",
            SyntaxFault::BadMode => "bad mode",
            SyntaxFault::LateSeed => "late seed",
        }
    }
}

impl fmt::Display for SyntaxFault {
    ghost output = { λ fault. Some (fault_text fault) };

    fn fmt<W: fmt::Write>(&self, f: &mut fmt::Formatter<W>) -> fmt::Result {
        f.write_str(self.text())
    }
}

/// Why a line asks for nothing that can be done.
#[derive(Clone, Copy)]
pub enum LineFault {
    OutOfMemory,
    Syntax(SyntaxFault),
}

impl From<AllocError> for LineFault {
    ghost from_gives = { λ _ e. e ≡ line.OutOfMemory };

    fn from(_e: AllocError) -> LineFault {
        LineFault::OutOfMemory
    }
}

impl<T: Drop> From<AllocFailed<T>> for LineFault {
    ghost from_gives = { λ _ e. e ≡ line.OutOfMemory };

    fn from(_e: AllocFailed<T>) -> LineFault {
        LineFault::OutOfMemory
    }
}

/// Why a script ended before its last line.
#[derive(Clone, Copy, Debug, Error)]
pub enum ScriptFault {
    /// A read failed, and was not merely interrupted.
    #[error("the script can't be read to its end: {0}")]
    Read(io::Error),
    /// The reader gave no end in `MAX_TURNS` reads.
    #[error("the script has no end")]
    NoEnd,
    /// The writer failed, or took nothing of what it was given.
    #[error("the transcript can't be written")]
    Write,
    /// The script's own growth, or the making of its world, found no memory.
    #[error("out of memory")]
    OutOfMemory,
    /// A line, counted from 1, has this fault, which the transcript's last line reports too.
    #[error("line {line}: {what}")]
    Syntax { line: u64, what: SyntaxFault },
}

impl From<AllocError> for ScriptFault {
    ghost from_gives = { λ _ e. e ≡ script.OutOfMemory };

    fn from(_e: AllocError) -> ScriptFault {
        ScriptFault::OutOfMemory
    }
}

impl<T: Drop> From<AllocFailed<T>> for ScriptFault {
    ghost from_gives = { λ _ e. e ≡ script.OutOfMemory };

    fn from(_e: AllocFailed<T>) -> ScriptFault {
        ScriptFault::OutOfMemory
    }
}
