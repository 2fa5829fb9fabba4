//! What a person can do about a fault.
use krl_text::{ScriptFault, SyntaxFault};

/// What to do about a fault of a script.
pub fn for_fault(fault: ScriptFault) -> &'static str {
    match fault {
        ScriptFault::Read(_) => "no line was run; see that standard input can be read",
        ScriptFault::NoEnd => "no line was run; see that standard input has an end",
        ScriptFault::Write => {
            "standard output has the beginning; see that it is open and has room"
        }
        ScriptFault::OutOfMemory =>
            "standard output has the transcript's beginning; free some memory",
        ScriptFault::Syntax { line: _, what } => for_syntax(what),
    }
}

/// What to do about a fault of a run that reads no script, and so has no text that could be wrong.
pub fn for_run(fault: ScriptFault) -> &'static str {
    match fault {
        ScriptFault::Write => "see that standard output is open and has room",
        _ => "nothing is written; free some memory",
    }
}

fn for_syntax(what: SyntaxFault) -> &'static str {
    match what {
        SyntaxFault::TextTooLong => "no line was run; a script has at most 1,048,576 bytes",
        SyntaxFault::TooManyLines => "a script has at most 10,000 lines",
        SyntaxFault::LineTooLong => "a line has at most 256 bytes",
        SyntaxFault::UnknownWord => "'krl script --help' lists the words that begin a line",
        SyntaxFault::MissingArgument | SyntaxFault::ExtraArgument => {
            "'krl script --help' says what each word takes"
        }
        SyntaxFault::BadNumber =>
            "write 1 to 20 digits, at most 18446744073709551615, or END or TOP",
        SyntaxFault::BadPair => "write a key and its value as 10=1",
        SyntaxFault::BadValue => {
            "a value is a number, or x and an even number of hexadecimal digits, at most 64"
        }
        SyntaxFault::BadMode => {
            "write one of N, S, U, X, RangeS-S, RangeS-U, RangeI-N, RangeI-S, RangeI-U, RangeI-X, \
             RangeX-S, RangeX-U, RangeX-X"
        }
        SyntaxFault::LateSeed => {
            "'seed' or 'fill' stands once, before every other word but 'modes'"
        }
    }
}
