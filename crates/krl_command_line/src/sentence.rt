//! The sentences on standard error of a run that ended early.
use crate::{advice, blame};
use krl_text::ScriptFault;

// Reports why a run ended, which word it is about, and what can be done. If that can't be written,
// only the exit status is left to report it.
fn say<R: Eprint>(rt: &R, fault: ScriptFault, word: Option<&str>, advice: &str) {
    let _ = match word {
        Some(word) => eprintln!(rt; "krl: {fault} '{word}' ({advice})"),
        None => eprintln!(rt; "krl: {fault} ({advice})"),
    };
}

/// Reports on standard error why the script of this text ended before its last line, which of its
/// words that is about, and what can be done. The text is empty if it could not be read.
pub fn say_of_script<R: Eprint>(rt: &R, fault: ScriptFault, text: &[u8]) {
    let word = match fault {
        ScriptFault::Syntax { line, what } => blame::word_of(text, line, what),
        _ => None,
    };
    say(rt, fault, word, advice::for_fault(fault));
}

/// Reports on standard error why a run that reads no script ended early, and what can be done.
pub fn say_of_run<R: Eprint>(rt: &R, fault: ScriptFault) {
    say(rt, fault, None, advice::for_run(fault));
}
