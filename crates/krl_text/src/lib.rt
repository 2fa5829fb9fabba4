//! The text of a script, without a world: how it is read, its lines, what each asks for, what is
//! wrong with it, and the lines that are printed. `krl_script` runs what is asked for.
#![tactic(auto)]

mod fault;
mod io;
pub mod laws;
mod limits;
mod lines;
mod parse;
pub mod print;
mod request;
pub mod shown;
mod source;
mod word;

pub use fault::{LineFault, ScriptFault, SyntaxFault};
pub use io::{read_text, write_line};
pub use limits::{MAX_DELIVERIES, MAX_LINE, MAX_LINES, MAX_STEPS, MAX_TEXT, MAX_TURNS};
pub use lines::first_line;
pub use parse::request_of_line;
pub use request::{Entries, Query, Request};
pub use source::{AnyReader, AnyWriter, Sink, Source};
