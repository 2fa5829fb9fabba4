//! What a request of the command line does, whatever its text, its output and its standard error
//! are: a script is run or drawn, or a world is driven through steps that are drawn.
#![tactic(auto)]

mod progress;
mod random;
mod request;
mod script;
mod status;

pub use request::obey;
pub use script::{refuse_text, text_of};
