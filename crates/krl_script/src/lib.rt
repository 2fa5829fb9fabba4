//! A script is read whole, and then run line by line against a world. What is written is its
//! transcript. A random run drives a world through steps that are drawn from a seed.
#![tactic(auto)]

mod delivery;
mod interpreter;
mod progress;
mod query;
mod random;
mod rest;
mod rows;
mod run;
mod soundness;
mod undelivered;

pub use interpreter::Interpreter;
pub use krl_text::{LineFault, Request, ScriptFault, Sink, Source};
pub use progress::{Progress, Untold};
pub use random::{busy_run, random_run};
pub use rest::{Rest, bring_to_rest};
pub use run::run_script;
