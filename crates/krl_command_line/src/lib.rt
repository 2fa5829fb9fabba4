//! The command line of `krl`: its words, and what is reported on standard error of a run that ended
//! early.
#![tactic(auto)]

mod advice;
mod blame;
mod command;
mod complaint;
mod sentence;

pub use command::{Form, NodesOptions, RandomOptions, Request};
pub use complaint::{NO_RUN, read, refuse_bytes};
pub use sentence::{say_of_run, say_of_script};
