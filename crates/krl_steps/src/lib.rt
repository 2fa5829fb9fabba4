//! What may happen in a world of a server and its clients, and what comes of it: a step, its answer
//! or its refusal, and the writes that were applied. `krl_world` takes the steps.
#![tactic(auto)]

mod answer;
mod applied_write;
mod refused;
mod step;

pub use answer::Answer;
pub use applied_write::AppliedWrite;
pub use refused::Refused;
pub use step::{Command, Step};
