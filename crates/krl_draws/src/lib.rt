//! What a random run draws: the steps of a world, from the words of a generator.
#![tactic(auto)]

mod generator;

pub use generator::{Generator, Observed, Writes};
