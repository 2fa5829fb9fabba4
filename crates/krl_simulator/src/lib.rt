//! The simulator for a program in C: what `krl script` and `krl random` do, over bytes in memory.
//! The caller reads and writes. `krl_simulator.h` declares the exports.
#![tactic(auto)]

mod answer;
mod console;
mod exports;
mod kept;
mod words;
