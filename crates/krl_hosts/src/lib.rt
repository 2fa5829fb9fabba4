//! The host of a server, in the prover's words: what it has to write down, and what waits until that
//! is done. There is no code here.
#![tactic(auto)]
