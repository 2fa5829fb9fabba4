//! A server, its clients and every message between them, in one process.
//!
//! The driver of a `World` decides what happens next: which message is delivered, how late and how
//! often, what a client is ordered to do, which node crashes and which starts. After every list of
//! steps no two clients hold incompatible parts at one point; the rows that answer a scan are those
//! of the index, though the client reads only its own cache; and each numbered write changed the
//! index at most once, and once if its client received Applied. `laws` states this and more of all
//! worlds.
#![tactic(auto)]

pub mod client_steps;
pub mod laws;
mod message;
pub mod network;
mod node;
pub mod server_steps;
mod world;
mod world_fields;

pub use krl_steps::{Answer, AppliedWrite, Command, Refused, Step};
pub use message::Message;
pub use node::{ClientPlace, ServerPlace};
pub use world::World;
