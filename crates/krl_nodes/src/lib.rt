//! A server and its clients, each node on a thread of its own.
//!
//! Nodes share an `Office`: a post with the letters that wait, which one node at a time takes, and
//! no more. A node keeps its own state, and a scan reads only that. At each moment the nodes and
//! the post are the state of a world that some list of steps leads to, so all that is promised of
//! such worlds holds of the nodes, however many threads use them.
#![tactic(auto)]

mod client;
mod drawn;
mod inbox;
mod office;
mod orders;
mod policy;
mod post;
mod refused;
pub mod rule;
mod seating;
mod server;
mod sorting;
mod turns;
pub mod view;

pub use client::ClientNode;
pub use drawn::Drawn;
pub use office::Office;
pub use orders::{ClientOrder, ServerOrder, Turn};
pub use policy::{Pick, Policy};
pub use post::{Chair, Post, Reader};
pub use refused::{NotClosed, NotRetired, NotSeated};
pub use server::ServerNode;
