//! The client of the lock server: its commands, what it does with a message, and its tick.
//!
//! Whoever embeds a client drives one value by commands, messages and ticks, and sends on what each
//! call gives. A scan is answered from memory, with no message, by what the client was granted. The
//! modes are those of key-range locking (the SQL Server guide; Lomet, VLDB 1993). A client keeps
//! what it reads, gives it back when it is called, and reports it in each epoch.
#![tactic(auto)]

mod client;
mod commands;
mod find_answer;
mod last_write;
pub mod laws;
mod lock_request;
mod pins;
mod receive;
mod refused;
mod requests;
mod scan_answer;
mod status;
mod ticks;
mod view;

pub use client::Client;
pub use find_answer::FindAnswer;
pub use refused::{CommandRefused, StartRefused};
pub use scan_answer::ScanAnswer;
pub use status::{LockStatus, Status, WriteStatus};
