//! Messages as bytes: one spelling of each message, which is no other message's.
//!
//! Version 1. A number has eight bytes and the count of a report's list four, the lowest first; a
//! tag, a flag and any other count are one byte. A message is the version, its kind, the client's
//! number, the incarnation, and the fields of its kind.
#![tactic(auto)]

mod fault;
mod kinds;
mod put_client;
mod put_fields;
mod put_server;
mod read_client;
mod read_holdings;
mod read_pieces;
mod read_server;
mod reader;

pub use fault::{Fault, ReadError};
pub use put_client::spell_to_client;
pub use put_server::{has_counts, spell_to_server};
pub use read_client::to_client_of;
pub use read_server::to_server_of;
