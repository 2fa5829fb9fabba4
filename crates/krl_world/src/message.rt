//! Whatever was sent.
use krl_messages::{ToClient, ToServer};

/// A message between a client and the server.
#[derive(Drop)]
pub enum Message {
    /// To the server.
    ToServer(ToServer),
    /// To a client.
    ToClient(ToClient),
}
