//! What a handle keeps.
use crate::frames::Frames;
use crate::notes::Notes;
use krl_client::Client;
use krl_messages::{Items, ToServer};
use krl_server::Server;

/// What a handle keeps: a client or a server, and what it sends.
#[derive(Drop)]
pub struct Endpoint {
    pub(crate) role: Role,
    /// What waits to be sent.
    pub(crate) outgoing: Frames,
    /// What the host has to keep before it sends.
    pub(crate) notes: Notes,
}

/// A client or a server.
#[derive(Drop)]
pub enum Role {
    /// A client.
    Client(Client),
    /// A client that has left, and its Bye.
    Left(Items<ToServer>),
    /// A server.
    Server(Server),
}
