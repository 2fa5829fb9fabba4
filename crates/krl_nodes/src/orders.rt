//! The orders of a node, and what it answers.
use krl_world::{Answer, Command};

/// The orders of the server's node.
#[derive(Clone, Copy)]
pub enum ServerOrder {
    /// Read a letter to the server, if one waits: the oldest, or the one that is picked.
    Letter,
    /// Send the client of this number again what it has not answered, or call back those that
    /// block it.
    Nudge(u64),
    /// Stop. What is durable stays.
    Crash,
    /// Run, from what the server before it left.
    Start,
}

/// The orders of a client's node.
#[derive(Clone, Copy)]
pub enum ClientOrder {
    /// Read a letter to this client, if one waits: the oldest, or the one that is picked.
    Letter,
    /// Obey the command.
    Command(Command),
    /// Send again what is not answered.
    Tick,
    /// Run, with a new incarnation.
    Start,
    /// Stop, and forget everything.
    Crash,
}

/// What a turn that was not refused did.
#[derive(Drop)]
pub enum Turn {
    /// The order was carried out, with this answer.
    Did(Answer),
    /// No letter waits for the node.
    Idle,
    /// A letter to the node is lost, as its policy picked. A `turn` never answers this.
    Lost,
}
