//! What a picture shows, line by line.

/// A node that sends or receives.
#[derive(Clone, Copy, PartialEq, Eq)]
pub enum Node {
    /// The server.
    Server,
    /// The client of this number.
    Client(u64),
}

/// What becomes of a message.
#[derive(Clone, Copy, PartialEq, Eq)]
pub enum Fate {
    /// It is delivered for the first time.
    Delivered,
    /// It is delivered again.
    Repeated,
    /// It reaches a node that is down.
    Unread,
    /// It is dropped.
    Lost,
}

/// A message.
#[derive(Drop)]
pub struct Arrow {
    pub number: u64,
    pub from: Node,
    pub to: Node,
    pub fate: Fate,
    /// It is one of those that only keep a connection going.
    pub is_quiet: bool,
    /// It in a few words, and as a whole.
    pub label: String,
    pub whole: String,
}

/// A line of a picture.
#[derive(Drop)]
pub enum Row {
    /// A line of the script.
    Line(Vec<u8>),
    /// What that line printed.
    Printed(Vec<u8>),
    /// A message.
    Arrow(Arrow),
    /// A node starts, crashes or leaves.
    Mark { node: Node, text: &'static str },
    /// There was more than a picture has room for.
    More,
}
