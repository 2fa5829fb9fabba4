//! What a line asks for.
ghost use Rattle.std.specs.Prelude.{◌≡◌};

use krl_messages::Value;
use krl_steps::Step;
use std::marker::Model;

/// Entries of an index, each a key and its value, in the order of the line.
#[derive(Drop)]
pub struct Entries {
    pairs: Vec<(u64, Value)>,
}

impl Model for Entries {
    ghost use Rattle.std.specs.Prelude.{ℕ, List};
    ghost use Rattle.krl_messages.specs.Values as values;

    ghost Value = { List (ℕ × values.Value) };

    ghost view = { λ e. e.pairs.items };
}

impl From<Vec<(u64, Value)>> for Entries {
    ghost from_gives = { λ pairs entries. entries ≡ pairs.items };

    fn from(pairs: Vec<(u64, Value)>) -> Entries {
        Entries { pairs }
    }
}

impl Entries {
    pub fn into_pairs(self) -> Vec<(u64, Value)>
        ensures { result.items ≡ self }
    {
        let Entries { pairs } = self;
        pairs
    }
}

/// What is read of a world.
#[derive(Clone, Copy)]
pub enum Query {
    /// What a client holds at a point.
    Hold { client: u64, point: u64 },
    /// The state of a client.
    Status(u64),
    /// The clients that have not reported to the server.
    Missing,
    /// The entries of the index.
    Index,
    /// The writes that were applied.
    Writes,
    /// Whether what clients hold is compatible.
    Check,
}

/// What a line asks for.
#[derive(Drop)]
pub enum Request {
    /// Nothing: the line is a comment or has no word.
    Nothing,
    /// A world with these entries.
    Seed(Entries),
    /// A world with this many entries: the keys from 0 on, each with its own number as its value.
    Fill(u64),
    /// A step of the world, other than a delivery.
    Step(Step),
    /// The message of this number is delivered.
    Deliver(u64),
    /// This many deliveries, or until no message waits.
    Next(u64),
    /// Deliveries until no message waits.
    Settle,
    /// No message waits any longer.
    Drop,
    /// What is read of the world.
    Query(Query),
    /// The tables of modes.
    Modes,
}

impl Request {
    ghost use Rattle.krl_text.specs.Words.{makes_world};

    /// Whether the request makes a world, and so may stand only before every other one.
    pub fn makes_world(&self) -> bool
        ensures { result ≡ makes_world self.now }
    {
        matches!(self, Request::Seed(_) | Request::Fill(_))
    }
}
