//! The words that begin a line.
ghost use Rattle.std.specs.Prelude.{◌≡◌};
ghost use Rattle.krl_text.specs.Words.{alone_text, one_number_text, client_and_number_text};
ghost use Rattle.krl_text.specs.Words.{client_and_two_text, valued_text, word_text, word_named};
ghost use Rattle.krl_text.specs.Words.{alone_request, one_number_request};
ghost use Rattle.krl_text.specs.Words.{client_and_number_request, valued_change, valued_request};
ghost use Rattle.krl_text.specs.Words.{taking_request};
ghost use Rattle.krl_text.specs.Words.{client_and_two_command, client_and_two_request};

use crate::request::{Query, Request};
use krl_messages::{Value, WriteOp};
use krl_modes::Mode;
use krl_steps::{Command, Step};

/// The words that stand alone.
#[derive(Clone, Copy)]
pub enum Alone {
    Settle,
    Drop,
    Missing,
    Index,
    Writes,
    Check,
    Modes,
}

impl Alone {
    /// The word as it stands in a script.
    pub fn text(self) -> &'static str
        ensures { result.now ≡ alone_text self }
    {
        match self {
            Alone::Settle => "settle",
            Alone::Drop => "drop",
            Alone::Missing => "missing",
            Alone::Index => "index",
            Alone::Writes => "writes",
            Alone::Check => "check",
            Alone::Modes => "modes",
        }
    }

    /// What the word asks for.
    pub fn request(self) -> Request
        ensures { result ≡ alone_request self }
    {
        match self {
            Alone::Settle => Request::Settle,
            Alone::Drop => Request::Drop,
            Alone::Missing => Request::Query(Query::Missing),
            Alone::Index => Request::Query(Query::Index),
            Alone::Writes => Request::Query(Query::Writes),
            Alone::Check => Request::Query(Query::Check),
            Alone::Modes => Request::Modes,
        }
    }
}

/// The words that take one number.
#[derive(Clone, Copy)]
pub enum OneNumber {
    Fill,
    Client,
    Leave,
    Tick,
    Nudge,
    Deliver,
    Next,
    Status,
}

impl OneNumber {
    /// The word as it stands in a script.
    pub fn text(self) -> &'static str
        ensures { result.now ≡ one_number_text self }
    {
        match self {
            OneNumber::Fill => "fill",
            OneNumber::Client => "client",
            OneNumber::Leave => "leave",
            OneNumber::Tick => "tick",
            OneNumber::Nudge => "nudge",
            OneNumber::Deliver => "deliver",
            OneNumber::Next => "next",
            OneNumber::Status => "status",
        }
    }

    /// What the word asks for with this number.
    pub fn request(self, number: u64) -> Request
        ensures { result ≡ one_number_request self number }
    {
        match self {
            OneNumber::Fill => Request::Fill(number),
            OneNumber::Client => Request::Step(Step::StartClient(number)),
            OneNumber::Leave => Request::Step(Step::Command(number, Command::Leave)),
            OneNumber::Tick => Request::Step(Step::Tick(number)),
            OneNumber::Nudge => Request::Step(Step::Nudge(number)),
            OneNumber::Deliver => Request::Deliver(number),
            OneNumber::Next => Request::Next(number),
            OneNumber::Status => Request::Query(Query::Status(number)),
        }
    }
}

/// The words that take a client and one more number.
#[derive(Clone, Copy)]
pub enum ClientAndNumber {
    Delete,
    Unpin,
    Hold,
}

impl ClientAndNumber {
    /// The word as it stands in a script.
    pub fn text(self) -> &'static str
        ensures { result.now ≡ client_and_number_text self }
    {
        match self {
            ClientAndNumber::Delete => "delete",
            ClientAndNumber::Unpin => "unpin",
            ClientAndNumber::Hold => "hold",
        }
    }

    /// What the word asks for with these numbers.
    pub fn request(self, client: u64, second: u64) -> Request
        ensures { result ≡ client_and_number_request self client second }
    {
        match self {
            ClientAndNumber::Delete => {
                let op = WriteOp::Delete { key: second };
                Request::Step(Step::Command(client, Command::Write(op)))
            }
            ClientAndNumber::Unpin => Request::Step(Step::Command(client, Command::Unpin(second))),
            ClientAndNumber::Hold => Request::Query(Query::Hold {
                client,
                point: second,
            }),
        }
    }
}

/// The words that take a client, a key and a value.
#[derive(Clone, Copy)]
pub enum Valued {
    Insert,
    Put,
}

impl Valued {
    /// The word as it stands in a script.
    pub fn text(self) -> &'static str
        ensures { result.now ≡ valued_text self }
    {
        match self {
            Valued::Insert => "insert",
            Valued::Put => "put",
        }
    }

    // What is written.
    fn change(self, key: u64, value: Value) -> WriteOp
        ensures { result ≡ valued_change self key value }
    {
        match self {
            Valued::Insert => WriteOp::Insert { key, value },
            Valued::Put => WriteOp::Put { key, value },
        }
    }

    /// What the word asks for with this client, key and value.
    pub fn request(self, client: u64, key: u64, value: Value) -> Request
        ensures { result ≡ valued_request self client key value }
    {
        Request::Step(Step::Command(client, Command::Write(self.change(key, value))))
    }

    /// What the word asks for after `take`, with this client, key and value.
    pub fn taking(self, client: u64, key: u64, value: Value) -> Request
        ensures { result ≡ taking_request self client key value }
    {
        Request::Step(Step::Command(client, Command::Seize(self.change(key, value))))
    }
}

/// The words that take a client and two more numbers.
#[derive(Clone, Copy)]
pub enum ClientAndTwo {
    Scan,
    Forget,
    Pin,
}

impl ClientAndTwo {
    /// The word as it stands in a script.
    pub fn text(self) -> &'static str
        ensures { result.now ≡ client_and_two_text self }
    {
        match self {
            ClientAndTwo::Scan => "scan",
            ClientAndTwo::Forget => "forget",
            ClientAndTwo::Pin => "pin",
        }
    }

    // The command to the client.
    fn command(self, second: u64, third: u64) -> Command
        ensures { result ≡ client_and_two_command self second third }
    {
        let (lo, hi) = (second, third);
        match self {
            ClientAndTwo::Scan => Command::Scan { lo, hi },
            ClientAndTwo::Forget => Command::Lower {
                lo,
                hi,
                keep: Mode::N,
            },
            ClientAndTwo::Pin => Command::Pin { lo, hi },
        }
    }

    /// What the word asks for with these numbers.
    pub fn request(self, client: u64, second: u64, third: u64) -> Request
        ensures { result ≡ client_and_two_request self client second third }
    {
        Request::Step(Step::Command(client, self.command(second, third)))
    }
}

/// The first word of a line, which states what the line asks for, by the arguments that it takes.
#[derive(Clone, Copy)]
pub enum Word {
    /// `seed`, and pairs of a key and its value.
    Seed,
    /// `lock`, a client, a point and a mode.
    Lock,
    /// `lower`, a client, two numbers and a mode.
    Lower,
    /// `take`, and a line that writes.
    Take,
    /// `crash`, and a client or the word `server`.
    Crash,
    /// `start`, and the word `server`.
    Start,
    /// Nothing.
    Alone(Alone),
    /// One number.
    OneNumber(OneNumber),
    /// A client and a number.
    ClientAndNumber(ClientAndNumber),
    /// A client, a key and a value.
    Valued(Valued),
    /// A client and two numbers.
    ClientAndTwo(ClientAndTwo),
}

// Every word.
static WORDS: [Word; 29] = [
    Word::Seed,
    Word::Lock,
    Word::Lower,
    Word::Take,
    Word::Crash,
    Word::Start,
    Word::Alone(Alone::Settle),
    Word::Alone(Alone::Drop),
    Word::Alone(Alone::Missing),
    Word::Alone(Alone::Index),
    Word::Alone(Alone::Writes),
    Word::Alone(Alone::Check),
    Word::Alone(Alone::Modes),
    Word::OneNumber(OneNumber::Fill),
    Word::OneNumber(OneNumber::Client),
    Word::OneNumber(OneNumber::Leave),
    Word::OneNumber(OneNumber::Tick),
    Word::OneNumber(OneNumber::Nudge),
    Word::OneNumber(OneNumber::Deliver),
    Word::OneNumber(OneNumber::Next),
    Word::OneNumber(OneNumber::Status),
    Word::ClientAndNumber(ClientAndNumber::Delete),
    Word::ClientAndNumber(ClientAndNumber::Unpin),
    Word::ClientAndNumber(ClientAndNumber::Hold),
    Word::Valued(Valued::Insert),
    Word::Valued(Valued::Put),
    Word::ClientAndTwo(ClientAndTwo::Scan),
    Word::ClientAndTwo(ClientAndTwo::Forget),
    Word::ClientAndTwo(ClientAndTwo::Pin),
];

impl Word {
    /// The word as it stands in a script.
    pub fn text(self) -> &'static str
        ensures { result.now ≡ word_text self }
    {
        match self {
            Word::Seed => "seed",
            Word::Lock => "lock",
            Word::Lower => "lower",
            Word::Take => "take",
            Word::Crash => "crash",
            Word::Start => "start",
            Word::Alone(word) => word.text(),
            Word::OneNumber(word) => word.text(),
            Word::ClientAndNumber(word) => word.text(),
            Word::Valued(word) => word.text(),
            Word::ClientAndTwo(word) => word.text(),
        }
    }

    /// The word that this is, letter for letter; None for every other text.
    pub fn from_text(text: &[u8]) -> Option<Word>
        ensures { result ≡ word_named text.now }
    {
        WORDS
            .iter()
            .copied()
            .find(|word| text == word.text().as_bytes())
    }
}
