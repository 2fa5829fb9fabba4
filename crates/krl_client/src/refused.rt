//! Refusals.
ghost use Rattle.std.specs.Prelude.{◌≡◌};
ghost use Rattle.krl_client.specs.Names.{command_refusal_name, start_refusal_name};
ghost use Rattle.krl_client.specs.declared.refused.CommandRefused.TheVariants.{OutOfMemory};

use std::alloc::{AllocError, AllocFailed};
use std::fmt;
use thiserror::Error;

/// Why a client refused a command. It is as it was.
#[derive(Clone, Copy, Debug, PartialEq, Eq, Error)]
pub enum CommandRefused {
    /// Memory that the command needed was not there.
    OutOfMemory,
    /// A point above END, or a key of END or more.
    BadPoint,
    /// A span that does not begin below its end, or that ends above TOP.
    BadSpan,
    /// The client has not learned an epoch yet.
    NotJoined,
    /// The client waits for the answer to a lock request.
    Busy,
    /// The client does not hold what the write needs, or there is no such pin.
    NotHeld,
    /// The span meets a pin.
    Pinned,
    /// A write is outstanding, or the span contains its key.
    Writing,
    /// The client has eight pins.
    TooManyPins,
    /// No number is left for the request or the write.
    Spent,
}

impl CommandRefused {
    /// The refusal's name, as it is written here.
    pub fn name(self) -> &'static str
        ensures { result.now ≡ command_refusal_name self }
    {
        match self {
            CommandRefused::OutOfMemory => "OutOfMemory",
            CommandRefused::BadPoint => "BadPoint",
            CommandRefused::BadSpan => "BadSpan",
            CommandRefused::NotJoined => "NotJoined",
            CommandRefused::Busy => "Busy",
            CommandRefused::NotHeld => "NotHeld",
            CommandRefused::Pinned => "Pinned",
            CommandRefused::Writing => "Writing",
            CommandRefused::TooManyPins => "TooManyPins",
            CommandRefused::Spent => "Spent",
        }
    }
}

/// Why no client starts.
#[derive(Clone, Copy, Debug, PartialEq, Eq, Error)]
pub enum StartRefused {
    /// A client number above 63.
    BadClient,
    /// An incarnation above END.
    Spent,
}

impl StartRefused {
    /// The refusal's name, as it is written here.
    pub fn name(self) -> &'static str
        ensures { result.now ≡ start_refusal_name self }
    {
        match self {
            StartRefused::BadClient => "BadClient",
            StartRefused::Spent => "Spent",
        }
    }
}

impl fmt::Display for CommandRefused {
    ghost use Rattle.std.specs.Prelude.{Some};

    ghost output = { λ r. Some (command_refusal_name r) };

    fn fmt<W: fmt::Write>(&self, f: &mut fmt::Formatter<W>) -> fmt::Result {
        f.write_str(self.name())
    }
}

impl fmt::Display for StartRefused {
    ghost use Rattle.std.specs.Prelude.{Some};

    ghost output = { λ r. Some (start_refusal_name r) };

    fn fmt<W: fmt::Write>(&self, f: &mut fmt::Formatter<W>) -> fmt::Result {
        f.write_str(self.name())
    }
}

impl From<AllocError> for CommandRefused {
    ghost from_gives = { λ _ refused. refused ≡ OutOfMemory };

    fn from(_error: AllocError) -> CommandRefused {
        CommandRefused::OutOfMemory
    }
}

impl<T: Drop> From<AllocFailed<T>> for CommandRefused {
    ghost from_gives = { λ _ refused. refused ≡ OutOfMemory };

    fn from(_error: AllocFailed<T>) -> CommandRefused {
        CommandRefused::OutOfMemory
    }
}
