//! Refusals.
ghost use Rattle.std.specs.Prelude.{◌≡◌, Some};
ghost use Rattle.krl_steps.specs.declared.refused.Refused.TheVariants.{OutOfMemory};
ghost use Rattle.krl_steps.specs.Names.{refusal_name};
ghost use Rattle.krl_steps.specs.Refusals.{refused_by_client, refused_at_start};
ghost use Rattle.krl_steps.specs.Refusals.{refused_by_index, refused_by_migration};

use krl_client::{CommandRefused, StartRefused};
use krl_durable::{EntriesRefused, NotMigrated};
use std::alloc::{AllocError, AllocFailed};
use std::error::Error;
use std::fmt;

/// Why a call did nothing. A refused call changes nothing.
#[derive(Clone, Copy, Debug, PartialEq, Eq)]
pub enum Refused {
    /// Memory that the call needed was not there.
    OutOfMemory,
    /// A point above END, or a key of END or more.
    BadPoint,
    /// A span that does not begin below its end, or that ends above TOP.
    BadSpan,
    /// The client has not learned an epoch yet.
    NotJoined,
    /// The client waits for the answer to a lock request.
    Busy,
    /// The client does not hold what the write needs, or there is no such pin.
    NotHeld,
    /// The span meets a pin.
    Pinned,
    /// A write is outstanding, or the span contains its key.
    Writing,
    /// The client has eight pins.
    TooManyPins,
    /// No number is left.
    Spent,
    /// A client number above 63.
    BadClient,
    /// The client, or the server, does not run.
    Down,
    /// The client, or the server, runs already.
    Running,
    /// No message of this number was sent.
    NoMessage,
    /// A key of END or more.
    BadKey,
    /// A key that stands twice.
    Twice,
    /// More than 65,536 entries.
    Full,
    /// This client is registered, and has not left.
    StillRegistered(u64),
}

impl Refused {
    /// The refusal's name.
    pub fn name(self) -> &'static str
        ensures { result.now ≡ refusal_name self }
    {
        match self {
            Refused::OutOfMemory => "OutOfMemory",
            Refused::BadPoint => "BadPoint",
            Refused::BadSpan => "BadSpan",
            Refused::NotJoined => "NotJoined",
            Refused::Busy => "Busy",
            Refused::NotHeld => "NotHeld",
            Refused::Pinned => "Pinned",
            Refused::Writing => "Writing",
            Refused::TooManyPins => "TooManyPins",
            Refused::Spent => "Spent",
            Refused::BadClient => "BadClient",
            Refused::Down => "Down",
            Refused::Running => "Running",
            Refused::NoMessage => "NoMessage",
            Refused::BadKey => "BadKey",
            Refused::Twice => "Twice",
            Refused::Full => "Full",
            Refused::StillRegistered(_) => "StillRegistered",
        }
    }
}

impl fmt::Display for Refused {
    ghost output = { λ refused. Some (refusal_name refused) };

    fn fmt<W: fmt::Write>(&self, f: &mut fmt::Formatter<W>) -> fmt::Result {
        f.write_str(self.name())
    }
}

impl Error for Refused {}

impl From<EntriesRefused> for Refused {
    ghost from_gives = { λ error refused. refused ≡ refused_by_index error };

    fn from(error: EntriesRefused) -> Refused {
        match error {
            EntriesRefused::OutOfMemory => Refused::OutOfMemory,
            EntriesRefused::BadKey => Refused::BadKey,
            EntriesRefused::Twice => Refused::Twice,
            EntriesRefused::Full => Refused::Full,
        }
    }
}

impl From<NotMigrated> for Refused {
    ghost from_gives = { λ error refused. refused ≡ refused_by_migration error };

    fn from(error: NotMigrated) -> Refused {
        match error {
            NotMigrated::OutOfMemory => Refused::OutOfMemory,
            NotMigrated::StillRegistered(client) => Refused::StillRegistered(client),
        }
    }
}

impl From<AllocError> for Refused {
    ghost from_gives = { λ _ refused. refused ≡ OutOfMemory };

    fn from(_error: AllocError) -> Refused {
        Refused::OutOfMemory
    }
}

impl<T: Drop> From<AllocFailed<T>> for Refused {
    ghost from_gives = { λ _ refused. refused ≡ OutOfMemory };

    fn from(_error: AllocFailed<T>) -> Refused {
        Refused::OutOfMemory
    }
}

impl From<CommandRefused> for Refused {
    ghost from_gives = { λ error refused. refused ≡ refused_by_client error };

    fn from(error: CommandRefused) -> Refused {
        match error {
            CommandRefused::OutOfMemory => Refused::OutOfMemory,
            CommandRefused::BadPoint => Refused::BadPoint,
            CommandRefused::BadSpan => Refused::BadSpan,
            CommandRefused::NotJoined => Refused::NotJoined,
            CommandRefused::Busy => Refused::Busy,
            CommandRefused::NotHeld => Refused::NotHeld,
            CommandRefused::Pinned => Refused::Pinned,
            CommandRefused::Writing => Refused::Writing,
            CommandRefused::TooManyPins => Refused::TooManyPins,
            CommandRefused::Spent => Refused::Spent,
        }
    }
}

impl From<StartRefused> for Refused {
    ghost from_gives = { λ error refused. refused ≡ refused_at_start error };

    fn from(error: StartRefused) -> Refused {
        match error {
            StartRefused::BadClient => Refused::BadClient,
            StartRefused::Spent => Refused::Spent,
        }
    }
}
