//! Refusals.
ghost use Rattle.std.specs.Prelude.{◌≡◌};
ghost use Rattle.krl_durable.specs.declared.refused.EntriesRefused.TheVariants.{OutOfMemory};
ghost use Rattle.krl_durable.specs.Names.{refused_name};

use std::alloc::AllocError;
use thiserror::Error;

/// Why no index begins with some entries.
#[derive(Clone, Copy, Debug, PartialEq, Eq, Error)]
#[error("{name}", name = self.name())]
pub enum EntriesRefused {
    /// Memory that the call needed was not there.
    OutOfMemory,
    /// A key of END or more.
    BadKey,
    /// A key that stands twice.
    Twice,
    /// More entries than there is room for.
    Full,
}

impl EntriesRefused {
    /// The refusal's name.
    pub fn name(self) -> &'static str
        ensures { result.now ≡ refused_name self }
    {
        match self {
            EntriesRefused::OutOfMemory => "OutOfMemory",
            EntriesRefused::BadKey => "BadKey",
            EntriesRefused::Twice => "Twice",
            EntriesRefused::Full => "Full",
        }
    }
}

impl From<AllocError> for EntriesRefused {
    ghost from_gives = { λ _ refused. refused ≡ OutOfMemory };

    fn from(_error: AllocError) -> EntriesRefused {
        EntriesRefused::OutOfMemory
    }
}
