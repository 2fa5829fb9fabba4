//! Why what survived is not brought to a later form.
ghost use Rattle.std.specs.Prelude.{◌≡◌};
ghost use Rattle.krl_durable.specs.declared.not_migrated.NotMigrated.TheVariants.{OutOfMemory};

use std::alloc::AllocError;

/// Why what survived is not brought to a later form.
#[derive(Clone, Copy, PartialEq, Eq)]
pub enum NotMigrated {
    /// Memory that the call needed was not there.
    OutOfMemory,
    /// This client, and perhaps a later one, is registered and has not left.
    StillRegistered(u64),
}

impl From<AllocError> for NotMigrated {
    ghost from_gives = { λ _ refused. refused ≡ OutOfMemory };

    fn from(_error: AllocError) -> NotMigrated {
        NotMigrated::OutOfMemory
    }
}
