//! Why bytes are no message.
ghost use Rattle.std.specs.Prelude.{◌≡◌};
ghost use Rattle.krl_wire.specs.declared.fault.ReadError.TheVariants as errors;

use std::alloc::{AllocError, AllocFailed};
use thiserror::Error;

/// What is wrong with the bytes: the first fault from the left.
#[derive(Clone, Copy, Debug, PartialEq, Eq, Error)]
pub enum Fault {
    /// The bytes end within a field, or a count promises more items than they can hold.
    #[error("the bytes end too early")]
    Short,
    /// The version is not 1.
    #[error("the version is not 1")]
    Version,
    /// No message in this direction has this kind.
    #[error("no message has this kind")]
    Kind,
    /// A span does not begin below its end, or ends above TOP.
    #[error("a span begins below its end, which is at most TOP")]
    Span,
    /// No mode has this tag.
    #[error("no mode has this tag")]
    Mode,
    /// No part has this tag.
    #[error("no part has this tag")]
    Part,
    /// No outcome has this tag.
    #[error("no outcome has this tag")]
    Outcome,
    /// A flag is neither 0 nor 1.
    #[error("a flag is 0 or 1")]
    Flag,
    /// A value has more than 32 bytes.
    #[error("a value has at most 32 bytes")]
    Length,
    /// A grant has no holding, or more than 128.
    #[error("a grant has 1 to 128 holdings")]
    Count,
    /// A holding does not lie after the one before it.
    #[error("holdings ascend, and no point lies in two of them")]
    Order,
    /// Bytes follow the message.
    #[error("bytes stand behind the message")]
    Trailing,
}

/// Why no message to the server was read.
#[derive(Clone, Copy, Debug, PartialEq, Eq, Error)]
pub enum ReadError {
    /// The memory for a report's list was refused.
    #[error("out of memory")]
    OutOfMemory,
    /// The bytes are no message.
    #[error(transparent)]
    Fault(Fault),
}

impl From<Fault> for ReadError {
    ghost from_gives = { λ fault error. error ≡ errors.Fault fault };

    fn from(fault: Fault) -> ReadError {
        ReadError::Fault(fault)
    }
}

impl From<AllocError> for ReadError {
    ghost from_gives = { λ _ error. error ≡ errors.OutOfMemory };

    fn from(_error: AllocError) -> ReadError {
        ReadError::OutOfMemory
    }
}

impl<T: Drop> From<AllocFailed<T>> for ReadError {
    ghost from_gives = { λ _ error. error ≡ errors.OutOfMemory };

    fn from(_error: AllocFailed<T>) -> ReadError {
        ReadError::OutOfMemory
    }
}
