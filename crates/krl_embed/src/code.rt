//! The codes that calls answer.
ghost use Rattle.std.specs.Prelude.{◌≡◌};
ghost use Rattle.krl_embed.specs.declared.code.Code.TheVariants as code;

use std::alloc::{AllocError, AllocFailed};

/// What a call answers, by name. `krl_types.h` states what each one means.
#[derive(Clone, Copy, PartialEq, Eq)]
pub enum Code {
    /// It is done.
    Done,
    /// It is done, but there was no memory for what it sends.
    Unsaid,
    /// Memory was refused.
    OutOfMemory,
    /// The handle is closed.
    Closed,
    /// The handle is open already.
    OpenAlready,
    /// The handle keeps a server.
    NoClient,
    /// The handle keeps a client.
    NoServer,
    /// The client has left.
    Gone,
    /// The bytes are no message.
    BadMessage,
    /// There is too little room for what was found.
    TooShort,
    /// The client does not know the whole range.
    Miss,
    /// The client's write to a key of the range is not answered yet.
    Pending,
    /// A report contradicts what the server knows.
    Alarm,
    /// A number that is no client's.
    BadClient,
    /// No number is left.
    Spent,
    /// A record that none can have, or a second one of its client.
    BadRecord,
    /// A value of more than 32 bytes.
    BadValue,
    /// A key of END or more among the entries.
    BadKey,
    /// A key that stands twice among the entries.
    Twice,
    /// More entries than there is room for.
    Full,
    /// A mode that is none.
    BadMode,
    /// A point above END, or a written key of END or more.
    BadPoint,
    /// A span that does not begin below its end, or ends above TOP.
    BadSpan,
    /// The client has learned no epoch yet.
    NotJoined,
    /// The client waits for the answer to a lock request.
    Busy,
    /// The client does not hold what the write needs, or there is no such pin.
    NotHeld,
    /// The span meets a pin.
    Pinned,
    /// A write is not answered yet, or the span contains its key.
    Writing,
    /// The client has eight pins.
    TooManyPins,
    /// An incarnation of 0, which is nobody's.
    BadIncarnation,
    /// Bounds that make no shards.
    BadShards,
    /// Room for no entry, or for more than 1,048,576.
    BadRoom,
    /// A note that the host has to keep is not confirmed.
    Unkept,
    /// More notes were confirmed than were reported.
    NotTold,
    /// A grant that takes no slot, or more than 128.
    BadReach,
    /// The registered incarnation of the client may still answer.
    StillAnswers,
    /// The client's lease has ended.
    LeaseEnded,
}

impl From<AllocError> for Code {
    ghost from_gives = { λ _ given. given ≡ code.OutOfMemory };

    fn from(_error: AllocError) -> Code {
        Code::OutOfMemory
    }
}

impl<T: Drop> From<AllocFailed<T>> for Code {
    ghost from_gives = { λ _ given. given ≡ code.OutOfMemory };

    fn from(_error: AllocFailed<T>) -> Code {
        Code::OutOfMemory
    }
}
