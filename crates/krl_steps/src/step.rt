//! What may happen in a world.
use krl_messages::WriteOp;
use krl_modes::Mode;

/// A command to a client.
#[derive(Clone, Copy)]
pub enum Command {
    /// Ask the server for the mode on the slot of the point, and on the slots after it that begin
    /// below `hi`, as far as they are free.
    Lock {
        /// The first point.
        point: u64,
        /// One past the last point.
        hi: u64,
        /// The mode.
        mode: Mode,
    },
    /// Ask the server for a change of the index.
    Write(WriteOp),
    /// Ask the server for a change of the index, and for the lock that it needs, if that is free.
    Seize(WriteOp),
    /// Answer, from the client's own cache, which entries lie in the points from `lo` on below
    /// `hi`.
    Scan {
        /// The first point.
        lo: u64,
        /// One past the last point.
        hi: u64,
    },
    /// Give back, of what is held of the points from `lo` on below `hi`, all that is above `keep`.
    Lower {
        /// The first point.
        lo: u64,
        /// One past the last point.
        hi: u64,
        /// The greatest mode that the client continues to hold there.
        keep: Mode,
    },
    /// Keep what is held of the points from `lo` on below `hi`.
    Pin {
        /// The first point.
        lo: u64,
        /// One past the last point.
        hi: u64,
    },
    /// Free the pin of this number.
    Unpin(u64),
    /// Give everything back, and end.
    Leave,
}

/// One step of a world. Clients are numbered from 0 to 63, messages from 1 in the order in which
/// they were sent.
#[derive(Clone, Copy)]
pub enum Step {
    /// The message of this number is delivered, for the first time or again.
    Deliver(u64),
    /// The client of this number obeys the command.
    Command(u64, Command),
    /// The client of this number sends again what is not answered.
    Tick(u64),
    /// The server sends the client of this number again what it has not answered, or calls back
    /// those that block it.
    Nudge(u64),
    /// The client of this number begins to run, with a new incarnation.
    StartClient(u64),
    /// The client of this number stops, and forgets everything.
    CrashClient(u64),
    /// A server begins to run, from what the one before it left.
    StartServer,
    /// The server stops. What is durable stays.
    CrashServer,
}
