//! The limits of a server and its clients.

/// A server has at most this many clients. Their numbers lie below it.
pub const MAX_CLIENTS: usize = 64;

/// One message carries at most this many holdings: the greatest reach of a grant.
pub const MAX_HOLDINGS: usize = 128;

/// The slots that one grant reaches at most, by default.
pub const STANDARD_REACH: usize = 8;

/// A client has at most this many pins. Their ids lie below it.
pub const MAX_PINS: usize = 8;

/// A value has at most this many bytes.
pub const MAX_VALUE_BYTES: usize = 32;

/// The most entries that an index can have room for.
pub const MAX_ROOM: usize = 1_048_576;

/// The entries that an index has room for, by default.
pub const STANDARD_ROOM: usize = 65_536;
