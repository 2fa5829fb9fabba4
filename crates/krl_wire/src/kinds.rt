//! The version and the kinds of messages: the first two bytes of each.

/// The only version of messages that is written, and read.
pub const VERSION: u8 = 1;

// To the server.

pub const HELLO: u8 = 0;

pub const BYE: u8 = 1;

pub const REPORT: u8 = 2;

pub const LOCK: u8 = 3;

pub const INSERT: u8 = 4;

pub const PUT: u8 = 5;

pub const DELETE: u8 = 6;

pub const RELEASE: u8 = 7;

pub const ACK: u8 = 8;

pub const TAKE_INSERT: u8 = 9;

pub const TAKE_PUT: u8 = 10;

pub const TAKE_DELETE: u8 = 11;

// To a client.

pub const EPOCH: u8 = 16;

pub const GRANT: u8 = 17;

pub const ABSENT: u8 = 18;

pub const ANSWER: u8 = 19;

pub const CALLBACK: u8 = 20;
