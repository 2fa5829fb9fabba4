//! Calls that are made again if memory is refused: `tests/refusals` refuses one request of a
//! test, or two in a row.

/// How often a call is made at most: twice it may be refused.
pub const CALLS: u64 = 3;
