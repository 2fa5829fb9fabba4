//! The limits of a script and of a random run. The definitions of the contracts have them as
//! numerals.

/// The most bytes of a text: 1,048,576.
pub const MAX_TEXT: usize = 1048576;

/// The most lines of a text: 10,000.
pub const MAX_LINES: u64 = 10000;

/// The most bytes of a line, its end not counted: 256.
pub const MAX_LINE: usize = 256;

/// The most deliveries of one `settle`: 100,000.
pub const MAX_DELIVERIES: u64 = 100000;

/// The most reads of a text, and the most interruptions of one write: 2,097,152.
pub const MAX_TURNS: u64 = 2097152;

/// The most steps of a random run: 100,000.
pub const MAX_STEPS: u64 = 100000;
