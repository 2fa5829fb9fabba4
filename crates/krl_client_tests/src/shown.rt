//! Whether what is shown is what a row expects. Each goes over both lists by index: a closure would
//! be three functions more to prove.
use krl_messages::{KeyPiece, Pieces, RangePiece, Value};
use krl_modes::{KeyPart, RangePart};

/// A range part, by the ends of its span.
pub type Range = (u64, u64, RangePart);

/// Whether these are the range parts.
fn are_ranges(pieces: &[RangePiece], expected: &[Range]) -> bool {
    if pieces.len() != expected.len() {
        return false;
    }
    for i in 0..pieces.len() {
        let RangePiece { span, part } = pieces[i];
        if (span.lo(), span.hi(), part) != expected[i] {
            return false;
        }
    }
    true
}

/// Whether these are the key parts.
fn are_keys(pieces: &[KeyPiece], expected: &[(u64, KeyPart)]) -> bool {
    if pieces.len() != expected.len() {
        return false;
    }
    for i in 0..pieces.len() {
        let KeyPiece { point, part } = pieces[i];
        if (point, part) != expected[i] {
            return false;
        }
    }
    true
}

/// Whether the pieces are these.
pub fn are_told(pieces: &Pieces, ranges: &[Range], keys: &[(u64, KeyPart)]) -> bool {
    are_ranges(pieces.ranges.as_slice(), ranges) && are_keys(pieces.keys.as_slice(), keys)
}

/// Whether these are the rows, each value these bytes.
pub fn are_rows(rows: &[(u64, Value)], expected: &[(u64, &[u8])]) -> bool {
    if rows.len() != expected.len() {
        return false;
    }
    for i in 0..rows.len() {
        let (key, bytes) = expected[i];
        if rows[i].0 != key || rows[i].1.bytes() != bytes {
            return false;
        }
    }
    true
}

/// Whether these are the rows, each value a number.
pub fn are_numbers(rows: &[(u64, Value)], expected: &[(u64, u64)]) -> bool {
    if rows.len() != expected.len() {
        return false;
    }
    for i in 0..rows.len() {
        let (key, number) = expected[i];
        if rows[i].0 != key || rows[i].1.as_u64() != Some(number) {
            return false;
        }
    }
    true
}
