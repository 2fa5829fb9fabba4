//! Values: the bytes that they are made of, and the numbers that eight of them encode.
use krl_messages::Value;

/// One byte more than a value can have. Zeros stand where some value ends.
static BYTES: [u8; 33] = [
    0, 255, 1, 2, 3, 4, 5, 0, 0, 16, 17, 18, 19, 20, 21, 22, 23, 24, 25, 26, 27, 28, 29, 30, 31,
    32, 33, 34, 35, 36, 0, 0, 128,
];

/// The first of those bytes, as many as this.
pub fn first_bytes(len: usize) -> &'static [u8] {
    BYTES.get(..len).unwrap_or(&BYTES)
}

/// The least and the greatest length of a value, that of a number, and lengths next to them.
pub static LENGTHS: [usize; 7] = [0, 1, 7, 8, 9, 31, 32];

/// Numbers, and their eight bytes.
static NUMBERS: [(u64, [u8; 8]); 5] = [
    (0, [0, 0, 0, 0, 0, 0, 0, 0]),
    (258, [0, 0, 0, 0, 0, 0, 1, 2]),
    (72057594037927936, [1, 0, 0, 0, 0, 0, 0, 0]),
    (72623859790382856, [1, 2, 3, 4, 5, 6, 7, 8]),
    (u64::MAX, [255, 255, 255, 255, 255, 255, 255, 255]),
];

// Whether a value of these bytes gives them back.
fn gives_back(bytes: &[u8]) -> bool {
    match Value::new(bytes) {
        None => false,
        Some(value) => value.bytes() == bytes,
    }
}

#[test]
fn a_value_has_its_bytes(rt: HostRuntime) {
    for len in &LENGTHS {
        assert!(rt; gives_back(first_bytes(*len)), "{len}");
    }
    assert!(rt; Value::new(&BYTES).is_none());
}

#[test]
fn values_of_other_lengths_differ(rt: HostRuntime) {
    for len in &LENGTHS {
        for other in &LENGTHS {
            let is_same = Value::new(first_bytes(*len)) == Value::new(first_bytes(*other));
            assert!(rt; is_same == (len == other), "{len} and {other}");
        }
    }
}

// Whether the number has these bytes, and they are the number.
fn are_number(number: u64, bytes: &[u8]) -> bool {
    let value = Value::from_u64(number);
    value.bytes() == bytes && value.as_u64() == Some(number) && Value::new(bytes) == Some(value)
}

#[test]
fn eight_bytes_are_a_number(rt: HostRuntime) {
    for (number, bytes) in &NUMBERS {
        assert!(rt; are_number(*number, bytes), "{number}");
    }
}

// Whether the value of these bytes is a number; None if they are too many.
fn is_number(bytes: &[u8]) -> Option<bool> {
    Some(Value::new(bytes)?.as_u64().is_some())
}

#[test]
fn other_bytes_are_no_number(rt: HostRuntime) {
    for len in &LENGTHS {
        assert!(rt; is_number(first_bytes(*len)) == Some(*len == 8), "{len}");
    }
}
