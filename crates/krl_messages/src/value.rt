//! The values of entries.
ghost use Rattle.std.specs.Prelude.{◌≡◌, ◌≤◌, ◌↔◌, length, IsSome, IfSome};
ghost use Rattle.std.specs.Int.{w64, to_be_bytes};
ghost use Rattle.krl_modes.specs.declared.limits.TheConstants.{MAX_VALUE_BYTES};
ghost use Rattle.krl_messages.specs.Padded.{padded};
ghost use Rattle.krl_messages.specs.Numbers.{number_of};

use krl_modes::MAX_VALUE_BYTES;
use std::marker::Model;

/// The value of an entry: 0 to 32 bytes, seen as a list.
#[derive(Clone, Copy, PartialEq, Eq)]
pub struct Value {
    // The bytes, and zeros after them.
    bytes: [u8; MAX_VALUE_BYTES],
    len: u8,
}

impl Model for Value {
    ghost use Rattle.std.specs.Prelude.{◌≡◌, ◌≤◌, ◌++◌, ◌-◌, ℕ, List, length, take, replicate};
    ghost use Rattle.krl_messages.specs.Padded.{IsPadded, padded, padded_back};

    ghost Value = { List ℕ };

    ghost view = { λ v. take v.len v.bytes };

    ghost invariant = { λ v. IsPadded v.len v.bytes };

    ghost inverse = { λ bytes. record { bytes = padded bytes; len = length bytes } };

    ghost inverse_ok = { λ v h i. record {
      bytes = (padded_back v.len v.bytes h).0 i;
      len = (padded_back v.len v.bytes h).1 i;
    } };
}

impl Value {
    /// The value of these bytes; None if there are more than 32.
    pub fn new(bytes: &[u8]) -> Option<Value>
        ensures value { IfSome result (λ v. v ≡ bytes.now) }
        ensures fits { IsSome result ↔ (length bytes.now ≤ MAX_VALUE_BYTES) }
    {
        let len = bytes.len();
        if len > MAX_VALUE_BYTES {
            return None;
        }
        let mut padded = [0; MAX_VALUE_BYTES];
        padded[..len].copy_from_slice(bytes);
        Some(Value {
            bytes: padded,
            len: len as u8,
        })
    }

    /// The eight bytes of the number, the highest first.
    pub fn from_u64(number: u64) -> Value
        ensures { result ≡ to_be_bytes w64 number }
    {
        let mut padded = [0; MAX_VALUE_BYTES];
        padded[..8].copy_from_slice(&number.to_be_bytes());
        Value {
            bytes: padded,
            len: 8,
        }
    }

    /// The number whose eight bytes these are, the highest first; None if they are not eight.
    pub fn as_u64(self) -> Option<u64>
        ensures { result ≡ number_of self }
    {
        if self.len != 8 {
            return None;
        }
        let mut eight = [0; 8];
        eight.copy_from_slice(&self.bytes[..8]);
        Some(u64::from_be_bytes(eight))
    }

    /// The bytes, at most 32.
    pub fn bytes(&self) -> &[u8]
        ensures bytes { result.now ≡ self.now }
        ensures few { length result.now ≤ MAX_VALUE_BYTES }
    {
        &self.bytes[..self.len as usize]
    }

    /// The bytes, and zeros after them: 32 in all.
    pub fn padded(&self) -> [u8; MAX_VALUE_BYTES]
        ensures { result ≡ padded self.now }
    {
        self.bytes
    }
}
