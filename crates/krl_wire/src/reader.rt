//! The fields of a message, read from the left.
ghost use Rattle.std.specs.Prelude.{◌≡◌, ◌<◌, ◌==◌, ℕ, length};
ghost use Rattle.std.specs.Int.{w32, w64};
ghost use Rattle.krl_modes.specs.Names.{all_modes};
ghost use Rattle.krl_wire.specs.declared.fault.Fault.TheVariants as faults;
ghost use Rattle.krl_wire.specs.Reading.{Reads, byte_at, number_at, count_at, tag_at, span_at};
ghost use Rattle.krl_wire.specs.Reading.{value_at, some_value_at, optional_at, kind_at, head_at};

use crate::fault::Fault;
use crate::kinds::VERSION;
use krl_messages::Value;
use krl_modes::{MAX_VALUE_BYTES, Mode, Span};
use std::marker::Model;

/// The bytes that are not read yet. Each call reads a field off their front. What is left after a
/// fault is not specified.
#[derive(Drop)]
pub struct Reader<'a> {
    rest: &'a [u8],
}

impl<'a> Model for Reader<'a> {
    ghost use Rattle.std.specs.Prelude.{ℕ, List};

    ghost Value = { List ℕ };

    ghost view = { λ r. r.rest.now };
}

impl<'a> Reader<'a> {
    /// Nothing of these bytes is read yet.
    pub fn new(bytes: &'a [u8]) -> Reader<'a>
        ensures { result ≡ bytes.now }
    {
        Reader { rest: bytes }
    }

    /// Whether every byte is read.
    pub fn is_empty(&self) -> bool
        ensures { result ≡ (length self.now == 0) }
    {
        self.rest.is_empty()
    }

    /// The next byte.
    #[tactic(auto, unfolding(crate::specs::Reading::byte_at))]
    pub fn byte(&mut self) -> Result<u8, Fault>
        ensures { Reads result self.new (byte_at self.old) }
    {
        let Some((byte, rest)) = self.rest.split_first() else {
            return Err(Fault::Short);
        };
        self.rest = rest;
        Ok(*byte)
    }

    // A number of four bytes.
    fn small_number(&mut self) -> Result<u32, Fault>
        ensures { Reads result self.new (number_at w32 self.old) }
    {
        if self.rest.len() < 4 {
            return Err(Fault::Short);
        }
        let (front, rest) = self.rest.split_at(4);
        self.rest = rest;
        Ok(u32::from_le_bytes([front[0], front[1], front[2], front[3]]))
    }

    /// A number of eight bytes.
    pub fn number(&mut self) -> Result<u64, Fault>
        ensures { Reads result self.new (number_at w64 self.old) }
    {
        if self.rest.len() < 8 {
            return Err(Fault::Short);
        }
        let (front, rest) = self.rest.split_at(8);
        self.rest = rest;
        Ok(u64::from_le_bytes([
            front[0], front[1], front[2], front[3], front[4], front[5], front[6], front[7],
        ]))
    }

    /// How many items of `size` bytes stand next: no more than the bytes can hold.
    #[tactic(auto, unfolding(crate::specs::Reading::count_at))]
    pub fn count(&mut self, size: usize) -> Result<u32, Fault>
        requires { 0 < size }
        ensures { Reads result self.new (count_at size self.old) }
    {
        let count = self.small_number()?;
        if self.rest.len() / size < count as usize {
            return Err(Fault::Short);
        }
        Ok(count)
    }

    /// What stands in the table at the place that the next byte names; `fault` if none does.
    #[tactic(auto, unfolding(crate::specs::Reading::tag_at))]
    pub fn tag<T: Copy>(&mut self, table: &[T], fault: Fault) -> Result<T, Fault>
        ensures { Reads result self.new (tag_at table.now fault self.old) }
    {
        let place = self.byte()?;
        match table.get(place as usize) {
            Some(item) => Ok(*item),
            None => Err(fault),
        }
    }

    /// A mode.
    pub fn mode(&mut self) -> Result<Mode, Fault>
        ensures { Reads result self.new (tag_at all_modes faults.Mode self.old) }
    {
        self.tag(&Mode::ALL, Fault::Mode)
    }

    /// A span.
    #[tactic(auto, unfolding(crate::specs::Reading::span_at))]
    pub fn span(&mut self) -> Result<Span, Fault>
        ensures { Reads result self.new (span_at self.old) }
    {
        let lo = self.number()?;
        let hi = self.number()?;
        match Span::new(lo, hi) {
            Ok(span) => Ok(span),
            Err(_bad) => Err(Fault::Span),
        }
    }

    /// A value.
    #[tactic(auto, unfolding(crate::specs::Reading::value_at))]
    pub fn value(&mut self) -> Result<Value, Fault>
        ensures { Reads result self.new (value_at self.old) }
    {
        let len = self.byte()? as usize;
        if len > MAX_VALUE_BYTES {
            return Err(Fault::Length);
        }
        if self.rest.len() < len {
            return Err(Fault::Short);
        }
        let (front, rest) = self.rest.split_at(len);
        self.rest = rest;
        Ok(Value::new(front).unwrap())
    }

    // A value that the flag before it promised.
    #[tactic(auto, unfolding(crate::specs::Reading::some_value_at))]
    fn some_value(&mut self) -> Result<Option<Value>, Fault>
        ensures { Reads result self.new (some_value_at self.old) }
    {
        let value = self.value()?;
        Ok(Some(value))
    }

    /// A value, if its flag is 1.
    #[tactic(auto, unfolding(crate::specs::Reading::optional_at))]
    pub fn optional_value(&mut self) -> Result<Option<Value>, Fault>
        ensures { Reads result self.new (optional_at self.old) }
    {
        match self.byte()? {
            0 => Ok(None),
            1 => self.some_value(),
            _ => Err(Fault::Flag),
        }
    }

    // A kind from the first of these to the last.
    #[tactic(auto, unfolding(crate::specs::Reading::kind_at))]
    fn kind(&mut self, first: u8, last: u8) -> Result<u8, Fault>
        ensures { Reads result self.new (kind_at first last self.old) }
    {
        let kind = self.byte()?;
        if first <= kind && kind <= last {
            Ok(kind)
        } else {
            Err(Fault::Kind)
        }
    }

    /// The kind of a message of this version, from the first of these kinds to the last.
    #[tactic(auto, unfolding(crate::specs::Reading::head_at))]
    pub fn head(&mut self, first: u8, last: u8) -> Result<u8, Fault>
        ensures { Reads result self.new (head_at first last self.old) }
    {
        let version = self.byte()?;
        if version == VERSION {
            self.kind(first, last)
        } else {
            Err(Fault::Version)
        }
    }
}
