//! Entries of the index, as C sees them.
ghost use Rattle.std.specs.Prelude.{◌≡◌, ◌<◌, [], IfNone, IfSome, IfOk, IfErr, OnOk, map};
ghost use Rattle.std.specs.List.{AllByRecursion};
ghost use Rattle.krl_embed.specs.Rows.{row_of, entry_of, max_value_bytes, HasValue, RefusesRows};
ghost use Rattle.krl_embed.specs.Rows.{Copies};

use crate::code::Code;
use crate::reply::Reply;
use krl_cache::RowsInPlace;
use krl_messages::Value;
use krl_modes::MAX_VALUE_BYTES;
use std::alloc::Global;

/// An entry of the index: its key, and a value of so many bytes.
#[repr(C)]
#[derive(Clone, Copy)]
pub struct Row {
    pub(crate) key: u64,
    pub(crate) length: u64,
    pub(crate) bytes: [u8; 32],
}

impl Row {
    /// No entry.
    pub(crate) fn blank() -> Row
        ensures { result ≡ row_of (0, []) }
    {
        Row {
            key: 0,
            length: 0,
            bytes: [0; 32],
        }
    }

    /// Only the key.
    pub(crate) fn of_key(key: u64) -> Row
        ensures { result ≡ row_of (key, []) }
    {
        Row {
            key,
            ..Row::blank()
        }
    }

    /// The entry's row: zeros follow the value's bytes.
    #[inline(always)]
    pub(crate) fn of(key: u64, value: &Value) -> Row
        ensures { result ≡ row_of (key, value.now) }
    {
        Row {
            key,
            length: value.bytes().len() as u64,
            bytes: value.padded(),
        }
    }

    /// The entry, if its value has at most 32 bytes.
    fn entry(&self) -> Option<(u64, Value)>
        ensures entry { IfSome result (λ e. e ≡ entry_of self.now) }
        ensures fits { IfSome result (λ _. HasValue self.now) }
        ensures long { IfNone result (max_value_bytes < self.now.length) }
    {
        if self.length > MAX_VALUE_BYTES as u64 {
            return None;
        }
        let value = Value::new(&self.bytes[..self.length as usize])?;
        Some((self.key, value))
    }
}

/// The entries of these rows, in their order.
///
/// # Errors
///
/// `BadValue`, with the row's place, if a value is too long; `OutOfMemory`.
pub(crate) fn entries_of(alloc: Global, rows: &[Row]) -> Result<Vec<(u64, Value)>, Reply>
    ensures fit { OnOk result (AllByRecursion HasValue rows.now) }
    ensures entries { IfOk result (λ entries. entries.items ≡ map entry_of rows.now) }
    ensures refused { IfErr result (RefusesRows rows.now) }
{
    let Ok(mut entries) = Vec::with_capacity(alloc, rows.len()) else {
        return Err(Reply::of(Code::OutOfMemory));
    };
    for i in 0..rows.len() {
        let Some(entry) = rows[i].entry() else {
            return Err(Reply::with(Code::BadValue, i as u64));
        };
        if entries.push(entry).is_err() {
            return Err(Reply::of(Code::OutOfMemory));
        }
    }
    Ok(entries)
}

/// The entries go into `rows`: Done, and their count; or TooShort with that, and none goes there.
pub(crate) fn copy_rows(found: RowsInPlace<'_>, rows: &mut [Row]) -> Reply
    ensures { Copies found.entry rows.old rows.new result }
{
    let count = found.count();
    if rows.len() < count {
        return Reply::with(Code::TooShort, count as u64);
    }
    let mut left = found;
    let mut i = 0;
    while let Some((key, value)) = left.pop_first() {
        rows[i] = Row::of(key, value);
        i += 1;
    }
    Reply::with(Code::Done, count as u64)
}
