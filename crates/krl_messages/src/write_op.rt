//! Writes.
ghost use Rattle.std.specs.Prelude.{◌≡◌};
ghost use Rattle.krl_messages.specs.Writes.{op_key, can_seize};

use crate::value::Value;

/// A change of one entry of the index. A key that may be an entry lies below END, the last point.
#[derive(Clone, Copy, PartialEq, Eq)]
pub enum WriteOp {
    /// Adds an entry where there is none.
    Insert {
        /// The new entry's key.
        key: u64,
        /// The new entry's value.
        value: Value,
    },
    /// Gives an entry another value.
    Put {
        /// The entry's key.
        key: u64,
        /// The value that it is to have.
        value: Value,
    },
    /// Takes an entry away.
    Delete {
        /// The entry's key.
        key: u64,
    },
}

impl WriteOp {
    /// The key that the write names: any number, since a stranger may have sent it.
    pub fn key(self) -> u64
        ensures { result ≡ op_key self }
    {
        match self {
            WriteOp::Insert { key, .. } | WriteOp::Put { key, .. } | WriteOp::Delete { key } => key,
        }
    }

    /// Whether the write can seize the lock that it needs, if that is free: an insert and a put
    /// need one slot, a delete needs two and seizes neither.
    pub fn can_seize(self) -> bool
        ensures { result ≡ can_seize self }
    {
        match self {
            WriteOp::Insert { .. } | WriteOp::Put { .. } => true,
            WriteOp::Delete { .. } => false,
        }
    }
}
