//! What a client holds of a slot.
ghost use Rattle.std.specs.Prelude.{◌≡◌, ◌+◌};
ghost use Rattle.krl_messages.specs.Holdings.{has_its_value};

use crate::value::Value;
use krl_modes::{END, KeyPart, Mode, Span};

/// What the server's table gives a client of one slot, when the message was made.
#[derive(Clone, Copy, PartialEq, Eq)]
pub struct Holding {
    /// The slot's span: the points after the entry before, up to the slot itself, which is its last
    /// point.
    pub span: Span,
    /// The client's mode there: its range part covers the whole span, its key part the last point.
    pub mode: Mode,
    /// The entry's value. It is present exactly if the key part is at least S and the slot is
    /// not END. A client ignores a push that breaks this rule.
    pub value: Option<Value>,
}

impl Holding {
    /// The slot: the last point of the span, from 0 to END.
    pub fn slot(self) -> u64
        ensures { result + 1 ≡ self.span.hi }
    {
        self.span.last()
    }

    /// Whether the value is there exactly if it has to be: if the key part is at least S and
    /// the slot is not END.
    pub fn has_its_value(self) -> bool
        ensures { result ≡ has_its_value self }
    {
        let (_range, key) = self.mode.parts();
        let is_read = KeyPart::S.at_most(key) && self.slot() != END;
        self.value.is_some() == is_read
    }
}
