//! Some slots side by side.
ghost use Rattle.std.specs.Prelude.{ℕ};
ghost use Rattle.krl_table.specs.Extents.{Lies};

/// The slots from the first one to the last; none if the last lies before the first.
#[derive(Clone, Copy)]
pub(crate) struct Extent {
    pub(crate) first: u64,
    pub(crate) last: u64,
}

impl Extent {
    /// No slots.
    pub(crate) fn nowhere() -> Extent {
        Extent {
            first: u64::MAX,
            last: 0,
        }
    }

    /// These slots, and the others as far as this one.
    pub(crate) fn including(self, slot: u64) -> Extent
        ensures kept { (n : ℕ) → Lies self n → Lies result n }
        ensures there { Lies result slot }
    {
        Extent {
            first: self.first.min(slot),
            last: self.last.max(slot),
        }
    }

    /// These slots, and the second one if the first is one of them.
    pub(crate) fn following(self, from: u64, to: u64) -> Extent
        ensures kept { (n : ℕ) → Lies self n → Lies result n }
        ensures there { Lies self from → Lies result to }
    {
        if self.first <= from && from <= self.last {
            self.including(to)
        } else {
            self
        }
    }
}
