//! Where a point stands.
ghost use Rattle.std.specs.Prelude.{ℕ, List, MatchOption};
ghost use Rattle.krl_blocks.specs.Entries.{KeysRise, NoKey, HasEntry, IsFound};

/// Where a point stands among entries in key order.
#[derive(Clone, Copy)]
pub struct Found<'a, V> {
    /// The last key below the point.
    pub before: Option<u64>,
    /// The entries from the first at or above the point, as far as its block goes: there is at
    /// least one, if there is any.
    pub run: &'a [(u64, V)],
}

impl<'a, V: Copy> Found<'a, V> {
    /// The value of the key that was looked for; None if no entry has it.
    pub fn value_of(self, key: u64) -> Option<V>
        ensures { (es : List (ℕ × V)) → KeysRise es → IsFound es key self.entry.before self.entry.run.now
            → MatchOption result (NoKey key es) (λ v. HasEntry es key v) }
    {
        match self.run.first() {
            Some(entry) if entry.0 == key => Some(entry.1),
            _ => None,
        }
    }
}
