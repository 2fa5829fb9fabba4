//! All entries, as they lie.
ghost use Rattle.std.specs.Prelude.{◌≡◌, ◌<◌, length, slice_get, Some};
ghost use Rattle.krl_blocks.specs.Runs.{runs_of};

use crate::shelf::Shelf;

/// All entries of a map in key order, as runs of entries that lie side by side.
#[derive(Clone, Copy)]
pub struct Entries<'a, V> {
    // None if there is no map, and so no entry.
    pub(crate) shelf: Option<&'a Shelf<V>>,
}

impl<'a, V: Copy + Drop> Entries<'a, V> {
    /// How many runs there are.
    pub fn len(&self) -> usize
        ensures { result ≡ length (runs_of self.now) }
    {
        match self.shelf {
            None => 0,
            Some(shelf) => shelf.len(),
        }
    }

    /// The run there.
    pub fn get(&self, i: usize) -> &'a [(u64, V)]
        requires { i < length (runs_of self.now) }
        ensures { Some result.now ≡ slice_get (runs_of self.now) i }
    {
        match self.shelf {
            None => &[],
            Some(shelf) => shelf.get(i),
        }
    }
}
