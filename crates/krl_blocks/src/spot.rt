//! Where a block lies.

/// Where a block lies on its shelf.
#[derive(Clone, Copy)]
pub struct Spot {
    /// Which place it has: the place p is the 64 cells from 64 p on.
    pub place: usize,
    /// How many entries it has, at most 64: they are the first cells of its place.
    pub len: usize,
}
