//! Where a search begins.
ghost use Rattle.std.specs.Prelude.{◌≡◌};

/// Where a search begins: it looks at this block first, and in its block at this entry, and at what
/// stands after each. A search finds the same wherever it begins.
#[derive(Clone, Copy)]
pub struct Finger {
    pub block: usize,
    pub entry: usize,
}

impl Finger {
    /// A search begins at the first entry.
    pub fn new() -> Finger
        ensures { result ≡ record { block = 0; entry = 0 } }
    {
        Finger { block: 0, entry: 0 }
    }
}
