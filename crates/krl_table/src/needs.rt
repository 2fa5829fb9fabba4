//! What a mode lets its holder do.
ghost use Rattle.std.specs.Prelude.{◌≡◌};
ghost use Rattle.krl_modes.specs.Modes.{range_of, key_of};
ghost use Rattle.krl_modes.specs.Parts.{lets_insert, is_range_X, is_key_X};

use krl_modes::{KeyPart, Mode, RangePart};

/// Whether its holder may insert.
pub(crate) fn lets_insert(mode: Mode) -> bool
    ensures { result ≡ lets_insert (range_of mode) }
{
    let (range, _) = mode.parts();
    RangePart::I.at_most(range)
}

/// Whether only its holder has the gap.
pub(crate) fn is_range_x(mode: Mode) -> bool
    ensures { result ≡ is_range_X (range_of mode) }
{
    let (range, _) = mode.parts();
    RangePart::X.at_most(range)
}

/// Whether only its holder has the entry.
pub(crate) fn is_key_x(mode: Mode) -> bool
    ensures { result ≡ is_key_X (key_of mode) }
{
    let (_, key) = mode.parts();
    KeyPart::X.at_most(key)
}
