//! The thirteen modes.
ghost use Rattle.std.specs.Prelude.{◌≡◌, ◌↔◌, IfSome, IsNone};
ghost use Rattle.krl_modes.specs.Parts.{range_join, key_join, range_meet, key_meet};
ghost use Rattle.krl_modes.specs.Modes.{range_of, key_of, at_or_above, at_most, compatible, join};
ghost use Rattle.krl_modes.specs.Modes.{meet, cap, needs_entry};
ghost use Rattle.krl_modes.specs.Names.{mode_of, mode_name, mode_named};
ghost use Rattle.krl_modes.specs.Orders.{IsPartialOrder, IsLeastUpperBound, IsGreatestLowerBound};
ghost use Rattle.krl_modes.specs.Orders.{IsCompatibility};
ghost use Rattle.krl_modes.specs.Laws.{HasParts, HasPartsCorrected, IsNoMode, IsLeastModeAbove};
ghost use Rattle.krl_modes.specs.Laws.{IsGreatestBeside, ReadsItsKey, IsOnlyNamed};
ghost use Rattle.krl_modes.specs.declared.mode.Mode.{Mode};

use crate::part::{KeyPart, RangePart};

/// What a client holds of a slot, or asks of it: a range part for the gap below the slot's entry,
/// and a key part for the entry. A mode is named by both parts, such as RangeS-U, or by only the
/// key part if it holds nothing of the gap.
///
/// S, U, X, RangeS-S, RangeS-U, RangeI-N and RangeX-X are the published modes of the SQL Server
/// guide's table, and RangeI-S, RangeI-U, RangeI-X, RangeX-S and RangeX-U its conversion modes. N
/// is the absence of a lock.
#[derive(Clone, Copy, Debug, PartialEq, Eq)]
pub enum Mode {
    /// No lock.
    N,
    /// The entry is read.
    S,
    /// The entry is read, and may be changed next.
    U,
    /// The entry is changed.
    X,
    /// The gap and the entry are read.
    RangeSS,
    /// The gap is read, and the entry may be changed next.
    RangeSU,
    /// The gap may be inserted into.
    RangeIN,
    /// The gap may be inserted into, and the entry is read.
    RangeIS,
    /// The gap may be inserted into, and the entry may be changed next.
    RangeIU,
    /// The gap may be inserted into, and the entry is changed.
    RangeIX,
    /// Only the holder has the gap, and the entry is read.
    RangeXS,
    /// Only the holder has the gap, and the entry may be changed next.
    RangeXU,
    /// Only the holder has the gap and the entry.
    RangeXX,
}

// The least mode at or above each pair of parts: a row for each range part, in the order N, S, I,
// X, and a column for each key part, in the order N, S, U, X.
static AT_OR_ABOVE: [[Mode; 4]; 4] = [
    [Mode::N, Mode::S, Mode::U, Mode::X],
    [Mode::RangeSS, Mode::RangeSS, Mode::RangeSU, Mode::RangeXX],
    [Mode::RangeIN, Mode::RangeIS, Mode::RangeIU, Mode::RangeIX],
    [Mode::RangeXS, Mode::RangeXS, Mode::RangeXU, Mode::RangeXX],
];

impl Mode {
    /// Every mode, in the order of the tables.
    pub const ALL: [Mode; 13] = [
        Mode::N,
        Mode::S,
        Mode::U,
        Mode::X,
        Mode::RangeSS,
        Mode::RangeSU,
        Mode::RangeIN,
        Mode::RangeIS,
        Mode::RangeIU,
        Mode::RangeIX,
        Mode::RangeXS,
        Mode::RangeXU,
        Mode::RangeXX,
    ];

    /// The modes that the SQL Server guide's table compares, in the order of the tables.
    pub const PUBLISHED: [Mode; 7] = [
        Mode::S,
        Mode::U,
        Mode::X,
        Mode::RangeSS,
        Mode::RangeSU,
        Mode::RangeIN,
        Mode::RangeXX,
    ];

    /// The mode's two parts. If the range part is S or X, the key part is at least S.
    pub fn parts(self) -> (RangePart, KeyPart)
        ensures parts { result ≡ (range_of self, key_of self) }
        ensures own { mode_of result.0 result.1 ≡ Some self }
        ensures reads { ReadsItsKey self }
    {
        match self {
            Mode::N => (RangePart::N, KeyPart::N),
            Mode::S => (RangePart::N, KeyPart::S),
            Mode::U => (RangePart::N, KeyPart::U),
            Mode::X => (RangePart::N, KeyPart::X),
            Mode::RangeSS => (RangePart::S, KeyPart::S),
            Mode::RangeSU => (RangePart::S, KeyPart::U),
            Mode::RangeIN => (RangePart::I, KeyPart::N),
            Mode::RangeIS => (RangePart::I, KeyPart::S),
            Mode::RangeIU => (RangePart::I, KeyPart::U),
            Mode::RangeIX => (RangePart::I, KeyPart::X),
            Mode::RangeXS => (RangePart::X, KeyPart::S),
            Mode::RangeXU => (RangePart::X, KeyPart::U),
            Mode::RangeXX => (RangePart::X, KeyPart::X),
        }
    }

    /// The mode of these parts; None for the three pairs that are no mode: a range part S with a
    /// key part N or X, and a range part X with a key part N.
    pub fn of(range: RangePart, key: KeyPart) -> Option<Mode>
        ensures of { result ≡ mode_of range key }
        ensures parts { IfSome result (λ m. HasParts m range key) }
        ensures none { IsNone result ↔ IsNoMode range key }
    {
        match (range, key) {
            (RangePart::S, KeyPart::N | KeyPart::X) | (RangePart::X, KeyPart::N) => None,
            _ => Some(Mode::at_or_above(range, key)),
        }
    }

    /// The least mode whose parts are at least these: the mode of these parts if there is one,
    /// and otherwise RangeS-S for S and N, RangeX-X for S and X, RangeX-S for X and N.
    pub fn at_or_above(range: RangePart, key: KeyPart) -> Mode
        ensures mode { result ≡ at_or_above range key }
        ensures least { IsLeastModeAbove range key result }
    {
        AT_OR_ABOVE[range as usize][key as usize]
    }

    /// Whether each part of the mode is at most the other's: it lets its holder do no more.
    pub fn at_most(self, other: Mode) -> bool
        ensures at_most { result ≡ at_most self other }
        ensures order { IsPartialOrder at_most }
    {
        let (range, key) = self.parts();
        let (other_range, other_key) = other.parts();
        // Not `&&`, which would have the processor guess.
        range.at_most(other_range) & key.at_most(other_key)
    }

    /// Whether two clients may hold these modes on one slot: both parts are compatible.
    pub fn compatible(self, other: Mode) -> bool
        ensures compatible { result ≡ compatible self other }
        ensures relation { IsCompatibility at_most compatible }
    {
        let (range, key) = self.parts();
        let (other_range, other_key) = other.parts();
        // Not `&&`, as in `at_most`.
        range.compatible(other_range) & key.compatible(other_key)
    }

    /// The least mode above both. Its parts are the least above the parts of both. If those are S
    /// and X, as for RangeS-S and X, it is RangeX-X.
    pub fn join(self, other: Mode) -> Mode
        ensures join { result ≡ join self other }
        ensures least { IsLeastUpperBound at_most self other result }
        ensures parts { HasPartsCorrected result
            (range_join (range_of self) (range_of other))
            (key_join (key_of self) (key_of other)) }
    {
        let (range, key) = self.parts();
        let (other_range, other_key) = other.parts();
        Mode::at_or_above(range.join(other_range), key.join(other_key))
    }

    /// The greatest mode below both. Its parts are the greatest below the parts of both.
    pub fn meet(self, other: Mode) -> Mode
        ensures meet { result ≡ meet self other }
        ensures greatest { IsGreatestLowerBound at_most self other result }
        ensures parts { HasParts result
            (range_meet (range_of self) (range_of other))
            (key_meet (key_of self) (key_of other)) }
    {
        let (range, key) = self.parts();
        let (other_range, other_key) = other.parts();
        Mode::at_or_above(range.meet(other_range), key.meet(other_key))
    }

    /// The greatest mode that is compatible with this one: what another client may keep next to it.
    /// A mode is at most this one exactly if it is compatible with `self`.
    pub fn cap(self) -> Mode
        ensures cap { result ≡ cap self }
        ensures greatest { IsGreatestBeside self result }
        ensures below { (m : Mode) → at_most m result ≡ compatible m self }
    {
        match self {
            Mode::N => Mode::RangeXX,
            Mode::S => Mode::RangeXU,
            Mode::U => Mode::RangeXS,
            Mode::X | Mode::RangeIX => Mode::RangeIN,
            Mode::RangeSS => Mode::RangeSU,
            Mode::RangeSU => Mode::RangeSS,
            Mode::RangeIN => Mode::RangeIX,
            Mode::RangeIS => Mode::RangeIU,
            Mode::RangeIU => Mode::RangeIS,
            Mode::RangeXS => Mode::U,
            Mode::RangeXU => Mode::S,
            Mode::RangeXX => Mode::N,
        }
    }

    /// Whether the mode asks only for an entry, so that there has to be one: S, U or X. Such a
    /// lock is answered `Absent` if there is no entry.
    pub fn needs_entry(self) -> bool
        ensures { result ≡ needs_entry self }
    {
        matches!(self, Mode::S | Mode::U | Mode::X)
    }

    /// The mode's name, such as RangeS-U. No other mode has it.
    pub fn name(self) -> &'static str
        ensures name { result.now ≡ mode_name self }
        ensures own { mode_named result.now ≡ Some self }
        ensures only { IsOnlyNamed self result.now }
    {
        match self {
            Mode::N => "N",
            Mode::S => "S",
            Mode::U => "U",
            Mode::X => "X",
            Mode::RangeSS => "RangeS-S",
            Mode::RangeSU => "RangeS-U",
            Mode::RangeIN => "RangeI-N",
            Mode::RangeIS => "RangeI-S",
            Mode::RangeIU => "RangeI-U",
            Mode::RangeIX => "RangeI-X",
            Mode::RangeXS => "RangeX-S",
            Mode::RangeXU => "RangeX-U",
            Mode::RangeXX => "RangeX-X",
        }
    }

    /// The mode of this name, which is the whole text, letter for letter; None for every other
    /// text.
    pub fn from_name(text: &[u8]) -> Option<Mode>
        ensures mode { result ≡ mode_named text.now }
        ensures named { IfSome result (λ m. text.now ≡ mode_name m) }
        ensures found { (m : Mode) → text.now ≡ mode_name m → result ≡ Some m }
    {
        Mode::ALL
            .iter()
            .copied()
            .find(|mode| text == mode.name().as_bytes())
    }
}
