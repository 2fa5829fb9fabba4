//! The two parts of a mode.
ghost use Rattle.std.specs.Prelude.{◌≡◌};
ghost use Rattle.krl_modes.specs.Parts.{range_at_most, key_at_most, ranges_compatible};
ghost use Rattle.krl_modes.specs.Parts.{keys_compatible, range_join, range_meet, key_join};
ghost use Rattle.krl_modes.specs.Parts.{key_meet};
ghost use Rattle.krl_modes.specs.Names.{range_part_name, key_part_name};
ghost use Rattle.krl_modes.specs.Orders.{IsPartialOrder, IsLeastUpperBound, IsGreatestLowerBound};
ghost use Rattle.krl_modes.specs.Orders.{IsCompatibility};

/// What a mode holds of a gap: the points between an entry and the one before it, and the entry's
/// own point. N lies below S and I, and both lie below X; S and I are not ordered.
///
/// The idea of a part for the gap is Lomet's (VLDB 1993) and the SQL Server guide's. Here it covers
/// the entry's own point too.
#[derive(Clone, Copy, Debug, PartialEq, Eq)]
pub enum RangePart {
    /// Nothing.
    N,
    /// The gap is read: nobody else may insert into it.
    S,
    /// The holder may insert into the gap, next to others that may.
    I,
    /// Only the holder reads the gap and inserts into it.
    X,
}

/// What a mode holds of an entry: N below S below U below X.
#[derive(Clone, Copy, Debug, PartialEq, Eq)]
pub enum KeyPart {
    /// Nothing.
    N,
    /// The entry is read, next to others that read it.
    S,
    /// The entry is read, and only its holder may change it afterwards.
    U,
    /// Only the holder reads and changes the entry.
    X,
}

// The tables have a row and a column for each part, in the order of the enums. A look-up has no
// branch that the processor would have to guess.

static RANGE_AT_MOST: [[bool; 4]; 4] = [
    [true, true, true, true],
    [false, true, false, true],
    [false, false, true, true],
    [false, false, false, true],
];

static RANGES_COMPATIBLE: [[bool; 4]; 4] = [
    [true, true, true, true],
    [true, true, false, false],
    [true, false, true, false],
    [true, false, false, false],
];

static RANGE_JOIN: [[RangePart; 4]; 4] = [
    [RangePart::N, RangePart::S, RangePart::I, RangePart::X],
    [RangePart::S, RangePart::S, RangePart::X, RangePart::X],
    [RangePart::I, RangePart::X, RangePart::I, RangePart::X],
    [RangePart::X, RangePart::X, RangePart::X, RangePart::X],
];

static RANGE_MEET: [[RangePart; 4]; 4] = [
    [RangePart::N, RangePart::N, RangePart::N, RangePart::N],
    [RangePart::N, RangePart::S, RangePart::N, RangePart::S],
    [RangePart::N, RangePart::N, RangePart::I, RangePart::I],
    [RangePart::N, RangePart::S, RangePart::I, RangePart::X],
];

static KEYS_COMPATIBLE: [[bool; 4]; 4] = [
    [true, true, true, true],
    [true, true, true, false],
    [true, true, false, false],
    [true, false, false, false],
];

impl RangePart {
    /// Whether the part lets its holder do no more than the other does.
    pub fn at_most(self, other: RangePart) -> bool
        ensures at_most { result ≡ range_at_most self other }
        ensures order { IsPartialOrder range_at_most }
    {
        RANGE_AT_MOST[self as usize][other as usize]
    }

    /// Whether two clients may hold these parts of one gap: N with all, S with S, I with I.
    pub fn compatible(self, other: RangePart) -> bool
        ensures compatible { result ≡ ranges_compatible self other }
        ensures relation { IsCompatibility range_at_most ranges_compatible }
    {
        RANGES_COMPATIBLE[self as usize][other as usize]
    }

    /// The least part above both.
    pub fn join(self, other: RangePart) -> RangePart
        ensures join { result ≡ range_join self other }
        ensures least { IsLeastUpperBound range_at_most self other result }
    {
        RANGE_JOIN[self as usize][other as usize]
    }

    /// The greatest part below both.
    pub fn meet(self, other: RangePart) -> RangePart
        ensures meet { result ≡ range_meet self other }
        ensures greatest { IsGreatestLowerBound range_at_most self other result }
    {
        RANGE_MEET[self as usize][other as usize]
    }

    /// The part's letter.
    pub fn name(self) -> &'static str
        ensures { result.now ≡ range_part_name self }
    {
        match self {
            RangePart::N => "N",
            RangePart::S => "S",
            RangePart::I => "I",
            RangePart::X => "X",
        }
    }
}

impl KeyPart {
    /// Whether the part lets its holder do no more than the other does.
    pub fn at_most(self, other: KeyPart) -> bool
        ensures at_most { result ≡ key_at_most self other }
        ensures order { IsPartialOrder key_at_most }
    {
        self as u8 <= other as u8
    }

    /// Whether two clients may hold these parts of one entry: N with all, S with S and U.
    pub fn compatible(self, other: KeyPart) -> bool
        ensures compatible { result ≡ keys_compatible self other }
        ensures relation { IsCompatibility key_at_most keys_compatible }
    {
        KEYS_COMPATIBLE[self as usize][other as usize]
    }

    /// The greater of the two.
    pub fn join(self, other: KeyPart) -> KeyPart
        ensures join { result ≡ key_join self other }
        ensures least { IsLeastUpperBound key_at_most self other result }
    {
        if self.at_most(other) { other } else { self }
    }

    /// The lesser of the two.
    pub fn meet(self, other: KeyPart) -> KeyPart
        ensures meet { result ≡ key_meet self other }
        ensures greatest { IsGreatestLowerBound key_at_most self other result }
    {
        if self.at_most(other) { self } else { other }
    }

    /// The part's letter.
    pub fn name(self) -> &'static str
        ensures { result.now ≡ key_part_name self }
    {
        match self {
            KeyPart::N => "N",
            KeyPart::S => "S",
            KeyPart::U => "U",
            KeyPart::X => "X",
        }
    }
}
