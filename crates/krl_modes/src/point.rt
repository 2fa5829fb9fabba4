//! Points.
ghost use Rattle.krl_modes.specs.PointSets.{last_point, past_points};
ghost use Rattle.std.specs.Prelude.{◌≡◌, ◌≤◌, IsSome, IfSome, ◌↔◌};

use std::marker::Model;

/// The last point. It ends the last gap and is never a key.
pub const END: u64 = 9223372036854775807;

/// One past the last point: where the longest span ends.
pub const TOP: u64 = 9223372036854775808;

/// A place in the order of keys: a number from 0 to END. Each number below END may be a key.
#[derive(Clone, Copy, Debug, Default, PartialEq, Eq, PartialOrd, Ord)]
pub struct Point {
    at: u64,
}

impl Model for Point {
    ghost use Rattle.std.specs.Prelude.{ℕ, ◌≤◌};
    ghost use Rattle.krl_modes.specs.declared.point.TheConstants.{END};

    ghost Value = { ℕ };

    ghost view = { λ p. p.at };

    ghost invariant = { λ p. p.at ≤ END };

    ghost inverse = { λ n. record { at = n } };
}

impl Point {
    /// The point of this number; None above END.
    pub fn new(at: u64) -> Option<Point>
        ensures point { IfSome result (λ p. p ≡ at) }
        ensures in_range { IsSome result ↔ (at ≤ END) }
    {
        if at <= END { Some(Point { at }) } else { None }
    }

    /// The point's number, from 0 to END.
    pub fn get(self) -> u64
        ensures number { result ≡ self }
        ensures in_range { result ≤ END }
        ensures last { END ≡ last_point }
        ensures past { TOP ≡ past_points }
    {
        self.at
    }
}
