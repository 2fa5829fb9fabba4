//! Lengths of leases.
ghost use Rattle.std.specs.Prelude.{◌≡◌, min};
ghost use Rattle.krl_leases.specs.Lengths as lengths;

/// The moment that never comes, and the length of what does not end.
pub const FOR_EVER: u64 = u64::MAX;

/// What a server grants.
#[derive(Clone, Copy, Debug, PartialEq, Eq)]
pub struct Terms {
    /// The length of each lease, in nanoseconds: `FOR_EVER` if the server has no leases.
    pub length: u64,
    /// How much further the server's clock may go than a client's meanwhile, in percent.
    pub drift: u32,
}

/// A length with the drift, rounded up; `FOR_EVER` if that is too much for a number.
#[tactic(auto, unfolding(crate::specs::Lengths::stretched))]
fn stretched(length: u64, drift: u32) -> u64
    ensures { result ≡ min (lengths.stretched drift length) FOR_EVER }
{
    let stretched = (u128::from(length) * (100 + u128::from(drift)) + 99) / 100;
    stretched.min(u128::from(FOR_EVER)) as u64
}

impl Terms {
    /// When no lease of this length runs any more that began at this moment or before.
    pub(crate) fn end_of(self, now: u64, length: u64) -> u64
        ensures { result ≡ lengths.end_of self.drift now length }
    {
        now.saturating_add(stretched(length, self.drift))
    }
}
