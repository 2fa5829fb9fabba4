//! What every form of a cache does.
ghost use Rattle.std.specs.Prelude.{◌≡◌, true, IfOk, OnOk, OnErr, MatchResult};
ghost use Rattle.krl_messages.specs.Holdings.{has_its_value, have_values};
ghost use Rattle.krl_cache.specs.Beliefs as beliefs;
ghost use Rattle.krl_cache.specs.Laws as laws;
ghost use Rattle.krl_cache.specs.Kept.{Describes};

use crate::scanned::Scanned;
use krl_messages::{Holding, Holdings, Pieces, Value};
use krl_modes::{KeyPart, Mode, RangePart, Span};
use std::alloc::{AllocError, Global};

/// What a client believes of the index and of its locks: a range part at each point, and key parts
/// with values at some points. Points past END are believed N.
pub trait Belief {
    /// The range part, the key part and the value at each point.
    ghost believed: { Self → beliefs.Belief };

    /// The range part at the point.
    fn range_at(&self, p: u64) -> RangePart
        ensures { result ≡ (believed self.now).range_at p };

    /// The key part at the point.
    fn key_at(&self, p: u64) -> KeyPart
        ensures { result ≡ (believed self.now).key_at p };

    /// The value of the entry at the point.
    fn value_at(&self, p: u64) -> Option<Value>
        ensures { result ≡ (believed self.now).value_at p };

    /// Takes a holding over: its range part on its span, and in place of the entries of the span
    /// its own, if its key part is at least S.
    ///
    /// # Errors
    ///
    /// `AllocError` if memory is refused. Nothing has changed then.
    fn adopt(&mut self, holding: Holding) -> Result<(), AllocError>
        requires { has_its_value holding ≡ true }
        ensures ok { OnOk result (believed self.new ≡ beliefs.adopt holding (believed self.old)) }
        ensures belief { OnOk result
            (laws.IsBelief (believed self.old) → laws.IsBelief (believed self.new)) }
        ensures err { OnErr result (self.new ≡ self.old) };

    /// Takes several holdings over, one after another, or none of them.
    ///
    /// # Errors
    ///
    /// `AllocError` if memory is refused. Nothing has changed then.
    fn adopt_all(&mut self, holdings: &Holdings) -> Result<(), AllocError>
        requires { have_values holdings.now ≡ true }
        ensures ok { OnOk result
            (believed self.new ≡ beliefs.adopt_all holdings.now (believed self.old)) }
        ensures belief { OnOk result
            (laws.IsBelief (believed self.old) → laws.IsBelief (believed self.new)) }
        ensures err { OnErr result (self.new ≡ self.old) };

    /// Takes the meet of both parts at each point of the span. An entry whose key part becomes N
    /// goes.
    ///
    /// # Errors
    ///
    /// `AllocError` if memory is refused. Nothing has changed then.
    fn lower(&mut self, span: Span, keep: Mode) -> Result<(), AllocError>
        ensures ok { OnOk result (believed self.new ≡ beliefs.lower span keep (believed self.old)) }
        ensures belief { OnOk result
            (laws.IsBelief (believed self.old) → laws.IsBelief (believed self.new)) }
        ensures err { OnErr result (self.new ≡ self.old) };

    /// The entries of the span, if each of its points is known; otherwise the least point that is
    /// not.
    ///
    /// # Errors
    ///
    /// `AllocError` if the memory for the rows is refused. Each point of the span is known then.
    fn scan(&self, alloc: Global, span: Span) -> Result<Scanned, AllocError>
        ensures { MatchResult result (beliefs.Scans (believed self.now) span)
            (λ _. beliefs.CoversAll (believed self.now) span) };

    /// Range parts on spans and key parts at points, which state exactly what is believed.
    ///
    /// # Errors
    ///
    /// `AllocError` if the memory for a list is refused.
    fn pieces(&self, alloc: Global) -> Result<Pieces, AllocError>
        ensures { IfOk result (λ ps. Describes ps (believed self.now)) };
}
