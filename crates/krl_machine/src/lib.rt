//! The lock protocol as a pure machine, and what holds in each of its reachable worlds. Each
//! function has an empty body: its contract is a theorem.
#![tactic(auto)]

ghost use Rattle.std.specs.Prelude.{◌≡◌, ℕ, Option, Some, None, IsTrue, ◌↔◌};
ghost use Rattle.krl_modes.specs.declared.part.RangePart.{RangePart};
ghost use Rattle.krl_modes.specs.declared.part.RangePart.TheVariants as range;
ghost use Rattle.krl_modes.specs.declared.part.KeyPart.{KeyPart};
ghost use Rattle.krl_modes.specs.declared.mode.Mode.{Mode};
ghost use Rattle.krl_modes.specs.declared.point.TheConstants.{END};
ghost use Rattle.krl_modes.specs.Parts.{range_at_most, key_at_most, ranges_compatible};
ghost use Rattle.krl_modes.specs.Parts.{keys_compatible};
ghost use Rattle.krl_modes.specs.Modes.{range_of, key_of, at_or_above};
ghost use Rattle.krl_modes.specs.Names.{mode_of};
ghost use Rattle.krl_messages.specs.Values.{Value};
ghost use Rattle.krl_machine.specs.Modes.{RangeAtMost, KeyAtMost, RangesAgree, KeysAgree, IsMode};
ghost use Rattle.krl_machine.specs.Worlds.{World, Step, Reachable, IsCompatible, IsBounded};
ghost use Rattle.krl_machine.specs.Worlds.{ScanIsIndex, ScanIsRange, NoAlarm, Restarts};
ghost use Rattle.krl_machine.specs.Worlds.{BoundStays, WritesOnce};

/// The inequalities of this crate state what the tables of the modes state.
pub fn weights()
    ensures ranges { (a b : RangePart) → IsTrue (range_at_most a b) ↔ RangeAtMost a b }
    ensures keys { (a b : KeyPart) → IsTrue (key_at_most a b) ↔ KeyAtMost a b }
    ensures compatible_ranges { (a b : RangePart)
        → IsTrue (ranges_compatible a b) ↔ RangesAgree a b }
    ensures compatible_keys { (a b : KeyPart) → IsTrue (keys_compatible a b) ↔ KeysAgree a b }
    ensures modes { (m : Mode) → IsMode (range_of m) (key_of m) }
    ensures parts { (a : RangePart) (k : KeyPart) → IsMode a k
        → mode_of a k ≡ Some (at_or_above a k) }
{}

/// No two clients hold incompatible parts at one point, whatever is lost, repeated, reordered or
/// crashes.
pub fn compatible()
    ensures { (index : ℕ → Option Value) (end : ℕ) (w : World) → Reachable index end w
        → IsCompatible w }
{}

/// What a client believes is at most its row of the table of the last moment at which a server
/// served.
pub fn bounded()
    ensures { (index : ℕ → Option Value) (end : ℕ) (w : World) → Reachable index end w
        → IsBounded w }
{}

/// A scan that a client answers from its cache is that range of the index.
pub fn scans()
    ensures { (index : ℕ → Option Value) (end : ℕ) (w : World) → Reachable index end w
        → ScanIsRange w }
{}

/// And so point by point.
pub fn scans_points()
    ensures { (index : ℕ → Option Value) (end : ℕ) (w : World) → Reachable index end w
        → ScanIsIndex w }
{}

/// No report is in conflict with the rows that were rebuilt from others.
pub fn no_alarm()
    ensures { (index : ℕ → Option Value) (end : ℕ) (w : World) → Reachable index end w → NoAlarm w }
{}

/// Each numbered write changed the index at most once, and once if its client learned that it did.
pub fn once()
    ensures { (index : ℕ → Option Value) (end : ℕ) (w : World) → Reachable index end w
        → WritesOnce index w }
{}

/// Live pushes, reports and rebuilt rows lie within the bound, and no message has an epoch above
/// the durable one.
pub fn restarts()
    ensures { (index : ℕ → Option Value) (end : ℕ) (w : World) → Reachable index end w
        → Restarts w }
{}

/// While nobody serves, the index stands still, and a bound changes only to a blank one, of a
/// client that comes or goes.
pub fn bound_stays()
    ensures { (w v : World) → Step w v → BoundStays w v }
{}

/// The same as `compatible` at the product's END.
pub fn compatible_at_end()
    ensures { (index : ℕ → Option Value) (w : World) → Reachable index END w → IsCompatible w }
{}

/// The steps' conditions can be met: in some reachable world a client holds a lock.
pub fn can_hold()
    ensures { (w : World) × Reachable (λ q. None) 9 w × ((w.links 0).range 5 ≡ range.S) }
{}
