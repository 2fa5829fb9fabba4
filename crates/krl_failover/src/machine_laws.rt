//! Laws of the machine of many servers over one fenced store: servers of earlier epochs continue
//! for ever, and only their changes are refused. Each function has an empty body: its contract is a
//! theorem.
ghost use Rattle.std.specs.Prelude.{◌≡◌, ℕ, Option, None};
ghost use Rattle.krl_messages.specs.Values.{Value};
ghost use Rattle.krl_machine.specs.Worlds.{IsCompatible, ScanIsRange, WritesOnce, NoAlarm};
ghost use Rattle.krl_machine.specs.Worlds.{IsBounded};
ghost use Rattle.krl_modes.specs.declared.part.RangePart.TheVariants as range;
ghost use Rattle.krl_failover.specs.Fenced.{Fenced};
ghost use Rattle.krl_failover.specs.Steps.{FencedReachable, FencedSteps};

/// No two clients hold incompatible parts at one point, whatever old servers send.
pub fn compatible()
    ensures { (index : ℕ → Option Value) (end : ℕ) (f : Fenced) → FencedReachable index end f
        → IsCompatible f.world }
{}

/// A scan that a client answers from its cache is that range of the store's index.
pub fn scans()
    ensures { (index : ℕ → Option Value) (end : ℕ) (f : Fenced) → FencedReachable index end f
        → ScanIsRange f.world }
{}

/// Each numbered write changed the store's index at most once, and once if its client learned that
/// it did, from whatever server.
pub fn once()
    ensures { (index : ℕ → Option Value) (end : ℕ) (f : Fenced) → FencedReachable index end f
        → WritesOnce index f.world }
{}

/// What a client believes is at most its row of the table of the latest server that ever served,
/// as that server continues.
pub fn bounded()
    ensures { (index : ℕ → Option Value) (end : ℕ) (f : Fenced) → FencedReachable index end f
        → IsBounded f.world }
{}

/// The store's server, which recovers while old servers continue, never finds two reports in
/// conflict.
pub fn no_alarm()
    ensures { (index : ℕ → Option Value) (end : ℕ) (f : Fenced) → FencedReachable index end f
        → NoAlarm f.world }
{}

/// An old server does continue: after a server has started in epoch 2, a client that is still in
/// epoch 1 comes to hold a lock that it did not hold.
pub fn goes_on()
    ensures { (f g : Fenced) × FencedReachable (λ q. None) 9 f × FencedSteps f g
        × (f.world.shared.epoch ≡ 2) × ((f.world.links 0).range 5 ≡ range.N)
        × (g.world.shared.epoch ≡ 2) × ((g.world.links 0).epoch ≡ 1)
        × ((g.world.links 0).range 5 ≡ range.S) }
{}

/// And one that had no time to serve comes to serve: after a server has started in epoch 3, that
/// of epoch 2 has the last report that it waits for.
pub fn serves_late()
    ensures { (f g : Fenced) × FencedReachable (λ q. None) 9 f × FencedSteps f g
        × (f.world.shared.epoch ≡ 3) × (f.bound ≡ 1)
        × (g.world.shared.epoch ≡ 3) × (g.bound ≡ 2) }
{}
