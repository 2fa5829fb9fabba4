//! What holds of every world: each function's contract is a law, and its body is empty.
ghost use Rattle.krl_world.specs.States.{State};
ghost use Rattle.krl_world.specs.Steps.{IsReachable};
ghost use Rattle.krl_world.specs.Promises.{Headline, CanGoOn};
ghost use Rattle.krl_world.specs.Laws.{ReachableStays, NobodyAbove63, ServesOn, RecoveriesEnd};
ghost use Rattle.krl_world.specs.Laws.{BoundIsTable};
ghost use Rattle.krl_world.specs.Runs.{ScansSomewhere, ScansWhileDown, WritesSomewhere};
ghost use Rattle.krl_world.specs.Runs.{ComesThroughSomewhere};
ghost use Rattle.krl_world.specs.Bounds.{Bound, HasBound, IsBounded, HoldsOverRestarts};

/// After every list of steps no two clients hold incompatible parts at one point, each scan that is
/// answered from a cache is that range of the index, and each numbered write changed the index at
/// most once, and once if its client received Applied.
pub fn headline()
    ensures { (w : State) → IsReachable w → Headline w }
{}

/// Each run has a bound table.
pub fn bound_of_a_run()
    ensures { (w : State) → IsReachable w → (b : Bound) × HasBound w b }
{}

/// While a server serves, the bound table is the server's table.
pub fn bound_is_the_table()
    ensures { BoundIsTable }
{}

/// What clients believe, and what live pushes state, is within the bound table of each run; so is
/// what a recovering server receives and rebuilds, no message has an epoch above the durable one,
/// and no message alarms the server.
pub fn within_the_bound()
    ensures bounded { (w : State) (b : Bound) → HasBound w b → IsBounded w b }
    ensures restarts { (w : State) (b : Bound) → HasBound w b → HoldsOverRestarts w b }
{}

/// The first world is reachable, and each step and run leaves a reachable one.
pub fn stays_reachable()
    ensures { ReachableStays }
{}

/// A client number above 63 holds N everywhere.
pub fn nobody_above_63()
    ensures { NobodyAbove63 }
{}

/// Each step that is not refused can be taken: it has an answer, and a world that it leaves.
pub fn can_go_on()
    ensures { (w : State) → IsReachable w → CanGoOn w }
{}

/// As long as the server does not crash, it serves.
pub fn serves_on()
    ensures { ServesOn }
{}

/// Nobody gets anything by a restart: the table of the server that serves when a recovery ends is
/// at most the bound table until then, and at least what each client believes.
pub fn recoveries_end()
    ensures { RecoveriesEnd }
{}

/// Some run comes to a world in which a scan from a cache gives an entry.
pub fn scans_somewhere()
    ensures { ScansSomewhere }
{}

/// Some run comes to a world in which no server runs, and a scan from a cache gives an entry.
pub fn scans_while_down()
    ensures { ScansWhileDown }
{}

/// Some run comes to a world in which a client received Applied for its insert, and it stands
/// in the list of writes.
pub fn writes_somewhere()
    ensures { WritesSomewhere }
{}

/// Some run passes through a callback, a crash and a start of the server, Reports of both clients,
/// and a delete that is Applied.
pub fn comes_through_somewhere()
    ensures { ComesThroughSomewhere }
{}
