//! What becomes of every host in good rounds, in which it keeps its notes, sends, and hands over
//! what was sent: each function's contract is a law, and its body is empty.
ghost use Rattle.krl_progress.specs.HostLaws.{HostRecoveryEndsIn, HostAnswersWritesIn};
ghost use Rattle.krl_progress.specs.HostLaws.{HostWritesOutlastRecoveriesIn, HostAnswersLocksIn};
ghost use Rattle.krl_progress.specs.HostLaws.{HostRoundsCanBeMade};
ghost use Rattle.krl_progress.specs.HostLaws.{HostUndisturbedRoundsCanBeMade, HostAnswersSomebody};

/// After any past: if the host runs, and each client whose report its server misses, the server
/// serves after five good rounds.
pub fn recovery_ends()
    ensures { HostRecoveryEndsIn 5 }
{}

/// After any past: if the server serves, an outstanding write is answered within six good rounds,
/// if its client asks for no further lock meanwhile.
pub fn writes_are_answered()
    ensures { HostAnswersWritesIn 6 }
{}

/// After any past: if the host runs, and each client whose report its server misses, an outstanding
/// write is answered within eleven good rounds, if its client asks for no further lock meanwhile.
pub fn writes_outlast_recoveries()
    ensures { HostWritesOutlastRecoveriesIn 11 }
{}

/// After any past: nobody waits for a lock after 1161 good rounds in which the server serves,
/// nobody asks for a further lock, writes again or pins, and each client that holds or waits for
/// something runs. Push numbers are not spent.
pub fn locks_are_answered()
    ensures { HostAnswersLocksIn 1161 }
{}

/// From each world of hosts that is reached good rounds can be made, as many as you like, if the
/// host runs.
pub fn rounds_can_be_made()
    ensures { HostRoundsCanBeMade }
{}

/// From each manned world of hosts with room undisturbed good rounds can be made, as many as you
/// like.
pub fn undisturbed_rounds_can_be_made()
    ensures { HostUndisturbedRoundsCanBeMade }
{}

/// Somebody waits for a lock in such rounds of a host, and is answered.
pub fn somebody_is_answered()
    ensures { HostAnswersSomebody }
{}
