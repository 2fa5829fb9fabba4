//! What becomes of every world in good rounds: each function's contract is a law, and its body is
//! empty.
ghost use Rattle.krl_progress.specs.Laws.{RecoveryEndsIn, RoundsCanBeMade};
ghost use Rattle.krl_progress.specs.Writes.{WritesMoveOnIn, WritesAreAnsweredIn};
ghost use Rattle.krl_progress.specs.Writes.{WritesOutlastRecoveriesIn};
ghost use Rattle.krl_progress.specs.Answers.{AnswersAtOnce, GivesWay, CallbackFrees};
ghost use Rattle.krl_progress.specs.Blocks.{BlocksEndIn};
ghost use Rattle.krl_progress.specs.FirstWaits.{FirstWaitsEndIn};
ghost use Rattle.krl_progress.specs.Standstills.{NoStandstillIn};
ghost use Rattle.krl_progress.specs.Calm.{SomebodyMovesOnIn};
ghost use Rattle.krl_progress.specs.Locks.{LocksAreAnsweredIn, MannedWorldsAnswerIn};
ghost use Rattle.krl_progress.specs.Locks.{UndisturbedRoundsCanBeMade, SomebodyIsAnswered};
ghost use Rattle.krl_progress.specs.Pushes.{PushesArriveIn};
ghost use Rattle.krl_progress.specs.Requests.{RequestsAreKnown, PushesAreAwaited};
ghost use Rattle.krl_progress.specs.Requests.{RequestsAreRegistered};

/// After any past: if the server runs, and each client whose report is missing runs, the server
/// serves after five good rounds.
pub fn recovery_ends()
    ensures { RecoveryEndsIn 5 }
{}

/// A first waiter that can be answered once a message has been judged is answered in that very
/// step.
pub fn answers_at_once()
    ensures { AnswersAtOnce }
{}

/// When the last client that blocks a first waiter gives way, the waiter is answered in that very
/// step.
pub fn gives_way()
    ensures { GivesWay }
{}

/// In every reachable world: a callback to the last client that blocks a first waiter, and the
/// Release that answers it, bring the waiter its Grant or Absent.
pub fn callback_frees()
    ensures { CallbackFrees }
{}

/// After any past: a client whose write is outstanding accepts a further push within three good
/// rounds.
pub fn writes_move_on()
    ensures { WritesMoveOnIn 3 }
{}

/// From each reachable world good rounds can be made, as many as you like.
pub fn rounds_can_be_made()
    ensures { RoundsCanBeMade }
{}

/// From each manned world with room undisturbed good rounds can be made, as many as you like.
pub fn undisturbed_rounds_can_be_made()
    ensures { UndisturbedRoundsCanBeMade }
{}

/// In every reachable world: if the server runs, it and each client that runs in its epoch agree
/// on the client's last lock request.
pub fn requests_are_known()
    ensures { RequestsAreKnown }
{}

/// In every reachable world: a push that a client of the server's epoch has yet to accept is one
/// that the client waits for.
pub fn pushes_are_awaited()
    ensures { PushesAreAwaited }
{}

/// After any past: if the server serves, an outstanding write is answered within six good rounds,
/// if its client asks for no further lock meanwhile.
pub fn writes_are_answered()
    ensures { WritesAreAnsweredIn 6 }
{}

/// After any past: a push that a client of the server's epoch has yet to accept is accepted within
/// three good rounds.
pub fn pushes_arrive()
    ensures { PushesArriveIn 3 }
{}

/// After any past: no block of a first waiter lasts four good rounds in which nothing else moves
/// it: no push to the waiter or to the blocker, no change of the slot, no write and no pin of the
/// blocker there.
pub fn blocks_end()
    ensures { BlocksEndIn 4 }
{}

/// After any past: nobody stands first for four good rounds in which nothing else moves it: no push
/// to the waiter or to a client that blocks it, no change of the slot, no write and no pin of a
/// blocker there. So the waiter is answered, however many blocked it. Push numbers are not spent.
pub fn first_waits_end()
    ensures { FirstWaitsEndIn 4 }
{}

/// After any past: nobody waits through four good rounds in which no push comes, every lock request
/// is taken, no write is outstanding, nobody pins, and each client that holds or waits for
/// something runs. Push numbers are not spent.
pub fn no_standstill()
    ensures { NoStandstillIn 4 }
{}

/// After any past: if a client waits for a lock, some client accepts a push within nine good
/// rounds, if meanwhile the server serves, nobody asks for a further lock or pins, and each client
/// that holds or waits for something runs. Push numbers are not spent.
pub fn somebody_moves_on()
    ensures { SomebodyMovesOnIn 9 }
{}

/// After any past: nobody waits for a lock after 1161 good rounds in which the server serves,
/// nobody asks for a further lock, writes again or pins, and each client that holds or waits for
/// something runs. Push numbers are not spent.
pub fn locks_are_answered()
    ensures { LocksAreAnsweredIn 1161 }
{}

/// Somebody waits for a lock in such rounds, and is answered.
pub fn somebody_is_answered()
    ensures { SomebodyIsAnswered }
{}

/// In every reachable world: if the server runs, the incarnation of each request that was sent is
/// registered, or a later one of that client is.
pub fn requests_are_registered()
    ensures { RequestsAreRegistered }
{}

/// After any past: if the server serves, each client that holds or waits for something runs in its
/// epoch, and each registered client that has not left runs, then nobody waits for a lock after
/// 1161 good rounds in which nobody asks for a further lock, writes again or pins. Push numbers are
/// not spent.
pub fn manned_worlds_answer()
    ensures { MannedWorldsAnswerIn 1161 }
{}

/// After any past: if the server runs, and each client whose report is missing runs, an outstanding
/// write is answered within eleven good rounds, if its client asks for no further lock meanwhile.
pub fn writes_outlast_recoveries()
    ensures { WritesOutlastRecoveriesIn 11 }
{}
