//! What holds of leases: each function's contract is a law, and its body is empty.
ghost use Rattle.krl_leases.specs.Laws.{EvictedAnswerNothing, EvictsSomewhere, SteadyAgree};

/// After an eviction, no check of the evicted incarnation succeeds.
pub fn evicted_answer_nothing()
    ensures { EvictedAnswerNothing }
{}

/// The premise on clocks is met by clocks that go steadily.
pub fn steady_agree()
    ensures { SteadyAgree }
{}

/// Some client answers, and is evicted later.
pub fn evicts_somewhere()
    ensures { EvictsSomewhere }
{}
