//! What holds of a server whose host does what its lease table answers: each function's contract is
//! a law, and its body is empty.
ghost use Rattle.krl_lease_table.specs.Laws.{EvictedAnswerNothing, EvictsSomewhere, StartsAsStored};

/// An incarnation that was evicted answers nothing any more, whichever calls the host makes.
pub fn evicted_answer_nothing()
    ensures { EvictedAnswerNothing }
{}

/// Some client answers by terms that the table gave, and is evicted later.
pub fn evicts_somewhere()
    ensures { EvictsSomewhere }
{}

/// A server that opens its table begins as that law asks for.
pub fn starts_as_stored()
    ensures { StartsAsStored }
{}
