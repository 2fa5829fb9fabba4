//! A table of a database whose rows clients of krl keep in memory, while any transaction of the
//! database may change it: locks of the database alone keep what a reader answers from memory the
//! committed table. Each function has an empty body: its contract is a theorem.
#![tactic(auto)]

ghost use Rattle.krl_locked_table.specs.Promises.{AnswersAreTable, RangesAreTable};
ghost use Rattle.krl_locked_table.specs.Promises.{AnswersSomewhere};

/// What a read takes from memory is the committed table at one moment of the read, the same for all
/// of its rows.
pub fn answers_are_table()
    ensures { AnswersAreTable }
{}

/// A range that a read takes from memory is that range of the committed table at one moment of the
/// read.
pub fn ranges_are_table()
    ensures { RangesAreTable }
{}

/// The laws are not empty: a reader answers from memory before and after the agent gives up what it
/// has, while a transaction waits for nobody, and after the agent was replaced.
pub fn answers_somewhere()
    ensures { AnswersSomewhere }
{}
