//! A table of a database whose rows clients of krl keep in memory, while any transaction of the
//! database may change it: what a reader answers from memory is the committed table. Each function
//! has an empty body: its contract is a theorem.
#![tactic(auto)]

ghost use Rattle.krl_cached_table.specs.Promises.{AnswersAreTable, RangesAreTable};
ghost use Rattle.krl_cached_table.specs.Promises.{AnswersSomewhere};
ghost use Rattle.krl_cached_table.specs.Locks.{LocksAreCompatible};

/// What a read takes from memory is the committed table at one moment of the read, the same for all
/// of its rows.
pub fn answers_are_table()
    ensures { AnswersAreTable }
{}

/// A range that a read takes from memory is that range of the committed table at one moment of the
/// read.
pub fn ranges_are_table()
    ensures { RangesAreTable }
{}

/// The premise of these laws on krl's locks is what krl's machine promises: no two clients hold
/// incompatible parts of one key.
pub fn locks_are_compatible()
    ensures { LocksAreCompatible }
{}

/// The laws are not empty: a reader answers from memory before and after a transaction takes back
/// what it has, and while another one takes nothing back.
pub fn answers_somewhere()
    ensures { AnswersSomewhere }
{}
