//! What holds of every cache: a plain form next to the one that is used, and runs of calls, which
//! both answer alike.
#![tactic(auto)]

ghost use Rattle.krl_cache.specs.Laws.{CallsKeepBelief, RowsAreDetermined, ScansAreDetermined};
ghost use Rattle.krl_cache.specs.Laws.{BeliefsAreDescribed};
ghost use Rattle.krl_cache_laws.specs.Runs.{PiecesAreDetermined, RunsAgree};

mod entries;
mod pieces;
mod plain;
mod run;

pub use plain::PlainCache;
pub use run::{CacheCall, CacheReply, run_cache};

/// To believe nothing is a belief, and adopting and lowering leave one: a value stands exactly
/// where the entry is read below END, and nothing stands past END.
pub fn calls_keep_belief()
    ensures { CallsKeepBelief }
{}

/// Some pieces describe each belief. A call of a cache that gives its pieces takes memory; this one
/// gives none, and states that there are some.
pub fn beliefs_are_described()
    ensures { BeliefsAreDescribed }
{}

/// One pair of lists describes a belief: what a client reports is determined by what it believes,
/// and is no longer than that.
pub fn pieces_are_determined()
    ensures { PiecesAreDetermined }
{}

/// A scan has one list of rows.
pub fn rows_of_a_scan()
    ensures { RowsAreDetermined }
{}

/// A scan finds one thing.
pub fn scans_are_determined()
    ensures { ScansAreDetermined }
{}

/// Two runs of the same calls from one belief, on whatever forms of a cache, give the same answers
/// and leave one belief, if no memory is refused.
pub fn runs_agree()
    ensures { RunsAgree }
{}
