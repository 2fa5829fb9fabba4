//! Records of clients, as C sees them.
ghost use Rattle.std.specs.Prelude.{◌≡◌, ◌++◌, ◌∷◌, [], true, false, IfSome, IfNone, IfErr, OnOk};
ghost use Rattle.std.specs.Prelude.{nat_eq};
ghost use Rattle.std.specs.List.{list_any};
ghost use Rattle.krl_durable.specs.Invariants.{IsRow};
ghost use Rattle.krl_embed.specs.Changes.{optional_outcome_number};
ghost use Rattle.krl_embed.specs.Shown.{record_row, no_record};
ghost use Rattle.krl_embed.specs.Records as records;
ghost use Rattle.krl_embed.specs.Records.{AreRows, RefusesRow};

use crate::code::Code;
use krl_durable::Record;
use krl_messages::Outcome;
use krl_modes::{END, MAX_CLIENTS};

/// What is kept of a client that ever registered.
#[repr(C)]
#[derive(Clone, Copy)]
pub struct RecordRow {
    client: u64,
    incarnation: u64,
    last: u64,
    outcome: u32,
    left: u32,
}

/// The number of an outcome: 0 if there is none.
pub(crate) fn outcome_number(outcome: Option<Outcome>) -> u32
    ensures { result ≡ optional_outcome_number outcome }
{
    match outcome {
        None => 0,
        Some(outcome) => outcome as u32 + 1,
    }
}

// The outcome of a number; None for one that is no outcome's.
fn outcome_of(number: u32) -> Option<Outcome>
    ensures { result ≡ records.outcome_of number }
{
    match number {
        1 => Some(Outcome::Applied),
        2 => Some(Outcome::Exists),
        3 => Some(Outcome::Absent),
        4 => Some(Outcome::NotHeld),
        5 => Some(Outcome::Full),
        _ => None,
    }
}

impl RecordRow {
    /// Nobody's record.
    pub(crate) fn blank() -> RecordRow
        ensures { result ≡ no_record }
    {
        RecordRow {
            client: 0,
            incarnation: 0,
            last: 0,
            outcome: 0,
            left: 0,
        }
    }

    /// The row of a client's record.
    pub(crate) fn of(client: u64, kept: Record) -> RecordRow
        ensures { result ≡ record_row client kept }
    {
        RecordRow {
            client,
            incarnation: kept.incarnation,
            last: kept.last,
            outcome: outcome_number(kept.outcome),
            left: kept.left as u32,
        }
    }

    // Whether it has an outcome exactly if a write was judged.
    fn has_outcome(&self) -> bool
        ensures { result ≡ records.has_outcome self.now }
    {
        if self.last == 0 {
            self.outcome == 0
        } else {
            1 <= self.outcome && self.outcome <= 5
        }
    }

    // Whether a client can have it.
    fn is_record(&self) -> bool
        ensures { result ≡ records.is_record self.now }
    {
        self.client < MAX_CLIENTS as u64
            && 1 <= self.incarnation
            && self.incarnation <= END
            && self.last <= END
            && self.left <= 1
            && self.has_outcome()
    }

    // The client and its record, if it is one.
    fn record(&self) -> Option<(u64, Record)>
        ensures row { IfSome result IsRow }
        ensures found { IfSome result (λ e. e ≡ records.record_of self.now) }
        ensures is { IfSome result (λ _. records.is_record self.now ≡ true) }
        ensures none { IfNone result (records.is_record self.now ≡ false) }
    {
        if !self.is_record() {
            return None;
        }
        let record = Record {
            incarnation: self.incarnation,
            left: self.left == 1,
            last: self.last,
            outcome: outcome_of(self.outcome),
        };
        Some((self.client, record))
    }
}

// Whether the client has a record already.
fn is_there(rows: &[(u64, Record)], client: u64) -> bool
    ensures { result ≡ list_any (λ row. nat_eq client row.0) rows.now }
{
    rows.iter().any(|row| client == row.0)
}

/// Puts the record after the others, if it is one, and its client has none before.
///
/// # Errors
///
/// `BadRecord` if it is none, or its client has one; `OutOfMemory`. The records are as they
/// were.
pub(crate) fn push_record(rows: &mut Vec<(u64, Record)>, row: &RecordRow) -> Result<(), Code>
    requires { AreRows rows.old.items }
    ensures rows { AreRows rows.new.items }
    ensures pushed { OnOk result
        (rows.new.items ≡ rows.old.items ++ records.record_of row.now ∷ []) }
    ensures good { OnOk result (records.is_record row.now ≡ true) }
    ensures why { IfErr result (RefusesRow rows.old.items row.now) }
{
    let Some(pair) = row.record() else {
        return Err(Code::BadRecord);
    };
    if is_there(rows, pair.0) {
        return Err(Code::BadRecord);
    }
    rows.push(pair)?;
    Ok(())
}
