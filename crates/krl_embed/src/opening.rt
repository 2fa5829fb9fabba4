//! Starting a server on what was kept.
ghost use Rattle.std.specs.Prelude.{◌≡◌, true, Some, IfOk, OnOk, IfErr, map};
ghost use Rattle.krl_embed.specs.declared.records.RecordRow.{RecordRow};
ghost use Rattle.krl_embed.specs.declared.rows.Row.{Row};
ghost use Rattle.std.specs.List.{AllByRecursion};
ghost use Rattle.krl_server.specs.StateMeaning.{meaning};
ghost use Rattle.krl_server.specs.Steps.{start};
ghost use Rattle.krl_embed.specs.Replies.{code_of};
ghost use Rattle.krl_embed.specs.Opening.{parts, place_said, refused_code, MayOpen};
ghost use Rattle.krl_embed.specs.Opening.{AreLimits, RefusesLimits, RefusesKept, RefusesRecords};
ghost use Rattle.krl_embed.specs.Records.{AreRows, is_record, record_of};

use crate::code::Code;
use crate::records::{RecordRow, push_record};
use crate::reply::Reply;
use crate::rows::{Row, entries_of};
use krl_durable::{Durable, EntriesRefused, Limits, Reach, Record, Room};
use krl_modes::END;
use krl_server::{Server, ServerNotStarted};
use std::alloc::Global;

// Why the record at this place is refused. A bad one is named by its place.
fn record_refused(code: Code, place: u64) -> Reply
    ensures code { code_of result ≡ Some code }
    ensures detail { result.detail ≡ place_said code place }
{
    match code {
        Code::BadRecord => Reply::with(code, place),
        _ => Reply::of(code),
    }
}

// The records of these rows, in their order. A bad one is named by its place.
fn records_of(alloc: Global, rows: &[RecordRow]) -> Result<Vec<(u64, Record)>, Reply>
    ensures rows { IfOk result (λ records. AreRows records.items) }
    ensures records { IfOk result (λ records. records.items ≡ map record_of rows.now) }
    ensures good { OnOk result (AllByRecursion (λ r. is_record r ≡ true) rows.now) }
    ensures why { IfErr result (RefusesRecords rows.now) }
{
    let mut records = Vec::new(alloc);
    for i in 0..rows.len() {
        if let Err(code) = push_record(&mut records, &rows[i]) {
            return Err(record_refused(code, i as u64));
        }
    }
    Ok(records)
}

// Why no index begins with the entries.
fn entries_refused(refused: EntriesRefused) -> Reply
    ensures code { code_of result ≡ Some (refused_code refused) }
    ensures detail { result.detail ≡ 0 }
{
    match refused {
        EntriesRefused::OutOfMemory => Reply::of(Code::OutOfMemory),
        EntriesRefused::BadKey => Reply::of(Code::BadKey),
        EntriesRefused::Twice => Reply::of(Code::Twice),
        EntriesRefused::Full => Reply::of(Code::Full),
    }
}

// What survived, of these rows, with these limits.
fn durable_of(
    alloc: Global,
    limits: Limits,
    epoch: u64,
    entries: &[Row],
    records: &[RecordRow],
) -> Result<Durable, Reply>
    ensures durable { IfOk result (λ d. d ≡ parts limits epoch entries.now records.now) }
    ensures good { OnOk result (MayOpen limits epoch entries.now records.now) }
    ensures why { IfErr result (RefusesKept limits.room epoch entries.now records.now) }
{
    // By their clauses `in_range` the prover knows how great the limits may be.
    limits.room.get();
    limits.reach.get();
    if epoch >= END {
        return Err(Reply::of(Code::Spent));
    }
    // No `?`, here and below: the clause `why` names the error as it came.
    let entries = match entries_of(alloc, entries) {
        Ok(entries) => entries,
        Err(reply) => return Err(reply),
    };
    let records = match records_of(alloc, records) {
        Ok(records) => records,
        Err(reply) => return Err(reply),
    };
    match Durable::from_parts(alloc, limits, &entries, epoch, &records) {
        Ok(durable) => Ok(durable),
        Err(refused) => Err(entries_refused(refused)),
    }
}

/// The limits of these numbers, or why there are none.
pub(crate) fn limits_of(room: usize, reach: usize) -> Result<Limits, Reply>
    ensures limits { IfOk result (λ l. l ≡ record { room = room; reach = reach }) }
    ensures good { OnOk result (AreLimits (record { room = room; reach = reach })) }
    ensures why { IfErr result (RefusesLimits (record { room = room; reach = reach })) }
{
    let Some(room) = Room::new(room) else {
        return Err(Reply::of(Code::BadRoom));
    };
    let Some(reach) = Reach::new(reach) else {
        return Err(Reply::of(Code::BadReach));
    };
    Ok(Limits { room, reach })
}

/// A server that starts on what was kept, with these limits. A frame of its own would have the
/// server on the stack again.
#[inline(always)]
pub(crate) fn start(
    alloc: Global,
    limits: Limits,
    epoch: u64,
    entries: &[Row],
    records: &[RecordRow],
) -> Result<Server, Reply>
    ensures server { IfOk result
        (λ s. meaning s ≡ start (parts limits epoch entries.now records.now)) }
    ensures good { OnOk result (MayOpen limits epoch entries.now records.now) }
    ensures why { IfErr result (RefusesKept limits.room epoch entries.now records.now) }
{
    // No `?`: the clause `why` names the error as it came.
    let durable = match durable_of(alloc, limits, epoch, entries, records) {
        Ok(durable) => durable,
        Err(reply) => return Err(reply),
    };
    match Server::start(alloc, durable) {
        Ok(server) => Ok(server),
        Err(not) => match not.refused {
            ServerNotStarted::Spent => Err(Reply::of(Code::Spent)),
            ServerNotStarted::OutOfMemory => Err(Reply::of(Code::OutOfMemory)),
        },
    }
}
