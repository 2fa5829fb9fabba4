//! What survives a restart, as its callers see it.
ghost use Rattle.std.specs.Prelude.{◌≡◌, ◌≤◌, ◌<◌, suc, nat_eq, [], length, IsSome, IsSomeAnd};
ghost use Rattle.std.specs.Prelude.{OnOk, OnErr, MatchResult, IfOk};
ghost use Rattle.std.specs.List.{AllByRecursion, IsDistinct};
ghost use Rattle.std.specs.Map.{keys_of};
ghost use Rattle.std.specs.FinMap as map;
ghost use Rattle.krl_blocks.specs.Entries.{IsRun};
ghost use Rattle.krl_blocks.specs.Laid.{flat};
ghost use Rattle.krl_blocks.specs.Runs.{runs_of};
ghost use Rattle.krl_modes.specs.declared.point.TheConstants.{END};
ghost use Rattle.krl_durable.specs.Index.{slot_of, low_of, span_of};
ghost use Rattle.krl_durable.specs.Slots.{IsSlotOf, IsSpanOf};
ghost use Rattle.krl_durable.specs.Registers.{record_of, not_left, registered, departed};
ghost use Rattle.krl_durable.specs.Registers.{IsIncarnation};
ghost use Rattle.krl_durable.specs.Kept.{IsKept};
ghost use Rattle.krl_durable.specs.Invariants.{IsRow};
ghost use Rattle.krl_durable.specs.InitialEntries.{AreGood, Refuses};
ghost use Rattle.krl_durable.specs.Remade.{MakesAgain, of_parts, fresh};
ghost use Rattle.krl_durable.specs.Migrations.{migrated_entries, migrated, CannotMigrate};
ghost use Rattle.krl_messages.specs.Writes.{op_key};
ghost use Rattle.krl_durable.specs.Writes.{IsRoom, IsReach, judge, applied};
ghost use Rattle.krl_modes.specs.declared.limits.TheConstants.{MAX_CLIENTS, STANDARD_ROOM};

use crate::durable_v1::DurableV1;
use crate::index::Index;
use crate::limits::Limits;
use crate::not_migrated::NotMigrated;
use crate::reach::Reach;
use crate::record::Record;
use crate::refused::EntriesRefused;
use crate::register::Register;
use crate::room::Room;
use crate::slot::Slot;
use krl_blocks::{Entries, Finger};
use krl_messages::{Outcome, Value, WriteOp};
use krl_modes::Span;
use std::alloc::{AllocError, Global};
use std::marker::Model;

/// What survives a restart of the server.
#[derive(Drop)]
pub struct Durable {
    index: Index,
    reach: Reach,
    epoch: u64,
    register: Register,
}

impl Model for Durable {
    ghost use Rattle.std.specs.Coded.{codes, coded_ℕ, coded_list};
    ghost use Rattle.std.specs.Ordering.{nat_cmp};
    ghost use Rattle.std.specs.FinMap as map;
    ghost use Rattle.std.specs.Prelude.{◌≤◌};
    ghost use Rattle.krl_modes.specs.declared.point.TheConstants.{END};
    ghost use Rattle.krl_durable.specs.Registers.{Durable as Kept};
    ghost use Rattle.krl_durable.specs.contracts.record.Record as record_contract;

    ghost Value = { Kept };

    ghost coded = { Prim.hlevel (
      codes,
      map.code {R = nat_cmp} coded_ℕ (coded_list coded_ℕ),
      record_contract.the_row.coded,
    ) };

    ghost view = { λ d. record {
      room = d.index.room;
      reach = d.reach;
      index = d.index.index;
      epoch = d.epoch;
      register = d.register;
    } };

    ghost invariant = { λ d. d.epoch ≤ END };
}

// These entries, each value its eight bytes.
fn migrated_entries(alloc: Global, entries: &[(u64, u64)]) -> Result<Vec<(u64, Value)>, AllocError>
    ensures { IfOk result (λ list. list.items ≡ migrated_entries entries.now) }
{
    entries
        .iter()
        .map(|(key, value)| (*key, Value::from_u64(*value)))
        .collect(alloc)
}

impl Durable {
    /// These entries, in any order, at epoch 0. Nobody is registered. There is room for 65,536
    /// entries from the start, so that no later write takes memory.
    ///
    /// # Errors
    ///
    /// `Full` above 65,536 entries; otherwise the first bad entry in order, by `BadKey` if its key
    /// is END or more, or by `Twice` if its key stands before; and `OutOfMemory` at any point.
    pub fn new(alloc: Global, entries: &[(u64, Value)]) -> Result<Durable, EntriesRefused>
        ensures { MatchResult result
            (λ d. (length entries.now ≤ STANDARD_ROOM) × AreGood entries.now (length entries.now)
            × (d ≡ fresh entries.now))
            (Refuses STANDARD_ROOM entries.now) }
    {
        let index = Index::new(alloc, Room::standard(), entries)?;
        Ok(Durable {
            index,
            reach: Reach::standard(),
            epoch: 0,
            register: Register::new(alloc),
        })
    }

    /// What was kept elsewhere: these entries, in any order, at this epoch, and these records of
    /// clients, in order of first registration; with these limits, which may be new ones. There is
    /// room for so many entries from the start, so that no later write takes memory.
    ///
    /// Clients are below 64, with one record each; an incarnation is from 1 to END, `last` at most
    /// END, and the outcome None exactly if `last` is 0.
    ///
    /// # Errors
    ///
    /// As of `new`: `Full` if there are more than the room; otherwise the first bad entry in order,
    /// by `BadKey` if its key is END or more, or by `Twice` if its key stands before; and
    /// `OutOfMemory` at any point.
    pub fn from_parts(
        alloc: Global,
        limits: Limits,
        entries: &[(u64, Value)],
        epoch: u64,
        records: &[(u64, Record)],
    ) -> Result<Durable, EntriesRefused>
        requires epoch { epoch ≤ END }
        requires each { AllByRecursion IsRow records.now }
        requires once { IsDistinct nat_eq (keys_of records.now) }
        ensures { MatchResult result
            (λ d. (length entries.now ≤ limits.room) × AreGood entries.now (length entries.now)
            × (d ≡ of_parts limits entries.now epoch records.now))
            (Refuses limits.room entries.now) }
    {
        let Limits { room, reach } = limits;
        let index = Index::new(alloc, room, entries)?;
        let register = Register::from_records(alloc, records)?;
        Ok(Durable {
            index,
            reach,
            epoch,
            register,
        })
    }

    /// What survived when values were numbers, as it is kept now: the same keys, epoch, register
    /// and records, each value its eight bytes, the highest first, with room for 65,536 entries.
    ///
    /// # Errors
    ///
    /// `StillRegistered`, with the first of `not_left`, if some registered client has not left; and
    /// `OutOfMemory` at any point.
    pub fn migrate(alloc: Global, old: &DurableV1) -> Result<Durable, NotMigrated>
        ensures { MatchResult result
            (λ d. (not_left old.now.register ≡ []) × (d ≡ migrated old.now))
            (CannotMigrate old.now) }
    {
        let missing = old.not_left(alloc)?;
        if let Some(client) = missing.first() {
            return Err(NotMigrated::StillRegistered(*client));
        }
        let entries = migrated_entries(alloc, old.entries())?;
        let records = old.records(alloc)?;
        match Durable::from_parts(alloc, Limits::standard(), &entries, old.epoch(), &records) {
            Ok(durable) => Ok(durable),
            Err(_) => Err(NotMigrated::OutOfMemory),
        }
    }

    /// The epoch. Its clause `kept` states what holds of all that survives.
    pub fn epoch(&self) -> u64
        ensures epoch { result ≡ self.now.epoch }
        ensures kept { IsKept self.now }
    {
        // By the clauses of these four the prover knows what `kept` states.
        self.index.entries();
        self.index.room();
        self.reach.get();
        self.register.rows();
        self.epoch
    }

    /// The epoch rises by one. It takes no memory.
    pub fn next_epoch(&mut self)
        requires { self.old.epoch < END }
        ensures { self.new ≡ record self.old { epoch = suc self.old.epoch } }
    {
        self.epoch += 1;
    }

    /// How many entries the index has room for. It stays as it was given.
    pub fn room(&self) -> Room
        ensures room { result ≡ self.now.room }
        ensures in_range { IsRoom self.now.room }
    {
        self.index.room()
    }

    /// How many slots one grant reaches at most. It stays as it was given.
    pub fn reach(&self) -> usize
        ensures reach { result ≡ self.now.reach }
        ensures in_range { IsReach result }
    {
        self.reach.get()
    }

    /// The limits that it was given: the room and the reach.
    pub fn limits(&self) -> Limits
        ensures { result ≡ record { room = self.now.room; reach = self.now.reach } }
    {
        Limits {
            room: self.index.room(),
            reach: self.reach,
        }
    }

    /// How many entries the index has: no more than it has room for.
    pub fn len(&self) -> usize
        ensures len { result ≡ length (map.entries self.now.index) }
        ensures few { result ≤ self.now.room }
    {
        self.index.len()
    }

    /// The entries of the index, in key order, as runs that lie side by side. It takes no memory.
    pub fn entries(&self) -> Entries<'_, Value>
        ensures { flat (runs_of result) ≡ map.entries self.now.index }
    {
        self.index.entries()
    }

    /// The entries from the first at or above the point, as far as their block goes: there is at
    /// least one, if there is any. A walk asks again after the last of them.
    pub fn run(&self, point: u64) -> &[(u64, Value)]
        ensures { IsRun (map.entries self.now.index) point result.now }
    {
        self.index.run(point)
    }

    /// The value at the key.
    pub fn get(&self, key: u64) -> Option<Value>
        ensures { result ≡ map.get self.now.index key }
    {
        self.index.get(key)
    }

    /// The slot of a point, with its span and its value, by one search.
    pub fn find(&self, point: u64) -> Slot
        requires { point ≤ END }
        ensures slot { result.point ≡ slot_of self.now.index point }
        ensures least { IsSlotOf self.now.index point result.point }
        ensures low { result.low ≡ low_of self.now.index result.point }
        ensures points { IsSpanOf self.now.index result.point result.low }
        ensures value { result.value ≡ map.get self.now.index result.point }
    {
        self.index.find(point)
    }

    /// Like `find`, by a search that begins at the finger, and moves it to the slot.
    pub fn find_by(&self, point: u64, finger: &mut Finger) -> Slot
        requires { point ≤ END }
        ensures slot { result.point ≡ slot_of self.now.index point }
        ensures least { IsSlotOf self.now.index point result.point }
        ensures low { result.low ≡ low_of self.now.index result.point }
        ensures points { IsSpanOf self.now.index result.point result.low }
        ensures value { result.value ≡ map.get self.now.index result.point }
    {
        self.index.find_by(point, finger)
    }

    /// The slot of a point: the least key at or above it, or END.
    pub fn slot_of(&self, point: u64) -> u64
        ensures slot { result ≡ slot_of self.now.index point }
        ensures least { point ≤ END → IsSlotOf self.now.index point result }
    {
        self.index.slot_of(point)
    }

    /// The span of a slot: the points after the key before it, up to the slot itself.
    pub fn span_of(&self, slot: u64) -> Span
        requires { slot ≤ END }
        ensures span { result ≡ span_of self.now.index slot }
        ensures points { IsSpanOf self.now.index slot result.lo }
    {
        self.index.span_of(slot)
    }

    /// The span of a slot and its entry's value, by a search from the finger, which it moves there.
    pub fn entry_by(&self, slot: u64, finger: &mut Finger) -> (Span, Option<Value>)
        requires { slot ≤ END }
        ensures span { result.0 ≡ span_of self.now.index slot }
        ensures value { result.1 ≡ map.get self.now.index slot }
    {
        self.index.entry_by(slot, finger)
    }

    /// The client's record, if it ever registered.
    pub fn record(&self, c: u64) -> Option<Record>
        ensures { result ≡ record_of self.now.register c }
    {
        self.register.get(c)
    }

    /// The records, in order of first registration. With the entries, the epoch, and any limits
    /// that leave room for the entries, `from_parts` makes of them what survives here, with those
    /// limits. It refuses them only for want of memory.
    ///
    /// # Errors
    ///
    /// `AllocError` if the list's memory is refused: there are at most 64 records.
    pub fn records(&self, alloc: Global) -> Result<Vec<(u64, Record)>, AllocError>
        ensures records { IfOk result (λ records. (records.items ≡ self.now.register)
            × AllByRecursion IsRow records.items × IsDistinct nat_eq (keys_of records.items)) }
        ensures again { IfOk result (λ records. MakesAgain self.now records.items) }
    {
        // By its clauses the prover knows what holds of the entries.
        self.index.entries();
        self.register.records(alloc)
    }

    /// Registers the client with this incarnation: it has not left, and no write of it has been
    /// judged. A client that is registered already keeps its place in the order. An incarnation is
    /// from 1 to END.
    ///
    /// # Errors
    ///
    /// `AllocError` if memory for a new client is refused. Nothing has changed then.
    pub fn register(&mut self, c: u64, incarnation: u64) -> Result<(), AllocError>
        requires client { c < MAX_CLIENTS }
        requires incarnation { IsIncarnation incarnation }
        ensures ok { OnOk result (self.new ≡ registered self.old c incarnation) }
        ensures err { OnErr result (self.new ≡ self.old) }
    {
        self.register.set(
            c,
            Record {
                incarnation,
                left: false,
                last: 0,
                outcome: None,
            },
        )
    }

    /// Marks a registered client as one that has left. It takes no memory.
    pub fn leave(&mut self, c: u64)
        requires { IsSome (record_of self.old.register c) }
        ensures { self.new ≡ departed self.old c }
    {
        if let Some(record) = self.register.get(c) {
            self.register.replace(
                c,
                Record {
                    left: true,
                    ..record
                },
            );
        }
    }

    /// The clients that have not left, by first registration.
    pub fn not_left(&self, alloc: Global) -> Result<Vec<u64>, AllocError>
        ensures { IfOk result (λ clients. clients.items ≡ not_left self.now.register) }
    {
        self.register.not_left(alloc)
    }

    /// How a write is judged, by whether the table grants what it needs.
    pub fn judge(&self, op: WriteOp, held: bool) -> Outcome
        ensures { result ≡ judge self.now.room self.now.index op held }
    {
        self.index.judge(op, held)
    }

    /// Judges the next write of a registered client, performs it exactly if it is `Applied`, and
    /// notes its number and outcome, all at once. It takes no memory. The rule is this project's
    /// own.
    pub fn apply(&mut self, c: u64, op: WriteOp, held: bool) -> Outcome
        requires key { op_key op < END }
        requires unspent { IsSomeAnd (record_of self.old.register c) (λ r. r.last < END) }
        ensures outcome { result ≡ judge self.old.room self.old.index op held }
        ensures applied { self.new ≡ applied self.old c op result }
    {
        let outcome = self.index.apply(op, held);
        if let Some(record) = self.register.get(c) {
            self.register.replace(
                c,
                Record {
                    last: record.last + 1,
                    outcome: Some(outcome),
                    ..record
                },
            );
        }
        outcome
    }
}
