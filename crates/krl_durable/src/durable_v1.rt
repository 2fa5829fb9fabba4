//! What survived a restart when values were numbers.
ghost use Rattle.std.specs.Prelude.{◌≡◌, ◌≤◌, nat_eq, [], length, MatchResult, IfOk};
ghost use Rattle.std.specs.List.{AllByRecursion, IsDistinct};
ghost use Rattle.std.specs.Map.{keys_of};
ghost use Rattle.std.specs.FinMap as map;
ghost use Rattle.krl_modes.specs.declared.point.TheConstants.{END};
ghost use Rattle.krl_modes.specs.declared.limits.TheConstants.{STANDARD_ROOM};
ghost use Rattle.krl_durable.specs.Registers.{record_of, not_left};
ghost use Rattle.krl_durable.specs.Invariants.{IsRow, AreOrdered};
ghost use Rattle.krl_durable.specs.InitialEntries.{AreGood, Refuses};
ghost use Rattle.krl_durable.specs.Remade.{of_numbers};

use crate::entry_map::ordered;
use crate::record::Record;
use crate::refused::EntriesRefused;
use crate::register::Register;
use crate::room::Room;
use std::alloc::{AllocError, Global};
use std::marker::Model;

/// What survived a restart of a server whose values were numbers of 64 bits. It can only be read,
/// and be brought to what survives now.
#[derive(Drop)]
pub struct DurableV1 {
    entries: Vec<(u64, u64)>,
    epoch: u64,
    register: Register,
}

impl Model for DurableV1 {
    ghost use Rattle.std.specs.Coded.{codes, coded_ℕ};
    ghost use Rattle.std.specs.Ordering.{nat_cmp};
    ghost use Rattle.std.specs.FinMap as map;
    ghost use Rattle.krl_durable.specs.Migrations.{DurableV1 as Kept};
    ghost use Rattle.krl_durable.specs.Invariants.{IsKeptV1};
    ghost use Rattle.krl_durable.specs.contracts.record.Record as record_contract;

    ghost Value = { Kept };

    ghost coded = { Prim.hlevel
        (codes, map.code {R = nat_cmp} coded_ℕ coded_ℕ, record_contract.the_row.coded) };

    ghost view = { λ d. record {
      index = map.from_sorted d.entries.items;
      epoch = d.epoch;
      register = d.register;
    } };

    ghost invariant = { λ d. IsKeptV1 d.entries.items d.epoch };
}

impl DurableV1 {
    /// These entries, in any order, at epoch 0. Nobody is registered.
    ///
    /// # Errors
    ///
    /// `Full` above 65,536 entries; otherwise the first bad entry in order, by `BadKey` if its key
    /// is END or more, or by `Twice` if its key stands before; and `OutOfMemory` at any point.
    pub fn new(alloc: Global, entries: &[(u64, u64)]) -> Result<DurableV1, EntriesRefused>
        ensures { MatchResult result
            (λ d. (length entries.now ≤ STANDARD_ROOM) × AreGood entries.now (length entries.now)
            × (d ≡ of_numbers entries.now 0 []))
            (Refuses STANDARD_ROOM entries.now) }
    {
        let entries = ordered(alloc, Room::standard(), entries)?;
        Ok(DurableV1 {
            entries,
            epoch: 0,
            register: Register::new(alloc),
        })
    }

    /// What was kept elsewhere: these entries, in any order, at this epoch, and these records of
    /// clients, in order of first registration.
    ///
    /// Clients are below 64, with one record each; an incarnation is from 1 to END, `last` at most
    /// END, and the outcome None exactly if `last` is 0.
    ///
    /// # Errors
    ///
    /// As of `new`.
    pub fn from_parts(
        alloc: Global,
        entries: &[(u64, u64)],
        epoch: u64,
        records: &[(u64, Record)],
    ) -> Result<DurableV1, EntriesRefused>
        requires epoch { epoch ≤ END }
        requires each { AllByRecursion IsRow records.now }
        requires once { IsDistinct nat_eq (keys_of records.now) }
        ensures { MatchResult result
            (λ d. (length entries.now ≤ STANDARD_ROOM) × AreGood entries.now (length entries.now)
            × (d ≡ of_numbers entries.now epoch records.now))
            (Refuses STANDARD_ROOM entries.now) }
    {
        let entries = ordered(alloc, Room::standard(), entries)?;
        let register = Register::from_records(alloc, records)?;
        Ok(DurableV1 {
            entries,
            epoch,
            register,
        })
    }

    /// The epoch.
    pub fn epoch(&self) -> u64
        ensures epoch { result ≡ self.now.epoch }
        ensures most { result ≤ END }
    {
        self.epoch
    }

    /// The entries of the index, in key order.
    pub fn entries(&self) -> &[(u64, u64)]
        ensures entries { result.now ≡ map.entries self.now.index }
        ensures ordered { AreOrdered STANDARD_ROOM result.now }
    {
        self.entries.as_slice()
    }

    /// The client's record, if it ever registered.
    pub fn record(&self, c: u64) -> Option<Record>
        ensures { result ≡ record_of self.now.register c }
    {
        self.register.get(c)
    }

    /// The clients that have not left, by first registration.
    pub fn not_left(&self, alloc: Global) -> Result<Vec<u64>, AllocError>
        ensures { IfOk result (λ clients. clients.items ≡ not_left self.now.register) }
    {
        self.register.not_left(alloc)
    }

    /// The records, in order of first registration.
    pub(crate) fn records(&self, alloc: Global) -> Result<Vec<(u64, Record)>, AllocError>
        ensures { IfOk result (λ records. (records.items ≡ self.now.register)
            × AllByRecursion IsRow records.items × IsDistinct nat_eq (keys_of records.items)) }
    {
        self.register.records(alloc)
    }
}
