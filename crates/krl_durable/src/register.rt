//! The register of clients.
ghost use Rattle.std.specs.Prelude.{◌≡◌, ◌<◌, nat_eq, [], IsSome, IfSome, OnOk, OnErr, IfOk};
ghost use Rattle.std.specs.List.{AllByRecursion, IsDistinct, filter_map};
ghost use Rattle.std.specs.Map.{keys_of};
ghost use Rattle.krl_durable.specs.Registers.{record_of, with_record, not_left};
ghost use Rattle.krl_durable.specs.Invariants.{IsRow, IsRecord, missing_of};
ghost use Rattle.krl_modes.specs.declared.limits.TheConstants.{MAX_CLIENTS};

use crate::record::Record;
use indexmap::IndexMap;
use std::alloc::{AllocError, Global};
use std::marker::Model;

/// A record of each client that ever registered, seen as a list, in order of first registration.
#[derive(Drop)]
pub struct Register {
    records: IndexMap<u64, Record>,
}

impl Model for Register {
    ghost use Rattle.std.specs.Prelude.{ℕ, List};
    ghost use Rattle.std.specs.List.{AllByRecursion};
    ghost use Rattle.krl_durable.specs.declared.record.Record.{Record};
    ghost use Rattle.krl_durable.specs.Invariants.{IsRow};

    ghost Value = { List (ℕ × Record) };

    ghost view = { λ r. r.records.entries };

    ghost invariant = { λ r. AllByRecursion IsRow r.records.entries };
}

// The client, if it has not left.
fn missing_of(c: u64, row: &Record) -> Option<u64>
    ensures { result ≡ missing_of (c, row.now) }
{
    if row.left { None } else { Some(c) }
}

// The clients that have not left, in the order of the rows.
fn clients_missing(alloc: Global, records: &IndexMap<u64, Record>) -> Result<Vec<u64>, AllocError>
    ensures { IfOk result (λ clients. clients.items ≡ filter_map missing_of records.now.entries) }
{
    records
        .iter()
        .filter_map(|(c, row)| missing_of(*c, row))
        .collect(alloc)
}

// The records, in the order of the rows.
fn rows_of(alloc: Global, records: &IndexMap<u64, Record>) -> Result<Vec<(u64, Record)>, AllocError>
    ensures { IfOk result (λ rows. rows.items ≡ records.now.entries) }
{
    records.iter().map(|(c, row)| (*c, *row)).collect(alloc)
}

impl Register {
    /// Nobody is registered.
    pub fn new(alloc: Global) -> Register
        ensures { result ≡ [] }
    {
        Register {
            records: IndexMap::new(alloc),
        }
    }

    /// These records, in this order.
    ///
    /// # Errors
    ///
    /// `AllocError` if memory is refused.
    pub fn from_records(alloc: Global, records: &[(u64, Record)]) -> Result<Register, AllocError>
        requires each { AllByRecursion IsRow records.now }
        requires once { IsDistinct nat_eq (keys_of records.now) }
        ensures { IfOk result (λ register. register ≡ records.now) }
    {
        let mut register = Register::new(alloc);
        for (c, row) in records {
            register.set(*c, *row)?;
        }
        Ok(register)
    }

    /// The client's record.
    pub fn get(&self, c: u64) -> Option<Record>
        ensures found { result ≡ record_of self.now c }
        ensures each { IfSome result IsRecord }
    {
        self.records.get(&c).copied()
    }

    /// What holds of each register.
    pub fn rows(&self)
        ensures rows { AllByRecursion IsRow self.now }
        ensures once { IsDistinct nat_eq (keys_of self.now) }
    {
        // What holds of the records is known to the prover if their field is named.
        let _ = self.records.len();
    }

    /// Gives the client this record: in place of the one that it has, or last.
    ///
    /// # Errors
    ///
    /// `AllocError` if memory for a new client is refused. Nothing has changed then.
    pub fn set(&mut self, c: u64, row: Record) -> Result<(), AllocError>
        requires client { c < MAX_CLIENTS }
        requires each { IsRecord row }
        ensures ok { OnOk result (self.new ≡ with_record self.old c row) }
        ensures err { OnErr result (self.new ≡ self.old) }
    {
        self.records.insert(c, row)?;
        Ok(())
    }

    /// Gives a registered client this record. It takes no memory.
    pub fn replace(&mut self, c: u64, row: Record)
        requires registered { IsSome (record_of self.old c) }
        requires each { IsRecord row }
        ensures { self.new ≡ with_record self.old c row }
    {
        if let Some(kept) = self.records.get_mut(&c) {
            *kept = row;
        }
    }

    /// The records, in order of first registration.
    pub fn records(&self, alloc: Global) -> Result<Vec<(u64, Record)>, AllocError>
        ensures { IfOk result (λ records. (records.items ≡ self.now)
            × AllByRecursion IsRow records.items × IsDistinct nat_eq (keys_of records.items)) }
    {
        // By its clauses the prover knows what holds of the rows.
        self.rows();
        rows_of(alloc, &self.records)
    }

    /// The clients that have not left, by first registration.
    pub fn not_left(&self, alloc: Global) -> Result<Vec<u64>, AllocError>
        ensures { IfOk result (λ clients. clients.items ≡ not_left self.now) }
    {
        clients_missing(alloc, &self.records)
    }
}
