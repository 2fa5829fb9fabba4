//! The table.
ghost use Rattle.std.specs.Prelude.{◌≡◌, ◌≢◌, ◌⊎◌, ◌↔◌, ◌<◌, ◌≤◌, false, true, [], ℕ, suc, length};
ghost use Rattle.std.specs.Prelude.{Some, None, IfOk, IsOk, is_some, IsSome, IfSome, IfNone, OnOk};
ghost use Rattle.std.specs.Prelude.{OnErr};
ghost use Rattle.std.specs.List.{AllByRecursion};
ghost use Rattle.std.specs.FinMap as map;
ghost use Rattle.krl_modes.specs.declared.point.TheConstants.{END};
ghost use Rattle.krl_modes.specs.declared.part.KeyPart.TheVariants as key_part;
ghost use Rattle.krl_messages.specs.Values as values;
ghost use Rattle.krl_durable.specs.Index.{Index, slot_of, span_of, is_slot};
ghost use Rattle.krl_table.specs.Rows.{mode_at, blank_row};
ghost use Rattle.krl_table.specs.Waiters.{front_of, waiter_of, WaitsNowhere, AreWaiting};
ghost use Rattle.krl_table.specs.Calls.{lowered, cleared, enqueued, front_dropped, split, merged};
ghost use Rattle.krl_table.specs.Kept.{mode_of, rows_of, Kept};
ghost use Rattle.krl_table.specs.KeptRows.{IsOver};
ghost use Rattle.krl_table.specs.Points.{range_at, key_at};
ghost use Rattle.krl_table.specs.Writers.{MayInsert, MayDelete};
ghost use Rattle.krl_table.specs.Reports.{conflicts, adopted};
ghost use Rattle.krl_table.specs.Sound.{IsTable};
ghost use Rattle.krl_modes.specs.declared.limits.TheConstants.{MAX_CLIENTS};

mod at_once;
mod granting;
mod replies;
mod shown;

use crate::conflict::Conflict;
use crate::extents::Extents;
use crate::first::FirstWaiter;
use crate::row::SlotRow;
use crate::waiting::Waiting;
use crate::{all_rows, reports, row_ops};
use arrayvec::ArrayVec;
use krl_blocks::{Finger, ReservedMap};
use krl_durable::{Durable, Room};
use krl_messages::Pieces;
use krl_modes::{MAX_CLIENTS, Mode, Point, Span, TOP};
use krl_queue::{WaitNode, Waiter};
use std::alloc::{AllocError, Global};
use std::marker::Model;

/// The rows of the slots where somebody holds or waits; any other slot is blank. A clause sees them
/// as a finite map, and how many of them there may be, which stays; the table as functions of slots
/// and clients is `rows_of` of the map.
///
/// A table keeps no index, and is used with one whose slots its rows stand at: `IsOver`. All memory
/// is taken by `new`, so that no other call can be refused: a call that may add a row asks that the
/// table may have more rows than the index has room for entries.
///
/// Of every table holds: no row is kept that is blank; on each slot the modes of different clients
/// are compatible; each client has at most one waiter.
#[derive(Drop)]
pub struct Table {
    rows: ReservedMap<SlotRow>,
    waiting: Waiting,
    extents: Extents,
}

impl Model for Table {
    ghost use Rattle.krl_blocks.specs.ReservedMaps.{MapWithRoom, map_with_room_code};
    ghost use Rattle.krl_table.specs.declared.row.SlotRow.{SlotRow};
    ghost use Rattle.krl_table.specs.contracts.row.SlotRow as slot_row;
    ghost use Rattle.krl_table.specs.KeptRows.{IsSound};
    ghost use Rattle.krl_table.specs.KeptWaiters.{AreListed};
    ghost use Rattle.krl_table.specs.Extents.{AreWithin};

    ghost Value = { MapWithRoom SlotRow };

    ghost coded = { map_with_room_code slot_row.the_row.coded };

    ghost view = { λ t. t.rows };

    ghost invariant = { λ t. IsSound t.rows.map × AreListed t.waiting.by_client t.rows.map
        × AreWithin t.extents.by_client t.rows.map };
}

impl Table {
    /// A table in which nobody holds anything, and nobody waits, for an index with this room: it
    /// may have a row for each entry, and one for END. It makes at most five requests for memory.
    ///
    /// # Errors
    ///
    /// `AllocError` if memory is refused.
    pub fn new(alloc: Global, room: Room) -> Result<Table, AllocError>
        ensures blank { IfOk result (λ t. (n : ℕ) → rows_of t.map n ≡ blank_row) }
        ensures slots { IfOk result (λ t. (m : Index)
            → ((n : ℕ) → END ≤ n → map.get m n ≡ None) → IsOver m t.map) }
        ensures room { IfOk result (λ t. t.room ≡ suc room) }
    {
        let rows = ReservedMap::with_room(alloc, room.get() + 1)?;
        Ok(Table {
            rows,
            waiting: Waiting::nobody(),
            extents: Extents::nowhere(),
        })
    }

    // Whether somebody holds or waits there.
    fn has_row(&self, slot: u64) -> bool
        ensures { result ≡ is_some (map.get self.now.map slot) }
    {
        self.rows.get(slot).is_some()
    }

    /// The client's mode on the slot; N if there is no slot.
    pub fn mode(&self, slot: u64, client: u64) -> Mode
        requires { client < MAX_CLIENTS }
        ensures { result ≡ mode_at (rows_of self.now.map) slot client }
    {
        match self.rows.get(slot) {
            Some(row) => row.mode(client),
            None => Mode::N,
        }
    }

    /// Like `mode`, by a search that begins at the finger, and moves it to the slot.
    pub fn mode_by(&self, slot: u64, client: u64, finger: &mut Finger) -> Mode
        requires { client < MAX_CLIENTS }
        ensures { result ≡ mode_at (rows_of self.now.map) slot client }
    {
        match self.rows.get_by(slot, finger) {
            Some(row) => row.mode(client),
            None => Mode::N,
        }
    }

    /// The first waiter of the slot.
    pub fn front(&self, slot: u64) -> Option<Waiter>
        ensures front { result ≡ front_of (rows_of self.now.map slot).queue }
        ensures client { IfSome result (λ u. u.client < MAX_CLIENTS) }
    {
        match self.rows.get(slot) {
            Some(row) => row.queue.front(),
            None => None,
        }
    }

    /// The slot's first waiter, with what it finds there.
    pub fn first(&self, durable: &Durable, slot: u64) -> Option<FirstWaiter>
        requires { IsOver durable.now.index self.now.map }
        ensures none { IfNone result ((rows_of self.now.map slot).queue ≡ []) }
        ensures waiter { IfSome result
            (λ first. front_of (rows_of self.now.map slot).queue ≡ Some first.waiter) }
        ensures client { IfSome result (λ first. first.waiter.client < MAX_CLIENTS) }
        ensures span { IfSome result (λ first. first.span ≡ span_of durable.now.index slot) }
        ensures modes { IfSome result
            (λ first. (c : ℕ) → mode_of first.modes c ≡ mode_at (rows_of self.now.map) slot c) }
    {
        let row = self.rows.get(slot)?;
        let waiter = row.queue.front()?;
        let span = durable.span_of(slot);
        let modes = row.modes;
        Some(FirstWaiter {
            waiter,
            span,
            modes,
        })
    }

    /// How the client waits. The clause `sound` states what holds of every table.
    pub fn waiter_of(&self, client: u64) -> Option<Waiter>
        requires { client < MAX_CLIENTS }
        ensures waiter { (m : Index) → IsOver m self.now.map
            → result ≡ waiter_of m (rows_of self.now.map) client }
        ensures client { IfSome result (λ u. u.client ≡ client) }
        ensures nowhere { result ≡ None → WaitsNowhere (rows_of self.now.map) client }
        ensures sound { (m : Index) → IsOver m self.now.map → IsTable m (rows_of self.now.map) }
    {
        self.waiting.of(client)
    }

    /// The slots at which somebody waits, each once, in ascending order. It takes a search and a
    /// look at each client's waiter for each of them, and one look more; if nobody waits it
    /// looks at one number. It takes no memory.
    pub fn waiting_slots(&self, durable: &Durable) -> ArrayVec<u64, MAX_CLIENTS>
        requires { IsOver durable.now.index self.now.map }
        ensures slots { AreWaiting (rows_of self.now.map) 0 result.items }
        ensures there { AllByRecursion (λ n. is_slot durable.now.index n ≡ true) result.items }
    {
        let mut slots = ArrayVec::new();
        let mut low: u64 = 0;
        while let Some(point) = self.waiting.least_from(low) {
            let slot = durable.slot_of(point.get());
            slots.push(slot);
            low = slot + 1;
        }
        slots
    }

    /// Lowers the client's mode to this one on each slot whose span lies in the span. It looks at
    /// the rows that are kept there, and at the one after them.
    pub fn lower(&mut self, durable: &Durable, client: u64, span: Span, keep: Mode)
        requires over { IsOver durable.now.index self.old.map }
        requires client { client < MAX_CLIENTS }
        ensures lowered { (n : ℕ) → rows_of self.new.map n
            ≡ lowered durable.now.index (rows_of self.old.map) client span keep n }
        ensures slots { IsOver durable.now.index self.new.map }
        ensures room { self.new.room ≡ self.old.room }
    {
        let first = durable.find(span.lo());
        // The first slot's span may begin before this one.
        let from = if first.low < span.lo() {
            first.point + 1
        } else {
            first.point
        };
        all_rows::lower(&mut self.rows, client, from, span.hi(), keep);
    }

    /// The client holds nothing, and no longer waits. It looks at the rows that are kept between
    /// the first and the last slot at which it held or waited since it was cleared.
    pub fn clear(&mut self, client: u64)
        requires { client < MAX_CLIENTS }
        ensures cleared { (n : ℕ) → rows_of self.new.map n
            ≡ cleared (rows_of self.old.map) client n }
        ensures slots { (m : Index) → IsOver m self.old.map → IsOver m self.new.map }
        ensures room { self.new.room ≡ self.old.room }
    {
        let extent = self.extents.of(client);
        all_rows::clear(&mut self.rows, client, extent);
        self.waiting.clear(client);
        self.extents.forget(client);
    }

    /// The waiter, of a client that has none, goes to the slot of its point: after all others, or
    /// before them if its client holds a mode there. It takes no memory.
    pub fn enqueue(&mut self, durable: &Durable, node: WaitNode)
        requires over { IsOver durable.now.index self.old.map }
        requires client { node.client < MAX_CLIENTS }
        requires free { WaitsNowhere (rows_of self.old.map) node.client }
        requires rows { durable.now.room < self.old.room }
        ensures enqueued { (n : ℕ) → rows_of self.new.map n
            ≡ enqueued durable.now.index (rows_of self.old.map) node n }
        ensures slots { IsOver durable.now.index self.new.map }
        ensures room { self.new.room ≡ self.old.room }
    {
        // By its clause `kept` the prover knows what holds of all that survives.
        let _kept = durable.epoch();
        let waiter = node.waiter();
        let client = waiter.client;
        let slot = durable.slot_of(waiter.point.get());
        row_ops::enqueue(&mut self.rows, slot, node);
        self.waiting.note(waiter);
        self.extents.note(client, slot);
    }

    /// The slot's first waiter no longer waits.
    pub fn drop_front(&mut self, slot: u64)
        ensures dropped { (n : ℕ) → rows_of self.new.map n
            ≡ front_dropped (rows_of self.old.map) slot n }
        ensures slots { (m : Index) → IsOver m self.old.map → IsOver m self.new.map }
        ensures room { self.new.room ≡ self.old.room }
    {
        if self.has_row(slot) {
            let first = row_ops::drop_front(&mut self.rows, slot);
            self.waiting.leave(&first);
        }
    }

    /// Makes `key`, which is no slot yet, a slot. `client` writes it, and may insert there. The
    /// waiters up to it move there. It takes no memory. The write that makes it a key of the index,
    /// which has room for it, comes after it.
    pub fn split(&mut self, durable: &Durable, key: Point, client: u64)
        requires over { IsOver durable.now.index self.old.map }
        requires client { client < MAX_CLIENTS }
        requires key { key < END }
        requires free { map.get durable.now.index key ≡ None }
        requires room { length (map.entries durable.now.index) < durable.now.room }
        requires rows { durable.now.room < self.old.room }
        requires may { MayInsert (rows_of self.old.map) (slot_of durable.now.index key) client }
        ensures split { (n : ℕ) → rows_of self.new.map n
            ≡ split durable.now.index (rows_of self.old.map) key client n }
        ensures slots { (value : values.Value)
            → IsOver (map.insert durable.now.index key value) self.new.map }
        ensures ranges { (value : values.Value) (d p : ℕ)
            → range_at (map.insert durable.now.index key value) (rows_of self.new.map) d p
            ≡ range_at durable.now.index (rows_of self.old.map) d p }
        ensures keys { (value : values.Value) (d p : ℕ) → (p ≢ key) ⊎ (d ≢ client)
            → key_at (map.insert durable.now.index key value) (rows_of self.new.map) d p
            ≡ key_at durable.now.index (rows_of self.old.map) d p }
        ensures own { (value : values.Value)
            → key_at (map.insert durable.now.index key value) (rows_of self.new.map) client key
            ≡ key_part.X }
        ensures room { self.new.room ≡ self.old.room }
    {
        let slot = durable.slot_of(key.get());
        row_ops::part(&mut self.rows, slot, key, client);
        self.extents.follow(slot, key.get());
    }

    /// The slot, whose entry some client may delete, goes, and its waiters stand before those of
    /// the next. It takes no memory. The write that deletes the entry comes after it.
    pub fn merge(&mut self, durable: &Durable, key: u64)
        requires over { IsOver durable.now.index self.old.map }
        requires there { is_slot durable.now.index key ≡ true }
        requires key { key < END }
        requires may { (c : ℕ) × MayDelete (rows_of self.old.map) key
            (slot_of durable.now.index (suc key)) c }
        ensures merged { (n : ℕ) → rows_of self.new.map n
            ≡ merged durable.now.index (rows_of self.old.map) key n }
        ensures slots { IsOver (map.remove durable.now.index key) self.new.map }
        ensures ranges { (d p : ℕ)
            → range_at (map.remove durable.now.index key) (rows_of self.new.map) d p
            ≡ range_at durable.now.index (rows_of self.old.map) d p }
        ensures keys { (d p : ℕ)
            → key_at (map.remove durable.now.index key) (rows_of self.new.map) d p
            ≡ key_at durable.now.index (rows_of self.old.map) d p }
        ensures room { self.new.room ≡ self.old.room }
    {
        let slot = durable.slot_of(key + 1);
        row_ops::join(&mut self.rows, key, slot);
        self.extents.follow(key, slot);
    }

    /// The client, which restarts with what it still holds, has on each slot the least mode at or
    /// above what it reports there: the join of the range parts whose spans meet the slot's, and
    /// the greatest key part at the slot. Key parts at other points are passed over. It takes no
    /// memory. It looks at the rows that are kept from the first on if the client held or waited
    /// since it was cleared, and at the slots of which something is reported, with a search for
    /// each. If the pieces of both lists come in order it reads a piece once for each slot that
    /// it meets, and once to pass it; otherwise each piece for each of those slots. `in_order`
    /// makes a report that is in order.
    ///
    /// # Errors
    ///
    /// `Conflict` if that is incompatible with another client's mode on some slot. Nothing
    /// changed.
    pub fn adopt_report(
        &mut self,
        durable: &Durable,
        client: u64,
        pieces: &Pieces,
    ) -> Result<(), Conflict>
        requires over { IsOver durable.now.index self.old.map }
        requires client { client < MAX_CLIENTS }
        requires rows { durable.now.room < self.old.room }
        ensures conflict { IsOk result
            ↔ (conflicts durable.now.index (rows_of self.old.map) client pieces.now ≡ false) }
        ensures adopted { OnOk result ((n : ℕ) → rows_of self.new.map n
            ≡ adopted durable.now.index (rows_of self.old.map) client pieces.now n) }
        ensures refused { OnErr result (self.new ≡ self.old) }
        ensures slots { IsOver durable.now.index self.new.map }
        ensures room { self.new.room ≡ self.old.room }
    {
        // By its clause `kept` the prover knows what holds of all that survives.
        let _kept = durable.epoch();
        if !reports::all_compatible(&self.rows, durable, client, pieces) {
            return Err(Conflict);
        }
        // What it held before goes, of which nothing may be left if nothing is reported.
        let extent = self.extents.of(client);
        all_rows::lower(&mut self.rows, client, extent.first, TOP, Mode::N);
        reports::settle(&mut self.rows, &mut self.extents, durable, client, pieces);
        Ok(())
    }
}
