//! A row's change, as the kept rows see it.
ghost use Rattle.std.specs.Prelude.{◌≡◌, ◌≢◌, ◌++◌, ◌<◌, ◌≤◌, ℕ, [], true, Some, None};
ghost use Rattle.std.specs.Prelude.{drop, IsSome, IfSome};
ghost use Rattle.std.specs.FinMap as map;
ghost use Rattle.krl_modes.specs.Modes.{meet};
ghost use Rattle.krl_modes.specs.declared.mode.Mode.TheVariants as mode;
ghost use Rattle.krl_queue.specs.Waiting.{up_to, beyond};
ghost use Rattle.krl_queue.specs.Turns.{without_first};
ghost use Rattle.krl_table.specs.Kept.{row_of, rows_of};
ghost use Rattle.krl_table.specs.KeptRows.{IsSet, AreSet, HasRoom};
ghost use Rattle.krl_table.specs.Calls.{queue_with, split_modes, wanted, with_mode, with_queue};
ghost use Rattle.krl_table.specs.Calls.{behind_first};
ghost use Rattle.krl_table.specs.Calls.{grant_first};
ghost use Rattle.krl_table.specs.Rows.{blank_row, mode_at, set_mode};
ghost use Rattle.krl_table.specs.Waiters.{front_of};
ghost use Rattle.krl_modes.specs.declared.limits.TheConstants.{MAX_CLIENTS};

use crate::row::SlotRow;
use krl_blocks::ReservedMap;
use krl_modes::{Mode, Point};
use krl_queue::{WaitNode, Waiter};

/// Takes the row of the slot out for a change; if there is none, a blank one.
fn take(rows: &mut ReservedMap<SlotRow>, slot: u64) -> SlotRow
    ensures row { row_of result ≡ rows_of rows.old.map slot }
    ensures others { (n : ℕ) → n ≢ slot → map.get rows.new.map n ≡ map.get rows.old.map n }
    ensures room { HasRoom rows.old slot → HasRoom rows.new slot }
    ensures there { IsSome (map.get rows.old.map slot) → HasRoom rows.new slot }
    ensures stays { IsSome (map.get rows.old.map slot) → IsSome (map.get rows.new.map slot) }
    ensures kept { (n : ℕ) → IsSome (map.get rows.new.map n) → IsSome (map.get rows.old.map n) }
    ensures same { rows.new.room ≡ rows.old.room }
{
    match rows.replace(slot, SlotRow::blank()) {
        Some(row) => row,
        None => SlotRow::blank(),
    }
}

/// Puts the row back, or none if it is blank now.
fn put(rows: &mut ReservedMap<SlotRow>, slot: u64, row: SlotRow)
    requires { HasRoom rows.old slot }
    ensures set { IsSet rows.old.map rows.new.map slot (row_of row) }
    ensures room { rows.new.room ≡ rows.old.room }
{
    if row.is_blank() {
        let _gone = rows.remove(slot);
    } else {
        rows.put(slot, row);
    }
}

/// Whether the row there is blank, once the client's mode is lowered to this one.
fn goes_blank(rows: &ReservedMap<SlotRow>, slot: u64, client: u64, keep: Mode) -> bool
    requires client { client < MAX_CLIENTS }
    ensures { result ≡ true → with_mode (rows_of rows.now.map slot) client
        (meet (mode_at (rows_of rows.now.map) slot client) keep) ≡ blank_row }
{
    match rows.get(slot) {
        Some(row) => row.mode(client).meet(keep) == Mode::N && row.is_blank_beside(client),
        None => false,
    }
}

/// Lowers the client's mode there to this one. A row that goes blank goes as it stands: no other
/// row is put in its place meanwhile.
pub(crate) fn lower(rows: &mut ReservedMap<SlotRow>, slot: u64, client: u64, keep: Mode)
    requires there { IsSome (map.get rows.old.map slot) }
    requires client { client < MAX_CLIENTS }
    ensures set { IsSet rows.old.map rows.new.map slot (with_mode (rows_of rows.old.map slot) client
        (meet (mode_at (rows_of rows.old.map) slot client) keep)) }
    ensures room { rows.new.room ≡ rows.old.room }
{
    if goes_blank(rows, slot, client, keep) {
        let _blank = rows.remove(slot);
        return;
    }
    let mut row = take(rows, slot);
    row.lower(client, keep);
    put(rows, slot, row);
}

/// The client holds nothing there, and its first waiter goes.
pub(crate) fn clear(rows: &mut ReservedMap<SlotRow>, slot: u64, client: u64)
    requires there { IsSome (map.get rows.old.map slot) }
    requires client { client < MAX_CLIENTS }
    ensures set { IsSet rows.old.map rows.new.map slot (record {
      modes = set_mode (rows_of rows.old.map slot).modes client mode.N;
      queue = without_first client (rows_of rows.old.map slot).queue;
    }) }
    ensures room { rows.new.room ≡ rows.old.room }
{
    let mut row = take(rows, slot);
    row.clear(client);
    put(rows, slot, row);
}

/// The client has this mode there from now on.
pub(crate) fn set(rows: &mut ReservedMap<SlotRow>, slot: u64, client: u64, mode: Mode)
    requires room { HasRoom rows.old slot }
    requires client { client < MAX_CLIENTS }
    ensures set { IsSet rows.old.map rows.new.map slot
        (with_mode (rows_of rows.old.map slot) client mode) }
    ensures room { rows.new.room ≡ rows.old.room }
{
    let mut row = take(rows, slot);
    row.set(client, mode);
    put(rows, slot, row);
}

/// Puts the waiter after all others there, or before them if its client holds a mode there.
pub(crate) fn enqueue(rows: &mut ReservedMap<SlotRow>, slot: u64, node: WaitNode)
    requires room { HasRoom rows.old slot }
    requires client { node.client < MAX_CLIENTS }
    ensures set { IsSet rows.old.map rows.new.map slot (with_queue (rows_of rows.old.map slot)
        (queue_with (rows_of rows.old.map slot) node)) }
    ensures room { rows.new.room ≡ rows.old.room }
{
    let mut row = take(rows, slot);
    row.enqueue(node);
    put(rows, slot, row);
}

/// The first waiter there gets what it wants, and no longer waits.
pub(crate) fn grant(rows: &mut ReservedMap<SlotRow>, slot: u64) -> Option<Waiter>
    requires there { IsSome (map.get rows.old.map slot) }
    requires client { IfSome (front_of (rows_of rows.old.map slot).queue)
        (λ u. u.client < MAX_CLIENTS) }
    ensures set { IsSet rows.old.map rows.new.map slot
        (grant_first (rows_of rows.old.map slot) (rows_of rows.old.map slot).queue) }
    ensures waiter { result ≡ front_of (rows_of rows.old.map slot).queue }
    ensures room { rows.new.room ≡ rows.old.room }
{
    let mut row = take(rows, slot);
    let waiter = row.grant();
    put(rows, slot, row);
    waiter
}

/// The waiter's client gets what it wants there.
pub(crate) fn raise(rows: &mut ReservedMap<SlotRow>, slot: u64, waiter: &Waiter)
    requires room { HasRoom rows.old slot }
    requires client { waiter.now.client < MAX_CLIENTS }
    ensures set { IsSet rows.old.map rows.new.map slot (with_mode (rows_of rows.old.map slot)
        waiter.now.client (wanted (rows_of rows.old.map slot) waiter.now)) }
    ensures room { rows.new.room ≡ rows.old.room }
{
    let mut row = take(rows, slot);
    row.raise(waiter);
    put(rows, slot, row);
}

/// Takes the first waiter out.
pub(crate) fn drop_front(rows: &mut ReservedMap<SlotRow>, slot: u64) -> Option<Waiter>
    requires there { IsSome (map.get rows.old.map slot) }
    ensures set { IsSet rows.old.map rows.new.map slot (with_queue (rows_of rows.old.map slot)
        (behind_first (rows_of rows.old.map slot).queue)) }
    ensures waiter { result ≡ front_of (rows_of rows.old.map slot).queue }
    ensures room { rows.new.room ≡ rows.old.room }
{
    let mut row = take(rows, slot);
    let waiter = row.queue.pop_front();
    put(rows, slot, row);
    waiter
}

/// Parts the row of the slot: the new row at the key, which only its writer has, gets the waiters
/// up to there.
pub(crate) fn part(rows: &mut ReservedMap<SlotRow>, slot: u64, key: Point, client: u64)
    requires there { IsSome (map.get rows.old.map slot) }
    requires apart { key ≢ slot }
    requires room { HasRoom rows.old key }
    requires client { client < MAX_CLIENTS }
    ensures set { AreSet rows.old.map rows.new.map
        key (record {
          modes = split_modes (rows_of rows.old.map slot).modes client;
          queue = up_to key (rows_of rows.old.map slot).queue;
        })
        slot (with_queue (rows_of rows.old.map slot)
        (beyond key (rows_of rows.old.map slot).queue)) }
    ensures room { rows.new.room ≡ rows.old.room }
{
    let mut row = take(rows, slot);
    let mut new = row.split(client);
    new.queue = row.queue.split_at(key);
    put(rows, key.get(), new);
    put(rows, slot, row);
}

/// Takes the row at the key out, and puts its waiters before those of the slot.
pub(crate) fn join(rows: &mut ReservedMap<SlotRow>, key: u64, slot: u64)
    requires gone { IsSome (map.get rows.old.map key) }
    requires kept { IsSome (map.get rows.old.map slot) }
    requires apart { key ≢ slot }
    ensures set { AreSet rows.old.map rows.new.map key blank_row
        slot (with_queue (rows_of rows.old.map slot)
        ((rows_of rows.old.map key).queue ++ (rows_of rows.old.map slot).queue)) }
    ensures room { rows.new.room ≡ rows.old.room }
{
    let SlotRow { modes: _, queue } = rows.remove(key).unwrap();
    let mut row = take(rows, slot);
    row.queue.splice_front(queue);
    put(rows, slot, row);
}
