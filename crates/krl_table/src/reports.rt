//! A report, slot by slot.
ghost use Rattle.std.specs.Prelude.{◌≡◌, ◌≢◌, ◌<◌, ◌≤◌, ◌↔◌, ℕ, true, Some, None, length};
ghost use Rattle.std.specs.FinMap as map;
ghost use Rattle.krl_modes.specs.declared.point.TheConstants.{END};
ghost use Rattle.krl_modes.specs.declared.mode.Mode.TheVariants as mode;
ghost use Rattle.krl_durable.specs.Index.{is_slot};
ghost use Rattle.krl_table.specs.declared.row.SlotRow.{SlotRow as Kept};
ghost use Rattle.krl_table.specs.Rows.{blank_row, is_compatible_there, mode_at};
ghost use Rattle.krl_table.specs.Reports.{rebuilt, adopted};
ghost use Rattle.krl_table.specs.Kept.{row_of, rows_of};
ghost use Rattle.krl_table.specs.KeptRows.{IsOver};
ghost use Rattle.krl_table.specs.Extents.{AreWithin};
ghost use Rattle.krl_modes.specs.declared.limits.TheConstants.{MAX_CLIENTS};

use crate::extents::Extents;
use crate::row::SlotRow;
use crate::row_ops;
use crate::sweep::Sweep;
use krl_blocks::ReservedMap;
use krl_durable::Durable;
use krl_messages::Pieces;
use krl_modes::Mode;

/// Whether the mode is compatible with what all others hold on the slot.
fn is_compatible_there(rows: &ReservedMap<SlotRow>, slot: u64, client: u64, mode: Mode) -> bool
    ensures { result ≡ is_compatible_there (rows_of rows.now.map) slot client mode }
{
    match rows.get(slot) {
        Some(row) => row.is_compatible_there(client, mode),
        None => true,
    }
}

/// Whether on each slot what is reported of it is compatible with what all others hold.
pub(crate) fn all_compatible(
    rows: &ReservedMap<SlotRow>,
    durable: &Durable,
    client: u64,
    pieces: &Pieces,
) -> bool
    requires { (n : ℕ) → END ≤ n → map.get durable.now.index n ≡ None }
    ensures { (result ≡ true) ↔ ((n : ℕ) → is_slot durable.now.index n ≡ true
        → is_compatible_there (rows_of rows.now.map) n client
        (rebuilt durable.now.index pieces.now n) ≡ true) }
{
    let mut sweep = Sweep::over(pieces);
    let mut at: u64 = 0;
    while let Some(reported) = sweep.next(durable, at) {
        if !is_compatible_there(rows, reported.slot, client, reported.mode) {
            return false;
        }
        at = reported.slot + 1;
        sweep.pass(at);
    }
    true
}

/// Gives the client, which holds nothing, on each slot what is reported of it.
pub(crate) fn settle(
    rows: &mut ReservedMap<SlotRow>,
    extents: &mut Extents,
    durable: &Durable,
    client: u64,
    pieces: &Pieces,
)
    requires over { IsOver durable.now.index rows.old.map }
    requires used { (n : ℕ) (r : Kept) → map.get rows.old.map n ≡ Some r → row_of r ≢ blank_row }
    requires few { length (map.entries durable.now.index) ≤ durable.now.room }
    requires room { durable.now.room < rows.old.room }
    requires client { client < MAX_CLIENTS }
    requires free { (n : ℕ) → mode_at (rows_of rows.old.map) n client ≡ mode.N }
    requires within { AreWithin extents.old.by_client rows.old.map }
    ensures adopted { (n : ℕ) → rows_of rows.new.map n
        ≡ adopted durable.now.index (rows_of rows.old.map) client pieces.now n }
    ensures over { IsOver durable.now.index rows.new.map }
    ensures used { (n : ℕ) (r : Kept) → map.get rows.new.map n ≡ Some r → row_of r ≢ blank_row }
    ensures within { AreWithin extents.new.by_client rows.new.map }
    ensures room { rows.new.room ≡ rows.old.room }
{
    let mut sweep = Sweep::over(pieces);
    let mut at: u64 = 0;
    while let Some(reported) = sweep.next(durable, at) {
        row_ops::set(rows, reported.slot, client, reported.mode);
        extents.note(client, reported.slot);
        at = reported.slot + 1;
        sweep.pass(at);
    }
}
