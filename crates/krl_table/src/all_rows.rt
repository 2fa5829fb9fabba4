//! Walks over the kept rows, in the order of their slots.
ghost use Rattle.std.specs.Prelude.{◌≡◌, ◌≢◌, ◌<◌, ◌≤◌, ℕ, Some, None};
ghost use Rattle.std.specs.FinMap as map;
ghost use Rattle.krl_modes.specs.declared.point.TheConstants.{END};
ghost use Rattle.krl_table.specs.declared.row.SlotRow.{SlotRow as Kept};
ghost use Rattle.krl_table.specs.Rows.{blank_row};
ghost use Rattle.krl_table.specs.Kept.{row_of};
ghost use Rattle.krl_table.specs.KeptRows.{IsAll, lowered_between};
ghost use Rattle.krl_table.specs.Extents.{cleared_within};
ghost use Rattle.krl_modes.specs.declared.limits.TheConstants.{MAX_CLIENTS};

use crate::extent::Extent;
use crate::row::SlotRow;
use crate::row_ops;
use krl_blocks::ReservedMap;
use krl_modes::Mode;

/// Lowers the client's mode on each slot from `from` on below `hi`. It looks at the rows that are
/// kept there, and at the one after them.
pub(crate) fn lower(rows: &mut ReservedMap<SlotRow>, client: u64, from: u64, hi: u64, keep: Mode)
    requires used { (n : ℕ) (r : Kept) → map.get rows.old.map n ≡ Some r → row_of r ≢ blank_row }
    requires client { client < MAX_CLIENTS }
    ensures all { IsAll (lowered_between from hi client keep) rows.old.map rows.new.map }
    ensures room { rows.new.room ≡ rows.old.room }
{
    let mut at = from;
    while let Some(slot) = rows.next(at) {
        if slot >= hi {
            return;
        }
        row_ops::lower(rows, slot, client, keep);
        at = slot + 1;
    }
}

/// The client holds nothing on the slots of the extent, and its first waiter on each goes. It looks
/// at the rows that are kept there, and at the one after them.
pub(crate) fn clear(rows: &mut ReservedMap<SlotRow>, client: u64, extent: Extent)
    requires used { (n : ℕ) (r : Kept) → map.get rows.old.map n ≡ Some r → row_of r ≢ blank_row }
    requires near { (n : ℕ) → END < n → map.get rows.old.map n ≡ None }
    requires client { client < MAX_CLIENTS }
    ensures all { IsAll (cleared_within extent client) rows.old.map rows.new.map }
    ensures room { rows.new.room ≡ rows.old.room }
{
    let mut at = extent.first;
    while let Some(slot) = rows.next(at) {
        if slot > extent.last {
            return;
        }
        row_ops::clear(rows, slot, client);
        at = slot + 1;
    }
}
