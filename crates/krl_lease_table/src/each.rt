//! The rows of all clients.
ghost use Rattle.std.specs.Prelude.{◌≡◌, ◌<◌, length, map, replicate, slice_index_or};
ghost use Rattle.krl_modes.specs.declared.limits.TheConstants.{MAX_CLIENTS};
ghost use Rattle.krl_lease_table.specs.Flat.{row_of};
ghost use Rattle.krl_lease_table.specs.Rows as rows;
ghost use Rattle.krl_lease_table.specs.Tables as tables;

use crate::flat::FlatRow;
use crate::row::Row;
use krl_leases::{Terms, Until};
use krl_modes::MAX_CLIENTS;

/// Nothing is known of any client.
pub(crate) fn blank_rows() -> [FlatRow; MAX_CLIENTS]
    ensures { map row_of result ≡ replicate MAX_CLIENTS rows.blank }
{
    let blank = FlatRow::of(Row::blank());
    [blank; MAX_CLIENTS]
}

fn row_at(each: &[FlatRow], i: usize) -> Row
    requires { i < length each.now }
    ensures { result ≡ slice_index_or (map row_of each.now) i rows.blank }
{
    each[i].row()
}

/// The server begins.
pub(crate) fn open_rows(each: &mut [FlatRow], longest: u64, terms: Terms, now: u64)
    ensures { map row_of each.new ≡ map (rows.opened longest terms now) (map row_of each.old) }
{
    for i in 0..each.len() {
        each[i] = FlatRow::of(row_at(each, i).opened(longest, terms, now));
    }
}

/// Less is to be stored.
pub(crate) fn revise_rows(
    each: &mut [FlatRow],
    longest: u64,
    terms: Terms,
    old_end: Until,
    now: u64,
)
    ensures { map row_of each.new
        ≡ map (tables.revised_row longest terms old_end now) (map row_of each.old) }
{
    for i in 0..each.len() {
        let row = row_at(each, i);
        each[i] = FlatRow::of(row.with_kept(row.revised(longest, terms, old_end, now)));
    }
}
