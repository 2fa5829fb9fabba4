//! Whether the rows that answer a scan are those of the index.
ghost use Rattle.std.specs.Prelude.{◌≡◌, ◌≢◌, ℕ, ◌&&◌, ◌++◌, List, true, IfSome, IfNone, filter};
ghost use Rattle.std.specs.Prelude.{nat_le, nat_lt};
ghost use Rattle.krl_blocks.specs.Laid.{flat};
ghost use Rattle.krl_blocks.specs.Runs.{runs_of};
ghost use Rattle.krl_messages.specs.Values as values;
ghost use Rattle.krl_world.specs.States.{index_of};
ghost use Rattle.krl_world.specs.Fields.{meaning};
ghost use Rattle.krl_script.specs.ScannedRows.{RowsAreRange};

use krl_blocks::Entries;
use krl_messages::Value;
use krl_world::{Answer, Command, Refused, Step, World};

// The rows after those of the entries with keys from lo on below hi; None if the rows do not
// begin with them.
fn rows_behind<'a>(
    entries: &[(u64, Value)],
    rows: &'a [(u64, Value)],
    lo: u64,
    hi: u64,
) -> Option<&'a [(u64, Value)]>
    ensures some { IfSome result
        (λ rest. rows.now ≡ filter (λ e. nat_le lo e.0 && nat_lt e.0 hi) entries.now ++ rest.now) }
    ensures none { IfNone result ((rest : List (ℕ × values.Value))
        → rows.now ≢ filter (λ e. nat_le lo e.0 && nat_lt e.0 hi) entries.now ++ rest) }
{
    let mut left = rows;
    for entry in entries {
        if entry.0 < lo || entry.0 >= hi {
            continue;
        }
        match left.split_first() {
            Some((row, rest)) if *row == *entry => left = rest,
            _ => return None,
        }
    }
    Some(left)
}

// Whether these rows are the entries with keys from lo on below hi.
fn are_range(entries: &Entries<'_, Value>, rows: &[(u64, Value)], lo: u64, hi: u64) -> bool
    ensures sound { rows.now ≡ filter
        (λ e. nat_le lo e.0 && nat_lt e.0 hi) (flat (runs_of entries.now))
        → result ≡ true }
    ensures looks { result ≡ true
        → rows.now ≡ filter (λ e. nat_le lo e.0 && nat_lt e.0 hi) (flat (runs_of entries.now)) }
{
    let mut left = rows;
    for i in 0..entries.len() {
        match rows_behind(entries.get(i), left, lo, hi) {
            None => return false,
            Some(rest) => left = rest,
        }
    }
    left.is_empty()
}

/// Whether what a step answered is what the index has, if it is a scan's rows.
pub fn answers_index(world: &World, step: Step, outcome: &Result<Answer, Refused>) -> bool
    ensures sound { RowsAreRange (index_of (meaning world.now)) step outcome.now → result ≡ true }
    ensures looks { result ≡ true → RowsAreRange (index_of (meaning world.now)) step outcome.now }
{
    let Step::Command(_, command) = step else {
        return true;
    };
    let Command::Scan { lo, hi } = command else {
        return true;
    };
    let Ok(answer) = outcome else {
        return true;
    };
    let Answer::Rows(rows) = answer else {
        return true;
    };
    are_range(&world.index(), rows.as_slice(), lo, hi)
}
