//! A walk over what stands in a span of a map, to its end.
ghost use Rattle.std.specs.Prelude.{◌≡◌, ℕ};
ghost use Rattle.std.specs.Ordering.{nat_cmp};
ghost use Rattle.std.specs.Map.Calls.{CalledAtPair};
ghost use Rattle.std.specs.BTreeMap.ExtractIf.{CanExtractIf};
ghost use Rattle.std.specs.declared.ops.Range.{Range};
ghost use Rattle.std.specs.declared.ops.Bound.TheVariants.{Excluded};
ghost use Rattle.std_collections.specs.Layout.BTreeMapQueries.{end_test};
ghost use Rattle.krl_cache.specs.Sifts.{RunsOut};

use std::alloc::Global;
use std::collections::btree_map::ExtractIf;
use std::ops::Range;

// Continues to the end: each pair that its test picks goes, and the others stay as the test leaves
// them.
pub fn run_out<V: Copy + Drop, F: Copy + FnMut(&u64, &mut V) -> bool>(
    walk: &mut ExtractIf<'_, u64, V, Range<u64>, F, Global>,
)
    requires { CanExtractIf F.FnMut walk.old }
    ensures same { walk.new.map.ghost_name ≡ walk.old.map.ghost_name }
    ensures out { RunsOut (CalledAtPair F.FnMut)
        (λ (r : Range ℕ). end_test nat_cmp (Excluded r.end))
        walk.old.map.now walk.new.map.now walk.old.cursor }
{
    while let Some(_) = walk.next() {}
}
