//! Exports on shards: which one has a point, and what each one has of a span.
ghost use Rattle.std.specs.Prelude.{◌≡◌};
ghost use Rattle.krl_embed.specs.Shards.{row_of, Copies, TellsShard, TellsParts};

use crate::code::Code;
use crate::reply::Reply;
use krl_modes::{Point, Span};
use krl_shards::{Part, Shards};

/// What one shard has of a span: the points from `lo` on that lie below `hi`.
#[repr(C)]
#[derive(Clone, Copy)]
pub struct PartRow {
    shard: u64,
    lo: u64,
    hi: u64,
}

impl PartRow {
    fn of(part: &Part) -> PartRow
        ensures { result ≡ row_of part.now }
    {
        PartRow {
            shard: part.shard,
            lo: part.lo,
            hi: part.hi,
        }
    }
}

// The parts go into `parts`: Done, and their count; or TooShort with that, and none goes there.
fn copy_parts(found: &[Part], parts: &mut [PartRow]) -> Reply
    ensures { Copies found.now parts.old parts.new result }
{
    let count = found.len();
    if parts.len() < count {
        return Reply::with(Code::TooShort, count as u64);
    }
    for i in 0..count {
        parts[i] = PartRow::of(&found[i]);
    }
    Reply::with(Code::Done, count as u64)
}

/// The shard that has the point, if the shards begin at 0 and at each of these bounds.
#[unsafe(no_mangle)]
pub extern "C" fn krl_shard_of(bounds: &[u64], point: u64) -> Reply
    ensures { TellsShard bounds.now point result }
{
    let Ok(shards) = Shards::new(bounds) else {
        return Reply::of(Code::BadShards);
    };
    let Some(point) = Point::new(point) else {
        return Reply::of(Code::BadPoint);
    };
    Reply::with(Code::Done, shards.shard_of(point))
}

/// What each shard has of a span, if the shards begin at 0 and at each of these bounds.
#[unsafe(no_mangle)]
pub extern "C" fn krl_parts(bounds: &[u64], lo: u64, hi: u64, parts: &mut [PartRow]) -> Reply
    ensures { TellsParts bounds.now (record { lo = lo; hi = hi }) parts.old parts.new result }
{
    let Ok(shards) = Shards::new(bounds) else {
        return Reply::of(Code::BadShards);
    };
    let Ok(span) = Span::new(lo, hi) else {
        return Reply::of(Code::BadSpan);
    };
    copy_parts(shards.parts(span).as_slice(), parts)
}
