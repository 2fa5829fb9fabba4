//! What a client reports, read.
ghost use Rattle.krl_wire.specs.Reading.{Reads, ReadsIfRoom, range_piece_at, key_piece_at};
ghost use Rattle.krl_wire.specs.Reading.{items_at, list_at, pieces_at};

use crate::fault::{Fault, ReadError};
use crate::reader::Reader;
use krl_messages::{KeyPiece, KeyPieces, Pieces, RangePiece, RangePieces};
use krl_modes::{KeyPart, RangePart};
use std::alloc::Global;

// The bytes of a range part on a span, and of a key part at a point.
const RANGE_PIECE: usize = 17;

const KEY_PIECE: usize = 9;

// Each part stands at its tag.
static RANGE_PARTS: [RangePart; 4] = [RangePart::N, RangePart::S, RangePart::I, RangePart::X];

static KEY_PARTS: [KeyPart; 4] = [KeyPart::N, KeyPart::S, KeyPart::U, KeyPart::X];

#[tactic(auto, unfolding(crate::specs::Reading::range_piece_at))]
fn range_piece(reader: &mut Reader<'_>) -> Result<RangePiece, Fault>
    ensures { Reads result reader.new (range_piece_at reader.old) }
{
    let span = reader.span()?;
    let part = reader.tag(&RANGE_PARTS, Fault::Part)?;
    Ok(RangePiece { span, part })
}

#[tactic(auto, unfolding(crate::specs::Reading::key_piece_at))]
fn key_piece(reader: &mut Reader<'_>) -> Result<KeyPiece, Fault>
    ensures { Reads result reader.new (key_piece_at reader.old) }
{
    let point = reader.number()?;
    let part = reader.tag(&KEY_PARTS, Fault::Part)?;
    Ok(KeyPiece { point, part })
}

// So many range parts, in a list with room for just them.
fn range_pieces(
    reader: &mut Reader<'_>,
    alloc: Global,
    count: u32,
) -> Result<RangePieces, ReadError>
    ensures { ReadsIfRoom result reader.new (items_at range_piece_at count reader.old) }
{
    let mut items = Vec::with_capacity(alloc, count as usize)?;
    for _ in 0..count {
        let item = range_piece(reader)?;
        items.push(item)?;
    }
    Ok(items.into())
}

// So many key parts, in a list with room for just them.
fn key_pieces(reader: &mut Reader<'_>, alloc: Global, count: u32) -> Result<KeyPieces, ReadError>
    ensures { ReadsIfRoom result reader.new (items_at key_piece_at count reader.old) }
{
    let mut items = Vec::with_capacity(alloc, count as usize)?;
    for _ in 0..count {
        let item = key_piece(reader)?;
        items.push(item)?;
    }
    Ok(items.into())
}

// A list of range parts.
#[tactic(auto, unfolding(crate::specs::Reading::list_at))]
fn range_list(reader: &mut Reader<'_>, alloc: Global) -> Result<RangePieces, ReadError>
    ensures { ReadsIfRoom result reader.new (list_at 17 range_piece_at reader.old) }
{
    let count = reader.count(RANGE_PIECE)?;
    range_pieces(reader, alloc, count)
}

// A list of key parts.
#[tactic(auto, unfolding(crate::specs::Reading::list_at))]
fn key_list(reader: &mut Reader<'_>, alloc: Global) -> Result<KeyPieces, ReadError>
    ensures { ReadsIfRoom result reader.new (list_at 9 key_piece_at reader.old) }
{
    let count = reader.count(KEY_PIECE)?;
    key_pieces(reader, alloc, count)
}

/// The range parts, and the key parts.
#[tactic(auto, unfolding(crate::specs::Reading::pieces_at))]
pub fn pieces(reader: &mut Reader<'_>, alloc: Global) -> Result<Pieces, ReadError>
    ensures { ReadsIfRoom result reader.new (pieces_at reader.old) }
{
    let ranges = range_list(reader, alloc)?;
    let keys = key_list(reader, alloc)?;
    Ok(Pieces { ranges, keys })
}
