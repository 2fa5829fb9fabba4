//! Pieces in order, in a plain list.
ghost use Rattle.std.specs.Prelude.{◌≡◌, ◌≤◌, ◌<◌, ◌++◌, ◌∷◌, ℕ, List, true, IsTrue, ◌↔◌};
ghost use Rattle.std.specs.Prelude.{MatchOption, IfOk, OnOk, if◌then◌else◌};
ghost use Rattle.std.specs.List.{filter_map, find as list_find};
ghost use Rattle.krl_modes.specs.declared.point.TheConstants.{TOP};
ghost use Rattle.krl_modes.specs.declared.part.RangePart.TheVariants as range;
ghost use Rattle.krl_modes.specs.Parts.{range_meet};
ghost use Rattle.krl_modes.specs.Spans.{contains};
ghost use Rattle.krl_cache.specs.Beliefs as beliefs;
ghost use Rattle.krl_cache.specs.Kept.{first_range_at, AreMerged};
ghost use Rattle.krl_cache.specs.Entries.{StandWithin};
ghost use Rattle.krl_messages.specs.declared.range_pieces.RangePiece.{RangePiece};
ghost use Rattle.krl_cache_laws.specs.Lists.{clip, Holds, GoesOn, IsBoth, AddsBehind};

use krl_messages::RangePiece;
use krl_modes::{RangePart, Span, TOP};
use std::alloc::{AllocError, Global};

// What of a piece lies from `lo` on below `hi`, lowered.
fn clip(piece: &RangePiece, lo: u64, hi: u64, keep: RangePart) -> Option<RangePiece>
    requires { hi ≤ TOP }
    ensures { result ≡ clip lo hi keep piece.now }
{
    let from = piece.span.lo().max(lo);
    let to = piece.span.hi().min(hi);
    match Span::new(from, to) {
        Ok(span) => Some(RangePiece {
            span,
            part: piece.part.meet(keep),
        }),
        Err(_) => None,
    }
}

// Adds what of the pieces lies from `lo` on below `hi`, lowered.
fn add_pieces(
    list: &mut Vec<RangePiece>,
    pieces: &[RangePiece],
    lo: u64,
    hi: u64,
    keep: RangePart,
) -> Result<(), AllocError>
    requires { hi ≤ TOP }
    ensures { OnOk result
        (list.new.items ≡ list.old.items ++ filter_map (clip lo hi keep) pieces.now) }
{
    for piece in pieces {
        if let Some(part) = clip(piece, lo, hi, keep) {
            list.push(part)?;
        }
    }
    Ok(())
}

// Whether the second piece continues where the first ends, and states the same.
fn goes_on(first: &RangePiece, second: &RangePiece) -> bool
    ensures { IsTrue result ↔ GoesOn first.now second.now }
{
    first.span.hi() == second.span.lo() && first.part == second.part
}

// The piece that covers both, if the second continues with the first.
fn both(first: &RangePiece, second: &RangePiece) -> Option<RangePiece>
    requires { first.now.span.lo ≤ second.now.span.lo }
    ensures { MatchOption result (¬ GoesOn first.now second.now) (IsBoth first.now second.now) }
{
    if !goes_on(first, second) {
        return None;
    }
    let span = Span::new(first.span.lo(), second.span.hi()).ok()?;
    let part = second.part;
    Some(RangePiece { span, part })
}

// Whether the piece states N.
fn says_none(piece: &RangePiece) -> bool
    ensures { IsTrue result ↔ (piece.now.part ≡ range.N) }
{
    matches!(piece.part, RangePart::N)
}

// Adds a piece after the others. It is one with the last, if it continues with it, and is left
// out if it states N.
fn add_behind(list: &mut Vec<RangePiece>, piece: RangePiece) -> Result<(), AllocError>
    requires { (rest : List RangePiece) × StandWithin 0 TOP (list.old.items ++ piece ∷ rest) }
    ensures { OnOk result (AddsBehind list.old.items piece list.new.items) }
{
    if says_none(&piece) {
        return Ok(());
    }
    let Some(last) = list.pop() else {
        list.push(piece)?;
        return Ok(());
    };
    if let Some(whole) = both(&last, &piece) {
        list.push(whole)?;
    } else {
        list.push(last)?;
        list.push(piece)?;
    }
    Ok(())
}

// The pieces, in which neighbours that state the same are one, and none states N.
fn merged(alloc: Global, pieces: &[RangePiece]) -> Result<Vec<RangePiece>, AllocError>
    requires { StandWithin 0 TOP pieces.now }
    ensures stand { IfOk result (λ list. StandWithin 0 TOP list.items) }
    ensures said { IfOk result
        (λ list. (p : ℕ) → first_range_at list.items p ≡ first_range_at pieces.now p) }
    ensures merged { IfOk result (λ list. AreMerged list.items) }
{
    let mut list = Vec::new(alloc);
    for piece in pieces {
        add_behind(&mut list, *piece)?;
    }
    Ok(list)
}

// The pieces, cut at the ends of a span, with a part on it in place of what was there.
fn cut_with(
    alloc: Global,
    pieces: &[RangePiece],
    span: Span,
    part: RangePart,
) -> Result<Vec<RangePiece>, AllocError>
    requires { StandWithin 0 TOP pieces.now }
    ensures span { beliefs.is_span span ≡ true }
    ensures stand { IfOk result (λ list. StandWithin 0 TOP list.items) }
    ensures said { IfOk result
        (λ list. (p : ℕ) → first_range_at list.items p
        ≡ (if contains span p then part else first_range_at pieces.now p)) }
{
    let lo = span.lo();
    let hi = span.hi();
    let mut list = Vec::new(alloc);
    add_pieces(&mut list, pieces, 0, lo, RangePart::X)?;
    list.push(RangePiece { span, part })?;
    add_pieces(&mut list, pieces, hi, TOP, RangePart::X)?;
    Ok(list)
}

// The pieces, with a part on a span in place of what was there.
pub fn pieces_with(
    alloc: Global,
    pieces: &[RangePiece],
    span: Span,
    part: RangePart,
) -> Result<Vec<RangePiece>, AllocError>
    requires { StandWithin 0 TOP pieces.now }
    ensures span { beliefs.is_span span ≡ true }
    ensures stand { IfOk result (λ list. StandWithin 0 TOP list.items) }
    ensures said { IfOk result
        (λ list. (p : ℕ) → first_range_at list.items p
        ≡ (if contains span p then part else first_range_at pieces.now p)) }
    ensures merged { IfOk result (λ list. AreMerged list.items) }
{
    let list = cut_with(alloc, pieces, span, part)?;
    merged(alloc, &list)
}

// The pieces, cut at the ends of a span, and lowered on it.
fn cut_lowered(
    alloc: Global,
    pieces: &[RangePiece],
    span: Span,
    keep: RangePart,
) -> Result<Vec<RangePiece>, AllocError>
    requires { StandWithin 0 TOP pieces.now }
    ensures stand { IfOk result (λ list. StandWithin 0 TOP list.items) }
    ensures said { IfOk result
        (λ list. (p : ℕ) → first_range_at list.items p
        ≡ (if contains span p
        then range_meet (first_range_at pieces.now p) keep else first_range_at pieces.now p)) }
{
    let lo = span.lo();
    let hi = span.hi();
    let mut list = Vec::new(alloc);
    add_pieces(&mut list, pieces, 0, lo, RangePart::X)?;
    add_pieces(&mut list, pieces, lo, hi, keep)?;
    add_pieces(&mut list, pieces, hi, TOP, RangePart::X)?;
    Ok(list)
}

// The pieces, lowered on a span.
pub fn pieces_lowered(
    alloc: Global,
    pieces: &[RangePiece],
    span: Span,
    keep: RangePart,
) -> Result<Vec<RangePiece>, AllocError>
    requires { StandWithin 0 TOP pieces.now }
    ensures stand { IfOk result (λ list. StandWithin 0 TOP list.items) }
    ensures said { IfOk result
        (λ list. (p : ℕ) → first_range_at list.items p
        ≡ (if contains span p
        then range_meet (first_range_at pieces.now p) keep else first_range_at pieces.now p)) }
    ensures merged { IfOk result (λ list. AreMerged list.items) }
{
    let list = cut_lowered(alloc, pieces, span, keep)?;
    merged(alloc, &list)
}

// The first piece over the point.
fn piece_at(pieces: &[RangePiece], p: u64) -> Option<RangePiece>
    ensures { result ≡ list_find (λ x. contains x.span p) pieces.now }
{
    pieces
        .iter()
        .copied()
        .find(|piece| piece.span.lo() <= p && p < piece.span.hi())
}

// The range part at the point, and an end of points from it on where it holds.
pub fn part_from(pieces: &[RangePiece], p: u64) -> (RangePart, u64)
    requires stand { StandWithin 0 TOP pieces.now }
    requires point { p < TOP }
    ensures { Holds (first_range_at pieces.now) p result.0 result.1 }
{
    match piece_at(pieces, p) {
        Some(piece) => (piece.part, piece.span.hi()),
        None => (RangePart::N, p + 1),
    }
}

// The range part at the point.
pub fn part_at(pieces: &[RangePiece], p: u64) -> RangePart
    ensures { result ≡ first_range_at pieces.now p }
{
    match piece_at(pieces, p) {
        Some(piece) => piece.part,
        None => RangePart::N,
    }
}
