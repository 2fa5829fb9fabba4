//! Runs of calls.
ghost use Rattle.std.specs.Prelude.{IfOk, OnErr, ◌≡◌};
ghost use Rattle.std.specs.List.{AllByRecursion};
ghost use Rattle.krl_cache_laws.specs.Runs.{IsRuled, IsStep, Runs};

use krl_cache::{Belief, Scanned};
use krl_messages::{Holding, Holdings, Pieces, Value};
use krl_modes::{KeyPart, Mode, RangePart, Span};
use std::alloc::{AllocError, Global};

/// A call of a cache.
#[derive(Drop)]
pub enum CacheCall {
    RangeAt(u64),
    KeyAt(u64),
    ValueAt(u64),
    Adopt(Holding),
    AdoptAll(Holdings),
    Lower(Span, Mode),
    Scan(Span),
    Pieces,
}

/// What a cache answers.
#[derive(Drop)]
pub enum CacheReply {
    Range(RangePart),
    Key(KeyPart),
    Value(Option<Value>),
    /// The belief is adopted or lowered.
    Done,
    Found(Scanned),
    Told(Pieces),
    /// Memory was refused, and nothing has changed.
    OutOfMemory,
}

// Makes one call.
fn answer<B: Belief>(alloc: Global, cache: &mut B, call: &CacheCall) -> CacheReply
    requires { IsRuled call.now }
    ensures { IsStep (B.believed cache.old) call.now result (B.believed cache.new) }
{
    match call {
        CacheCall::RangeAt(p) => CacheReply::Range(cache.range_at(*p)),
        CacheCall::KeyAt(p) => CacheReply::Key(cache.key_at(*p)),
        CacheCall::ValueAt(p) => CacheReply::Value(cache.value_at(*p)),
        CacheCall::Adopt(holding) => match cache.adopt(*holding) {
            Ok(()) => CacheReply::Done,
            Err(_) => CacheReply::OutOfMemory,
        },
        CacheCall::AdoptAll(holdings) => match cache.adopt_all(holdings) {
            Ok(()) => CacheReply::Done,
            Err(_) => CacheReply::OutOfMemory,
        },
        CacheCall::Lower(span, keep) => match cache.lower(*span, *keep) {
            Ok(()) => CacheReply::Done,
            Err(_) => CacheReply::OutOfMemory,
        },
        CacheCall::Scan(span) => match cache.scan(alloc, *span) {
            Ok(found) => CacheReply::Found(found),
            Err(_) => CacheReply::OutOfMemory,
        },
        CacheCall::Pieces => match cache.pieces(alloc) {
            Ok(pieces) => CacheReply::Told(pieces),
            Err(_) => CacheReply::OutOfMemory,
        },
    }
}

/// Makes the calls, one after another, and answers each.
///
/// # Errors
///
/// `AllocError` if the memory for the list of answers is refused, before the first call. Nothing
/// has changed then.
pub fn run_cache<B: Belief>(
    alloc: Global,
    cache: &mut B,
    calls: &[CacheCall],
) -> Result<Vec<CacheReply>, AllocError>
    requires { AllByRecursion IsRuled calls.now }
    ensures run { IfOk result
        (λ replies. Runs (B.believed cache.old) calls.now replies.items (B.believed cache.new)) }
    ensures err { OnErr result (cache.new ≡ cache.old) }
{
    let mut replies = Vec::with_capacity(alloc, calls.len())?;
    for call in calls {
        let reply = answer(alloc, cache, call);
        let _ = replies.push(reply);
    }
    Ok(replies)
}
