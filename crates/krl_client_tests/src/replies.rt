//! Calls of both forms of a cache as data, and what each replies. If an allocation is refused,
//! the call is made again.
use crate::asks::Bytes;
use crate::shown::{Range, are_rows, are_told};
use krl_cache::{Belief, Cache, Scanned};
use krl_cache_laws::{CacheCall, CacheReply, PlainCache, run_cache};
use krl_messages::{Holding, Value};
use krl_modes::{KeyPart, Mode, RangePart, Span};
use std::alloc::Global;

fn has_refusal(replies: &[CacheReply]) -> bool {
    for reply in replies {
        if matches!(reply, CacheReply::OutOfMemory) {
            return true;
        }
    }
    false
}

// A reply to a call.
enum Reply {
    Done,
    Rows(&'static [(u64, Bytes)]),
    Miss(u64),
    Range(RangePart),
    Key(KeyPart),
    NoValue,
    Told(&'static [Range], &'static [(u64, KeyPart)]),
}

// The replies to the calls of `run`.
static REPLIES: [Reply; 10] = [
    Reply::Done,
    Reply::Done,
    Reply::Rows(&[(10, &[0, 0, 0, 0, 0, 0, 0, 1])]),
    Reply::Miss(11),
    Reply::Done,
    Reply::Range(RangePart::N),
    Reply::Key(KeyPart::N),
    Reply::NoValue,
    Reply::Miss(0),
    Reply::Told(&[(11, 21, RangePart::I)], &[]),
];

fn is_reply(reply: &CacheReply, expected: &Reply) -> bool {
    match (reply, expected) {
        (CacheReply::Done, Reply::Done) => true,
        (CacheReply::Found(Scanned::Rows(rows)), Reply::Rows(told)) => {
            are_rows(rows.as_slice(), told)
        }
        (CacheReply::Found(Scanned::Miss(p)), Reply::Miss(point)) => p == point,
        (CacheReply::Range(part), Reply::Range(told)) => part == told,
        (CacheReply::Key(part), Reply::Key(told)) => part == told,
        (CacheReply::Value(None), Reply::NoValue) => true,
        (CacheReply::Told(pieces), Reply::Told(ranges, keys)) => are_told(pieces, ranges, keys),
        _ => false,
    }
}

fn are_replies(replies: &[CacheReply]) -> bool {
    if replies.len() != REPLIES.len() {
        return false;
    }
    for i in 0..replies.len() {
        if !is_reply(&replies[i], &REPLIES[i]) {
            return false;
        }
    }
    true
}

// The calls of two holdings, in one run. None if it is refused memory.
fn run<B: Belief>(alloc: Global, cache: &mut B) -> Option<Vec<CacheReply>> {
    let first = Span::new(0, 11).ok()?;
    let second = Span::new(11, 21).ok()?;
    let both = Span::new(0, 21).ok()?;
    let read = Holding {
        span: first,
        mode: Mode::RangeSS,
        value: Some(Value::from_u64(1)),
    };
    let inserts = Holding {
        span: second,
        mode: Mode::RangeIN,
        value: None,
    };
    let calls = [
        CacheCall::Adopt(read),
        CacheCall::Adopt(inserts),
        CacheCall::Scan(first),
        CacheCall::Scan(both),
        CacheCall::Lower(first, Mode::RangeIN),
        CacheCall::RangeAt(10),
        CacheCall::KeyAt(10),
        CacheCall::ValueAt(10),
        CacheCall::Scan(first),
        CacheCall::Pieces,
    ];
    run_cache(alloc, cache, calls.as_slice()).ok()
}

// Whether a cache that believes nothing gives the replies; None if the run is refused memory.
fn runs<B: Belief>(alloc: Global, cache: &mut B) -> Option<bool> {
    let replies = run(alloc, cache)?;
    if has_refusal(replies.as_slice()) {
        return None;
    }
    Some(are_replies(replies.as_slice()))
}

// Whether one of these caches, that believe nothing, gives the replies: a run that is refused
// memory is made again on the next.
fn one_runs<B: Belief>(alloc: Global, caches: &mut [B]) -> bool {
    for cache in caches {
        if let Some(are_right) = runs(alloc, cache) {
            return are_right;
        }
    }
    false
}

fn cache_runs(alloc: Global) -> bool {
    let mut caches = [Cache::new(alloc), Cache::new(alloc), Cache::new(alloc)];
    one_runs(alloc, &mut caches)
}

fn plain_cache_runs(alloc: Global) -> bool {
    let mut caches = [
        PlainCache::new(alloc),
        PlainCache::new(alloc),
        PlainCache::new(alloc),
    ];
    one_runs(alloc, &mut caches)
}

#[test]
fn both_run(rt: HostRuntime) {
    assert!(rt; cache_runs(rt.alloc()));
    assert!(rt; plain_cache_runs(rt.alloc()));
}
