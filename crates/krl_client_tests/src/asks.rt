//! Calls of a cache, one after another, and what each gives. If an allocation is refused, a
//! cache believes what it believed, and the refused call is made again.
use crate::again::{CALLS, put, room_for};
use crate::shown::{are_rows, are_told};
use krl_cache::{Belief, Scanned};
use krl_messages::{Holding, Holdings, Value};
use krl_modes::{END, KeyPart, Mode, RangePart, Span};
use std::alloc::{AllocError, Global};

// The bytes of a value.
pub type Bytes = &'static [u8];

// A holding, by the ends of its span.
pub type Held = (u64, u64, Mode, Option<Bytes>);

// A call, by the ends of its span.
pub enum Ask {
    Adopt(u64, u64, Mode, Option<Bytes>),
    AdoptAll(&'static [Held]),
    Lower(u64, u64, Mode),
    Scan(u64, u64),
    At(u64),
    Pieces,
}

// What it gives.
pub enum Gives {
    Done,
    Rows(&'static [(u64, Bytes)]),
    Miss(u64),
    Here(RangePart, KeyPart, Option<Bytes>),
    Told(&'static [(u64, u64, RangePart)], &'static [(u64, KeyPart)]),
}

static POINTS: [u64; 9] = [0, 3, 4, 5, 7, 10, 11, 20, END];

// What is believed at a point.
fn at<B: Belief>(cache: &B, p: u64) -> (RangePart, KeyPart, Option<Value>) {
    (cache.range_at(p), cache.key_at(p), cache.value_at(p))
}

// What is believed at the points that the rows name.
fn seen<B: Belief>(cache: &B) -> [(RangePart, KeyPart, Option<Value>); 9] {
    let mut all = [(RangePart::N, KeyPart::N, None); 9];
    for i in 0..9usize {
        all[i] = at(cache, POINTS[i]);
    }
    all
}

// What changes what is believed.
#[derive(Clone, Copy)]
enum Change<'a> {
    Adopt(Holding),
    AdoptAll(&'a Holdings),
    Lower(Span, Mode),
}

// Asks the cache for the change; None if a holding has not the value that it has to have.
fn asked<B: Belief>(cache: &mut B, change: &Change<'_>) -> Option<Result<(), AllocError>> {
    match change {
        Change::Adopt(holding) => {
            let judged = *holding;
            if judged.has_its_value() {
                Some(cache.adopt(*holding))
            } else {
                None
            }
        }
        Change::AdoptAll(holdings) if holdings.have_values() => Some(cache.adopt_all(holdings)),
        Change::AdoptAll(_) => None,
        Change::Lower(span, keep) => Some(cache.lower(*span, *keep)),
    }
}

// Whether the change is made, perhaps after refusals, each of which changes nothing.
fn is_done<B: Belief>(cache: &mut B, change: &Change<'_>) -> bool {
    let before = seen(cache);
    for _ in 0..CALLS {
        match asked(cache, change) {
            Some(Ok(())) => return true,
            Some(Err(_)) if seen(cache) == before => {}
            _ => return false,
        }
    }
    false
}

fn holding(held: Held) -> Option<Holding> {
    let (lo, hi, mode, bytes) = held;
    let value = match bytes {
        Some(bytes) => Some(Value::new(bytes)?),
        None => None,
    };
    match Span::new(lo, hi) {
        Ok(span) => Some(Holding { span, mode, value }),
        Err(_) => None,
    }
}

// These holdings, if they are 1 to 128 in ascending order.
fn listed(alloc: Global, all: &[Held]) -> Option<Holdings> {
    let mut items = room_for(alloc, all.len())?;
    for held in all {
        put(&mut items, holding(*held))?;
    }
    Holdings::new(items)
}

fn is_found(found: &Scanned, gives: &Gives) -> bool {
    match (found, gives) {
        (Scanned::Rows(rows), Gives::Rows(expected)) => are_rows(rows.as_slice(), expected),
        (Scanned::Miss(p), Gives::Miss(expected)) => p == expected,
        _ => false,
    }
}

fn scans<B: Belief>(alloc: Global, cache: &B, span: Span, gives: &Gives) -> bool {
    for _ in 0..CALLS {
        if let Ok(found) = cache.scan(alloc, span) {
            return is_found(&found, gives);
        }
    }
    false
}

fn tells<B: Belief>(
    alloc: Global,
    cache: &B,
    ranges: &[(u64, u64, RangePart)],
    keys: &[(u64, KeyPart)],
) -> bool {
    for _ in 0..CALLS {
        if let Ok(pieces) = cache.pieces(alloc) {
            return are_told(&pieces, ranges, keys);
        }
    }
    false
}

// Whether the value is of these bytes, or there is none.
fn is_value(value: Option<Value>, expected: Option<Bytes>) -> bool {
    match (value, expected) {
        (None, None) => true,
        (Some(value), Some(bytes)) => value.bytes() == bytes,
        _ => false,
    }
}

// Whether the call gives this.
fn answers<B: Belief>(alloc: Global, cache: &mut B, ask: &Ask, expected: &Gives) -> bool {
    match (ask, expected) {
        (Ask::Adopt(lo, hi, mode, bytes), Gives::Done) => {
            match holding((*lo, *hi, *mode, *bytes)) {
                Some(holding) => is_done(cache, &Change::Adopt(holding)),
                None => false,
            }
        }
        (Ask::AdoptAll(all), Gives::Done) => match listed(alloc, all) {
            Some(holdings) => is_done(cache, &Change::AdoptAll(&holdings)),
            None => false,
        },
        (Ask::Lower(lo, hi, keep), Gives::Done) => match Span::new(*lo, *hi) {
            Ok(span) => is_done(cache, &Change::Lower(span, *keep)),
            Err(_) => false,
        },
        (Ask::Scan(lo, hi), _) => match Span::new(*lo, *hi) {
            Ok(span) => scans(alloc, cache, span, expected),
            Err(_) => false,
        },
        (Ask::At(p), Gives::Here(range, key, bytes)) => {
            let (range_there, key_there, value) = at(cache, *p);
            range_there == *range && key_there == *key && is_value(value, *bytes)
        }
        (Ask::Pieces, Gives::Told(ranges, keys)) => tells(alloc, cache, ranges, keys),
        _ => false,
    }
}

// Whether each call of the rows gives what stands next to it.
pub fn all_give<B: Belief>(alloc: Global, cache: &mut B, rows: &[(Ask, Gives)]) -> bool {
    for (ask, expected) in rows {
        if !answers(alloc, cache, ask, expected) {
            return false;
        }
    }
    true
}
