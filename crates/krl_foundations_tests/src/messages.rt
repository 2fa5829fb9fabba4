//! Messages: their lists, their clones, and what is read off them. A refused call is made again, so
//! that each run ends alike, whichever requests for memory are refused.
use crate::again::CALLS;
use krl_messages::{
    Holding, Holdings, Items, KeyPiece, KeyPieces, Pieces, RangePiece, RangePieces, ToServer,
    ToServerBody, Value, WriteOp,
};
use krl_modes::{END, KeyPart, MAX_HOLDINGS, Mode, RangePart, Span, TOP};
use std::alloc::Global;
use std::slice::from_ref;

static KEYS: [KeyPiece; 2] = [
    KeyPiece {
        point: 10,
        part: KeyPart::U,
    },
    KeyPiece {
        point: 20,
        part: KeyPart::S,
    },
];

/// A span's ends, a mode and a value, which is a number, and whether the value is there exactly
/// if it has to be.
static HOLDINGS: [(u64, u64, Mode, Option<u64>, bool); 6] = [
    (0, 11, Mode::RangeSS, Some(1), true),
    (0, 11, Mode::RangeSS, None, false),
    (0, 11, Mode::RangeIN, None, true),
    (0, 11, Mode::RangeIN, Some(1), false),
    (11, TOP, Mode::RangeXX, None, true),
    (11, TOP, Mode::RangeXX, Some(1), false),
];

/// Range parts, asked for again if they are refused.
fn ranges(alloc: Global, parts: &[RangePiece]) -> Option<RangePieces> {
    for _ in 0..CALLS {
        if let Ok(pieces) = Vec::from_slice(alloc, parts) {
            return Some(pieces.into());
        }
    }
    None
}

/// Two key parts, asked for again if they are refused.
fn keys(alloc: Global) -> Option<KeyPieces> {
    for _ in 0..CALLS {
        if let Ok(pieces) = Vec::from_slice(alloc, &KEYS) {
            return Some(pieces.into());
        }
    }
    None
}

/// A report of two range parts and of those key parts.
fn report(alloc: Global, span: Span) -> Option<ToServer> {
    let part = RangePart::S;
    let ranges = ranges(
        alloc,
        &[RangePiece { span, part }, RangePiece { span, part }],
    )?;
    let keys = keys(alloc)?;
    let pieces = Pieces { ranges, keys };
    Some(ToServer {
        client: 3,
        incarnation: 2,
        body: ToServerBody::Report { epoch: 1, pieces },
    })
}

/// Its clone, asked for again if it is refused.
fn cloned(alloc: Global, message: &ToServer) -> Option<ToServer> {
    for _ in 0..CALLS {
        if let Ok(copy) = message.try_clone(alloc) {
            return Some(copy);
        }
    }
    None
}

// Whether this is the report.
fn is_report(message: &ToServer, span: Span) -> bool {
    let ToServerBody::Report { epoch, pieces } = &message.body else {
        return false;
    };
    let ranges = pieces.ranges.as_slice();
    message.client == 3
        && message.incarnation == 2
        && *epoch == 1
        && ranges.len() == 2
        && ranges[1].span == span
        && pieces.keys.as_slice() == KEYS.as_slice()
}

/// Whether the report on this span has an equal clone.
fn is_cloned(alloc: Global, lo: u64, hi: u64) -> Option<bool> {
    let span = Span::new(lo, hi).ok()?;
    let message = report(alloc, span)?;
    let copy = cloned(alloc, &message)?;
    Some(message == copy && is_report(&copy, span))
}

#[test]
fn clones_a_report(rt: HostRuntime) {
    assert!(rt; is_cloned(rt.alloc(), 0, 11) == Some(true));
}

/// The holding of a row.
fn holding_of(lo: u64, hi: u64, mode: Mode, value: Option<u64>) -> Option<Holding> {
    let span = Span::new(lo, hi).ok()?;
    let value = match value {
        Some(number) => Some(Value::from_u64(number)),
        None => None,
    };
    Some(Holding { span, mode, value })
}

/// Whether its slot is the last point of its span, and it has its value or not, as `has` states.
fn is_as_told(holding: &Holding, has: bool) -> bool {
    holding.slot() == holding.span.last() && holding.has_its_value() == has
}

#[test]
fn a_holding_has_a_value_where_it_reads_an_entry(rt: HostRuntime) {
    for (lo, hi, mode, value, has) in &HOLDINGS {
        let Some(holding) = holding_of(*lo, *hi, *mode, *value) else {
            panic!(rt; "{lo} to {hi} is no span");
        };
        assert!(rt; is_as_told(&holding, *has), "{lo} to {hi}");
    }
}

/// What a client reads of the nth slot, whose entry is the number n.
fn nth(n: u64) -> Option<Holding> {
    let lo = n.saturating_mul(10);
    let span = Span::new(lo, lo.saturating_add(10)).ok()?;
    Some(Holding {
        span,
        mode: Mode::RangeSS,
        value: Some(Value::from_u64(n)),
    })
}

/// Room for so many holdings.
fn room_for(alloc: Global, count: usize) -> Option<Vec<Holding>> {
    for _ in 0..CALLS {
        if let Ok(items) = Vec::with_capacity(alloc, count) {
            return Some(items);
        }
    }
    None
}

/// Puts the holding after the others, if there is one.
fn put(items: &mut Vec<Holding>, holding: Option<Holding>) -> Option<()> {
    items.extend_from_slice(from_ref(&holding?)).ok()
}

/// What a client reads of these slots, in their order.
fn of_slots(alloc: Global, slots: &[u64]) -> Option<Holdings> {
    let mut items = room_for(alloc, slots.len())?;
    for n in slots {
        put(&mut items, nth(*n))?;
    }
    Holdings::new(items)
}

/// The holdings of the first slots, as many as this, and then this one.
fn first_and(alloc: Global, n: u64, last: Option<Holding>) -> Option<Holdings> {
    let mut items = room_for(alloc, MAX_HOLDINGS + 2)?;
    for i in 0..n {
        put(&mut items, nth(i))?;
    }
    if last.is_some() {
        put(&mut items, last)?;
    }
    Holdings::new(items)
}

/// The holdings of the first slots, as many as this.
fn first(alloc: Global, n: u64) -> Option<Holdings> {
    first_and(alloc, n, None)
}

/// Whether these are the holdings of the first slots.
fn are_first(holdings: &[Holding]) -> bool {
    for (n, holding) in (0..MAX_HOLDINGS as u64).zip(holdings) {
        if nth(n) != Some(*holding) {
            return false;
        }
    }
    true
}

/// Whether the first n holdings are those, and equal to no other list of them but their own.
fn holds_first(alloc: Global, n: u64) -> bool {
    let (Some(holdings), Some(again)) = (first(alloc, n), first(alloc, n)) else {
        return false;
    };
    let list = holdings.as_slice();
    list.len() as u64 == n
        && are_first(list)
        && holdings.have_values()
        && holdings == again
        && first(alloc, n.saturating_add(1)) != Some(holdings)
}

#[test]
fn holdings_are_those_that_were_gathered(rt: HostRuntime) {
    for n in [1, 2, 8, 127, 128] {
        assert!(rt; holds_first(rt.alloc(), n), "{n}");
    }
}

#[test]
fn holdings_are_1_to_128_in_ascending_order(rt: HostRuntime) {
    assert!(rt; first(rt.alloc(), 0).is_none());
    assert!(rt; first(rt.alloc(), 129).is_none());
    assert!(rt; of_slots(rt.alloc(), &[0, 2, 5]).is_some());
    assert!(rt; of_slots(rt.alloc(), &[0, 2, 2]).is_none());
    assert!(rt; of_slots(rt.alloc(), &[2, 5, 0]).is_none());
}

/// Whether the first n holdings, and the next one without its value, do not all have theirs.
fn sees_the_last(alloc: Global, n: u64) -> bool {
    let Some(last) = nth(n) else {
        return false;
    };
    let bare = Holding {
        value: None,
        ..last
    };
    match first_and(alloc, n, Some(bare)) {
        Some(holdings) => !holdings.have_values(),
        None => false,
    }
}

#[test]
fn one_holding_without_its_value_is_seen_among_others(rt: HostRuntime) {
    for n in 1..8 {
        assert!(rt; sees_the_last(rt.alloc(), n), "{n}");
    }
}

#[test]
fn a_write_names_its_key(rt: HostRuntime) {
    let value = Value::from_u64(5);
    let keys = [
        WriteOp::Insert { key: 1, value }.key(),
        WriteOp::Put { key: END, value }.key(),
        WriteOp::Delete { key: u64::MAX }.key(),
    ];
    assert!(rt; keys == [1, END, u64::MAX]);
}

/// Whether an empty list has an equal clone, which takes no memory: it is not asked for again.
fn empty_is_cloned(alloc: Global) -> bool {
    let none: Items<KeyPiece> = Items::from(Vec::new(alloc));
    match none.try_clone(alloc) {
        Ok(copy) => none.as_slice().is_empty() && copy == none,
        Err(_) => false,
    }
}

#[test]
fn an_empty_list_takes_no_memory(rt: HostRuntime) {
    assert!(rt; empty_is_cloned(rt.alloc()));
}
