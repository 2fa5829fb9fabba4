//! The modes by their table, and the ends of points and spans.
use crate::again::CALLS;
use krl_modes::{BadSpan, END, KeyPart, Mode, Point, RangePart, Span, TOP};
use std::alloc::Global;

/// Each mode's name, range part and key part, and the greatest mode that is compatible with it.
static ROWS: [(&str, &str, &str, &str); 13] = [
    ("N", "N", "N", "RangeX-X"),
    ("S", "N", "S", "RangeX-U"),
    ("U", "N", "U", "RangeX-S"),
    ("X", "N", "X", "RangeI-N"),
    ("RangeS-S", "S", "S", "RangeS-U"),
    ("RangeS-U", "S", "U", "RangeS-S"),
    ("RangeI-N", "I", "N", "RangeI-X"),
    ("RangeI-S", "I", "S", "RangeI-U"),
    ("RangeI-U", "I", "U", "RangeI-S"),
    ("RangeI-X", "I", "X", "RangeI-N"),
    ("RangeX-S", "X", "S", "U"),
    ("RangeX-U", "X", "U", "S"),
    ("RangeX-X", "X", "X", "N"),
];

/// Parts that are no mode, and the least mode above them.
static NO_MODES: [(RangePart, KeyPart, Mode); 3] = [
    (RangePart::S, KeyPart::N, Mode::RangeSS),
    (RangePart::S, KeyPart::X, Mode::RangeXX),
    (RangePart::X, KeyPart::N, Mode::RangeXS),
];

/// Two modes, and the greatest below both.
static MEETS: [(Mode, Mode, Mode); 5] = [
    (Mode::RangeXX, Mode::RangeSU, Mode::RangeSU),
    (Mode::RangeSU, Mode::RangeIX, Mode::U),
    (Mode::RangeSS, Mode::RangeIN, Mode::N),
    (Mode::RangeXS, Mode::RangeIU, Mode::RangeIS),
    (Mode::X, Mode::RangeXU, Mode::U),
];

static NO_NAMES: [&str; 7] = [
    "",
    "s",
    "RangeI-",
    "RangeI-N ",
    "RangeS-N",
    "RangeS-X",
    "RangeX-N",
];

static NO_SPANS: [(u64, u64); 5] = [(0, TOP + 1), (0, u64::MAX), (5, 5), (6, 5), (TOP, TOP)];

fn has_names(mode: Mode, row: &(&str, &str, &str, &str)) -> bool {
    let (range, key) = mode.parts();
    mode.name() == row.0
        && range.name() == row.1
        && key.name() == row.2
        && mode.cap().name() == row.3
}

// Whether the mode is found by its name, and by its parts.
fn is_found(mode: Mode, name: &str) -> bool {
    let (range, key) = mode.parts();
    Mode::from_name(name.as_bytes()) == Some(mode) && Mode::of(range, key) == Some(mode)
}

#[test]
fn each_mode_has_its_row_of_the_table(rt: HostRuntime) {
    for (mode, row) in Mode::ALL.iter().zip(&ROWS) {
        assert!(rt;
            has_names(*mode, row) && is_found(*mode, row.0),
            "{}",
            row.0
        );
    }
}

#[test]
fn three_pairs_of_parts_are_no_mode(rt: HostRuntime) {
    for (range, key, above) in &NO_MODES {
        assert!(rt; Mode::of(*range, *key).is_none());
        assert!(rt; Mode::at_or_above(*range, *key) == *above);
    }
}

#[test]
fn the_meet_is_below_both(rt: HostRuntime) {
    for (a, b, below) in &MEETS {
        assert!(rt; a.meet(*b) == *below && b.meet(*a) == *below);
    }
}

#[test]
fn a_name_is_the_whole_text(rt: HostRuntime) {
    for text in &NO_NAMES {
        assert!(rt; Mode::from_name(text.as_bytes()).is_none(), "{text}");
    }
}

fn is_span(lo: u64, hi: u64) -> bool {
    match Span::new(lo, hi) {
        Ok(span) => span.lo() == lo && span.hi() == hi && hi.checked_sub(1) == Some(span.last()),
        Err(BadSpan) => false,
    }
}

fn is_point(at: u64) -> bool {
    match Point::new(at) {
        Some(point) => point.get() == at,
        None => false,
    }
}

#[test]
fn points_and_spans_end_where_they_should(rt: HostRuntime) {
    assert!(rt; END == 9223372036854775807 && TOP == 9223372036854775808);
    assert!(rt; is_point(END) && Point::new(TOP).is_none() && Point::new(u64::MAX).is_none());
    assert!(rt; is_span(0, TOP) && is_span(END, TOP) && is_span(5, 6));
    for (lo, hi) in &NO_SPANS {
        assert!(rt; !is_span(*lo, *hi), "from {lo} to {hi}");
    }
}

fn last_meets_whole(whole: Span, before: Span, last: Span, end: Point) -> bool {
    whole.contains(end)
        && last.contains(end)
        && !before.contains(end)
        && last.within(whole)
        && !whole.within(last)
        && last.meets(whole)
        && !before.meets(last)
}

#[test]
fn the_last_span_meets_the_whole(rt: HostRuntime) {
    let (Ok(whole), Ok(before)) = (Span::new(0, TOP), Span::new(0, END)) else {
        panic!(rt; "no span from 0");
    };
    let (Ok(last), Some(end)) = (Span::new(END, TOP), Point::new(END)) else {
        panic!(rt; "no span of END");
    };
    assert!(rt; last_meets_whole(whole, before, last, end));
}

fn says(alloc: Global, expected: &str) -> bool {
    for _ in 0..CALLS {
        if let Ok(text) = BadSpan.to_string(alloc) {
            return text.as_str() == expected;
        }
    }
    false
}

#[test]
fn a_bad_span_says_what_a_span_is(rt: HostRuntime) {
    assert!(rt;
        says(
            rt.alloc(),
            "a span begins below its end, which is at most TOP"
        )
    );
}
