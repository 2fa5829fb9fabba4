//! Both forms of a cache. If an allocation is refused, a cache believes what it believed, and
//! the refused call is made again; so each run ends alike, whichever one or two allocations in a
//! row fail.
use crate::asks::{Ask, Bytes, Gives, all_give};
use krl_cache::Cache;
use krl_cache_laws::PlainCache;
use krl_modes::{END, KeyPart, Mode, RangePart, TOP};
use std::alloc::Global;

// Two holdings side by side: the one reads its gap and its entry, the other inserts into its gap.
static TWO_HOLDINGS: [(Ask, Gives); 10] = [
    (Ask::Scan(0, 11), Gives::Miss(0)),
    (Ask::Adopt(0, 11, Mode::RangeSS, Some(b"one")), Gives::Done),
    (Ask::Adopt(11, 21, Mode::RangeIN, None), Gives::Done),
    (Ask::Scan(0, 11), Gives::Rows(&[(10, b"one")])),
    (Ask::Scan(0, 21), Gives::Miss(11)),
    (
        Ask::Pieces,
        Gives::Told(
            &[(0, 11, RangePart::S), (11, 21, RangePart::I)],
            &[(10, KeyPart::S)],
        ),
    ),
    (Ask::Lower(0, 11, Mode::RangeIN), Gives::Done),
    (Ask::At(10), Gives::Here(RangePart::N, KeyPart::N, None)),
    (Ask::At(11), Gives::Here(RangePart::I, KeyPart::N, None)),
    (Ask::Scan(0, 11), Gives::Miss(0)),
];

// An entry of the span that is not its last point goes, and so does the value that was there
// before.
static ADOPTS_OVER: [(Ask, Gives); 9] = [
    (Ask::Adopt(0, 6, Mode::RangeXX, Some(b"seven")), Gives::Done),
    (
        Ask::Adopt(6, 11, Mode::RangeXX, Some(b"eight")),
        Gives::Done,
    ),
    (
        Ask::Scan(0, 11),
        Gives::Rows(&[(5, b"seven"), (10, b"eight")]),
    ),
    (Ask::Adopt(0, 11, Mode::RangeSU, Some(b"nine")), Gives::Done),
    (Ask::At(5), Gives::Here(RangePart::S, KeyPart::N, None)),
    (Ask::Scan(0, 11), Gives::Rows(&[(10, b"nine")])),
    (Ask::Adopt(3, 11, Mode::N, None), Gives::Done),
    (Ask::Scan(0, 11), Gives::Miss(3)),
    (Ask::At(10), Gives::Here(RangePart::N, KeyPart::N, None)),
];

// Entries that are read side by side are known though no gap is; the last gap has no value.
static KEYS_AND_THE_END: [(Ask, Gives); 9] = [
    (Ask::Adopt(4, 5, Mode::S, Some(b"forty")), Gives::Done),
    (Ask::Adopt(5, 6, Mode::RangeIX, Some(b"fifty")), Gives::Done),
    (Ask::Adopt(7, 8, Mode::U, Some(b"seventy")), Gives::Done),
    (
        Ask::Scan(4, 6),
        Gives::Rows(&[(4, b"forty"), (5, b"fifty")]),
    ),
    (Ask::Scan(4, 8), Gives::Miss(6)),
    (Ask::Adopt(8, TOP, Mode::RangeXU, None), Gives::Done),
    (Ask::Scan(7, TOP), Gives::Rows(&[(7, b"seventy")])),
    (Ask::Lower(5, TOP, Mode::RangeSS), Gives::Done),
    (
        Ask::Pieces,
        Gives::Told(
            &[(8, TOP, RangePart::S)],
            &[
                (4, KeyPart::S),
                (5, KeyPart::S),
                (7, KeyPart::S),
                (END, KeyPart::S),
            ],
        ),
    ),
];

// Two holdings at once, and then others over them and past them.
static ADOPTS_SEVERAL: [(Ask, Gives); 8] = [
    (
        Ask::AdoptAll(&[
            (0, 11, Mode::RangeSS, Some(b"one")),
            (11, 21, Mode::RangeSU, Some(b"two")),
        ]),
        Gives::Done,
    ),
    (Ask::Scan(0, 21), Gives::Rows(&[(10, b"one"), (20, b"two")])),
    (
        Ask::AdoptAll(&[
            (5, 11, Mode::RangeIN, None),
            (11, 21, Mode::RangeSS, Some(b"three")),
            (30, TOP, Mode::RangeSS, None),
        ]),
        Gives::Done,
    ),
    (Ask::Scan(0, 11), Gives::Miss(5)),
    (Ask::Scan(11, 21), Gives::Rows(&[(20, b"three")])),
    (
        Ask::Pieces,
        Gives::Told(
            &[
                (0, 5, RangePart::S),
                (5, 11, RangePart::I),
                (11, 21, RangePart::S),
                (30, TOP, RangePart::S),
            ],
            &[(20, KeyPart::S), (END, KeyPart::S)],
        ),
    ),
    (
        Ask::AdoptAll(&[
            (0, 5, Mode::N, None),
            (5, 11, Mode::N, None),
            (11, TOP, Mode::N, None),
        ]),
        Gives::Done,
    ),
    (Ask::Pieces, Gives::Told(&[], &[])),
];

// As many as one message carries.
static ADOPTS_EIGHT: [(Ask, Gives); 8] = [
    (
        Ask::AdoptAll(&[
            (0, 11, Mode::RangeSS, Some(b"one")),
            (11, 21, Mode::RangeIN, None),
            (21, 31, Mode::RangeSU, Some(b"three")),
            (35, 36, Mode::S, Some(b"four")),
            (36, 37, Mode::U, Some(b"five")),
            (37, 41, Mode::RangeIX, Some(b"six")),
            (41, 51, Mode::RangeXX, Some(b"seven")),
            (51, TOP, Mode::RangeSS, None),
        ]),
        Gives::Done,
    ),
    (
        Ask::Pieces,
        Gives::Told(
            &[
                (0, 11, RangePart::S),
                (11, 21, RangePart::I),
                (21, 31, RangePart::S),
                (37, 41, RangePart::I),
                (41, 51, RangePart::X),
                (51, TOP, RangePart::S),
            ],
            &[
                (10, KeyPart::S),
                (30, KeyPart::U),
                (35, KeyPart::S),
                (36, KeyPart::U),
                (40, KeyPart::X),
                (50, KeyPart::X),
                (END, KeyPart::S),
            ],
        ),
    ),
    (Ask::Scan(0, 11), Gives::Rows(&[(10, b"one")])),
    (Ask::Scan(21, 31), Gives::Rows(&[(30, b"three")])),
    (
        Ask::Scan(35, 37),
        Gives::Rows(&[(35, b"four"), (36, b"five")]),
    ),
    (
        Ask::Scan(40, TOP),
        Gives::Rows(&[(40, b"six"), (50, b"seven")]),
    ),
    (Ask::Scan(0, TOP), Gives::Miss(11)),
    (Ask::At(20), Gives::Here(RangePart::I, KeyPart::N, None)),
];

// Neighbours with the same part are one piece: at both ends of a holding, over several holdings,
// and where lowering makes them alike. What holds nothing is no piece.
static MERGES: [(Ask, Gives); 16] = [
    (Ask::Adopt(0, 11, Mode::RangeIN, None), Gives::Done),
    (Ask::Adopt(21, 31, Mode::RangeIN, None), Gives::Done),
    (Ask::Adopt(11, 21, Mode::RangeIN, None), Gives::Done),
    (Ask::Pieces, Gives::Told(&[(0, 31, RangePart::I)], &[])),
    (Ask::Adopt(15, 16, Mode::RangeSS, Some(b"one")), Gives::Done),
    (Ask::Adopt(15, 16, Mode::RangeIS, Some(b"one")), Gives::Done),
    (
        Ask::Pieces,
        Gives::Told(&[(0, 31, RangePart::I)], &[(15, KeyPart::S)]),
    ),
    (Ask::Adopt(31, 41, Mode::RangeXX, Some(b"two")), Gives::Done),
    (Ask::Lower(35, 41, Mode::RangeIX), Gives::Done),
    (Ask::Lower(31, 35, Mode::RangeIN), Gives::Done),
    (
        Ask::Pieces,
        Gives::Told(
            &[(0, 41, RangePart::I)],
            &[(15, KeyPart::S), (40, KeyPart::X)],
        ),
    ),
    (
        Ask::AdoptAll(&[
            (5, 11, Mode::RangeIN, None),
            (11, 41, Mode::RangeIN, None),
            (41, 51, Mode::RangeIN, None),
        ]),
        Gives::Done,
    ),
    (Ask::Pieces, Gives::Told(&[(0, 51, RangePart::I)], &[])),
    (Ask::Lower(0, 20, Mode::N), Gives::Done),
    (Ask::Lower(20, 51, Mode::RangeSS), Gives::Done),
    (Ask::Pieces, Gives::Told(&[], &[])),
];

const THIRTY_ONE: Bytes = b"1234567890123456789012345678901";

const THIRTY_TWO: Bytes = b"12345678901234567890123456789012";

// Values of 0, 1, 7, 8, 9, 31 and 32 bytes.
const EACH_LENGTH: &[(u64, Bytes)] = &[
    (10, b""),
    (20, b"1"),
    (30, b"1234567"),
    (40, b"12345678"),
    (50, b"123456789"),
    (60, THIRTY_ONE),
    (70, THIRTY_TWO),
];

// They are adopted and lowered. Then longer ones stand in the places of the shorter, and shorter
// ones in those of the longer.
static ADOPTS_EACH_LENGTH: [(Ask, Gives); 10] = [
    (
        Ask::AdoptAll(&[
            (0, 11, Mode::RangeXX, Some(b"")),
            (11, 21, Mode::RangeXX, Some(b"1")),
            (21, 31, Mode::RangeXX, Some(b"1234567")),
            (31, 41, Mode::RangeXX, Some(b"12345678")),
            (41, 51, Mode::RangeXX, Some(b"123456789")),
            (51, 61, Mode::RangeXX, Some(THIRTY_ONE)),
            (61, 71, Mode::RangeXX, Some(THIRTY_TWO)),
        ]),
        Gives::Done,
    ),
    (Ask::Scan(0, 71), Gives::Rows(EACH_LENGTH)),
    (Ask::Lower(0, 71, Mode::RangeSS), Gives::Done),
    (Ask::Scan(0, 71), Gives::Rows(EACH_LENGTH)),
    (Ask::Lower(5, 61, Mode::RangeIN), Gives::Done),
    (Ask::Scan(0, 71), Gives::Miss(5)),
    (Ask::Scan(61, 71), Gives::Rows(&[(70, THIRTY_TWO)])),
    (
        Ask::AdoptAll(&[
            (0, 11, Mode::RangeSS, Some(THIRTY_TWO)),
            (11, 21, Mode::RangeSS, Some(THIRTY_ONE)),
            (21, 31, Mode::RangeSS, Some(b"123456789")),
            (31, 41, Mode::RangeSS, Some(b"12345678")),
            (41, 51, Mode::RangeSS, Some(b"1234567")),
            (51, 61, Mode::RangeSS, Some(b"1")),
            (61, 71, Mode::RangeSS, Some(b"")),
        ]),
        Gives::Done,
    ),
    (
        Ask::Scan(0, 71),
        Gives::Rows(&[
            (10, THIRTY_TWO),
            (20, THIRTY_ONE),
            (30, b"123456789"),
            (40, b"12345678"),
            (50, b"1234567"),
            (60, b"1"),
            (70, b""),
        ]),
    ),
    (
        Ask::At(20),
        Gives::Here(RangePart::S, KeyPart::S, Some(THIRTY_ONE)),
    ),
];

// How many tables of rows there are.
const TABLES: u64 = 7;

fn table(number: u64) -> &'static [(Ask, Gives)] {
    match number {
        0 => TWO_HOLDINGS.as_slice(),
        1 => ADOPTS_OVER.as_slice(),
        2 => KEYS_AND_THE_END.as_slice(),
        3 => ADOPTS_SEVERAL.as_slice(),
        4 => ADOPTS_EIGHT.as_slice(),
        5 => MERGES.as_slice(),
        _ => ADOPTS_EACH_LENGTH.as_slice(),
    }
}

fn cache_gives(alloc: Global, rows: &[(Ask, Gives)]) -> bool {
    all_give(alloc, &mut Cache::new(alloc), rows)
}

fn plain_cache_gives(alloc: Global, rows: &[(Ask, Gives)]) -> bool {
    all_give(alloc, &mut PlainCache::new(alloc), rows)
}

#[test]
fn cache_gives_each_row(rt: HostRuntime) {
    for number in 0..TABLES {
        assert!(rt; cache_gives(rt.alloc(), table(number)), "{number}");
    }
}

#[test]
fn plain_cache_gives_each_row(rt: HostRuntime) {
    for number in 0..TABLES {
        assert!(rt; plain_cache_gives(rt.alloc(), table(number)), "{number}");
    }
}
