//! Leases: a client's, and what a server knows of one.
use krl_leases::{FOR_EVER, Kept, Lease, TakeOver, Terms, Until};

const SECOND: u64 = 1_000_000_000;

// Ten seconds, and two more by the server's clock.
const TEN: Terms = Terms {
    length: 10 * SECOND,
    drift: 20,
};

// A server without leases.
const NONE: Terms = Terms {
    length: FOR_EVER,
    drift: 20,
};

// The end of a lease, of terms that come one after another: each a stamp, a length, and when it
// comes.
fn end_after(rows: &[(u64, u64, u64)]) -> (u64, u64) {
    let mut lease = Lease::new();
    for row in rows {
        lease.take_terms(row.0, row.1, row.2);
    }
    (lease.end, lease.length)
}

#[test]
fn a_lease_runs_from_its_sign(rt: HostRuntime) {
    assert!(rt; end_after(&[]) == (FOR_EVER, 0));
    assert!(rt; end_after(&[(1000, 600, 1500)]) == (1600, 600));
    assert!(rt; end_after(&[(1000, 600, 1500), (1400, 500, 1599)]) == (1900, 500));
    // They come as it has ended; they answer an older sign; they make it shorter; they end never.
    assert!(rt; end_after(&[(1000, 600, 1500), (1400, 500, 1600)]) == (1600, 600));
    assert!(rt; end_after(&[(1000, 600, 1500), (1000, 900, 1501)]) == (1600, 600));
    assert!(rt; end_after(&[(1000, 600, 1500), (1001, 9, 1502)]) == (1010, 9));
    assert!(rt; end_after(&[(1000, FOR_EVER, 1500)]) == (FOR_EVER, FOR_EVER));
    let lease = Lease {
        end: 1600,
        length: 600,
        stamp: 1000,
    };
    assert!(rt; (lease.holds(1599), lease.holds(1600)) == (true, false));
}

#[test]
fn a_silent_client_is_evicted_after_the_drift(rt: HostRuntime) {
    let until = Until::register(TEN, SECOND);
    assert!(rt; until.moment == 13 * SECOND);
    assert!(rt; !until.has_come(13 * SECOND - 1));
    assert!(rt; until.has_come(13 * SECOND));
    assert!(rt; until.sign(TEN, TEN.length, 5 * SECOND).moment == 17 * SECOND);
    assert!(rt; until.sign(TEN, 60 * SECOND, SECOND).moment == 73 * SECOND);
    assert!(rt; until.sign(TEN, 0, 0) == until);
    assert!(rt;
        Until::register(
            Terms {
                length: 1,
                drift: 1
            },
            0
        )
        .moment
            == 2
    );
}

#[test]
fn who_answers_for_ever_is_not_evicted(rt: HostRuntime) {
    let never = Until::register(NONE, SECOND);
    assert!(rt; (never.is_never(), never.has_come(FOR_EVER)) == (true, false));
    assert!(rt; never.sign(TEN, FOR_EVER, SECOND) == never);
    assert!(rt; never.sign(TEN, TEN.length, SECOND).moment == 13 * SECOND);
    assert!(rt; Until::register(TEN, FOR_EVER - 1) == never);
}

// What a server that grants leases of a minute keeps.
const MINUTE: Kept = Kept {
    longest: 60 * SECOND,
    is_unleased: false,
};

// What a server without leases, which starts after that one, keeps.
const UNLEASED: Kept = Kept {
    longest: 60 * SECOND,
    is_unleased: true,
};

#[test]
fn a_server_that_starts_waits_for_the_longest_lease(rt: HostRuntime) {
    assert!(rt; MINUTE.start(TEN) == MINUTE);
    let old = MINUTE.old_end(TEN, SECOND);
    assert!(rt; (old, old.moment) == (MINUTE.until(TEN, SECOND), 73 * SECOND));
    assert!(rt; MINUTE.revise(TEN, old, old, 73 * SECOND - 1) == MINUTE);
    assert!(rt; MINUTE.revise(TEN, old, old, 73 * SECOND).longest == TEN.length);
}

#[test]
fn a_server_without_leases_keeps_how_long_older_ones_run(rt: HostRuntime) {
    assert!(rt; MINUTE.start(NONE) == UNLEASED);
    let (old, never) = (MINUTE.old_end(TEN, SECOND), UNLEASED.until(TEN, SECOND));
    assert!(rt; never.is_never());
    assert!(rt; UNLEASED.revise(TEN, old, never, SECOND).is_unleased);
    assert!(rt; !UNLEASED.revise(TEN, old, old, SECOND).is_unleased);
    assert!(rt; UNLEASED.revise(NONE, old, old, 99 * SECOND) == UNLEASED);
    assert!(rt; (UNLEASED.register(TEN), MINUTE.register(NONE)) == (MINUTE, UNLEASED));
}

#[test]
fn a_second_process_waits_until_the_first_has_ended(rt: HostRuntime) {
    let asks = TakeOver {
        registered: 7,
        incarnation: 8,
        over: 6,
        is_vouched: false,
    };
    let sure = TakeOver {
        is_vouched: true,
        ..asks
    };
    let (until, never) = (Until { moment: 20 }, Until { moment: FOR_EVER });
    assert!(rt; (until.hears(asks, 19), until.hears(sure, 19)) == (false, false));
    assert!(rt; (until.hears(asks, 20), never.hears(sure, 20)) == (true, true));
    assert!(rt; !never.hears(asks, FOR_EVER));
    assert!(rt; until.hears(TakeOver { over: 7, ..asks }, 0));
    let after_another = TakeOver {
        incarnation: 9,
        over: 8,
        ..asks
    };
    assert!(rt; !until.hears(after_another, 0));
    let same = TakeOver {
        incarnation: 7,
        ..asks
    };
    assert!(rt; until.hears(same, 0));
}
