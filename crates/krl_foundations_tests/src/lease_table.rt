//! What a server's host knows of its clients' leases.
use krl_lease_table::{End, Grant, Heard, LeaseTable, Older, Refused, Sign};
use krl_leases::{FOR_EVER, Terms};

const SECOND: u64 = 1_000_000_000;

// Ten seconds, and two more by the server's clock.
const TEN: Terms = Terms {
    length: 10 * SECOND,
    drift: 20,
};

fn sign(incarnation: u64, said: u64, older: Older) -> Sign {
    Sign {
        incarnation,
        stamp: 99,
        said,
        older,
    }
}

// One that begins at 0 with the longest lease of a minute. Incarnation 7 of clients 3 and 5 is
// registered, and 5 may answer for ever; 7 of client 4 has left.
fn table() -> Result<LeaseTable, Refused> {
    let mut table = LeaseTable::new(TEN, 60 * SECOND);
    table.store_has(3, 7, false, false)?;
    table.store_has(4, 7, true, false)?;
    table.store_has(5, 7, false, true)?;
    let first = table.commit()?;
    table.committed(first)?;
    table.open(0)?;
    Ok(table)
}

// The end of a client's lease.
fn end(table: &LeaseTable, client: u64) -> Option<End> {
    match table.shows(client) {
        Ok(row) => row.standing.end(),
        Err(_) => None,
    }
}

// A client signs, and registers.
fn joins(table: &mut LeaseTable, client: u64, incarnation: u64, now: u64) -> Result<bool, Refused> {
    table.sign(client, sign(incarnation, 0, Older::Unknown), now)?;
    if table.admit(client, incarnation, now)? {
        table.register(client, incarnation, now)?;
        return Ok(true);
    }
    Ok(false)
}

fn silent(table: &mut LeaseTable) -> Result<[Option<u64>; 3], Refused> {
    joins(table, 9, 1, 20 * SECOND)?;
    let early = table.evict(9, 32 * SECOND - 1)?;
    table.sign(9, sign(1, 10 * SECOND, Older::Unknown), 25 * SECOND)?;
    let later = table.evict(9, 37 * SECOND - 1)?;
    let due = table.evict(9, 37 * SECOND)?;
    Ok([early, later, due])
}

#[test]
fn a_silent_client_is_evicted_after_its_lease_and_the_drift(rt: HostRuntime) {
    match table() {
        Ok(mut table) => {
            assert!(rt; silent(&mut table) == Ok([None, None, Some(2)]));
            // It answers nothing from then on, and is evicted until it has left.
            assert!(rt;
                table.sign(9, sign(1, 10 * SECOND, Older::Unknown), 37 * SECOND)
                    == Ok(Heard::HasEnded)
            );
            assert!(rt; table.evict(9, 0) == Ok(Some(2)));
            assert!(rt; table.succeed(9, 2) == Ok(()));
            assert!(rt; table.evict(9, 0) == Ok(Some(3)));
            assert!(rt; table.leave(9) == Ok(()));
            assert!(rt; table.evict(9, FOR_EVER) == Ok(None));
        }
        Err(refused) => assert!(rt; refused == Refused::Spent),
    }
}

fn ends_after_the_start() -> Result<[Option<End>; 5], Refused> {
    let mut table = table()?;
    let first = [end(&table, 3), end(&table, 4), end(&table, 5)];
    table.sign(5, sign(7, FOR_EVER, Older::Unknown), SECOND)?;
    let never = end(&table, 5);
    table.sign(5, sign(7, 10 * SECOND, Older::Unknown), 2 * SECOND)?;
    Ok([first[0], first[1], first[2], never, end(&table, 5)])
}

#[test]
fn a_server_that_starts_waits_for_the_longest_lease(rt: HostRuntime) {
    let minute = Some(End::At(72 * SECOND));
    let two = Some(End::At(14 * SECOND));
    assert!(rt;
        ends_after_the_start() == Ok([minute, None, Some(End::Never), Some(End::Never), two])
    );
}

fn longest_twice() -> Result<[u64; 2], Refused> {
    let mut table = table()?;
    table.revise(72 * SECOND - 1)?;
    let before = table.longest();
    table.revise(72 * SECOND)?;
    Ok([before, table.longest()])
}

#[test]
fn what_is_stored_becomes_less_once_no_older_lease_runs(rt: HostRuntime) {
    assert!(rt; longest_twice() == Ok([60 * SECOND, 10 * SECOND]));
}

fn terms_in_turn() -> Result<[Option<Grant>; 4], Refused> {
    let mut table = table()?;
    let began_before = table.commit()?;
    table.sign(9, sign(1, 0, Older::Unknown), SECOND)?;
    let at_once = table.take_terms(9)?;
    table.committed(began_before)?;
    let too_soon = table.take_terms(9)?;
    let began_after = table.commit()?;
    table.committed(began_after)?;
    Ok([
        at_once,
        too_soon,
        table.take_terms(9)?,
        table.take_terms(9)?,
    ])
}

#[test]
fn terms_leave_once_after_a_commit_that_began_after_the_sign(rt: HostRuntime) {
    let grant = Grant {
        incarnation: 1,
        stamp: 99,
        length: 10 * SECOND,
    };
    assert!(rt; terms_in_turn() == Ok([None, None, Some(grant), None]));
}

// Whether the client's incarnation, whose host has signed with this word, may send Hello.
fn may_join(client: u64, incarnation: u64, older: Older, now: u64) -> Result<bool, Refused> {
    let mut table = table()?;
    table.sign(client, sign(incarnation, 0, older), 0)?;
    table.admit(client, incarnation, now)
}

#[test]
fn a_second_process_waits_until_the_first_has_ended(rt: HostRuntime) {
    assert!(rt; may_join(4, 8, Older::Unknown, SECOND) == Ok(true));
    assert!(rt; may_join(3, 8, Older::Unknown, 72 * SECOND - 1) == Ok(false));
    assert!(rt; may_join(3, 8, Older::Vouched, 72 * SECOND - 1) == Ok(false));
    assert!(rt; may_join(3, 8, Older::Unknown, 72 * SECOND) == Ok(true));
    assert!(rt; may_join(3, 8, Older::IsOver(7), SECOND) == Ok(true));
    assert!(rt; may_join(3, 9, Older::IsOver(8), SECOND) == Ok(false));
    assert!(rt; may_join(5, 8, Older::Unknown, 9999 * SECOND) == Ok(false));
    assert!(rt; may_join(5, 8, Older::Vouched, SECOND) == Ok(true));
}

#[test]
fn what_does_not_fit_is_refused(rt: HostRuntime) {
    let mut new = LeaseTable::new(TEN, 0);
    assert!(rt; new.open(0) == Err(Refused::NotOpen));
    assert!(rt; new.leave(3) == Err(Refused::NotOpen));
    assert!(rt; new.store_has(64, 7, false, false) == Err(Refused::BadClient));
    assert!(rt; new.committed(1) == Err(Refused::NoCommit));
    assert!(rt; new.commit() == Ok(1));
    assert!(rt; new.store_has(3, 7, false, false) == Err(Refused::Begun));
    assert!(rt; new.open(0) == Err(Refused::NotOpen));
    assert!(rt; new.committed(1) == Ok(()));
    assert!(rt; new.open(0) == Ok(()));
    assert!(rt; new.open(0) == Err(Refused::Begun));
    assert!(rt; new.register(3, 0, 0) == Err(Refused::NotGreater));
    assert!(rt; new.register(3, 7, 0) == Ok(()));
    assert!(rt; new.register(3, 8, FOR_EVER) == Err(Refused::StillAnswers));
    assert!(rt; new.leave(64) == Err(Refused::BadClient));
}
