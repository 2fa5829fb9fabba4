//! One thread drives every node, a turn at a time.
use crate::acts::{are_numbers, open};
use crate::scene::{Scene, Who};
use crate::steps::{Step, Told, after, check};
use krl_modes::{END, Mode, TOP};
use krl_nodes::{ClientOrder, NotSeated, ServerOrder};
use krl_world::Refused;
use std::alloc::Global;
use std::sync::Wait;

const LOCK: Told = Told::Lock(5, 6, Mode::RangeSS);

/// Whether both clients give their seats back.
fn both_retire<R: Wait>(rt: &R, scene: &mut Scene) -> bool {
    scene.retires(rt, Who::First) && scene.retires(rt, Who::Second)
}

/// Whether both clients retire, and the office closes on just these entries, each value a number,
/// in this epoch.
fn closes_on<R: Wait>(rt: &R, mut scene: Scene, entries: &[(u64, u64)], epoch: u64) -> bool {
    if !both_retire(rt, &mut scene) {
        return false;
    }
    match scene.close() {
        Ok(durable) => are_numbers(durable.run(0), entries) && durable.epoch() == epoch,
        Err(_) => false,
    }
}

/// Whether an office on these entries is refused so.
fn is_refused(alloc: Global, entries: &[(u64, u64)], expected: Refused) -> bool {
    match open(alloc, entries) {
        Ok(_) => false,
        Err(refused) => refused == expected,
    }
}

/// Whether client 63, which comes first, has one seat, and gets one again once it has retired.
fn has_one_seat<R: Wait>(rt: &R, scene: &mut Scene) -> bool {
    scene.seat(rt, Who::First, 64) == Some(NotSeated::BadClient)
        && scene.seat(rt, Who::First, 63) == Some(NotSeated::Seated)
        && scene.retires(rt, Who::First)
        && scene.seat(rt, Who::First, 63).is_none()
}

/// Whether the first client, which runs, keeps its seat, and the office stays open for it; not so
/// once it has crashed.
fn keeps_its_seat<R: Wait>(rt: &R, mut scene: Scene) -> bool {
    if scene.retires(rt, Who::First) {
        return false;
    }
    match scene.close() {
        Ok(_) => false,
        Err(mut scene) => {
            scene.acts(rt, Who::First, ClientOrder::Crash)
                && both_retire(rt, &mut scene)
                && scene.close().is_ok()
        }
    }
}

#[test]
fn an_office_opens_and_closes(rt: HostRuntime) {
    assert!(rt; closes_on(&rt, after(&rt, &[(10, 1)], (0, 1), &[]), &[(10, 1)], 1));
}

#[test]
fn a_client_has_one_seat(rt: HostRuntime) {
    let mut scene = after(&rt, &[], (63, 0), &[]);
    assert!(rt; has_one_seat(&rt, &mut scene));
}

#[test]
fn an_office_refuses_bad_entries(rt: HostRuntime) {
    assert!(rt; is_refused(rt.alloc(), &[(END, 1)], Refused::BadKey));
    assert!(rt; is_refused(rt.alloc(), &[(10, 1), (20, 2), (10, 3)], Refused::Twice));
}

// The server that runs refuses what only one that is down can do, and the other way round.
static SERVER: [Step; 8] = [
    Step::NoLetterWaits,
    Step::ServerRefuses(ServerOrder::Nudge(64), Refused::BadClient),
    Step::ServerRefuses(ServerOrder::Start, Refused::Running),
    Step::Serves(ServerOrder::Nudge(63)),
    Step::Serves(ServerOrder::Crash),
    Step::ServerRefuses(ServerOrder::Crash, Refused::Down),
    Step::ServerRefuses(ServerOrder::Nudge(63), Refused::Down),
    Step::Serves(ServerOrder::Start),
];

#[test]
fn the_server_refuses(rt: HostRuntime) {
    check(&rt, &[], (0, 1), &SERVER);
}

// A client that is down refuses each order but a start. One that has just started refuses a second
// start, a lock and bad spans.
static CLIENT: [Step; 10] = [
    Step::ScanRefused(Who::First, 0, 11, Refused::Down),
    Step::IsDown(Who::First),
    Step::Refuses(Who::First, Told::Tick, Refused::Down),
    Step::Refuses(Who::First, Told::Crash, Refused::Down),
    Step::Refuses(Who::First, LOCK, Refused::Down),
    Step::Acts(Who::First, Told::Start),
    Step::Refuses(Who::First, Told::Start, Refused::Running),
    Step::Refuses(Who::First, LOCK, Refused::NotJoined),
    Step::ScanRefused(Who::First, 11, 11, Refused::BadSpan),
    Step::ScanRefused(Who::First, 0, TOP + 1, Refused::BadSpan),
];

#[test]
fn a_client_refuses(rt: HostRuntime) {
    check(&rt, &[], (7, 8), &CLIENT);
}

static STARTS: [Step; 1] = [Step::Acts(Who::First, Told::Start)];

#[test]
fn a_client_that_runs_keeps_its_seat(rt: HostRuntime) {
    assert!(rt; keeps_its_seat(&rt, after(&rt, &[(10, 1)], (0, 1), &STARTS)));
}

// A client joins, locks, and reads on from its cache, which is empty before: also while the server
// is down, and after it has started again.
static FILLS_ITS_CACHE: [Step; 10] = [
    Step::Acts(Who::First, Told::Start),
    Step::Settles,
    Step::Acts(Who::First, LOCK),
    Step::Misses(Who::First, 0, 11, 0),
    Step::Settles,
    Step::Reads(Who::First, 0, 11, &[(10, 1)]),
    Step::Serves(ServerOrder::Crash),
    Step::Reads(Who::First, 0, 11, &[(10, 1)]),
    Step::Serves(ServerOrder::Start),
    Step::Reads(Who::First, 0, 11, &[(10, 1)]),
];

#[test]
fn a_client_reads_its_own_cache(rt: HostRuntime) {
    check(&rt, &[(10, 1), (20, 2)], (7, 8), &FILLS_ITS_CACHE);
}

// A client joins and inserts; then the server goes down, and the client leaves.
static INSERTS_AND_LEAVES: [Step; 8] = [
    Step::Acts(Who::First, Told::Start),
    Step::Settles,
    Step::Acts(Who::First, Told::Lock(5, 6, Mode::RangeIN)),
    Step::Settles,
    Step::Acts(Who::First, Told::Insert(5, 8)),
    Step::Settles,
    Step::Serves(ServerOrder::Crash),
    Step::Acts(Who::First, Told::Leave),
];

#[test]
fn a_write_outlives_the_server(rt: HostRuntime) {
    let scene = after(&rt, &[(10, 1)], (3, 4), &INSERTS_AND_LEAVES);
    assert!(rt; closes_on(&rt, scene, &[(5, 8), (10, 1)], 1));
}
