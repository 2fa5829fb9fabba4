//! Worlds that begin with what survived when values were numbers. A call that is refused for want
//! of memory is made again, so that each run ends alike, whichever requests for memory are refused.
ghost use Rattle.std.specs.Prelude.{◌≤◌, nat_eq};
ghost use Rattle.std.specs.List.{AllByRecursion, IsDistinct};
ghost use Rattle.std.specs.Map.{keys_of};
ghost use Rattle.krl_modes.specs.declared.point.TheConstants.{END};
ghost use Rattle.krl_durable.specs.Invariants.{IsRow};

use crate::again::{CALLS, takes};
use krl_durable::{DurableV1, EntriesRefused, Record};
use krl_messages::Outcome;
use krl_modes::END;
use krl_server::Phase;
use krl_world::{Refused, Step, World};
use std::alloc::Global;

/// An incarnation that has left and never wrote.
const GONE: Record = Record {
    incarnation: 3,
    left: true,
    last: 0,
    outcome: None,
};

/// One that left after its fourth write.
const WRITER: Record = Record {
    incarnation: 2,
    left: true,
    last: 4,
    outcome: Some(Outcome::Exists),
};

/// One that has not left.
const HERE: Record = Record {
    incarnation: 3,
    left: false,
    last: 0,
    outcome: None,
};

/// The clients that have left, in order of registration.
static ALL_LEFT: [(u64, Record); 2] = [(0, GONE), (9, WRITER)];

/// The first of them has not left.
static ONE_HERE: [(u64, Record); 2] = [(0, HERE), (9, WRITER)];

/// The last two of them have not left.
static TWO_HERE: [(u64, Record); 3] = [(0, GONE), (3, HERE), (1, HERE)];

/// What survived: one entry, this epoch and these records.
fn survived(
    alloc: Global,
    epoch: u64,
    records: &[(u64, Record)],
) -> Result<DurableV1, EntriesRefused>
    requires epoch { epoch ≤ END }
    requires each { AllByRecursion IsRow records.now }
    requires once { IsDistinct nat_eq (keys_of records.now) }
{
    for _ in 1..CALLS {
        match DurableV1::from_parts(alloc, &[(10, 258)], epoch, records) {
            Err(EntriesRefused::OutOfMemory) => {}
            answer => return answer,
        }
    }
    DurableV1::from_parts(alloc, &[(10, 258)], epoch, records)
}

/// A world that begins with it.
fn migrated(alloc: Global, old: &DurableV1) -> Result<World, Refused> {
    for _ in 1..CALLS {
        match World::migrate(alloc, old) {
            Err(Refused::OutOfMemory) => {}
            answer => return answer,
        }
    }
    World::migrate(alloc, old)
}

/// Whether no world begins with it, for this reason.
fn is_refused(alloc: Global, old: &DurableV1, expected: Refused) -> bool {
    match migrated(alloc, old) {
        Ok(_) => false,
        Err(refused) => refused == expected,
    }
}

/// Whether the client starts, and is registered with this incarnation once its Hello is delivered.
fn starts_as(world: &mut World, client: u64, incarnation: u64) -> bool {
    let hello = world.sent().saturating_add(1);
    takes(world, Step::StartClient(client))
        && takes(world, Step::Deliver(hello))
        && is_registered(world, client, incarnation)
}

/// Whether the incarnation is the registered one of the client, and has not left.
fn is_registered(world: &World, client: u64, incarnation: u64) -> bool {
    match world.server() {
        None => false,
        Some(server) => match server.durable().record(client) {
            None => false,
            Some(record) => record.incarnation == incarnation && !record.left,
        },
    }
}

/// Whether the world's server serves in the epoch.
fn serves_in(world: &World, epoch: u64) -> bool {
    match world.server() {
        None => false,
        Some(server) => server.phase() == Phase::Serving && server.durable().epoch() == epoch,
    }
}

/// Whether the index has just the one entry, and its value is these bytes.
fn has_bytes(world: &World, key: u64, bytes: &[u8]) -> bool {
    let entries = world.index();
    if entries.len() != 1 {
        return false;
    }
    match entries.get(0) {
        [(found, value)] => *found == key && value.bytes() == bytes,
        _ => false,
    }
}

/// Whether the world continues in epoch 5 from what survived epoch 4 if all have left.
fn goes_on(world: &mut World) -> bool {
    serves_in(world, 5)
        && has_bytes(world, 10, &[0, 0, 0, 0, 0, 0, 1, 2])
        && world.sent() == 0
        && world.writes().is_empty()
        && starts_as(world, 0, 4)
        && starts_as(world, 5, 1)
        && starts_as(world, 9, 3)
}

#[test]
fn a_world_goes_on_from_it(rt: HostRuntime) {
    let Ok(old) = survived(rt.alloc(), 4, &ALL_LEFT) else {
        panic!(rt; "refused");
    };
    let Ok(mut world) = migrated(rt.alloc(), &old) else {
        panic!(rt; "not migrated");
    };
    assert!(rt; goes_on(&mut world));
}

/// Whether no world begins with what survived so, for this reason.
fn begins_not(alloc: Global, epoch: u64, records: &[(u64, Record)], expected: Refused) -> bool
    requires epoch { epoch ≤ END }
    requires each { AllByRecursion IsRow records.now }
    requires once { IsDistinct nat_eq (keys_of records.now) }
{
    match survived(alloc, epoch, records) {
        Ok(old) => is_refused(alloc, &old, expected),
        Err(_) => false,
    }
}

#[test]
fn no_world_begins_while_somebody_has_not_left(rt: HostRuntime) {
    assert!(rt; begins_not(rt.alloc(), 4, &ONE_HERE, Refused::StillRegistered(0)));
    assert!(rt; begins_not(rt.alloc(), END, &TWO_HERE, Refused::StillRegistered(3)));
}

#[test]
fn no_world_begins_after_the_last_epoch(rt: HostRuntime) {
    assert!(rt; begins_not(rt.alloc(), END, &ALL_LEFT, Refused::Spent));
    let Ok(old) = survived(rt.alloc(), END - 1, &ALL_LEFT) else {
        panic!(rt; "refused");
    };
    assert!(rt; migrated(rt.alloc(), &old).is_ok());
}
