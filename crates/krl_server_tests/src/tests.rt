//! A server that is driven by hand. Each run ends alike, whichever one or two allocations
//! in a row fail.
ghost use Rattle.std.specs.Prelude.{◌≤◌, nat_eq};
ghost use Rattle.std.specs.List.{AllByRecursion, IsDistinct};
ghost use Rattle.std.specs.Map.{keys_of};
ghost use Rattle.krl_modes.specs.declared.point.TheConstants.{END};
ghost use Rattle.krl_durable.specs.Invariants.{IsRow};

use crate::acts::{Act, Gives};
use crate::again::CALLS;
use crate::changes::{CHANGES, all_say};
use crate::exchange::{CROWD, EXCHANGE, SHARES};
use crate::long_reports::{ENTRIES, Order, is_taken_in_time};
use crate::ranges::{
    COVERS, ENDS_AT_THE_NEXT_REACH, ENDS_AT_THE_REACH, ENDS_BEFORE_A_HELD_SLOT,
    ENDS_BEFORE_A_WAITER, READS_VALUES_AGAIN, WRITES_VALUES,
};
use crate::recovering::{CONTRADICTS, RECOVERS, REGISTERS};
use crate::runs::all_give;
use crate::seizing::{TAKES, TAKES_WITHOUT_ROOM};
use crate::starts::{is_spent, started};
use crate::strangers::STRANGERS;
use crate::writes::{ANSWERS_AGAIN, LAST_NUMBER, LOSES_AN_ANSWER, WRITES};
use krl_durable::{Durable, EntriesRefused, Limits, Reach, Record, Room};
use krl_messages::{Outcome, Value};
use krl_modes::END;
use std::alloc::Global;

fn one_entry() -> [(u64, Value); 1] {
    [(10, Value::new(b"1").unwrap())]
}

fn two_entries() -> [(u64, Value); 2] {
    [
        (10, Value::new(b"1").unwrap()),
        (20, Value::new(b"2").unwrap()),
    ]
}

const WROTE_NOTHING: Record = Record {
    incarnation: 1,
    left: false,
    last: 0,
    outcome: None,
};

static TWO_CLIENTS: [(u64, Record); 2] = [(0, WROTE_NOTHING), (1, WROTE_NOTHING)];

// A client that has no number left for a write.
static NO_NUMBER_LEFT: [(u64, Record); 1] = [(
    0,
    Record {
        incarnation: 1,
        left: false,
        last: END,
        outcome: Some(Outcome::Applied),
    },
)];

// What survives if nothing has happened to these entries yet.
fn unused(alloc: Global, entries: &[(u64, Value)]) -> Option<Durable> {
    for _ in 0..CALLS {
        if let Ok(durable) = Durable::new(alloc, entries) {
            return Some(durable);
        }
    }
    None
}

// What a host kept of the one entry: this epoch, and these records.
fn kept(alloc: Global, epoch: u64, records: &[(u64, Record)]) -> Option<Durable>
    requires epoch { epoch ≤ END }
    requires each { AllByRecursion IsRow records.now }
    requires once { IsDistinct nat_eq (keys_of records.now) }
{
    let entries = one_entry();
    for _ in 0..CALLS {
        let limits = Limits::standard();
        if let Ok(durable) = Durable::from_parts(alloc, limits, &entries, epoch, records) {
            return Some(durable);
        }
    }
    None
}

// What a host kept of two clients.
fn two_clients(alloc: Global, epoch: u64) -> Option<Durable>
    requires { epoch ≤ END }
{
    kept(alloc, epoch, &TWO_CLIENTS)
}

// What a host kept of one client.
fn no_number_left(alloc: Global) -> Option<Durable> {
    kept(alloc, 1, &NO_NUMBER_LEFT)
}

fn limits(room: usize, reach: usize) -> Option<Limits> {
    Some(Limits {
        room: Room::new(room)?,
        reach: Reach::new(reach)?,
    })
}

// What a host kept of both entries, with these limits.
fn limited(alloc: Global, limits: &Limits) -> Option<Durable> {
    let entries = two_entries();
    for _ in 0..CALLS {
        if let Ok(durable) = Durable::from_parts(alloc, *limits, &entries, 0, &[]) {
            return Some(durable);
        }
    }
    None
}

// The same that survives, written out and brought back with these limits.
fn brought_back(
    alloc: Global,
    durable: &Durable,
    limits: &Limits,
) -> Result<Durable, EntriesRefused> {
    let records = durable.records(alloc)?;
    Durable::from_parts(alloc, *limits, durable.run(0), durable.epoch(), &records)
}

fn with_limits(alloc: Global, durable: &Durable, limits: &Limits) -> Option<Durable> {
    for _ in 0..CALLS {
        if let Ok(durable) = brought_back(alloc, durable, limits) {
            return Some(durable);
        }
    }
    None
}

// What survives a server that begins with this, gives what each row states, and then crashes; None
// if it does not start, or gives something else.
fn survives(alloc: Global, durable: Option<Durable>, rows: &[(Act, Gives)]) -> Option<Durable> {
    let mut server = started(alloc, durable?)?;
    if all_give(alloc, &mut server, rows) {
        Some(server.crash())
    } else {
        None
    }
}

// Whether a server that begins with this gives what each row states.
fn gives(alloc: Global, durable: Option<Durable>, rows: &[(Act, Gives)]) -> bool {
    survives(alloc, durable, rows).is_some()
}

// Whether one that begins with the first entry does.
fn gives_on_one(alloc: Global, rows: &[(Act, Gives)]) -> bool {
    gives(alloc, unused(alloc, &one_entry()), rows)
}

// Whether one that begins with both entries does.
fn gives_on_two(alloc: Global, rows: &[(Act, Gives)]) -> bool {
    gives(alloc, unused(alloc, &two_entries()), rows)
}

// Whether it gives what the first rows state, and then, after a crash, what the others state.
fn gives_over_a_crash(
    alloc: Global,
    entries: &[(u64, Value)],
    rows: &[(Act, Gives)],
    others: &[(Act, Gives)],
) -> bool {
    gives(alloc, survives(alloc, unused(alloc, entries), rows), others)
}

#[test]
fn gives_each_row(rt: HostRuntime) {
    for rows in [EXCHANGE.as_slice(), CROWD.as_slice(), SHARES.as_slice()] {
        assert!(rt; gives_on_one(rt.alloc(), rows));
    }
    assert!(rt; gives_on_two(rt.alloc(), &WRITES));
}

// Whether writes take free locks, with room for a further entry and without.
fn takes_free_locks(alloc: Global) -> bool {
    let Some(full) = limits(2, 1) else {
        return false;
    };
    gives_on_two(alloc, &TAKES) && gives(alloc, limited(alloc, &full), &TAKES_WITHOUT_ROOM)
}

#[test]
fn a_write_takes_a_free_lock(rt: HostRuntime) {
    assert!(rt; takes_free_locks(rt.alloc()));
}

// Whether each step of a server on both entries reports what it changed.
fn says_each_change(alloc: Global) -> bool {
    let Some(durable) = unused(alloc, &two_entries()) else {
        return false;
    };
    match started(alloc, durable) {
        Some(mut server) => all_say(alloc, &mut server, &CHANGES),
        None => false,
    }
}

#[test]
fn says_what_each_message_changed(rt: HostRuntime) {
    assert!(rt; says_each_change(rt.alloc()));
}

#[test]
fn grants_over_ranges(rt: HostRuntime) {
    for rows in [
        COVERS.as_slice(),
        ENDS_BEFORE_A_HELD_SLOT.as_slice(),
        ENDS_BEFORE_A_WAITER.as_slice(),
    ] {
        assert!(rt; gives_on_two(rt.alloc(), rows));
    }
}

// Whether a grant takes as many slots as the reach, and after a restart with less room and another
// reach as many as that.
fn ends_at_each_reach(alloc: Global) -> bool {
    let (Some(wide), Some(narrow)) = (limits(3, 2), limits(2, 1)) else {
        return false;
    };
    let Some(durable) = survives(alloc, limited(alloc, &wide), &ENDS_AT_THE_REACH) else {
        return false;
    };
    gives(
        alloc,
        with_limits(alloc, &durable, &narrow),
        &ENDS_AT_THE_NEXT_REACH,
    )
}

#[test]
fn a_grant_ends_at_the_reach(rt: HostRuntime) {
    assert!(rt; ends_at_each_reach(rt.alloc()));
}

#[test]
fn keeps_values_over_a_restart(rt: HostRuntime) {
    let (rows, others) = (&WRITES_VALUES, &READS_VALUES_AGAIN);
    assert!(rt; gives_over_a_crash(rt.alloc(), &one_entry(), rows, others));
}

#[test]
fn passes_over_strangers(rt: HostRuntime) {
    assert!(rt; gives_on_two(rt.alloc(), &STRANGERS));
}

#[test]
fn recovers_before_it_serves(rt: HostRuntime) {
    assert!(rt; gives_over_a_crash(rt.alloc(), &two_entries(), &REGISTERS, &RECOVERS));
}

// A report from the last gap to the first, and one whose ranges all end after the last entry: END
// is a slot too.
#[test]
fn large_reports_in_any_order_are_taken_in_time(rt: HostRuntime) {
    assert!(rt; is_taken_in_time(&rt, Order::Descending, ENTRIES));
    assert!(rt; is_taken_in_time(&rt, Order::Nested, ENTRIES + 1));
}

#[test]
fn answers_a_write_again_after_a_restart(rt: HostRuntime) {
    let (rows, others) = (&LOSES_AN_ANSWER, &ANSWERS_AGAIN);
    assert!(rt; gives_over_a_crash(rt.alloc(), &two_entries(), rows, others));
}

// Whether the rows of what a host kept are given.
fn gives_on_kept(alloc: Global) -> bool {
    gives(alloc, two_clients(alloc, 1), &CONTRADICTS)
        && gives(alloc, no_number_left(alloc), &LAST_NUMBER)
}

#[test]
fn starts_on_what_a_host_kept(rt: HostRuntime) {
    assert!(rt; gives_on_kept(rt.alloc()));
}

#[test]
fn has_no_epoch_after_the_last(rt: HostRuntime) {
    let alloc = rt.alloc();
    assert!(rt; is_spent(alloc, two_clients(alloc, END)));
    let durable = survives(alloc, two_clients(alloc, END - 1), &[]);
    assert!(rt; is_spent(alloc, durable));
}
