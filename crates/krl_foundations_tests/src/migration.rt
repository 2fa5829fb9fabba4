//! What survived when values were numbers: what it was made of, and how it is brought to what
//! survives now. A call that is refused for want of memory is made again, so that each run ends
//! alike, whichever one or two allocations in a row fail.
ghost use Rattle.std.specs.Prelude.{nat_eq};
ghost use Rattle.std.specs.List.{AllByRecursion, IsDistinct};
ghost use Rattle.std.specs.Map.{keys_of};
ghost use Rattle.krl_durable.specs.Invariants.{IsRow};

use crate::again::CALLS;
use krl_durable::{Durable, DurableV1, EntriesRefused, NotMigrated, Record};
use krl_messages::Outcome;
use krl_modes::END;
use std::alloc::Global;

// An incarnation that has left and never wrote.
const GONE: Record = Record {
    incarnation: 3,
    left: true,
    last: 0,
    outcome: None,
};

// One that left after its fourth write.
const WRITER: Record = Record {
    incarnation: 2,
    left: true,
    last: 4,
    outcome: Some(Outcome::Exists),
};

// One that has not left.
const HERE: Record = Record {
    incarnation: 3,
    left: false,
    last: 0,
    outcome: None,
};

// The clients that have left, in order of registration.
static ALL_LEFT: [(u64, Record); 2] = [(0, GONE), (9, WRITER)];

// The first of them has not left.
static ONE_HERE: [(u64, Record); 2] = [(0, HERE), (9, WRITER)];

// The last two of them have not left.
static TWO_HERE: [(u64, Record); 3] = [(0, GONE), (3, HERE), (1, HERE)];

// What survived: one entry, epoch 4 and these records. None if memory is refused.
fn survived(alloc: Global, records: &[(u64, Record)]) -> Option<DurableV1>
    requires each { AllByRecursion IsRow records.now }
    requires once { IsDistinct nat_eq (keys_of records.now) }
{
    for _ in 0..CALLS {
        if let Ok(old) = DurableV1::from_parts(alloc, &[(10, 258)], 4, records) {
            return Some(old);
        }
    }
    None
}

// Whether it is what survived with these records: migrating it leaves it so.
fn has_survived(old: &DurableV1, records: &[(u64, Record)]) -> bool {
    for (c, record) in records {
        if old.record(*c) != Some(*record) {
            return false;
        }
    }
    old.epoch() == 4 && old.entries() == [(10, 258)].as_slice()
}

// Whether the clients that have not left are these, asked for again if memory was refused.
fn are_missing(old: &DurableV1, alloc: Global, expected: &[u64]) -> bool {
    for _ in 0..CALLS {
        if let Ok(clients) = old.not_left(alloc) {
            return clients.as_slice() == expected;
        }
    }
    false
}

// Whether the value of its one entry is the eight bytes of the number.
fn has_eight_bytes(durable: &Durable) -> bool {
    match durable.run(0) {
        [(key, value)] => *key == 10 && value.bytes() == [0, 0, 0, 0, 0, 0, 1, 2].as_slice(),
        _ => false,
    }
}

// Whether the clients that have left have their records, and no other has one.
fn has_records(durable: &Durable) -> bool {
    for (c, record) in &ALL_LEFT {
        if durable.record(*c) != Some(*record) {
            return false;
        }
    }
    durable.record(1).is_none()
}

// Whether it keeps all but the form of its value if nobody is missing, and is otherwise refused,
// since this client has not left.
fn is_migrated(alloc: Global, old: &DurableV1, missing: Option<u64>) -> bool {
    for _ in 0..CALLS {
        match Durable::migrate(alloc, old) {
            Err(NotMigrated::OutOfMemory) => {}
            Err(NotMigrated::StillRegistered(named)) => return missing == Some(named),
            Ok(new) => {
                return missing.is_none()
                    && new.epoch() == 4
                    && has_eight_bytes(&new)
                    && has_records(&new);
            }
        }
    }
    false
}

// Whether just these are missing of what survived with these records, which is migrated or refused
// by that, and stays as it was.
fn migrates(alloc: Global, records: &[(u64, Record)], missing: &[u64]) -> bool
    requires each { AllByRecursion IsRow records.now }
    requires once { IsDistinct nat_eq (keys_of records.now) }
{
    let Some(old) = survived(alloc, records) else {
        return false;
    };
    has_survived(&old, records)
        && are_missing(&old, alloc, missing)
        && is_migrated(alloc, &old, missing.first().copied())
        && has_survived(&old, records)
}

#[test]
fn keeps_all_but_the_form_of_values(rt: HostRuntime) {
    assert!(rt; migrates(rt.alloc(), &ALL_LEFT, &[]));
}

#[test]
fn names_the_one_who_has_not_left(rt: HostRuntime) {
    assert!(rt; migrates(rt.alloc(), &ONE_HERE, &[0]));
}

#[test]
fn names_the_first_who_has_not_left(rt: HostRuntime) {
    assert!(rt; migrates(rt.alloc(), &TWO_HERE, &[3, 1]));
}

// How these numbers are refused, as they never served. None if they are not.
fn refusal(alloc: Global, entries: &[(u64, u64)]) -> Option<EntriesRefused> {
    for _ in 1..CALLS {
        match DurableV1::new(alloc, entries) {
            Err(EntriesRefused::OutOfMemory) => {}
            answer => return answer.err(),
        }
    }
    DurableV1::new(alloc, entries).err()
}

// What never served: only these entries. None if they are refused.
fn unused(alloc: Global, entries: &[(u64, u64)]) -> Option<DurableV1> {
    for _ in 0..CALLS {
        if let Ok(old) = DurableV1::new(alloc, entries) {
            return Some(old);
        }
    }
    None
}

// Whether what never served has these entries in this order, and nothing else.
fn begins(alloc: Global, entries: &[(u64, u64)], sorted: &[(u64, u64)]) -> bool {
    let Some(old) = unused(alloc, entries) else {
        return false;
    };
    old.entries() == sorted
        && old.epoch() == 0
        && old.record(0).is_none()
        && are_missing(&old, alloc, &[])
}

#[test]
fn begins_at_epoch_0_with_good_entries(rt: HostRuntime) {
    let (entries, sorted) = ([(20, u64::MAX), (10, 258)], [(10, 258), (20, u64::MAX)]);
    assert!(rt; begins(rt.alloc(), &entries, &sorted));
}

#[test]
fn refuses_the_first_bad_number(rt: HostRuntime) {
    let (twice, bad) = ([(1, 0), (2, 0), (1, 0)], [(END, 0), (2, 0), (2, 0)]);
    assert!(rt; refusal(rt.alloc(), &twice) == Some(EntriesRefused::Twice));
    assert!(rt; refusal(rt.alloc(), &bad) == Some(EntriesRefused::BadKey));
}
