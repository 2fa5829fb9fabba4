//! Calls that are made again if memory is refused: `tests/refusals` refuses one request of a
//! test, or two in a row. What was refused has changed nothing.
use krl_modes::{END, KeyPart, RangePart};
use krl_world::{Refused, Step, World};

/// How often a call is made at most: twice it may be refused.
pub const CALLS: u64 = 3;

// What a caller sees of a world: how many messages were sent, how long its index and its writes
// are, which nodes run, and what client 0 holds at some points.
type Seen = (u64, usize, usize, bool, bool, [(RangePart, KeyPart); 4]);

/// How many entries the index has.
pub fn index_len(world: &World) -> usize {
    let entries = world.index();
    let mut len = 0usize;
    for i in 0..entries.len() {
        len = len.saturating_add(entries.get(i).len());
    }
    len
}

fn seen(world: &World) -> Seen {
    let held = [
        world.held(0, 5),
        world.held(0, 10),
        world.held(0, 15),
        world.held(0, END),
    ];
    (
        world.sent(),
        index_len(world),
        world.writes().len(),
        world.server().is_some(),
        world.client(0).is_some(),
        held,
    )
}

/// Takes the step, again if it is refused for want of memory: then nothing has changed.
pub fn takes(world: &mut World, step: Step) -> bool {
    let before = seen(world);
    for _ in 0..CALLS {
        let answer = world.step(step);
        if !matches!(answer, Err(Refused::OutOfMemory)) {
            return answer.is_ok();
        }
        if seen(world) != before {
            return false;
        }
    }
    false
}
