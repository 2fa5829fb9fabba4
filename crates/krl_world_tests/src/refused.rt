//! Worlds whose requests for memory may be refused, one by one or two in a row: what was refused
//! has changed nothing, and the same call made again gives its row.
use crate::again::{CALLS, index_len, takes};
use crate::scripts::writer;
use krl_messages::{Value, WriteOp};
use krl_modes::Mode;
use krl_script::{Rest, ScriptFault, Untold, bring_to_rest, busy_run, random_run, run_script};
use krl_text::AnyWriter;
use krl_world::{Answer, Command, Refused, Step, World};
use std::alloc::Global;

// A world of two entries.
fn made(alloc: Global) -> Result<World, Refused> {
    let entries = [(10, Value::from_u64(1)), (20, Value::from_u64(2))];
    World::new(alloc, Vec::from_slice(alloc, &entries)?)
}

// The same, made again if memory was refused.
fn made_at_last(alloc: Global) -> Option<World> {
    for _ in 0..CALLS {
        if let Ok(world) = made(alloc) {
            return Some(world);
        }
    }
    None
}

// Client 0 locks a range over both entries, inserts between them, and forgets; then its server
// crashes, takes its report, and the client leaves.
fn steps() -> [Step; 24] {
    let lock = Command::Lock {
        point: 15,
        hi: 16,
        mode: Mode::RangeIN,
    };
    let insert = Command::Write(WriteOp::Insert {
        key: 15,
        value: Value::from_u64(5),
    });
    [
        Step::StartClient(0),
        Step::Deliver(1),
        Step::Deliver(2),
        Step::Deliver(3),
        Step::Command(0, lock),
        Step::Deliver(4),
        Step::Deliver(5),
        Step::Deliver(6),
        Step::Command(0, insert),
        Step::Deliver(7),
        Step::Deliver(8),
        Step::Deliver(9),
        Step::Command(0, Command::Scan { lo: 15, hi: 16 }),
        Step::Command(0, Command::Pin { lo: 15, hi: 16 }),
        Step::Command(0, Command::Unpin(0)),
        Step::CrashServer,
        Step::StartServer,
        Step::Tick(0),
        Step::Nudge(0),
        Step::Deliver(10),
        Step::Deliver(11),
        Step::Deliver(12),
        Step::Command(
            0,
            Command::Lower {
                lo: 0,
                hi: 21,
                keep: Mode::N,
            },
        ),
        Step::Command(0, Command::Leave),
    ]
}

// Whether the world takes each of them.
fn takes_each(world: &mut World) -> bool {
    for step in &steps() {
        if !takes(world, *step) {
            return false;
        }
    }
    true
}

// Whether the world is as it has to be after them.
fn is_as_they_leave_it(world: &World) -> bool {
    index_len(world) == 3
        && world.writes().len() == 1
        && world.client(0).is_none()
        && world.server().is_some()
}

#[test]
fn each_step_is_taken_again(rt: HostRuntime) {
    let Some(mut world) = made_at_last(rt.alloc()) else {
        panic!(rt; "no world is made");
    };
    assert!(rt; takes_each(&mut world) && is_as_they_leave_it(&world));
}

fn is_refused(answer: &Result<Answer, Refused>) -> bool {
    matches!(answer, Err(Refused::OutOfMemory))
}

// What the world answers to all steps in one run. If there is no memory for the answers, no step
// is taken, and the run is made again. None if a step was taken, or there is no memory in the
// end.
fn answers(alloc: Global, world: &mut World) -> Option<Vec<Result<Answer, Refused>>> {
    for _ in 0..CALLS {
        if let Ok(answers) = world.run(alloc, &steps()) {
            return Some(answers);
        }
        if world.sent() != 0 || world.client(0).is_some() {
            return None;
        }
    }
    None
}

// Whether a world takes all steps in one run. If memory for one is refused, those after it may
// be refused too, and another world has to make the run: `Err(true)`.
fn runs(alloc: Global) -> Result<bool, bool> {
    let Ok(mut world) = made(alloc) else {
        return Err(true);
    };
    match answers(alloc, &mut world) {
        None => Ok(false),
        Some(answers) if answers.as_slice().iter().any(is_refused) => Err(true),
        Some(answers) => Ok(answers.as_slice().iter().all(Result::is_ok)),
    }
}

static SCRIPT: &str = "seed 10=1 20=2\nclient 0\nsettle\nlock 0 5 RangeS-S\nsettle\n\
     scan 0 0 11\nscan 0 0 12\n";

static TRANSCRIPT: &str = "rows 10=1\nmiss 11\n";

// Whether a script wrote its transcript. A line that is refused prints that it is, and the lines
// after it are run: so only a script that ended for want of memory wrote the front of its
// transcript.
fn scripted(alloc: Global) -> Result<bool, bool> {
    let mut text = SCRIPT.as_bytes();
    let mut taken = AnyWriter(writer(TRANSCRIPT, 7, 1000));
    match run_script(alloc, &mut text, &mut taken) {
        Ok(()) if taken.0.is_right && taken.0.rest.is_empty() => Ok(true),
        Ok(()) => Err(true),
        Err(ScriptFault::OutOfMemory) => Err(taken.0.is_right),
        Err(_) => Ok(false),
    }
}

// Whether the run is sound. An `Err` if it ended for want of memory, with nothing written.
fn drives(alloc: Global, is_busy: bool) -> Result<bool, bool> {
    let line = "random 7 40 sound\n";
    let mut taken = AnyWriter(writer(line, 1000, 1000));
    let ended = if is_busy {
        busy_run(alloc, &mut taken, &mut Untold, 7, 40)
    } else {
        random_run(alloc, &mut taken, &mut Untold, 7, 40)
    };
    match ended {
        Ok((_, sound)) => Ok(sound && taken.0.is_right && taken.0.rest.is_empty()),
        Err(ScriptFault::OutOfMemory) => Err(taken.0.rest.len() == line.len()),
        Err(_) => Ok(false),
    }
}

// A world in which client 0 has asked for a lock.
fn asked(alloc: Global) -> Option<World> {
    let mut world = made_at_last(alloc)?;
    for step in steps().iter().take(5) {
        if !takes(&mut world, *step) {
            return None;
        }
    }
    Some(world)
}

// Whether it is answered: in three rounds the client asks again, the server grants, and the grant
// arrives. An `Err` where the rounds ended for want of memory, with nothing written.
fn rests(alloc: Global) -> Result<bool, bool> {
    let Some(mut world) = asked(alloc) else {
        return Ok(false);
    };
    let line = "rest after 3 rounds\n";
    let mut taken = AnyWriter(writer(line, 1000, 1000));
    match bring_to_rest(alloc, &mut taken, &mut world) {
        Ok(rest) => { Ok(rest == Rest::Reached(3) && taken.0.is_right && taken.0.rest.is_empty()) }
        Err(ScriptFault::OutOfMemory) => Err(taken.0.rest.len() == line.len()),
        Err(_) => Ok(false),
    }
}

// A run of all steps, one of the script, random ones, and rounds that bring a world to rest.
enum Run {
    Steps,
    Script,
    Random,
    Busy,
    Rest,
}

// Makes the run once.
fn run_once(alloc: Global, run: &Run) -> Result<bool, bool> {
    match run {
        Run::Steps => runs(alloc),
        Run::Script => scripted(alloc),
        Run::Random => drives(alloc, false),
        Run::Busy => drives(alloc, true),
        Run::Rest => rests(alloc),
    }
}

// Whether a run that is made again as long as memory is refused is right in the end. A refused
// run, an `Err`, reports whether what it left is right.
fn is_right_at_last(alloc: Global, run: &Run) -> bool {
    for _ in 0..CALLS {
        match run_once(alloc, run) {
            Ok(is_right) => return is_right,
            Err(false) => return false,
            Err(true) => {}
        }
    }
    false
}

#[test]
fn a_run_is_made_again(rt: HostRuntime) {
    assert!(rt; is_right_at_last(rt.alloc(), &Run::Steps));
}

#[test]
fn a_script_is_run_again(rt: HostRuntime) {
    assert!(rt; is_right_at_last(rt.alloc(), &Run::Script));
}

#[test]
fn a_random_run_is_made_again(rt: HostRuntime) {
    assert!(rt; is_right_at_last(rt.alloc(), &Run::Random));
    assert!(rt; is_right_at_last(rt.alloc(), &Run::Busy));
}

#[test]
fn a_world_is_brought_to_rest_again(rt: HostRuntime) {
    assert!(rt; is_right_at_last(rt.alloc(), &Run::Rest));
}
