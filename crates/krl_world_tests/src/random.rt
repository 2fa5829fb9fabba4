//! Random runs, on writers that have room or too little.
ghost use Rattle.std.specs.Prelude.{◌≤◌};

use crate::scripts::writer;
use krl_modes::END;
use krl_script::{Progress, ScriptFault, Untold, busy_run, random_run};
use krl_text::{AnyWriter, MAX_STEPS};
use std::alloc::{AllocError, Global};

/// Counts how often steps are reported to it, and keeps the last number.
#[derive(Drop)]
struct Counted {
    times: u64,
    last: u64,
}

impl Progress for Counted {
    fn taken(&mut self, steps: u64) {
        self.times = self.times.saturating_add(1);
        self.last = steps;
    }
}

/// Whether the run is sound, and writes this line and no more.
fn writes(alloc: Global, seed: u64, steps: u64, line: &str) -> bool
    requires seed { seed ≤ END }
    requires some { 1 ≤ steps }
    requires bounded { steps ≤ MAX_STEPS }
{
    let mut taken = AnyWriter(writer(line, 7, 1000));
    let end = random_run(alloc, &mut taken, &mut Untold, seed, steps);
    matches!(end, Ok((_, true))) && taken.0.is_right && taken.0.rest.is_empty()
}

/// Whether the run ends as a write fault, with as much of its line as there was room for.
fn is_cut(alloc: Global, line: &str, room: usize) -> bool {
    let mut taken = AnyWriter(writer(line, 2, room));
    let end = random_run(alloc, &mut taken, &mut Untold, 7, 10);
    matches!(end, Err(ScriptFault::Write))
        && taken.0.is_right
        && taken.0.rest.len() == line.len().saturating_sub(room)
}

/// The line of a run of 200 steps.
fn line_of(alloc: Global, seed: u64) -> Result<String, AllocError> {
    format!(in alloc; "random {seed} 200 sound\n")
}

/// Whether a run of 200 steps by this seed is sound.
fn is_sound(alloc: Global, seed: u64) -> bool
    requires { seed ≤ END }
{
    match line_of(alloc, seed) {
        Ok(line) => writes(alloc, seed, 200, &line),
        Err(_) => false,
    }
}

#[test]
fn each_seed_is_sound(rt: HostRuntime) {
    for seed in 0..20u64 {
        assert!(rt; is_sound(rt.alloc(), seed), "seed {seed}");
    }
    assert!(rt; writes(rt.alloc(), END, 1, "random 9223372036854775807 1 sound\n"));
}

/// How many writes the run applied.
fn applied(alloc: Global, is_busy: bool, seed: u64) -> usize
    requires { seed ≤ END }
{
    let mut taken = AnyWriter(writer("", 1000, 1000));
    let end = if is_busy {
        busy_run(alloc, &mut taken, &mut Untold, seed, 1000)
    } else {
        random_run(alloc, &mut taken, &mut Untold, seed, 200)
    };
    match end {
        Ok((world, _)) => world.writes().len(),
        Err(_) => 0,
    }
}

/// How many of the seeds 0 to 19 apply a write.
fn writing(alloc: Global, is_busy: bool) -> u64 {
    let mut writing = 0u64;
    for seed in 0..20u64 {
        if applied(alloc, is_busy, seed) > 0 {
            writing = writing.saturating_add(1);
        }
    }
    writing
}

#[test]
fn some_runs_apply_writes(rt: HostRuntime) {
    assert!(rt; writing(rt.alloc(), false) > 0);
}

#[test]
fn most_busy_runs_apply_writes(rt: HostRuntime) {
    assert!(rt; writing(rt.alloc(), true) >= 15);
}

/// Whether the busy run is sound, and writes this line and no more.
fn hastens(alloc: Global, seed: u64, line: &str) -> bool
    requires { seed ≤ END }
{
    let mut taken = AnyWriter(writer(line, 7, 1000));
    let end = busy_run(alloc, &mut taken, &mut Untold, seed, 200);
    matches!(end, Ok((_, true))) && taken.0.is_right && taken.0.rest.is_empty()
}

/// Whether a busy run of 200 steps by this seed is sound.
fn is_sound_in_haste(alloc: Global, seed: u64) -> bool
    requires { seed ≤ END }
{
    match line_of(alloc, seed) {
        Ok(line) => hastens(alloc, seed, &line),
        Err(_) => false,
    }
}

#[test]
fn each_seed_is_sound_in_haste(rt: HostRuntime) {
    for seed in 0..20u64 {
        assert!(rt; is_sound_in_haste(rt.alloc(), seed), "seed {seed}");
    }
}

#[test]
fn a_write_that_fails_ends_the_run(rt: HostRuntime) {
    let line = "random 7 10 sound\n";
    for room in 0..line.len() {
        assert!(rt; is_cut(rt.alloc(), line, room), "room {room}");
    }
    assert!(rt; !is_cut(rt.alloc(), line, line.len()));
}

/// Whether a run of 20001 steps ends, and reports the 10000th and the 20000th.
fn tells_every_10000th(alloc: Global) -> bool {
    let mut told = Counted { times: 0, last: 0 };
    let mut taken = AnyWriter(writer("random 3 20001 sound\n", 1000, 1000));
    let end = random_run(alloc, &mut taken, &mut told, 3, 20001);
    end.is_ok() && told.times == 2 && told.last == 20000
}

#[test]
fn every_10000th_step_is_told(rt: HostRuntime) {
    assert!(rt; tells_every_10000th(rt.alloc()));
}
