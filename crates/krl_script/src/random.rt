//! Random runs.
ghost use Rattle.std.specs.Prelude.{◌≡◌, ℕ, ◌≤◌, None, Some, true, IfOk, IsErrOf, is_none};
ghost use Rattle.krl_world.specs.States.{index_of};
ghost use Rattle.krl_world.specs.Fields.{meaning};
ghost use Rattle.krl_world.specs.Promises.{IsCompatible};
ghost use Rattle.krl_script.specs.ScannedRows.{RowsAreRange};
ghost use Rattle.krl_world.specs.Steps.{IsReachable};
ghost use Rattle.krl_text.specs.declared.limits.TheConstants.{MAX_STEPS};
ghost use Rattle.krl_text.specs.Limits.{max_interruptions, max_steps};
ghost use Rattle.krl_script.specs.Soundness.{first_unsound, numbers_below};
ghost use Rattle.krl_text.specs.Transfers.{IsSteady};
ghost use Rattle.krl_script.specs.declared.random.Pace.TheVariants as pace;
ghost use Rattle.krl_script.specs.RandomRuns.{stage_of, first_entries, first_of, observed_of};
ghost use Rattle.krl_script.specs.RandomRuns.{waits_since, TakesDrawn, GoesOn, late, max_hurried};
ghost use Rattle.krl_script.specs.RandomRuns.{Hurries, GoesAt, RunsRandomly, EndsRandomRun};
ghost use Rattle.krl_script.specs.RandomRuns.{random_line, WroteLineOf};

use crate::progress::Progress;
use crate::rows::answers_index;
use crate::soundness::least_unsound;
use crate::undelivered::Undelivered;
use krl_draws::{Generator, Observed, Writes};
use krl_messages::Value;
use krl_modes::END;
use krl_text::{MAX_STEPS, ScriptFault, Sink, write_line};
use krl_world::{Answer, Refused, Step, World};
use std::alloc::{AllocError, Global};

// So many messages may wait between two steps of a busy run.
const MAX_WAITING: usize = 4;

// The most deliveries that a busy run makes after a step.
const MAX_HURRIED: u64 = 1000;

// How many clients a run draws.
const CLIENTS: u64 = 4;

// They are looked at at the points below this one.
const POINTS: u64 = 64;

// How many steps are taken from one report to the next.
const STRIDE: u64 = 10000;

/// What a random run draws, and what it does between two steps that are drawn.
#[derive(Clone, Copy)]
enum Pace {
    /// Plain writes; and nothing: a message waits until a step that delivers it is drawn.
    Drawn,
    /// Writes that may take their lock; and it delivers the oldest messages that wait, until at
    /// most four wait.
    Busy,
}

/// A world that takes the steps that are drawn.
#[derive(Drop)]
struct RandomRun {
    draws: Generator,
    world: World,
    waiting: Undelivered,
}

fn opening(alloc: Global) -> Result<Vec<(u64, Value)>, AllocError>
    ensures { IfOk result (λ entries. entries.items ≡ first_entries) }
{
    let mut entries = Vec::new(alloc);
    entries.push((10, Value::from_u64(1)))?;
    entries.push((20, Value::from_u64(2)))?;
    Ok(entries)
}

// A message that the step delivered no longer waits.
fn pass(waiting: &mut Undelivered, step: Step, outcome: &Result<Answer, Refused>)
    ensures { waiting.new ≡ waits_since step outcome.now waiting.old }
{
    let Step::Deliver(number) = step else {
        return;
    };
    if outcome.is_err() {
        return;
    }
    waiting.remove(number);
}

impl RandomRun {
    fn new(alloc: Global, seed: u64) -> Result<RandomRun, AllocError>
        ensures { IfOk result (λ run. stage_of run ≡ first_of seed) }
    {
        let entries = opening(alloc)?;
        match World::new(alloc, entries) {
            Ok(world) => Ok(RandomRun {
                draws: Generator::new(seed),
                world,
                waiting: Undelivered::new(alloc),
            }),
            Err(_) => Err(AllocError),
        }
    }

    fn observed(&mut self) -> Observed
        ensures seen { result ≡ observed_of (stage_of self.old) }
        ensures same { self.new ≡ self.old }
    {
        let waiting = self.waiting.oldest();
        Observed {
            waiting,
            sent: self.world.sent(),
            is_down: self.world.server().is_none(),
        }
    }

    // Whether what the clients hold is compatible.
    fn is_sound(&self) -> bool
        ensures sound { IsCompatible (meaning self.now.world) → result ≡ true }
        ensures looks { result
            ≡ is_none (first_unsound (meaning self.now.world) 4 (numbers_below 64)) }
    {
        least_unsound(&self.world, CLIENTS, POINTS).is_none()
    }

    // Whether what the step answered is what the index has, and the clients hold what goes
    // together.
    fn is_sound_after(&self, step: Step, outcome: &Result<Answer, Refused>) -> bool
        ensures sound { RowsAreRange (index_of (meaning self.now.world)) step outcome.now
            → IsCompatible (meaning self.now.world) → result ≡ true }
        ensures rows { result ≡ true
            → RowsAreRange (index_of (meaning self.now.world)) step outcome.now }
        ensures looks { result ≡ true
            → is_none (first_unsound (meaning self.now.world) 4 (numbers_below 64)) ≡ true }
    {
        answers_index(&self.world, step, outcome) & self.is_sound()
    }

    // Takes a step, and gives what it came to.
    fn take(&mut self, step: Step) -> Result<Result<Answer, Refused>, AllocError>
        ensures takes { IfOk result (λ outcome. (taken : TakesDrawn (meaning self.old.world)
            self.old.waiting step self.old.draws (stage_of self.new))
            × (taken.outcome ≡ outcome)) }
        ensures rows { IfOk result (λ outcome.
            RowsAreRange (index_of (meaning self.new.world)) step outcome) }
        ensures sound { IfOk result (λ outcome. IsCompatible (meaning self.new.world)) }
    {
        // A copy: the prover takes a value that is handed on as moved.
        let passed = *&step;
        let outcome = self.world.step(step);
        pass(&mut self.waiting, passed, &outcome);
        let sent = self.world.sent();
        self.waiting.count(sent)?;
        Ok(outcome)
    }

    // Draws the next step and takes it, and reports whether all is sound after it.
    fn go_on(&mut self, writes: Writes) -> Result<bool, AllocError>
        ensures goes { IfOk result (λ sound. GoesOn writes (stage_of self.old) (stage_of self.new)) }
        ensures sound { IsCompatible (meaning self.old.world) → IfOk result (λ sound.
            (sound ≡ true) × IsCompatible (meaning self.new.world)) }
        ensures looks { IfOk result (λ sound. sound ≡ true
            → is_none (first_unsound (meaning self.new.world) 4 (numbers_below 64)) ≡ true) }
    {
        let seen = self.observed();
        let Some(step) = self.draws.step(&seen, writes) else {
            return Ok(self.is_sound());
        };
        // A copy: the prover takes a value that is handed on as moved.
        let taken = *&step;
        let outcome = self.take(taken)?;
        Ok(self.is_sound_after(step, &outcome))
    }

    // The oldest message that waits, if too many do.
    fn late(&mut self) -> Option<u64>
        ensures late { result ≡ late (stage_of self.old) }
        ensures same { self.new ≡ self.old }
    {
        let number = self.waiting.oldest()?;
        if self.waiting.exceeds(MAX_WAITING) {
            Some(number)
        } else {
            None
        }
    }

    // Delivers the oldest messages that wait, until few do, at most so many. Reports whether all is
    // sound then.
    fn hurry(&mut self, most: u64) -> Result<bool, AllocError>
        ensures hurries { IfOk result (λ sound.
            Hurries most (stage_of self.old) (stage_of self.new)) }
        ensures sound { IsCompatible (meaning self.old.world) → IfOk result (λ sound.
            (sound ≡ true) × IsCompatible (meaning self.new.world)) }
        ensures looks { IfOk result (λ sound. sound ≡ true
            → is_none (first_unsound (meaning self.new.world) 4 (numbers_below 64)) ≡ true) }
    {
        'deliveries: for _ in 0..most {
            let Some(number) = self.late() else {
                return Ok(self.is_sound());
            };
            let _ = self.take(Step::Deliver(number))?;
        }
        Ok(self.is_sound())
    }

    // Draws the next step and takes it, continues as the pace asks, and reports whether all was
    // sound.
    fn go_at(&mut self, pace: Pace) -> Result<bool, AllocError>
        ensures goes { IfOk result (λ sound. GoesAt pace (stage_of self.old) (stage_of self.new)) }
        ensures sound { IsCompatible (meaning self.old.world) → IfOk result (λ sound.
            (sound ≡ true) × IsCompatible (meaning self.new.world)) }
        ensures looks { IfOk result (λ sound. sound ≡ true
            → is_none (first_unsound (meaning self.new.world) 4 (numbers_below 64)) ≡ true) }
    {
        match pace {
            Pace::Drawn => self.go_on(Writes::Plain),
            Pace::Busy => {
                let sound = self.go_on(Writes::Taking)?;
                Ok(self.hurry(MAX_HURRIED)? & sound)
            }
        }
    }
}

// Reports every 10,000th step.
fn tell<P: Progress>(progress: &mut P, steps: u64) {
    if steps % STRIDE == 0 {
        progress.taken(steps);
    }
}

// Takes so many steps. Gives the first after which something was not sound, and then no more are
// taken.
fn first_unsound_step<P: Progress>(
    run: &mut RandomRun,
    progress: &mut P,
    pace: Pace,
    steps: u64,
) -> Result<Option<u64>, AllocError>
    ensures { IsCompatible (meaning run.old.world) → IfOk result (λ unsound. (unsound ≡ None)
        × RunsRandomly pace steps (stage_of run.old) (stage_of run.new)) }
{
    'steps: for before in 0..steps {
        let number = before + 1;
        if !run.go_at(pace)? {
            return Ok(Some(number));
        }
        tell(progress, number);
    }
    Ok(None)
}

// Takes so many steps of this seed at this pace. Gives the last world and the first unsound step.
fn driven<P: Progress>(
    alloc: Global,
    progress: &mut P,
    pace: Pace,
    seed: u64,
    steps: u64,
) -> Result<(World, Option<u64>), AllocError>
    ensures { IfOk result (λ end. (end.1 ≡ None)
        × EndsRandomRun pace seed steps (meaning end.0) × IsReachable (meaning end.0)) }
{
    let mut run = RandomRun::new(alloc, seed)?;
    let unsound = first_unsound_step(&mut run, progress, pace, steps)?;
    let RandomRun { world, .. } = run;
    Ok((world, unsound))
}

// The line of a random run.
fn verdict(alloc: Global, seed: u64, steps: u64, unsound: Option<u64>) -> Result<String, AllocError>
    ensures { IfOk result (λ line. line.bytes.items ≡ random_line seed steps unsound) }
{
    match unsound {
        None => format!(in alloc; "random {seed} {steps} sound\n"),
        Some(number) => format!(in alloc; "random {seed} {steps} unsound at {number}\n"),
    }
}

// Writes the line of a random run.
fn write_verdict<W: Sink>(
    alloc: Global,
    writer: &mut W,
    seed: u64,
    steps: u64,
    unsound: Option<u64>,
) -> Result<(), ScriptFault>
    ensures wrote { WroteLineOf (W.contents writer.old) (W.contents writer.new)
        (random_line seed steps unsound) result }
    ensures steady { IsSteady (W.interruptions writer.old) →
        ¬ IsErrOf result ScriptFault.Write }
{
    let line = verdict(alloc, seed, steps, unsound)?;
    write_line(writer, line.as_bytes())
}

/// Drives a world with the entries 10=1 and 20=2 through steps that are drawn, and after each looks
/// at every two of the four clients and every point from 0 to 63, and at the rows of each scan.
/// Writes the line that reports that all was sound, and gives the world and `true`. A step that is
/// refused, also for want of memory, is a step.
///
/// # Errors
///
/// `Write` if the writer fails; `OutOfMemory` if the making of the world or the run's own
/// growth finds no memory: nothing is written then.
pub fn random_run<W: Sink, P: Progress>(
    alloc: Global,
    writer: &mut W,
    progress: &mut P,
    seed: u64,
    steps: u64,
) -> Result<(World, bool), ScriptFault>
    requires seed { seed ≤ END }
    requires some { 1 ≤ steps }
    requires bounded { steps ≤ max_steps }
    ensures limit { MAX_STEPS ≡ max_steps }
    ensures ran { IfOk result
        (λ end. (end.1 ≡ true) × EndsRandomRun pace.Drawn seed steps (meaning end.0)) }
    ensures reachable { IfOk result (λ end. IsReachable (meaning end.0)) }
    ensures wrote { WroteLineOf (W.contents writer.old) (W.contents writer.new)
        (random_line seed steps None) result }
    ensures steady { (n : ℕ) → W.interruptions writer.old ≡ Some n → n ≤ max_interruptions →
        ¬ IsErrOf result ScriptFault.Write }
{
    let (world, unsound) = driven(alloc, progress, Pace::Drawn, seed, steps)?;
    write_verdict(alloc, writer, seed, steps, unsound)?;
    Ok((world, unsound.is_none()))
}

/// Drives a world as [`random_run`] does, but every other write also takes the lock that it needs;
/// and after each step it delivers the oldest messages that wait, until at most four wait, or 1,000
/// were delivered. So messages seldom come late, and clients do more. It looks at the world after
/// each step, and again after what was delivered then.
///
/// # Errors
///
/// `Write` if the writer fails; `OutOfMemory` if the making of the world or the run's own
/// growth finds no memory: nothing is written then.
pub fn busy_run<W: Sink, P: Progress>(
    alloc: Global,
    writer: &mut W,
    progress: &mut P,
    seed: u64,
    steps: u64,
) -> Result<(World, bool), ScriptFault>
    requires seed { seed ≤ END }
    requires some { 1 ≤ steps }
    requires bounded { steps ≤ max_steps }
    ensures limit { MAX_STEPS ≡ max_steps }
    ensures ran { IfOk result
        (λ end. (end.1 ≡ true) × EndsRandomRun pace.Busy seed steps (meaning end.0)) }
    ensures reachable { IfOk result (λ end. IsReachable (meaning end.0)) }
    ensures wrote { WroteLineOf (W.contents writer.old) (W.contents writer.new)
        (random_line seed steps None) result }
    ensures steady { (n : ℕ) → W.interruptions writer.old ≡ Some n → n ≤ max_interruptions →
        ¬ IsErrOf result ScriptFault.Write }
{
    let (world, unsound) = driven(alloc, progress, Pace::Busy, seed, steps)?;
    write_verdict(alloc, writer, seed, steps, unsound)?;
    Ok((world, unsound.is_none()))
}
