//! What a script keeps between two lines, and what each request does to it.
ghost use Rattle.std.specs.Prelude.{◌≡◌, ◌≢◌, [], true, slice_get, MatchResult, IfOk, IfErr};
ghost use Rattle.krl_world.specs.States.{fresh};
ghost use Rattle.krl_world.specs.Fields as world;
ghost use Rattle.krl_world.specs.Steps.{CanBegin, CannotBegin};
ghost use Rattle.krl_text.specs.Words.{Gives, Fails, line_request};
ghost use Rattle.krl_script.specs.Transcripts.{first_stage, counted, Acts, Delivers, DeliversThis};
ghost use Rattle.krl_script.specs.Transcripts.{Settles, Tries, filled, Seeds, Obeys, ObeysLine};
ghost use Rattle.krl_script.specs.Undelivered.{none_waiting};
ghost use Rattle.krl_text.specs.Printing.{refused_line};
ghost use Rattle.krl_script.specs.Shown.{shown_lines};
ghost use Rattle.krl_script.specs.Fields.{meaning};

use crate::delivery::Delivery;
use crate::query;
use crate::undelivered::Undelivered;
use krl_messages::Value;
use krl_modes::STANDARD_ROOM;
use krl_text::{
    LineFault, MAX_DELIVERIES, MAX_LINE, MAX_LINES, Query, Request, SyntaxFault, print,
    request_of_line,
};
use krl_world::{Answer, Refused, Step, World};
use std::alloc::{AllocError, Global};
use std::marker::Model;

/// The world, and the messages that wait. Before the script's world is made it has no entries.
pub struct Interpreter {
    alloc: Global,
    begun: bool,
    world: World,
    waiting: Undelivered,
}

impl Model for Interpreter {
    ghost use Rattle.std.specs.Coded.{codes};
    ghost use Rattle.krl_world.specs.contracts.world.World as kept_world;
    ghost use Rattle.krl_script.specs.Fields.{Fields};

    ghost Value = { Fields };

    ghost coded = { Prim.hlevel (codes, kept_world.the_row.coded) };

    ghost view = { λ i. record { begun = i.begun; world = i.world; waits = i.waiting } };
}

impl Drop for Interpreter {
    fn drop(self) {
        let Interpreter {
            alloc: _,
            begun: _,
            world: _world,
            waiting: _waiting,
        } = self;
    }
}

// The entries with the keys from 0 on below n, each with its own number as its value.
fn filled(alloc: Global, n: u64) -> Result<Vec<(u64, Value)>, AllocError>
    ensures { IfOk result (λ entries. entries.items ≡ filled n) }
{
    let mut entries = Vec::new(alloc);
    for key in 0..n {
        entries.push((key, Value::from_u64(key)))?;
    }
    Ok(entries)
}

// A world with no entries.
fn empty_world(alloc: Global) -> Result<World, AllocError>
    ensures { IfOk result (λ w. world.meaning w ≡ fresh []) }
{
    let none = Vec::new(alloc);
    match World::new(alloc, none) {
        Ok(world) => Ok(world),
        Err(_) => Err(AllocError),
    }
}

// The world of these entries, or why they make none.
fn make_world(
    alloc: Global,
    entries: Vec<(u64, Value)>,
) -> Result<Result<World, Refused>, AllocError>
    ensures { IfOk result (λ outcome. MatchResult outcome
        (λ w. CanBegin entries.items × (world.meaning w ≡ fresh entries.items))
        (λ r. CannotBegin entries.items r × (r ≢ Refused.OutOfMemory))) }
{
    match World::new(alloc, entries) {
        Ok(world) => Ok(Ok(world)),
        Err(refused) => match refused {
            Refused::OutOfMemory => Err(AllocError),
            _ => Ok(Err(refused)),
        },
    }
}

impl Interpreter {
    /// Before the first line: no world is made.
    pub fn new(alloc: Global) -> Result<Interpreter, AllocError>
        ensures { IfOk result (λ i. meaning i ≡ first_stage) }
    {
        Ok(Interpreter {
            alloc,
            begun: false,
            world: empty_world(alloc)?,
            waiting: Undelivered::new(alloc),
        })
    }

    // What the world has sent is counted.
    fn count(&mut self) -> Result<(), AllocError>
        ensures { IfOk result (λ done.
            meaning self.new ≡ counted (world.meaning self.old.world) self.old.waits) }
    {
        self.begun = true;
        let sent = self.world.sent();
        self.waiting.count(sent)
    }

    // One step of the world, and the line of what it answers.
    fn act(&mut self, step: Step) -> Result<String, AllocError>
        ensures { IfOk result (λ line.
            Acts (meaning self.old) step line.bytes.items (meaning self.new)) }
    {
        let outcome = self.world.step(step);
        self.count()?;
        print::outcome(self.alloc, &outcome)
    }

    // Delivers the message of this number, which then no longer waits, unless that is refused.
    fn deliver(&mut self, number: u64) -> Result<Result<Answer, Refused>, AllocError>
        ensures { IfOk result (λ outcome.
            Delivers (meaning self.old) number outcome (meaning self.new)) }
    {
        let outcome = self.world.step(Step::Deliver(number));
        if outcome.is_ok() {
            self.waiting.remove(number);
        }
        self.count()?;
        Ok(outcome)
    }

    fn deliver_this(&mut self, number: u64) -> Result<String, AllocError>
        ensures { IfOk result (λ line.
            DeliversThis (meaning self.old) number line.bytes.items (meaning self.new)) }
    {
        let outcome = self.deliver(number)?;
        print::outcome(self.alloc, &outcome)
    }

    // Delivers the oldest waiting message. One whose delivery is refused continues to wait.
    fn deliver_oldest(&mut self) -> Result<Delivery, AllocError>
        ensures { IfOk result (λ delivery. Tries (meaning self.old) delivery (meaning self.new)) }
    {
        let Some(number) = self.waiting.oldest() else {
            return Ok(Delivery::Idle);
        };
        match self.deliver(number)? {
            Ok(_) => Ok(Delivery::Delivered),
            Err(refused) => Ok(Delivery::Refused(refused)),
        }
    }

    // Delivers waiting messages, the oldest first, at most so many. The text reports one that still
    // waits then.
    fn settle(&mut self, most: u64, unsettled: &str) -> Result<String, AllocError>
        ensures { IfOk result (λ line. Settles most unsettled.now
            (meaning self.old) line.bytes.items (meaning self.new)) }
    {
        self.begun = true;
        'deliveries: for _ in 0..most {
            match self.deliver_oldest()? {
                Delivery::Idle => return Ok(String::new(self.alloc)),
                Delivery::Delivered => {}
                Delivery::Refused(refused) => return print::refused(self.alloc, refused),
            }
        }
        if self.waiting.oldest().is_some() {
            return print::text(self.alloc, unsettled);
        }
        Ok(String::new(self.alloc))
    }

    // The script's world is this one from now on.
    fn begin(&mut self, new_world: World)
        ensures { meaning self.new ≡ record (meaning self.old) {
          begun = true;
          world = world.meaning new_world;
        } }
    {
        self.begun = true;
        self.world = new_world;
    }

    // The world has no entries, and this reports why.
    fn refuse(&mut self, refused: Refused) -> Result<String, AllocError>
        ensures { IfOk result (λ line. (line.bytes.items ≡ refused_line refused)
            × (meaning self.new ≡ record (meaning self.old) { begun = true; world = fresh [] })) }
    {
        let world = empty_world(self.alloc)?;
        self.begin(world);
        print::refused(self.alloc, refused)
    }

    // A world of these entries, or the refusal and a world of none.
    fn seed(&mut self, entries: Vec<(u64, Value)>) -> Result<String, AllocError>
        ensures { IfOk result (λ line.
            Seeds (meaning self.old) entries.items line.bytes.items (meaning self.new)) }
    {
        match make_world(self.alloc, entries)? {
            Ok(world) => {
                self.begin(world);
                Ok(String::new(self.alloc))
            }
            Err(refused) => self.refuse(refused),
        }
    }

    // A world of this many entries. More than there may be are refused before they are listed.
    fn fill(&mut self, n: u64) -> Result<String, AllocError>
        ensures { IfOk result (λ line.
            Seeds (meaning self.old) (filled n) line.bytes.items (meaning self.new)) }
    {
        if n > STANDARD_ROOM as u64 {
            return self.refuse(Refused::Full);
        }
        let entries = filled(self.alloc, n)?;
        self.seed(entries)
    }

    // No message waits any more.
    fn drop_waiting(&mut self)
        ensures { meaning self.new ≡ record (meaning self.old) {
          begun = true;
          waits = none_waiting self.old.waits;
        } }
    {
        self.begun = true;
        self.waiting.drop_all();
    }

    // The line of what is read of the world.
    fn show(&mut self, what: Query) -> Result<String, AllocError>
        ensures line { IfOk result (λ line.
            line.bytes.items ≡ shown_lines (world.meaning self.old.world) what) }
        ensures begun { meaning self.new ≡ record (meaning self.old) { begun = true } }
    {
        self.begun = true;
        query::line(self.alloc, &self.world, what)
    }

    /// Does what is asked for, and gives what that prints.
    pub fn obey(&mut self, request: Request) -> Result<String, AllocError>
        ensures { IfOk result (λ line.
            Obeys (meaning self.old) request line.bytes.items (meaning self.new)) }
    {
        match request {
            Request::Nothing => Ok(String::new(self.alloc)),
            Request::Seed(entries) => self.seed(entries.into_pairs()),
            Request::Fill(n) => self.fill(n),
            Request::Step(step) => self.act(step),
            Request::Deliver(number) => self.deliver_this(number),
            Request::Next(n) => self.settle(n, ""),
            Request::Settle => self.settle(MAX_DELIVERIES, "unsettled\n"),
            Request::Drop => {
                self.drop_waiting();
                Ok(String::new(self.alloc))
            }
            Request::Query(what) => self.show(what),
            Request::Modes => print::modes(self.alloc),
        }
    }

    /// The world as it is now. Before the script's world is made it has no entries.
    pub fn world(&self) -> &World
        ensures { result.now ≡ self.now.world }
    {
        &self.world
    }

    /// The number of the oldest message that waits.
    pub fn oldest(&mut self) -> Option<u64>
        ensures oldest { result ≡ slice_get self.old.waits.waiting 0 }
        ensures same { self.new ≡ self.old }
    {
        self.waiting.oldest()
    }

    /// What the line of this number asks for, or its first fault.
    #[tactic(auto, unfolding(krl_text::specs::Words::line_request))]
    pub fn request(&self, number: u64, line: &[u8]) -> Result<Request, LineFault>
        ensures { Gives result (line_request self.now.begun number line.now) }
    {
        if number > MAX_LINES {
            return Err(LineFault::Syntax(SyntaxFault::TooManyLines));
        }
        if line.len() > MAX_LINE {
            return Err(LineFault::Syntax(SyntaxFault::LineTooLong));
        }
        let request = request_of_line(self.alloc, line)?;
        if self.begun && request.makes_world() {
            return Err(LineFault::Syntax(SyntaxFault::LateSeed));
        }
        Ok(request)
    }

    /// Does what a line asks for, and gives what that prints; or reports the line's first fault.
    pub fn obey_line(&mut self, number: u64, line: &[u8]) -> Result<String, LineFault>
        ensures done { IfOk result (λ printed.
            ObeysLine (meaning self.old) number line.now printed.bytes.items (meaning self.new)) }
        ensures fault { IfErr result (λ e. Fails e (line_request self.old.begun number line.now)) }
    {
        let request = self.request(number, line)?;
        let printed = self.obey(request)?;
        Ok(printed)
    }
}
