//! What is done in a scene, one step after another, and what has to come of it.
use crate::picks::{Loses, Twice, Youngest};
use crate::scene::{Scene, Who};
use krl_messages::{Value, WriteOp};
use krl_modes::Mode;
use krl_nodes::{ClientOrder, ServerOrder};
use krl_world::{Command, Refused};
use std::process::Abort;
use std::sync::Wait;

/// An order of a client, as a row can hold it.
#[derive(Clone, Copy)]
pub enum Told {
    /// To read a letter.
    Letter,
    /// To ask for the mode, from the point up to one past the last.
    Lock(u64, u64, Mode),
    /// To ask for an insert of the key, whose value is the number.
    Insert(u64, u64),
    /// To give everything back, and end.
    Leave,
    /// To send again what is not answered.
    Tick,
    /// To run.
    Start,
    /// To stop.
    Crash,
}

/// A step: what is done, or looked at, and what has to come of it.
#[derive(Clone, Copy)]
pub enum Step {
    /// The server carries the order out.
    Serves(ServerOrder),
    /// It refuses the order so.
    ServerRefuses(ServerOrder, Refused),
    /// No letter waits for the server.
    NoLetterWaits,
    /// A letter to the server is lost.
    ServerLoses,
    /// The server reads one letter twice.
    HearsTwice,
    /// The server reads the youngest letter.
    HearsTheYoungest,
    /// The client carries the order out.
    Acts(Who, Told),
    /// It refuses the order so.
    Refuses(Who, Told, Refused),
    /// No letter waits for the client.
    HasNoLetter(Who),
    /// A letter to the client is lost.
    ClientLoses(Who),
    /// The letters of the server and the first client are delivered.
    Settles,
    /// The client's cache has just these rows in the span, each value a number.
    Reads(Who, u64, u64, &'static [(u64, u64)]),
    /// The first point that the client's cache misses in the span.
    Misses(Who, u64, u64, u64),
    /// The client's scan is refused so.
    ScanRefused(Who, u64, u64, Refused),
    /// The client is down.
    IsDown(Who),
}

fn order_of(told: Told) -> ClientOrder {
    match told {
        Told::Letter => ClientOrder::Letter,
        Told::Lock(point, hi, mode) => ClientOrder::Command(Command::Lock { point, hi, mode }),
        Told::Insert(key, number) => ClientOrder::Command(Command::Write(WriteOp::Insert {
            key,
            value: Value::from_u64(number),
        })),
        Told::Leave => ClientOrder::Command(Command::Leave),
        Told::Tick => ClientOrder::Tick,
        Told::Start => ClientOrder::Start,
        Told::Crash => ClientOrder::Crash,
    }
}

/// Whether the server reads one letter twice.
fn hears_twice<R: Wait>(rt: &R, scene: &mut Scene) -> bool {
    let mut twice = Twice { is_second: false };
    scene.serve_by(rt, ServerOrder::Letter, &mut twice).did()
        && scene.serve_by(rt, ServerOrder::Letter, &mut twice).did()
}

/// Whether the look at the scene finds this. A step that does something is no look.
fn shows(scene: &Scene, step: Step) -> bool {
    match step {
        Step::Reads(who, lo, hi, rows) => scene.reads(who, lo, hi, rows),
        Step::Misses(who, lo, hi, point) => scene.misses(who, lo, hi, point),
        Step::ScanRefused(who, lo, hi, refused) => scene.scan_is_refused(who, lo, hi, refused),
        Step::IsDown(who) => scene.is_down(who),
        _ => false,
    }
}

/// Whether the step is so, once it is done.
fn is_so<R: Wait>(rt: &R, scene: &mut Scene, step: Step) -> bool {
    let letter = ServerOrder::Letter;
    match step {
        Step::Serves(order) => scene.serve(rt, order).did(),
        Step::ServerRefuses(order, refused) => scene.serve(rt, order).is_refused(refused),
        Step::NoLetterWaits => scene.serve(rt, letter).is_idle(),
        Step::ServerLoses => scene.serve_by(rt, letter, &mut Loses).is_lost(),
        Step::HearsTwice => hears_twice(rt, scene),
        Step::HearsTheYoungest => scene.serve_by(rt, letter, &mut Youngest).did(),
        Step::Acts(who, told) => scene.act(rt, who, order_of(told)).did(),
        Step::Refuses(who, told, refused) => scene.act(rt, who, order_of(told)).is_refused(refused),
        Step::HasNoLetter(who) => scene.act(rt, who, ClientOrder::Letter).is_idle(),
        Step::ClientLoses(who) => {
            let lost = scene.act_by(rt, who, ClientOrder::Letter, &mut Loses);
            lost.is_lost()
        }
        Step::Settles => {
            scene.settle(rt);
            true
        }
        _ => shows(scene, step),
    }
}

/// The first step that is not so.
fn fails<R: Wait>(rt: &R, scene: &mut Scene, steps: &[Step]) -> Option<usize> {
    for i in 0..steps.len() {
        if !is_so(rt, scene, steps[i]) {
            return Some(i);
        }
    }
    None
}

/// The scene after these steps, with these entries, and with clients of these numbers. If a step
/// is not so it ends the test with the number of the first.
pub fn after(
    rt: &(impl Wait + AllocGlobal + Abort),
    entries: &[(u64, u64)],
    clients: (u64, u64),
    steps: &[Step],
) -> Scene {
    let Some(mut scene) = Scene::open(rt, entries, clients.0, clients.1) else {
        panic!(rt; "no office opens");
    };
    assert_eq!(rt; fails(rt, &mut scene, steps), None);
    scene
}

/// Makes these steps, and lets the scene go.
pub fn check(
    rt: &(impl Wait + AllocGlobal + Abort),
    entries: &[(u64, u64)],
    clients: (u64, u64),
    steps: &[Step],
) {
    let _scene = after(rt, entries, clients, steps);
}
