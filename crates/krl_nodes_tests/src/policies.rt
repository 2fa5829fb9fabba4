//! Nodes whose letters are lost, repeated and read out of order, as policies pick.
use crate::picks::Twice;
use crate::scene::{Scene, Who};
use crate::steps::{Step, Told, check};
use krl_messages::{Value, WriteOp};
use krl_modes::{KeyPart, Mode, RangePart};
use krl_nodes::{ClientOrder, Drawn, Policy, ServerOrder};
use krl_world::Command;
use std::sync::Wait;

/// How often every node takes a turn in one run.
const ROUNDS: u64 = 200;

/// Delivers the letters of the server and of one client by the policies, until neither has one.
fn settle_by<R: Wait, P: Policy>(
    rt: &R,
    scene: &mut Scene,
    who: Who,
    policy: &mut P,
    other: &mut P,
) {
    for _ in 0..ROUNDS {
        let served = scene.serve_by(rt, ServerOrder::Letter, policy);
        let acted = scene.act_by(rt, who, ClientOrder::Letter, other);
        if served.is_idle() && acted.is_idle() {
            return;
        }
    }
}

/// The order of a client in a round.
fn order_of(who: Who, round: u64) -> ClientOrder {
    if round == 0 {
        return ClientOrder::Start;
    }
    match (round % 10, who) {
        (0 | 5, _) => ClientOrder::Tick,
        (1, Who::First) => ClientOrder::Command(Command::Lock {
            point: 15,
            hi: 16,
            mode: Mode::RangeIN,
        }),
        (1, Who::Second) => ClientOrder::Command(Command::Lock {
            point: 15,
            hi: 22,
            mode: Mode::RangeSS,
        }),
        (6, Who::First) => ClientOrder::Command(Command::Write(WriteOp::Insert {
            key: 15,
            value: Value::from_u64(5),
        })),
        (9, _) => ClientOrder::Command(Command::Lower {
            lo: 0,
            hi: 64,
            keep: Mode::N,
        }),
        _ => ClientOrder::Letter,
    }
}

/// Whether what both clients hold at the point is compatible.
fn are_compatible_at(scene: &Scene, point: u64) -> bool {
    let (range, key) = scene.held(Who::First, point);
    let (other_range, other_key) = scene.held(Who::Second, point);
    range.compatible(other_range) && key.compatible(other_key)
}

/// Whether what both clients hold is compatible at each point that these tests look at.
fn are_compatible(scene: &Scene) -> bool {
    (0..64u64).all(|point| are_compatible_at(scene, point))
}

/// Whether the client holds a part at 15.
fn holds(scene: &Scene, who: Who) -> bool {
    scene.held(who, 15) != (RangePart::N, KeyPart::N)
}

/// The server takes its turn, and the client follows its order of this round. Whether the
/// clients are compatible then.
fn stays_sound<R: Wait>(
    rt: &R,
    scene: &mut Scene,
    who: Who,
    round: u64,
    order: ServerOrder,
    policy: &mut Drawn,
) -> bool {
    let _ = scene.serve_by(rt, order, policy);
    let _ = scene.act_by(rt, who, order_of(who, round), policy);
    are_compatible(scene)
}

/// Every node takes turns by a policy that is drawn from the seed. Whether both clients' parts are
/// compatible after each, and either holds a part at 15 in some round.
fn is_sound_by<R: Wait>(rt: &R, scene: &mut Scene, seed: u64) -> bool {
    let mut policy = Drawn::new(seed);
    let mut sound = true;
    let mut held = false;
    for round in 0..ROUNDS {
        let nudge = ServerOrder::Nudge(1 + round % 2);
        sound &= stays_sound(
            rt,
            scene,
            Who::First,
            round,
            ServerOrder::Letter,
            &mut policy,
        );
        sound &= stays_sound(rt, scene, Who::Second, round, nudge, &mut policy);
        held |= holds(scene, Who::First) || holds(scene, Who::Second);
    }
    sound && held
}

/// Whether the client follows its order of each of these rounds, with each letter delivered
/// twice.
fn comes_through<R: Wait>(rt: &R, scene: &mut Scene, who: Who, rounds: &[u64]) -> bool {
    let mut policy = Twice { is_second: false };
    let mut other = Twice { is_second: false };
    for round in rounds {
        if !scene.acts(rt, who, order_of(who, *round)) {
            return false;
        }
        settle_by(rt, scene, who, &mut policy, &mut other);
    }
    true
}

// The server loses the letter of a client that starts, and reads the next one; the client loses the
// answer.
static LOSES_EACH: [Step; 7] = [
    Step::Acts(Who::First, Told::Start),
    Step::ServerLoses,
    Step::NoLetterWaits,
    Step::Acts(Who::First, Told::Tick),
    Step::Serves(ServerOrder::Letter),
    Step::ClientLoses(Who::First),
    Step::HasNoLetter(Who::First),
];

#[test]
fn a_policy_loses_a_letter(rt: HostRuntime) {
    check(&rt, &[(10, 1)], (5, 6), &LOSES_EACH);
}

static HEARS_TWICE: [Step; 3] = [
    Step::Acts(Who::First, Told::Start),
    Step::HearsTwice,
    Step::NoLetterWaits,
];

#[test]
fn a_letter_that_is_copied_stays(rt: HostRuntime) {
    check(&rt, &[(10, 1)], (5, 6), &HEARS_TWICE);
}

// The server reads and answers the letter of the client that started last.
static HEARS_THE_YOUNGEST: [Step; 5] = [
    Step::Acts(Who::First, Told::Start),
    Step::Acts(Who::Second, Told::Start),
    Step::HearsTheYoungest,
    Step::HasNoLetter(Who::First),
    Step::Acts(Who::Second, Told::Letter),
];

#[test]
fn the_youngest_letter_is_picked(rt: HostRuntime) {
    check(&rt, &[(10, 1)], (1, 2), &HEARS_THE_YOUNGEST);
}

/// Whether both clients come through, and the second reads what the first inserted.
fn both_come_through(rt: &(impl Wait + AllocGlobal)) -> bool {
    let Some(mut scene) = Scene::open(rt, &[(10, 1), (20, 2)], 1, 2) else {
        return false;
    };
    comes_through(rt, &mut scene, Who::First, &[0, 1, 6, 9])
        && comes_through(rt, &mut scene, Who::Second, &[0, 1])
        && scene.reads(Who::Second, 11, 21, &[(15, 5), (20, 2)])
}

#[test]
fn nodes_come_through_repeated_letters(rt: HostRuntime) {
    assert!(rt; both_come_through(&rt));
}

/// Whether a run by this seed keeps both clients compatible, and one of them held something.
fn is_sound(rt: &(impl Wait + AllocGlobal), seed: u64) -> bool {
    match Scene::open(rt, &[(10, 1), (20, 2)], 1, 2) {
        Some(mut scene) => is_sound_by(rt, &mut scene, seed),
        None => false,
    }
}

#[test]
fn large_clients_stay_compatible(rt: HostRuntime) {
    for seed in 1..21u64 {
        assert!(rt; is_sound(&rt, seed), "{seed}");
    }
}
