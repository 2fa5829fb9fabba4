//! Runs of a world.
use krl_messages::Value;
use krl_modes::Mode;
use krl_world::{Answer, Command, Refused, Step, World};
use std::alloc::Global;

/// Client 0 joins, and locks the slot of point 5. Each message is delivered as it is sent. Then the
/// client scans as far as it knows, and a point further.
fn steps() -> [Step; 10] {
    [
        Step::StartClient(0),
        Step::Deliver(1),
        Step::Deliver(2),
        Step::Deliver(3),
        Step::Command(
            0,
            Command::Lock {
                point: 5,
                hi: 6,
                mode: Mode::RangeSS,
            },
        ),
        Step::Deliver(4),
        Step::Deliver(5),
        Step::Deliver(6),
        Step::Command(0, Command::Scan { lo: 0, hi: 11 }),
        Step::Command(0, Command::Scan { lo: 0, hi: 12 }),
    ]
}

static NAMES: [(Refused, &str); 18] = [
    (Refused::OutOfMemory, "OutOfMemory"),
    (Refused::BadPoint, "BadPoint"),
    (Refused::BadSpan, "BadSpan"),
    (Refused::NotJoined, "NotJoined"),
    (Refused::Busy, "Busy"),
    (Refused::NotHeld, "NotHeld"),
    (Refused::Pinned, "Pinned"),
    (Refused::Writing, "Writing"),
    (Refused::TooManyPins, "TooManyPins"),
    (Refused::Spent, "Spent"),
    (Refused::BadClient, "BadClient"),
    (Refused::Down, "Down"),
    (Refused::Running, "Running"),
    (Refused::NoMessage, "NoMessage"),
    (Refused::BadKey, "BadKey"),
    (Refused::Twice, "Twice"),
    (Refused::Full, "Full"),
    (Refused::StillRegistered(3), "StillRegistered"),
];

fn is_done(answer: &Result<Answer, Refused>) -> bool {
    matches!(answer, Ok(Answer::Done))
}

/// Whether a scan found one row.
fn is_row(answer: &Result<Answer, Refused>, row: (u64, Value)) -> bool {
    match answer {
        Ok(Answer::Rows(rows)) => rows.as_slice() == [row].as_slice(),
        _ => false,
    }
}

fn is_miss(answer: &Result<Answer, Refused>, point: u64) -> bool {
    match answer {
        Ok(Answer::Miss(missed)) => *missed == point,
        _ => false,
    }
}

/// Whether these are the answers to those steps.
fn are_answers(answers: &[Result<Answer, Refused>]) -> bool {
    answers.len() == 10
        && answers.iter().take(8).all(is_done)
        && is_row(&answers[8], (10, Value::from_u64(1)))
        && is_miss(&answers[9], 11)
}

/// Whether a world answers them so, with as many messages sent.
fn answers_each(alloc: Global) -> Result<bool, Refused> {
    let entries = [(20, Value::from_u64(2)), (10, Value::from_u64(1))];
    let mut world = World::new(alloc, Vec::from_slice(alloc, &entries)?)?;
    let answers = world.run(alloc, &steps())?;
    Ok(are_answers(answers.as_slice()) && world.sent() == 6)
}

#[test]
fn a_run_answers_each_step(rt: HostRuntime) {
    assert!(rt; matches!(answers_each(rt.alloc()), Ok(true)));
}

fn is_named(alloc: Global, refused: Refused, name: &str) -> bool {
    match refused.to_string(alloc) {
        Ok(text) => text.as_str() == name,
        Err(_) => false,
    }
}

#[test]
fn each_refusal_has_its_name(rt: HostRuntime) {
    for (refused, name) in &NAMES {
        assert!(rt; is_named(rt.alloc(), *refused, name), "{name}");
    }
}
