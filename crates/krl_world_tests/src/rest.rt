//! Worlds that are brought to rest, and one that a pin keeps from it.
use crate::scripts::writer;
use krl_messages::{Value, WriteOp};
use krl_modes::Mode;
use krl_script::{Rest, bring_to_rest};
use krl_text::AnyWriter;
use krl_world::{Command, Refused, Step, World};
use std::alloc::Global;

/// Delivers each message in order, those too that are sent meanwhile.
fn deliver_all(world: &mut World) {
    for number in 1..100u64 {
        let _ = world.step(Step::Deliver(number));
    }
}

/// The client asks for the slot of point 10 only.
fn asks(world: &mut World, client: u64) {
    let (point, hi, mode) = (10, 11, Mode::X);
    let _ = world.step(Step::Command(client, Command::Lock { point, hi, mode }));
}

/// Client 0 has the slot of point 10, client 1 runs, and all messages are delivered.
fn held(alloc: Global) -> Result<World, Refused> {
    let mut world = World::new(alloc, Vec::from_slice(alloc, &[(10, Value::from_u64(1))])?)?;
    let _ = world.step(Step::StartClient(0));
    let _ = world.step(Step::StartClient(1));
    deliver_all(&mut world);
    asks(&mut world, 0);
    deliver_all(&mut world);
    Ok(world)
}

/// Whether the rounds end so, with this line and no more.
fn ends(alloc: Global, world: &mut World, rest: Rest, line: &str) -> bool {
    let mut taken = AnyWriter(writer(line, 7, 1000));
    let ended = bring_to_rest(alloc, &mut taken, world);
    let is_told = match ended {
        Ok(told) => told == rest,
        Err(_) => false,
    };
    is_told && taken.0.is_right && taken.0.rest.is_empty()
}

/// Whether client 1 waits for a pin of client 0, and is answered once the pin is freed. In five
/// rounds client 1 asks again, the server calls client 0 back, client 0 gives way, the server
/// grants, and the grant arrives.
fn waits_for_a_pin(alloc: Global) -> Result<bool, Refused> {
    let mut world = held(alloc)?;
    world.step(Step::Command(0, Command::Pin { lo: 10, hi: 11 }))?;
    asks(&mut world, 1);
    let line = "no rest after 1172 rounds; client 1 waits for its lock\n";
    if !ends(alloc, &mut world, Rest::Missed, line) {
        return Ok(false);
    }
    world.step(Step::Command(0, Command::Unpin(0)))?;
    Ok(ends(alloc, &mut world, Rest::Reached(5), "rest after 5 rounds\n"))
}

#[test]
fn a_pin_keeps_a_world_from_rest(rt: HostRuntime) {
    assert!(rt; matches!(waits_for_a_pin(rt.alloc()), Ok(true)));
}

/// Whether client 1 no longer waits though its messages were lost, client 0 crashed and the server
/// too. In three rounds client 1 sends in the old epoch, the server answers with the new one, and
/// client 1 joins it: that drops its lock request.
fn starts_what_is_down(alloc: Global) -> Result<bool, Refused> {
    let mut world = held(alloc)?;
    asks(&mut world, 1);
    world.step(Step::CrashClient(0))?;
    world.step(Step::CrashServer)?;
    Ok(
        ends(alloc, &mut world, Rest::Reached(3), "rest after 3 rounds\n")
            && world.server().is_some()
            && world.client(0).is_some(),
    )
}

#[test]
fn what_is_down_starts(rt: HostRuntime) {
    assert!(rt; matches!(starts_what_is_down(rt.alloc()), Ok(true)));
}

/// A put of client 0, which holds its entry, is sent.
fn puts(world: &mut World) {
    let value = Value::from_u64(7);
    let _ = world.step(Step::Command(0, Command::Write(WriteOp::Put { key: 10, value })));
}

/// Whether client 0's lost write is judged. In three rounds the client sends it again, the server
/// judges it, and the answer arrives.
fn says_a_write_again(alloc: Global) -> Result<bool, Refused> {
    let mut world = held(alloc)?;
    puts(&mut world);
    Ok(
        ends(alloc, &mut world, Rest::Reached(3), "rest after 3 rounds\n")
            && world.writes().len() == 1,
    )
}

#[test]
fn a_lost_write_is_said_again(rt: HostRuntime) {
    assert!(rt; matches!(says_a_write_again(rt.alloc()), Ok(true)));
}

/// Whether client 0's lost write is judged though the server crashed. In three rounds clients 0 and
/// 1 join the new epoch. In the fourth the server receives their reports, and serves again. The
/// write that client 0 sends in that round is judged in the fifth, and its answer arrives in the
/// sixth.
fn outlasts_a_recovery(alloc: Global) -> Result<bool, Refused> {
    let mut world = held(alloc)?;
    puts(&mut world);
    world.step(Step::CrashServer)?;
    Ok(
        ends(alloc, &mut world, Rest::Reached(6), "rest after 6 rounds\n")
            && world.writes().len() == 1,
    )
}

#[test]
fn a_write_outlasts_a_recovery(rt: HostRuntime) {
    assert!(rt; matches!(outlasts_a_recovery(rt.alloc()), Ok(true)));
}
