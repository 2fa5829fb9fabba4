ghost use Rattle.std.specs.Prelude.{◌≤◌};
ghost use Rattle.krl_modes.specs.declared.point.TheConstants.{END};

use krl_client::{Status, WriteStatus};
use krl_messages::Value;
use krl_nodes_demo::{Gate, NodesReport, NotRun, run_nodes, run_nodes_by};
use std::sync::Wait;
use std::sync::atomic::{AtomicBool, AtomicU64, Ordering};
use std::thread;
use std::thread::Threads;
use std::time::{Clock, Duration};

// The most looks at what another thread does, with a pause after each.
const MAX_LOOKS: u64 = 10_000;

// What the gates of two threads report to each other.
#[derive(Drop)]
struct Meeting {
    is_there: AtomicBool,
    is_answered: AtomicBool,
    met: AtomicU64,
}

impl Meeting {
    fn new() -> Meeting {
        Meeting {
            is_there: AtomicBool::new(false),
            is_answered: AtomicBool::new(false),
            met: AtomicU64::new(0),
        }
    }

    // Waits until the other thread has come this far, and counts it if it did.
    fn meet(&self, rt: &impl Clock, flag: &AtomicBool) {
        for _ in 0..MAX_LOOKS {
            if flag.load(Ordering::SeqCst) {
                self.met.fetch_add(1, Ordering::SeqCst);
                return;
            }
            nap(rt);
        }
    }
}

fn nap(rt: &impl Clock) {
    thread::sleep(rt, Duration::from_micros(200));
}

// Client 1 begins when client 2 stands in its first pass, and reports when its insert is answered.
#[derive(Drop)]
struct Writes<'a, R> {
    rt: &'a R,
    meeting: &'a Meeting,
}

impl<R: Clock> Gate for Writes<'_, R> {
    fn pass(&mut self, turn: u64, status: Option<Status>) {
        if turn == 0 {
            self.meeting.meet(self.rt, &self.meeting.is_there);
        }
        if let Some(status) = status {
            if let WriteStatus::Judged(_, _) = status.write {
                self.meeting.is_answered.store(true, Ordering::SeqCst);
            }
        }
    }

    fn pause(&mut self) {
        nap(self.rt);
    }
}

// Client 2 stands in its first pass until client 1's insert is answered.
#[derive(Drop)]
struct Reads<'a, R> {
    rt: &'a R,
    meeting: &'a Meeting,
}

impl<R: Clock> Gate for Reads<'_, R> {
    fn pass(&mut self, turn: u64, _status: Option<Status>) {
        if turn == 0 {
            self.meeting.is_there.store(true, Ordering::SeqCst);
            self.meeting.meet(self.rt, &self.meeting.is_answered);
        }
    }

    fn pause(&mut self) {
        nap(self.rt);
    }
}

// Passed at once, with a short pause if no letter waits.
#[derive(Drop)]
struct Naps<'a, R> {
    rt: &'a R,
}

impl<R: Clock> Gate for Naps<'_, R> {
    fn pass(&mut self, _turn: u64, _status: Option<Status>) {}

    fn pause(&mut self) {
        thread::sleep(self.rt, Duration::from_micros(20));
    }
}

// Whether these are the row that client 1 inserts, and the one after it.
fn are_both(rows: &[(u64, Value)]) -> bool {
    rows.len() == 2 && rows[0] == (15, Value::from_u64(5)) && rows[1] == (20, Value::from_u64(2))
}

// How a run ended. What it reported is let go here, once for all tests.
#[derive(Clone, Copy)]
enum Ended {
    Right,
    Wrong,
    GaveUp,
    OutOfMemory,
}

impl Ended {
    fn of(run: Result<NodesReport, NotRun>) -> Ended {
        match run {
            Ok(report) if are_both(report.rows.as_slice()) => Ended::Right,
            Ok(_) => Ended::Wrong,
            Err(NotRun::GaveUp) => Ended::GaveUp,
            Err(NotRun::OutOfMemory) => Ended::OutOfMemory,
        }
    }
}

// How the run by this seed ends.
fn by_seed(rt: &(impl Threads + Wait + Sync + Clock + AllocGlobal), seed: u64) -> Ended
    requires { seed ≤ END }
{
    Ended::of(run_nodes_by(rt, rt.alloc(), Naps { rt }, Naps { rt }, Naps { rt }, seed))
}

// Whether each of 20 runs has its rows or gives up, and some have their rows.
fn come_through(rt: &(impl Threads + Wait + Sync + Clock + AllocGlobal)) -> bool {
    let mut is_any = false;
    for seed in 1..21u64 {
        match by_seed(rt, seed) {
            Ended::Right => is_any = true,
            Ended::GaveUp => {}
            Ended::Wrong | Ended::OutOfMemory => return false,
        }
    }
    is_any
}

#[test]
fn nodes_run_on_threads_as_letters_are_lost(rt: HostRuntime) {
    assert!(rt; come_through(&rt));
}

#[test]
fn nodes_end_whatever_is_refused(rt: HostRuntime) {
    let run = run_nodes(
        &rt,
        rt.alloc(),
        Naps { rt: &rt },
        Naps { rt: &rt },
        Naps { rt: &rt },
    );
    assert!(rt; !matches!(Ended::of(run), Ended::Wrong));
}

#[test]
fn nodes_end_whatever_is_refused_by_a_policy(rt: HostRuntime) {
    assert!(rt; !matches!(by_seed(&rt, 1), Ended::Wrong));
}

#[test]
fn nodes_run_on_threads(rt: HostRuntime) {
    let meeting = Meeting::new();
    let writes = Writes {
        rt: &rt,
        meeting: &meeting,
    };
    let reads = Reads {
        rt: &rt,
        meeting: &meeting,
    };
    let run = run_nodes(&rt, rt.alloc(), Naps { rt: &rt }, writes, reads);
    assert!(rt; matches!(Ended::of(run), Ended::Right));
    assert_eq!(rt; meeting.met.load(Ordering::SeqCst), 2);
}
