//! The exports.
ghost use Rattle.std.specs.Prelude.{◌≡◌, ◌++◌, length, min, take, drop};
ghost use Rattle.krl_simulator.specs.Answers.{HandedOver, Simulated};

use crate::answer::answer;
use crate::console::Console;
use crate::kept::Kept;
use crate::words::asked;
use krl_command_line::Request;
use std::alloc::Global;

// The status if the output is not handed over.
const FAILED: u8 = 1;

/// How a run ended: the exit status of the program, and how many bytes of its output and of its
/// reports are at the front of their rooms.
#[repr(C)]
#[derive(Clone, Copy)]
pub struct Ending {
    status: u8,
    printed: u64,
    reported: u64,
}

// The bytes go to the front of the room, as far as it goes, and their count is the result.
fn put(bytes: &[u8], room: &mut [u8]) -> usize
    ensures count { result ≡ min (length bytes.now) (length room.old) }
    ensures copied { room.new ≡ take result bytes.now ++ drop result room.old }
{
    let count = bytes.len().min(room.len());
    room[..count].copy_from_slice(&bytes[..count]);
    count
}

// What came of a run goes to the room.
fn hand_over(status: u8, printed: &[u8], output: &mut [u8], reported: usize) -> Ending
    ensures { HandedOver status printed.now output.old output.new result }
{
    let reported = reported as u64;
    if printed.len() > output.len() {
        return Ending {
            status: FAILED,
            printed: 0,
            reported,
        };
    }
    Ending {
        status,
        printed: put(printed, output) as u64,
        reported,
    }
}

/// Whether the words ask for a script, whose text `krl_simulator_run` wants then.
#[unsafe(no_mangle)]
pub extern "C" fn krl_simulator_reads(alloc: Global, words: &[u8]) -> bool {
    let rt = (Console::new(alloc), alloc);
    matches!(asked(&rt, words), Ok(Request::Script | Request::Picture(_)))
}

/// Does what the program does for these words, with this text of a script or with this number of
/// the error by which its reading ended; 0 is none. The output and the reports go to the front of
/// their rooms. What the output has no room for is refused as by a full disk, and reports that have
/// none are left out.
#[unsafe(no_mangle)]
pub extern "C" fn krl_simulator_run(
    alloc: Global,
    words: &[u8],
    text: &[u8],
    failure: i32,
    output: &mut [u8],
    reports: &mut [u8],
) -> Ending
    ensures { Simulated text.now output.old output.new result }
{
    let rt = (Console::new(alloc), alloc);
    let mut kept = Kept::new(alloc, output.len());
    let status = answer(&rt, words, text, failure, &mut kept);
    let (console, _) = rt;
    let reported = put(&console.into_bytes(), reports);
    hand_over(status, kept.bytes(), output, reported)
}
