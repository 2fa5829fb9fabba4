//! Scripts on readers and writers that fail, stop short or are interrupted.
use krl_script::{ScriptFault, run_script};
use krl_text::{AnyReader, AnyWriter, SyntaxFault};
use std::alloc::Global;
use std::io;
use std::io::{ErrorKind, Read, Write};

static FIRST: &str =
    "seed 10=1 20=2\nclient 0\nsettle\nlock 0 5 RangeS-S\nsettle\nscan 0 0 11\nscan 0 0 12\n";

static TRANSCRIPT: &str = "rows 10=1\nmiss 11\n";

/// Scripts with their transcripts: the first one; one with inserts of two clients; one in which the
/// server crashes before a client learns of its insert; and a lock of a range over values of
/// bytes.
static SCRIPTS: [(&str, &str); 4] = [
    (
        "seed 10=1 20=2\nclient 0\nsettle\nlock 0 5 RangeS-S\nsettle\nscan 0 0 11\nscan 0 0 12\n",
        "rows 10=1\nmiss 11\n",
    ),
    (
        "seed 10=1 20=2\nclient 0\nclient 1\nsettle\nlock 0 15 RangeI-N\nlock 1 15 RangeI-N\n\
         settle\ninsert 0 15 5\nsettle\ninsert 1 17 7\nsettle\nstatus 0\nstatus 1\n\
         scan 1 15 18\nhold 1 17\nindex\n",
        "status 1 2 granted 1 Applied\nstatus 1 2 granted 1 Applied\nmiss 15\nhold I X\n\
         index 10=1 15=5 17=7 20=2\n",
    ),
    (
        "seed 10=1 20=2\nclient 0\nclient 1\nsettle\nlock 0 15 RangeI-N\nsettle\n\
         insert 0 15 5\nnext 1\ncrash server\ndrop\nstart server\ntick 0\ntick 1\nsettle\n\
         missing\nstatus 0\nlock 1 15 X\nsettle\nput 1 15 6\nsettle\nstatus 1\ntick 0\n\
         settle\nstatus 0\nhold 0 15\nscan 0 15 16\nindex\nwrites\n",
        "missing\nstatus 2 0 granted 1 waiting\nstatus 2 2 granted 1 Applied\n\
         status 2 1 granted 1 Applied\nhold I N\nmiss 15\nindex 10=1 15=6 20=2\n\
         writes 0.1.1 1.1.1\n",
    ),
    (
        "seed 10=x 20=xDEADBEEF 30=7\nclient 0\nsettle\nlock 0 0 RangeS-S END\nsettle\n\
         scan 0 0 END\nindex\n",
        "rows 10=x 20=xdeadbeef 30=7\nindex 10=x 20=xdeadbeef 30=7\n",
    ),
];

/// Gives a byte a read. It is interrupted a few times before the first byte, and perhaps once
/// before each; after so many good reads it fails.
#[derive(Drop)]
struct Dripping<'a> {
    text: &'a [u8],
    interruptions: u64,
    is_hindered: bool,
    is_next: bool,
    good_reads: u64,
    turns: u64,
}

impl Dripping<'_> {
    /// Whether this turn is interrupted.
    fn is_interrupted(&mut self) -> bool {
        if self.interruptions > 0 {
            self.interruptions -= 1;
            return true;
        }
        self.is_next = self.is_hindered && !self.is_next;
        self.is_next
    }
}

impl Read for Dripping<'_> {
    fn read(&mut self, buf: &mut [u8]) -> io::Result<usize> {
        self.turns = self.turns.saturating_add(1);
        if self.is_interrupted() {
            return Err(io::Error::from(ErrorKind::Interrupted));
        }
        if self.good_reads == 0 {
            return Err(io::Error::from(ErrorKind::Other));
        }
        self.good_reads -= 1;
        if buf.is_empty() || self.text.is_empty() {
            return Ok(0);
        }
        buf[0] = self.text[0];
        self.text = &self.text[1..];
        Ok(1)
    }
}

/// Takes some bytes a write, and sees whether they are what is to come. It is interrupted a few
/// times before the first write, and fails once it has no room.
#[derive(Drop)]
pub struct Narrow<'a> {
    pub rest: &'a [u8],
    pub is_right: bool,
    at_once: usize,
    room: usize,
    interruptions: u64,
    writes: u64,
}

impl Write for Narrow<'_> {
    fn write(&mut self, buf: &[u8]) -> io::Result<usize> {
        if self.interruptions > 0 {
            self.interruptions -= 1;
            return Err(io::Error::from(ErrorKind::Interrupted));
        }
        let n = buf.len().min(self.room).min(self.at_once);
        if n == 0 {
            return Err(io::Error::from(ErrorKind::Other));
        }
        match self.rest.strip_prefix(&buf[..n]) {
            Some(rest) => self.rest = rest,
            None => self.is_right = false,
        }
        self.room -= n;
        self.writes = self.writes.saturating_add(1);
        Ok(n)
    }

    fn flush(&mut self) -> io::Result<()> {
        Ok(())
    }
}

/// Reads that give the text a byte at a time.
fn reader(text: &str, interruptions: u64, good_reads: u64) -> Dripping<'_> {
    Dripping {
        text: text.as_bytes(),
        interruptions,
        is_hindered: false,
        is_next: false,
        good_reads,
        turns: 0,
    }
}

/// A writer that wants this transcript.
pub fn writer(transcript: &str, at_once: usize, room: usize) -> Narrow<'_> {
    Narrow {
        rest: transcript.as_bytes(),
        is_right: true,
        at_once,
        room,
        interruptions: 0,
        writes: 0,
    }
}

/// Runs a reader's script.
fn read(alloc: Global, given: &mut AnyReader<Dripping<'_>>) -> (Result<(), ScriptFault>, usize) {
    let mut taken = AnyWriter(writer(TRANSCRIPT, 2, 1000));
    let result = run_script(alloc, given, &mut taken);
    let written = TRANSCRIPT.len().saturating_sub(taken.0.rest.len());
    (
        result,
        if taken.0.is_right {
            written
        } else {
            usize::MAX
        },
    )
}

/// Whether a script that is read so is run whole.
fn is_run(alloc: Global, given: Dripping<'_>) -> bool {
    let (result, written) = read(alloc, &mut AnyReader(given));
    result.is_ok() && written == TRANSCRIPT.len()
}

/// Whether a script that is read so fails at this turn, and no line of it is run.
fn fails_to_read(alloc: Global, given: Dripping<'_>, turns: u64) -> bool {
    let mut given = AnyReader(given);
    let (result, written) = read(alloc, &mut given);
    matches!(result, Err(ScriptFault::Read(_))) && written == 0 && given.0.turns == turns
}

/// Whether a script that is read so is left after 2,097,152 turns, and no line of it is run.
fn has_no_end(alloc: Global, given: Dripping<'_>) -> bool {
    let mut given = AnyReader(given);
    let (result, written) = read(alloc, &mut given);
    matches!(result, Err(ScriptFault::NoEnd)) && written == 0 && given.0.turns == 2097152
}

/// Runs the script on the writer.
fn write(alloc: Global, text: &str, taken: &mut AnyWriter<Narrow<'_>>) -> Result<(), ScriptFault> {
    run_script(alloc, &mut AnyReader(text.as_bytes()), taken)
}

#[test]
fn a_read_that_fails_ends_the_script(rt: HostRuntime) {
    for (text, _) in &SCRIPTS {
        // The end of the text is a read too.
        for good in 0..=text.len() as u64 {
            assert!(rt; fails_to_read(rt.alloc(), reader(text, 0, good), good.saturating_add(1)));
        }
    }
    assert!(rt; is_run(rt.alloc(), reader(FIRST, 0, FIRST.len() as u64 + 1)));
}

#[test]
fn an_interrupted_read_is_made_again(rt: HostRuntime) {
    let mut hindered = reader(FIRST, 3, 1000);
    hindered.is_hindered = true;
    assert!(rt; is_run(rt.alloc(), hindered));
}

#[test]
fn a_reader_is_left_after_2097152_turns(rt: HostRuntime) {
    // The script takes a turn for each byte and one for its end.
    let turns = FIRST.len() as u64 + 1;
    assert!(rt; is_run(rt.alloc(), reader(FIRST, 2097152 - turns, 1000)));
    assert!(rt; has_no_end(rt.alloc(), reader(FIRST, 2097153 - turns, 1000)));
    assert!(rt; has_no_end(rt.alloc(), reader(FIRST, u64::MAX, 1000)));
}

/// Whether the script ends as a write fault, and what was written is as much of its transcript as
/// there was room for.
fn is_cut(alloc: Global, text: &str, transcript: &str, room: usize) -> bool {
    let mut taken = AnyWriter(writer(transcript, 2, room));
    let result = write(alloc, text, &mut taken);
    matches!(result, Err(ScriptFault::Write))
        && taken.0.is_right
        && taken.0.rest.len() == transcript.len().saturating_sub(room)
}

/// Whether the script is cut wherever the writer's room ends before the transcript's end.
fn is_cut_everywhere(alloc: Global, text: &str, transcript: &str) -> bool {
    for room in 0..transcript.len() {
        if !is_cut(alloc, text, transcript, room) {
            return false;
        }
    }
    !is_cut(alloc, text, transcript, transcript.len())
}

#[test]
fn a_write_that_fails_ends_the_script(rt: HostRuntime) {
    for (text, transcript) in &SCRIPTS {
        assert!(rt;
            is_cut_everywhere(rt.alloc(), text, transcript),
            "{transcript}"
        );
    }
}

/// Whether a script is written whole though its first write is interrupted so often.
fn is_written(alloc: Global, interruptions: u64) -> bool {
    let mut hindered = writer(TRANSCRIPT, 2, 1000);
    hindered.interruptions = interruptions;
    let mut taken = AnyWriter(hindered);
    let result = write(alloc, FIRST, &mut taken);
    result.is_ok() && taken.0.is_right && taken.0.rest.is_empty()
}

#[test]
fn an_interrupted_write_is_made_again(rt: HostRuntime) {
    assert!(rt; is_written(rt.alloc(), 1));
    assert!(rt; is_written(rt.alloc(), 2097152));
    assert!(rt; !is_written(rt.alloc(), 2097153));
}

fn is_unknown_word(run: &Result<(), ScriptFault>, number: u64) -> bool {
    match run {
        Err(ScriptFault::Syntax { line, what }) => {
            *line == number && *what == SyntaxFault::UnknownWord
        }
        _ => false,
    }
}

#[test]
fn each_line_is_written_before_the_next_is_run(rt: HostRuntime) {
    let text = "scan 0 0 1\nwhat\n";
    // The second line is never judged, since the first can't be written.
    let mut closed = AnyWriter(writer("", 1000, 0));
    assert!(rt;
        matches!(
            write(rt.alloc(), text, &mut closed),
            Err(ScriptFault::Write)
        )
    );
    let transcript = "refused Down\nfault line 2: unknown word\n";
    let mut taken = AnyWriter(writer(transcript, 1000, 1000));
    let result = write(rt.alloc(), text, &mut taken);
    assert!(rt; is_unknown_word(&result, 2));
    assert!(rt; taken.0.is_right && taken.0.rest.is_empty() && taken.0.writes == 2);
}

#[test]
fn a_reader_and_a_writer_that_never_fail_are_used_to_their_ends(rt: HostRuntime) {
    let mut text = FIRST.as_bytes();
    assert!(rt; run_script(rt.alloc(), &mut text, &mut io::sink()).is_ok());
    assert!(rt; text.is_empty());
}
