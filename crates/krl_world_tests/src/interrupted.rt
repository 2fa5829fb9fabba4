//! Scripts on a reader and writers that state their bytes, or how often they are interrupted.
ghost use Rattle.std.specs.Prelude.{None, Some, length};
ghost use Rattle.std.specs.Io.{ReadsAtMost, WritesAtMost};
ghost use Rattle.std.specs.Io.KnownBytes.{ReadConsumes};
ghost use Rattle.krl_text.specs.Transfers.{ReadsOn, WritesOn};

use krl_script::{ScriptFault, Sink, Source, run_script};
use std::alloc::Global;
use std::io;
use std::io::{ErrorKind, Read, Write};

static SCRIPT: &str =
    "seed 10=x0A 20=2\nclient 0\nsettle\nlock 0 5 RangeS-S\nsettle\nscan 0 0 11\nwhat\n";

static TRANSCRIPT: &str = "rows 10=x0a\nfault line 7: unknown word\n";

/// Gives up to three bytes a read, and states which are left. It is interrupted a few times first,
/// and fails in no other way.
#[derive(Drop)]
struct Dripping<'a> {
    text: &'a [u8],
    interruptions: u64,
}

impl Dripping<'_> {
    fn drip(&mut self, buf: &mut [u8]) -> io::Result<usize>
        ensures bound { ReadsAtMost result buf.new }
        ensures bytes { ReadConsumes (Some self.old.text.now) (Some self.new.text.now)
            result buf.new }
        ensures steady { ReadsOn (Some self.old.interruptions) (Some self.new.interruptions)
            result }
    {
        if self.interruptions > 0 {
            self.interruptions -= 1;
            return Err(io::Error::from(ErrorKind::Interrupted));
        }
        let count = buf.len().min(self.text.len()).min(3);
        let (given, rest) = self.text.split_at(count);
        buf[..count].copy_from_slice(given);
        self.text = rest;
        Ok(count)
    }
}

impl Read for Dripping<'_> {
    ghost remaining = { λ r. Some r.text.now };

    fn read(&mut self, buf: &mut [u8]) -> io::Result<usize> {
        self.drip(buf)
    }
}

impl Source for Dripping<'_> {
    ghost interruptions = { λ r. Some r.interruptions };

    ghost reads = { λ _. None };

    fn read_some(&mut self, buf: &mut [u8]) -> io::Result<usize> {
        self.drip(buf)
    }
}

/// Takes one byte a write, and sees whether it is what is to come. It is interrupted a few times
/// first, and fails in no other way.
#[derive(Drop)]
struct Matching<'a> {
    rest: &'a [u8],
    is_right: bool,
    interruptions: u64,
}

impl Matching<'_> {
    fn take(&mut self, buf: &[u8]) -> io::Result<usize>
        ensures bound { WritesAtMost result buf.now }
        ensures steady { WritesOn (Some self.old.interruptions) (Some self.new.interruptions)
            (length buf.now) result }
    {
        if self.interruptions > 0 {
            self.interruptions -= 1;
            return Err(io::Error::from(ErrorKind::Interrupted));
        }
        let count = buf.len().min(1);
        match self.rest.strip_prefix(&buf[..count]) {
            Some(rest) => self.rest = rest,
            None => self.is_right = false,
        }
        Ok(count)
    }
}

impl Write for Matching<'_> {
    fn write(&mut self, buf: &[u8]) -> io::Result<usize> {
        self.take(buf)
    }

    fn flush(&mut self) -> io::Result<()> {
        Ok(())
    }
}

impl Sink for Matching<'_> {
    ghost interruptions = { λ w. Some w.interruptions };

    fn write_some(&mut self, buf: &[u8]) -> io::Result<usize> {
        self.take(buf)
    }
}

/// Keeps what is written, and states it. It is interrupted a few times first, and may lack memory.
#[derive(Drop)]
struct Keeping {
    bytes: Vec<u8>,
    interruptions: u64,
}

impl Write for Keeping {
    ghost contents = { λ w. Some w.bytes.items };

    fn write(&mut self, buf: &[u8]) -> io::Result<usize> {
        if self.interruptions > 0 {
            self.interruptions -= 1;
            return Err(io::Error::from(ErrorKind::Interrupted));
        }
        self.bytes.write(buf)
    }

    fn flush(&mut self) -> io::Result<()> {
        Ok(())
    }
}

impl Sink for Keeping {
    ghost interruptions = { λ _. None };

    fn write_some(&mut self, buf: &[u8]) -> io::Result<usize> {
        self.write(buf)
    }
}

/// Whether the run ended at the line that is no word.
fn is_at_its_fault(run: &Result<(), ScriptFault>) -> bool {
    matches!(run, Err(ScriptFault::Syntax { line, .. }) if *line == 7)
}

/// Whether the script is read and written whole by these, interrupted so often.
fn is_matched(alloc: Global, reads: u64, writes: u64) -> bool {
    let mut reader = Dripping {
        text: SCRIPT.as_bytes(),
        interruptions: reads,
    };
    let mut writer = Matching {
        rest: TRANSCRIPT.as_bytes(),
        is_right: true,
        interruptions: writes,
    };
    let run = run_script(alloc, &mut reader, &mut writer);
    is_at_its_fault(&run) && reader.text.is_empty() && writer.is_right && writer.rest.is_empty()
}

/// Whether the script is read and kept whole by these, interrupted so often.
fn is_kept(alloc: Global, reads: u64, writes: u64) -> bool {
    let mut reader = Dripping {
        text: SCRIPT.as_bytes(),
        interruptions: reads,
    };
    let mut writer = Keeping {
        bytes: Vec::new(alloc),
        interruptions: writes,
    };
    let run = run_script(alloc, &mut reader, &mut writer);
    is_at_its_fault(&run)
        && reader.text.is_empty()
        && writer.bytes.as_slice() == TRANSCRIPT.as_bytes()
}

#[test]
fn interruptions_leave_a_script_whole(rt: HostRuntime) {
    for (reads, writes) in [(0, 0), (1, 0), (0, 1), (7, 1000), (1048575, 2097152)] {
        assert!(rt;
            is_matched(rt.alloc(), reads, writes),
            "{reads} and {writes}"
        );
        assert!(rt; is_kept(rt.alloc(), reads, writes), "{reads} and {writes}");
    }
}
