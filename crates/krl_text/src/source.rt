//! Readers and writers that may promise not to fail.
ghost use Rattle.std.specs.Prelude.{ℕ, length, Option, None, Some};
ghost use Rattle.std.specs.Io.{ReadsAtMost, WritesAtMost};
ghost use Rattle.std.specs.Io.KnownBytes.{Keeps, ReadConsumes, WriteAppends};
ghost use Rattle.krl_text.specs.Transfers.{Counts, ReadsOn, WritesOn};

use std::io;
use std::io::{Read, Write};

/// A reader, and how its reads may fail.
pub trait Source: Read {
    // How many reads from here on may be interrupted, if no read fails in another way.
    ghost interruptions: { Self → Option ℕ };

    // How many reads were made, if the reader states it.
    ghost reads: { Self → Option ℕ };

    /// Reads as `read` does.
    fn read_some(&mut self, buf: &mut [u8]) -> io::Result<usize>
        ensures bound { ReadsAtMost result buf.new }
        ensures bytes { ReadConsumes (Self.remaining self.old) (Self.remaining self.new)
            result buf.new }
        ensures steady { ReadsOn (interruptions self.old) (interruptions self.new) result }
        ensures counted { Counts (reads self.old) (reads self.new) 1 };
}

/// A writer, and how its writes may fail.
///
/// An instance states how many interruptions are to come, or states no number. If it states one,
/// each write does one of two things. It takes at least one byte, if it is given one, and as many
/// interruptions are still to come. Or it is interrupted: then at least one was to come, and one
/// fewer is to come now. An instance that states no number promises none of this.
pub trait Sink: Write {
    // How many writes from here on may be interrupted, if no write fails in another way.
    ghost interruptions: { Self → Option ℕ };

    /// Writes as `write` does.
    fn write_some(&mut self, buf: &[u8]) -> io::Result<usize>
        ensures bound { WritesAtMost result buf.now }
        ensures bytes { WriteAppends (Self.contents self.old) (Self.contents self.new)
            result buf.now }
        ensures steady { WritesOn (interruptions self.old) (interruptions self.new)
            (length buf.now) result };
}

impl Source for &[u8] {
    ghost interruptions = { λ _. Some 0 };

    ghost reads = { λ _. None };

    fn read_some(&mut self, buf: &mut [u8]) -> io::Result<usize> {
        self.read(buf)
    }
}

impl Sink for io::Sink {
    ghost interruptions = { λ _. Some 0 };

    fn write_some(&mut self, buf: &[u8]) -> io::Result<usize> {
        self.write(buf)
    }
}

/// Any reader. It may fail.
#[derive(Drop)]
pub struct AnyReader<R>(pub R);

impl<R: Read> Read for AnyReader<R> {
    ghost remaining = { λ r. R.remaining r.0 };

    fn read(&mut self, buf: &mut [u8]) -> io::Result<usize> {
        self.0.read(buf)
    }
}

impl<R: Read> Source for AnyReader<R> {
    ghost interruptions = { λ _. None };

    ghost reads = { λ _. None };

    fn read_some(&mut self, buf: &mut [u8]) -> io::Result<usize> {
        self.read(buf)
    }
}

/// Any writer. It may fail.
#[derive(Drop)]
pub struct AnyWriter<W>(pub W);

impl<W: Write> Write for AnyWriter<W> {
    ghost contents = { λ w. W.contents w.0 };

    fn write(&mut self, buf: &[u8]) -> io::Result<usize> {
        self.0.write(buf)
    }

    fn flush(&mut self) -> io::Result<()> {
        self.0.flush()
    }
}

impl<W: Write> Sink for AnyWriter<W> {
    ghost interruptions = { λ _. None };

    fn write_some(&mut self, buf: &[u8]) -> io::Result<usize> {
        self.write(buf)
    }
}
