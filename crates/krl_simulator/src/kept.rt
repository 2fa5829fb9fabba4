//! Standard output in memory.
ghost use Rattle.std.specs.Prelude.{◌≡◌, [], None, Some};

use krl_text::Sink;
use std::alloc::Global;
use std::io;
use std::io::Write;

/// Keeps what is written, as far as the room goes: then it takes nothing more.
#[derive(Drop)]
pub(crate) struct Kept {
    bytes: Vec<u8>,
    room: usize,
}

impl Kept {
    pub(crate) fn new(alloc: Global, room: usize) -> Kept
        ensures { result.bytes.items ≡ [] }
    {
        Kept {
            bytes: Vec::new(alloc),
            room,
        }
    }

    pub(crate) fn bytes(&self) -> &[u8]
        ensures { result.now ≡ self.now.bytes.items }
    {
        self.bytes.as_slice()
    }
}

impl Write for Kept {
    ghost contents = { λ w. Some w.bytes.items };

    fn write(&mut self, buf: &[u8]) -> io::Result<usize> {
        let free = self.room.saturating_sub(self.bytes.len());
        let count = buf.len().min(free);
        self.bytes.write(&buf[..count])
    }

    fn flush(&mut self) -> io::Result<()> {
        Ok(())
    }
}

impl Sink for Kept {
    ghost interruptions = { λ _. None };

    fn write_some(&mut self, buf: &[u8]) -> io::Result<usize> {
        self.write(buf)
    }
}
