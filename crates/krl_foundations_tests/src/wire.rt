//! A message as bytes whose memory is refused: a refused call is made again, twice at most, so
//! that each run ends alike, whichever request for memory is refused, or two in a row. And the
//! sentences of faults. The bytes of each message, each fault, and strings are tried over the
//! library: see hosts/conformance, and the strings of hosts/drive.
use crate::again::CALLS;
use krl_messages::ToServer;
use krl_wire::{Fault, ReadError, has_counts, spell_to_server, to_server_of};
use std::alloc::{AllocError, Global};
use std::test::Fail;

/// The report of client 3 in its incarnation 2 and epoch 1: a range part and a key part.
static REPORT: [u8; 60] = [
    1, 2, 3, 0, 0, 0, 0, 0, 0, 0, 2, 0, 0, 0, 0, 0, 0, 0, 1, 0, 0, 0, 0, 0, 0, 0, 1, 0, 0, 0, 0, 0,
    0, 0, 0, 0, 0, 0, 11, 0, 0, 0, 0, 0, 0, 0, 1, 1, 0, 0, 0, 10, 0, 0, 0, 0, 0, 0, 0, 1,
];

// The message of these bytes, which are read again if memory was refused.
fn read(alloc: Global, bytes: &[u8]) -> Result<ToServer, ReadError> {
    for _ in 1..CALLS {
        match to_server_of(alloc, bytes) {
            Err(ReadError::OutOfMemory) => {}
            read => return read,
        }
    }
    to_server_of(alloc, bytes)
}

// The message's bytes, which are asked for again if memory was refused; none if it has none.
fn written(alloc: Global, message: &ToServer) -> Result<Vec<u8>, AllocError> {
    if !has_counts(message) {
        return Ok(Vec::new(alloc));
    }
    for _ in 1..CALLS {
        if let Ok(bytes) = spell_to_server(alloc, message) {
            return Ok(bytes);
        }
    }
    spell_to_server(alloc, message)
}

#[test]
fn a_report_is_read_and_written_again(rt: HostRuntime) -> Result<(), Fail> {
    let message = read(rt.alloc(), &REPORT)?;
    let bytes = written(rt.alloc(), &message)?;
    assert!(rt; bytes.as_slice() == REPORT.as_slice());
    Ok(())
}

static SENTENCES: [(ReadError, &str); 3] = [
    (
        ReadError::Fault(Fault::Order),
        "holdings ascend, and no point lies in two of them",
    ),
    (ReadError::Fault(Fault::Kind), "no message has this kind"),
    (ReadError::OutOfMemory, "out of memory"),
];

// Whether the error is printed so, again if memory was refused.
fn is_printed(alloc: Global, error: &ReadError, sentence: &str) -> bool {
    for _ in 0..CALLS {
        if let Ok(text) = error.to_string(alloc) {
            return text.as_str() == sentence;
        }
    }
    false
}

#[test]
fn a_fault_is_printed(rt: HostRuntime) {
    for (error, sentence) in &SENTENCES {
        assert!(rt; is_printed(rt.alloc(), error, sentence), "{sentence}");
    }
}
