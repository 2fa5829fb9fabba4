//! Messages that wait to be sent.
ghost use Rattle.std.specs.Prelude.{◌≡◌, ◌≤◌, ◌++◌, [], IfOk, OnOk, length, take, drop};
ghost use Rattle.krl_embed.specs.Frames.{frame, said_frame, told_frame, said_frames, told_frames};
ghost use Rattle.krl_embed.specs.Frames.{Waits};

use crate::code::Code;
use krl_messages::{ToClient, ToServer};
use krl_wire::{has_counts, spell_to_client, spell_to_server};
use std::alloc::{AllocError, Global};
use std::marker::Model;

// A room for the frames of one or two messages, which most calls send.
const ROOM: usize = 192;

/// Frames, in the order in which they are sent: for each message its length, in eight bytes, the
/// lowest first, and then the message.
#[derive(Drop)]
pub struct Frames {
    bytes: Vec<u8>,
}

impl Model for Frames {
    ghost use Rattle.std.specs.Prelude.{ℕ, List};

    ghost Value = { List ℕ };

    ghost view = { λ f. f.bytes.items };
}

// The frame of these bytes.
fn put_frame(out: &mut Vec<u8>, bytes: &[u8]) -> Result<(), AllocError>
    ensures { OnOk result (out.new.items ≡ out.old.items ++ frame bytes.now) }
{
    let length = bytes.len() as u64;
    out.extend_from_slice(&length.to_le_bytes())?;
    out.extend_from_slice(bytes)
}

// The frame of this message. A report of 2^32 pieces has no spelling.
fn put_said(alloc: Global, out: &mut Vec<u8>, message: &ToServer) -> Result<(), AllocError>
    ensures { OnOk result (out.new.items ≡ out.old.items ++ said_frame message.now) }
{
    if !has_counts(message) {
        return Err(AllocError);
    }
    let bytes = spell_to_server(alloc, message)?;
    put_frame(out, &bytes)
}

fn put_told(alloc: Global, out: &mut Vec<u8>, message: &ToClient) -> Result<(), AllocError>
    ensures { OnOk result (out.new.items ≡ out.old.items ++ told_frame message.now) }
{
    let bytes = spell_to_client(alloc, message)?;
    put_frame(out, &bytes)
}

fn frames_said(alloc: Global, messages: &[ToServer]) -> Result<Vec<u8>, AllocError>
    ensures { IfOk result (λ frames. frames.items ≡ said_frames messages.now) }
{
    let mut out = Vec::with_capacity(alloc, ROOM)?;
    for message in messages {
        put_said(alloc, &mut out, message)?;
    }
    Ok(out)
}

fn frames_told(alloc: Global, messages: &[ToClient]) -> Result<Vec<u8>, AllocError>
    ensures { IfOk result (λ frames. frames.items ≡ told_frames messages.now) }
{
    let mut out = Vec::with_capacity(alloc, ROOM)?;
    for message in messages {
        put_told(alloc, &mut out, message)?;
    }
    Ok(out)
}

impl Frames {
    /// Nothing waits. It takes no memory.
    pub(crate) fn empty(alloc: Global) -> Frames
        ensures { result ≡ [] }
    {
        Frames {
            bytes: Vec::new(alloc),
        }
    }

    // These frames wait after all others.
    fn append(&mut self, frames: &[u8]) -> Code
        ensures { Waits frames.now self.old self.new result }
    {
        match self.bytes.extend_from_slice(frames) {
            Ok(()) => Code::Done,
            Err(_) => Code::Unsaid,
        }
    }

    /// What a client sends waits after all others: Done; otherwise nothing more waits: Unsaid.
    pub(crate) fn say(&mut self, alloc: Global, messages: &[ToServer]) -> Code
        ensures { Waits (said_frames messages.now) self.old self.new result }
    {
        match frames_said(alloc, messages) {
            Ok(frames) => self.append(&frames),
            Err(_) => Code::Unsaid,
        }
    }

    /// What a server sends waits after all others: Done; otherwise nothing more waits: Unsaid.
    pub(crate) fn tell(&mut self, alloc: Global, messages: &[ToClient]) -> Code
        ensures { Waits (told_frames messages.now) self.old self.new result }
    {
        match frames_told(alloc, messages) {
            Ok(frames) => self.append(&frames),
            Err(_) => Code::Unsaid,
        }
    }

    /// How many bytes wait.
    pub(crate) fn len(&self) -> usize
        ensures { result ≡ length self.now }
    {
        self.bytes.len()
    }

    /// The first so many bytes go into `bytes`, and no longer wait.
    pub(crate) fn give(&mut self, count: usize, bytes: &mut [u8])
        requires waiting { count ≤ length self.old }
        requires room { count ≤ length bytes.old }
        ensures waiting { self.new ≡ drop count self.old }
        ensures given { bytes.new ≡ take count self.old ++ drop count bytes.old }
    {
        bytes[..count].copy_from_slice(&self.bytes[..count]);
        self.bytes.drain(..count);
    }
}
