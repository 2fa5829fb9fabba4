//! What a host has to keep before it sends.
ghost use Rattle.std.specs.Prelude.{◌≡◌, ◌≤◌, ◌-◌, IfOk, OnOk, OnErr, map};
ghost use Rattle.krl_embed.specs.Notes as notes;

use crate::code::Code;
use crate::reply::Reply;
use std::alloc::{AllocError, Global};
use std::marker::Model;

/// For each note that is not confirmed, the oldest first: how many of the bytes that wait to be sent
/// do not rest on it.
#[derive(Drop)]
pub struct Marks {
    places: Vec<usize>,
}

impl Model for Marks {
    ghost use Rattle.std.specs.Prelude.{ℕ, List};

    ghost Value = { List ℕ };

    ghost view = { λ m. m.places.items };
}

/// The notes that a handle has reported to its host since it was opened: the host keeps each of
/// them on its disk before it sends what rests on it. The first is the opening: a server's epoch, or
/// a client's incarnation. Each change of a server is one more.
#[derive(Drop)]
pub struct Notes {
    /// The first so many are on the host's disk, by its word.
    confirmed: u64,
    marks: Marks,
}

// Each mark is lower by this number, and none is below 0.
fn lower(marks: &mut [usize], by: usize)
    ensures { marks.new ≡ map (λ mark. mark - by) marks.old }
{
    for i in 0..marks.len() {
        marks[i] = marks[i].saturating_sub(by);
    }
}

impl Notes {
    /// The opening is reported, and not confirmed.
    pub(crate) fn opening(alloc: Global) -> Result<Notes, AllocError>
        ensures { IfOk result (λ n. n ≡ notes.opening) }
    {
        let mut places = Vec::new(alloc);
        places.push(0)?;
        Ok(Notes {
            confirmed: 0,
            marks: Marks { places },
        })
    }

    /// One more is reported. So many bytes wait already, and do not rest on it.
    pub(crate) fn report(&mut self, waiting: usize) -> Result<(), AllocError>
        ensures reported { OnOk result (self.new ≡ notes.one_more waiting self.old) }
        ensures same { OnErr result (self.new ≡ self.old) }
    {
        self.marks.places.push(waiting)?;
        Ok(())
    }

    /// The last is not reported after all.
    pub(crate) fn withdraw(&mut self)
        ensures { self.new ≡ notes.one_less self.old }
    {
        self.marks.places.pop();
    }

    /// How many are reported: at most 2^64 - 1 are shown.
    pub(crate) fn reported(&self) -> u64
        ensures { result ≡ notes.shown self.now }
    {
        let unconfirmed = self.marks.places.len() as u64;
        self.confirmed.saturating_add(unconfirmed)
    }

    /// How many of the bytes that wait, of which there are so many, rest on confirmed notes only.
    pub(crate) fn ready(&self, waiting: usize) -> usize
        ensures ready { result ≡ notes.ready self.now.marks waiting }
        ensures bound { result ≤ waiting }
    {
        match self.marks.places.first() {
            Some(mark) => waiting.min(*mark),
            None => waiting,
        }
    }

    /// So many bytes were given out, and no longer wait.
    pub(crate) fn give(&mut self, given: usize)
        ensures { self.new ≡ notes.given given self.old }
    {
        lower(&mut self.marks.places, given);
    }

    /// The first so many are on the host's disk: Done; or NotTold, if so many were not reported. The
    /// detail is how many were.
    pub(crate) fn confirm(&mut self, count: u64) -> Reply
        ensures { notes.Confirms count self.old self.new result }
    {
        let reported = self.reported();
        let more = count.saturating_sub(self.confirmed);
        if more > self.marks.places.len() as u64 {
            return Reply::with(Code::NotTold, reported);
        }
        self.marks.places.drain(..more as usize);
        self.confirmed = self.confirmed.max(count);
        Reply::with(Code::Done, reported)
    }
}
