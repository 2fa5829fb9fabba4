//! Entries in key order.
ghost use Rattle.std.specs.Prelude.{◌≡◌, ◌≤◌, ◌<◌, length, MatchOption, IfOk, OnOk, OnErr, []};
ghost use Rattle.krl_blocks.specs.Laid.{flat};
ghost use Rattle.krl_blocks.specs.Runs.{runs_of};
ghost use Rattle.krl_blocks.specs.Entries.{KeysRise, NoKey, HasEntry, IsFound, IsRun, IsInserted};
ghost use Rattle.krl_blocks.specs.Entries.{IsRemoved, IsChanged};

use crate::entries::Entries;
use crate::finger::Finger;
use crate::found::Found;
use crate::layout::Layout;
use std::alloc::{AllocError, Global};
use std::marker::Model;

/// Entries with keys that rise, seen as their list and as how many there may be with no more
/// memory. They lie in blocks of at most 64, so that a change moves few of them, and so that a walk
/// reads what lies side by side. Neighbours that have 32 entries together, or fewer, are merged.
#[derive(Drop)]
pub struct Blocks<V> {
    layout: Layout<V>,
    len: usize,
    room: usize,
}

impl<V> Model for Blocks<V> {
    ghost use Rattle.krl_blocks.specs.Entries.{Entries};
    ghost use Rattle.krl_blocks.specs.Laid.{flat, IsHeld};

    ghost Value = { Entries V };

    ghost view = { λ b. record { list = flat b.layout.shelf.blocks; room = b.room } };

    ghost invariant = { λ b. IsHeld b.layout.tops b.layout.shelf b.len b.room };
}

impl<V: Copy + Drop> Blocks<V> {
    /// No entries, and room for none.
    pub fn new(alloc: Global) -> Blocks<V>
        ensures { result ≡ record { list = []; room = 0 } }
    {
        Blocks {
            layout: Layout::new(alloc),
            len: 0,
            room: 0,
        }
    }

    /// These entries, whose keys rise, with room for at least so many.
    ///
    /// # Errors
    ///
    /// `AllocError` if memory is refused.
    pub fn from_sorted(
        alloc: Global,
        entries: &[(u64, V)],
        room: usize,
    ) -> Result<Blocks<V>, AllocError>
        requires rises { KeysRise entries.now }
        requires fits { length entries.now ≤ room }
        ensures { IfOk result (λ b. (b.list ≡ entries.now) × (room ≤ b.room)) }
    {
        let mut blocks = Blocks::new(alloc);
        blocks.reserve(room)?;
        for (key, value) in entries {
            blocks.insert(*key, *value);
        }
        Ok(blocks)
    }

    /// Makes room for at least so many entries, those that are there among them, by at most four
    /// requests for memory. No other call takes memory.
    ///
    /// # Errors
    ///
    /// `AllocError` if memory is refused. Nothing has changed then.
    pub fn reserve(&mut self, entries: usize) -> Result<(), AllocError>
        ensures list { self.new.list ≡ self.old.list }
        ensures room { OnOk result (entries ≤ self.new.room) }
        ensures kept { self.old.room ≤ self.new.room }
        ensures refused { OnErr result (self.new ≡ self.old) }
    {
        self.layout.reserve(entries / 16 + 2)?;
        if self.room < entries {
            self.room = entries;
        }
        Ok(())
    }

    /// How many entries there are.
    pub fn len(&self) -> usize
        ensures { result ≡ length self.now.list }
    {
        self.len
    }

    /// All entries in key order, as runs that lie side by side.
    pub fn entries(&self) -> Entries<'_, V>
        ensures { flat (runs_of result) ≡ self.now.list }
    {
        Entries {
            shelf: Some(&self.layout.shelf),
        }
    }

    /// Where a point stands: the last key below it, and the entries from it on. One search finds
    /// both.
    pub fn find(&self, point: u64) -> Found<'_, V>
        ensures found { IsFound self.now.list point result.before result.run.now }
        ensures rises { KeysRise self.now.list }
    {
        self.layout.find(point)
    }

    /// Like `find`, by a search that begins at the finger, and moves it to where the point stands.
    /// So a walk that takes a finger along needs no search for the point after one that it has
    /// found.
    pub fn find_by(&self, point: u64, finger: &mut Finger) -> Found<'_, V>
        ensures found { IsFound self.now.list point result.before result.run.now }
        ensures rises { KeysRise self.now.list }
    {
        self.layout.find_by(point, finger)
    }

    /// The entries from the first at or above the point, as far as its block goes: there is at
    /// least one, if there is any. A walk asks again after the last of them.
    pub fn run(&self, point: u64) -> &[(u64, V)]
        ensures { IsRun self.now.list point result.now }
    {
        self.find(point).run
    }

    /// The value of the key.
    pub fn get(&self, key: u64) -> Option<V>
        ensures { MatchOption result (NoKey key self.now.list) (λ v. HasEntry self.now.list key v) }
    {
        self.find(key).value_of(key)
    }

    /// Like `get`, by a search that begins at the finger, and moves it to where the key stands.
    pub fn get_by(&self, key: u64, finger: &mut Finger) -> Option<V>
        ensures { MatchOption result (NoKey key self.now.list) (λ v. HasEntry self.now.list key v) }
    {
        self.find_by(key, finger).value_of(key)
    }

    /// Like `get`; and later searches begin where the key stands. So what is done next at the key,
    /// or at the one after it, needs no search.
    pub fn reach(&mut self, key: u64) -> Option<V>
        ensures value { MatchOption result (NoKey key self.old.list)
            (λ v. HasEntry self.old.list key v) }
        ensures same { self.new ≡ self.old }
    {
        let mut finger = self.layout.finger;
        let value = self.get_by(key, &mut finger);
        self.layout.finger = finger;
        value
    }

    /// Puts in an entry of a key that no entry has. It takes no memory: there is room.
    pub fn insert(&mut self, key: u64, value: V)
        requires new { NoKey key self.old.list }
        requires room { length self.old.list < self.old.room }
        ensures inserted { IsInserted self.old.list self.new.list key value }
        ensures room { self.new.room ≡ self.old.room }
    {
        self.layout.insert(key, value);
        self.len += 1;
    }

    /// Gives the entry of the key another value, and answers the one before; None if no entry
    /// has the key, and then nothing changes.
    pub fn set(&mut self, key: u64, value: V) -> Option<V>
        ensures changed { MatchOption result (NoKey key self.old.list × (self.new ≡ self.old))
            (λ was. IsChanged self.old.list self.new.list key value was) }
        ensures room { self.new.room ≡ self.old.room }
    {
        self.layout.set(key, value)
    }

    /// Takes out the entry of the key, and answers its value; None if no entry has the key, and
    /// then nothing changes. It takes no memory, and gives none back.
    pub fn remove(&mut self, key: u64) -> Option<V>
        ensures removed { MatchOption result (NoKey key self.old.list × (self.new ≡ self.old))
            (λ v. IsRemoved self.old.list self.new.list key v) }
        ensures room { self.new.room ≡ self.old.room }
    {
        let value = self.layout.remove(key)?;
        self.len -= 1;
        Some(value)
    }
}
