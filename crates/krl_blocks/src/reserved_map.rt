//! An ordered map that takes all its memory at the start.
ghost use Rattle.std.specs.Prelude.{◌≡◌, ◌≤◌, ◌<◌, ◌+◌, ℕ, Some, None, IfOk, OnSome, IfNone};
ghost use Rattle.std.specs.Prelude.{MatchOption, length, option_copied};
ghost use Rattle.std.specs.FinMap as map;
ghost use Rattle.slab.specs.Slab.{Updates, ContainsKey, slab_len, get};
ghost use Rattle.krl_blocks.specs.ReservedMaps.{IsNextKey};

use crate::blocks::Blocks;
use crate::finger::Finger;
use slab::Slab;
use std::alloc::{AllocError, Global};
use std::marker::Model;

/// Values by key, in key order, seen as a finite map and as how many there may be. All memory is
/// taken at the start. The values lie where they were put first: a change of the order moves only
/// keys.
#[derive(Drop)]
pub struct ReservedMap<V> {
    places: Blocks<usize>,
    values: Slab<V>,
    room: usize,
}

impl<V> Model for ReservedMap<V> {
    ghost use Rattle.krl_blocks.specs.ReservedMaps.{MapWithRoom, map_with_room_code, kept};
    ghost use Rattle.krl_blocks.specs.ReservedMaps.{IsReservedMap};

    ghost Value = { MapWithRoom V };

    ghost coded = { map_with_room_code V.code };

    ghost view = { λ s. record { map = kept s.values s.places.list; room = s.room } };

    ghost invariant = { λ s. IsReservedMap s.values s.places s.room };
}

/// Gives the place another value, and answers the one before.
fn exchange<V: Drop>(values: &mut Slab<V>, place: usize, value: V) -> V
    requires { ContainsKey values.old place }
    ensures before { get values.old place ≡ Some result }
    ensures updates { Updates values.old values.new place (Some value) }
    ensures len { slab_len values.new ≡ slab_len values.old }
    ensures capacity { values.new.capacity ≡ values.old.capacity }
{
    // The place that was left last is taken first.
    let before = values.remove(place);
    let _place = values.insert_reserved(value);
    before
}

impl<V: Drop> ReservedMap<V> {
    /// No values, and room for at least so many. It makes at most five requests for memory, and no
    /// other call makes any.
    ///
    /// # Errors
    ///
    /// `AllocError` if memory is refused.
    pub fn with_room(alloc: Global, room: usize) -> Result<ReservedMap<V>, AllocError>
        ensures { IfOk result (λ s. s ≡ record { map = map.empty; room = room }) }
    {
        let mut places = Blocks::new(alloc);
        places.reserve(room)?;
        let values = Slab::with_capacity(alloc, room)?;
        Ok(ReservedMap {
            places,
            values,
            room,
        })
    }

    /// The value of the key.
    pub fn get(&self, key: u64) -> Option<&V>
        ensures { option_copied result ≡ map.get self.now.map key }
    {
        let place = self.places.get(key)?;
        self.values.get(place)
    }

    /// Like `get`, by a search that begins at the finger, and moves it to where the key stands.
    pub fn get_by(&self, key: u64, finger: &mut Finger) -> Option<&V>
        ensures { option_copied result ≡ map.get self.now.map key }
    {
        let place = self.places.get_by(key, finger)?;
        self.values.get(place)
    }

    /// The least key at or above this one.
    pub fn next(&self, from: u64) -> Option<u64>
        ensures { MatchOption result ((n : ℕ) → from ≤ n → map.get self.now.map n ≡ None)
            (λ key. IsNextKey self.now.map from key) }
    {
        match self.places.run(from).first() {
            Some(entry) => Some(entry.0),
            None => None,
        }
    }

    /// The key has this value from now on. There is room for it, or it had a value.
    pub fn put(&mut self, key: u64, value: V)
        requires { map.get self.old.map key ≡ None
            → length (map.entries self.old.map) < self.old.room }
        ensures { self.new ≡ record self.old { map = map.insert self.old.map key value } }
    {
        match self.places.reach(key) {
            Some(place) => {
                exchange(&mut self.values, place, value);
            }
            None => {
                let place = self.values.insert_reserved(value);
                self.places.insert(key, place);
            }
        }
    }

    /// Gives the key another value, and answers the one before; None if it had none, and then
    /// nothing changes.
    pub fn replace(&mut self, key: u64, value: V) -> Option<V>
        ensures before { result ≡ map.get self.old.map key }
        ensures replaced { OnSome result
            (self.new ≡ record self.old { map = map.insert self.old.map key value }) }
        ensures none { IfNone result (self.new ≡ self.old) }
    {
        let place = self.places.reach(key)?;
        Some(exchange(&mut self.values, place, value))
    }

    /// The key has no value any more; it answers the one that it had.
    pub fn remove(&mut self, key: u64) -> Option<V>
        ensures before { result ≡ map.get self.old.map key }
        ensures removed { self.new ≡ record self.old { map = map.remove self.old.map key } }
    {
        let place = self.places.remove(key)?;
        Some(self.values.remove(place))
    }
}
