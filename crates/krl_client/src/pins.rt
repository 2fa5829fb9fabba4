//! Pins.
ghost use Rattle.std.specs.Prelude.{◌≡◌, [], None, Some, MatchOption, MatchBool, is_some, ◌<◌};
ghost use Rattle.krl_modes.specs.declared.limits.TheConstants.{MAX_PINS};
ghost use Rattle.krl_client.specs.Clients as clients;
ghost use Rattle.krl_client.specs.Splits.{pin_meets};
ghost use Rattle.krl_client.specs.Fields.{pins_of};

use arrayvec::ArrayVec;
use krl_modes::{MAX_PINS, Span};
use std::marker::Model;

/// The spans that a client pins, by their ids, from 0 to 7.
#[derive(Drop)]
pub struct Pins {
    spans: ArrayVec<Option<Span>, MAX_PINS>,
}

impl Model for Pins {
    ghost use Rattle.std.specs.Prelude.{List, Option};
    ghost use Rattle.krl_modes.specs.Spans.{Bounds};

    ghost Value = { List (Option Bounds) };

    ghost view = { λ p. p.spans.items };
}

// Whether the span meets the other one, if there is one.
fn meets(span: Span, pin: Option<Span>) -> bool
    ensures { result ≡ pin_meets span pin }
{
    match pin {
        Some(pin) => span.meets(pin),
        None => false,
    }
}

impl Pins {
    /// No pins. They take no memory.
    pub fn new() -> Pins
        ensures { result ≡ [] }
    {
        Pins {
            spans: ArrayVec::new(),
        }
    }

    /// The pin of this id.
    pub fn get(&self, id: u64) -> Option<Span>
        ensures { result ≡ pins_of self.now id }
    {
        let id = id as usize;
        if id < self.spans.len() {
            self.spans[id]
        } else {
            None
        }
    }

    /// The least id that is free.
    pub fn free(&self) -> Option<u64>
        ensures { result ≡ clients.free_from (pins_of self.now) 0 MAX_PINS }
    {
        for id in 0..MAX_PINS as u64 {
            if self.get(id).is_none() {
                return Some(id);
            }
        }
        None
    }

    /// Whether the span meets a pin.
    pub fn meet(&self, span: Span) -> bool
        ensures { result ≡ clients.meets_one (pins_of self.now) MAX_PINS span }
    {
        for id in 0..MAX_PINS as u64 {
            if meets(span, self.get(id)) {
                return true;
            }
        }
        false
    }

    /// Pins a span under the least id that is free.
    pub fn pin(&mut self, id: u64, span: Span)
        requires { clients.free_from (pins_of self.old) 0 MAX_PINS ≡ Some id }
        ensures { pins_of self.new ≡ clients.with_pin (pins_of self.old) id (Some span) }
    {
        let id = id as usize;
        if id < self.spans.len() {
            self.spans[id] = Some(span);
        } else {
            self.spans.push(Some(span));
        }
    }

    /// Frees an id.
    pub fn unpin(&mut self, id: u64)
        requires { id < MAX_PINS }
        ensures { pins_of self.new ≡ clients.with_pin (pins_of self.old) id None }
    {
        let id = id as usize;
        if id < self.spans.len() {
            self.spans[id] = None;
        }
    }
}
