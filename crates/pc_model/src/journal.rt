//! The journal: the list of all events so far. Contracts see its events, the newest first, and the
//! room for more.
ghost use Rattle.std.specs.Prelude.{◌≡◌, ℕ, ◌+◌, ◌<◌, ◌≤◌, ◌-◌, List, [], ◌∷◌, IfOk, IsOk, OnErr, OnOk, length, reverse, option_copied, slice_get};
ghost use Rattle.pc_model.specs.History.{History};

use crate::event::Event;
use std::alloc::{AllocError, Global};
use std::marker::Model;

/// A list of events that only grows.
#[derive(Debug, Drop)]
pub struct Journal {
    events: Vec<Event>,
}

impl Model for Journal {
    ghost use Rattle.std.specs.Prelude.{◌-◌, reverse, vec_capacity, length};
    ghost use Rattle.pc_model.specs.declared.event.Event.{Event};
    ghost use Rattle.pc_model.specs.History.{History};

    ghost Value = { History };

    ghost view = { λ j. record
        { events = reverse j.events.items; room = vec_capacity j.events - length j.events.items } };
}

impl Journal {
    /// A journal without events and without room.
    pub fn new(alloc: Global) -> Journal
        ensures empty { result.events ≡ [] }
    {
        Journal {
            events: Vec::new(alloc),
        }
    }

    /// Makes room for `n` more events. Fails only where there is no such room yet and memory runs
    /// out, and then all is as before.
    pub fn reserve(&mut self, n: u64) -> Result<(), AllocError>
        ensures enough { n ≤ self.old.room → IsOk result }
        ensures room { IfOk result (λ _. n ≤ self.new.room) }
        ensures events { self.new.events ≡ self.old.events }
        ensures err { OnErr result (self.new ≡ self.old) }
    {
        self.events.reserve(n as usize)
    }

    /// Adds the next event, for which room was reserved. Takes no memory.
    pub fn push(&mut self, event: Event)
        requires { 0 < self.old.room }
        ensures events { self.new.events ≡ event ∷ self.old.events }
        ensures room { self.new.room + 1 ≡ self.old.room }
    {
        self.events.push_reserved(event);
    }

    /// How many events there are.
    pub fn len(&self) -> u64
        ensures { result ≡ length self.now.events }
    {
        self.events.len() as u64
    }

    /// The event at place `i`, counted from the oldest, which stands at 0.
    pub fn get(&self, i: u64) -> Option<&Event>
        ensures { option_copied result ≡ slice_get (reverse self.now.events) i }
    {
        self.events.get(i as usize)
    }

    /// All events, the oldest first.
    pub fn as_slice(&self) -> &[Event]
        ensures { result.now ≡ reverse self.now.events }
    {
        self.events.as_slice()
    }
}
