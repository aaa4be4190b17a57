//! The lock: a ticket lock of three words, and a slot that has the value between turns.

ghost use Rattle.std.specs.Prelude.{◌≡◌, ◌+◌, ◌^◌, ◌<◌, ◌++◌, ◌∷◌, [], ◌⊎◌, length, IfOk, IfErr};
ghost use Rattle.pc_state_lock.specs.History.{Continues, AreApart, AreBelow};

use crate::bells::Bells;
use crate::held::Held;
use crate::pass::Pass;
use crate::plays::{Both, Compare, Count, Cut, Draw, Law, Leave, Look};
use crate::shown::Shown;
use crate::view::View;
use atomic_table::{Refused, Table};
use std::alloc::Global;
use std::snapshot::Snapshot;
use std::sync::Wait;
use std::thread::yield_now;

/// The word that has the next ticket to draw.
const DRAWN: usize = 0;

/// The word that has the ticket that is served.
const SERVING: usize = 1;

/// The word that has the number of events.
const EVENTS: usize = 2;

/// The slot that has the value.
const SLOT: usize = 0;

/// A lock round a value. Turns are served in the order in which their tickets were drawn.
#[derive(Drop)]
pub struct StateLock<V: Shown> {
    table: Table<Option<V>, View<V>, Snapshot<V>, Law, Global>,
    bells: Bells,
    ghost sized: { (table.shared.table_id.words ≡ 3) × (table.shared.table_id.slots ≡ 1) },
}

impl<V: Shown> StateLock<V> {
    ghost use Rattle.pc_state_lock.specs.Views.{TakesSlot};
    ghost use Rattle.pc_state_lock.specs.declared.view.Stage.TheVariants.{Waits};
    ghost use Rattle.pc_state_lock.specs.Passes.{heading_of, seen, mine, IsPassOf, IsAtRest, HasTurn, IsAsBefore, HasDrawn};

    /// Makes a lock round the value, and its first pass. The error is out of memory, and gives the
    /// value back.
    pub fn new(alloc: Global, value: V) -> Result<(StateLock<V>, Pass<V>), V>
        ensures heading { IfOk result (λ made. heading_of V.heading made.0 ≡ V.heading value) }
        ensures pass { IfOk result (λ made. IsPassOf made.0 made.1 × IsAtRest made.1) }
        ensures seen { IfOk result (λ made. seen made.1 ≡ V.history value) }
        ensures mine { IfOk result (λ made. mine made.1 ≡ []) }
        ensures back { IfErr result (λ v. v ≡ value) }
    {
        let start = Snapshot::of(&value);
        let events = value.events();
        let Ok(bells) = Bells::silent(alloc) else {
            return Err(value);
        };
        let Ok(mut slots) = Vec::with_capacity(alloc, 1) else {
            return Err(value);
        };
        slots.push_reserved(Some(value));
        match Table::new(alloc, &[0, 0, events], slots, &start) {
            Ok((table, seat)) => Ok((StateLock { table, bells }, Pass { seat })),
            Err(Refused { slots }) => Err(only(slots)),
        }
    }

    /// Makes a pass that has seen what `pass` has seen, and has no span. It takes no memory.
    pub fn split(&self, pass: &mut Pass<V>) -> Pass<V>
        requires { IsPassOf self.now pass.old }
        ensures same { IsAsBefore pass.old pass.new }
        ensures pass { IsPassOf self.now result × IsAtRest result }
        ensures seen { seen result ≡ seen pass.old }
        ensures mine { mine result ≡ [] }
    {
        Pass {
            seat: self.table.shared.split_seat::<Cut>(&mut pass.seat),
        }
    }

    /// Ends the pass `other`: `pass` has seen what either has seen, and has the spans of both.
    pub fn join(&self, pass: &mut Pass<V>, other: Pass<V>)
        requires pass { IsPassOf self.now pass.old }
        requires other { IsPassOf self.now other × IsAtRest other }
        ensures longer { (seen pass.new ≡ seen pass.old) ⊎ (seen pass.new ≡ seen other) }
        ensures this { Continues (seen pass.new) (seen pass.old) }
        ensures that { Continues (seen pass.new) (seen other) }

        // No span is lost, and none is in both.
        ensures mine { mine pass.new ≡ mine pass.old ++ mine other }
        ensures apart { AreApart (mine pass.new) }
        ensures below { AreBelow (length (seen pass.new)) (mine pass.new) }

        // It is still a pass of this lock, with the turn if it had it.
        ensures pass { IsPassOf self.now pass.new }
        ensures rests { IsAtRest pass.old → IsAtRest pass.new }
        ensures turn { HasTurn pass.old → HasTurn pass.new }
    {
        self.table
            .shared
            .join_seat::<Both>(&mut pass.seat, other.into_seat());
        self.table.shared.load::<Compare>(&mut pass.seat, DRAWN);
    }

    /// Waits until all turns whose tickets were drawn before are over, and takes the value out. Once
    /// 2^64 - 1 tickets are drawn, it waits for good.
    pub fn turn<R: Wait>(&self, rt: &R, pass: &mut Pass<V>) -> Held<V>
        requires pass { IsPassOf self.now pass.old }
        requires rests { IsAtRest pass.old }
        ensures heading { V.heading result.value ≡ heading_of V.heading self.now }
        ensures later { Continues (V.history result.value) (seen pass.old) }
        ensures seen { seen pass.new ≡ V.history result.value }
        ensures mine { mine pass.new ≡ mine pass.old }

        // It is still a pass of this lock, and has the turn.
        ensures pass { IsPassOf self.now pass.new }
        ensures turn { HasTurn pass.new }
    {
        let ticket = self.draw(rt, pass);
        self.wait_for(rt, pass, ticket);
        let value = self
            .table
            .shared
            .exchange(&mut pass.seat, SLOT, None)
            .unwrap();
        Held { value }
    }

    /// Ends the turn: puts the value back, for the pass with the next ticket. What the value has
    /// beyond what the pass had seen are the events of this turn, which become a span of the pass.
    pub fn lay(&self, pass: &mut Pass<V>, held: Held<V>)
        requires pass { IsPassOf self.now pass.old }
        requires turn { HasTurn pass.old }
        requires heading { V.heading held.value ≡ heading_of V.heading self.now }
        requires later { Continues (V.history held.value) (seen pass.old) }
        ensures seen { seen pass.new ≡ V.history held.value }
        ensures mine { mine pass.new ≡ (length (seen pass.old), length (seen pass.new)) ∷ mine pass.old }
        ensures apart { AreApart (mine pass.new) }
        ensures below { AreBelow (length (seen pass.new)) (mine pass.new) }

        // It is still a pass of this lock, and has no turn.
        ensures pass { IsPassOf self.now pass.new }
        ensures rests { IsAtRest pass.new }
    {
        let Held { value } = held;
        let events = value.events();
        let shared = &self.table.shared;
        let before = shared.exchange(&mut pass.seat, SLOT, Some(value));
        let None = before else { unreachable!() };
        shared.store::<Count>(&mut pass.seat, EVENTS, events);
        let served = shared.fetch_add::<Leave>(&mut pass.seat, SERVING, 1);
        self.bells.ring(served);
    }

    /// Takes a last turn, as `turn` does, ends the lock and hands out the value. Passes that are left
    /// take no more turns.
    pub fn close<R: Wait>(self, rt: &R, mut pass: Pass<V>) -> V
    where
        V: Drop,
        requires pass { IsPassOf self pass }
        requires rests { IsAtRest pass }
        ensures heading { V.heading result ≡ heading_of V.heading self }
        ensures later { Continues (V.history result) (seen pass) }
    {
        let Held { value } = self.turn(rt, &mut pass);
        value
    }

    /// Draws the next ticket.
    fn draw<R: Wait>(&self, rt: &R, pass: &mut Pass<V>) -> u64
        requires pass { IsPassOf self.now pass.old }
        requires rests { IsAtRest pass.old }
        ensures { HasDrawn result pass.old pass.new }
    {
        let shared = &self.table.shared;
        for _ in rt.forever() {
            let next = shared.peek(DRAWN);
            if next == u64::MAX {
                yield_now();
            } else if shared.compare_exchange::<Draw>(&mut pass.seat, DRAWN, next, next + 1)
                == next
            {
                return next;
            }
        }
        unreachable!()
    }

    /// Waits until the ticket is served, and takes the slot.
    fn wait_for<R: Wait>(&self, rt: &R, pass: &mut Pass<V>, ticket: u64)
        requires pass { IsPassOf self.now pass.old }
        requires ticket { (pass.old.seat.me.0.stage ≡ Waits ticket) × (pass.old.seat.me.1 ≡ []) }
        ensures pass { pass.new.seat.table_id ≡ pass.old.seat.table_id }
        ensures turn { TakesSlot V.heading V.history ticket pass.old.seat.me pass.new.seat.me }
    {
        for _ in rt.forever() {
            let rings = self.bells.rings(ticket);
            let served = self.table.shared.load::<Look>(&mut pass.seat, SERVING);
            if served == ticket {
                return;
            }
            self.bells.wait(rt, ticket, served, rings);
        }
        unreachable!()
    }
}

/// The value of the one slot.
fn only<V>(mut slots: Vec<Option<V>>) -> V
    requires { (value : V) × (slots.items ≡ Some value ∷ []) }
    ensures { slots.items ≡ Some result ∷ [] }
{
    let value = slots.pop().unwrap().unwrap();
    slots.destroy_empty();
    value
}
