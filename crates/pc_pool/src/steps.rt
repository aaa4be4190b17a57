//! The steps of a run that are due, and its control turns.

ghost use Rattle.std.specs.Prelude.{◌≡◌, ◌<◌, ◌&&◌, is_none, true, false, length, None};
ghost use Rattle.pc_pool.specs.declared.turn.Progress.TheVariants.{Idle};
ghost use Rattle.pc_pool.specs.Run.{GoesFrom, IsIdle, heading_of, is_due_at, steps_left};

use crate::applied::{applied, are_countable};
use crate::control::{ending_of, turned};
use crate::ending::Ending;
use crate::run::{Origin, Run};
use crate::turn::Progress;
use pc_drain::Turn;
use pc_rebalance::due;
use pc_task::Task;
use pc_world::Link;
use std::sync::Wait;

impl<'a, L: Link, T: Task + Drop, O: Origin<L>> Run<'_, 'a, L, T, O> {
    /// Applies the steps that are due, up to the first that is refused, which ends the run.
    pub(crate) fn apply_due(&mut self)
        ensures from { GoesFrom T.outcome L.store L.faults self.old self.new }
        ensures undue { self.new.ended ≡ None → is_due_at (heading_of T.outcome L.store L.faults self.new)
            self.new.engine.journal.events self.new.used ≡ false }
    {
        while self.is_due() {
            self.apply_next();
        }
    }

    /// Whether the run goes on and its next step is due.
    fn is_due(&self) -> bool
        ensures { result ≡ (is_none self.now.ended
            && is_due_at (heading_of T.outcome L.store L.faults self.now)
            self.now.engine.journal.events self.now.used) }
    {
        if self.ended.is_some() {
            return false;
        }
        match self.steps.get(self.used) {
            Some(step) => due(&self.engine, step),
            None => false,
        }
    }

    /// Applies the next step, which is due.
    fn apply_next(&mut self)
        requires goes_on { self.old.ended ≡ None }
        requires due { is_due_at (heading_of T.outcome L.store L.faults self.old)
            self.old.engine.journal.events self.old.used ≡ true }
        ensures from { GoesFrom T.outcome L.store L.faults self.old self.new }
        ensures fewer { steps_left (length self.new.steps) self.new.used self.new.ended
            < steps_left (length self.old.steps) self.old.used self.old.ended }
    {
        let Some(step) = self.steps.get(self.used) else {
            unreachable!();
        };
        are_countable(self.steps);
        match applied(self.alloc, &mut self.engine, step) {
            None => self.used += 1,
            Some(ending) => self.ended = Some(ending),
        }
    }

    /// Makes a control turn.
    pub(crate) fn control<R: Wait>(&mut self, rt: &R, now: u64) -> Progress
        requires goes_on { self.old.ended ≡ None }
        requires undue { is_due_at (heading_of T.outcome L.store L.faults self.old)
            self.old.engine.journal.events self.old.used ≡ false }
        ensures from { GoesFrom T.outcome L.store L.faults self.old self.new }
        ensures idle { result ≡ Idle → IsIdle (heading_of T.outcome L.store L.faults self.new)
            self.new.engine.journal.events self.new.used self.new.ended }
    {
        let last = self.used == self.steps.len();
        let turn = turned(rt, &mut self.engine, self.mail, &mut self.inbox, now, last);
        match turn {
            Turn::Went => Progress::Went,
            Turn::Idle => Progress::Idle,
            turn => {
                self.ended = Some(ending_of(turn));
                Progress::Ended
            }
        }
    }
}
