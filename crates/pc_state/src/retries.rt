//! The clock, and the records that wait for their time.

ghost use Rattle.std.specs.Prelude.{◌≡◌, ◌<◌, List, ◌∷◌, length};
ghost use Rattle.pc_model.specs.declared.event.Event.{Event};
ghost use Rattle.pc_model.specs.declared.event.Event.TheVariants.{Tick};
ghost use Rattle.pc_model.specs.Given.{Given};
ghost use Rattle.pc_model.specs.Retry.{ready_after};
ghost use Rattle.pc_state.specs.State.{Knows, MayCome};

use crate::state::State;

impl<'a> State<'a> {
    /// The clock moves on to a number above that of the last tick: the records whose time has come
    /// may be dispatched. Takes no memory.
    pub fn tick(&mut self, now: u64)
        requires { (given : Given) × (h : List Event) × Knows given h self.old
            × MayCome given (Tick now) h }
        ensures { (given : Given) (h : List Event) → Knows given h self.old
            → MayCome given (Tick now) h → Knows given (Tick now ∷ h) self.new }
    {
        self.clock = now;
        while let Some((part, offset)) = self.retries.due(now) {
            self.shards.free(part, offset);
        }
    }
}

/// When a record may run again after its failure of this attempt, counted from 1, at `now`: after the
/// delay of that place, or after the last delay where there are fewer. At most 2^64 - 1.
pub fn ready_after(delays: &[u64], attempt: u32, now: u64) -> u64
    requires some { 0 < length delays.now }
    requires first { 0 < attempt }
    ensures { result ≡ ready_after delays.now attempt now }
{
    let last = delays.len() - 1;
    let delay = delays[last.min(attempt as usize - 1)];
    now.saturating_add(delay)
}
