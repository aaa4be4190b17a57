//! Whether pressure lets a part poll its next record.

ghost use Rattle.std.specs.Prelude.{◌≡◌, ◌&&◌, not, ℕ, List, true, if◌then◌else◌, unwrap_or, nat_le, Ok, Err};
ghost use Rattle.pc_model.specs.declared.event.Event.{Event};
ghost use Rattle.pc_model.specs.Given.{Given};
ghost use Rattle.pc_model.specs.Epochs.{is_held};
ghost use Rattle.pc_model.specs.Known.{high_of};
ghost use Rattle.pc_model.specs.Pressure.{is_blocked, is_upto_high};
ghost use Rattle.pc_state.specs.State.{Knows};
ghost use Rattle.pc_engine.specs.declared.fault.EngineFault.TheVariants.{Pressed};

use crate::fault::EngineFault;
use pc_state::State;

/// Whether a held part is free to poll its record at the offset. It is `Pressed` exactly where it is
/// blocked and the record is above its greatest complete offset.
pub(crate) fn unpressed(state: &State<'_>, part: u32, offset: u64) -> Result<(), EngineFault>
    ensures { (given : Given) (h : List Event) → Knows given h state.now
        → is_held h part ≡ true
        → result ≡ (if is_blocked given h part && not (is_upto_high given h part offset)
        then Err (Pressed (unwrap_or (high_of given h part) 0)) else Ok tt) }
{
    match state.pressing(part) {
        Some(high) => upto(high, offset),
        None => Ok(()),
    }
}

/// Refuses an offset above the greatest complete one.
fn upto(high: u64, offset: u64) -> Result<(), EngineFault>
    ensures { result ≡ (if nat_le offset high then Ok tt else Err (Pressed high)) }
{
    if offset <= high {
        Ok(())
    } else {
        Err(EngineFault::Pressed { high })
    }
}
