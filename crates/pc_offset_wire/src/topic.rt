//! A topic, which is an item of an array: its name, and an array of items.

ghost use Rattle.std.specs.Prelude.{ℤ};

use crate::fields;
use crate::items::{self, Items, WireItem};
use pc_model::WireFault;

impl<'a, T: WireItem<'a>> WireItem<'a> for (&'a str, Items<'a, T>) {
    ghost use Rattle.pc_model.specs.Messages.{Topic};
    ghost use Rattle.pc_model.specs.MessageReading.{topic_at};
    ghost use Rattle.pc_offset_wire.specs.Items.{items_left};

    ghost Plain = { Topic T.Plain };

    ghost plain = { λ t. record { name = t.0.now; items = items_left T.at t.1 } };

    ghost at = { topic_at T.at };

    #[tactic(auto, unfolding(pc_model::specs::MessageReading::topic_at))]
    fn read(bytes: &'a [u8]) -> Result<((&'a str, Items<'a, T>), &'a [u8]), WireFault> {
        let (name, rest) = fields::string(bytes)?;
        let (items, rest) = items::array(rest)?;
        Ok(((name, items), rest))
    }
}
