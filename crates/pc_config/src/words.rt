//! The keys whose value is one word.

ghost use Rattle.std.specs.Prelude.{◌≡◌, option_map};
ghost use Rattle.std.specs.Option.{ok_or};
ghost use Rattle.toml.specs.View.{table_view};
ghost use Rattle.pc_model.specs.declared.choices.Order.TheVariants as order;
ghost use Rattle.pc_model.specs.declared.choices.Work.TheVariants as work;
ghost use Rattle.pc_model.specs.declared.choices.BadMapRule.TheVariants as bad_map;
ghost use Rattle.pc_config.specs.declared.key.Key.TheVariants as key;
ghost use Rattle.pc_config.specs.declared.fault.KeyFault.TheVariants.{Bad};
ghost use Rattle.pc_config.specs.Members.{text_at, word_or, order_named, work_named, bad_map_named};

use crate::fault::KeyFault;
use crate::key::Key;
use crate::member::text_of;
use pc_model::{BadMapRule, Order, Work};
use toml::Table;

/// The value of `order`, `none` where it is absent.
pub(crate) fn order(table: &Table) -> Result<Order, KeyFault>
    ensures { result
        ≡ word_or key.Order order_named order.None (text_at key.Order (table_view table.now)) }
{
    match text_of(table, Key::Order) {
        Some(Some(text)) => known(Key::Order, order_named(text)),
        Some(None) => Err(KeyFault::Bad(Key::Order)),
        None => Ok(Order::None),
    }
}

/// The value of `function`, `length` where it is absent.
pub(crate) fn work(table: &Table) -> Result<Work, KeyFault>
    ensures { result
        ≡ word_or key.Function work_named work.Length (text_at key.Function (table_view table.now)) }
{
    match text_of(table, Key::Function) {
        Some(Some(text)) => known(Key::Function, work_named(text)),
        Some(None) => Err(KeyFault::Bad(Key::Function)),
        None => Ok(Work::Length),
    }
}

/// The value of `bad_map`, `redo` where it is absent.
pub(crate) fn bad_map(table: &Table) -> Result<BadMapRule, KeyFault>
    ensures { result
        ≡ word_or key.BadMap bad_map_named bad_map.Redo (text_at key.BadMap (table_view table.now)) }
{
    match text_of(table, Key::BadMap) {
        Some(Some(text)) => known(Key::BadMap, bad_map_named(text)),
        Some(None) => Err(KeyFault::Bad(Key::BadMap)),
        None => Ok(BadMapRule::Redo),
    }
}

/// What a word names, or that the key does not take it.
fn known<T>(key: Key, named: Option<T>) -> Result<T, KeyFault>
    ensures { result ≡ ok_or named (Bad key) }
{
    match named {
        Some(value) => Ok(value),
        None => Err(KeyFault::Bad(key)),
    }
}

#[tactic(auto, unfolding(crate::specs::Members::order_named))]
fn order_named(text: &str) -> Option<Order>
    ensures { result ≡ order_named text.now }
{
    if text == "none" {
        Some(Order::None)
    } else if text == "partition" {
        Some(Order::Partition)
    } else if text == "key" {
        Some(Order::Key)
    } else {
        None
    }
}

#[tactic(auto, unfolding(crate::specs::Members::work_named))]
fn work_named(text: &str) -> Option<Work>
    ensures { result ≡ work_named text.now }
{
    if text == "length" {
        Some(Work::Length)
    } else if text == "bytesum" {
        Some(Work::ByteSum)
    } else if text == "hex" {
        Some(Work::Hex)
    } else {
        None
    }
}

#[tactic(auto, unfolding(crate::specs::Members::bad_map_named))]
fn bad_map_named(text: &str) -> Option<BadMapRule>
    ensures { result ≡ bad_map_named text.now }
{
    if text == "redo" {
        Some(BadMapRule::Redo)
    } else if text == "refuse" {
        Some(BadMapRule::Refuse)
    } else {
        None
    }
}
