//! Arrays, read in place: clauses see of one the list of its items that are left.

ghost use Rattle.std.specs.Prelude.{◌≡◌, ◌<◌, ◌^◌, length, ℕ, List, Result};
ghost use Rattle.pc_model.specs.declared.wire_fault.WireFault.{WireFault};
ghost use Rattle.pc_model.specs.MessageReading.{array_at};
ghost use Rattle.pc_offset_wire.specs.Reading.{Gives};
ghost use Rattle.pc_offset_wire.specs.Items.{after_items, items_left};

use crate::fields;
use pc_model::WireFault;
use std::marker::PhantomData;

/// What stands in an array, and how it is read.
pub trait WireItem<'a>: Copy {
    /// The item without where it lies in memory.
    ghost Plain: { Type 0 };

    ghost plain: { Self → Plain };

    /// The reading of it.
    ghost at: { List ℕ → Result (Plain × List ℕ) WireFault };

    /// Reads the item at the front of the bytes, and gives the bytes after it.
    fn read(bytes: &'a [u8]) -> Result<(Self, &'a [u8]), WireFault>
        ensures { Gives (λ x. (plain x.0, x.1.now)) result (at bytes.now) };
}

/// The items of an array that are left, read in place: an iterator over them. All of them were
/// checked when the frame was read.
#[derive(Clone, Copy, Debug)]
pub struct Items<'a, T> {
    bytes: &'a [u8],
    count: u32,
    of: PhantomData<T>,
}

impl<'a, T> Items<'a, T> {
    /// The same items.
    pub(crate) fn again(&self) -> Items<'a, T>
        ensures few { result.count < 2 ^ 32 }
        ensures same { result ≡ self.now }
    {
        Items {
            bytes: self.bytes,
            count: self.count,
            of: PhantomData,
        }
    }
}

/// Passes over this many items.
fn skip<'a, T: WireItem<'a>>(count: u32, bytes: &'a [u8]) -> Result<&'a [u8], WireFault>
    ensures { Gives (λ rest. rest.now) result (after_items T.at count bytes.now) }
{
    let mut rest = bytes;
    for _ in 0..count {
        let (_, after) = T::read(rest)?;
        rest = after;
    }
    Ok(rest)
}

/// An array: a count, and as many items, each of them checked.
pub(crate) fn array<'a, T: WireItem<'a>>(
    bytes: &'a [u8],
) -> Result<(Items<'a, T>, &'a [u8]), WireFault>
    ensures { Gives (λ x. (items_left T.at x.0, x.1.now)) result (array_at T.at bytes.now) }
{
    let (count, bytes) = fields::count_at(bytes)?;
    let rest = skip::<T>(count, bytes)?;
    Ok((
        Items {
            bytes,
            count,
            of: PhantomData,
        },
        rest,
    ))
}

impl<'a, T: WireItem<'a>> Items<'a, T> {
    /// How many items are left.
    pub fn len(&self) -> usize
        ensures { result ≡ length (items_left T.at self.now) }
    {
        self.again().count()
    }
}

impl<'a, T: WireItem<'a>> Iterator for Items<'a, T> {
    ghost use Rattle.std.specs.Iterator.{YieldsFirstBy, item_count};
    ghost use Rattle.pc_offset_wire.specs.Items.{items_left};

    type Item = T;

    ghost next_gives = { YieldsFirstBy T.plain (items_left T.at) };

    ghost remaining = { item_count (items_left T.at) };

    fn next(&mut self) -> Option<T> {
        if self.count == 0 {
            return None;
        }
        let Ok((item, rest)) = T::read(self.bytes) else {
            return None;
        };
        self.bytes = rest;
        self.count -= 1;
        Some(item)
    }
}
