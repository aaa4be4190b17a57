//! A map that was read. Clauses see its base and its bits.

ghost use Rattle.std.specs.Prelude.{◌≡◌, ◌+◌, ◌^◌, ◌<◌, not, false, length, slice_index_or};

use pc_model::Bits;

/// The bits of the offsets from a base on.
#[derive(Debug, Drop)]
pub struct OffsetMap {
    /// The offset of the first bit.
    pub base: u64,
    /// A bit for each offset, 1 where the map passes it.
    pub bits: Bits,
    ghost in_range: { base + length bits < 2 ^ 63 },
}

impl OffsetMap {
    ghost use Rattle.pc_offset_map.specs.Offsets.{is_passed, last_offset};

    /// Whether the map passes the offset: its bit is there and is 1.
    pub fn passes(&self, offset: u64) -> bool
        ensures { result ≡ is_passed self.now.base self.now.bits offset }
    {
        if offset < self.base {
            return false;
        }
        let place = offset - self.base;
        place < self.bits.count() && !is_zero(&self.bits, place)
    }

    /// The offset of the last bit. None for a map without bits.
    pub fn last(&self) -> Option<u64>
        ensures { result ≡ last_offset self.now.base self.now.bits }
    {
        let count = self.bits.count();
        if count == 0 {
            return None;
        }
        Some(self.base + (count - 1))
    }
}

/// Whether the bit at a place is 0, by a binary search among the runs of 0 bits.
fn is_zero(bits: &Bits, place: u64) -> bool
    requires { place < length bits.now }
    ensures { result ≡ not (slice_index_or bits.now place false) }
{
    let mut low = 0;
    let mut high = bits.runs();
    while low < high {
        let middle = low + (high - low) / 2;
        let Some((start, size)) = bits.run(middle) else {
            unreachable!();
        };
        if place < start {
            high = middle;
        } else if place - start < size {
            return true;
        } else {
            low = middle + 1;
        }
    }
    false
}
