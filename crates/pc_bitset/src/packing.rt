//! Bits into bytes, run by run.

ghost use Rattle.std.specs.Prelude.{◌≡◌, ◌≤◌, ◌+◌, ◌%◌, ◌++◌, replicate, OnOk};
ghost use Rattle.pc_bitset.specs.Packing.{AppendsBits};
ghost use Rattle.pc_model.specs.MapSpelling.{bit_bytes, low_first};

use pc_model::Bits;
use std::alloc::AllocError;

/// Appends the bits, eight in a byte, with 0 bits after the last.
pub fn push_bits(out: &mut Vec<u8>, bits: &Bits) -> Result<(), AllocError>
    ensures { OnOk result (out.new.items ≡ out.old.items ++ bit_bytes bits.now) }
{
    let count = bits.count();
    let mut place = 0;
    let mut i = 0;
    while let Some((start, size)) = bits.run(i) {
        append(out, place, true, start - place)?;
        append(out, start, false, size)?;
        place = start + size;
        i += 1;
    }
    append(out, place, true, count - place)
}

/// Appends a bit `n` times to bytes that end with `place` bits.
fn append(out: &mut Vec<u8>, place: u64, bit: bool, n: u64) -> Result<(), AllocError>
    ensures { OnOk result (AppendsBits place bit n out.old.items out.new.items) }
{
    let within = n.min((8 - place % 8) % 8);
    append_within(out, place, bit, within);
    append_whole(out, bit, n - within)
}

/// Puts a bit `n` times into the last byte, which has room for them.
fn append_within(out: &mut Vec<u8>, place: u64, bit: bool, n: u64)
    requires room { place % 8 + n ≤ 8 }
    requires begun { place % 8 ≡ 0 → n ≡ 0 }
    ensures { AppendsBits place bit n out.old.items out.new.items }
{
    if let Some(last) = out.last_mut() {
        *last |= equal_bits(bit, n) << (place % 8);
    }
}

/// Appends bytes that hold a bit `n` times.
fn append_whole(out: &mut Vec<u8>, bit: bool, n: u64) -> Result<(), AllocError>
    ensures { OnOk result (out.new.items ≡ out.old.items ++ bit_bytes (replicate n bit)) }
{
    let whole = (n / 8) as usize;
    out.resize(out.len() + whole, equal_bits(bit, 8))?;
    let rest = n % 8;
    if rest > 0 {
        out.push(equal_bits(bit, rest))?;
    }
    Ok(())
}

/// A byte that begins with a bit `n` times.
fn equal_bits(bit: bool, n: u64) -> u8
    requires { n ≤ 8 }
    ensures { result ≡ low_first (replicate n bit) }
{
    if bit { ((1u16 << n) - 1) as u8 } else { 0 }
}
