//! The lengths of the runs of bits, one after the other. Clauses see the list of those to come.

ghost use Rattle.std.specs.Prelude.{◌≡◌, ℕ, ◌+◌, ◌-◌, ◌<◌, ◌≤◌, ◌^◌, not, List, ◌∷◌, length};
ghost use Rattle.std.specs.Iterator.{YieldsFirst, item_count};
ghost use Rattle.pc_model.proofs.RunsAt.{IsAtRun};
ghost use Rattle.pc_model.specs.MapSpelling.{run_lengths};
ghost use Rattle.pc_runlength.specs.RunLengths.{lengths_left};

use pc_model::Bits;
use std::marker::Model;

/// Gives the lengths of the runs of 0 bits and of 1 bits in turn, beginning with a run of 0 bits.
#[derive(Drop)]
pub struct RunLengths<'a> {
    bits: &'a Bits,
    // How many bits stand before the runs to come.
    place: u64,
    // The first run of 0 bits that is to come.
    next_zeros: u64,
    // Whether the next run is one of 1 bits.
    ones: bool,
}

impl<'a> Model for RunLengths<'a> {
    ghost Value = { List ℕ };

    ghost view = { λ w. lengths_left w.bits.now w.place w.ones };

    ghost invariant = { λ w. IsAtRun w.bits.now w.next_zeros w.place };
}

/// The lengths of the runs of the bits.
pub fn run_lengths(bits: &Bits) -> RunLengths<'_>
    ensures value { result ≡ run_lengths bits.now }
    ensures few { length (run_lengths bits.now) ≤ 2 ^ 60 + 2 }
{
    let _few = bits.runs();
    RunLengths {
        bits,
        place: 0,
        next_zeros: 0,
        ones: false,
    }
}

impl<'a> Iterator for RunLengths<'a> {
    type Item = u64;

    ghost next_gives = { YieldsFirst (λ lengths. lengths) };

    ghost remaining = { item_count (λ lengths. lengths) };

    fn next(&mut self) -> Option<u64> {
        if self.place == self.bits.count() {
            return None;
        }
        let (place, next_zeros) = run_end(self.bits, self.next_zeros, self.place, self.ones);
        let length = place - self.place;
        self.place = place;
        self.next_zeros = next_zeros;
        self.ones = !self.ones;
        Some(length)
    }
}

/// Where the run at a place ends, and the first run of 0 bits after that. A run of 0 bits is empty
/// where a 1 bit stands at the place.
fn run_end(bits: &Bits, next_zeros: u64, place: u64, ones: bool) -> (u64, u64)
    requires at { IsAtRun bits.now next_zeros place }
    requires within { place < length bits.now }
    ensures after { place ≤ result.0 }
    ensures at { IsAtRun bits.now result.1 result.0 }
    ensures first { lengths_left bits.now place ones
        ≡ (result.0 - place) ∷ lengths_left bits.now result.0 (not ones) }
{
    let count = bits.count();
    match bits.run(next_zeros) {
        Some((start, _)) if ones => (start, next_zeros),
        Some((start, size)) if start == place => (start + size, next_zeros + 1),
        None if ones => (count, next_zeros),
        _ => (place, next_zeros),
    }
}
