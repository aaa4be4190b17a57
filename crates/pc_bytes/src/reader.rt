//! Reading from the front of a slice: clauses see a reader as a place and the bytes from there on.

ghost use Rattle.std.specs.Prelude.{◌≡◌, ◌+◌, ◌≤◌, ◌<◌, ◌^◌, ℤ, List, ℕ, length, Ok, IfOk, IfErr, OnErr};
ghost use Rattle.std.specs.Int.{w8, w16, w32, w64};
ghost use Rattle.pc_bytes.specs.Fields.{number_at, signed_at, part_at, Rest, IsFaultAt, Moves};
ghost use Rattle.pc_bytes.specs.Varint.{unsigned_at, varint_at, varlong_at, IsVarint, IsVarlong, SpelledBefore};

use crate::fault::ByteFault;
use crate::varint;
use byteorder::{BigEndian, ByteOrder};
use std::marker::Model;

/// Reads numbers, highest byte first, and parts of a slice, each at the place where the one before
/// it ended. A call that fails leaves the reader where it stood.
#[derive(Debug, Drop)]
pub struct Reader<'a> {
    place: u64,
    bytes: &'a [u8],
}

impl<'a> Model for Reader<'a> {
    ghost use Rattle.std.specs.Prelude.{◌+◌, ◌<◌, ◌^◌, length};
    ghost use Rattle.pc_bytes.specs.Fields.{Rest};

    ghost Value = { Rest };

    ghost view = { λ r. record { place = r.place; bytes = r.bytes.now } };

    ghost invariant = { λ r. r.place + length r.bytes.now < 2 ^ 64 };
}

impl<'a> Reader<'a> {
    /// A reader of `bytes`, whose first byte stands at the place `base`.
    pub fn new(bytes: &'a [u8], base: u64) -> Reader<'a>
        requires { base + length bytes.now < 2 ^ 64 }
        ensures { result ≡ record { place = base; bytes = bytes.now } }
    {
        Reader { place: base, bytes }
    }

    /// The place of the next byte.
    pub fn place(&self) -> u64
        ensures place { result ≡ self.now.place }
        ensures fits { result + length self.now.bytes < 2 ^ 64 }
    {
        self.place
    }

    /// How many bytes are left.
    pub fn left(&self) -> usize
        ensures { result ≡ length self.now.bytes }
    {
        self.bytes.len()
    }

    /// The next `n` bytes. Fails with `Short` where fewer are left.
    pub fn part(&mut self, n: usize) -> Result<&'a [u8], ByteFault>
        ensures value { IfOk result (λ part. part_at n self.old.bytes
            ≡ Ok (part.now, self.new.bytes)) }
        ensures moves { Moves self.old self.new }
        ensures fault { IfErr result (λ f. IsFaultAt self.old.place (part_at n self.old.bytes) f) }
        ensures stays { OnErr result (self.new ≡ self.old) }
    {
        if self.bytes.len() < n {
            return Err(self.short(n));
        }
        let (part, rest) = self.bytes.split_at(n);
        self.place += n as u64;
        self.bytes = rest;
        Ok(part)
    }

    // The fault where `need` bytes are wanted.
    fn short(&self, need: usize) -> ByteFault
        ensures { result ≡ ByteFault.Short self.now.place need }
    {
        ByteFault::Short {
            place: self.place,
            need: need as u64,
        }
    }

    /// The next byte. Fails with `Short` where none is left.
    pub fn u8(&mut self) -> Result<u8, ByteFault>
        ensures value { IfOk result (λ n. number_at 1 self.old.bytes ≡ Ok (n, self.new.bytes)) }
        ensures moves { Moves self.old self.new }
        ensures fault { IfErr result (λ f. IsFaultAt self.old.place
            (number_at 1 self.old.bytes) f) }
        ensures stays { OnErr result (self.new ≡ self.old) }
    {
        Ok(self.part(1)?[0])
    }

    /// The next byte as a signed number. Fails with `Short` where none is left.
    pub fn i8(&mut self) -> Result<i8, ByteFault>
        ensures value { IfOk result (λ n. signed_at w8 self.old.bytes ≡ Ok (n, self.new.bytes)) }
        ensures moves { Moves self.old self.new }
        ensures fault { IfErr result (λ f. IsFaultAt self.old.place
            (signed_at w8 self.old.bytes) f) }
        ensures stays { OnErr result (self.new ≡ self.old) }
    {
        Ok(self.part(1)?[0].cast_signed())
    }

    /// A signed number of 16 bits. Fails with `Short` where fewer than two bytes are left.
    pub fn i16(&mut self) -> Result<i16, ByteFault>
        ensures value { IfOk result (λ n. signed_at w16 self.old.bytes ≡ Ok (n, self.new.bytes)) }
        ensures moves { Moves self.old self.new }
        ensures fault { IfErr result (λ f. IsFaultAt self.old.place
            (signed_at w16 self.old.bytes) f) }
        ensures stays { OnErr result (self.new ≡ self.old) }
    {
        Ok(BigEndian::read_i16(self.part(2)?))
    }

    /// A signed number of 32 bits. Fails with `Short` where fewer than four bytes are left.
    pub fn i32(&mut self) -> Result<i32, ByteFault>
        ensures value { IfOk result (λ n. signed_at w32 self.old.bytes ≡ Ok (n, self.new.bytes)) }
        ensures moves { Moves self.old self.new }
        ensures fault { IfErr result (λ f. IsFaultAt self.old.place
            (signed_at w32 self.old.bytes) f) }
        ensures stays { OnErr result (self.new ≡ self.old) }
    {
        Ok(BigEndian::read_i32(self.part(4)?))
    }

    /// An unsigned number of 32 bits. Fails with `Short` where fewer than four bytes are left.
    pub fn u32(&mut self) -> Result<u32, ByteFault>
        ensures value { IfOk result (λ n. number_at 4 self.old.bytes ≡ Ok (n, self.new.bytes)) }
        ensures moves { Moves self.old self.new }
        ensures fault { IfErr result (λ f. IsFaultAt self.old.place
            (number_at 4 self.old.bytes) f) }
        ensures stays { OnErr result (self.new ≡ self.old) }
    {
        Ok(BigEndian::read_u32(self.part(4)?))
    }

    /// A signed number of 64 bits. Fails with `Short` where fewer than eight bytes are left.
    pub fn i64(&mut self) -> Result<i64, ByteFault>
        ensures value { IfOk result (λ n. signed_at w64 self.old.bytes ≡ Ok (n, self.new.bytes)) }
        ensures moves { Moves self.old self.new }
        ensures fault { IfErr result (λ f. IsFaultAt self.old.place
            (signed_at w64 self.old.bytes) f) }
        ensures stays { OnErr result (self.new ≡ self.old) }
    {
        Ok(BigEndian::read_i64(self.part(8)?))
    }

    // The unsigned number at the front, of at most `most` bytes and below `limit`.
    #[tactic(auto, unfolding(crate::specs::Varint::unsigned_at))]
    fn unsigned(&mut self, most: usize, limit: u128) -> Result<u64, ByteFault>
        requires most { most ≤ 10 }
        requires limit { limit ≤ 2 ^ 64 }
        ensures value { IfOk result (λ n. unsigned_at most limit self.old.bytes
            ≡ Ok (n, self.new.bytes)) }
        ensures fits { IfOk result (λ n. n < limit) }
        ensures moves { Moves self.old self.new }
        ensures fault { IfErr result (λ f. IsFaultAt self.old.place
            (unsigned_at most limit self.old.bytes) f) }
        ensures stays { OnErr result (self.new ≡ self.old) }
    {
        let last = varint::open_count(self.bytes, most);
        if last >= most {
            return Err(self.too_long());
        }
        if self.bytes.len() <= last {
            return Err(self.short(self.bytes.len() + 1));
        }
        let (spelling, rest) = self.bytes.split_at(last + 1);
        let number = varint::sum_of_groups(spelling);
        if number >= limit {
            return Err(self.too_long());
        }
        self.place += spelling.len() as u64;
        self.bytes = rest;
        Ok(number as u64)
    }

    // The fault where a variable-length number is too long.
    fn too_long(&self) -> ByteFault
        ensures { result ≡ ByteFault.VarintTooLong self.now.place }
    {
        ByteFault::VarintTooLong { place: self.place }
    }

    /// A variable-length number of 32 bits, of at most five bytes. A longer spelling than the
    /// shortest is read too. Fails with `VarintTooLong` where the fifth byte has its top bit set or
    /// the number before zigzag is 2^32 or more, and with `Short`, which needs one more byte than
    /// there are, where the bytes end before.
    pub fn varint(&mut self) -> Result<i32, ByteFault>
        ensures value { IfOk result (λ n. varint_at self.old.bytes ≡ Ok (n, self.new.bytes)) }
        ensures moves { Moves self.old self.new }
        ensures fault { IfErr result (λ f. IsFaultAt self.old.place (varint_at self.old.bytes) f) }
        ensures stays { OnErr result (self.new ≡ self.old) }
        // What is read is a spelling, and whatever is a spelling is read.
        ensures found { IfOk result (λ n. SpelledBefore IsVarint self.old.bytes n self.new.bytes) }
        ensures only { (n : ℤ) (rest : List ℕ) → SpelledBefore IsVarint self.old.bytes n rest
            → (result ≡ Ok n) × (self.new.bytes ≡ rest) }
    {
        self.next_varint()
    }

    #[tactic(auto, unfolding(crate::specs::Varint::varint_at))]
    fn next_varint(&mut self) -> Result<i32, ByteFault>
        ensures value { IfOk result (λ n. varint_at self.old.bytes ≡ Ok (n, self.new.bytes)) }
        ensures moves { Moves self.old self.new }
        ensures fault { IfErr result (λ f. IsFaultAt self.old.place (varint_at self.old.bytes) f) }
        ensures stays { OnErr result (self.new ≡ self.old) }
    {
        let unsigned = self.unsigned(varint::VARINT_MAX, 1 << 32)?;
        Ok(varint::signed(unsigned) as i32)
    }

    /// A variable-length number of 64 bits, of at most ten bytes. A longer spelling than the
    /// shortest is read too. Fails with `VarintTooLong` where the tenth byte has its top bit set or
    /// the number before zigzag is 2^64 or more, and with `Short`, which needs one more byte than
    /// there are, where the bytes end before.
    pub fn varlong(&mut self) -> Result<i64, ByteFault>
        ensures value { IfOk result (λ n. varlong_at self.old.bytes ≡ Ok (n, self.new.bytes)) }
        ensures moves { Moves self.old self.new }
        ensures fault { IfErr result (λ f. IsFaultAt self.old.place (varlong_at self.old.bytes) f) }
        ensures stays { OnErr result (self.new ≡ self.old) }
        // What is read is a spelling, and whatever is a spelling is read.
        ensures found { IfOk result (λ n. SpelledBefore IsVarlong self.old.bytes n self.new.bytes) }
        ensures only { (n : ℤ) (rest : List ℕ) → SpelledBefore IsVarlong self.old.bytes n rest
            → (result ≡ Ok n) × (self.new.bytes ≡ rest) }
    {
        self.next_varlong()
    }

    #[tactic(auto, unfolding(crate::specs::Varint::varlong_at))]
    fn next_varlong(&mut self) -> Result<i64, ByteFault>
        ensures value { IfOk result (λ n. varlong_at self.old.bytes ≡ Ok (n, self.new.bytes)) }
        ensures moves { Moves self.old self.new }
        ensures fault { IfErr result (λ f. IsFaultAt self.old.place (varlong_at self.old.bytes) f) }
        ensures stays { OnErr result (self.new ≡ self.old) }
    {
        let unsigned = self.unsigned(varint::VARLONG_MAX, 1 << 64)?;
        Ok(varint::signed(unsigned))
    }
}
