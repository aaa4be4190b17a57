//! Variable-length numbers, as the Kafka protocol guide has them: zigzag, then groups of seven
//! bits, the low group first, each byte but the last with its top bit set.

ghost use Rattle.std.specs.Prelude.{◌≡◌, ◌≤◌, ◌++◌, ℕ, List, length, take, Ok, OnOk, OnErr};
ghost use Rattle.std.specs.List.{prefix_len};
ghost use Rattle.pc_bytes.specs.Varint.{zigzag_of, signed_of, unsigned_of, is_open, groups_of, shortest_of, varint_at, varlong_at, IsVarint, IsVarlong};

use std::alloc::AllocError;

/// The most bytes of a number of 32 bits.
pub const VARINT_MAX: usize = 5;

/// The most bytes of a number of 64 bits.
pub const VARLONG_MAX: usize = 10;

// The values of a group: a byte at or above it has its top bit set.
const GROUP: u8 = 128;

// How many of the first `most` bytes have their top bit set, before one that has not.
pub(crate) fn open_count(bytes: &[u8], most: usize) -> usize
    ensures { result ≡ prefix_len is_open (take most bytes.now) }
{
    bytes
        .iter()
        .take(most)
        .take_while(|byte| **byte >= GROUP)
        .count()
}

// The number whose groups the bytes are.
pub(crate) fn sum_of_groups(bytes: &[u8]) -> u128
    requires { length bytes.now ≤ 10 }
    ensures { result ≡ unsigned_of bytes.now }
{
    let mut sum = 0;
    let mut weight = 1;
    for byte in bytes {
        sum += u128::from(*byte % GROUP) * weight;
        weight *= u128::from(GROUP);
    }
    sum
}

// The signed number of which zigzag made `unsigned`.
pub(crate) fn signed(unsigned: u64) -> i64
    ensures { result ≡ signed_of unsigned }
{
    let half = (unsigned / 2) as i64;
    if unsigned % 2 == 0 { half } else { !half }
}

// The unsigned number that zigzag makes of `n`.
fn zigzag(n: i64) -> u64
    ensures { result ≡ zigzag_of n }
{
    if n < 0 {
        2 * (!n as u64) + 1
    } else {
        2 * (n as u64)
    }
}

// Appends the groups of `unsigned`, the low one first, as few as it has. An `Err` changes nothing.
fn put_groups(out: &mut Vec<u8>, unsigned: u64) -> Result<(), AllocError>
    ensures ok { OnOk result (out.new.items ≡ out.old.items ++ groups_of 9 unsigned) }
    ensures err { OnErr result (out.new.items ≡ out.old.items) }
{
    let mut groups = [0; VARLONG_MAX];
    let mut rest = unsigned;
    let mut len = 0;
    while rest >= u64::from(GROUP) {
        groups[len] = (rest % u64::from(GROUP)) as u8 + GROUP;
        rest /= u64::from(GROUP);
        len += 1;
    }
    groups[len] = rest as u8;
    out.extend_from_slice(&groups[..len + 1])
}

/// Appends the shortest spelling of `n`. Where memory is wanting, `out` is as it was.
pub fn write_varint(out: &mut Vec<u8>, n: i32) -> Result<(), AllocError>
    ensures ok { OnOk result (out.new.items ≡ out.old.items ++ shortest_of n) }
    ensures err { OnErr result (out.new.items ≡ out.old.items) }
    // What is appended is a spelling of n, none is shorter, and it is read again.
    ensures spells { IsVarint (shortest_of n) n }
    ensures shortest { (other : List ℕ) → IsVarint other n
        → length (shortest_of n) ≤ length other }
    ensures read_again { (rest : List ℕ) → varint_at (shortest_of n ++ rest) ≡ Ok (n, rest) }
{
    put_groups(out, zigzag(i64::from(n)))
}

/// Appends the shortest spelling of `n`. Where memory is wanting, `out` is as it was.
pub fn write_varlong(out: &mut Vec<u8>, n: i64) -> Result<(), AllocError>
    ensures ok { OnOk result (out.new.items ≡ out.old.items ++ shortest_of n) }
    ensures err { OnErr result (out.new.items ≡ out.old.items) }
    // What is appended is a spelling of n, none is shorter, and it is read again.
    ensures spells { IsVarlong (shortest_of n) n }
    ensures shortest { (other : List ℕ) → IsVarlong other n
        → length (shortest_of n) ≤ length other }
    ensures read_again { (rest : List ℕ) → varlong_at (shortest_of n ++ rest) ≡ Ok (n, rest) }
{
    put_groups(out, zigzag(n))
}
