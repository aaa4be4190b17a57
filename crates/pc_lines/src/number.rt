//! Numbers as words: decimals, of which each number has one.

ghost use Rattle.std.specs.Prelude.{◌≡◌, ◌++◌, ◌<◌, ◌≤◌, ◌^◌, length, drop, OnOk, OnErr};
ghost use Rattle.std.specs.Fmt.{decimal};
ghost use Rattle.std.specs.Option.{SomeIff};
ghost use Rattle.std.specs.Result.{result_ok};
ghost use Rattle.std.specs.Str.Parse.{AllDigits, digits_value};
ghost use Rattle.pc_lines.specs.Decimal.{number_of};

use std::alloc::AllocError;
use std::error::Error;
use std::fmt;

/// The digits of 2^64 - 1.
const MOST_DIGITS: usize = 20;

/// Says that a word is no decimal of a number below 2^64.
#[derive(Clone, Copy, Debug, PartialEq, Eq)]
pub struct NotDecimal;

impl fmt::Display for NotDecimal {
    fn fmt<W: fmt::Write>(&self, f: &mut fmt::Formatter<W>) -> fmt::Result {
        write!(f, "not a decimal below 2^64")
    }
}

impl Error for NotDecimal {}

/// The number of a word of digits, below 2^64 and without a `0` before another digit. Takes no
/// memory.
pub fn decimal(word: &[u8]) -> Result<u64, NotDecimal>
    ensures { result_ok result ≡ number_of word.now }
{
    if word.is_empty() {
        return Err(NotDecimal);
    }
    if word[0] == b'0' {
        return if word.len() == 1 {
            Ok(0)
        } else {
            Err(NotDecimal)
        };
    }
    number(word).ok_or(NotDecimal)
}

/// Appends the decimal of a number. Where memory is wanting `out` is as before.
pub fn put_decimal(out: &mut Vec<u8>, n: u64) -> Result<(), AllocError>
    ensures ok { OnOk result (out.new.items ≡ out.old.items ++ decimal n) }
    ensures err { OnErr result (out.new.items ≡ out.old.items) }
{
    let mut digits = [0; MOST_DIGITS];
    let start = write_digits(&mut digits, n);
    out.extend_from_slice(&digits[start..])
}

fn number(digits: &[u8]) -> Option<u64>
    ensures { let value = digits_value 10 digits.now in
        SomeIff result (AllDigits 10 digits.now × (value < 2 ^ 64)) value }
{
    let mut number = 0u64;
    for digit in digits {
        if !digit.is_ascii_digit() {
            return None;
        }
        number = number
            .checked_mul(10)?
            .checked_add(u64::from(*digit - b'0'))?;
    }
    Some(number)
}

/// Writes the decimal to the end of the digits, and says where it starts.
fn write_digits(digits: &mut [u8; MOST_DIGITS], n: u64) -> usize
    ensures within { result ≤ 20 }
    ensures written { drop result digits.new ≡ decimal n }
{
    let mut start = MOST_DIGITS;
    let mut left = n;
    while left >= 10 {
        start -= 1;
        digits[start] = b'0' + (left % 10) as u8;
        left /= 10;
    }
    start -= 1;
    digits[start] = b'0' + left as u8;
    start
}
