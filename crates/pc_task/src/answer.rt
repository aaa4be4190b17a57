//! The answers of the functions that can be run on a record.

ghost use Rattle.std.specs.Prelude.{◌≡◌, IfOk, decimal, string_bytes, sum};
ghost use Rattle.std.specs.Option.{option_copied};
ghost use Rattle.pc_model.specs.Outcomes.{answer_of};

use pc_model::{Answer, Work};
use std::alloc::{AllocError, Global};

/// The function's answer to a value: its length or the sum of its bytes as a decimal, or the bytes
/// in lower-case hexadecimal; `null` to a null value. The only error is out of memory.
pub fn answer_of(alloc: Global, work: Work, value: Option<&[u8]>) -> Result<Answer, AllocError>
    ensures { IfOk result (λ answer. answer ≡ answer_of work (option_copied value.entry)) }
{
    let Some(bytes) = value else {
        return Answer::from_slice(alloc, b"null");
    };
    let text = match work {
        Work::Length => decimal(alloc, bytes.len() as u128)?,
        Work::ByteSum => decimal(alloc, byte_sum(bytes))?,
        Work::Hex => hex::encode(alloc, bytes)?,
    };
    Answer::from_slice(alloc, text.as_bytes())
}

/// The sum of the bytes.
fn byte_sum(bytes: &[u8]) -> u128
    ensures { result ≡ sum bytes.now }
{
    let mut total = 0u128;
    for byte in bytes {
        total += u128::from(*byte);
    }
    total
}

/// The decimal of a number.
fn decimal(alloc: Global, n: u128) -> Result<String, AllocError>
    ensures { IfOk result (λ text. string_bytes text ≡ decimal n) }
{
    format!(in alloc; "{n}")
}
