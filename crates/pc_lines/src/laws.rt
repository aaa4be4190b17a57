//! The laws of these texts, as functions that do nothing: each number and each list of bytes has
//! one spelling, which is read as it.

ghost use Rattle.std.specs.Prelude.{◌≡◌, ℕ, ◌<◌, ◌^◌, List, Some};
ghost use Rattle.std.specs.Fmt.{decimal};
ghost use Rattle.pc_lines.specs.Decimal.{number_of};
ghost use Rattle.pc_lines.specs.Escape.{IsBytes, escaped_of, unescaped_of};

/// The decimal of a number is read as the number, and no other word is.
pub fn one_decimal_for_each_number()
    ensures again { (n : ℕ) → n < 2 ^ 64 → number_of (decimal n) ≡ Some n }
    ensures only { (word : List ℕ) (n : ℕ)
        → number_of word ≡ Some n → (decimal n ≡ word) × (n < 2 ^ 64) }
{}

/// The escaped text of bytes is read as the bytes, and no other word is.
pub fn one_escaped_text_for_each_bytes()
    ensures again { (bytes : List ℕ)
        → IsBytes bytes → unescaped_of (escaped_of bytes) ≡ Some bytes }
    ensures only { (word bytes : List ℕ)
        → unescaped_of word ≡ Some bytes → (escaped_of bytes ≡ word) × IsBytes bytes }
{}
