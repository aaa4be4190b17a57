//! The small pieces of every text: lines, words, and decimals and escapes of one spelling.
#![tactic(auto)]

mod cut;
mod escape;
mod laws;
mod line;
mod number;
mod word;

pub use cut::{lines, words};
pub use escape::{UnescapeFault, put_escaped, unescape};
pub use laws::{one_decimal_for_each_number, one_escaped_text_for_each_bytes};
pub use line::Lines;
pub use number::{NotDecimal, decimal, put_decimal};
pub use word::Words;

#[cfg(test)]
mod tests;
