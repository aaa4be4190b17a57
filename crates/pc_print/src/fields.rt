//! The words of a line with exactly one space between them; clauses see those that are left.

ghost use Rattle.std.specs.Prelude.{◌≡◌, ◌≤◌, ◌∷◌, [], IfOk, MatchOption, position};
ghost use Rattle.std.specs.List.{slice_split};
ghost use Rattle.pc_lines.specs.Pieces.{is_space};
ghost use Rattle.pc_print.specs.Fields.{fields_of};
ghost use Rattle.pc_print.specs.Reading.{Reads, after_name, bytes_at, if_text, large_at, map_at, marked_bytes, named_large, named_small, number_at, small_at};

use crate::line_fault::LineFault;
use pc_lines::{decimal, unescape};
use pc_model::MapText;
use std::alloc::Global;
use std::marker::Model;

/// The words that are left.
#[derive(Debug, Drop)]
pub(crate) struct Fields<'a> {
    rest: Option<&'a [u8]>,
}

impl<'a> Model for Fields<'a> {
    ghost use Rattle.std.specs.Prelude.{ℕ, List};
    ghost use Rattle.pc_print.specs.Fields.{fields_of};

    ghost Value = { List (List ℕ) };

    ghost view = { λ s. fields_of s.rest };
}

impl<'a> Fields<'a> {
    pub(crate) fn new(line: &'a [u8]) -> Fields<'a>
        ensures { result ≡ slice_split is_space line.now }
    {
        Fields { rest: Some(line) }
    }

    /// The next word.
    pub(crate) fn next(&mut self) -> Option<&'a [u8]>
        ensures { MatchOption result (self.old ≡ []) (λ word. self.old ≡ word.now ∷ self.new) }
    {
        let line = self.rest?;
        let (word, rest) = cut(line);
        self.rest = rest;
        Some(word)
    }

    /// A number, at most `most`.
    #[tactic(auto, unfolding(crate::specs::Reading::number_at))]
    pub(crate) fn number(&mut self, most: u64) -> Result<u64, LineFault>
        ensures read { Reads (λ n. (n, self.new)) result (number_at most self.old) }
        ensures small { IfOk result (λ n. n ≤ most) }
    {
        let word = self.next().ok_or(LineFault::Bad)?;
        match decimal(word) {
            Ok(n) if n <= most => Ok(n),
            _ => Err(LineFault::Bad),
        }
    }

    /// This very word.
    #[tactic(auto, unfolding(crate::specs::Reading::after_name))]
    pub(crate) fn name(&mut self, name: &[u8]) -> Result<(), LineFault>
        ensures { Reads (λ _. self.new) result (after_name name.now self.old) }
    {
        let word = self.next().ok_or(LineFault::Bad)?;
        if word == name {
            Ok(())
        } else {
            Err(LineFault::Bad)
        }
    }

    /// A number below 2^32.
    pub(crate) fn small(&mut self) -> Result<u32, LineFault>
        ensures { Reads (λ n. (n, self.new)) result (small_at self.old) }
    {
        Ok(self.number(u64::from(u32::MAX))? as u32)
    }

    /// A number below 2^64.
    pub(crate) fn large(&mut self) -> Result<u64, LineFault>
        ensures { Reads (λ n. (n, self.new)) result (large_at self.old) }
    {
        self.number(u64::MAX)
    }

    /// This very word, and a number below 2^32.
    #[tactic(auto, unfolding(crate::specs::Reading::named_at))]
    pub(crate) fn named_small(&mut self, name: &[u8]) -> Result<u32, LineFault>
        ensures { Reads (λ n. (n, self.new)) result (named_small name.now self.old) }
    {
        self.name(name)?;
        self.small()
    }

    /// This very word, and a number below 2^64.
    #[tactic(auto, unfolding(crate::specs::Reading::named_at))]
    pub(crate) fn named_large(&mut self, name: &[u8]) -> Result<u64, LineFault>
        ensures { Reads (λ n. (n, self.new)) result (named_large name.now self.old) }
    {
        self.name(name)?;
        self.large()
    }

    /// The bytes of an escaped text after an equals sign.
    #[tactic(auto, unfolding(crate::specs::Reading::bytes_at))]
    pub(crate) fn bytes(&mut self, alloc: Global) -> Result<Vec<u8>, LineFault>
        ensures { Reads (λ bytes. (bytes.items, self.new)) result (bytes_at self.old) }
    {
        let word = self.next().ok_or(LineFault::Bad)?;
        marked(alloc, word)
    }

    /// The word `map`, and a text.
    #[tactic(auto, unfolding(crate::specs::Reading::map_at))]
    pub(crate) fn map(&mut self, alloc: Global) -> Result<MapText, LineFault>
        ensures { Reads (λ map. (map, self.new)) result (map_at self.old) }
    {
        self.name(b"map")?;
        let bytes = self.bytes(alloc)?;
        text(alloc, &bytes)
    }
}

fn marked(alloc: Global, word: &[u8]) -> Result<Vec<u8>, LineFault>
    ensures { Reads (λ bytes. bytes.items) result (marked_bytes word.now) }
{
    let Some((first, text)) = word.split_first() else {
        return Err(LineFault::Bad);
    };
    if *first != b'=' {
        return Err(LineFault::Bad);
    }
    Ok(unescape(alloc, text)?)
}

fn text(alloc: Global, bytes: &[u8]) -> Result<MapText, LineFault>
    ensures { Reads (λ map. map) result (if_text bytes.now) }
{
    match str::from_utf8(bytes) {
        Ok(text) => Ok(MapText::from_str(alloc, text)?),
        Err(_) => Err(LineFault::Bad),
    }
}

fn place_of_space(line: &[u8]) -> Option<usize>
    ensures { result ≡ position is_space line.now }
{
    line.iter().position(|b| *b == b' ')
}

/// The first word, and what stands after the space that follows it, where there is one.
fn cut(line: &[u8]) -> (&[u8], Option<&[u8]>)
    ensures { slice_split is_space line.now ≡ result.0.now ∷ fields_of result.1 }
{
    match place_of_space(line) {
        Some(at) => (&line[..at], Some(&line[at + 1..])),
        None => (line, None),
    }
}
