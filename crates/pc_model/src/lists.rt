//! Small lists that are made once and read. Contracts see each as its items.
ghost use Rattle.std.specs.Prelude.{◌≡◌, ℕ, List, IfOk};
ghost use Rattle.pc_model.specs.declared.outcome.FailRule.{FailRule};

use crate::outcome::{FailRule, Start};
use crate::texts::MapText;
use std::alloc::{AllocError, Global};
use std::marker::Model;

/// The answer of a function: any bytes.
#[derive(Debug, Drop)]
pub struct Answer {
    bytes: Vec<u8>,
}

impl Model for Answer {
    ghost Value = { List ℕ };

    ghost view = { λ a. a.bytes.items };
}

impl Answer {
    /// A copy of the bytes. The only error is want of memory.
    pub fn from_slice(alloc: Global, items: &[u8]) -> Result<Answer, AllocError>
        ensures { IfOk result (λ a. a ≡ items.now) }
    {
        Ok(Answer {
            bytes: Vec::from_slice(alloc, items)?,
        })
    }

    /// The bytes, lent.
    pub fn as_slice(&self) -> &[u8]
        ensures { result.now ≡ self.now }
    {
        self.bytes.as_slice()
    }
}

/// The waits after the failures of a record, in the clock's numbers: the n-th after the n-th
/// failure, the last after all later ones.
#[derive(Debug, Drop)]
pub struct Delays {
    items: Vec<u64>,
}

impl Model for Delays {
    ghost Value = { List ℕ };

    ghost view = { λ d. d.items.items };
}

impl Delays {
    /// A copy of the items. The only error is want of memory.
    pub fn from_slice(alloc: Global, items: &[u64]) -> Result<Delays, AllocError>
        ensures { IfOk result (λ d. d ≡ items.now) }
    {
        Ok(Delays {
            items: Vec::from_slice(alloc, items)?,
        })
    }

    /// The items, lent.
    pub fn as_slice(&self) -> &[u64]
        ensures { result.now ≡ self.now }
    {
        self.items.as_slice()
    }
}

/// The records that fail. Of two rules for one record the first counts.
#[derive(Debug, Drop)]
pub struct FailRules {
    items: Vec<FailRule>,
}

impl Model for FailRules {
    ghost Value = { List FailRule };

    ghost view = { λ f. f.items.items };
}

impl FailRules {
    /// A copy of the rules. The only error is want of memory.
    pub fn from_slice(alloc: Global, items: &[FailRule]) -> Result<FailRules, AllocError>
        ensures { IfOk result (λ f. f ≡ items.now) }
    {
        Ok(FailRules {
            items: Vec::from_slice(alloc, items)?,
        })
    }

    /// The rules, lent.
    pub fn as_slice(&self) -> &[FailRule]
        ensures { result.now ≡ self.now }
    {
        self.items.as_slice()
    }
}

/// The commits that are stored before the run begins.
#[derive(Debug, Drop)]
pub struct Starts {
    items: Vec<Start>,
}

impl Model for Starts {
    ghost use Rattle.std.specs.Prelude.{List};
    ghost use Rattle.pc_model.specs.declared.outcome.Start.{Start};

    ghost Value = { List Start };

    ghost view = { λ s. s.items.items };
}

impl Starts {
    ghost use Rattle.pc_model.specs.declared.outcome.Start.{Start};

    /// A copy of the commits. The only error is want of memory.
    pub fn from_slice(alloc: Global, items: &[Start]) -> Result<Starts, AllocError>
        ensures { IfOk result (λ s. s ≡ items.now) }
    {
        let mut copies = Vec::new(alloc);
        for start in items {
            copies.push(Start {
                part: start.part,
                position: start.position,
                map: MapText::from_str(alloc, start.map.as_str())?,
            })?;
        }
        Ok(Starts { items: copies })
    }

    /// The commits, lent.
    pub fn as_slice(&self) -> &[Start]
        ensures { result.now ≡ self.now }
    {
        self.items.as_slice()
    }
}
