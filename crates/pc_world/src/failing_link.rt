//! A link some of whose calls fail, by their numbers.

ghost use Rattle.std.specs.Prelude.{◌≡◌, ◌≤◌, ◌==◌, Err, IfOk, IfErr};
ghost use Rattle.std.specs.List.{list_any};
ghost use Rattle.pc_world.specs.World.{HasRisen};

use crate::faults::Faults;
use crate::link::{Link, LinkFault};
use std::alloc::Global;

/// A link that hands its calls on to another, but for those that are to fail.
#[derive(Debug, Drop)]
pub struct FailingLink<L: Link> {
    link: L,
    faults: Faults,
    late: Vec<u64>,
}

impl<L: Link> FailingLink<L> {
    ghost use Rattle.pc_world.specs.FailingLink.{inner, faults_of};

    /// A link over another. Of its calls, counted from 1, those of `fails` are not handed on, and
    /// those of `late` are handed on and then answered `Failed`; a number on both lists counts as
    /// one of `fails`. The error is out of memory and gives the link back.
    pub fn new(alloc: Global, link: L, fails: &[u64], late: &[u64]) -> Result<FailingLink<L>, L>
        ensures over { IfOk result (λ l. inner l ≡ link) }
        ensures none { IfOk result (λ l. faults_of l ≡ 0) }
        ensures back { IfErr result (λ l. l ≡ link) }
    {
        let (Ok(faults), Ok(late)) = (Faults::new(alloc, fails), Vec::from_slice(alloc, late))
        else {
            return Err(link);
        };
        Ok(FailingLink { link, faults, late })
    }

    /// The link to which the calls were handed on.
    pub fn into_link(self) -> L
        ensures { result ≡ inner self }
    {
        let FailingLink {
            link,
            faults: _,
            late: _,
        } = self;
        link
    }

    /// Whether the call that was counted last fails after it was handed on.
    fn is_late(&self) -> bool
        ensures { result ≡ list_any (λ n. n == self.now.faults.calls) self.now.late.items }
    {
        let calls = self.faults.calls;
        self.late.as_slice().iter().any(|n| *n == calls)
    }

    /// Counts a fault.
    fn fail(&mut self) -> Result<Vec<u8>, LinkFault>
        ensures failed { result ≡ Err LinkFault.Failed }
        ensures rose { HasRisen (faults_of self.old) (faults_of self.new) }
        ensures later { faults_of self.old ≤ faults_of self.new }
        ensures link { inner self.new ≡ inner self.old }
    {
        self.faults.rise();
        Err(LinkFault::Failed)
    }
}

impl<L: Link> Link for FailingLink<L> {
    ghost use Rattle.pc_world.specs.FailingLink.{inner, faults_of};

    ghost is_told = { λ l. L.is_told (inner l) };

    ghost store = { λ l. L.store (inner l) };

    ghost faults = { faults_of };

    fn call(&mut self, frame: &[u8]) -> Result<Vec<u8>, LinkFault> {
        if self.faults.next_fails() {
            return self.fail();
        }
        let is_late = self.is_late();
        match self.link.call(frame) {
            Ok(reply) if !is_late => Ok(reply),
            Ok(_) => self.fail(),
            Err(LinkFault::Failed) => self.fail(),
            Err(LinkFault::NoMemory) => Err(LinkFault::NoMemory),
        }
    }
}
