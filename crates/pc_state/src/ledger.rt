//! What is kept of a history as a whole, of what is stored of each part, and of what runs and
//! failed there. `Counts` says which history that is.

ghost use Rattle.std.specs.Prelude.{◌≡◌, ◌+◌, ◌<◌, ◌≤◌, ◌^◌, ℕ, List, [], ◌∷◌, Some, true, false, IfOk, OnOk, length, nat_eq, unwrap_or, if◌then◌else◌, ◌==◌};
ghost use Rattle.std.specs.HashMap.{get, spare};
ghost use Rattle.pc_model.specs.declared.limits.TheConstants.{MAX_EVENTS};
ghost use Rattle.pc_model.specs.declared.event.Event.{Event};
ghost use Rattle.pc_model.specs.declared.event.Event.TheVariants.{Assign, Closed, Commit as Committed, CommitFailed, Crash, Dispatch, Done, Drain, Failure, Lost, Revoke, Success};
ghost use Rattle.pc_model.specs.Given.{Given};
ghost use Rattle.pc_model.specs.Jobs.{is_settled, open_jobs};
ghost use Rattle.pc_model.specs.Epochs.{epoch_of, is_held};
ghost use Rattle.pc_model.specs.Lawful.{IsLegal};
ghost use Rattle.pc_state.specs.Calls.{IsAtWork};
ghost use Rattle.pc_state.specs.OpenJobs.{out_of};
ghost use Rattle.pc_state.specs.Ledger.{Counts, HasPlace};

use std::alloc::{AllocError, Global};
use std::collections::HashMap;

/// What is kept of a history as a whole, and of what is stored, runs and failed of each part.
#[derive(Drop)]
pub struct Ledger {
    pub alloc: Global,
    pub parts: Vec<PartLedger>,
    /// How many successes there were.
    pub successes: u64,
    /// Whether a drain was begun since the last crash.
    pub drains: bool,
    /// Whether the history has ended.
    pub ended: bool,
}

/// Of a part that is held, what is stored of it for certain, what succeeded since, which of its jobs
/// are out, and what failed.
#[derive(Drop)]
pub struct PartLedger {
    /// The position of the last commit that was stored for certain.
    pub stored: u64,
    /// How many successes stand after the last assignment or commit, stored or failed.
    pub fresh: u64,
    /// Whether a success stands after the last commit that was stored for certain.
    pub unstored: bool,
    /// How many jobs of the present epoch are out.
    pub out: u32,
    /// How often each offset failed in the present epoch, if it did. There is a place for each job
    /// that is out.
    pub failed: HashMap<u64, u32>,
}

impl PartLedger {
    /// The part reads its log from this position on, and nothing of it runs, succeeded or failed.
    fn begun_at(alloc: Global, position: u64) -> PartLedger
        ensures stored { result.stored ≡ position }
        ensures fresh { result.fresh ≡ 0 }
        ensures unstored { result.unstored ≡ false }
        ensures out { result.out ≡ 0 }
        ensures failed { (o : ℕ) → unwrap_or (get nat_eq result.failed o) 0 ≡ 0 }
    {
        PartLedger {
            stored: position,
            fresh: 0,
            unstored: false,
            out: 0,
            failed: HashMap::new(alloc),
        }
    }
}

impl Ledger {
    /// No event yet. The only error is out of memory.
    pub fn new(alloc: Global, parts: u32) -> Result<Ledger, AllocError>
        ensures { IfOk result (λ ledger. (given : Given) → length given.logs ≡ parts
            → Counts given [] ledger) }
    {
        Ok(Ledger {
            alloc,
            parts: unheld(alloc, parts)?,
            successes: 0,
            drains: false,
            ended: false,
        })
    }

    /// The part is assigned, and reads its log from the position on.
    pub fn assign(&mut self, part: u32, position: u64)
        requires { part < length self.old.parts.items }
        ensures { (given : Given) (h : List Event) (epoch : ℕ) (text : List ℕ)
            → Counts given h self.old → IsLegal given h
            → Counts given (Assign part epoch position text ∷ h) self.new }
    {
        self.parts[part as usize] = PartLedger::begun_at(self.alloc, position);
    }

    /// A commit of the part was stored.
    pub fn commit(&mut self, part: u32, position: u64)
        requires { part < length self.old.parts.items }
        ensures { (given : Given) (h : List Event) (text : List ℕ) (size : ℕ)
            → Counts given h self.old → is_held h part ≡ true
            → Counts given (Committed part position text size ∷ h) self.new }
    {
        let state = &mut self.parts[part as usize];
        state.stored = position;
        state.fresh = 0;
        state.unstored = false;
    }

    /// A commit of the part failed, and may be stored or not.
    pub fn commit_failed(&mut self, part: u32)
        requires { part < length self.old.parts.items }
        ensures { (given : Given) (h : List Event) (position : ℕ) (text : List ℕ) (size : ℕ)
            → Counts given h self.old → is_held h part ≡ true
            → Counts given (CommitFailed part position text size ∷ h) self.new }
    {
        self.parts[part as usize].fresh = 0;
    }

    /// Makes a place for one more job of a held part. Returns how many jobs of it will be out then.
    /// The only error is out of memory.
    pub fn make_place(&mut self, part: u32) -> Result<u32, AllocError>
        requires { (given : Given) × (h : List Event) × Counts given h self.old
            × (part < length given.logs) × (is_held h part ≡ true)
            × (length (open_jobs h) ≤ MAX_EVENTS) }
        ensures out { IfOk result (λ n. (given : Given) (h : List Event) → Counts given h self.old
            → part < length given.logs → is_held h part ≡ true → n ≡ out_of h part + 1) }
        ensures place { OnOk result (HasPlace part self.new) }
        ensures stays { (given : Given) (h : List Event) → Counts given h self.old
            → Counts given h self.new }
    {
        let state = &mut self.parts[part as usize];
        let out = state.out + 1;
        state.failed.reserve(out as usize)?;
        Ok(out)
    }

    /// A job of a held part is dispatched, for which a place was made.
    pub fn dispatch(&mut self, part: u32)
        requires place { HasPlace part self.old }
        requires held { (given : Given) × (h : List Event) × Counts given h self.old
            × (part < length given.logs) × (is_held h part ≡ true)
            × (length (open_jobs h) ≤ MAX_EVENTS) }
        ensures { (given : Given) (h : List Event) (ticket worker offset epoch attempt : ℕ)
            → Counts given h self.old → part < length given.logs → is_held h part ≡ true
            → is_settled h ticket ≡ false → epoch ≡ epoch_of h part
            → Counts given (Dispatch ticket worker part offset epoch attempt ∷ h) self.new }
    {
        self.parts[part as usize].out += 1;
    }

    /// A job of the part's present epoch succeeded.
    pub fn succeed(&mut self, part: u32)
        requires { (given : Given) × (h : List Event) × (ticket : ℕ) × (offset : ℕ)
            × Counts given h self.old × IsLegal given h × IsAtWork h ticket part offset
            × (part < length given.logs) × (length h < 2 ^ 63) }
        ensures { (given : Given) (h : List Event) (ticket offset : ℕ) (answer : List ℕ)
            → Counts given h self.old → IsLegal given h → IsAtWork h ticket part offset
            → part < length given.logs → Counts given (Success ticket answer ∷ h) self.new }
    {
        let state = &mut self.parts[part as usize];
        state.fresh += 1;
        state.unstored = true;
        state.out -= 1;
        self.successes += 1;
    }

    /// A job of the part's present epoch failed at this offset.
    pub fn count_failure(&mut self, part: u32, offset: u64)
        requires { (given : Given) × (h : List Event) × (ticket : ℕ)
            × Counts given h self.old × IsLegal given h × IsAtWork h ticket part offset
            × (part < length given.logs) × (length h ≤ MAX_EVENTS) }
        ensures { (given : Given) (h : List Event) (ticket code ready : ℕ)
            → Counts given h self.old → IsLegal given h → IsAtWork h ticket part offset
            → part < length given.logs → Counts given (Failure ticket code ready ∷ h) self.new }
    {
        let state = &mut self.parts[part as usize];
        state.out -= 1;
        add_failure(&mut state.failed, offset);
    }

    /// A held part was given back or lost.
    pub fn release(&mut self, part: u32)
        requires { part < length self.old.parts.items }
        ensures lost { (given : Given) (h : List Event) (epoch : ℕ) → Counts given h self.old
            → Counts given (Lost part epoch ∷ h) self.new }
        ensures revoked { (given : Given) (h : List Event) (epoch : ℕ) → Counts given h self.old
            → Counts given (Revoke part epoch ∷ h) self.new }
    {
        self.parts[part as usize] = PartLedger::begun_at(self.alloc, 0);
    }

    /// A crash: nothing drains, and no part is held.
    pub fn crash(&mut self)
        ensures { (given : Given) (h : List Event) → Counts given h self.old
            → Counts given (Crash ∷ h) self.new }
    {
        forget_all(&mut self.parts, self.alloc);
        self.drains = false;
    }

    /// A drain begins.
    pub fn drain(&mut self)
        ensures { (given : Given) (h : List Event) → Counts given h self.old
            → Counts given (Drain ∷ h) self.new }
    {
        self.drains = true;
    }

    /// The history has ended.
    pub fn end(&mut self)
        ensures done { (given : Given) (h : List Event) → Counts given h self.old
            → Counts given (Done ∷ h) self.new }
        ensures closed { (given : Given) (h : List Event) → Counts given h self.old
            → Counts given (Closed ∷ h) self.new }
    {
        self.ended = true;
    }
}

/// What is kept of `count` parts, none of them held. The only error is out of memory.
fn unheld(alloc: Global, count: u32) -> Result<Vec<PartLedger>, AllocError>
    ensures { IfOk result (λ parts. length parts.items ≡ count) }
{
    let mut parts = Vec::with_capacity(alloc, count as usize)?;
    for _ in 0..count {
        parts.push(PartLedger::begun_at(alloc, 0))?;
    }
    Ok(parts)
}

/// Nothing is kept of any part.
fn forget_all(parts: &mut [PartLedger], alloc: Global) {
    for part in parts.iter_mut() {
        *part = PartLedger::begun_at(alloc, 0);
    }
}

/// The offset failed once more. There has to be a place for it.
fn add_failure(failed: &mut HashMap<u64, u32>, offset: u64)
    requires place { 0 < spare failed.old }
    requires fits { unwrap_or (get nat_eq failed.old offset) 0 ≤ MAX_EVENTS }
    ensures counted { (o : ℕ) → unwrap_or (get nat_eq failed.new o) 0
        ≡ (if offset == o then unwrap_or (get nat_eq failed.old offset) 0 + 1
        else unwrap_or (get nat_eq failed.old o) 0) }
    ensures place { spare failed.old ≤ spare failed.new + 1 }
{
    let before = failed.get(&offset).copied().unwrap_or(0);
    let Ok(_) = failed.insert(offset, before + 1) else {
        unreachable!();
    };
}
