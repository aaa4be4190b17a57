//! What the engine keeps beside its journal. `Knows` says which history it belongs to; each change
//! says which event it belongs to.

ghost use Rattle.std.specs.Prelude.{◌≡◌, ◌+◌, ◌≤◌, ◌<◌, ◌^◌, ◌&&◌, ◌==◌, ℕ, List, [], ◌∷◌, Option, true, false, None, Some, IfOk, IfSome, length};
ghost use Rattle.pc_model.specs.declared.event.Event.{Event};
ghost use Rattle.pc_model.specs.declared.event.Event.TheVariants.{Assign, Closed, Commit as Committed, CommitFailed, Done, Drain};
ghost use Rattle.pc_model.specs.Given.{Given, has_log, records_of};
ghost use Rattle.pc_model.specs.Jobs.{open_jobs};
ghost use Rattle.pc_model.specs.Epochs.{epoch_of, is_held};
ghost use Rattle.pc_model.specs.Lawful.{IsLegal};
ghost use Rattle.pc_model.specs.declared.commit.Commit.{Commit};
ghost use Rattle.pc_partition.specs.Window.{StandsFor};
ghost use Rattle.pc_commit.specs.Resume.{resumed_marks};
ghost use Rattle.pc_state.specs.State.{Knows, KnowsHeld, MayCome, PartKeeps};

use crate::jobs::OpenJobs;
use crate::ledger::Ledger;
use crate::part::{self, HeldPart, PartState};
use crate::unread::Unread;
use pc_broker_log::BrokerLogs;
use pc_model::Setup;
use pc_partition::PartitionState;
use pc_retry::RetryQueue;
use pc_shards::Shards;
use std::alloc::{AllocError, Global};

/// The parts, the shards, and the jobs that are out.
#[derive(Drop)]
pub struct State<'a> {
    pub setup: &'a Setup,
    pub logs: &'a BrokerLogs<'a>,
    pub parts: Vec<PartState<'a>>,
    pub shards: Shards<'a>,
    /// The records that failed and wait for their time. There is a place for each job that is out,
    /// and one in its part's.
    pub retries: RetryQueue,
    pub jobs: OpenJobs,
    /// The number of the last tick, or 0.
    pub clock: u64,
    /// How many jobs were dispatched.
    pub dispatched: u64,
    /// The part of the last dispatch.
    pub last: Option<u32>,
    /// What is kept of the history as a whole, and of what is stored of each part.
    pub ledger: Ledger,
}

impl<'a> State<'a> {
    /// No event yet. The only error is out of memory.
    pub fn new(
        alloc: Global,
        setup: &'a Setup,
        logs: &'a BrokerLogs<'a>,
    ) -> Result<State<'a>, AllocError>
        ensures knows { IfOk result (λ state. (given : Given) → given.setup ≡ setup.now
            → given.logs ≡ logs.now → Knows given [] state) }

        // With a state or without one, no event is a legal history.
        ensures legal { (given : Given) → given.logs ≡ logs.now → IsLegal given [] }
    {
        Ok(State {
            setup,
            logs,
            parts: part::unheld(alloc, logs.parts())?,
            shards: Shards::new(alloc, setup.settings.order),
            retries: RetryQueue::new(alloc),
            jobs: OpenJobs::new(alloc),
            clock: 0,
            dispatched: 0,
            last: None,
            ledger: Ledger::new(alloc, logs.parts())?,
        })
    }

    /// How many jobs are out.
    pub fn outstanding(&self) -> u64
        ensures { (given : Given) (h : List Event) → Knows given h self.now
            → result ≡ length (open_jobs h) }
    {
        self.jobs.len()
    }

    /// What is kept of a part that has a log.
    pub fn part(&self, part: u32) -> Option<&PartState<'a>>
        ensures knows { IfSome result (λ state. (given : Given) (h : List Event)
            → Knows given h self.now
            → has_log given part ≡ true × PartKeeps given h part state.now) }
        ensures unknown { result ≡ None → (given : Given) (h : List Event) → Knows given h self.now
            → has_log given part ≡ false }
    {
        let _has_log = self.logs.log(part)?;
        self.parts.as_slice().get(part as usize)
    }

    /// What is known of a part that is held.
    pub fn held(&self, part: u32) -> Option<&HeldPart<'a>>
        ensures knows { IfSome result (λ held. (given : Given) (h : List Event)
            → Knows given h self.now
            → (is_held h part ≡ true) × KnowsHeld given h part held.now) }
        ensures free { result ≡ None → (given : Given) (h : List Event) → Knows given h self.now
            → is_held h part ≡ false }
    {
        self.part(part)?.held.as_ref()
    }

    /// Whether a part is held in this epoch.
    pub fn is_current(&self, part: u32, epoch: u64) -> bool
        ensures { (given : Given) (h : List Event) → Knows given h self.now
            → result ≡ (is_held h part && (epoch == epoch_of h part)) }
    {
        match self.part(part) {
            Some(state) => state.held.is_some() && epoch == state.epoch,
            None => false,
        }
    }

    /// The part is assigned: it reads its log from the position on, and the window is what the
    /// stored commit says of its records. Returns the epoch that begins.
    pub fn assign(&mut self, part: u32, position: u64, window: PartitionState) -> u64
        requires { (given : Given) × (h : List Event) × Knows given h self.old
            × (has_log given part ≡ true) }
        ensures epoch { (given : Given) (h : List Event) → Knows given h self.old
            → has_log given part ≡ true → result ≡ epoch_of h part + 1 }
        ensures knows { (given : Given) (h : List Event) (stored : Commit) → Knows given h self.old
            → stored.position ≡ position
            → StandsFor window.window position 0 (resumed_marks stored (records_of given part))
            → MayCome given (Assign part (epoch_of h part + 1) position stored.map) h
            → Knows given (Assign part (epoch_of h part + 1) position stored.map ∷ h) self.new }
    {
        let Some(rest) = self.logs.cursor(part, position) else {
            unreachable!();
        };
        self.ledger.assign(part, position);
        let state = &mut self.parts[part as usize];
        state.epoch += 1;
        state.held = Some(HeldPart {
            window,
            rest: Unread::new(rest),
            size: None,
        });
        state.epoch
    }

    /// A commit of this position and size was stored of a held part.
    pub fn committed(&mut self, part: u32, position: u64, size: u32)
        requires { (given : Given) × (h : List Event) × Knows given h self.old
            × (is_held h part ≡ true) }
        ensures { (given : Given) (h : List Event) (text : List ℕ)
            → Knows given h self.old → MayCome given (Committed part position text size) h
            → Knows given (Committed part position text size ∷ h) self.new }
    {
        self.ledger.commit(part, position);
        self.parts[part as usize].note_size(size);
    }

    /// A commit of this size failed of a held part.
    pub fn commit_failed(&mut self, part: u32, size: u32)
        requires { (given : Given) × (h : List Event) × Knows given h self.old
            × (is_held h part ≡ true) }
        ensures { (given : Given) (h : List Event) (position : ℕ) (text : List ℕ)
            → Knows given h self.old → MayCome given (CommitFailed part position text size) h
            → Knows given (CommitFailed part position text size ∷ h) self.new }
    {
        self.ledger.commit_failed(part);
        self.parts[part as usize].note_size(size);
    }

    /// A drain begins. Takes no memory.
    pub fn drain(&mut self)
        ensures { (given : Given) (h : List Event) → Knows given h self.old → MayCome given Drain h
            → Knows given (Drain ∷ h) self.new }
    {
        self.ledger.drain();
    }

    /// The history has ended. Takes no memory.
    pub fn end(&mut self)
        ensures done { (given : Given) (h : List Event) → Knows given h self.old
            → MayCome given Done h → Knows given (Done ∷ h) self.new }
        ensures closed { (given : Given) (h : List Event) → Knows given h self.old
            → MayCome given Closed h → Knows given (Closed ∷ h) self.new }
    {
        self.ledger.end();
    }
}
