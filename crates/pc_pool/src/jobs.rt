//! How many jobs each worker was given.

ghost use Rattle.std.specs.Prelude.{◌≡◌, ◌<◌, ◌∷◌, ◌+◌, ◌-◌, ◌^◌, List, length, replicate, slice_index, slice_set};
ghost use Rattle.pc_model.specs.declared.event.Event.{Event};
ghost use Rattle.pc_pool.specs.Jobs.{AreJobs};

use pc_model::{Event, Journal};

/// The jobs of so many workers by a journal, in the place of as many zeros.
pub(crate) fn counted(journal: &Journal, workers: u32, mut zeros: Vec<u64>) -> Vec<u64>
    requires { zeros.items ≡ replicate workers 0 }
    ensures { AreJobs workers journal.now.events result.items }
{
    count_jobs(journal, zeros.as_mut_slice());
    zeros
}

/// Counts the jobs of each worker by a journal, in the place of zeros.
fn count_jobs(journal: &Journal, jobs: &mut [u64])
    requires { jobs.old ≡ replicate (length jobs.old) 0 }
    ensures { AreJobs (length jobs.old) journal.now.events jobs.new }
{
    for event in journal.as_slice() {
        count_job(event, jobs);
    }
}

/// Counts one more event.
fn count_job(event: &Event, jobs: &mut [u64])
    requires { (h : List Event) × AreJobs (length jobs.old) h jobs.old × (length h < 2 ^ 64 - 1) }
    ensures { (h : List Event) → AreJobs (length jobs.old) h jobs.old
        → AreJobs (length jobs.old) (event.now ∷ h) jobs.new }
{
    match event {
        Event::Dispatch { worker, .. } => count_one(jobs, *worker as usize),
        _ => {}
    }
}

/// Counts one more at this place, if it is one.
fn count_one(jobs: &mut [u64], place: usize)
    requires { slice_index jobs.old place < 2 ^ 64 - 1 }
    ensures { jobs.new ≡ slice_set jobs.old place (slice_index jobs.old place + 1) }
{
    if place < jobs.len() {
        jobs[place] += 1;
    }
}
