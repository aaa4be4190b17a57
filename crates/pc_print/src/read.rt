//! The event of a line.

ghost use Rattle.pc_print.specs.Reading.{Reads, assign_at, behind_word, commit_at, dispatch_at, end_at, ended, event_of, failure_at, poll_at, stale_at, stored, success_at, tick_at};

use crate::event_word::{EventWord, event_word};
use crate::fields::Fields;
use crate::line_fault::LineFault;
use pc_model::{Answer, Event, MapText};
use std::alloc::Global;

/// The event of a line, which is its words with exactly one space between them.
#[tactic(auto, unfolding(crate::specs::Reading::event_of_words))]
pub(crate) fn read_event(alloc: Global, line: &[u8]) -> Result<Event, LineFault>
    ensures { Reads (λ event. event) result (event_of line.now) }
{
    let mut fields = Fields::new(line);
    let text = fields.next().ok_or(LineFault::Bad)?;
    let word = event_word(text).ok_or(LineFault::Bad)?;
    let event = behind(alloc, word, &mut fields)?;
    match fields.next() {
        None => Ok(event),
        Some(_) => Err(LineFault::Bad),
    }
}

#[tactic(auto, unfolding(crate::specs::Reading::behind_word))]
fn behind(alloc: Global, word: EventWord, fields: &mut Fields<'_>) -> Result<Event, LineFault>
    ensures { Reads (λ event. (event, fields.new)) result (behind_word word fields.old) }
{
    match word {
        EventWord::Assign => assign(alloc, fields),
        EventWord::Poll => poll(fields),
        EventWord::Dispatch => dispatch(fields),
        EventWord::Success => success(alloc, fields),
        EventWord::Failure => failure(fields),
        EventWord::Stale => stale(fields),
        EventWord::Commit => commit(alloc, fields),
        EventWord::CommitFailed => commit_failed(alloc, fields),
        EventWord::Revoke => revoke(fields),
        EventWord::Lost => lost(fields),
        EventWord::Crash => Ok(Event::Crash),
        EventWord::Tick => tick(fields),
        EventWord::Drain => Ok(Event::Drain),
        EventWord::Done => Ok(Event::Done),
        EventWord::Closed => Ok(Event::Closed),
    }
}

#[tactic(auto, unfolding(crate::specs::Reading::assign_at))]
fn assign(alloc: Global, fields: &mut Fields<'_>) -> Result<Event, LineFault>
    ensures { Reads (λ event. (event, fields.new)) result (assign_at fields.old) }
{
    let part = fields.small()?;
    let epoch = fields.named_large(b"epoch")?;
    let position = fields.named_large(b"at")?;
    let map = fields.map(alloc)?;
    Ok(Event::Assign {
        part,
        epoch,
        position,
        map,
    })
}

#[tactic(auto, unfolding(crate::specs::Reading::poll_at))]
fn poll(fields: &mut Fields<'_>) -> Result<Event, LineFault>
    ensures { Reads (λ event. (event, fields.new)) result (poll_at fields.old) }
{
    let part = fields.small()?;
    let count = fields.named_small(b"count")?;
    let last = fields.named_large(b"last")?;
    Ok(Event::Poll { part, count, last })
}

#[tactic(auto, unfolding(crate::specs::Reading::dispatch_at))]
fn dispatch(fields: &mut Fields<'_>) -> Result<Event, LineFault>
    ensures { Reads (λ event. (event, fields.new)) result (dispatch_at fields.old) }
{
    let ticket = fields.large()?;
    let worker = fields.named_small(b"worker")?;
    let part = fields.named_small(b"part")?;
    let offset = fields.named_large(b"offset")?;
    let epoch = fields.named_large(b"epoch")?;
    let attempt = fields.named_small(b"attempt")?;
    Ok(Event::Dispatch {
        ticket,
        worker,
        part,
        offset,
        epoch,
        attempt,
    })
}

#[tactic(auto, unfolding(crate::specs::Reading::success_at))]
fn success(alloc: Global, fields: &mut Fields<'_>) -> Result<Event, LineFault>
    ensures { Reads (λ event. (event, fields.new)) result (success_at fields.old) }
{
    let ticket = fields.large()?;
    let bytes = fields.bytes(alloc)?;
    let answer = Answer::from_slice(alloc, &bytes)?;
    Ok(Event::Success { ticket, answer })
}

#[tactic(auto, unfolding(crate::specs::Reading::failure_at))]
fn failure(fields: &mut Fields<'_>) -> Result<Event, LineFault>
    ensures { Reads (λ event. (event, fields.new)) result (failure_at fields.old) }
{
    let ticket = fields.large()?;
    let code = fields.named_small(b"code")?;
    let ready_at = fields.named_large(b"ready")?;
    Ok(Event::Failure {
        ticket,
        code,
        ready_at,
    })
}

#[tactic(auto, unfolding(crate::specs::Reading::stale_at))]
fn stale(fields: &mut Fields<'_>) -> Result<Event, LineFault>
    ensures { Reads (λ event. (event, fields.new)) result (stale_at fields.old) }
{
    let ticket = fields.large()?;
    Ok(Event::Stale { ticket })
}

#[tactic(auto, unfolding(crate::specs::Reading::tick_at))]
fn tick(fields: &mut Fields<'_>) -> Result<Event, LineFault>
    ensures { Reads (λ event. (event, fields.new)) result (tick_at fields.old) }
{
    let now = fields.large()?;
    Ok(Event::Tick { now })
}

fn commit(alloc: Global, fields: &mut Fields<'_>) -> Result<Event, LineFault>
    ensures { Reads (λ event. (event, fields.new)) result (stored Event.Commit fields.old) }
{
    let (part, position, map, size) = stored(alloc, fields)?;
    Ok(Event::Commit {
        part,
        position,
        map,
        size,
    })
}

fn commit_failed(alloc: Global, fields: &mut Fields<'_>) -> Result<Event, LineFault>
    ensures { Reads (λ event. (event, fields.new)) result (stored Event.CommitFailed fields.old) }
{
    let (part, position, map, size) = stored(alloc, fields)?;
    Ok(Event::CommitFailed {
        part,
        position,
        map,
        size,
    })
}

fn revoke(fields: &mut Fields<'_>) -> Result<Event, LineFault>
    ensures { Reads (λ event. (event, fields.new)) result (ended Event.Revoke fields.old) }
{
    let (part, epoch) = ended(fields)?;
    Ok(Event::Revoke { part, epoch })
}

fn lost(fields: &mut Fields<'_>) -> Result<Event, LineFault>
    ensures { Reads (λ event. (event, fields.new)) result (ended Event.Lost fields.old) }
{
    let (part, epoch) = ended(fields)?;
    Ok(Event::Lost { part, epoch })
}

/// The part, position, map and size of a commit.
#[tactic(auto, unfolding(crate::specs::Reading::commit_at))]
fn stored(alloc: Global, fields: &mut Fields<'_>) -> Result<(u32, u64, MapText, u32), LineFault>
    ensures { Reads (λ found. (found, fields.new)) result (commit_at fields.old) }
{
    let part = fields.small()?;
    let position = fields.named_large(b"at")?;
    let map = fields.map(alloc)?;
    let size = fields.named_small(b"size")?;
    Ok((part, position, map, size))
}

/// The part and the epoch that ended.
#[tactic(auto, unfolding(crate::specs::Reading::end_at))]
fn ended(fields: &mut Fields<'_>) -> Result<(u32, u64), LineFault>
    ensures { Reads (λ found. (found, fields.new)) result (end_at fields.old) }
{
    Ok((fields.small()?, fields.named_large(b"epoch")?))
}
