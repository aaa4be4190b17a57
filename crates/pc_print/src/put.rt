//! Events as lines of text.

ghost use Rattle.std.specs.Prelude.{◌≡◌, ◌++◌, ◌∷◌, [], OnOk, OnErr, codes};
ghost use Rattle.std.specs.Fmt.{decimal};
ghost use Rattle.pc_print.specs.Line.{commit_words, line_of, named, spaced};

use crate::word::Word::{Marked, Name, Number};
use crate::word::put_line;
use pc_model::{Answer, Event, MapText};
use std::alloc::AllocError;

/// Appends the line of an event, with its line feed. Out of memory, `out` is as before.
#[tactic(auto, unfolding(crate::specs::Line::line_of))]
pub fn put_event(out: &mut Vec<u8>, event: &Event) -> Result<(), AllocError>
    ensures ok { OnOk result (out.new.items ≡ out.old.items ++ line_of event.now) }
    ensures err { OnErr result (out.new.items ≡ out.old.items) }
{
    match event {
        Event::Assign {
            part,
            epoch,
            position,
            map,
        } => put_assign(out, *part, *epoch, *position, map),
        Event::Poll { part, count, last } => put_poll(out, *part, *count, *last),
        Event::Dispatch {
            ticket,
            worker,
            part,
            offset,
            epoch,
            attempt,
        } => put_dispatch(out, *ticket, *worker, *part, *offset, *epoch, *attempt),
        Event::Success { ticket, answer } => put_success(out, *ticket, answer),
        Event::Failure {
            ticket,
            code,
            ready_at,
        } => put_failure(out, *ticket, *code, *ready_at),
        Event::Stale { ticket } => put_line(out, b"stale", &[Number(*ticket)]),
        Event::Commit {
            part,
            position,
            map,
            size,
        } => put_commit(out, b"commit", *part, *position, map, *size),
        Event::CommitFailed {
            part,
            position,
            map,
            size,
        } => put_commit(out, b"commit-failed", *part, *position, map, *size),
        Event::Revoke { part, epoch } => put_end(out, b"revoke", *part, *epoch),
        Event::Lost { part, epoch } => put_end(out, b"lost", *part, *epoch),
        Event::Crash => put_line(out, b"crash", &[]),
        Event::Tick { now } => put_line(out, b"tick", &[Number(*now)]),
        Event::Drain => put_line(out, b"drain", &[]),
        Event::Done => put_line(out, b"done", &[]),
        Event::Closed => put_line(out, b"closed", &[]),
    }
}

#[tactic(auto, unfolding(crate::specs::Line::line_of))]
fn put_assign(
    out: &mut Vec<u8>,
    part: u32,
    epoch: u64,
    position: u64,
    map: &MapText,
) -> Result<(), AllocError>
    ensures ok { OnOk result (out.new.items
        ≡ out.old.items ++ line_of (Event.Assign part epoch position map.now)) }
    ensures err { OnErr result (out.new.items ≡ out.old.items) }
{
    let words = [
        Number(u64::from(part)),
        Name(b"epoch"),
        Number(epoch),
        Name(b"at"),
        Number(position),
        Name(b"map"),
        Marked(map.as_str().as_bytes()),
    ];
    put_line(out, b"assign", &words)
}

#[tactic(auto, unfolding(crate::specs::Line::line_of))]
fn put_poll(out: &mut Vec<u8>, part: u32, count: u32, last: u64) -> Result<(), AllocError>
    ensures ok { OnOk result (out.new.items
        ≡ out.old.items ++ line_of (Event.Poll part count last)) }
    ensures err { OnErr result (out.new.items ≡ out.old.items) }
{
    let words = [
        Number(u64::from(part)),
        Name(b"count"),
        Number(u64::from(count)),
        Name(b"last"),
        Number(last),
    ];
    put_line(out, b"poll", &words)
}

#[tactic(auto, unfolding(crate::specs::Line::line_of))]
fn put_dispatch(
    out: &mut Vec<u8>,
    ticket: u64,
    worker: u32,
    part: u32,
    offset: u64,
    epoch: u64,
    attempt: u32,
) -> Result<(), AllocError>
    ensures ok { OnOk result (out.new.items
        ≡ out.old.items ++ line_of (Event.Dispatch ticket worker part offset epoch attempt)) }
    ensures err { OnErr result (out.new.items ≡ out.old.items) }
{
    let words = [
        Number(ticket),
        Name(b"worker"),
        Number(u64::from(worker)),
        Name(b"part"),
        Number(u64::from(part)),
        Name(b"offset"),
        Number(offset),
        Name(b"epoch"),
        Number(epoch),
        Name(b"attempt"),
        Number(u64::from(attempt)),
    ];
    put_line(out, b"dispatch", &words)
}

#[tactic(auto, unfolding(crate::specs::Line::line_of))]
fn put_success(out: &mut Vec<u8>, ticket: u64, answer: &Answer) -> Result<(), AllocError>
    ensures ok { OnOk result (out.new.items
        ≡ out.old.items ++ line_of (Event.Success ticket answer.now)) }
    ensures err { OnErr result (out.new.items ≡ out.old.items) }
{
    let words = [Number(ticket), Marked(answer.as_slice())];
    put_line(out, b"success", &words)
}

#[tactic(auto, unfolding(crate::specs::Line::line_of))]
fn put_failure(out: &mut Vec<u8>, ticket: u64, code: u32, ready_at: u64) -> Result<(), AllocError>
    ensures ok { OnOk result (out.new.items
        ≡ out.old.items ++ line_of (Event.Failure ticket code ready_at)) }
    ensures err { OnErr result (out.new.items ≡ out.old.items) }
{
    let words = [
        Number(ticket),
        Name(b"code"),
        Number(u64::from(code)),
        Name(b"ready"),
        Number(ready_at),
    ];
    put_line(out, b"failure", &words)
}

fn put_commit(
    out: &mut Vec<u8>,
    name: &[u8],
    part: u32,
    position: u64,
    map: &MapText,
    size: u32,
) -> Result<(), AllocError>
    ensures ok { OnOk result (out.new.items ≡ out.old.items
        ++ (spaced (name.now ∷ commit_words part position map.now size) ++ 10 ∷ [])) }
    ensures err { OnErr result (out.new.items ≡ out.old.items) }
{
    let words = [
        Number(u64::from(part)),
        Name(b"at"),
        Number(position),
        Name(b"map"),
        Marked(map.as_str().as_bytes()),
        Name(b"size"),
        Number(u64::from(size)),
    ];
    put_line(out, name, &words)
}

fn put_end(out: &mut Vec<u8>, name: &[u8], part: u32, epoch: u64) -> Result<(), AllocError>
    ensures ok { OnOk result (out.new.items ≡ out.old.items
        ++ (spaced (name.now ∷ decimal part ∷ named (codes "epoch") epoch) ++ 10 ∷ [])) }
    ensures err { OnErr result (out.new.items ≡ out.old.items) }
{
    let words = [Number(u64::from(part)), Name(b"epoch"), Number(epoch)];
    put_line(out, name, &words)
}
