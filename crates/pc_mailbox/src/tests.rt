//! The order of what is taken, with one thread and with five.

ghost use Rattle.std.specs.Prelude.{◌≡◌, ◌<◌, ◌≤◌, ◌+◌, [], length, All, OnOk};

use crate::{Inbox, Mailbox, Sender};
use pc_batch::{RecordRef, read_batch};
use pc_model::{FailRules, Outcome, Rules, Work};
use pc_task::{Finished, Job, RuleTask, Task};
use std::alloc::{AllocError, Global};
use std::sync::Wait;
use std::test::Fail;
use std::thread;
use std::thread::Threads;

// One batch with the records (0, "a", "x"), (1, "b", "yy") and (2, "a", "zzz").
const THREE_RECORDS: [u8; 91] = [
    0x00, 0x00, 0x00, 0x00, 0x00, 0x00, 0x00, 0x00, //
    0x00, 0x00, 0x00, 0x4F, 0x00, 0x00, 0x00, 0x00, 0x02, 0xD6, 0xFC, 0x11, 0xEE, //
    0x00, 0x00, 0x00, 0x00, 0x00, 0x02, //
    0x00, 0x00, 0x00, 0x00, 0x00, 0x00, 0x00, 0x00, //
    0x00, 0x00, 0x00, 0x00, 0x00, 0x00, 0x00, 0x00, //
    0xFF, 0xFF, 0xFF, 0xFF, 0xFF, 0xFF, 0xFF, 0xFF, //
    0xFF, 0xFF, 0xFF, 0xFF, 0xFF, 0xFF, 0x00, 0x00, 0x00, 0x03, //
    0x10, 0x00, 0x00, 0x00, 0x02, 0x61, 0x02, 0x78, 0x00, //
    0x12, 0x00, 0x00, 0x02, 0x02, 0x62, 0x04, 0x79, 0x79, 0x00, //
    0x14, 0x00, 0x00, 0x04, 0x02, 0x61, 0x06, 0x7A, 0x7A, 0x7A, 0x00,
];

/// The result of the record under a ticket.
fn result_of<'a>(
    alloc: Global,
    entry: RecordRef<'a>,
    rules: &'a Rules,
    ticket: u64,
) -> Result<Finished<'a>, AllocError> {
    let job = Job {
        ticket,
        worker: 0,
        part: 0,
        epoch: 1,
        attempt: 1,
        entry,
        rules,
        task: &RuleTask,
    };
    match RuleTask.call(alloc, &job) {
        Ok(outcome) => Ok(job.finish(outcome)),
        Err(error) => {
            job.abandon();
            Err(error)
        }
    }
}

/// Puts the result of the record under a ticket, and says whether that went.
fn put_ticket<'a, R: Wait>(
    rt: &R,
    alloc: Global,
    mailbox: &Mailbox<Finished<'a>>,
    sender: &mut Sender<Finished<'a>>,
    entry: RecordRef<'a>,
    rules: &'a Rules,
    ticket: u64,
) -> Result<bool, AllocError>
    requires own { sender.old.mailbox ≡ mailbox.now }
    requires few { length sender.old.put < 9 }
    ensures own { OnOk result (sender.new.mailbox ≡ mailbox.now) }
    ensures one_more { OnOk result (length sender.new.put ≤ length sender.old.put + 1) }
{
    let done = result_of(alloc, entry, rules, ticket)?;
    let put = mailbox.put(rt, sender, done);
    Ok(put.is_ok())
}

/// The ticket of the result that is taken.
fn taken_ticket<'a, R: Wait>(
    rt: &R,
    mailbox: &Mailbox<Finished<'a>>,
    inbox: &mut Inbox<Finished<'a>>,
) -> Option<u64>
    requires { inbox.old.mailbox ≡ mailbox.now }
    ensures { inbox.new.mailbox ≡ mailbox.now }
{
    match mailbox.take(rt, inbox) {
        Some(done) => Some(done.ticket),
        None => None,
    }
}

/// Sender 1 puts the result of ticket 3, then sender 0 those of 1 and 2. They are taken in that
/// order, and the fourth take finds none.
#[test]
fn results_are_taken_in_the_order_in_which_they_were_put(rt: HostRuntime) -> Result<(), Fail> {
    let rules = Rules {
        work: Work::Length,
        fails: FailRules::from_slice(rt.alloc(), &[])?,
    };
    let batch = read_batch(&THREE_RECORDS, 0).map_err(|_| AllocError)?;
    let entry = batch.records().next().ok_or("a record")?;
    let (mailbox, mut senders, mut inbox) = Mailbox::new(rt.alloc(), 2)?;
    let mut second = senders.pop().ok_or("sender 1")?;
    let mut first = senders.pop().ok_or("sender 0")?;
    let third = put_ticket(&rt, rt.alloc(), &mailbox, &mut second, entry, &rules, 3)?;
    let one = put_ticket(&rt, rt.alloc(), &mailbox, &mut first, entry, &rules, 1)?;
    let two = put_ticket(&rt, rt.alloc(), &mailbox, &mut first, entry, &rules, 2)?;
    assert!(rt; third && one && two);
    for ticket in [Some(3), Some(1), Some(2), None] {
        assert_eq!(rt; taken_ticket(&rt, &mailbox, &mut inbox), ticket);
    }
    let _first = mailbox.compare(&rt, &mut inbox, first);
    assert_eq!(rt; taken_ticket(&rt, &mailbox, &mut inbox), None);
    Ok(())
}

/// How many results each of four threads puts.
const RESULTS: u64 = 10_000;

/// A sender for a thread of its own.
#[derive(Drop)]
struct Porter<'m> {
    mailbox: &'m Mailbox<u64>,
    sender: Sender<u64>,
    ghost own: { sender.mailbox ≡ mailbox.now },
    ghost fresh: { sender.put ≡ [] },
}

/// Puts the results `number * RESULTS` to `number * RESULTS + RESULTS - 1`.
fn send<R: Wait>(rt: &R, porter: Porter<'_>, number: u64)
    requires { number < 4 }
{
    let Porter {
        mailbox,
        mut sender,
    } = porter;
    let mut next = 0;
    for _ in rt.forever() {
        if next >= RESULTS {
            break;
        }
        if mailbox
            .put(rt, &mut sender, number * RESULTS + next)
            .is_ok()
        {
            next += 1;
        }
    }
}

/// Takes all results.
fn receive<R: Wait>(
    rt: &R,
    alloc: Global,
    mailbox: &Mailbox<u64>,
    mut inbox: Inbox<u64>,
) -> Result<Vec<u64>, AllocError>
    requires { inbox.mailbox ≡ mailbox.now }
{
    let mut taken = Vec::new(alloc);
    for _ in rt.forever() {
        if taken.len() as u64 >= 4 * RESULTS {
            break;
        }
        match mailbox.take(rt, &mut inbox) {
            Some(done) => taken.push(done)?,
            None => thread::yield_now(),
        }
    }
    Ok(taken)
}

/// Whether all results of the four senders are there, those of each in its order.
fn are_all_in_order(taken: &[u64]) -> bool {
    let mut next = [0u64; 4];
    for done in taken {
        let sender = (*done / RESULTS) as usize;
        if sender >= 4 || next[sender] != *done % RESULTS {
            return false;
        }
        next[sender] += 1;
    }
    next == [RESULTS; 4]
}

/// A sender for a thread of its own, from those that are left.
fn next_porter<'m>(mailbox: &'m Mailbox<u64>, senders: &mut Vec<Sender<u64>>) -> Option<Porter<'m>>
    requires { All (λ s. (s.mailbox ≡ mailbox.now) × (s.put ≡ [])) senders.old.items }
    ensures { All (λ s. (s.mailbox ≡ mailbox.now) × (s.put ≡ [])) senders.new.items }
{
    let sender = senders.pop()?;
    Some(Porter { mailbox, sender })
}

#[test]
fn each_result_of_four_threads_is_taken_once_in_its_order(rt: HostRuntime) -> Result<(), Fail> {
    let (mailbox, mut senders, inbox) = Mailbox::new(rt.alloc(), 4)?;
    let (lent, rt_lent) = (&mailbox, &rt);
    let a = next_porter(lent, &mut senders).ok_or("sender 3")?;
    let b = next_porter(lent, &mut senders).ok_or("sender 2")?;
    let c = next_porter(lent, &mut senders).ok_or("sender 1")?;
    let d = next_porter(lent, &mut senders).ok_or("sender 0")?;
    let alloc = rt.alloc();
    let (taken, _) = thread::join(
        &rt,
        move || receive(rt_lent, alloc, lent, inbox),
        move || {
            thread::join(
                rt_lent,
                move || thread::join(
                    rt_lent,
                    move || send(rt_lent, a, 3),
                    move || send(rt_lent, b, 2),
                ),
                move || thread::join(
                    rt_lent,
                    move || send(rt_lent, c, 1),
                    move || send(rt_lent, d, 0),
                ),
            )
        },
    );
    assert!(rt; are_all_in_order(&taken?));
    Ok(())
}
