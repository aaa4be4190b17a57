//! The mailbox. Clauses see which one it is.

ghost use Rattle.std.specs.Prelude.{◌≡◌, ◌↔◌, ◌≤◌, ◌<◌, ◌^◌, ℕ, [], ◌∷◌, ◌++◌, None, length, replicate, vec_len, slice_get, Some, IfOk, IfErr, IfSome, OnOk, OnErr};
ghost use Rattle.pc_mailbox.specs.Delivery.{of_sender, IsFront};
ghost use Rattle.pc_mailbox.specs.Ends.{TakenNext, Missed};

use crate::delivery::{Compares, Delivery, Known, Letter, Misses, Opens, Puts, Takes};
use crate::inbox::Inbox;
use crate::sender::Sender;
use crossbeam_queue::RuledSegQueue;
use std::alloc::{AllocError, Global};
use std::marker::Model;
use std::sync::Wait;

/// A queue of results, shared by its senders and its inbox.
pub struct Mailbox<T> {
    queue: RuledSegQueue<Letter<T>, Known<T>, Delivery>,
}

impl<T> Model for Mailbox<T> {
    ghost use Rattle.pc_mailbox.specs.Ends.{Name};

    ghost Value = { Name };

    ghost view = { λ m. m.queue.web };
}

impl<T: Drop> Mailbox<T> {
    /// A mailbox with its senders, whose numbers are their places from 0 on, and its inbox. The only
    /// error is out of memory.
    pub fn new(
        alloc: Global,
        senders: u32,
    ) -> Result<(Mailbox<T>, Vec<Sender<T>>, Inbox<T>), AllocError>
        requires some { 0 < senders }
        requires few { senders ≤ 256 }
        ensures senders { IfOk result (λ m. vec_len m.1 ≡ senders) }
        ensures sender { IfOk result (λ m. (k : ℕ) → k < senders
            → slice_get m.1.items k ≡ Some (record { mailbox = m.0; number = k; put = [] })) }
        ensures inbox { IfOk result (λ m.
            m.2 ≡ record { mailbox = m.0; taken = replicate senders []; misses = 0 }) }
    {
        let mut ends = Vec::with_capacity(alloc, senders as usize)?;
        let (queue, mut pass) = RuledSegQueue::with_rule(alloc)?;
        let mailbox = Mailbox { queue };
        for number in 0..senders {
            let own = mailbox.queue.another::<Opens>(&mut pass);
            ends.push(Sender {
                pass: own,
                number,
                count: 0,
            })?;
        }
        Ok((mailbox, ends, Inbox { pass }))
    }

    /// Puts a result at the end of what the sender put. Out of memory it returns the result, and
    /// nothing changes. It may wait for another thread that puts or takes.
    pub fn put<R: Wait>(&self, rt: &R, sender: &mut Sender<T>, done: T) -> Result<(), T>
        requires own { sender.old.mailbox ≡ self.now }
        requires few { length sender.old.put < 2 ^ 40 }
        ensures put { OnOk result (sender.new
            ≡ record sender.old { put = sender.old.put ++ done ∷ [] }) }
        ensures back { IfErr result (λ back. back ≡ done) }
        ensures stays { OnErr result (sender.new ≡ sender.old) }
    {
        let letter = Letter {
            sender: sender.number,
            place: sender.count,
            value: done,
        };
        match self.queue.push_as::<Puts, R>(rt, &mut sender.pass, letter) {
            Ok(()) => {
                sender.count += 1;
                Ok(())
            }
            Err(letter) => Err(value_of(letter)),
        }
    }

    /// Takes the next result of one of the senders: the one that it put after those that were taken of
    /// it. Returns None where no result was found, and counts a miss. Takes no memory. It may wait for another thread that
    /// puts.
    pub fn take<R: Wait>(&self, rt: &R, inbox: &mut Inbox<T>) -> Option<T>
        requires { inbox.old.mailbox ≡ self.now }
        ensures misses { (result ≡ None) ↔ (inbox.old.misses < inbox.new.misses) }
        ensures missed { result ≡ None → Missed inbox.old inbox.new }
        ensures next { IfSome result (λ done. TakenNext inbox.old inbox.new done) }
    {
        match self.next_letter(rt, inbox) {
            Some(letter) => Some(value_of(letter)),
            None => {
                self.count_miss(inbox);
                None
            }
        }
    }

    /// Compares a sender with the inbox, and changes nothing: what was taken of the sender is the
    /// front of what it put. It may wait for another thread that puts or takes.
    pub fn compare<R: Wait>(&self, rt: &R, inbox: &mut Inbox<T>, sender: Sender<T>) -> Sender<T>
        requires inbox { inbox.old.mailbox ≡ self.now }
        requires sender { sender.mailbox ≡ self.now }
        ensures front { IsFront (of_sender inbox.old.taken sender.number) sender.put }
        ensures stays { inbox.new ≡ inbox.old }
        ensures same { result ≡ sender }
    {
        let Sender {
            pass,
            number,
            count,
        } = sender;
        self.queue.absorb::<Compares>(&mut inbox.pass, pass);
        self.queue.len_as::<Compares, R>(rt, &mut inbox.pass);
        let pass = self.queue.another::<Compares>(&mut inbox.pass);
        Sender {
            pass,
            number,
            count,
        }
    }

    /// The letter at the front of the queue, where there is one.
    fn next_letter<R: Wait>(&self, rt: &R, inbox: &mut Inbox<T>) -> Option<Letter<T>>
        requires { inbox.old.mailbox ≡ self.now }
        ensures stays { result ≡ None → inbox.new ≡ inbox.old }
        ensures next { IfSome result (λ letter. TakenNext inbox.old inbox.new letter.value) }
    {
        self.queue.pop_as::<Takes, R>(rt, &mut inbox.pass)
    }

    /// Counts a miss.
    fn count_miss(&self, inbox: &mut Inbox<T>)
        requires { inbox.old.mailbox ≡ self.now }
        ensures { Missed inbox.old inbox.new }
    {
        self.queue.another::<Misses>(&mut inbox.pass);
    }
}

impl<T: Drop> Drop for Mailbox<T> {
    fn drop(self) {
        let Self { queue } = self;
        queue.destroy();
    }
}

/// The result of a letter.
fn value_of<T>(letter: Letter<T>) -> T
    ensures { result ≡ letter.value }
{
    let Letter {
        sender: _,
        place: _,
        value,
    } = letter;
    value
}
