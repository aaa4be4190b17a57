//! The rule of the queue: of each sender, what was taken and then what the queue holds is what it put.

use crossbeam_queue::protocol::{Join, Lesson, Outcome, Protocol, Split};
use std::collections::LinkedList;

/// A result on its way.
#[derive(Drop)]
pub(crate) struct Letter<T> {
    /// The sender's number.
    pub sender: u32,
    /// How many results the sender put before this one.
    pub place: u64,
    pub value: T,
}

/// What a pass of the queue knows. No value of it is made.
pub(crate) enum Known<T> {
    /// A sender's number, and the results that it put.
    Sends {
        number: u32,
        put: LinkedList<T>,
    },
    /// Of each sender the results that were taken, and how often none was found.
    Receives {
        taken: LinkedList<LinkedList<T>>,
        misses: u64,
    },
    /// Both, while a sender is compared with the inbox.
    Joins {
        number: u32,
        put: LinkedList<T>,
        taken: LinkedList<LinkedList<T>>,
        misses: u64,
    },
    /// Nothing.
    Spare,
}

/// The rule of the queue.
pub(crate) struct Delivery;

impl<T> Protocol<Letter<T>, Known<T>> for Delivery {
    ghost use Rattle.std.specs.Prelude.{[]};
    ghost use Rattle.pc_mailbox.specs.Delivery.{Delivers};
    ghost use Rattle.pc_mailbox.specs.declared.delivery.Known.TheVariants.{Receives};

    ghost holds = { Delivers };

    ghost first = { Receives [] 0 };
}

/// A new sender, with the next number.
pub(crate) struct Opens;

impl<T> Split<Known<T>> for Opens {
    ghost use Rattle.pc_mailbox.specs.Delivery.{with_sender, new_sender};

    ghost left = { with_sender };

    ghost right = { new_sender };
}

/// A sender puts a result.
pub(crate) struct Puts;

impl<T> Outcome<Letter<T>, Known<T>> for Puts {
    ghost use Rattle.std.specs.Prelude.{◌≡◌};
    ghost use Rattle.pc_mailbox.specs.Delivery.{with_put};

    ghost then = { λ v x w. w ≡ with_put v x.value };
}

/// The inbox takes a result.
pub(crate) struct Takes;

impl<T> Outcome<Letter<T>, Known<T>> for Takes {
    ghost use Rattle.pc_mailbox.specs.Delivery.{TakesNext};

    ghost then = { TakesNext };
}

impl<T> Lesson<Letter<T>, Known<T>> for Takes {
    ghost use Rattle.std.specs.Prelude.{⊤};

    ghost fact = { λ v items. ⊤ };
}

/// The inbox found no result.
pub(crate) struct Misses;

impl<T> Split<Known<T>> for Misses {
    ghost use Rattle.pc_mailbox.specs.Delivery.{with_miss};
    ghost use Rattle.pc_mailbox.specs.declared.delivery.Known.TheVariants.{Spare};

    ghost left = { with_miss };

    ghost right = { λ v. Spare };
}

/// A sender and the inbox are compared.
pub(crate) struct Compares;

impl<T> Join<Known<T>> for Compares {
    ghost use Rattle.pc_mailbox.specs.Delivery.{joined};
    ghost use Rattle.pc_mailbox.specs.declared.delivery.Known.TheVariants.{Spare};

    ghost both = { joined };

    ghost spent = { Spare };
}

impl<T> Split<Known<T>> for Compares {
    ghost use Rattle.pc_mailbox.specs.Delivery.{inbox_of, sender_of};

    ghost left = { inbox_of };

    ghost right = { sender_of };
}

impl<T> Lesson<Letter<T>, Known<T>> for Compares {
    ghost use Rattle.pc_mailbox.specs.Delivery.{Agrees};

    ghost fact = { λ v items. Agrees v };
}
