//! The inbox of a mailbox. Clauses see which mailbox it is of, the results that were taken of each
//! sender, and how often none was found.

use crate::delivery::{Known, Letter};
use crossbeam_queue::SegPass;
use std::marker::Model;

/// The one receiver of a mailbox. It can be sent to another thread.
#[derive(Drop)]
pub struct Inbox<T> {
    pub(crate) pass: SegPass<Letter<T>, Known<T>>,
}

impl<T> Model for Inbox<T> {
    ghost use Rattle.std.specs.Prelude.{◌≡◌, None};
    ghost use Rattle.pc_mailbox.specs.Ends.{Receiving, receiving_code};
    ghost use Rattle.pc_mailbox.specs.Delivery.{taken_of, misses_of};
    ghost use Rattle.pc_mailbox.specs.declared.delivery.Known.TheVariants.{Receives};

    ghost Value = { Receiving T };

    ghost coded = { receiving_code T.code };

    ghost view = { λ i. record {
      mailbox = i.pass.web;
      taken = taken_of i.pass.me.view.client;
      misses = misses_of i.pass.me.view.client;
    } };

    ghost invariant = { λ i. (i.pass.me.view.client
        ≡ Receives (taken_of i.pass.me.view.client) (misses_of i.pass.me.view.client))
        × (i.pass.me.hand ≡ None) × (i.pass.me.spare ≡ None) };
}
