//! A sender of a mailbox. Clauses see which mailbox it is of, its number, and the results that it put.

use crate::delivery::{Known, Letter};
use crossbeam_queue::SegPass;
use std::marker::Model;

/// One of the senders of a mailbox. It can be sent to another thread.
#[derive(Drop)]
pub struct Sender<T> {
    pub(crate) pass: SegPass<Letter<T>, Known<T>>,
    pub(crate) number: u32,
    /// How many results it put.
    pub(crate) count: u64,
}

impl<T> Model for Sender<T> {
    ghost use Rattle.std.specs.Prelude.{◌≡◌, None, length};
    ghost use Rattle.pc_mailbox.specs.Ends.{Sending, sending_code};
    ghost use Rattle.pc_mailbox.specs.Delivery.{put_of};
    ghost use Rattle.pc_mailbox.specs.declared.delivery.Known.TheVariants.{Sends};

    ghost Value = { Sending T };

    ghost coded = { sending_code T.code };

    ghost view = { λ s. record {
      mailbox = s.pass.web;
      number = s.number;
      put = put_of s.pass.me.view.client;
    } };

    ghost invariant = { λ s. (s.pass.me.view.client ≡ Sends s.number (put_of s.pass.me.view.client))
        × (s.count ≡ length (put_of s.pass.me.view.client))
        × (s.pass.me.hand ≡ None) × (s.pass.me.spare ≡ None) };
}
