//! The lock's rule, and what each step on its table tells.

ghost use Rattle.std.specs.Prelude.{None};
ghost use Rattle.pc_state_lock.specs.Rule.{IsKept};
ghost use Rattle.pc_state_lock.specs.Views.{first_view, newcomer, joined, spent, drawn, looked, counted, passed, compared};

use crate::shown::Shown;
use crate::view::View;
use atomic_table::{Join, Play, Split, TableRule};
use std::snapshot::Snapshot;

/// The rule of the words `drawn`, `serving` and `events`, of the slot and of all views.
pub struct Law;

impl<V: Shown> TableRule<Option<V>, View<V>, Snapshot<V>> for Law {
    ghost holds = { λ key. IsKept V.heading V.history key.value };

    ghost first = { λ key. first_view V.history key.value };
}

/// Draws a ticket.
pub(crate) struct Draw;

impl<V> Play<Option<V>, View<V>> for Draw {
    ghost then = { drawn };
}

/// Looks which ticket is served, and takes the slot where it is its own.
pub(crate) struct Look;

impl<V: Shown> Play<Option<V>, View<V>> for Look {
    ghost then = { looked V.heading V.history };
}

/// Counts the events of the value in the slot, which are part of the shared history from here on.
pub(crate) struct Count;

impl<V: Shown> Play<Option<V>, View<V>> for Count {
    ghost then = { counted V.history };
}

/// Gives the slot back, and serves the next ticket.
pub(crate) struct Leave;

impl<V> Play<Option<V>, View<V>> for Leave {
    ghost then = { passed };
}

/// Compares the list of a pass that was joined with the pass's own.
pub(crate) struct Compare;

impl<V> Play<Option<V>, View<V>> for Compare {
    ghost then = { compared };
}

/// Makes a pass that has seen as much, and has taken no turn.
pub(crate) struct Cut;

impl<V> Split<View<V>> for Cut {
    ghost left = { λ v. v };

    ghost right = { newcomer };
}

/// Tells a pass what another has seen, and gives it the other's spans.
pub(crate) struct Both;

impl<V> Join<View<V>> for Both {
    ghost both = { joined };

    ghost spent = { spent };
}
