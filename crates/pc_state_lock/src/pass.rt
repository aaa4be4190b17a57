//! A thread's right to take turns.

ghost use Rattle.std.specs.Prelude.{◌≡◌};

use crate::view::View;
use atomic_table::Seat;

/// A right to take turns at a lock. It takes no memory, and one that is dropped takes no more turns.
pub struct Pass<V> {
    pub(crate) seat: Seat<Option<V>, View<V>>,
}

impl<V> Pass<V> {
    /// The seat at the lock's table.
    pub(crate) fn into_seat(self) -> Seat<Option<V>, View<V>>
        ensures { result ≡ self.seat }
    {
        let Self { seat } = self;
        seat
    }
}

impl<V> Drop for Pass<V> {
    fn drop(self) {
        let Self { seat: _ } = self;
    }
}
