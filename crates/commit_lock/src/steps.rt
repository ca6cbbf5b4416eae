//! The atomic steps of a seat, and what each tells the seat that takes it.
use crate::lock::{Grows, SeatView};
use atomic_table::{Join, Play, Split};

/// Sets the last bit of the turn word. The turn was free if the old word was even.
pub(crate) struct TakeTurn;

impl<V: Grows> Play<Option<V>, SeatView<V::Case, V::Entry>> for TakeTurn {
    ghost use Rattle.commit_lock.specs.Inside.LockSteps.{TakesTurn};

    ghost then = { TakesTurn V.case V.entries V.worker };
}

/// Clears the last bit of the turn word. The slot is at home again with what it has then.
pub(crate) struct GiveTurn;

impl<V: Grows> Play<Option<V>, SeatView<V::Case, V::Entry>> for GiveTurn {
    ghost use Rattle.commit_lock.specs.Inside.LockSteps.{GivesTurn};

    ghost then = { GivesTurn V.entries };
}

/// Adds 2 to the turn word. Half of the old word is the new seat's number.
pub(crate) struct DrawNumber;

impl<V: Grows> Play<Option<V>, SeatView<V::Case, V::Entry>> for DrawNumber {
    ghost use Rattle.commit_lock.specs.Inside.LockSteps.{DrawsNumber};

    ghost then = { DrawsNumber V.worker };
}

/// Reads the turn word after a join, and tells what the two seats were to each other.
pub(crate) struct SettleJoin;

impl<V: Grows> Play<Option<V>, SeatView<V::Case, V::Entry>> for SettleJoin {
    ghost use Rattle.commit_lock.specs.Inside.LockSteps.{SettlesJoin};

    ghost then = { SettlesJoin V.worker };
}

/// Splits a new seat from one that has room for it.
pub(crate) struct SplitSeat;

impl<C, E> Split<SeatView<C, E>> for SplitSeat {
    ghost use Rattle.commit_lock.specs.Inside.LockSteps.{one_less, unnumbered};

    ghost left = { one_less };

    ghost right = { unnumbered };
}

/// Joins a seat into another one, which stays.
pub(crate) struct JoinSeats;

impl<C, E> Join<SeatView<C, E>> for JoinSeats {
    ghost use Rattle.commit_lock.specs.Entries.{longer};
    ghost use Rattle.commit_lock.specs.Inside.LockSteps.{joined, spent_seat};

    ghost both = { joined longer };

    ghost spent = { spent_seat };
}
