//! The lock, the seats of those who use it, and what the proofs know of each seat.
ghost use Rattle.std.specs.Prelude.{◌≡◌, ℕ, List};

use atomic_table::{Table, TableRule};
use std::alloc::Global;
use std::collections::LinkedList;
use std::marker::PhantomData;
use std::snapshot::Snapshot;

/// A value that grows by entries, each of which carries the number of the seat that made it.
pub trait Grows: Drop + Send {
    /// The part of the value that never changes.
    type Case;

    /// What the value grows by.
    type Entry;

    ghost case: { Self → Self.Case };

    ghost entries: { Self → List Self.Entry };

    ghost worker: { Self.Entry → ℕ };
}

/// What the proofs know of a seat. No value of it is ever made.
pub(crate) struct SeatView<C, E> {
    // None once the seat is spent
    pub(crate) case: Option<C>,
    pub(crate) number: u64,
    // 1 for a seat that has its number and is not spent, else 0
    pub(crate) live: u64,
    // 1 for the seat that holds the turn, else 0
    pub(crate) turn: u64,
    pub(crate) seen: LinkedList<E>,
    // the entries of the value that it entered with, while it holds the turn
    pub(crate) entered: LinkedList<E>,
    pub(crate) room: u64,
    pub(crate) stands_for: u64,
    // at its last join: what it had seen before, what the other seat had, and the other's number
    pub(crate) before: LinkedList<E>,
    pub(crate) beside: LinkedList<E>,
    pub(crate) partner: u64,
}

/// The rule that every step of the table keeps.
pub(crate) struct Turns<V> {
    marker: PhantomData<V>,
}

impl<V: Grows> TableRule<Option<V>, SeatView<V::Case, V::Entry>, Snapshot<V>> for Turns<V> {
    ghost use Rattle.commit_lock.specs.Inside.LockRule.{LockRule, first_seat};

    ghost holds = { λ key. LockRule V.case V.entries V.worker (V.case key.value) };

    ghost first = { λ key. first_seat (V.case key.value) };
}

/// A lock round a value that grows by entries. One seat at a time has the value.
///
/// It has one turn word, which is even while the turn is free, and one slot for the value.
#[derive(Drop)]
pub struct CommitLock<V: Grows> {
    pub(crate) table: Table<Option<V>, SeatView<V::Case, V::Entry>, Snapshot<V>, Turns<V>, Global>,
    ghost size: { (table.shared.table_id.words ≡ 1) × (table.shared.table_id.slots ≡ 1) },
}

/// A holder's part in a lock. It moves from thread to thread, and is never copied.
#[derive(Drop)]
pub struct Seat<V: Grows> {
    pub(crate) token: atomic_table::Seat<Option<V>, SeatView<V::Case, V::Entry>>,
    pub(crate) number: u32,
    pub(crate) room: u32,
    pub(crate) stands_for: u32,
    ghost number_is: { number ≡ token.me.0.number },
    ghost room_is: { room ≡ token.me.0.room },
    ghost stands_for_is: { stands_for ≡ token.me.0.stands_for },
}

/// Why a lock was not closed.
#[derive(Drop)]
pub enum CloseFault<V: Grows> {
    /// There was no memory left. The lock and the seat are as they were.
    OutOfMemory { lock: CommitLock<V>, seat: Seat<V> },
}
