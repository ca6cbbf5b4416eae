//! The calls of the lock, round a book.

ghost use Rattle.std.specs.Prelude.{◌≡◌};
ghost use Rattle.commit_lock.specs.Entries.{IsBeginning, GrowsBy};
ghost use Rattle.commit_lock.specs.Seats.{IsSeatOf, IsIdle, HasTurn, KeepsPlace, number, seen, entered};
ghost use Rattle.commit_book.specs.Books.{worker_of};
ghost use Rattle.spec_workers.specs.Books.{lock_case, own_of};

use commit_book::Book;
use commit_lock::{CommitLock, Seat};
use std::sync::Wait;

/// Waits for the turn, and takes the book.
pub fn enter<R: Wait>(rt: &R, lock: &CommitLock<Book>, seat: &mut Seat<Book>) -> Book
    requires lock { IsSeatOf lock.now seat.old }
    requires idle { IsIdle seat.old }
    ensures lock { IsSeatOf lock.now seat.new }
    ensures turn { HasTurn seat.new }
    ensures entered { entered seat.new ≡ result.entries }
    ensures same { KeepsPlace seat.old seat.new × (seen seat.new ≡ seen seat.old) }
    ensures case { result.case ≡ lock_case lock.now }
    ensures seen { IsBeginning (seen seat.old) result.entries }
    ensures own { own_of (number seat.old) result.entries
        ≡ own_of (number seat.old) (seen seat.old) }
{
    lock.enter(rt, seat)
}

/// Puts the book back, grown by entries of this seat, and gives the turn back.
pub fn leave(lock: &CommitLock<Book>, seat: &mut Seat<Book>, book: Book)
    requires lock { IsSeatOf lock.now seat.old }
    requires turn { HasTurn seat.old }
    requires case { book.case ≡ lock_case lock.now }
    requires grown { GrowsBy (λ entry. worker_of entry.event) (number seat.old) (entered seat.old)
        book.entries }
    ensures lock { IsSeatOf lock.now seat.new }
    ensures idle { IsIdle seat.new }
    ensures same { KeepsPlace seat.old seat.new }
    ensures seen { seen seat.new ≡ book.entries }
{
    lock.leave(seat, book);
}

/// The number that a seat's entries carry.
pub fn number(seat: &Seat<Book>) -> u32
    ensures { result ≡ number seat.now }
{
    seat.number()
}
