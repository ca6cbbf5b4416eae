//! What the types say: a lock may hold a book, and threads may share the lock.

ghost use Rattle.commit_lock.specs.Entries.{IsBeginning};
ghost use Rattle.commit_lock.specs.Seats.{IsSeatOf, IsIdle, KeepsPlace, seen};

use commit_book::Book;
use commit_lock::{CommitLock, DrawPass, DrawWord, Seat};
use std::sync::Wait;

/// Waits for the turn, and gives it back. The seat has then seen all that was told before.
pub fn passes_through<R: Wait>(rt: &R, lock: &CommitLock<Book>, seat: &mut Seat<Book>)
    requires { IsSeatOf lock.now seat.old × IsIdle seat.old }
    ensures lock { IsSeatOf lock.now seat.new × IsIdle seat.new }
    ensures same { KeepsPlace seat.old seat.new }
    ensures seen { IsBeginning (seen seat.old) (seen seat.new) }
{
    let book = lock.enter(rt, seat);
    lock.leave(seat, book);
}

fn is_send<T: Send>(_: &T) {}

fn is_sync<T: Sync>(_: &T) {}

/// Nothing calls this. It is proved only if threads may share a lock of a book and a draw word, and
/// may hand on all that a worker has.
#[allow(dead_code)]
fn crosses_threads(
    book: &Book,
    lock: &CommitLock<Book>,
    seat: &Seat<Book>,
    word: &DrawWord,
    pass: &DrawPass,
) {
    is_send(book);
    is_send(lock);
    is_sync(lock);
    is_send(seat);
    is_send(word);
    is_sync(word);
    is_send(pass);
}
