//! A worker tests what it was given, and tells the verdict in one hold of the lock.

ghost use Rattle.std.specs.Prelude.{◌≡◌, List, ◌∷◌, [], ◌++◌, IfOk, OnOk, OnErr};
ghost use Rattle.accuse_core.specs.declared.journal.Entry.{Entry};
ghost use Rattle.saturate.specs.Decisions.{IsVerdict};
ghost use Rattle.commit_book.specs.Books.{worker_of};
ghost use Rattle.commit_lock.specs.Entries.{IsBeginning, GrowsBy};
ghost use Rattle.commit_lock.specs.Seats.{IsSeatOf, IsIdle, KeepsPlace, number, seen};
ghost use Rattle.spec_workers.specs.Books.{lock_case, Tells};
ghost use Rattle.spec_workers.specs.Turns.{IsVerdictOn};
ghost use Rattle.spec_workers.specs.Inside.Asked.{IsTakenAt};
ghost use Rattle.spec_workers.specs.Inside.Fronts.{IsOfFront, IsPast};
ghost use Rattle.spec_workers.specs.Inside.Grown.{IsGrown};

use crate::locking::{enter, leave, number};
use commit_book::{Book, Taken, books_are_sound, kept_ranks_stay_first};
use commit_lock::{CommitLock, Seat};
use io_edge::Gate;
use saturate::{Verdict, test};
use std::alloc::{AllocError, Global};
use std::sync::Wait;

// Tells a verdict to a book which begins with the entries after which the rank was taken.
fn tell_book(
    alloc: Global,
    book: &mut Book,
    worker: u32,
    taken: &Taken,
    verdict: Verdict,
) -> Result<(), AllocError>
    requires taken { (earlier : List Entry) × IsBeginning earlier book.old.entries
        × IsTakenAt book.old.case earlier taken.now }
    requires verdict { IsVerdict book.old.case (taken.now.snapshot.ranks ++ taken.now.rank ∷ [])
        verdict }
    ensures grown { GrowsBy (λ entry. worker_of entry.event) worker book.old.entries
        book.new.entries }
    ensures told { OnOk result ((told : Entry)
        × IsVerdictOn worker taken.now.rank taken.now.seen told
        × IsGrown worker book.old book.new (told ∷ [])) }
    ensures moves { OnOk result ((earlier : List Entry) → IsBeginning earlier book.old.entries
        → IsOfFront book.old.case earlier taken.now
        → IsPast book.new.case book.new.entries taken.now.rank) }
    ensures refused { OnErr result (IsGrown worker book.old book.new []) }
{
    kept_ranks_stay_first(book);
    books_are_sound(book);
    let _ = book.journal();
    book.reserve_turn(alloc)?;
    match verdict {
        Verdict::No(why) => {
            book.tell_no(worker, taken.rank, taken.seen, why);
            Ok(())
        }
        Verdict::Yes(table) => {
            book.tell_yes(worker, taken.rank, taken.seen, table);
            Ok(())
        }
    }
}

/// Tells the verdict on what was taken. If memory runs out, nothing is told.
pub fn tell<R: Wait>(
    rt: &R,
    alloc: Global,
    lock: &CommitLock<Book>,
    seat: &mut Seat<Book>,
    taken: &Taken,
    verdict: Verdict,
) -> Result<(), AllocError>
    requires lock { IsSeatOf lock.now seat.old }
    requires idle { IsIdle seat.old }
    requires taken { IsTakenAt (lock_case lock.now) (seen seat.old) taken.now }
    requires verdict { let ranks = taken.now.snapshot.ranks ++ taken.now.rank ∷ [] in
        IsVerdict (lock_case lock.now) ranks verdict }
    ensures lock { IsSeatOf lock.now seat.new }
    ensures idle { IsIdle seat.new }
    ensures same { KeepsPlace seat.old seat.new }
    ensures told { OnOk result ((told : Entry)
        × IsVerdictOn (number seat.old) taken.now.rank taken.now.seen told
        × Tells (number seat.old) (seen seat.old) (seen seat.new) (told ∷ [])) }
    ensures moves { OnOk result (IsOfFront (lock_case lock.now) (seen seat.old) taken.now
        → IsPast (lock_case lock.now) (seen seat.new) taken.now.rank) }
    ensures refused { OnErr result (Tells (number seat.old) (seen seat.old) (seen seat.new) []) }
{
    let worker = number(seat);
    let mut book = enter(rt, lock, seat);
    let answer = tell_book(alloc, &mut book, worker, taken, verdict);
    leave(lock, seat, book);
    answer
}

/// Tests what was taken, outside the lock, and tells the verdict. If memory runs out, nothing is
/// told.
pub fn test_and_tell<R: Wait, G: Gate>(
    rt: &R,
    alloc: Global,
    lock: &CommitLock<Book>,
    seat: &mut Seat<Book>,
    gate: &G,
    taken: &Taken,
) -> Result<(), AllocError>
    requires lock { IsSeatOf lock.now seat.old }
    requires idle { IsIdle seat.old }
    requires taken { IsTakenAt (lock_case lock.now) (seen seat.old) taken.now }
    ensures lock { IsSeatOf lock.now seat.new }
    ensures idle { IsIdle seat.new }
    ensures same { KeepsPlace seat.old seat.new }
    ensures told { OnOk result ((told : Entry)
        × IsVerdictOn (number seat.old) taken.now.rank taken.now.seen told
        × Tells (number seat.old) (seen seat.old) (seen seat.new) (told ∷ [])) }
    ensures moves { OnOk result (IsOfFront (lock_case lock.now) (seen seat.old) taken.now
        → IsPast (lock_case lock.now) (seen seat.new) taken.now.rank) }
    ensures refused { OnErr result (Tells (number seat.old) (seen seat.old) (seen seat.new) []) }
{
    gate.before_test(number(seat), taken.rank);
    let verdict = test(alloc, &taken.snapshot, taken.rank)?;
    tell(rt, alloc, lock, seat, taken, verdict)
}
