//! A worker asks for a rank to test, in one hold of the lock.

ghost use Rattle.std.specs.Prelude.{◌≡◌, ◌<◌, ◌∷◌, [], IfOk, OnOk, OnErr};
ghost use Rattle.accuse_core.specs.declared.event.Event.TheVariants as E;
ghost use Rattle.commit_book.specs.Books.{ranks_of, worker_of};
ghost use Rattle.commit_book.specs.Answers.{take_reply, front_reply};
ghost use Rattle.commit_lock.specs.Entries.{GrowsBy};
ghost use Rattle.commit_lock.specs.Seats.{IsSeatOf, IsIdle, KeepsPlace, number, seen};
ghost use Rattle.spec_workers.specs.Books.{lock_case, ranks_at, Tells};
ghost use Rattle.spec_workers.specs.Turns.{entry};
ghost use Rattle.spec_workers.specs.Inside.Asked.{GivesTake, GivesFrontTake, KeepsFirstOf};
ghost use Rattle.spec_workers.specs.Inside.Grown.{IsGrown};

use crate::locking::{enter, leave, number};
use accuse_core::{asking_leaves_the_marks, front_is_the_least_undecided_rank};
use commit_book::{Book, FrontAnswer, TakeAnswer, books_are_sound, kept_ranks_stay_first};
use commit_lock::{CommitLock, Seat};
use std::alloc::{AllocError, Global};
use std::sync::Wait;

// Takes a rank in a book.
fn take(alloc: Global, book: &mut Book, worker: u32, rank: u32) -> Result<TakeAnswer, AllocError>
    requires inside { rank < ranks_of book.old.case }
    ensures case { book.new.case ≡ book.old.case }
    ensures grown { GrowsBy (λ entry. worker_of entry.event) worker book.old.entries
        book.new.entries }
    ensures told { IfOk result (λ answer. IsGrown worker book.old book.new
        (entry (E.Take worker rank) (take_reply answer) ∷ [])) }
    ensures given { IfOk result (GivesTake book.new.case book.new.entries rank) }
    ensures first { OnOk result (KeepsFirstOf book.new.case book.new.entries) }
    ensures refused { OnErr result (IsGrown worker book.old book.new []) }
{
    book.reserve_turn(alloc)?;
    books_are_sound(book);
    asking_leaves_the_marks();
    front_is_the_least_undecided_rank();
    let _ = book.journal();
    let answer = book.take(worker, rank);
    kept_ranks_stay_first(book);
    let _ = book.journal();
    Ok(answer)
}

// Takes the rank at the front of a book.
fn take_front(alloc: Global, book: &mut Book, worker: u32) -> Result<FrontAnswer, AllocError>
    ensures grown { GrowsBy (λ entry. worker_of entry.event) worker book.old.entries
        book.new.entries }
    ensures told { IfOk result (λ answer. IsGrown worker book.old book.new
        (entry (E.TakeFront worker) (front_reply answer) ∷ [])) }
    ensures given { IfOk result (GivesFrontTake book.new.case book.new.entries) }
    ensures refused { OnErr result (IsGrown worker book.old book.new []) }
{
    book.reserve_turn(alloc)?;
    books_are_sound(book);
    asking_leaves_the_marks();
    front_is_the_least_undecided_rank();
    let _ = book.journal();
    let answer = book.take_front(worker);
    let _ = book.journal();
    Ok(answer)
}

/// Takes a rank. If memory runs out, nothing is told.
pub fn ask<R: Wait>(
    rt: &R,
    alloc: Global,
    lock: &CommitLock<Book>,
    seat: &mut Seat<Book>,
    rank: u32,
) -> Result<TakeAnswer, AllocError>
    requires lock { IsSeatOf lock.now seat.old }
    requires idle { IsIdle seat.old }
    requires inside { rank < ranks_at lock.now }
    ensures lock { IsSeatOf lock.now seat.new }
    ensures idle { IsIdle seat.new }
    ensures same { KeepsPlace seat.old seat.new }
    ensures told { IfOk result (λ answer. Tells (number seat.old) (seen seat.old) (seen seat.new)
        (entry (E.Take (number seat.old) rank) (take_reply answer) ∷ [])) }
    ensures given { IfOk result (GivesTake (lock_case lock.now) (seen seat.new) rank) }
    ensures first { OnOk result (KeepsFirstOf (lock_case lock.now) (seen seat.new)) }
    ensures refused { OnErr result (Tells (number seat.old) (seen seat.old) (seen seat.new) []) }
{
    let worker = number(seat);
    let mut book = enter(rt, lock, seat);
    let answer = take(alloc, &mut book, worker, rank);
    leave(lock, seat, book);
    answer
}

/// Takes the rank at the front. If memory runs out, nothing is told.
pub fn ask_front<R: Wait>(
    rt: &R,
    alloc: Global,
    lock: &CommitLock<Book>,
    seat: &mut Seat<Book>,
) -> Result<FrontAnswer, AllocError>
    requires lock { IsSeatOf lock.now seat.old }
    requires idle { IsIdle seat.old }
    ensures lock { IsSeatOf lock.now seat.new }
    ensures idle { IsIdle seat.new }
    ensures same { KeepsPlace seat.old seat.new }
    ensures told { IfOk result (λ answer. Tells (number seat.old) (seen seat.old) (seen seat.new)
        (entry (E.TakeFront (number seat.old)) (front_reply answer) ∷ [])) }
    ensures given { IfOk result (GivesFrontTake (lock_case lock.now) (seen seat.new)) }
    ensures refused { OnErr result (Tells (number seat.old) (seen seat.old) (seen seat.new) []) }
{
    let worker = number(seat);
    let mut book = enter(rt, lock, seat);
    let answer = take_front(alloc, &mut book, worker);
    leave(lock, seat, book);
    answer
}
