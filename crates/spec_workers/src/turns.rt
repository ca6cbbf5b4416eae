//! One turn of a worker: it takes a rank, tests it, and tells the verdict.

ghost use Rattle.std.specs.Prelude.{◌≡◌, ◌<◌, ◌∷◌, [], IfOk, OnErr};
ghost use Rattle.commit_lock.specs.Seats.{IsSeatOf, IsIdle, KeepsPlace, number, seen};
ghost use Rattle.spec_workers.specs.Books.{lock_case, ranks_at};
ghost use Rattle.spec_workers.specs.Inside.Ahead.{IsFoundAhead};
ghost use Rattle.spec_workers.specs.Inside.Asked.{IsTakenAt};
ghost use Rattle.spec_workers.specs.Inside.Fronts.{MovesFront};
ghost use Rattle.spec_workers.specs.Inside.Steps.{IsTurn, IsFrontTurn, IsCut};

use crate::ahead::{Ahead, look, settle, test_ahead, wait_unless_no};
use crate::asking::{ask, ask_front};
use crate::locking::number;
use crate::telling::test_and_tell;
use commit_book::{Book, FrontAnswer, TakeAnswer, Taken};
use commit_lock::{CommitLock, Seat};
use io_edge::Gate;
use std::alloc::{AllocError, Global};
use std::sync::Wait;

// Takes a rank, and tests it if it isn't decided yet. Says whether it made a test.
fn plain_turn<R: Wait, G: Gate>(
    rt: &R,
    alloc: Global,
    lock: &CommitLock<Book>,
    seat: &mut Seat<Book>,
    gate: &G,
    rank: u32,
) -> Result<bool, AllocError>
    requires lock { IsSeatOf lock.now seat.old }
    requires idle { IsIdle seat.old }
    requires inside { rank < ranks_at lock.now }
    ensures lock { IsSeatOf lock.now seat.new }
    ensures idle { IsIdle seat.new }
    ensures same { KeepsPlace seat.old seat.new }
    ensures ok { IfOk result (IsTurn (number seat.old) rank (seen seat.old) (seen seat.new)) }
    ensures err { let draws = rank ∷ [] in
        OnErr result (IsCut (number seat.old) draws (seen seat.old) (seen seat.new)) }
{
    match ask(rt, alloc, lock, seat, rank)? {
        TakeAnswer::Over => Ok(false),
        TakeAnswer::Seen(taken) => {
            test_and_tell(rt, alloc, lock, seat, gate, &taken)?;
            Ok(true)
        }
    }
}

// Takes a rank of which a verdict was found ahead.
fn settled_turn<R: Wait, G: Gate>(
    rt: &R,
    alloc: Global,
    lock: &CommitLock<Book>,
    seat: &mut Seat<Book>,
    gate: &G,
    rank: u32,
    ahead: Ahead,
) -> Result<bool, AllocError>
    requires lock { IsSeatOf lock.now seat.old }
    requires idle { IsIdle seat.old }
    requires inside { rank < ranks_at lock.now }
    requires ahead { IsFoundAhead (lock_case lock.now) (seen seat.old) rank ahead }
    ensures lock { IsSeatOf lock.now seat.new }
    ensures idle { IsIdle seat.new }
    ensures same { KeepsPlace seat.old seat.new }
    ensures ok { IfOk result (IsTurn (number seat.old) rank (seen seat.old) (seen seat.new)) }
    ensures err { let draws = rank ∷ [] in
        OnErr result (IsCut (number seat.old) draws (seen seat.old) (seen seat.new)) }
{
    match ask(rt, alloc, lock, seat, rank)? {
        TakeAnswer::Over => Ok(false),
        TakeAnswer::Seen(taken) => {
            settle(rt, alloc, lock, seat, gate, &taken, ahead)?;
            Ok(true)
        }
    }
}

// Tests a rank ahead of the front, and takes it then.
fn early_turn<R: Wait, G: Gate>(
    rt: &R,
    alloc: Global,
    lock: &CommitLock<Book>,
    seat: &mut Seat<Book>,
    gate: &G,
    rank: u32,
    newest: Taken,
) -> Result<bool, AllocError>
    requires lock { IsSeatOf lock.now seat.old }
    requires idle { IsIdle seat.old }
    requires inside { rank < ranks_at lock.now }
    requires rank { newest.rank ≡ rank }
    requires newest { IsTakenAt (lock_case lock.now) (seen seat.old) newest }
    ensures lock { IsSeatOf lock.now seat.new }
    ensures idle { IsIdle seat.new }
    ensures same { KeepsPlace seat.old seat.new }
    ensures ok { IfOk result (IsTurn (number seat.old) rank (seen seat.old) (seen seat.new)) }
    ensures err { let draws = rank ∷ [] in
        OnErr result (IsCut (number seat.old) draws (seen seat.old) (seen seat.new)) }
{
    let ahead = test_ahead(alloc, gate, number(seat), newest)?;
    wait_unless_no(rt, lock, seat, &ahead);
    settled_turn(rt, alloc, lock, seat, gate, rank, ahead)
}

/// Takes a rank, and tests it if it isn't decided yet. If it is ahead of the front, it is tested
/// before it is taken, so that a no is told at once. Says whether a verdict was told.
pub fn take_turn<R: Wait, G: Gate>(
    rt: &R,
    alloc: Global,
    lock: &CommitLock<Book>,
    seat: &mut Seat<Book>,
    gate: &G,
    rank: u32,
) -> Result<bool, AllocError>
    requires lock { IsSeatOf lock.now seat.old }
    requires idle { IsIdle seat.old }
    requires inside { rank < ranks_at lock.now }
    ensures lock { IsSeatOf lock.now seat.new }
    ensures idle { IsIdle seat.new }
    ensures same { KeepsPlace seat.old seat.new }
    ensures ok { IfOk result (IsTurn (number seat.old) rank (seen seat.old) (seen seat.new)) }
    ensures err { let draws = rank ∷ [] in
        OnErr result (IsCut (number seat.old) draws (seen seat.old) (seen seat.new)) }
{
    match look(rt, alloc, lock, seat, rank)? {
        None => plain_turn(rt, alloc, lock, seat, gate, rank),
        Some(newest) => early_turn(rt, alloc, lock, seat, gate, rank, newest),
    }
}

/// Takes the rank at the front and tests it. Says whether there was one.
pub fn front_turn<R: Wait, G: Gate>(
    rt: &R,
    alloc: Global,
    lock: &CommitLock<Book>,
    seat: &mut Seat<Book>,
    gate: &G,
) -> Result<bool, AllocError>
    requires lock { IsSeatOf lock.now seat.old }
    requires idle { IsIdle seat.old }
    ensures lock { IsSeatOf lock.now seat.new }
    ensures idle { IsIdle seat.new }
    ensures same { KeepsPlace seat.old seat.new }
    ensures ok { IfOk result (IsFrontTurn (number seat.old) (seen seat.old) (seen seat.new)) }
    ensures moves { IfOk result (MovesFront (lock_case lock.now) (seen seat.old) (seen seat.new)) }
    ensures err { OnErr result (IsCut (number seat.old) [] (seen seat.old) (seen seat.new)) }
{
    match ask_front(rt, alloc, lock, seat)? {
        FrontAnswer::Done => Ok(false),
        FrontAnswer::Front(taken) => {
            test_and_tell(rt, alloc, lock, seat, gate, &taken)?;
            Ok(true)
        }
    }
}
