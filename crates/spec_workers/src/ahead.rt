//! A worker tests a rank ahead of the front before it takes it, against the newest kept ranks.

ghost use Rattle.std.specs.Prelude.{◌≡◌, ◌<◌, ◌++◌, ◌∷◌, [], All, IfOk, OnOk, OnErr};
ghost use Rattle.accuse_core.specs.declared.journal.Entry.{Entry};
ghost use Rattle.accuse_core.specs.Marks.{number_kept};
ghost use Rattle.saturate.specs.Decisions.{IsVerdict};
ghost use Rattle.commit_book.specs.Books.{ranks_of};
ghost use Rattle.commit_lock.specs.Seats.{IsSeatOf, IsIdle, KeepsPlace, number, seen};
ghost use Rattle.spec_workers.specs.Books.{lock_case, ranks_at, Tells};
ghost use Rattle.spec_workers.specs.Turns.{IsVerdictOn};
ghost use Rattle.spec_workers.specs.Inside.Asked.{marks_after, GivesAhead, IsTakenAt, KeepsFirstOf};
ghost use Rattle.spec_workers.specs.Inside.Ahead.{IsFoundAhead};

use crate::locking::{enter, leave, number};
use crate::telling::{tell, test_and_tell};
use accuse_core::Mark;
use case_file::more_rows_stay_incoherent;
use commit_book::{Book, Taken, books_are_sound};
use commit_lock::{CommitLock, Seat};
use derivation::good_derivations_stay_good_for_more_ranks;
use io_edge::Gate;
use saturate::{Verdict, test};
use std::alloc::{AllocError, Global};
use std::sync::Wait;
use std::thread::yield_now;

/// What was tested ahead of the front, and the verdict over the ranks that were kept then.
#[derive(Drop)]
pub struct Ahead {
    pub taken: Taken,
    pub verdict: Verdict,
}

/// How often a worker looks whether its rank has come to the front, at most.
const MOST_LOOKS: u32 = 1 << 20;

/// How often it gives the processor up between two looks, at most.
const MOST_YIELDS: u32 = 64;

// The newest kept ranks and their table, if the rank is not decided and not at the front.
fn newest(alloc: Global, book: &Book, rank: u32) -> Result<Option<Taken>, AllocError>
    requires inside { rank < ranks_of book.now.case }
    ensures { IfOk result (GivesAhead book.now.case book.now.entries rank) }
{
    books_are_sound(book);
    let _ = book.journal();
    let _ranks = book.case().ranks();
    let core = book.core();
    match core.mark(rank) {
        Mark::Kept | Mark::Removed => return Ok(None),
        Mark::Open | Mark::Yes(_) => {}
    }
    if core.front() == rank {
        return Ok(None);
    }
    let seen = core.kept().len() as u32;
    let snapshot = book.table().share(alloc)?;
    Ok(Some(Taken {
        rank,
        seen,
        snapshot,
    }))
}

/// Looks at the book, and tells nothing.
pub fn look<R: Wait>(
    rt: &R,
    alloc: Global,
    lock: &CommitLock<Book>,
    seat: &mut Seat<Book>,
    rank: u32,
) -> Result<Option<Taken>, AllocError>
    requires lock { IsSeatOf lock.now seat.old }
    requires idle { IsIdle seat.old }
    requires inside { rank < ranks_at lock.now }
    ensures lock { IsSeatOf lock.now seat.new }
    ensures idle { IsIdle seat.new }
    ensures same { KeepsPlace seat.old seat.new }
    ensures told { Tells (number seat.old) (seen seat.old) (seen seat.new) [] }
    ensures given { IfOk result (GivesAhead (lock_case lock.now) (seen seat.new) rank) }
{
    let book = enter(rt, lock, seat);
    let found = newest(alloc, &book, rank);
    leave(lock, seat, book);
    found
}

// Whether a rank is at the front, or before it.
fn has_come<R: Wait>(rt: &R, lock: &CommitLock<Book>, seat: &mut Seat<Book>, rank: u32) -> bool
    requires lock { IsSeatOf lock.now seat.old }
    requires idle { IsIdle seat.old }
    ensures lock { IsSeatOf lock.now seat.new }
    ensures idle { IsIdle seat.new }
    ensures same { KeepsPlace seat.old seat.new }
    ensures told { Tells (number seat.old) (seen seat.old) (seen seat.new) [] }
{
    let book = enter(rt, lock, seat);
    let has_come = rank <= book.core().front();
    leave(lock, seat, book);
    has_come
}

// Gives the processor up some times.
fn pause(times: u32) {
    for _ in 0..times {
        yield_now();
    }
}

/// Waits until a rank is at the front, or before it, but not for ever: it gives the processor up
/// and looks again, more and more seldom. It tells nothing.
pub fn wait_for_front<R: Wait>(rt: &R, lock: &CommitLock<Book>, seat: &mut Seat<Book>, rank: u32)
    requires lock { IsSeatOf lock.now seat.old }
    requires idle { IsIdle seat.old }
    ensures lock { IsSeatOf lock.now seat.new }
    ensures idle { IsIdle seat.new }
    ensures same { KeepsPlace seat.old seat.new }
    ensures told { Tells (number seat.old) (seen seat.old) (seen seat.new) [] }
{
    let mut times = 1;
    for _ in 0..MOST_LOOKS {
        if has_come(rt, lock, seat, rank) {
            return;
        }
        pause(times);
        times = (2 * times).min(MOST_YIELDS);
    }
}

/// Tests ahead what was looked up, outside the lock.
pub fn test_ahead<G: Gate>(
    alloc: Global,
    gate: &G,
    worker: u32,
    taken: Taken,
) -> Result<Ahead, AllocError>
    requires inside { taken.rank < ranks_of taken.snapshot.case }
    requires before { All (λ old. old < taken.rank) taken.snapshot.ranks }
    ensures taken { IfOk result (λ ahead. ahead.taken ≡ taken) }
    ensures verdict { let ranks = taken.snapshot.ranks ++ taken.rank ∷ [] in
        IfOk result (λ ahead. IsVerdict taken.snapshot.case ranks ahead.verdict) }
{
    gate.before_test(worker, taken.rank);
    let verdict = test(alloc, &taken.snapshot, taken.rank)?;
    Ok(Ahead { taken, verdict })
}

/// A rank that may be kept is worth asking for only at the front. One that may not be is removed
/// at once.
pub fn wait_unless_no<R: Wait>(
    rt: &R,
    lock: &CommitLock<Book>,
    seat: &mut Seat<Book>,
    ahead: &Ahead,
)
    requires lock { IsSeatOf lock.now seat.old }
    requires idle { IsIdle seat.old }
    ensures lock { IsSeatOf lock.now seat.new }
    ensures idle { IsIdle seat.new }
    ensures same { KeepsPlace seat.old seat.new }
    ensures told { Tells (number seat.old) (seen seat.old) (seen seat.new) [] }
{
    match ahead.verdict {
        Verdict::No(_) => {}
        Verdict::Yes(_) => wait_for_front(rt, lock, seat, ahead.taken.rank),
    }
}

/// Tells what was found ahead of a rank that is taken now. A no holds for more kept ranks too; a
/// yes only for those that it was found with, and else the rank is tested again.
pub fn settle<R: Wait, G: Gate>(
    rt: &R,
    alloc: Global,
    lock: &CommitLock<Book>,
    seat: &mut Seat<Book>,
    gate: &G,
    taken: &Taken,
    ahead: Ahead,
) -> Result<(), AllocError>
    requires lock { IsSeatOf lock.now seat.old }
    requires idle { IsIdle seat.old }
    requires taken { IsTakenAt (lock_case lock.now) (seen seat.old) taken.now }
    requires all { let marks = marks_after (lock_case lock.now) (seen seat.old) in
        taken.now.seen ≡ number_kept marks }
    requires ahead { IsFoundAhead (lock_case lock.now) (seen seat.old) taken.now.rank ahead }
    requires first { KeepsFirstOf (lock_case lock.now) (seen seat.old) }
    ensures lock { IsSeatOf lock.now seat.new }
    ensures idle { IsIdle seat.new }
    ensures same { KeepsPlace seat.old seat.new }
    ensures told { OnOk result ((told : Entry)
        × IsVerdictOn (number seat.old) taken.now.rank taken.now.seen told
        × Tells (number seat.old) (seen seat.old) (seen seat.new) (told ∷ [])) }
    ensures refused { OnErr result (Tells (number seat.old) (seen seat.old) (seen seat.new) []) }
{
    good_derivations_stay_good_for_more_ranks();
    more_rows_stay_incoherent();
    let Ahead {
        taken: before,
        verdict,
    } = ahead;
    match verdict {
        Verdict::No(why) => tell(rt, alloc, lock, seat, taken, Verdict::No(why)),
        Verdict::Yes(table) => {
            if before.seen == taken.seen {
                return tell(rt, alloc, lock, seat, taken, Verdict::Yes(table));
            }
            test_and_tell(rt, alloc, lock, seat, gate, taken)
        }
    }
}
