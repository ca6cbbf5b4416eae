//! Workers share the decisions, and what they leave open is decided alone.

ghost use Rattle.std.specs.Prelude.{◌≡◌, ◌≤◌, ◌<◌, [], IfOk};
ghost use Rattle.std.specs.Arc.{arc_value};
ghost use Rattle.el_logic.specs.declared.types.Part.{Part as Ontologies};
ghost use Rattle.case_file.specs.Incoherence.{IsIncoherentFor};
ghost use Rattle.conflict_logic.specs.Repair.{IsRepair};
ghost use Rattle.accuse_core.specs.Marks.{front_of, kept_of};
ghost use Rattle.commit_lock.specs.Seats.{IsSeatOf, IsIdle, IsWholeSeat, seen};
ghost use Rattle.commit_book.specs.Books.{ranks_of};
ghost use Rattle.finish_book.specs.Finishing.{IsFinishedBy};
ghost use Rattle.spec_workers.specs.Books.{lock_case};
ghost use Rattle.diagnosis.specs.Shares.{IsShared};
ghost use Rattle.diagnosis.specs.Inside.Parts.{IsOpened};

use crate::joining::join_parts;
use crate::parts::Part;
use crate::splitting::{split_parts, work_side_by_side};
use case_file::Case;
use closed_model::ClosedTable;
use commit_book::Book;
use commit_lock::{CommitLock, DrawWord, Seat};
use finish_book::finish;
use io_edge::Gate;
use std::alloc::{AllocError, Global};
use std::marker::Brand;
use std::sync::ledger::{Blank, Ledger};
use std::sync::{Arc, Wait};
use std::thread::Threads;
use step_count::Steps;

// A lock round a book, a word from which its ranks are drawn, and the first part in both.
fn opened(
    alloc: Global,
    book: Book,
    ranks: u32,
) -> Result<(CommitLock<Book>, DrawWord, Part), AllocError>
    requires none { book.entries ≡ [] }
    requires ranks { ranks ≡ ranks_of book.case }
    ensures { IfOk result (λ made. IsOpened book made.0 made.1 made.2) }
{
    let Ok((lock, seat)) = CommitLock::new(alloc, book) else {
        return Err(AllocError);
    };
    let (word, pass) = DrawWord::new(alloc, ranks)?;
    Ok((lock, word, Part { seat, pass }))
}

// The book under a lock, once every seat was joined into this one.
fn closed(lock: CommitLock<Book>, seat: Seat<Book>) -> Result<Book, AllocError>
    requires lock { IsSeatOf lock seat }
    requires idle { IsIdle seat }
    requires whole { IsWholeSeat seat }
    ensures case { IfOk result (λ book. book.case ≡ lock_case lock) }
    ensures entries { IfOk result (λ book. book.entries ≡ seen seat) }
{
    match lock.close(seat) {
        Ok(book) => Ok(book),
        Err(_) => Err(AllocError),
    }
}

// Workers decide the ranks of a new book, each with as many tests as there are ranks.
fn share_work<R: Threads + Wait + Sync, G: Gate>(
    rt: &R,
    alloc: Global,
    book: Book,
    workers: u32,
    gate: &G,
) -> Result<Book, AllocError>
    requires none { book.entries ≡ [] }
    requires workers { (1 ≤ workers) × (workers ≤ 16) }
    ensures case { IfOk result (λ after. after.case ≡ book.case) }
    ensures shared { IfOk result (λ after. IsShared (ranks_of book.case) after.entries) }
{
    let ranks = book.case().ranks();
    let (lock, word, mut first) = opened(alloc, book, ranks)?;
    let parts = split_parts(alloc, &lock, &word, &mut first, workers)?;
    let all = work_side_by_side(rt, alloc, &lock, &word, gate, ranks, parts)?;
    join_parts(&lock, &word, &mut first, all)?;
    let Part { seat, pass: _ } = first;
    closed(lock, seat)
}

// Decides alone what is left of a book. The count of tests is not kept.
fn finished<L: Ledger>(alloc: Global, book: Book, ledger: Blank) -> Result<Book, AllocError>
    requires name { ledger.name ≡ L.name }
    requires parts { ledger.parts ≡ L.parts }
    requires some { 0 < L.parts }
    ensures case { IfOk result (λ after. after.case ≡ book.case) }
    ensures decided { IfOk result (λ after. front_of after.marks ≡ ranks_of book.case) }
    ensures repair { IfOk result (λ after. IsRepair (IsIncoherentFor book.case Ontologies.Both)
        (ranks_of book.case) (kept_of after.marks)) }
    ensures entries { IfOk result (λ after. IsFinishedBy book.entries after.entries) }
{
    let mut steps: Steps<L> = Steps::new(ledger);
    finish(alloc, book, &mut steps)
}

/// Decides every rank of a case. The workers draw ranks and test them side by side, each with at
/// most as many tests as there are ranks; what they leave open is decided alone, as worker 0. If
/// memory runs out for one of them, it has run out for this call. The call may wait.
pub fn diagnose<R: Threads + Wait + Sync, G: Gate>(
    rt: &R,
    alloc: Global,
    case: Arc<Case>,
    base: ClosedTable,
    workers: u32,
    gate: &G,
) -> Result<Book, AllocError>
    requires case { base.case ≡ arc_value case }
    requires none { base.ranks ≡ [] }
    requires workers { (1 ≤ workers) × (workers ≤ 16) }
    ensures case { IfOk result (λ book. book.case ≡ base.case) }
    ensures decided { IfOk result (λ book. front_of book.marks ≡ ranks_of base.case) }
    ensures repair { IfOk result (λ book. IsRepair (IsIncoherentFor base.case Ontologies.Both)
        (ranks_of base.case) (kept_of book.marks)) }
    ensures shared { IfOk result (λ book. IsShared (ranks_of base.case) book.entries) }
{
    let book = Book::new(alloc, case, base)?;
    let book = share_work(rt, alloc, book, workers, gate)?;
    finished::<Brand>(alloc, book, Blank::new(1))
}
