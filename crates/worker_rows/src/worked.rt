//! Workers over a new book of three ranks.

use crate::journals::{are_rows, done, no, removes_the_second, take, yes};
use crate::setting::{THREE_ROWS, new_book};
use commit_book::Book;
use commit_lock::{CommitLock, DrawWord};
use io_edge::OpenGate;
use spec_workers::{WorkEnd, work};
use std::alloc::Global;
use std::sync::Wait;
use std::test::Fail;

// What the first seat leaves, and why it ended, if it is the only worker.
fn worked_alone<R: Wait>(rt: &R, alloc: Global, budget: u32) -> Result<(WorkEnd, Book), Fail> {
    let book = new_book(alloc, THREE_ROWS)?;
    let (draw, pass) = DrawWord::new(alloc, book.case().ranks())?;
    let Ok((lock, seat)) = CommitLock::new(alloc, book) else {
        return Err("no memory for the lock".into());
    };
    let worked = work(rt, alloc, &lock, seat, &draw, pass, &OpenGate, budget);
    let Ok(book) = lock.close(worked.seat) else {
        return Err("the lock was not closed".into());
    };
    Ok((worked.end, book))
}

/// What two seats leave, one after another, that are allowed a test each.
pub(crate) fn left_half_done<R: Wait>(rt: &R, alloc: Global) -> Result<Book, Fail> {
    let book = new_book(alloc, THREE_ROWS)?;
    let (draw, mut pass) = DrawWord::new(alloc, book.case().ranks())?;
    let Ok((lock, mut first)) = CommitLock::new(alloc, book) else {
        return Err("no memory for the lock".into());
    };
    let one = lock.split(&mut first)?;
    let other = lock.split(&mut first)?;
    let one_pass = draw.split(&mut pass)?;
    let other_pass = draw.split(&mut pass)?;
    let one = work(rt, alloc, &lock, one, &draw, one_pass, &OpenGate, 1);
    let other = work(rt, alloc, &lock, other, &draw, other_pass, &OpenGate, 1);
    lock.join(&mut first, one.seat);
    lock.join(&mut first, other.seat);
    let Ok(book) = lock.close(first) else {
        return Err("the lock was not closed".into());
    };
    if one.end != WorkEnd::Budget || other.end != WorkEnd::Budget {
        return Err("a worker made another number of tests".into());
    }
    Ok(book)
}

#[test]
fn one_worker_with_enough_tests(rt: HostRuntime) -> Result<(), Fail> {
    let (end, book) = worked_alone(&rt, rt.alloc(), 7)?;
    let all = [
        take(0, 0, 0),
        yes(0, 0, 0),
        take(0, 1, 1),
        no(0, 1, 1),
        take(0, 2, 1),
        yes(0, 2, 1),
        done(0),
    ];
    assert_eq!(rt; end, WorkEnd::Done);
    assert!(rt; are_rows(book.journal().as_slice(), all.as_slice()));
    assert!(rt; removes_the_second(&book));
    Ok(())
}

#[test]
fn one_worker_with_one_test(rt: HostRuntime) -> Result<(), Fail> {
    let (end, book) = worked_alone(&rt, rt.alloc(), 1)?;
    let first = [take(0, 0, 0), yes(0, 0, 0)];
    assert_eq!(rt; end, WorkEnd::Budget);
    assert!(rt; are_rows(book.journal().as_slice(), first.as_slice()));
    Ok(())
}
