//! What is left of a book, decided alone.

ghost use Rattle.std.specs.Prelude.{◌≡◌, ◌<◌, ◌≤◌, IfOk};
ghost use Rattle.commit_book.specs.Books.{ranks_of};
ghost use Rattle.finish_book.specs.Finishing.{removed_of};

use crate::journals::{are_rows, done, front, no, removes_the_second, take, yes};
use crate::setting::{NO_ROWS, THREE_ROWS, new_book};
use crate::worked::left_half_done;
use accuse_core::{Event, Reply};
use commit_book::Book;
use finish_book::finish;
use std::alloc::{AllocError, Global};
use std::marker::Brand;
use std::sync::ledger::{Blank, Ledger};
use std::test::Fail;
use step_count::Steps;

// What is finished, and the count of its tests. No program sees the count, so the bound for three
// ranks of which one is removed stands here.
fn counted<L: Ledger>(
    alloc: Global,
    book: Book,
    blank: Blank,
) -> Result<(Book, Steps<L>), AllocError>
    requires name { blank.name ≡ L.name }
    requires parts { blank.parts ≡ L.parts }
    requires some { 0 < blank.parts }
    ensures six { IfOk result (λ after. ranks_of book.case ≡ 3 → removed_of after.0.marks ≡ 1
        → after.1 ≤ 6) }
{
    let mut steps = Steps::new(blank);
    let book = finish(alloc, book, &mut steps)?;
    Ok((book, steps))
}

fn finish_by<L: Ledger>(alloc: Global, book: Book, blank: Blank) -> Result<Book, AllocError>
    requires name { blank.name ≡ L.name }
    requires parts { blank.parts ≡ L.parts }
    requires some { 0 < blank.parts }
{
    let (book, _steps): (Book, Steps<L>) = counted(alloc, book, blank)?;
    Ok(book)
}

fn finished(alloc: Global, book: Book) -> Result<Book, AllocError> {
    finish_by::<Brand>(alloc, book, Blank::new(1))
}

#[test]
fn a_new_book(rt: HostRuntime) -> Result<(), Fail> {
    let alloc = rt.alloc();
    let book = finished(alloc, new_book(alloc, THREE_ROWS)?)?;
    assert!(rt; removes_the_second(&book));
    assert!(rt; book.journal().as_slice().len() <= 6);
    Ok(())
}

#[test]
fn a_book_without_ranks(rt: HostRuntime) -> Result<(), Fail> {
    let alloc = rt.alloc();
    let book = finished(alloc, new_book(alloc, NO_ROWS)?)?;
    assert!(rt; are_rows(book.journal().as_slice(), [done(0)].as_slice()));
    Ok(())
}

// Each of two seats made one test, so that rank 2 alone is left.
#[test]
fn a_book_left_half_done(rt: HostRuntime) -> Result<(), Fail> {
    let alloc = rt.alloc();
    let left = left_half_done(&rt, alloc)?;
    let tested = [take(1, 0, 0), yes(1, 0, 0), take(2, 1, 1), no(2, 1, 1)];
    assert!(rt; are_rows(left.journal().as_slice(), tested.as_slice()));
    let book = finished(alloc, left)?;
    let block = Event::Block {
        worker: 0,
        rank: 2,
        count: 1,
        seen: 1,
    };
    let all = [
        take(1, 0, 0),
        yes(1, 0, 0),
        take(2, 1, 1),
        no(2, 1, 1),
        front(0, 2, 1),
        (block, Reply::Kept),
        done(0),
    ];
    assert!(rt; are_rows(book.journal().as_slice(), all.as_slice()));
    assert!(rt; removes_the_second(&book));
    Ok(())
}
