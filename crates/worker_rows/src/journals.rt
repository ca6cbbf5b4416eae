//! Journals that are expected, row by row.

use accuse_core::{Entry, Event, Reply};
use commit_book::Book;

/// An event and the reply to it.
pub(crate) type Row = (Event, Reply);

/// A worker takes a rank, and may test it against this number of kept ranks.
pub(crate) fn take(worker: u32, rank: u32, seen: u32) -> Row {
    (Event::Take { worker, rank }, Reply::Seen(seen))
}

/// It is coherent with them, and kept.
pub(crate) fn yes(worker: u32, rank: u32, seen: u32) -> Row {
    (Event::Yes { worker, rank, seen }, Reply::Kept)
}

/// It is not, and removed.
pub(crate) fn no(worker: u32, rank: u32, seen: u32) -> Row {
    (Event::No { worker, rank, seen }, Reply::Marked)
}

/// A worker takes the rank at the front.
pub(crate) fn front(worker: u32, rank: u32, seen: u32) -> Row {
    (Event::TakeFront { worker }, Reply::Front(rank, seen))
}

/// A worker asks for the front, and every rank is decided.
pub(crate) fn done(worker: u32) -> Row {
    (Event::TakeFront { worker }, Reply::Done)
}

/// Whether these are the entries, in their order.
pub(crate) fn are_rows(entries: &[Entry], rows: &[Row]) -> bool {
    let mut pairs = entries.iter().zip(rows);
    entries.len() == rows.len() && pairs.all(|(entry, row)| (entry.event, entry.reply) == *row)
}

/// Whether just the second of three ranks is removed, by a derivation, and the others are kept.
pub(crate) fn removes_the_second(book: &Book) -> bool {
    let kept: [u32; 2] = [0, 2];
    let whys = [
        book.why(0).is_some(),
        book.why(1).is_some(),
        book.why(2).is_some(),
    ];
    book.core().kept() == kept.as_slice()
        && book.table().ranks() == kept.as_slice()
        && whys == [false, true, false]
}
