//! What a worker needs to take part.

use commit_book::Book;
use commit_lock::{DrawPass, Seat};

/// A seat at the lock, and a pass of the word from which ranks are drawn.
#[derive(Drop)]
pub struct Part {
    pub seat: Seat<Book>,
    pub pass: DrawPass,
}
