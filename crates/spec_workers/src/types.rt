//! What a worker gives back.

use commit_book::Book;
use commit_lock::{DrawPass, Seat};

/// Why a worker ended.
#[derive(Clone, Copy, Debug, PartialEq, Eq)]
pub enum WorkEnd {
    /// Every rank is decided.
    Done,
    /// It has made as many tests as it was allowed.
    Budget,
    /// There was no memory left for it. Other workers may go on.
    OutOfMemory,
}

/// A worker's seat and pass, which it gives back, and why it ended.
#[derive(Drop)]
pub struct Worked {
    pub seat: Seat<Book>,
    pub pass: DrawPass,
    pub end: WorkEnd,
}
