//! A lock round a value that grows by entries, and a word from which numbers are drawn, each once.
#![tactic(auto)]

mod draw_word;
mod drawing;
mod lock;
mod seats;
mod steps;
#[cfg(test)]
mod tests;

pub use draw_word::{DrawPass, DrawWord};
pub use lock::{CloseFault, CommitLock, Grows, Seat};

fn is_send<T: Send>(_: &T) {}

fn is_sync<T: Sync>(_: &T) {}

/// Nothing calls this. It compiles only if threads may share a lock and a draw word, and may hand
/// on all four types.
#[allow(dead_code)]
fn crosses_threads<V: Grows>(
    lock: &CommitLock<V>,
    seat: &Seat<V>,
    word: &DrawWord,
    pass: &DrawPass,
) {
    is_send(lock);
    is_sync(lock);
    is_send(seat);
    is_send(word);
    is_sync(word);
    is_send(pass);
}
