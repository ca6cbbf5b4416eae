//! The outside as two traits: files by name, and lines of output.
ghost use Rattle.std.specs.Prelude.{◌≡◌, ◌↔◌, ◌⊎◌, ◌<◌, ◌≤◌, ◌-◌, ◌^◌, ℕ};
ghost use Rattle.io_edge.specs.Outside.{FolderSeen, SinkSeen, FaultsNeverFall, Rose, ReadAnswers, WriteAnswers, PutAnswers};

use std::alloc::Global;
use text_names::{Bytes, Text};

/// Which of a run's files is meant.
#[derive(Clone, Copy, Debug, PartialEq, Eq)]
pub enum Role {
    Left,
    Right,
    Map,
    Out,
    Evidence,
}

/// What could not be written: a file, or a line of the output.
#[derive(Clone, Copy, Debug, PartialEq, Eq)]
pub enum Target {
    Out,
    Evidence,
    Output,
}

/// What a read gives.
#[derive(Debug, Drop)]
pub enum ReadAnswer {
    /// All bytes of the file.
    Whole(Bytes),
    /// The file has more bytes than were asked for.
    TooLong,
    /// The system reported an error, or no file has this name.
    Failed,
    OutOfMemory,
}

/// What a write gives.
#[derive(Clone, Copy, Debug, PartialEq, Eq)]
pub enum WriteAnswer {
    Done,
    /// The system reported an error; the file is as before or holds the first bytes of the new
    /// ones.
    Failed,
    /// Nothing was written.
    OutOfMemory,
}

/// What a put gives.
#[derive(Clone, Copy, Debug, PartialEq, Eq)]
pub enum PutAnswer {
    Done,
    /// The system reported an error after the first bytes of the piece.
    Failed,
    /// Nothing was put.
    OutOfMemory,
}

/// Files by name. A folder may tell what its files hold, as one in memory does, or tell nothing, as
/// the system's does.
pub trait Folder {
    /// What clauses see of it: its files, if it tells them, and its counts of faults by name.
    ghost seen: { Self → FolderSeen };

    /// Reads a whole file of at most `max` bytes. No file changes.
    fn read(&mut self, alloc: Global, name: &Text, max: u64) -> ReadAnswer
        ensures files { (seen self.new).files ≡ (seen self.old).files }
        ensures answer { ReadAnswers (seen self.old) (seen self.new) name.now max result }
        ensures later { FaultsNeverFall (seen self.old) (seen self.new) };

    /// Makes a file hold these bytes, whether it was there or not. No other file changes.
    fn write(&mut self, alloc: Global, name: &Text, bytes: &[u8]) -> WriteAnswer
        ensures answer { WriteAnswers (seen self.old) (seen self.new) name.now bytes.now result }
        ensures later { FaultsNeverFall (seen self.old) (seen self.new) };
}

/// Where lines of output are put.
pub trait Sink {
    /// What clauses see of it: the bytes that it has got, if it tells them, and its count of
    /// faults.
    ghost seen: { Self → SinkSeen };

    /// Puts a piece after what was put before. It is a fault if the piece is not empty and nothing
    /// of it is taken.
    fn put(&mut self, alloc: Global, bytes: &[u8]) -> PutAnswer
        ensures answer { PutAnswers (seen self.old) (seen self.new) bytes.now result }
        ensures later { (seen self.old).faults ≤ (seen self.new).faults };
}

/// A count rose if it is greater than before, or if it stands at the end of its type, where
/// counters stop.
pub fn rose_is_greater_or_at_the_end()
    ensures { (before now : ℕ) → now < 2 ^ 64
        → Rose before now ↔ ((before < now) ⊎ (now ≡ 2 ^ 64 - 1)) }
{}
