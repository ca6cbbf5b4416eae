//! What a worker is given to test.

use closed_model::ClosedTable;

/// A rank to test, and what to test it against: the table of the first `seen` kept ranks.
#[derive(Drop)]
pub struct Taken {
    pub rank: u32,
    pub seen: u32,
    pub snapshot: ClosedTable,
}

/// The answer to a worker that asks for a rank.
#[derive(Drop)]
pub enum TakeAnswer {
    /// The rank is decided already.
    Over,
    /// The rank may be tested.
    Seen(Taken),
}

/// The answer to a worker that asks for the rank at the front.
#[derive(Drop)]
pub enum FrontAnswer {
    /// Every rank is decided.
    Done,
    /// The rank at the front, to be tested.
    Front(Taken),
}
