//! What workers tell the core, and its replies.

/// What a worker asks or tells. `seen` is how many kept ranks, from the first on, a verdict rests
/// on.
#[derive(Clone, Copy, Debug, PartialEq, Eq)]
pub enum Event {
    /// Asks to test a rank.
    Take {
        worker: u32,
        rank: u32,
    },
    /// Asks to test the rank at the front.
    TakeFront {
        worker: u32,
    },
    /// Tells that the rank is incoherent together with the kept ranks seen.
    No {
        worker: u32,
        rank: u32,
        seen: u32,
    },
    /// Tells that the rank is coherent together with the kept ranks seen.
    Yes {
        worker: u32,
        rank: u32,
        seen: u32,
    },
    /// Tells that all kept ranks are coherent together with the ranks of a block that are not
    /// removed. The block begins at the front.
    Block {
        worker: u32,
        rank: u32,
        count: u32,
        seen: u32,
    },
}

/// What the core replies.
#[derive(Clone, Copy, Debug, PartialEq, Eq)]
pub enum Reply {
    /// The rank that was asked for is decided already.
    Over,
    /// The rank may be tested against this number of kept ranks.
    Seen(u32),
    /// Every rank is decided.
    Done,
    /// The rank at the front, and the number of kept ranks to test it against.
    Front(u32, u32),
    /// The verdict comes too late: the rank is decided.
    Late,
    /// The rank is removed.
    Marked,
    /// The verdict rests on fewer ranks than are kept by now, which is this number.
    Stale(u32),
    /// The rank, or the block, is kept.
    Kept,
    /// The rank is too far past the front to be noted.
    Far,
    /// The verdict is noted until the front comes to the rank.
    Noted,
}
