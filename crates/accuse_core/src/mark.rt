//! The mark of a rank.

/// What is known of a rank.
#[derive(Clone, Copy, Debug, PartialEq, Eq)]
pub enum Mark {
    /// Nothing.
    Open,
    /// It is coherent together with this number of the first kept ranks.
    Yes(u32),
    /// It is kept.
    Kept,
    /// It is removed.
    Removed,
}
