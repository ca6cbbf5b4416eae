//! Items of evidence that fail.

use fact_table::Source;

/// The first item of evidence that fails. The items are checked in the order in which they stand
/// here.
#[derive(Clone, Copy, Debug, PartialEq, Eq)]
pub enum BadItem {
    /// The text is of another version.
    Version,
    /// The line with this number, from 1, has not the form that its place asks.
    Line(u64),
    /// The text ends in the section that begins at this line.
    Length(u64),
    /// It is no evidence of a diagnosis, or of a refusal if one is asked for.
    Kind,
    /// The axioms that are left out are others.
    Omitted,
    /// The nodes of the case are others.
    Nodes,
    /// The roles of the case are others.
    Roles,
    /// A removed row has this number, and the table has no such row.
    Removed(u32),
    /// OUT is not the text of the table without the removed rows.
    Output,
    /// Of the steps for the removed row with this number the one with this number, from 1, is no
    /// step. A refusal has steps for no row, and the row is 0.
    Step { row: u32, number: usize },
    /// The steps for this row don't show a class to be empty that must have a member.
    Goal(u32),
    /// The model is no interpretation of the names of the case.
    Form,
    /// This axiom doesn't hold in the model. The rank of its source is the number of its row.
    Axiom(Source),
    /// The class with this node has no member in the model.
    Class(u32),
    /// The entry of the journal with this number, from 1, doesn't fit or has another reply.
    Journal(u64),
    /// After the journal not all ranks are decided, or others are removed.
    End,
}
