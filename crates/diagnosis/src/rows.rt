//! Which rows of the table are kept.

ghost use Rattle.std.specs.Prelude.{◌≡◌, ◌<◌, ◌+◌, All, count_by, length, IfOk};
ghost use Rattle.accuse_core.specs.Marks.{kept_of};
ghost use Rattle.diagnosis.specs.Rows.{keep_of};

use accuse_core::front_is_the_least_undecided_rank;
use case_file::Case;
use commit_book::{Book, books_are_sound};
use std::alloc::{AllocError, Global};

/// For each row, in the order of the table, whether it is kept.
#[derive(Debug, Drop)]
pub struct KeptRows {
    pub keep: Vec<bool>,
    /// How many rows are kept.
    pub kept: usize,
    /// How many rows are removed.
    pub removed: usize,
}

// Marks the rows at these ranks.
fn marked(alloc: Global, case: &Case, ranks: &[u32]) -> Result<Vec<bool>, AllocError>
    requires { All (λ rank. rank < length case.now.order) ranks.now }
    ensures { IfOk result (λ keep. keep.items ≡ keep_of case.now.order ranks.now) }
{
    let _case = case.store();
    let mut keep = vec![in alloc; false; case.ranks() as usize]?;
    for rank in ranks {
        let row = case.row_of(*rank);
        keep[row as usize] = true;
    }
    Ok(keep)
}

fn counted(keep: Vec<bool>) -> KeptRows
    ensures keep { result.keep.items ≡ keep.items }
    ensures kept { result.kept ≡ count_by (λ keeps. keeps) keep.items }
    ensures removed { result.kept + result.removed ≡ length keep.items }
{
    let kept = keep.iter().filter(|keeps| **keeps).count();
    let removed = keep.len() - kept;
    KeptRows {
        keep,
        kept,
        removed,
    }
}

/// The rows at the kept ranks of a book. Once every rank is decided, all other rows are removed.
pub fn kept_rows(alloc: Global, book: &Book) -> Result<KeptRows, AllocError>
    ensures keep { IfOk result (λ rows.
        rows.keep.items ≡ keep_of book.now.case.order (kept_of book.now.marks)) }
    ensures kept { IfOk result (λ rows. rows.kept ≡ count_by (λ keeps. keeps) rows.keep.items) }
    ensures removed { IfOk result (λ rows.
        rows.kept + rows.removed ≡ length book.now.case.order) }
{
    books_are_sound(book);
    front_is_the_least_undecided_rank();
    let _ = book.journal();
    let keep = marked(alloc, book.case(), book.core().kept())?;
    Ok(counted(keep))
}
