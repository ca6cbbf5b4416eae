//! Removed rows by their numbers.

ghost use Rattle.std.specs.Prelude.{◌≡◌, ◌<◌, ◌+◌, ◌^◌, ℕ, All, filter_map, length, map, slice_index, IfOk};
ghost use Rattle.std.specs.List.{range_with_len};
ghost use Rattle.valid_evidence.specs.Rows.{rank_of_row};
ghost use Rattle.run_evidence.specs.Tellable.{IsEachOnce};
ghost use Rattle.run_evidence.specs.Inside.DecidedBooks.{IsDecidedBook};
ghost use Rattle.run_evidence.specs.Inside.RowNumbers.{HasRanksBelow, source_by_row, step_by_row, removed_at};

use crate::cases::case_in;
use case_file::Case;
use commit_book::Book;
use derivation::{Derivation, Step};
use evidence_text::{Removed, RemovedList};
use fact_table::Source;
use std::alloc::{AllocError, Global};

// The rank of each row, by the row's index.
fn ranks_by_row(alloc: Global, case: &Case) -> Result<Vec<u32>, AllocError>
    requires { IsEachOnce case.now.order }
    ensures count { IfOk result (λ ranks. length ranks.items ≡ length case.now.order) }
    ensures ranks { IfOk result (λ ranks. (index : ℕ) → index < length case.now.order
        → slice_index ranks.items index ≡ rank_of_row case.now.order (index + 1)) }
{
    let _case = case.store();
    let count = case.ranks();
    let mut ranks = vec![in alloc; 0; count as usize]?;
    for rank in 0..count {
        ranks[case.row_of(rank) as usize] = rank;
    }
    Ok(ranks)
}

// A source with the number of a row in the place of its rank.
fn source_by_row(case: &Case, source: Source) -> Source
    requires { HasRanksBelow (length case.now.order) source }
    ensures { result ≡ source_by_row case.now.order source }
{
    match source {
        Source::Row { rank, number } => {
            let _case = case.store();
            let row = case.row_of(rank) + 1;
            Source::Row { rank: row, number }
        }
        _ => source,
    }
}

/// The steps of a derivation, with the numbers of rows in the place of ranks.
pub fn steps_by_row(alloc: Global, case: &Case, steps: &[Step]) -> Result<Derivation, AllocError>
    requires { All (λ step. HasRanksBelow (length case.now.order) step.source) steps.now }
    ensures { IfOk result (λ told. told ≡ map (step_by_row case.now.order) steps.now) }
{
    let mut told = Vec::with_capacity(alloc, steps.len())?;
    for step in steps {
        let source = source_by_row(case, step.source);
        told.push(Step { source, ..*step })?;
    }
    Ok(Derivation::from_vec(told))
}

/// The removed rows of a book, in ascending order, each with its derivation.
pub fn removed_rows(alloc: Global, book: &Book) -> Result<RemovedList, AllocError>
    requires { IsDecidedBook book.now.case book.now.marks book.now.whys }
    ensures { IfOk result (λ removed. removed
        ≡ filter_map (removed_at book.now.case.order book.now.whys)
        (range_with_len 0 (length book.now.case.order))) }
{
    let case = case_in(book);
    let ranks = ranks_by_row(alloc, case)?;
    let mut removed = Vec::new(alloc);
    for (index, rank) in ranks.iter().enumerate() {
        let Some(why) = book.why(*rank) else {
            continue;
        };
        let steps = steps_by_row(alloc, case, why.as_slice())?;
        let row = index as u32 + 1;
        removed.push(Removed { row, steps })?;
    }
    Ok(RemovedList::from_vec(removed))
}
