//! The steps of removed rows.

ghost use Rattle.std.specs.Prelude.{◌≡◌, ◌<◌, ◌^◌, ℕ, List, Some, All, length, slice_get, IfOk, MatchOption};
ghost use Rattle.evidence_text.specs.declared.types.Removed.{Removed};
ghost use Rattle.valid_evidence.specs.Rows.{source_by_rank, steps_by_rank, rank_of_row};
ghost use Rattle.valid_evidence.specs.Items.{IsShownEmpty};
ghost use Rattle.check_items.specs.Inside.Stages.{IsRowAnswer, bad_row, IsStepsFault};
ghost use Rattle.check_items.specs.Inside.Tables.{HasItsRows, AreRowsOf, AreTablesOf, row_ranks};

use crate::BadItem;
use crate::rows::{RowTables, ranks_up_to};
use case_file::Case;
use derivation::{BadStep, Derivation, Step, check_derivation, derivations_have_one_answer};
use el_logic::Part;
use evidence_text::Removed;
use fact_table::Source;
use std::alloc::{AllocError, Global};
use valid_evidence::rows_have_their_ranks;

// The rank of the row with this number; the number of ranks if there is no such row.
fn rank_of(ranks: &[u32], row: u32) -> u32
    requires { length ranks.now < 2 ^ 31 }
    ensures { (order : List ℕ) → HasItsRows order → ranks.now ≡ row_ranks order
        → result ≡ rank_of_row order row }
{
    rows_have_their_ranks();
    let place = row as usize;
    if place == 0 || place > ranks.len() {
        return ranks.len() as u32;
    }
    ranks[place - 1]
}

// A source by the rank of its row.
fn source_by_rank(ranks: &[u32], source: Source) -> Source
    requires { length ranks.now < 2 ^ 31 }
    ensures { (order : List ℕ) → HasItsRows order → ranks.now ≡ row_ranks order
        → result ≡ source_by_rank order source }
{
    match source {
        Source::Row { rank: row, number } => {
            let rank = rank_of(ranks, row);
            Source::Row { rank, number }
        }
        _ => source,
    }
}

/// Steps by the ranks of their rows.
pub fn steps_by_rank(alloc: Global, ranks: &[u32], steps: &[Step]) -> Result<Derivation, AllocError>
    requires { length ranks.now < 2 ^ 31 }
    ensures { IfOk result (λ by_rank. (order : List ℕ) → HasItsRows order
        → ranks.now ≡ row_ranks order → by_rank ≡ steps_by_rank order steps.now) }
{
    let mut by_rank = Vec::new(alloc);
    for step in steps {
        let source = source_by_rank(ranks, step.source);
        by_rank.push(Step { source, ..*step })?;
    }
    Ok(Derivation::from_vec(by_rank))
}

// What the steps of the removed row at a place are answered.
fn steps_answer(
    alloc: Global,
    case: &Case,
    tables: &RowTables,
    removed: &[Removed],
    place: usize,
) -> Result<Result<(), BadStep>, AllocError>
    requires tables { AreTablesOf case.now removed.now tables.now }
    requires rows { AreRowsOf (length case.now.order) removed.now }
    requires place { place < length removed.now }
    ensures { IfOk result (λ answer. (one : Removed) → slice_get removed.now place ≡ Some one
        → IsRowAnswer case.now removed.now one answer) }
{
    rows_have_their_ranks();
    let _case = case.store();
    let one = &removed[place];
    let table = tables.ranks.as_slice();
    let rank = rank_of(table, one.row);
    let ranks = ranks_up_to(alloc, tables.kept.as_slice(), rank)?;
    let steps = steps_by_rank(alloc, table, one.steps.as_slice())?;
    Ok(check_derivation(case, &steps, Part::Both, ranks.as_slice()))
}

/// The item that fails, if the steps of the row with this number are wrong.
pub fn bad_row(row: u32, reason: BadStep) -> BadItem
    ensures { result ≡ bad_row row reason }
{
    match reason {
        BadStep::Step(number) => BadItem::Step { row, number },
        BadStep::Goal => BadItem::Goal(row),
    }
}

/// The first removed row whose steps don't show a class to be empty.
pub fn bad_steps(
    alloc: Global,
    case: &Case,
    tables: &RowTables,
    removed: &[Removed],
) -> Result<Option<BadItem>, AllocError>
    requires tables { AreTablesOf case.now removed.now tables.now }
    requires rows { AreRowsOf (length case.now.order) removed.now }
    ensures { IfOk result (λ found. MatchOption found
        (All (IsShownEmpty case.now removed.now) removed.now)
        (IsStepsFault case.now removed.now)) }
{
    derivations_have_one_answer();
    for place in 0..removed.len() {
        let answer = steps_answer(alloc, case, tables, removed, place)?;
        match answer {
            Ok(()) => {}
            Err(reason) => return Ok(Some(bad_row(removed[place].row, reason))),
        }
    }
    Ok(None)
}
