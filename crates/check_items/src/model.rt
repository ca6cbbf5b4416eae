//! The model.

ghost use Rattle.std.specs.Prelude.{◌≡◌, ◌+◌, slice_index, IfOk, MatchOption};
ghost use Rattle.case_file.specs.Cases.{AreRanksOf};
ghost use Rattle.closed_model.specs.Models.{IsModelFor};
ghost use Rattle.check_items.specs.Firsts.{source_by_row};
ghost use Rattle.check_items.specs.Inside.Stages.{IsModelBad};

use crate::BadItem;
use case_file::Case;
use el_logic::Interp;
use fact_table::Source;
use model_check::{ModelFault, check_model};
use std::alloc::{AllocError, Global};

// The number of the row with a rank; 1 if there is no such rank.
fn row_number(case: &Case, rank: u32) -> u32
    ensures { result ≡ slice_index case.now.order rank + 1 }
{
    let _case = case.store();
    if rank < case.ranks() {
        case.row_of(rank) + 1
    } else {
        1
    }
}

// A source by the number of its row.
fn source_by_row(case: &Case, source: Source) -> Source
    ensures { result ≡ source_by_row case.now.order source }
{
    match source {
        Source::Row { rank, number } => {
            let rank = row_number(case, rank);
            Source::Row { rank, number }
        }
        _ => source,
    }
}

/// What is wrong with the model of the rows with these ranks.
pub fn bad_model(
    alloc: Global,
    case: &Case,
    ranks: &[u32],
    model: &Interp,
) -> Result<Option<BadItem>, AllocError>
    requires { AreRanksOf case.now ranks.now }
    ensures { IfOk result (λ found. MatchOption found (IsModelFor case.now ranks.now model.now)
        (IsModelBad case.now ranks.now model.now)) }
{
    match check_model(alloc, case, model, ranks) {
        Ok(()) => Ok(None),
        Err(ModelFault::Form) => Ok(Some(BadItem::Form)),
        Err(ModelFault::Axiom(source)) => Ok(Some(BadItem::Axiom(source_by_row(case, source)))),
        Err(ModelFault::Class(node)) => Ok(Some(BadItem::Class(node))),
        Err(ModelFault::OutOfMemory) => Err(AllocError),
    }
}
