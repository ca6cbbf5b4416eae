//! The rows of a case: their axioms, how many are inert, and their order.

ghost use Rattle.std.specs.Prelude.{◌≡◌, ◌==◌, ◌<◌, ◌^◌, length, map, count_by, IfOk};
ghost use Rattle.predicate_axioms.specs.RowAxioms.{row_axioms};
ghost use Rattle.rank_order.specs.Order.{IsRanking};

use case_file::AxiomLists;
use el_logic::{Axioms, Numbers};
use ofn_axiom::Names;
use predicate_axioms::axioms_of_row;
use rank_order::{Confidence, rank};
use sssom_rows::Row;
use std::alloc::{AllocError, Global};

/// The axioms of each row, over the names of both ontologies.
pub fn axioms_of_rows(alloc: Global, rows: &[Row], names: &Names) -> Result<AxiomLists, AllocError>
    ensures { IfOk result (λ lists. lists ≡
        map (row_axioms names.now.classes.names names.now.roles.names) rows.now) }
{
    let mut lists = Vec::with_capacity(alloc, rows.len())?;
    for row in rows {
        lists.push(axioms_of_row(alloc, row, &names.classes, &names.roles)?)?;
    }
    Ok(AxiomLists::from_vec(lists))
}

/// How many rows have no axioms.
pub fn inert_count(lists: &[Axioms]) -> u32
    requires { length lists.now < 2 ^ 31 }
    ensures { result ≡ count_by (λ axioms. length axioms == 0) lists.now }
{
    let mut inert = 0u32;
    for axioms in lists {
        if axioms.len() == 0 {
            inert += 1;
        }
    }
    inert
}

fn confidences_of(alloc: Global, rows: &[Row]) -> Result<Vec<Confidence>, AllocError>
    ensures { IfOk result (λ confidences.
        confidences.items ≡ map (λ row. row.confidence) rows.now) }
{
    let mut confidences = Vec::with_capacity(alloc, rows.len())?;
    for row in rows {
        confidences.push(row.confidence)?;
    }
    Ok(confidences)
}

/// The index of the row with each rank.
pub fn order_of(alloc: Global, rows: &[Row]) -> Result<Numbers, AllocError>
    requires { length rows.now < 2 ^ 31 }
    ensures { IfOk result (λ order. IsRanking (map (λ row. row.confidence) rows.now) order) }
{
    let confidences = confidences_of(alloc, rows)?;
    let ranks = rank(alloc, confidences.as_slice())?;
    Numbers::from_slice(alloc, ranks.as_slice())
}
