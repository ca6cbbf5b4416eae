//! Removed rows by their numbers and their ranks.

ghost use Rattle.std.specs.Prelude.{◌≡◌, ◌≤◌, length, IfOk, MatchOption};
ghost use Rattle.evidence_text.specs.declared.types.Removed.{Removed};
ghost use Rattle.valid_evidence.specs.Rows.{IsOnce, rows_left, ranks_up_to};
ghost use Rattle.check_items.specs.Firsts.{IsFirstWithout};
ghost use Rattle.check_items.specs.Inside.Tables.{AreRowsOf, AreTablesOf, ranks_by, row_ranks};

use case_file::Case;
use evidence_text::Removed;
use std::alloc::{AllocError, Global};
use valid_evidence::rows_have_their_ranks;

/// The first number of a removed row that is none of so many rows.
pub fn first_unknown(rows: usize, removed: &[Removed]) -> Option<u32>
    ensures { MatchOption result (AreRowsOf rows removed.now) (λ row. (r : Removed)
        × (r.row ≡ row) × IsFirstWithout (λ r. (1 ≤ r.row) × (r.row ≤ rows)) removed.now r) }
{
    for one in removed {
        if one.row == 0 || one.row as usize > rows {
            return Some(one.row);
        }
    }
    None
}

/// For each row of a table whether it is left.
pub fn rows_left(alloc: Global, rows: usize, removed: &[Removed]) -> Result<Vec<bool>, AllocError>
    requires { AreRowsOf rows removed.now }
    ensures { IfOk result (λ keep. keep.items ≡ rows_left removed.now rows) }
{
    let mut keep = vec![in alloc; true; rows]?;
    for one in removed {
        keep[(one.row - 1) as usize] = false;
    }
    Ok(keep)
}

/// The rank of each row.
pub fn row_ranks(alloc: Global, case: &Case) -> Result<Vec<u32>, AllocError>
    requires { IsOnce case.now.order }
    ensures { IfOk result (λ ranks. ranks.items ≡ row_ranks case.now.order) }
{
    rows_have_their_ranks();
    let _case = case.store();
    let count = case.ranks();
    let mut ranks = vec![in alloc; count; count as usize]?;
    for rank in 0..count {
        let row = case.row_of(rank);
        ranks[row as usize] = rank;
    }
    Ok(ranks)
}

/// The ranks of the rows that are left, in ascending order.
pub fn ranks_left(alloc: Global, case: &Case, keep: &[bool]) -> Result<Vec<u32>, AllocError>
    requires { length keep.now ≡ length case.now.order }
    ensures { IfOk result (λ kept. kept.items ≡ ranks_by keep.now case.now.order) }
{
    let _case = case.store();
    let mut kept = Vec::new(alloc);
    for rank in 0..case.ranks() {
        if !keep[case.row_of(rank) as usize] {
            continue;
        }
        kept.push(rank)?;
    }
    Ok(kept)
}

/// Of some ranks those before this one, and then this one.
pub fn ranks_up_to(alloc: Global, kept: &[u32], rank: u32) -> Result<Vec<u32>, AllocError>
    ensures { IfOk result (λ ranks. ranks.items ≡ ranks_up_to kept.now rank) }
{
    let mut ranks = Vec::new(alloc);
    for other in kept {
        if *other < rank {
            ranks.push(*other)?;
        }
    }
    ranks.push(rank)?;
    Ok(ranks)
}

/// What removed rows say: for each row whether it is left, the ranks of those that are left, and
/// the rank of each row.
#[derive(Drop)]
pub struct RowTables {
    pub keep: Vec<bool>,
    pub kept: Vec<u32>,
    pub ranks: Vec<u32>,
}

/// The tables of removed rows, each of which is a row of the case.
pub fn row_tables(alloc: Global, case: &Case, removed: &[Removed]) -> Result<RowTables, AllocError>
    requires once { IsOnce case.now.order }
    requires rows { AreRowsOf (length case.now.order) removed.now }
    ensures { IfOk result (AreTablesOf case.now removed.now) }
{
    rows_have_their_ranks();
    let _case = case.store();
    let keep = rows_left(alloc, case.ranks() as usize, removed)?;
    let kept = ranks_left(alloc, case, keep.as_slice())?;
    let ranks = row_ranks(alloc, case)?;
    Ok(RowTables { keep, kept, ranks })
}
