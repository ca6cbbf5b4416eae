//! Rows that are added to a closed table.

ghost use Rattle.std.specs.Prelude.{◌≡◌, ◌<◌, ◌++◌, ◌∷◌, [], IfOk, All, length, slice_get};
ghost use Rattle.std.specs.List.Sorted.{IsStrictlyIncreasing};
ghost use Rattle.case_file.specs.Cases.{AreRanksOf};
ghost use Rattle.saturate.specs.Decisions.{IsVerdict};
ghost use Rattle.saturate.specs.Inside.Saturated.{AddsRanks};

use crate::Verdict;
use crate::laws::facts_show_emptiness;
use crate::saturation::saturate_rows;
use crate::tables::frozen;
use closed_model::{ClosedTable, a_closed_table_shows_coherence};
use derivation::{reasons_name_earlier_places, trace, traces_are_good};
use el_logic::{Numbers, Part};
use fact_layers::Layers;
use rule_steps::{Grounds, facts_stand_where_their_items_do};
use std::alloc::{AllocError, Global};

// The verdict on ranks that add more to those of a table, the first of these given.
fn test_from(
    alloc: Global,
    snapshot: &ClosedTable,
    ranks: &[u32],
    first: u32,
    more: &[u32],
) -> Result<Verdict, AllocError>
    requires ranks { AreRanksOf snapshot.now.case ranks.now }
    requires added { AddsRanks snapshot.now.ranks first more.now ranks.now }
    ensures { IfOk result (IsVerdict snapshot.now.case ranks.now) }
{
    a_closed_table_shows_coherence();
    facts_show_emptiness();
    traces_are_good();
    reasons_name_earlier_places();
    facts_stand_where_their_items_do();
    let case = snapshot.case();
    let _case = case.store();
    let grounds = Grounds::new(case, snapshot.tables(), Part::Both, ranks);
    let mut layers = Layers::over(alloc, snapshot.base().share(alloc)?)?;
    match saturate_rows(&grounds, &mut layers, snapshot, first, more)? {
        Some(clash) => Ok(Verdict::No(trace(alloc, &layers, clash)?)),
        None => {
            let ranks = Numbers::from_slice(alloc, ranks)?;
            Ok(Verdict::Yes(frozen(alloc, case, snapshot.tables(), ranks, layers)?))
        }
    }
}

// The verdict on a table's own ranks.
fn unchanged(alloc: Global, snapshot: &ClosedTable) -> Result<Verdict, AllocError>
    ensures { IfOk result (IsVerdict snapshot.now.case snapshot.now.ranks) }
{
    a_closed_table_shows_coherence();
    let _case = snapshot.case().store();
    Ok(Verdict::Yes(snapshot.share(alloc)?))
}

// Ranks followed by further ones.
fn followed_by(alloc: Global, ranks: &[u32], more: &[u32]) -> Result<Vec<u32>, AllocError>
    ensures { IfOk result (λ all. all.items ≡ ranks.now ++ more.now) }
{
    let mut all = Vec::from_slice(alloc, ranks)?;
    all.extend_from_slice(more)?;
    Ok(all)
}

// The first rank, if there is one.
fn first_of(ranks: &[u32]) -> Option<u32>
    ensures { result ≡ slice_get ranks.now 0 }
{
    ranks.first().copied()
}

/// Whether several rows can be added to those of a table. Their ranks ascend and follow the
/// table's. What follows from the table's rows is neither derived again nor copied.
pub fn test_block(
    alloc: Global,
    snapshot: &ClosedTable,
    ranks: &[u32],
) -> Result<Verdict, AllocError>
    requires ascending { IsStrictlyIncreasing ranks.now }
    requires below { All (λ rank. rank < length snapshot.now.case.order) ranks.now }
    requires after { All (λ old. All (λ rank. old < rank) ranks.now) snapshot.now.ranks }
    ensures { IfOk result (IsVerdict snapshot.now.case (snapshot.now.ranks ++ ranks.now)) }
{
    let _case = snapshot.case();
    match first_of(ranks) {
        None => unchanged(alloc, snapshot),
        Some(first) => {
            let all = followed_by(alloc, snapshot.ranks(), ranks)?;
            test_from(alloc, snapshot, all.as_slice(), first, ranks)
        }
    }
}

/// Whether one row can be added to those of a table. Its rank follows the table's.
pub fn test(alloc: Global, snapshot: &ClosedTable, rank: u32) -> Result<Verdict, AllocError>
    requires below { rank < length snapshot.now.case.order }
    requires after { All (λ old. old < rank) snapshot.now.ranks }
    ensures { IfOk result (IsVerdict snapshot.now.case (snapshot.now.ranks ++ rank ∷ [])) }
{
    let ranks = [rank];
    test_block(alloc, snapshot, ranks.as_slice())
}
