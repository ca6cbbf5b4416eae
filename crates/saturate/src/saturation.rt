//! What follows: to the end, or until a class is empty that must have a member.

ghost use Rattle.std.specs.Prelude.{◌≡◌, [], IfOk, OnOk, MatchOption};
ghost use Rattle.fact_layers.specs.Tops.{whole};
ghost use Rattle.rule_steps.specs.Growing.{facts_in, AreDerived};
ghost use Rattle.saturate.specs.Inside.Clashes.{HasClashAt};
ghost use Rattle.case_file.specs.Cases.{AreRanksOf};
ghost use Rattle.saturate.specs.Inside.Saturated.{AddsRanks, IsReady, IsSaturated, IsLive, grounds_of};

use crate::closing::{begin_all, begin_until_clash, close};
use crate::laws::{closed_tables_are_closed_for_more_rows, links_are_by_roles};
use crate::rows::enter_rows;
use closed_model::ClosedTable;
use fact_layers::{Base, Layers};
use fact_table::FactsByPlace;
use rule_steps::{
    Grounds, an_answered_place_is_closed, facts_closed_to_the_end_are_closed,
    growing_takes_nothing_away, rows_have_inclusions,
};
use std::alloc::{AllocError, Global};

/// The facts that the rules without premises give.
pub fn begun(alloc: Global, grounds: &Grounds) -> Result<Layers, AllocError>
    ensures { IfOk result (λ layers. IsReady grounds.now layers 0) }
{
    let base = Base::empty(alloc)?;
    let mut layers = Layers::over(alloc, base)?;
    begin_all(grounds, &mut layers)?;
    Ok(layers)
}

/// Adds all that follows.
pub fn saturate_all(grounds: &Grounds, layers: &mut Layers, from: usize) -> Result<(), AllocError>
    requires { IsReady grounds.now layers.old from }
    ensures derived { AreDerived grounds.now (whole layers.new) }
    ensures saturated { OnOk result (IsSaturated grounds.now layers.new) }
{
    facts_closed_to_the_end_are_closed();
    growing_takes_nothing_away();
    close(grounds, layers, from)?;
    Ok(())
}

/// Adds all that follows, node by node, or what follows until a class is empty that must have a
/// member.
pub fn saturate_by_nodes(
    grounds: &Grounds,
    layers: &mut Layers,
) -> Result<Option<usize>, AllocError>
    requires { whole layers.old ≡ [] }
    ensures derived { AreDerived grounds.now (whole layers.new) }
    ensures decided { IfOk result (λ found. MatchOption found (IsLive grounds.now layers.new)
        (HasClashAt grounds.now.case (facts_in layers.new))) }
{
    an_answered_place_is_closed();
    facts_closed_to_the_end_are_closed();
    begin_until_clash(grounds, layers)
}

/// Adds all that follows from further rows, the first of them given, to the facts of a snapshot, or
/// what follows until a class is empty that must have a member.
pub fn saturate_rows(
    grounds: &Grounds,
    layers: &mut Layers,
    snapshot: &ClosedTable,
    first: u32,
    more: &[u32],
) -> Result<Option<usize>, AllocError>
    requires grounds { grounds.now ≡ grounds_of snapshot.now.case grounds.now.ranks }
    requires ranks { AreRanksOf snapshot.now.case grounds.now.ranks }
    requires added { AddsRanks snapshot.now.ranks first more.now grounds.now.ranks }
    requires base { layers.old.base ≡ snapshot.now.items }
    requires top { layers.old.top ≡ [] }
    ensures derived { AreDerived grounds.now (whole layers.new) }
    ensures decided { IfOk result (λ found. MatchOption found (IsLive grounds.now layers.new)
        (HasClashAt grounds.now.case (facts_in layers.new))) }
{
    an_answered_place_is_closed();
    facts_closed_to_the_end_are_closed();
    closed_tables_are_closed_for_more_rows();
    links_are_by_roles();
    rows_have_inclusions();
    let _case = snapshot.case().store();
    let below = layers.len();
    enter_rows(grounds, layers, first, below, more)
}
