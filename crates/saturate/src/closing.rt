//! The loop over places: the list of facts is its own worklist.

ghost use Rattle.std.specs.Prelude.{◌<◌, ◌≤◌, ◌≡◌, IfOk, OnOk, MatchOption, length};
ghost use Rattle.fact_layers.specs.Tops.{whole};
ghost use Rattle.rule_steps.specs.Counted.{IsCounted, nodes_of};
ghost use Rattle.rule_steps.specs.Growing.{facts_in, AreDerived, HasGrown};
ghost use Rattle.rule_steps.specs.Answering.{AreClosedBelow, AreBegunBelow};
ghost use Rattle.saturate.specs.Inside.Clashes.{HasClashAt, AreLiveWithin};
ghost use Rattle.saturate.specs.Inside.Saturated.{AreAnsweredWithin, IsCaughtUp, HasCaughtUpOrClash};

use crate::clashes::clash_from;
use fact_layers::Layers;
use fact_table::FactsByPlace;
use rule_steps::{Grounds, an_answered_place_is_closed, answer, begin, growing_takes_nothing_away};
use std::alloc::AllocError;

/// Adds whatever the rules without premises give.
pub fn begin_all(grounds: &Grounds, layers: &mut Layers) -> Result<(), AllocError>
    ensures grown { HasGrown grounds.now layers.old layers.new }
    ensures begun { OnOk result (AreBegunBelow (nodes_of grounds.now) (IsCounted grounds.now)
        (length (nodes_of grounds.now)) (facts_in layers.new)) }
{
    growing_takes_nothing_away();
    for node in 0..grounds.store().nodes() {
        begin(grounds, layers, node)?;
    }
    Ok(())
}

/// Answers each place from one on, to the end of the list.
pub fn close(grounds: &Grounds, layers: &mut Layers, from: usize) -> Result<(), AllocError>
    requires within { from ≤ length (facts_in layers.old) }
    requires derived { AreDerived grounds.now (whole layers.old) }
    requires closed { AreClosedBelow (nodes_of grounds.now) (IsCounted grounds.now) from
        (facts_in layers.old) }
    ensures grown { HasGrown grounds.now layers.old layers.new }
    ensures closed { OnOk result (AreClosedBelow (nodes_of grounds.now) (IsCounted grounds.now)
        (length (facts_in layers.new)) (facts_in layers.new)) }
{
    an_answered_place_is_closed();
    growing_takes_nothing_away();
    for place in from..usize::MAX {
        if place >= layers.len() {
            return Ok(());
        }
        answer(grounds, layers, place)?;
    }
    Err(AllocError)
}

/// Answers each place from one on, until the list ends or a node is empty that must have a member.
pub fn close_until_clash(
    grounds: &Grounds,
    layers: &mut Layers,
    from: usize,
) -> Result<Option<usize>, AllocError>
    requires within { from ≤ length (facts_in layers.old) }
    requires derived { AreDerived grounds.now (whole layers.old) }
    requires live { AreLiveWithin grounds.now.case 0 from (facts_in layers.old) }
    ensures grown { HasGrown grounds.now layers.old layers.new }
    ensures answered { IfOk result (λ found. MatchOption found
        (AreAnsweredWithin grounds.now from (length (facts_in layers.new)) (facts_in layers.new))
        (HasClashAt grounds.now.case (facts_in layers.new))) }
    ensures live { IfOk result (λ found. MatchOption found
        (AreLiveWithin grounds.now.case 0 (length (facts_in layers.new)) (facts_in layers.new))
        (HasClashAt grounds.now.case (facts_in layers.new))) }
{
    growing_takes_nothing_away();
    let mut seen = from;
    for place in from..usize::MAX {
        match clash_from(grounds.case(), layers, seen) {
            Some(clash) => return Ok(Some(clash)),
            None => {}
        }
        seen = layers.len();
        if place >= seen {
            return Ok(None);
        }
        answer(grounds, layers, place)?;
    }
    Err(AllocError)
}

/// Adds whatever follows for the first nodes, one node after the other, until a class is empty that
/// must have a member.
pub fn begin_until_clash(
    grounds: &Grounds,
    layers: &mut Layers,
) -> Result<Option<usize>, AllocError>
    requires { IsCaughtUp grounds.now layers.old }
    ensures grown { HasGrown grounds.now layers.old layers.new }
    ensures begun { IfOk result (HasCaughtUpOrClash grounds.now layers.new
        (AreBegunBelow (nodes_of grounds.now) (IsCounted grounds.now)
        (length (nodes_of grounds.now)) (facts_in layers.new))) }
{
    growing_takes_nothing_away();
    for node in 0..grounds.store().nodes() {
        let from = layers.len();
        begin(grounds, layers, node)?;
        match close_until_clash(grounds, layers, from)? {
            Some(clash) => return Ok(Some(clash)),
            None => {}
        }
    }
    Ok(None)
}
