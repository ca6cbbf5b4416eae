//! Reading a derivation off a list of facts with their reasons.

ghost use Rattle.std.specs.Prelude.{◌≡◌, ◌<◌, ℕ, IsTrue, ◌↔◌, ◌⊎◌, ◌∷◌, [], length, slice_get, Some, Contains, IfOk, OnOk};
ghost use Rattle.std.specs.BTreeSet.{contains};
ghost use Rattle.std.specs.Ordering.{nat_cmp};
ghost use Rattle.fact_table.specs.declared.types.Source.{Source};
ghost use Rattle.derivation.specs.Steps.{IsAscending};
ghost use Rattle.derivation.specs.Traces.{IsPremiseOf, EachNamesEarlier, IsNumberOf, TellsItem, IsTraceOf};
ghost use Rattle.derivation.specs.Inside.Needed.{AreNeeded};

use crate::checking::{names_axiom, premises};
use crate::{Derivation, Step};
use fact_table::{FactsByPlace, Proved, Reason, Source};
use std::alloc::{AllocError, Global};
use std::collections::BTreeSet;

// Adds the places of the premises of a reason.
fn add_premises(places: &mut BTreeSet<usize>, reason: &Reason) -> Result<(), AllocError>
    ensures { OnOk result ((place : ℕ) → IsTrue (contains nat_cmp places.new place)
        ↔ (IsPremiseOf reason.now place ⊎ IsTrue (contains nat_cmp places.old place))) }
{
    let count = premises(reason.rule);
    if count >= 1 {
        places.insert(reason.first)?;
    }
    if count >= 2 {
        places.insert(reason.second)?;
    }
    Ok(())
}

// The places of the facts from which the goal follows, the goal's place first.
fn needed_places<F: FactsByPlace>(
    alloc: Global,
    facts: &F,
    goal: usize,
) -> Result<Vec<usize>, AllocError>
    requires within { goal < length (F.facts facts.now) }
    requires earlier { EachNamesEarlier (F.facts facts.now) }
    ensures { IfOk result (λ places. AreNeeded (F.facts facts.now) goal places.items) }
{
    let mut places = Vec::new(alloc);
    places.push(goal)?;
    let mut pending = BTreeSet::new(alloc);
    add_premises(&mut pending, &facts.at(goal).reason)?;
    while let Some(place) = pending.pop_last() {
        places.push(place)?;
        add_premises(&mut pending, &facts.at(place).reason)?;
    }
    Ok(places)
}

// The number, from 1, of the step for a place.
fn number_of(places: &[usize], place: usize) -> usize
    requires ascending { IsAscending places.now }
    requires held { Contains places.now place }
    ensures { IsNumberOf places.now place result }
{
    match places.binary_search(&place) {
        Ok(k) => k + 1,
        Err(_) => unreachable!(),
    }
}

// The step that says what an item says.
fn step_of(places: &[usize], item: &Proved) -> Step
    requires ascending { IsAscending places.now }
    requires held { (place : ℕ) → IsPremiseOf item.now.reason place → Contains places.now place }
    ensures { TellsItem places.now item.now result }
{
    let reason = item.reason;
    let count = premises(reason.rule);
    let first = if count >= 1 {
        number_of(places, reason.first)
    } else {
        0
    };
    let second = if count >= 2 {
        number_of(places, reason.second)
    } else {
        0
    };
    let source = if names_axiom(reason.rule) {
        reason.source
    } else {
        Source::Nothing
    };
    Step {
        first,
        second,
        fact: item.fact,
        source,
        rule: reason.rule,
    }
}

/// The derivation of the fact at a place. Its time and memory go with the number of its steps, and
/// not with that of the facts.
pub fn trace<F: FactsByPlace>(
    alloc: Global,
    facts: &F,
    goal: usize,
) -> Result<Derivation, AllocError>
    requires within { goal < length (F.facts facts.now) }
    requires earlier { EachNamesEarlier (F.facts facts.now) }
    ensures { IfOk result (IsTraceOf (F.facts facts.now) goal) }
{
    let mut places = needed_places(alloc, facts, goal)?;
    places.reverse();
    let mut steps = Derivation::new(alloc);
    for place in &places {
        steps.push(step_of(places.as_slice(), &facts.at(*place)))?;
    }
    Ok(steps)
}
