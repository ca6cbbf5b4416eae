//! The rule for disjoint nodes.

ghost use Rattle.std.specs.Prelude.{◌≡◌, ◌≢◌, ◌↔◌, ℕ, false, Contains, IsTrue, MatchOption, OnOk};
ghost use Rattle.concept_store.specs.declared.types.NodeAxiom.{NodeAxiom};
ghost use Rattle.fact_table.specs.declared.types.Fact.TheVariants.{Sub};
ghost use Rattle.fact_table.specs.declared.types.Rule.TheVariants as Rule;
ghost use Rattle.fact_table.specs.declared.types.Source.{Source};
ghost use Rattle.case_tables.specs.declared.types.Operand.{Operand};
ghost use Rattle.rule_steps.specs.Counted.{IsCounted, nodes_of};
ghost use Rattle.rule_steps.specs.Growing.{facts_in, HasGrown};
ghost use Rattle.rule_steps.specs.Answering.{IsAt, IsAnsweredFirst, IsAnsweredSecond};
ghost use Rattle.rule_steps.specs.Inside.Steps.{IsSubAt, IsApart, SeparatesBy};

use crate::Grounds;
use crate::add::add;
use crate::placed::PlacedSub;
use crate::walks::{after, node_at};
use case_tables::{Operand, operands_at_two_positions_are_separated};
use fact_layers::Layers;
use fact_table::{Fact, FactGroup, FactSide, Facts, Proved, Reason, Rule, Source};
use std::alloc::AllocError;

// Whether two operands are at two positions of one axiom.
fn is_apart(one: Operand, other: Operand) -> bool
    ensures yes { IsTrue result → IsApart one other }
    ensures no { result ≡ false → IsApart one other → ⊥ }
{
    one.source == other.source && one.position != other.position
}

// Whether an operand is apart from one of several.
fn is_apart_from(one: Operand, others: &[Operand]) -> bool
    ensures { IsTrue result ↔ ((other : Operand) × Contains others.now other × IsApart one other) }
{
    for other in others {
        if is_apart(one, *other) {
            return true;
        }
    }
    false
}

// The source of an axiom that counts and separates two nodes, if there is one.
fn separator(grounds: &Grounds, one: u32, other: u32) -> Option<Source>
    ensures { MatchOption result
        ((source : Source) → SeparatesBy grounds.now source one other → ⊥)
        (λ source. SeparatesBy grounds.now source one other) }
{
    operands_at_two_positions_are_separated();
    let others = grounds.operands(other);
    for operand in grounds.operands(one) {
        if !is_apart_from(*operand, others) {
            continue;
        }
        if grounds.counts(operand.source) {
            return Some(operand.source);
        }
    }
    None
}

// What the rule `Disj` gives from a fact and one at another place.
fn disjoin(
    grounds: &Grounds,
    layers: &mut Layers,
    sub: PlacedSub,
    other: usize,
    high: u32,
) -> Result<(), AllocError>
    requires at { IsSubAt sub (facts_in layers.old) }
    requires other { IsAt other (facts_in layers.old) (Sub sub.low high) }
    ensures grown { HasGrown grounds.now layers.old layers.new }
    ensures there { OnOk result ((source : Source) → SeparatesBy grounds.now source sub.high high
        → Contains (facts_in layers.new) (Sub sub.low 1)) }
{
    let Some(source) = separator(grounds, sub.high, high) else {
        return Ok(());
    };
    let item = Proved {
        fact: Fact::Sub(sub.low, 1),
        reason: Reason {
            first: sub.place,
            second: other,
            source,
            rule: Rule::Disj,
        },
    };
    add(grounds, layers, item)
}

/// What the rule `Disj` gives, from a fact as the first premise and as the second.
pub fn separate(grounds: &Grounds, layers: &mut Layers, sub: PlacedSub) -> Result<(), AllocError>
    requires { IsSubAt sub (facts_in layers.old) }
    ensures grown { HasGrown grounds.now layers.old layers.new }
    ensures first { OnOk result (IsAnsweredFirst (nodes_of grounds.now) (IsCounted grounds.now)
        sub.place (facts_in layers.new) Rule.Disj) }
    ensures second { OnOk result (IsAnsweredSecond (nodes_of grounds.now) (IsCounted grounds.now)
        sub.place (facts_in layers.new) Rule.Disj) }
{
    if grounds.operands(sub.high).is_empty() {
        return Ok(());
    }
    let mut below = after(layers, sub.place);
    while let Some(partner) = layers.last(FactSide::From, FactGroup::Subs(sub.low), below) {
        let high = node_at(layers, FactSide::Into, partner);
        disjoin(grounds, layers, sub, partner, high)?;
        below = partner;
    }
    Ok(())
}
