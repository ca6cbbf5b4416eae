//! Walks over the partners of a fact.

ghost use Rattle.std.specs.Prelude.{◌≡◌, ◌+◌, ◌<◌, ℕ, Contains, OnOk, length};
ghost use Rattle.fact_table.specs.declared.types.Fact.{Fact};
ghost use Rattle.fact_table.specs.declared.types.Fact.TheVariants.{Link};
ghost use Rattle.fact_table.specs.Groups.{node_at};
ghost use Rattle.el_rules.specs.Following.{IsPlacedBelow};
ghost use Rattle.rule_steps.specs.Growing.{facts_in, HasGrown};
ghost use Rattle.rule_steps.specs.Answering.{IsAt};
ghost use Rattle.rule_steps.specs.Inside.Steps.{joined_item, joined_fact, CanJoin};

use crate::Grounds;
use crate::add::add;
use fact_layers::Layers;
use fact_table::{Fact, FactGroup, FactSide, Facts, FactsByPlace, Proved, Reason, Rule, Source};
use std::alloc::AllocError;

/// What a link gives of its first node, together with a fact at a place.
#[derive(Clone, Copy, Debug)]
pub enum Joined {
    /// By the rule `Into`: it is within this node.
    Filler(u32),
    /// By the rule `Void`: it is within `owl:Nothing`.
    Nothing,
    /// By the rule `Chain` and an axiom: a role leads on to another node.
    Onward { role: u32, end: u32, source: Source },
}

// The fact of a first node, with its reason.
fn joined_item(joined: Joined, a: u32, first: usize, second: usize) -> Proved
    ensures { result ≡ joined_item joined a first second }
{
    let (fact, source, rule) = match joined {
        Joined::Filler(node) => (Fact::Sub(a, node), Source::Nothing, Rule::Into),
        Joined::Nothing => (Fact::Sub(a, 1), Source::Nothing, Rule::Void),
        Joined::Onward { role, end, source } => (Fact::Link(a, role, end), source, Rule::Chain),
    };
    Proved {
        fact,
        reason: Reason {
            first,
            second,
            source,
            rule,
        },
    }
}

/// The place after this one.
pub fn after(layers: &Layers, place: usize) -> usize
    requires { place < length (facts_in layers.now) }
    ensures { result ≡ place + 1 }
{
    let _ = layers.len();
    place + 1
}

/// The node at a side of the fact at a place.
pub fn node_at(layers: &Layers, side: FactSide, place: usize) -> u32
    requires { place < length (facts_in layers.now) }
    ensures { (fact : Fact) → IsAt place (facts_in layers.now) fact → result ≡ node_at side fact }
{
    match (side, layers.at(place).fact) {
        (FactSide::From, Fact::Sub(a, _)) => a,
        (FactSide::From, Fact::Link(a, _, _)) => a,
        (FactSide::Into, Fact::Sub(_, b)) => b,
        (FactSide::Into, Fact::Link(_, _, b)) => b,
    }
}

/// What the links by a role into a node, at places up to this one, give together with the fact at
/// this place, which is their second premise.
pub fn join_into(
    grounds: &Grounds,
    layers: &mut Layers,
    place: usize,
    role: u32,
    into: u32,
    joined: Joined,
) -> Result<(), AllocError>
    requires within { place < length (facts_in layers.old) }
    requires joins { (here : Fact) → IsAt place (facts_in layers.old) here
        → CanJoin grounds.now role into here joined }
    ensures grown { HasGrown grounds.now layers.old layers.new }
    ensures met { OnOk result ((a : ℕ) →
        IsPlacedBelow (place + 1) (facts_in layers.old) (Link a role into) →
        Contains (facts_in layers.new) (joined_fact joined a)) }
{
    let mut below = after(layers, place);
    while let Some(partner) = layers.last(FactSide::Into, FactGroup::Links(into, role), below) {
        let a = node_at(layers, FactSide::From, partner);
        add(grounds, layers, joined_item(joined, a, partner, place))?;
        below = partner;
    }
    Ok(())
}
