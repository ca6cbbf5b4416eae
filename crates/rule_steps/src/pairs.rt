//! Rules of two premises, from a fact as one of them.

ghost use Rattle.std.specs.Prelude.{◌≡◌, ◌+◌, ◌<◌, ℕ, Contains, OnOk, length};
ghost use Rattle.concept_store.specs.Nodes.{IsNode};
ghost use Rattle.concept_store.specs.declared.types.Node.TheVariants.{Exists};
ghost use Rattle.fact_table.specs.declared.types.Fact.TheVariants.{Sub, Link};
ghost use Rattle.fact_table.specs.declared.types.Rule.TheVariants as Rule;
ghost use Rattle.el_rules.specs.Following.{IsPlacedBelow};
ghost use Rattle.case_tables.specs.Named.{intersection_of};
ghost use Rattle.rule_steps.specs.Counted.{IsCounted, IsCounting, nodes_of};
ghost use Rattle.rule_steps.specs.Growing.{facts_in, HasGrown, AreLinksWithin};
ghost use Rattle.rule_steps.specs.Answering.{IsAt, IsAnsweredFirst, IsAnsweredSecond};
ghost use Rattle.rule_steps.specs.Inside.Steps.{IsSubAt, IsLinkAt, JoinsBy, whole_reason};

use crate::Grounds;
use crate::add::add;
use crate::placed::{PlacedLink, PlacedSub};
use crate::walks::{Joined, after, join_into, node_at};
use case_tables::{Join, Restriction, Whole};
use fact_layers::Layers;
use fact_table::{Fact, FactGroup, FactSide, Facts, Proved, Reason, Rule, Source};
use std::alloc::AllocError;

// The reason of an intersection, from a part of it at a place and from the other part.
fn whole_reason(is_left: bool, place: usize, other: usize) -> Reason
    ensures { result ≡ whole_reason is_left place other }
{
    let (first, second) = if is_left {
        (place, other)
    } else {
        (other, place)
    };
    Reason {
        first,
        second,
        source: Source::Nothing,
        rule: Rule::Both,
    }
}

// What the rule `Both` gives of one intersection, if the other part is there.
fn meet_with(
    grounds: &Grounds,
    layers: &mut Layers,
    sub: PlacedSub,
    whole: Whole,
) -> Result<(), AllocError>
    requires at { IsSubAt sub (facts_in layers.old) }
    requires node { IsNode (nodes_of grounds.now) whole.node (intersection_of sub.high whole) }
    ensures grown { HasGrown grounds.now layers.old layers.new }
    ensures there { OnOk result (Contains (facts_in layers.old) (Sub sub.low whole.other)
        → Contains (facts_in layers.new) (Sub sub.low whole.node)) }
{
    let Some(other) = layers.find(Fact::Sub(sub.low, whole.other)) else {
        return Ok(());
    };
    let item = Proved {
        fact: Fact::Sub(sub.low, whole.node),
        reason: whole_reason(whole.is_left, sub.place, other),
    };
    add(grounds, layers, item)
}

/// What the rule `Both` gives, from a fact as the first premise and as the second.
pub fn meet(grounds: &Grounds, layers: &mut Layers, sub: PlacedSub) -> Result<(), AllocError>
    requires { IsSubAt sub (facts_in layers.old) }
    ensures grown { HasGrown grounds.now layers.old layers.new }
    ensures first { OnOk result (IsAnsweredFirst (nodes_of grounds.now) (IsCounted grounds.now)
        sub.place (facts_in layers.new) Rule.Both) }
    ensures second { OnOk result (IsAnsweredSecond (nodes_of grounds.now) (IsCounted grounds.now)
        sub.place (facts_in layers.new) Rule.Both) }
{
    for whole in grounds.wholes(sub.high) {
        meet_with(grounds, layers, sub, *whole)?;
    }
    Ok(())
}

/// What the rule `Into` gives from a fact as the second premise.
pub fn fill_into(grounds: &Grounds, layers: &mut Layers, sub: PlacedSub) -> Result<(), AllocError>
    requires { IsSubAt sub (facts_in layers.old) }
    ensures grown { HasGrown grounds.now layers.old layers.new }
    ensures answered { OnOk result (IsAnsweredSecond (nodes_of grounds.now)
        (IsCounted grounds.now) sub.place (facts_in layers.new) Rule.Into) }
{
    for entry in grounds.restrictions_into(sub.high) {
        join_into(
            grounds,
            layers,
            sub.place,
            entry.role,
            sub.low,
            Joined::Filler(entry.node),
        )?;
    }
    Ok(())
}

/// What the rule `Void` gives from a fact as the second premise.
pub fn void_into(grounds: &Grounds, layers: &mut Layers, sub: PlacedSub) -> Result<(), AllocError>
    requires at { IsSubAt sub (facts_in layers.old) }
    requires links { AreLinksWithin (length grounds.now.case.store.roles) (facts_in layers.old) }
    ensures grown { HasGrown grounds.now layers.old layers.new }
    ensures answered { OnOk result (IsAnsweredSecond (nodes_of grounds.now)
        (IsCounted grounds.now) sub.place (facts_in layers.new) Rule.Void) }
{
    if sub.high != 1 {
        return Ok(());
    }
    for role in 0..grounds.store().roles() {
        join_into(grounds, layers, sub.place, role, sub.low, Joined::Nothing)?;
    }
    Ok(())
}

/// What the rule `Void` gives from a link as the first premise.
pub fn void_from(grounds: &Grounds, layers: &mut Layers, link: PlacedLink) -> Result<(), AllocError>
    requires { IsLinkAt link (facts_in layers.old) }
    ensures grown { HasGrown grounds.now layers.old layers.new }
    ensures answered { OnOk result (IsAnsweredFirst (nodes_of grounds.now)
        (IsCounted grounds.now) link.place (facts_in layers.new) Rule.Void) }
{
    let Some(empty) = layers.find(Fact::Sub(link.into, 1)) else {
        return Ok(());
    };
    let item = Proved {
        fact: Fact::Sub(link.from, 1),
        reason: Reason {
            first: link.place,
            second: empty,
            source: Source::Nothing,
            rule: Rule::Void,
        },
    };
    add(grounds, layers, item)
}

// What the rule `Into` gives of one restriction, if it is over the role of the link.
fn fill_with(
    grounds: &Grounds,
    layers: &mut Layers,
    link: PlacedLink,
    filler: usize,
    entry: Restriction,
) -> Result<(), AllocError>
    requires at { IsLinkAt link (facts_in layers.old) }
    requires filler { IsAt filler (facts_in layers.old) (Sub link.into entry.filler) }
    requires node { IsNode (nodes_of grounds.now) entry.node (Exists entry.role entry.filler) }
    ensures grown { HasGrown grounds.now layers.old layers.new }
    ensures there { OnOk result (entry.role ≡ link.role
        → Contains (facts_in layers.new) (Sub link.from entry.node)) }
{
    if entry.role != link.role {
        return Ok(());
    }
    let item = Proved {
        fact: Fact::Sub(link.from, entry.node),
        reason: Reason {
            first: link.place,
            second: filler,
            source: Source::Nothing,
            rule: Rule::Into,
        },
    };
    add(grounds, layers, item)
}

// What the rule `Into` gives from a link and a subsumption at a place.
fn fill(
    grounds: &Grounds,
    layers: &mut Layers,
    link: PlacedLink,
    filler: usize,
    high: u32,
) -> Result<(), AllocError>
    requires at { IsLinkAt link (facts_in layers.old) }
    requires filler { IsAt filler (facts_in layers.old) (Sub link.into high) }
    ensures grown { HasGrown grounds.now layers.old layers.new }
    ensures there { OnOk result ((node : ℕ)
        → IsNode (nodes_of grounds.now) node (Exists link.role high)
        → Contains (facts_in layers.new) (Sub link.from node)) }
{
    for entry in grounds.restrictions_into(high) {
        fill_with(grounds, layers, link, filler, *entry)?;
    }
    Ok(())
}

/// What the rule `Into` gives from a link as the first premise.
pub fn fill_from(grounds: &Grounds, layers: &mut Layers, link: PlacedLink) -> Result<(), AllocError>
    requires { IsLinkAt link (facts_in layers.old) }
    ensures grown { HasGrown grounds.now layers.old layers.new }
    ensures answered { OnOk result (IsAnsweredFirst (nodes_of grounds.now)
        (IsCounted grounds.now) link.place (facts_in layers.new) Rule.Into) }
{
    let mut below = after(layers, link.place);
    while let Some(partner) = layers.last(FactSide::From, FactGroup::Subs(link.into), below) {
        let high = node_at(layers, FactSide::Into, partner);
        fill(grounds, layers, link, partner, high)?;
        below = partner;
    }
    Ok(())
}

// What the rule `Chain` gives from a link as the first premise, by a join if it counts.
fn chain_on(
    grounds: &Grounds,
    layers: &mut Layers,
    link: PlacedLink,
    join: Join,
) -> Result<(), AllocError>
    requires at { IsLinkAt link (facts_in layers.old) }
    requires joins { IsCounting grounds.now join.source
        → JoinsBy grounds.now join.source link.role join.second join.into }
    ensures grown { HasGrown grounds.now layers.old layers.new }
    ensures met { OnOk result (IsCounting grounds.now join.source → (end : ℕ)
        → IsPlacedBelow (link.place + 1) (facts_in layers.old) (Link link.into join.second end)
        → Contains (facts_in layers.new) (Link link.from join.into end)) }
{
    if !grounds.counts(join.source) {
        return Ok(());
    }
    let group = FactGroup::Links(link.into, join.second);
    let mut below = after(layers, link.place);
    while let Some(partner) = layers.last(FactSide::From, group, below) {
        let end = node_at(layers, FactSide::Into, partner);
        let item = Proved {
            fact: Fact::Link(link.from, join.into, end),
            reason: Reason {
                first: link.place,
                second: partner,
                source: join.source,
                rule: Rule::Chain,
            },
        };
        add(grounds, layers, item)?;
        below = partner;
    }
    Ok(())
}

/// What the rule `Chain` gives from a link as the first premise.
pub fn chain_from(
    grounds: &Grounds,
    layers: &mut Layers,
    link: PlacedLink,
) -> Result<(), AllocError>
    requires { IsLinkAt link (facts_in layers.old) }
    ensures grown { HasGrown grounds.now layers.old layers.new }
    ensures answered { OnOk result (IsAnsweredFirst (nodes_of grounds.now)
        (IsCounted grounds.now) link.place (facts_in layers.new) Rule.Chain) }
{
    for join in grounds.joins_from(link.role) {
        chain_on(grounds, layers, link, *join)?;
    }
    Ok(())
}

// What the rule `Chain` gives from a link as the second premise, by a join if it counts.
fn chain_back(
    grounds: &Grounds,
    layers: &mut Layers,
    link: PlacedLink,
    join: Join,
) -> Result<(), AllocError>
    requires at { IsLinkAt link (facts_in layers.old) }
    requires joins { IsCounting grounds.now join.source
        → JoinsBy grounds.now join.source join.first link.role join.into }
    ensures grown { HasGrown grounds.now layers.old layers.new }
    ensures met { OnOk result (IsCounting grounds.now join.source → (a : ℕ)
        → IsPlacedBelow (link.place + 1) (facts_in layers.old) (Link a join.first link.from)
        → Contains (facts_in layers.new) (Link a join.into link.into)) }
{
    if !grounds.counts(join.source) {
        return Ok(());
    }
    let joined = Joined::Onward {
        role: join.into,
        end: link.into,
        source: join.source,
    };
    join_into(grounds, layers, link.place, join.first, link.from, joined)
}

/// What the rule `Chain` gives from a link as the second premise.
pub fn chain_into(
    grounds: &Grounds,
    layers: &mut Layers,
    link: PlacedLink,
) -> Result<(), AllocError>
    requires { IsLinkAt link (facts_in layers.old) }
    ensures grown { HasGrown grounds.now layers.old layers.new }
    ensures answered { OnOk result (IsAnsweredSecond (nodes_of grounds.now)
        (IsCounted grounds.now) link.place (facts_in layers.new) Rule.Chain) }
{
    for join in grounds.joins_by_second(link.role) {
        chain_back(grounds, layers, link, *join)?;
    }
    Ok(())
}
