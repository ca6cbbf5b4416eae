//! All rules for the fact at a place, and the facts that need no premise.

ghost use Rattle.std.specs.Prelude.{◌≡◌, ◌<◌, OnOk, Some, length};
ghost use Rattle.rule_steps.specs.Counted.{IsCounted, IsCountedSince, nodes_of};
ghost use Rattle.rule_steps.specs.Growing.{facts_in, HasGrown, AreLinksWithin};
ghost use Rattle.rule_steps.specs.Answering.{IsAt, IsAnswered, IsAnsweredByInclusions, IsBegun};
ghost use Rattle.rule_steps.specs.Inside.Steps.{IsSubAt, IsLinkAt, HasReflexive};

use crate::Grounds;
use crate::add::{add, add_counted};
use crate::disjoint::separate;
use crate::pairs::{chain_from, chain_into, fill_from, fill_into, meet, void_from, void_into};
use crate::placed::{PlacedLink, PlacedSub};
use crate::single::{include, include_role, lead_from_domain, open};
use fact_layers::Layers;
use fact_table::{Fact, FactsByPlace, Proved, Reason, Rule, Source};
use std::alloc::AllocError;

// The fact at a place.
fn fact_at(layers: &Layers, place: usize) -> Fact
    requires { place < length (facts_in layers.now) }
    ensures { IsAt place (facts_in layers.now) result }
{
    layers.at(place).fact
}

// What all rules give from a subsumption.
fn answer_sub(grounds: &Grounds, layers: &mut Layers, sub: PlacedSub) -> Result<(), AllocError>
    requires at { IsSubAt sub (facts_in layers.old) }
    requires links { AreLinksWithin (length grounds.now.case.store.roles) (facts_in layers.old) }
    ensures grown { HasGrown grounds.now layers.old layers.new }
    ensures answered { OnOk result (IsAnswered (nodes_of grounds.now) (IsCounted grounds.now)
        sub.place (facts_in layers.new)) }
{
    void_into(grounds, layers, sub)?;
    include(grounds, layers, sub, None)?;
    open(grounds, layers, sub)?;
    meet(grounds, layers, sub)?;
    separate(grounds, layers, sub)?;
    fill_into(grounds, layers, sub)
}

// What all rules give from a link.
fn answer_link(grounds: &Grounds, layers: &mut Layers, link: PlacedLink) -> Result<(), AllocError>
    requires { IsLinkAt link (facts_in layers.old) }
    ensures grown { HasGrown grounds.now layers.old layers.new }
    ensures answered { OnOk result (IsAnswered (nodes_of grounds.now) (IsCounted grounds.now)
        link.place (facts_in layers.new)) }
{
    include_role(grounds, layers, link, None)?;
    lead_from_domain(grounds, layers, link)?;
    void_from(grounds, layers, link)?;
    fill_from(grounds, layers, link)?;
    chain_from(grounds, layers, link)?;
    chain_into(grounds, layers, link)
}

/// Adds whatever the rules give from the fact at a place and from facts at places up to it. After
/// an error the list has grown only by facts that follow: memory ran out, or a fact that follows is
/// a link by a role that the case doesn't have.
pub fn answer(grounds: &Grounds, layers: &mut Layers, place: usize) -> Result<(), AllocError>
    requires within { place < length (facts_in layers.old) }
    requires links { AreLinksWithin (length grounds.now.case.store.roles) (facts_in layers.old) }
    ensures grown { HasGrown grounds.now layers.old layers.new }
    ensures answered { OnOk result (IsAnswered (nodes_of grounds.now) (IsCounted grounds.now)
        place (facts_in layers.new)) }
{
    match fact_at(layers, place) {
        Fact::Sub(low, high) => answer_sub(grounds, layers, PlacedSub { place, low, high }),
        Fact::Link(from, role, into) => {
            let link = PlacedLink {
                place,
                from,
                role,
                into,
            };
            answer_link(grounds, layers, link)
        }
    }
}

/// Adds whatever inclusions that rows from the first rank on state give from the fact at a place.
/// The axioms of rows are all inclusions, so this is what further rows give from an old fact.
pub fn answer_rows(
    grounds: &Grounds,
    layers: &mut Layers,
    place: usize,
    first: u32,
) -> Result<(), AllocError>
    requires { place < length (facts_in layers.old) }
    ensures grown { HasGrown grounds.now layers.old layers.new }
    ensures answered { OnOk result (IsAnsweredByInclusions (nodes_of grounds.now)
        (IsCountedSince (Some first) grounds.now) place (facts_in layers.new)) }
{
    match fact_at(layers, place) {
        Fact::Sub(low, high) => {
            include(grounds, layers, PlacedSub { place, low, high }, Some(first))
        }
        Fact::Link(from, role, into) => {
            let link = PlacedLink {
                place,
                from,
                role,
                into,
            };
            include_role(grounds, layers, link, Some(first))
        }
    }
}

// A fact from nothing.
fn stated(fact: Fact, rule: Rule, source: Source) -> Proved
    ensures { result ≡ record {
      fact = fact;
      reason = record {
        first = 0;
        second = 0;
        source = source;
        rule = rule;
      };
    } }
{
    Proved {
        fact,
        reason: Reason {
            first: 0,
            second: 0,
            source,
            rule,
        },
    }
}

// The links by reflexive roles from a node to itself.
fn link_to_itself(grounds: &Grounds, layers: &mut Layers, node: u32) -> Result<(), AllocError>
    requires { node < length (nodes_of grounds.now) }
    ensures grown { HasGrown grounds.now layers.old layers.new }
    ensures linked { OnOk result (HasReflexive grounds.now node (facts_in layers.new)) }
{
    for entry in grounds.reflexive() {
        let item = Proved {
            fact: Fact::Link(node, entry.0, node),
            reason: Reason {
                first: 0,
                second: 0,
                source: entry.1.source,
                rule: Rule::Refl,
            },
        };
        add_counted(grounds, layers, None, item)?;
    }
    Ok(())
}

/// Adds whatever the rules without premises give for a node.
pub fn begin(grounds: &Grounds, layers: &mut Layers, node: u32) -> Result<(), AllocError>
    requires { node < length (nodes_of grounds.now) }
    ensures grown { HasGrown grounds.now layers.old layers.new }
    ensures begun { OnOk result (IsBegun (nodes_of grounds.now) (IsCounted grounds.now)
        node (facts_in layers.new)) }
{
    add(
        grounds,
        layers,
        stated(Fact::Sub(node, node), Rule::Itself, Source::Nothing),
    )?;
    add(
        grounds,
        layers,
        stated(Fact::Sub(node, 0), Rule::Top, Source::Nothing),
    )?;
    link_to_itself(grounds, layers, node)
}
