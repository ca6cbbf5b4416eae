//! Rules of one premise.

ghost use Rattle.std.specs.Prelude.{◌≡◌, Contains, OnOk};
ghost use Rattle.concept_store.specs.Nodes.{IsNode};
ghost use Rattle.concept_store.specs.declared.types.Node.TheVariants.{And};
ghost use Rattle.fact_table.specs.declared.types.Rule.TheVariants as Rule;
ghost use Rattle.rule_steps.specs.Counted.{IsCounted, IsCountedSince, nodes_of};
ghost use Rattle.rule_steps.specs.Growing.{facts_in, HasGrown};
ghost use Rattle.rule_steps.specs.Answering.{IsAnsweredFirst};
ghost use Rattle.rule_steps.specs.Inside.Steps.{IsSubAt, IsLinkAt, IsOpened};

use crate::Grounds;
use crate::add::{add, add_counted};
use crate::placed::{PlacedLink, PlacedSub};
use concept_store::Node;
use fact_layers::Layers;
use fact_table::{Fact, Proved, Reason, Rule, Source};
use std::alloc::AllocError;

/// What the rule `Incl` gives by axioms of rows from the first rank on, or of all sources.
pub fn include(
    grounds: &Grounds,
    layers: &mut Layers,
    sub: PlacedSub,
    first: Option<u32>,
) -> Result<(), AllocError>
    requires { IsSubAt sub (facts_in layers.old) }
    ensures grown { HasGrown grounds.now layers.old layers.new }
    ensures answered { OnOk result (IsAnsweredFirst (nodes_of grounds.now)
        (IsCountedSince first grounds.now) sub.place (facts_in layers.new) Rule.Incl) }
{
    for entry in grounds.inclusions(sub.high) {
        let item = Proved {
            fact: Fact::Sub(sub.low, entry.into),
            reason: Reason {
                first: sub.place,
                second: 0,
                source: entry.source,
                rule: Rule::Incl,
            },
        };
        add_counted(grounds, layers, first, item)?;
    }
    Ok(())
}

/// What the rule `Role` gives by axioms of rows from the first rank on, or of all sources.
pub fn include_role(
    grounds: &Grounds,
    layers: &mut Layers,
    link: PlacedLink,
    first: Option<u32>,
) -> Result<(), AllocError>
    requires { IsLinkAt link (facts_in layers.old) }
    ensures grown { HasGrown grounds.now layers.old layers.new }
    ensures answered { OnOk result (IsAnsweredFirst (nodes_of grounds.now)
        (IsCountedSince first grounds.now) link.place (facts_in layers.new) Rule.Role) }
{
    for entry in grounds.role_inclusions(link.role) {
        let item = Proved {
            fact: Fact::Link(link.from, entry.into, link.into),
            reason: Reason {
                first: link.place,
                second: 0,
                source: entry.source,
                rule: Rule::Role,
            },
        };
        add_counted(grounds, layers, first, item)?;
    }
    Ok(())
}

/// What the rule `Dom` gives.
pub fn lead_from_domain(
    grounds: &Grounds,
    layers: &mut Layers,
    link: PlacedLink,
) -> Result<(), AllocError>
    requires { IsLinkAt link (facts_in layers.old) }
    ensures grown { HasGrown grounds.now layers.old layers.new }
    ensures answered { OnOk result (IsAnsweredFirst (nodes_of grounds.now)
        (IsCounted grounds.now) link.place (facts_in layers.new) Rule.Dom) }
{
    for entry in grounds.domains(link.role) {
        let item = Proved {
            fact: Fact::Sub(link.from, entry.domain),
            reason: Reason {
                first: link.place,
                second: 0,
                source: entry.source,
                rule: Rule::Dom,
            },
        };
        add_counted(grounds, layers, None, item)?;
    }
    Ok(())
}

// A fact by a rule without an axiom.
fn opened(fact: Fact, rule: Rule, place: usize) -> Proved
    ensures { result ≡ record {
      fact = fact;
      reason = record {
        first = place;
        second = 0;
        source = Source.Nothing;
        rule = rule;
      };
    } }
{
    Proved {
        fact,
        reason: Reason {
            first: place,
            second: 0,
            source: Source::Nothing,
            rule,
        },
    }
}

// What the rules `Left` and `Right` give.
fn open_both(
    grounds: &Grounds,
    layers: &mut Layers,
    sub: PlacedSub,
    left: u32,
    right: u32,
) -> Result<(), AllocError>
    requires at { IsSubAt sub (facts_in layers.old) }
    requires node { IsNode (nodes_of grounds.now) sub.high (And left right) }
    ensures grown { HasGrown grounds.now layers.old layers.new }
    ensures opened { OnOk result (IsOpened (nodes_of grounds.now) (facts_in layers.new)
        sub.low sub.high) }
{
    add(
        grounds,
        layers,
        opened(Fact::Sub(sub.low, left), Rule::Left, sub.place),
    )?;
    add(
        grounds,
        layers,
        opened(Fact::Sub(sub.low, right), Rule::Right, sub.place),
    )
}

/// What the rules `Left`, `Right` and `Out` give: what the node is made of.
pub fn open(grounds: &Grounds, layers: &mut Layers, sub: PlacedSub) -> Result<(), AllocError>
    requires { IsSubAt sub (facts_in layers.old) }
    ensures grown { HasGrown grounds.now layers.old layers.new }
    ensures opened { OnOk result (IsOpened (nodes_of grounds.now) (facts_in layers.new)
        sub.low sub.high) }
{
    let Some(node) = grounds.node(sub.high) else {
        return Ok(());
    };
    match node {
        Node::And(left, right) => open_both(grounds, layers, sub, left, right),
        Node::Exists(role, filler) => {
            let fact = Fact::Link(sub.low, role, filler);
            add(grounds, layers, opened(fact, Rule::Out, sub.place))
        }
        _ => Ok(()),
    }
}
