//! What the rows that are tested give from the facts of a snapshot.

ghost use Rattle.std.specs.Prelude.{◌≡◌, ◌≤◌, ◌<◌, ℕ, All, Contains, IfOk, length};
ghost use Rattle.rule_steps.specs.Growing.{facts_in, HasGrown};
ghost use Rattle.rule_steps.specs.RowAxioms.{IsInclusion, HaveRowsInclusions};
ghost use Rattle.saturate.specs.Inside.Rows.{AreEntered, IsEntered, IsOfGroup, IsLinkBy, IsStart, StartsFrom, StartFrom, RowsStartFrom};
ghost use Rattle.saturate.specs.Inside.Saturated.{IsCaughtUp, HasCaughtUpOrClash};

use crate::closing::close_until_clash;
use crate::laws::links_lead_from_nodes;
use concept_store::NodeAxiom;
use fact_layers::Layers;
use fact_table::{FactGroup, FactSide, Facts, FactsByPlace};
use rule_steps::{Grounds, answer_rows, growing_takes_nothing_away};
use std::alloc::AllocError;

// What the rows from a rank on give from the fact at a place, and whatever follows from that.
fn enter_place(
    grounds: &Grounds,
    layers: &mut Layers,
    first: u32,
    place: usize,
) -> Result<Option<usize>, AllocError>
    requires within { place < length (facts_in layers.old) }
    requires caught_up { IsCaughtUp grounds.now layers.old }
    ensures grown { HasGrown grounds.now layers.old layers.new }
    ensures entered { IfOk result (HasCaughtUpOrClash grounds.now layers.new
        (IsEntered grounds.now first (facts_in layers.new) place)) }
{
    growing_takes_nothing_away();
    let from = layers.len();
    answer_rows(grounds, layers, place, first)?;
    close_until_clash(grounds, layers, from)
}

// The same for the facts of a group below a place.
fn enter_group(
    grounds: &Grounds,
    layers: &mut Layers,
    first: u32,
    below: usize,
    side: FactSide,
    group: FactGroup,
) -> Result<Option<usize>, AllocError>
    requires within { below ≤ length (facts_in layers.old) }
    requires caught_up { IsCaughtUp grounds.now layers.old }
    ensures grown { HasGrown grounds.now layers.old layers.new }
    ensures entered { IfOk result (HasCaughtUpOrClash grounds.now layers.new
        (AreEntered grounds.now first below (IsOfGroup side group) (facts_in layers.new))) }
{
    growing_takes_nothing_away();
    let mut bound = below;
    while let Some(place) = layers.last(side, group, bound) {
        match enter_place(grounds, layers, first, place)? {
            Some(clash) => return Ok(Some(clash)),
            None => {}
        }
        bound = place;
    }
    Ok(None)
}

// The same for the links by a role, node by node.
fn enter_links(
    grounds: &Grounds,
    layers: &mut Layers,
    first: u32,
    below: usize,
    role: u32,
) -> Result<Option<usize>, AllocError>
    requires within { below ≤ length (facts_in layers.old) }
    requires caught_up { IsCaughtUp grounds.now layers.old }
    ensures grown { HasGrown grounds.now layers.old layers.new }
    ensures entered { IfOk result (HasCaughtUpOrClash grounds.now layers.new
        (AreEntered grounds.now first below (IsLinkBy role) (facts_in layers.new))) }
{
    links_lead_from_nodes();
    growing_takes_nothing_away();
    for node in 0..grounds.store().nodes() {
        let group = FactGroup::Links(node, role);
        match enter_group(grounds, layers, first, below, FactSide::From, group)? {
            Some(clash) => return Ok(Some(clash)),
            None => {}
        }
    }
    Ok(None)
}

// What an inclusion starts from: the subsumptions into a node, or the links by a role.
#[derive(Clone, Copy, Debug)]
enum Start {
    Node(u32),
    Role(u32),
}

fn start_of(said: &NodeAxiom) -> Start
    requires { IsInclusion said.now }
    ensures { IsStart said.now result }
{
    match said {
        NodeAxiom::SubClass(low, _) => Start::Node(*low),
        NodeAxiom::SubRole { chain, .. } => match chain.as_slice().first() {
            Some(role) => Start::Role(*role),
            None => unreachable!(),
        },
        _ => unreachable!(),
    }
}

// The same for the facts from which an inclusion starts.
fn enter_axiom(
    grounds: &Grounds,
    layers: &mut Layers,
    first: u32,
    below: usize,
    said: &NodeAxiom,
) -> Result<Option<usize>, AllocError>
    requires within { below ≤ length (facts_in layers.old) }
    requires caught_up { IsCaughtUp grounds.now layers.old }
    requires inclusion { IsInclusion said.now }
    ensures grown { HasGrown grounds.now layers.old layers.new }
    ensures entered { IfOk result (HasCaughtUpOrClash grounds.now layers.new
        (AreEntered grounds.now first below (StartsFrom said.now) (facts_in layers.new))) }
{
    match start_of(said) {
        Start::Node(low) => {
            let group = FactGroup::Subs(low);
            enter_group(grounds, layers, first, below, FactSide::Into, group)
        }
        Start::Role(role) => enter_links(grounds, layers, first, below, role),
    }
}

// The same for the axioms of a row.
fn enter_row(
    grounds: &Grounds,
    layers: &mut Layers,
    first: u32,
    below: usize,
    axioms: &[NodeAxiom],
) -> Result<Option<usize>, AllocError>
    requires within { below ≤ length (facts_in layers.old) }
    requires caught_up { IsCaughtUp grounds.now layers.old }
    requires inclusions { All IsInclusion axioms.now }
    ensures grown { HasGrown grounds.now layers.old layers.new }
    ensures entered { IfOk result (HasCaughtUpOrClash grounds.now layers.new
        (AreEntered grounds.now first below (StartFrom axioms.now) (facts_in layers.new))) }
{
    growing_takes_nothing_away();
    for said in axioms {
        match enter_axiom(grounds, layers, first, below, said)? {
            Some(clash) => return Ok(Some(clash)),
            None => {}
        }
    }
    Ok(None)
}

/// Adds what the rows with these ranks, the first of them given, give from the facts at places
/// below one, and whatever follows, until a class is empty that must have a member.
pub fn enter_rows(
    grounds: &Grounds,
    layers: &mut Layers,
    first: u32,
    below: usize,
    ranks: &[u32],
) -> Result<Option<usize>, AllocError>
    requires within { below ≤ length (facts_in layers.old) }
    requires caught_up { IsCaughtUp grounds.now layers.old }
    requires inclusions { HaveRowsInclusions grounds.now.case.over }
    requires ranks { (rank : ℕ) → Contains ranks.now rank → rank < length grounds.now.case.order }
    ensures grown { HasGrown grounds.now layers.old layers.new }
    ensures entered { IfOk result (HasCaughtUpOrClash grounds.now layers.new
        (AreEntered grounds.now first below (RowsStartFrom grounds.now.case.over ranks.now)
        (facts_in layers.new))) }
{
    growing_takes_nothing_away();
    for rank in ranks {
        let axioms = grounds.case().over_of(*rank);
        match enter_row(grounds, layers, first, below, axioms)? {
            Some(clash) => return Ok(Some(clash)),
            None => {}
        }
    }
    Ok(None)
}
