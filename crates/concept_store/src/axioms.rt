//! Axioms over numbers of nodes.

ghost use Rattle.std.specs.Prelude.{◌≡◌, ◌+◌, ◌<◌, ◌≤◌, length, IfOk, IfErr, OnOk};
ghost use Rattle.concept_store.specs.Faults.{IsStoreFault};
ghost use Rattle.concept_store.specs.Nodes.{expressions, part_count, parts_within};
ghost use Rattle.concept_store.specs.Inside.Numbering.{in_32_bits, numbered_each, numbered_axiom, numbered_axioms, AreAllShort, AreAxiomsShort};

use crate::number::number;
use crate::{Node, NodeAxiom, StoreFault};
use el_logic::{Axiom, Expr, Numbers};
use indexmap::IndexSet;
use std::alloc::Global;

// The numbers of expressions, in their order.
fn number_each(
    alloc: Global,
    nodes: &mut IndexSet<Node>,
    exprs: &[Expr],
    most: u32,
) -> Result<Numbers, StoreFault>
    ensures numbers { IfOk result (λ ns. ns ≡ (numbered_each exprs.now nodes.old.keys).0) }
    ensures nodes { OnOk result (nodes.new.keys ≡ (numbered_each exprs.now nodes.old.keys).1) }
    ensures room { length nodes.old.keys ≤ most → OnOk result (length nodes.new.keys ≤ most) }
    ensures fault { AreAllShort exprs.now → IfErr result (IsStoreFault
        (most < length (numbered_each exprs.now nodes.old.keys).1) ⊥) }
{
    let mut numbers = Vec::with_capacity(alloc, exprs.len())?;
    for expr in exprs {
        let n = match number(nodes, expr, most) {
            Ok(n) => n,
            Err(fault) => return Err(fault),
        };
        numbers.push(n)?;
    }
    Ok(Numbers::from_vec(numbers))
}

// The axiom over nodes, of which the first part of its chain, if it has one, is this role.
fn number_axiom(
    alloc: Global,
    nodes: &mut IndexSet<Node>,
    axiom: &Axiom,
    first_part: u32,
    most: u32,
) -> Result<NodeAxiom, StoreFault>
    ensures over { IfOk result (λ over. over ≡
        (numbered_axiom first_part axiom.now nodes.old.keys).0) }
    ensures nodes { OnOk result (nodes.new.keys ≡
        (numbered_axiom first_part axiom.now nodes.old.keys).1) }
    ensures room { length nodes.old.keys ≤ most → OnOk result (length nodes.new.keys ≤ most) }
    ensures fault { AreAllShort (expressions axiom.now) → IfErr result (IsStoreFault
        (most < length (numbered_axiom first_part axiom.now nodes.old.keys).1) ⊥) }
{
    match axiom {
        Axiom::SubClass(low, high) => {
            let one = match number(nodes, low, most) {
                Ok(one) => one,
                Err(fault) => return Err(fault),
            };
            match number(nodes, high, most) {
                Ok(other) => Ok(NodeAxiom::SubClass(one, other)),
                Err(fault) => Err(fault),
            }
        }
        Axiom::Equivalent(exprs) => match number_each(alloc, nodes, exprs.as_slice(), most) {
            Ok(numbers) => Ok(NodeAxiom::Equivalent(numbers)),
            Err(fault) => Err(fault),
        },
        Axiom::Disjoint(exprs) => match number_each(alloc, nodes, exprs.as_slice(), most) {
            Ok(numbers) => Ok(NodeAxiom::Disjoint(numbers)),
            Err(fault) => Err(fault),
        },
        Axiom::SubRole(chain, role) => Ok(NodeAxiom::SubRole {
            chain: Numbers::from_slice(alloc, chain.as_slice())?,
            into: *role,
            first_part,
        }),
        Axiom::EquivalentRoles(roles) => Ok(NodeAxiom::EquivalentRoles(Numbers::from_slice(
            alloc,
            roles.as_slice(),
        )?)),
        Axiom::Transitive(role) => Ok(NodeAxiom::Transitive(*role)),
        Axiom::Reflexive(role) => Ok(NodeAxiom::Reflexive(*role)),
        Axiom::Domain(role, expr) => match number(nodes, expr, most) {
            Ok(n) => Ok(NodeAxiom::Domain(*role, n)),
            Err(fault) => Err(fault),
        },
    }
}

// The role after the parts of an axiom's chain, of which the first is this role. The number stops
// at the greatest; there are too many roles then.
fn after_parts(first_part: u32, axiom: &Axiom) -> u32
    ensures { result ≡ in_32_bits (first_part + part_count axiom.now) }
{
    match axiom {
        Axiom::SubRole(chain, _) => {
            let count = u32::try_from(chain.len().saturating_sub(2)).unwrap_or(u32::MAX);
            first_part.saturating_add(count)
        }
        _ => first_part,
    }
}

// Axioms over nodes, and the role after the parts of their chains.
pub fn number_axioms(
    alloc: Global,
    nodes: &mut IndexSet<Node>,
    axioms: &[Axiom],
    first_part: u32,
    most: u32,
) -> Result<(Vec<NodeAxiom>, u32), StoreFault>
    ensures over { IfOk result (λ found. found.0.items ≡
        (numbered_axioms first_part axioms.now nodes.old.keys).0) }
    ensures next { IfOk result (λ found. found.1 ≡
        in_32_bits (first_part + parts_within axioms.now)) }
    ensures nodes { OnOk result (nodes.new.keys ≡
        (numbered_axioms first_part axioms.now nodes.old.keys).1) }
    ensures room { length nodes.old.keys ≤ most → OnOk result (length nodes.new.keys ≤ most) }
    ensures fault { AreAxiomsShort axioms.now → IfErr result (IsStoreFault
        (most < length (numbered_axioms first_part axioms.now nodes.old.keys).1) ⊥) }
{
    let mut over = Vec::with_capacity(alloc, axioms.len())?;
    let mut first = first_part;
    for axiom in axioms {
        let next = match number_axiom(alloc, nodes, axiom, first, most) {
            Ok(next) => next,
            Err(fault) => return Err(fault),
        };
        over.push(next)?;
        first = after_parts(first, axiom);
    }
    Ok((over, first))
}
