//! The axioms of rows over nodes.

ghost use Rattle.std.specs.Prelude.{◌≡◌, ◌<◌, ◌^◌, map, length, All, IfOk};
ghost use Rattle.case_file.specs.Cases.{name_node, row_over, rows_over};
ghost use Rattle.case_file.specs.Inside.ShortRows.{IsShortRow};

use crate::{NodeAxiomLists, NodeAxioms};
use concept_store::NodeAxiom;
use el_logic::{Axiom, Axioms, Expr, Numbers};
use std::alloc::{AllocError, Global};

// The node of a name.
fn name_node(expr: &Expr) -> u32
    ensures { name_node expr.now < 2 ^ 32 → result ≡ name_node expr.now }
{
    match expr {
        Expr::Bottom => 1,
        Expr::Name(class) => class.saturating_add(2),
        _ => 0,
    }
}

// An axiom of a row over nodes.
fn row_over(alloc: Global, axiom: &Axiom) -> Result<NodeAxiom, AllocError>
    ensures { IsShortRow axiom.now → IfOk result (λ over. over ≡ row_over axiom.now) }
{
    match axiom {
        Axiom::SubClass(low, high) => Ok(NodeAxiom::SubClass(name_node(low), name_node(high))),
        Axiom::SubRole(chain, role) => Ok(NodeAxiom::SubRole {
            chain: Numbers::from_slice(alloc, chain.as_slice())?,
            into: *role,
            first_part: 0,
        }),
        _ => Ok(NodeAxiom::Transitive(0)),
    }
}

// The axioms of a row over nodes.
fn axioms_over(alloc: Global, axioms: &[Axiom]) -> Result<NodeAxioms, AllocError>
    ensures { All IsShortRow axioms.now → IfOk result (λ over. over ≡ map row_over axioms.now) }
{
    let mut over = Vec::with_capacity(alloc, axioms.len())?;
    for axiom in axioms {
        over.push(row_over(alloc, axiom)?)?;
    }
    Ok(NodeAxioms::from_vec(over))
}

// The axioms over nodes of the row with each rank.
pub fn rows_over(
    alloc: Global,
    rows: &[Axioms],
    order: &[u32],
) -> Result<NodeAxiomLists, AllocError>
    requires indexes { All (λ index. index < length rows.now) order.now }
    ensures { All (All IsShortRow) rows.now
        → IfOk result (λ over. over ≡ rows_over rows.now order.now) }
{
    let mut over = Vec::with_capacity(alloc, order.len())?;
    for index in order {
        over.push(axioms_over(alloc, rows[*index as usize].as_slice())?)?;
    }
    Ok(NodeAxiomLists::from_vec(over))
}
