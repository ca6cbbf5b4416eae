//! Numbers of expressions and of the nodes that they are made of.

ghost use Rattle.std.specs.Prelude.{◌≡◌, ◌<◌, ◌≤◌, length, IfOk, IfErr, OnOk};
ghost use Rattle.concept_store.specs.Trees.{tree_of};
ghost use Rattle.concept_store.specs.Faults.{IsStoreFault};
ghost use Rattle.concept_store.specs.Inside.Numbering.{added, numbered, AreNamesShort};

use crate::{Node, StoreFault};
use el_logic::Expr;
use indexmap::IndexSet;

// The number of a node, which is among the nodes from then on.
fn add_node(nodes: &mut IndexSet<Node>, node: Node, most: u32) -> Result<u32, StoreFault>
    ensures number { IfOk result (λ n. n ≡ (added node nodes.old.keys).0) }
    ensures nodes { OnOk result (nodes.new.keys ≡ (added node nodes.old.keys).1) }
    ensures room { OnOk result (length nodes.new.keys ≤ most) }
    ensures fault { IfErr result (IsStoreFault (most < length (added node nodes.old.keys).1) ⊥) }
{
    let (n, _) = nodes.insert_full(node)?;
    if nodes.len() > most as usize {
        return Err(StoreFault::Nodes);
    }
    Ok(n as u32)
}

// The number of an expression, which is among the nodes with its parts from then on.
pub fn number(nodes: &mut IndexSet<Node>, expr: &Expr, most: u32) -> Result<u32, StoreFault>
    ensures number { IfOk result (λ n. n ≡ (numbered (tree_of expr.now) nodes.old.keys).0) }
    ensures nodes { OnOk result (nodes.new.keys ≡ (numbered (tree_of expr.now) nodes.old.keys).1) }
    ensures room { length nodes.old.keys ≤ most → OnOk result (length nodes.new.keys ≤ most) }
    ensures fault { AreNamesShort (tree_of expr.now) → IfErr result (IsStoreFault
        (most < length (numbered (tree_of expr.now) nodes.old.keys).1) ⊥) }
{
    match expr {
        Expr::Top => Ok(0),
        Expr::Bottom => Ok(1),
        Expr::Name(class) => class.checked_add(2).ok_or(StoreFault::Nodes),
        Expr::And(operands) => {
            let Some((first, rest)) = operands.as_slice().split_first() else {
                return Ok(0);
            };
            let mut whole = match number(nodes, first, most) {
                Ok(whole) => whole,
                Err(fault) => return Err(fault),
            };
            for operand in rest {
                let other = match number(nodes, operand, most) {
                    Ok(other) => other,
                    Err(fault) => return Err(fault),
                };
                whole = match add_node(nodes, Node::And(whole, other), most) {
                    Ok(whole) => whole,
                    Err(fault) => return Err(fault),
                };
            }
            Ok(whole)
        }
        Expr::Exists(role, filler) => {
            let inner = match number(nodes, filler.get(), most) {
                Ok(inner) => inner,
                Err(fault) => return Err(fault),
            };
            add_node(nodes, Node::Exists(*role, inner), most)
        }
    }
}
