//! Building the store of two ontologies.

ghost use Rattle.std.specs.Prelude.{◌≡◌, ◌+◌, ◌<◌, ◌≤◌, length, IfOk, IfErr};
ghost use Rattle.concept_store.specs.Faults.{IsStoreFault};
ghost use Rattle.concept_store.specs.Nodes.{names_of, nodes_over, trees_of};
ghost use Rattle.concept_store.specs.Reading.{MeansTheSameIn};
ghost use Rattle.concept_store.specs.Roles.{AreOver, roles_of, store_of};

use crate::axioms::number_axioms;
use crate::roles::list_roles;
use crate::{Node, Store, StoreFault};
use el_logic::Axioms;
use indexmap::IndexSet;
use std::alloc::Global;

// The nodes of the names.
fn start(alloc: Global, classes: u32, most: u32) -> Result<IndexSet<Node>, StoreFault>
    ensures nodes { IfOk result (λ nodes. nodes.keys ≡ nodes_over (names_of classes)) }
    ensures room { IfOk result (λ nodes. length nodes.keys ≤ most) }
    ensures short { IfOk result (λ _. classes + 2 ≤ most) }
    ensures fault { IfErr result (IsStoreFault (most < classes + 2) ⊥) }
{
    if u64::from(classes) + 2 > u64::from(most) {
        return Err(StoreFault::Nodes);
    }
    let mut nodes = IndexSet::new(alloc);
    nodes.insert(Node::Top)?;
    nodes.insert(Node::Bottom)?;
    for class in 0..classes {
        nodes.insert(Node::Class(class))?;
    }
    Ok(nodes)
}

/// The store of two ontologies over this number of class names and of property names.
pub fn build_store(
    alloc: Global,
    left: &Axioms,
    right: &Axioms,
    classes: u32,
    roles: u32,
    most_nodes: u32,
    most_roles: u32,
) -> Result<Store, StoreFault>
    requires left { AreOver classes roles left.now }
    requires right { AreOver classes roles right.now }
    ensures store { IfOk result (λ store. store ≡ store_of classes roles left.now right.now) }
    ensures nodes_fit { IfOk result (λ store. length store.nodes ≤ most_nodes) }
    ensures roles_fit { IfOk result (λ store. length store.roles ≤ most_roles) }
    ensures fault { let trees = trees_of classes left.now right.now in
        IfErr result (IsStoreFault (most_nodes < length trees)
        ((length trees ≤ most_nodes) × (most_roles < length (roles_of roles left.now right.now)))) }
    ensures left_meaning { IfOk result (λ store.
        MeansTheSameIn classes roles store.nodes left.now store.left) }
    ensures right_meaning { IfOk result (λ store.
        MeansTheSameIn classes roles store.nodes right.now store.right) }
{
    let mut nodes = match start(alloc, classes, most_nodes) {
        Ok(nodes) => nodes,
        Err(fault) => return Err(fault),
    };
    let (left_over, next) = match number_axioms(
        alloc,
        &mut nodes,
        left.as_slice(),
        roles,
        most_nodes,
    ) {
        Ok(found) => found,
        Err(fault) => return Err(fault),
    };
    let (right_over, _) = match number_axioms(
        alloc,
        &mut nodes,
        right.as_slice(),
        next,
        most_nodes,
    ) {
        Ok(found) => found,
        Err(fault) => return Err(fault),
    };
    match list_roles(alloc, roles, left.as_slice(), right.as_slice(), most_roles) {
        Ok(roles) => Ok(Store {
            nodes,
            roles,
            left: left_over,
            right: right_over,
        }),
        Err(fault) => Err(fault),
    }
}
