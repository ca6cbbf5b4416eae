//! What evidence lists of a case: what is left out, the nodes and the roles.

ghost use Rattle.std.specs.Prelude.{◌≡◌, map, IfOk};
ghost use Rattle.valid_evidence.specs.Items.{line_of_node, line_of_role};
ghost use Rattle.run_evidence.specs.Inside.Named.{IsNodeOver, IsRoleOver, AreNodesOver, AreRolesOver};

use concept_store::{Node, RoleNode, Store};
use evidence_lines::{NodeLine, NodeLines, RoleLine, RoleLines};
use evidence_text::Kind;
use ofn_axiom::{OmittedList, SideOmitted};
use std::alloc::{AllocError, Global};
use text_names::NameTable;

// The line of a node, by the names of classes.
fn node_line(alloc: Global, classes: &NameTable, node: Node) -> Result<NodeLine, AllocError>
    requires { IsNodeOver classes.now.names node }
    ensures { IfOk result (λ line. line ≡ line_of_node classes.now.names node) }
{
    match node {
        Node::Top => Ok(NodeLine::Top),
        Node::Bottom => Ok(NodeLine::Bottom),
        Node::Class(class) => Ok(NodeLine::Class(classes.at(class).copy(alloc)?)),
        Node::And(one, other) => Ok(NodeLine::And(one, other)),
        Node::Exists(role, filler) => Ok(NodeLine::Exists(role, filler)),
    }
}

/// The lines of the nodes, by the names of classes.
pub fn node_lines(
    alloc: Global,
    store: &Store,
    classes: &NameTable,
) -> Result<NodeLines, AllocError>
    requires { AreNodesOver classes.now.names store.now.nodes }
    ensures { IfOk result (λ lines. lines ≡ map (line_of_node classes.now.names) store.now.nodes) }
{
    let mut lines = Vec::with_capacity(alloc, store.nodes() as usize)?;
    for n in 0..store.nodes() {
        let node = store.node(n);
        let line = node_line(alloc, classes, node)?;
        lines.push(line)?;
    }
    Ok(NodeLines::from_vec(lines))
}

// The line of a role, by the names of properties.
fn role_line(alloc: Global, properties: &NameTable, role: RoleNode) -> Result<RoleLine, AllocError>
    requires { IsRoleOver properties.now.names role }
    ensures { IfOk result (λ line. line ≡ line_of_role properties.now.names role) }
{
    match role {
        RoleNode::Named(property) => {
            Ok(RoleLine::Property(properties.at(property).copy(alloc)?))
        }
        RoleNode::Part {
            side,
            axiom,
            length,
        } => Ok(RoleLine::Part {
            side,
            axiom,
            length,
        }),
    }
}

/// The lines of the roles, by the names of properties.
pub fn role_lines(
    alloc: Global,
    store: &Store,
    properties: &NameTable,
) -> Result<RoleLines, AllocError>
    requires { AreRolesOver properties.now.names store.now.roles }
    ensures { IfOk result (λ lines.
        lines ≡ map (line_of_role properties.now.names) store.now.roles) }
{
    let mut lines = Vec::with_capacity(alloc, store.roles() as usize)?;
    for r in 0..store.roles() {
        let role = store.role(r);
        let line = role_line(alloc, properties, role)?;
        lines.push(line)?;
    }
    Ok(RoleLines::from_vec(lines))
}

/// The same lists of what is left out.
pub fn omitted_lists(alloc: Global, omitted: &SideOmitted) -> Result<SideOmitted, AllocError>
    ensures { IfOk result (λ lists. lists ≡ omitted.now) }
{
    let left = OmittedList::from_slice(alloc, omitted.left.as_slice())?;
    let right = OmittedList::from_slice(alloc, omitted.right.as_slice())?;
    Ok(SideOmitted { left, right })
}
