//! The lists of what is left out, of the nodes and of the roles.

ghost use Rattle.std.specs.Prelude.{◌≡◌, ◌<◌, ◌↔◌, ℕ, IsTrue, length, map, MatchOption};
ghost use Rattle.concept_store.specs.declared.types.Node.TheVariants as NodeIs;
ghost use Rattle.concept_store.specs.declared.types.RoleNode.TheVariants as RoleIs;
ghost use Rattle.valid_evidence.specs.Items.{case_loaded, line_of_node, line_of_role, ListsOmitted, ListsNodes, ListsRoles};
ghost use Rattle.valid_evidence.specs.Valid.{HasLists};
ghost use Rattle.check_items.specs.Bad.{IsListFault};
ghost use Rattle.check_items.specs.Inside.Plain.{IsPlain};

use crate::BadItem;
use case_load::Loaded;
use concept_store::{Node, RoleNode, nodes_stand_in_order};
use evidence_lines::{NodeLine, RoleLine};
use evidence_text::Evidence;
use ofn_axiom::{HeadId, Omitted};
use ofn_heads::names_of_heads_are_told_apart;
use text_names::NameTable;

fn is_same_head(one: HeadId, other: HeadId) -> bool
    ensures { IsTrue result ↔ (one ≡ other) }
{
    names_of_heads_are_told_apart();
    one.name() == other.name()
}

fn is_same_omitted(one: &Omitted, other: &Omitted) -> bool
    ensures { IsTrue result ↔ (one.now ≡ other.now) }
{
    let same_place = one.place.line == other.place.line && one.place.column == other.place.column;
    same_place && is_same_head(one.head, other.head)
}

// Whether both lists have the same axioms in the same order.
fn are_same_omitted(one: &[Omitted], other: &[Omitted]) -> bool
    ensures { IsTrue result ↔ (one.now ≡ other.now) }
{
    if one.len() != other.len() {
        return false;
    }
    for place in 0..one.len() {
        if !is_same_omitted(&one[place], &other[place]) {
            return false;
        }
    }
    true
}

// Whether this is the line of a node.
fn is_node_line(classes: &NameTable, node: Node, line: &NodeLine) -> bool
    requires { (class : ℕ) → node ≡ NodeIs.Class class → class < length classes.now.names }
    ensures { IsTrue result ↔ (line.now ≡ line_of_node classes.now.names node) }
{
    match (node, line) {
        (Node::Top, NodeLine::Top) => true,
        (Node::Bottom, NodeLine::Bottom) => true,
        (Node::Class(class), NodeLine::Class(iri)) => classes.at(class).bytes() == iri.bytes(),
        (Node::And(one, other), NodeLine::And(left, right)) => one == *left && other == *right,
        (Node::Exists(role, filler), NodeLine::Exists(by, into)) => role == *by && filler == *into,
        _ => false,
    }
}

// Whether this is the line of a role.
fn is_role_line(properties: &NameTable, role: RoleNode, line: &RoleLine) -> bool
    requires { (property : ℕ) → role ≡ RoleIs.Named property
        → property < length properties.now.names }
    ensures { IsTrue result ↔ (line.now ≡ line_of_role properties.now.names role) }
{
    match (role, line) {
        (RoleNode::Named(property), RoleLine::Property(iri)) => {
            properties.at(property).bytes() == iri.bytes()
        }
        (
            RoleNode::Part {
                side,
                axiom,
                length,
            },
            RoleLine::Part {
                side: other,
                axiom: number,
                length: count,
            },
        ) => side == *other && axiom == *number && length == *count,
        _ => false,
    }
}

// Whether these are the lines of the nodes, in order.
fn lists_nodes(loaded: &Loaded, lines: &[NodeLine]) -> bool
    requires { IsPlain loaded.now }
    ensures { IsTrue result ↔ (lines.now ≡ map (line_of_node loaded.now.names.classes.names)
        (case_loaded loaded.now).store.nodes) }
{
    nodes_stand_in_order();
    let store = loaded.case.store();
    if lines.len() != store.nodes() as usize {
        return false;
    }
    for n in 0..store.nodes() {
        let line = &lines[n as usize];
        if !is_node_line(&loaded.names.classes, store.node(n), line) {
            return false;
        }
    }
    true
}

// Whether these are the lines of the roles, in order.
fn lists_roles(loaded: &Loaded, lines: &[RoleLine]) -> bool
    requires { IsPlain loaded.now }
    ensures { IsTrue result ↔ (lines.now ≡ map (line_of_role loaded.now.names.roles.names)
        (case_loaded loaded.now).store.roles) }
{
    let store = loaded.case.store();
    if lines.len() != store.roles() as usize {
        return false;
    }
    for n in 0..store.roles() {
        let line = &lines[n as usize];
        if !is_role_line(&loaded.names.roles, store.role(n), line) {
            return false;
        }
    }
    true
}

fn lists_omitted(loaded: &Loaded, evidence: &Evidence) -> bool
    ensures { IsTrue result ↔ ListsOmitted loaded.now evidence.now }
{
    let (given, held) = (&evidence.omitted, &loaded.omitted);
    are_same_omitted(given.left.as_slice(), held.left.as_slice())
        && are_same_omitted(given.right.as_slice(), held.right.as_slice())
}

/// The first of the three lists that isn't the case's.
pub fn bad_list(loaded: &Loaded, evidence: &Evidence) -> Option<BadItem>
    requires { IsPlain loaded.now }
    ensures { MatchOption result (HasLists loaded.now evidence.now)
        (IsListFault loaded.now evidence.now) }
{
    if !lists_omitted(loaded, evidence) {
        return Some(BadItem::Omitted);
    }
    if !lists_nodes(loaded, evidence.nodes.as_slice()) {
        return Some(BadItem::Nodes);
    }
    if !lists_roles(loaded, evidence.roles.as_slice()) {
        return Some(BadItem::Roles);
    }
    None
}
