//! What the rules give from the facts and the axiom of a step.

ghost use Rattle.std.specs.Prelude.{◌≡◌, ℕ, MatchOption, IsTrue, ◌↔◌, Some, None, [], slice_get};
ghost use Rattle.std.specs.Option.{option_copied};
ghost use Rattle.concept_store.specs.Nodes.{IsNode};
ghost use Rattle.concept_store.specs.declared.types.Node.TheVariants.{And, Exists};
ghost use Rattle.fact_table.specs.declared.types.Fact.TheVariants.{Sub, Link};
ghost use Rattle.fact_table.specs.declared.types.Rule.{Rule};
ghost use Rattle.derivation.specs.Inside.Premises.{GivesFrom};

use crate::premises::{is_sub, link_from, sub_from};
use crate::saying::{has_domain, includes, includes_role, joins, makes_reflexive, separates};
use concept_store::{Node, NodeAxiom, Store};
use fact_table::{Fact, Rule};

// The node with a number, if there is one.
fn node_at(store: &Store, n: u32) -> Option<Node>
    ensures { result ≡ slice_get store.now.nodes n }
{
    if n < store.nodes() {
        return Some(store.node(n));
    }
    None
}

// The two nodes that a node is the intersection of.
fn operands_of(store: &Store, n: u32) -> Option<(u32, u32)>
    ensures { MatchOption result ((c d : ℕ) → ¬ (IsNode store.now.nodes n (And c d)))
        (λ pair. IsNode store.now.nodes n (And pair.0 pair.1)) }
{
    match node_at(store, n) {
        Some(Node::And(c, d)) => Some((c, d)),
        _ => None,
    }
}

// The role and the node that a node is the restriction to.
fn restriction_of(store: &Store, n: u32) -> Option<(u32, u32)>
    ensures { MatchOption result ((r c : ℕ) → ¬ (IsNode store.now.nodes n (Exists r c)))
        (λ pair. IsNode store.now.nodes n (Exists pair.0 pair.1)) }
{
    match node_at(store, n) {
        Some(Node::Exists(r, c)) => Some((r, c)),
        _ => None,
    }
}

// What each rule gives, if it starts from premises or from an axiom. What the rule does not read,
// as the nodes or a second premise, is empty in the clause.
fn by_incl(said: Option<&NodeAxiom>, one: Option<Fact>, a: u32, d: u32) -> bool
    ensures { IsTrue result ↔ GivesFrom [] (option_copied said.entry) one None Rule.Incl (Sub a d) }
{
    match (said, sub_from(one, a)) {
        (Some(said), Some(c)) => includes(said, c, d),
        _ => false,
    }
}

fn by_left(store: &Store, one: Option<Fact>, a: u32, c: u32) -> bool
    ensures { IsTrue result ↔ GivesFrom store.now.nodes None one None Rule.Left (Sub a c) }
{
    match sub_from(one, a) {
        Some(n) => match operands_of(store, n) {
            Some((left, _)) => left == c,
            None => false,
        },
        None => false,
    }
}

fn by_right(store: &Store, one: Option<Fact>, a: u32, d: u32) -> bool
    ensures { IsTrue result ↔ GivesFrom store.now.nodes None one None Rule.Right (Sub a d) }
{
    match sub_from(one, a) {
        Some(n) => match operands_of(store, n) {
            Some((_, right)) => right == d,
            None => false,
        },
        None => false,
    }
}

fn by_both(store: &Store, one: Option<Fact>, two: Option<Fact>, a: u32, n: u32) -> bool
    ensures { IsTrue result ↔ GivesFrom store.now.nodes None one two Rule.Both (Sub a n) }
{
    match operands_of(store, n) {
        Some((c, d)) => is_sub(one, a, c) && is_sub(two, a, d),
        None => false,
    }
}

fn by_out(store: &Store, one: Option<Fact>, a: u32, r: u32, c: u32) -> bool
    ensures { IsTrue result ↔ GivesFrom store.now.nodes None one None Rule.Out (Link a r c) }
{
    match sub_from(one, a) {
        Some(n) => match restriction_of(store, n) {
            Some((role, filler)) => role == r && filler == c,
            None => false,
        },
        None => false,
    }
}

fn by_into(store: &Store, one: Option<Fact>, two: Option<Fact>, a: u32, n: u32) -> bool
    ensures { IsTrue result ↔ GivesFrom store.now.nodes None one two Rule.Into (Sub a n) }
{
    match (restriction_of(store, n), link_from(one, a)) {
        (Some((r, c)), Some((role, b))) => role == r && is_sub(two, b, c),
        _ => false,
    }
}

fn by_void(one: Option<Fact>, two: Option<Fact>, a: u32, n: u32) -> bool
    ensures { IsTrue result ↔ GivesFrom [] None one two Rule.Void (Sub a n) }
{
    match link_from(one, a) {
        Some((_, b)) => n == 1 && is_sub(two, b, 1),
        None => false,
    }
}

fn by_role(said: Option<&NodeAxiom>, one: Option<Fact>, a: u32, s: u32, b: u32) -> bool
    ensures { IsTrue result
        ↔ GivesFrom [] (option_copied said.entry) one None Rule.Role (Link a s b) }
{
    match (said, link_from(one, a)) {
        (Some(said), Some((r, into))) => into == b && includes_role(said, r, s),
        _ => false,
    }
}

fn by_chain(
    said: Option<&NodeAxiom>,
    one: Option<Fact>,
    two: Option<Fact>,
    a: u32,
    t: u32,
    c: u32,
) -> bool
    ensures { IsTrue result
        ↔ GivesFrom [] (option_copied said.entry) one two Rule.Chain (Link a t c) }
{
    let Some(said) = said else {
        return false;
    };
    let Some((r, b)) = link_from(one, a) else {
        return false;
    };
    match link_from(two, b) {
        Some((s, into)) => into == c && joins(said, r, s, t),
        None => false,
    }
}

fn by_refl(store: &Store, said: Option<&NodeAxiom>, a: u32, r: u32, b: u32) -> bool
    ensures { IsTrue result
        ↔ GivesFrom store.now.nodes (option_copied said.entry) None None Rule.Refl (Link a r b) }
{
    match said {
        Some(said) => makes_reflexive(said, r) && a < store.nodes() && a == b,
        None => false,
    }
}

fn by_dom(said: Option<&NodeAxiom>, one: Option<Fact>, a: u32, c: u32) -> bool
    ensures { IsTrue result ↔ GivesFrom [] (option_copied said.entry) one None Rule.Dom (Sub a c) }
{
    match (said, link_from(one, a)) {
        (Some(said), Some((r, _))) => has_domain(said, r, c),
        _ => false,
    }
}

fn by_disj(said: Option<&NodeAxiom>, one: Option<Fact>, two: Option<Fact>, a: u32, n: u32) -> bool
    ensures { IsTrue result ↔ GivesFrom [] (option_copied said.entry) one two Rule.Disj (Sub a n) }
{
    let Some(said) = said else {
        return false;
    };
    match (sub_from(one, a), sub_from(two, a)) {
        (Some(c), Some(d)) => n == 1 && separates(said, c, d),
        _ => false,
    }
}

// The rule gives that node a is within node b.
fn gives_sub(
    store: &Store,
    said: Option<&NodeAxiom>,
    one: Option<Fact>,
    two: Option<Fact>,
    rule: Rule,
    a: u32,
    b: u32,
) -> bool
    ensures { IsTrue result
        ↔ GivesFrom store.now.nodes (option_copied said.entry) one two rule (Sub a b) }
{
    match rule {
        Rule::Itself => a < store.nodes() && a == b,
        Rule::Top => a < store.nodes() && b == 0,
        Rule::Incl => by_incl(said, one, a, b),
        Rule::Left => by_left(store, one, a, b),
        Rule::Right => by_right(store, one, a, b),
        Rule::Both => by_both(store, one, two, a, b),
        Rule::Into => by_into(store, one, two, a, b),
        Rule::Void => by_void(one, two, a, b),
        Rule::Dom => by_dom(said, one, a, b),
        Rule::Disj => by_disj(said, one, two, a, b),
        Rule::Out | Rule::Role | Rule::Chain | Rule::Refl => false,
    }
}

// The rule gives that role r links node a to node b.
fn gives_link(
    store: &Store,
    said: Option<&NodeAxiom>,
    one: Option<Fact>,
    two: Option<Fact>,
    rule: Rule,
    link: (u32, u32, u32),
) -> bool
    ensures { IsTrue result ↔ GivesFrom store.now.nodes (option_copied said.entry) one two rule
        (Link link.0 link.1 link.2) }
{
    let (a, r, b) = link;
    match rule {
        Rule::Out => by_out(store, one, a, r, b),
        Rule::Role => by_role(said, one, a, r, b),
        Rule::Chain => by_chain(said, one, two, a, r, b),
        Rule::Refl => by_refl(store, said, a, r, b),
        _ => false,
    }
}

/// The rule gives the fact from the first and the second premise and the axiom, if there are any.
pub fn gives(
    store: &Store,
    said: Option<&NodeAxiom>,
    one: Option<Fact>,
    two: Option<Fact>,
    rule: Rule,
    fact: Fact,
) -> bool
    ensures { IsTrue result
        ↔ GivesFrom store.now.nodes (option_copied said.entry) one two rule fact }
{
    match fact {
        Fact::Sub(a, b) => gives_sub(store, said, one, two, rule, a, b),
        Fact::Link(a, r, b) => gives_link(store, said, one, two, rule, (a, r, b)),
    }
}
