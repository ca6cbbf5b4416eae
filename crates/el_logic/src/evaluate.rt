//! Membership and truth in a given interpretation, by plain loops.
ghost use Rattle.std.specs.Prelude.{◌≡◌, ◌↔◌, ◌<◌, ℕ, List, [], ◌∷◌, length, All, Contains, IsTrue};
ghost use Rattle.el_logic.specs.declared.types.Axiom.TheVariants.{SubClass, Equivalent, Disjoint, SubRole, EquivalentRoles, Transitive, Reflexive, Domain};
ghost use Rattle.el_logic.specs.Meaning.{IsInterp, IsMember, IsInEach, IsWithin, AreDisjoint, AreApart, Holds, AreRelated, AreChained, members_of, pairs_of};

use crate::{Axiom, Expr, Interp};

/// Whether all numbers are elements of a domain of this size.
fn are_elements(size: u32, numbers: &[u32]) -> bool
    ensures { IsTrue result ↔ All (λ x. x < size) numbers.now }
{
    for x in numbers {
        if *x >= size {
            return false;
        }
    }
    true
}

/// Whether all pairs are of elements of a domain of this size.
fn are_pairs_of_elements(size: u32, pairs: &[(u32, u32)]) -> bool
    ensures { IsTrue result ↔ All (λ p. (p.0 < size) × (p.1 < size)) pairs.now }
{
    for (from, to) in pairs {
        if *from >= size {
            return false;
        }
        if *to >= size {
            return false;
        }
    }
    true
}

/// Whether the members of all classes are elements.
fn members_are_within(i: &Interp) -> bool
    ensures { IsTrue result ↔ All (All (λ x. x < i.now.size)) i.now.classes }
{
    for list in i.classes.as_slice() {
        if !are_elements(i.size, list.as_slice()) {
            return false;
        }
    }
    true
}

/// Whether the pairs of all properties are of elements.
fn pairs_are_within(i: &Interp) -> bool
    ensures { IsTrue result
        ↔ All (All (λ p. (p.0 < i.now.size) × (p.1 < i.now.size))) i.now.roles }
{
    for list in i.roles.as_slice() {
        if !are_pairs_of_elements(i.size, list.as_slice()) {
            return false;
        }
    }
    true
}

/// Whether this is an interpretation of so many class names and property names: the domain has an
/// element, each name has its list, and all members and pairs are of the domain.
pub fn is_interpretation(i: &Interp, classes: u32, roles: u32) -> bool
    ensures { IsTrue result ↔ IsInterp classes roles i.now }
{
    if i.size == 0 {
        return false;
    }
    if i.classes.as_slice().len() != classes as usize {
        return false;
    }
    if i.roles.as_slice().len() != roles as usize {
        return false;
    }
    if !members_are_within(i) {
        return false;
    }
    pairs_are_within(i)
}

/// The members of a class name, in the order of their list; none without a list.
fn members(i: &Interp, class: u32) -> &[u32]
    ensures { result.now ≡ members_of i.now class }
{
    match i.classes.as_slice().get(class as usize) {
        Some(list) => list.as_slice(),
        None => &[],
    }
}

/// The pairs of a property name, in the order of their list; none without a list.
fn pairs(i: &Interp, role: u32) -> &[(u32, u32)]
    ensures { result.now ≡ pairs_of i.now role }
{
    match i.roles.as_slice().get(role as usize) {
        Some(list) => list.as_slice(),
        None => &[],
    }
}

/// Whether the element belongs to the expression (OWL 2 direct semantics, section 2.2.3). It costs a
/// walk over the list of each name that occurs.
#[tactic(auto, using(crate::proofs::Members::from_intersection, crate::proofs::Members::to_intersection, crate::proofs::Members::from_restriction, crate::proofs::Members::to_restriction,))]
pub fn member(i: &Interp, x: u32, e: &Expr) -> bool
    ensures { IsTrue result ↔ IsMember i.now x e.now }
{
    match e {
        Expr::Top => x < i.size,
        Expr::Bottom => false,
        Expr::Name(class) => members(i, *class).contains(&x),
        Expr::And(operands) => {
            for operand in operands.as_slice() {
                if !member(i, x, operand) {
                    return false;
                }
            }
            x < i.size
        }
        Expr::Exists(role, filler) => {
            for (from, to) in pairs(i, *role) {
                if *from == x && member(i, *to, filler.get()) {
                    return true;
                }
            }
            false
        }
    }
}

/// Whether every member of the first expression is one of the second.
fn is_within(i: &Interp, lower: &Expr, upper: &Expr) -> bool
    requires { IsInterp (length i.now.classes) (length i.now.roles) i.now }
    ensures { IsTrue result ↔ IsWithin i.now lower.now upper.now }
{
    for x in 0..i.size {
        if !member(i, x, lower) {
            continue;
        }
        if !member(i, x, upper) {
            return false;
        }
    }
    true
}

/// Whether every member of an expression is one of each of the others.
fn is_within_each(i: &Interp, lower: &Expr, uppers: &[Expr]) -> bool
    requires { IsInterp (length i.now.classes) (length i.now.roles) i.now }
    ensures { IsTrue result ↔ All (IsWithin i.now lower.now) uppers.now }
{
    for upper in uppers {
        if !is_within(i, lower, upper) {
            return false;
        }
    }
    true
}

/// Whether all expressions have the same members.
fn are_equivalent(i: &Interp, operands: &[Expr]) -> bool
    requires { IsInterp (length i.now.classes) (length i.now.roles) i.now }
    ensures { IsTrue result ↔ Holds i.now (Equivalent operands.now) }
{
    for operand in operands {
        if !is_within_each(i, operand, operands) {
            return false;
        }
    }
    true
}

/// Whether no element belongs to both expressions.
fn is_apart(i: &Interp, one: &Expr, other: &Expr) -> bool
    requires { IsInterp (length i.now.classes) (length i.now.roles) i.now }
    ensures { IsTrue result ↔ AreDisjoint i.now one.now other.now }
{
    for x in 0..i.size {
        if !member(i, x, one) {
            continue;
        }
        if member(i, x, other) {
            return false;
        }
    }
    true
}

/// Whether no element belongs to an expression and to one of the others.
fn is_apart_from_each(i: &Interp, one: &Expr, others: &[Expr]) -> bool
    requires { IsInterp (length i.now.classes) (length i.now.roles) i.now }
    ensures { IsTrue result ↔ All (AreDisjoint i.now one.now) others.now }
{
    for other in others {
        if !is_apart(i, one, other) {
            return false;
        }
    }
    true
}

/// Whether no element belongs to expressions at two positions.
fn are_apart(i: &Interp, operands: &[Expr]) -> bool
    requires { IsInterp (length i.now.classes) (length i.now.roles) i.now }
    ensures { IsTrue result ↔ AreApart i.now operands.now }
{
    let mut rest = operands;
    while let Some((one, others)) = rest.split_first() {
        if !is_apart_from_each(i, one, others) {
            return false;
        }
        rest = others;
    }
    true
}

/// Whether the property relates the first element to the second.
fn is_related(i: &Interp, role: u32, from: u32, to: u32) -> bool
    ensures { IsTrue result ↔ AreRelated i.now role from to }
{
    pairs(i, role).contains(&(from, to))
}

/// Whether the property relates the start to each element that the chain leads to from there.
fn leads_within(i: &Interp, start: u32, at: u32, chain: &[u32], upper: u32) -> bool
    ensures { IsTrue result
        ↔ ((y : ℕ) → AreChained i.now chain.now at y → AreRelated i.now upper start y) }
{
    let Some((role, rest)) = chain.split_first() else {
        return is_related(i, upper, start, at);
    };
    for (from, to) in pairs(i, *role) {
        if *from != at {
            continue;
        }
        if !leads_within(i, start, *to, rest, upper) {
            return false;
        }
    }
    true
}

/// Whether the property has every pair of the chain's composition.
fn is_chain_within(i: &Interp, chain: &[u32], upper: u32) -> bool
    requires { IsInterp (length i.now.classes) (length i.now.roles) i.now }
    ensures { IsTrue result ↔ Holds i.now (SubRole chain.now upper) }
{
    if chain.is_empty() {
        return false;
    }
    for x in 0..i.size {
        if !leads_within(i, x, x, chain, upper) {
            return false;
        }
    }
    true
}

/// Whether every pair of the first property is one of the second.
fn is_property_within(i: &Interp, lower: u32, upper: u32) -> bool
    ensures { IsTrue result
        ↔ ((x y : ℕ) → AreRelated i.now lower x y → AreRelated i.now upper x y) }
{
    for (from, to) in pairs(i, lower) {
        if !is_related(i, upper, *from, *to) {
            return false;
        }
    }
    true
}

/// Whether every pair of a property is one of each of the others.
fn is_property_within_each(i: &Interp, lower: u32, uppers: &[u32]) -> bool
    ensures { IsTrue result
        ↔ All (λ upper. (x y : ℕ) → AreRelated i.now lower x y → AreRelated i.now upper x y) uppers.now }
{
    for upper in uppers {
        if !is_property_within(i, lower, *upper) {
            return false;
        }
    }
    true
}

/// Whether all properties have the same pairs.
fn are_equivalent_properties(i: &Interp, operands: &[u32]) -> bool
    ensures { IsTrue result ↔ Holds i.now (EquivalentRoles operands.now) }
{
    for operand in operands {
        if !is_property_within_each(i, *operand, operands) {
            return false;
        }
    }
    true
}

/// Whether the property relates every element to itself.
fn is_reflexive(i: &Interp, role: u32) -> bool
    ensures { IsTrue result ↔ Holds i.now (Reflexive role) }
{
    for x in 0..i.size {
        if !is_related(i, role, x, x) {
            return false;
        }
    }
    true
}

/// Whether every element that the property leads on from belongs to the class.
fn has_domain(i: &Interp, role: u32, class: &Expr) -> bool
    ensures { IsTrue result ↔ Holds i.now (Domain role class.now) }
{
    for (from, _) in pairs(i, role) {
        if !member(i, *from, class) {
            return false;
        }
    }
    true
}

/// Whether the axiom holds (OWL 2 direct semantics, section 2.3). Its loops go over the domain and
/// over the lists of the names that occur, so it is for interpretations of moderate size.
pub fn holds(i: &Interp, a: &Axiom) -> bool
    requires { IsInterp (length i.now.classes) (length i.now.roles) i.now }
    ensures { IsTrue result ↔ Holds i.now a.now }
{
    match a {
        Axiom::SubClass(lower, upper) => is_within(i, lower, upper),
        Axiom::Equivalent(operands) => are_equivalent(i, operands.as_slice()),
        Axiom::Disjoint(operands) => are_apart(i, operands.as_slice()),
        Axiom::SubRole(chain, upper) => is_chain_within(i, chain.as_slice(), *upper),
        Axiom::EquivalentRoles(operands) => are_equivalent_properties(i, operands.as_slice()),
        Axiom::Transitive(role) => is_chain_within(i, &[*role, *role], *role),
        Axiom::Reflexive(role) => is_reflexive(i, *role),
        Axiom::Domain(role, class) => has_domain(i, *role, class),
    }
}
