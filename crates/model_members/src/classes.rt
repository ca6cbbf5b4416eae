//! The members of class expressions, and axioms over classes.

ghost use Rattle.std.specs.Prelude.{◌↔◌, ◌⊎◌, ℕ, All, Contains, IsTrue, IfOk};
ghost use Rattle.el_logic.specs.declared.types.Axiom.TheVariants.{Equivalent, Disjoint, Domain};
ghost use Rattle.el_logic.specs.Meaning.{IsMember, IsWithin, Holds, AreRelated, members_of};
ghost use Rattle.model_members.specs.Lists.{AreOrdered};
ghost use Rattle.model_members.specs.Inside.Sets.{Has, HasMembers, IsSet, IsSetOf};

use crate::ModelLists;
use crate::among::{among, are_members, first_named};
use crate::lists::{begins, either, targets};
use crate::model::{named, pairs, turned};
use crate::sets::{Members, intersection, is_apart, is_within};
use el_logic::{
    Expr, Numbers, equivalent_classes_have_the_same_members, members_of_a_restriction,
    members_of_an_intersection,
};
use std::alloc::{AllocError, Global};

// The set of the members of a class name.
fn members_of_name(alloc: Global, lists: &ModelLists, class: u32) -> Result<Members, AllocError>
    requires { AreOrdered lists.now }
    ensures { IfOk result (let model = lists.now.ordered in
        IsSetOf model.size (Contains (members_of model class))) }
{
    let numbers = Numbers::from_slice(alloc, named(lists, class))?;
    Ok(Members::Listed(numbers))
}

// The set of the elements that a property leads from to one of the set.
fn members_before(
    alloc: Global,
    lists: &ModelLists,
    role: u32,
    ends: &Members,
) -> Result<Members, AllocError>
    requires lists { AreOrdered lists.now }
    requires set { IsSet lists.now.ordered.size ends.now }
    ensures { IfOk result (let model = lists.now.ordered in IsSetOf model.size
        (λ x. (y : ℕ) × AreRelated model role x y × Has model.size ends.now y)) }
{
    match ends {
        Members::Whole => {
            let numbers = begins(alloc, pairs(lists, role))?;
            Ok(Members::Listed(numbers))
        }
        Members::Listed(listed) => {
            let numbers = targets(alloc, turned(lists, role), listed.as_slice())?;
            Ok(Members::Listed(numbers))
        }
    }
}

// The set of the members of an expression.
fn members(alloc: Global, lists: &ModelLists, e: &Expr) -> Result<Members, AllocError>
    requires { AreOrdered lists.now }
    ensures { IfOk result (let model = lists.now.ordered in
        IsSetOf model.size (λ x. IsMember model x e.now)) }
{
    match e {
        Expr::Top => Ok(Members::Whole),
        Expr::Bottom => Ok(Members::Listed(Numbers::new(alloc))),
        Expr::Name(class) => members_of_name(alloc, lists, *class),
        Expr::And(operands) => {
            members_of_an_intersection();
            match first_named(lists, operands.as_slice()) {
                Some(numbers) => {
                    let kept = among(alloc, lists, numbers, e)?;
                    Ok(Members::Listed(kept))
                }
                None => {
                    let mut all = Members::Whole;
                    for operand in operands.as_slice() {
                        let next = members(alloc, lists, operand)?;
                        let both = intersection(alloc, lists.ordered.size, all, next)?;
                        all = both;
                    }
                    Ok(all)
                }
            }
        }
        Expr::Exists(role, filler) => {
            members_of_a_restriction();
            let ends = members(alloc, lists, filler.get())?;
            members_before(alloc, lists, *role, &ends)
        }
    }
}

// Whether every member of the first expression is one of the second.
pub fn is_class_within(
    alloc: Global,
    lists: &ModelLists,
    lower: &Expr,
    upper: &Expr,
) -> Result<bool, AllocError>
    requires { AreOrdered lists.now }
    ensures { IfOk result (λ yes. IsTrue yes
        ↔ IsWithin lists.now.ordered lower.now upper.now) }
{
    let set = members(alloc, lists, lower)?;
    match &set {
        Members::Whole => {
            let other = members(alloc, lists, upper)?;
            Ok(is_within(lists.ordered.size, &set, &other))
        }
        Members::Listed(numbers) => are_members(alloc, lists, numbers.as_slice(), upper),
    }
}

// Whether an expression has just the members of the set.
fn has_members(
    alloc: Global,
    lists: &ModelLists,
    set: &Members,
    e: &Expr,
) -> Result<bool, AllocError>
    requires lists { AreOrdered lists.now }
    requires set { IsSet lists.now.ordered.size set.now }
    ensures { IfOk result (λ yes. IsTrue yes ↔ HasMembers lists.now.ordered set.now e.now) }
{
    let other = members(alloc, lists, e)?;
    if !is_within(lists.ordered.size, set, &other) {
        return Ok(false);
    }
    Ok(is_within(lists.ordered.size, &other, set))
}

// Whether each expression has just the members of the set.
fn each_has_members(
    alloc: Global,
    lists: &ModelLists,
    set: &Members,
    operands: &[Expr],
) -> Result<bool, AllocError>
    requires lists { AreOrdered lists.now }
    requires set { IsSet lists.now.ordered.size set.now }
    ensures { IfOk result (λ yes. IsTrue yes ↔ All (HasMembers lists.now.ordered set.now) operands.now) }
{
    for operand in operands {
        let same = has_members(alloc, lists, set, operand)?;
        if !same {
            return Ok(false);
        }
    }
    Ok(true)
}

// Whether all expressions have the same members.
pub fn are_equivalent(
    alloc: Global,
    lists: &ModelLists,
    operands: &[Expr],
) -> Result<bool, AllocError>
    requires { AreOrdered lists.now }
    ensures { IfOk result (λ yes. IsTrue yes ↔ Holds lists.now.ordered (Equivalent operands.now)) }
{
    let Some(first) = operands.first() else {
        return Ok(true);
    };
    equivalent_classes_have_the_same_members();
    let set = members(alloc, lists, first)?;
    each_has_members(alloc, lists, &set, operands)
}

// The elements of both sets together.
fn union(alloc: Global, set: Members, other: Members) -> Result<Members, AllocError>
    ensures { (size : ℕ) → IsSet size set → IsSet size other
        → IfOk result (IsSetOf size (λ x. Has size set x ⊎ Has size other x)) }
{
    let Members::Listed(numbers) = set else {
        return Ok(Members::Whole);
    };
    let Members::Listed(others) = other else {
        return Ok(Members::Whole);
    };
    let all = either(alloc, numbers.as_slice(), others.as_slice())?;
    Ok(Members::Listed(all))
}

// Whether no element belongs to expressions at two positions.
pub fn are_disjoint(
    alloc: Global,
    lists: &ModelLists,
    operands: &[Expr],
) -> Result<bool, AllocError>
    requires { AreOrdered lists.now }
    ensures { IfOk result (λ yes. IsTrue yes ↔ Holds lists.now.ordered (Disjoint operands.now)) }
{
    let mut taken = Members::Listed(Numbers::new(alloc));
    for operand in operands {
        let next = members(alloc, lists, operand)?;
        if !is_apart(lists.ordered.size, &taken, &next) {
            return Ok(false);
        }
        let both = union(alloc, taken, next)?;
        taken = both;
    }
    Ok(true)
}

// Whether every element that the property leads on from belongs to the class.
pub fn has_domain(
    alloc: Global,
    lists: &ModelLists,
    role: u32,
    class: &Expr,
) -> Result<bool, AllocError>
    requires { AreOrdered lists.now }
    ensures { IfOk result (λ yes. IsTrue yes
        ↔ Holds lists.now.ordered (Domain role class.now)) }
{
    let numbers = begins(alloc, pairs(lists, role))?;
    are_members(alloc, lists, numbers.as_slice(), class)
}
