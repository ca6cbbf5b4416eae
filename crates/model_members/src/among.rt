//! Members of expressions among given elements.

ghost use Rattle.std.specs.Prelude.{◌↔◌, ℕ, All, Contains, IsTrue, IfOk, IfSome};
ghost use Rattle.el_logic.specs.Meaning.{IsMember};
ghost use Rattle.model_members.specs.declared.sets.Members.TheVariants.{Listed};
ghost use Rattle.model_members.specs.Lists.{AreOrdered};
ghost use Rattle.model_members.specs.Inside.Sets.{AreElements, AreListed, HasAll, IsSetOf};

use crate::ModelLists;
use crate::lists::{leading, targets};
use crate::model::{named, pairs};
use crate::numbers::{are_among, common};
use el_logic::{Expr, Numbers, members_of_a_restriction, members_of_an_intersection};
use std::alloc::{AllocError, Global};

// The members of an expression that is a name, as they are listed.
fn named_by<'a>(lists: &'a ModelLists, e: &Expr) -> Option<&'a [u32]>
    requires { AreOrdered lists.now }
    ensures { IfSome result (λ numbers. let model = lists.now.ordered in
        IsSetOf model.size (λ x. IsMember model x e.now) (Listed numbers.now)) }
{
    match e {
        Expr::Name(class) => Some(named(lists, *class)),
        _ => None,
    }
}

// The members of the first operand that is a name, as they are listed.
pub fn first_named<'a>(lists: &'a ModelLists, operands: &[Expr]) -> Option<&'a [u32]>
    requires { AreOrdered lists.now }
    ensures { IfSome result (λ numbers. HasAll lists.now.ordered operands.now numbers.now) }
{
    for operand in operands {
        match named_by(lists, operand) {
            Some(numbers) => return Some(numbers),
            None => {}
        }
    }
    None
}

// Those of the elements that are members of an expression. All of them are tested together: what a
// restriction leads to is tested once, from however many of them it is reached.
pub fn among(
    alloc: Global,
    lists: &ModelLists,
    numbers: &[u32],
    e: &Expr,
) -> Result<Numbers, AllocError>
    requires { AreOrdered lists.now }
    ensures { AreElements lists.now.ordered.size numbers.now → IfOk result (AreListed (λ x.
        Contains numbers.now x × IsMember lists.now.ordered x e.now)) }
{
    match e {
        Expr::Top => Numbers::from_slice(alloc, numbers),
        Expr::Bottom => Ok(Numbers::new(alloc)),
        Expr::Name(class) => common(alloc, numbers, named(lists, *class)),
        Expr::And(operands) => {
            members_of_an_intersection();
            let mut all = Numbers::from_slice(alloc, numbers)?;
            for operand in operands.as_slice() {
                let fewer = among(alloc, lists, all.as_slice(), operand)?;
                all = fewer;
            }
            Ok(all)
        }
        Expr::Exists(role, filler) => {
            members_of_a_restriction();
            let steps = pairs(lists, *role);
            match named_by(lists, filler.get()) {
                Some(ends) => leading(alloc, numbers, steps, ends),
                None => {
                    let reached = targets(alloc, steps, numbers)?;
                    let ends = among(alloc, lists, reached.as_slice(), filler.get())?;
                    leading(alloc, numbers, steps, ends.as_slice())
                }
            }
        }
    }
}

// Whether all the elements are members of an expression.
pub fn are_members(
    alloc: Global,
    lists: &ModelLists,
    numbers: &[u32],
    e: &Expr,
) -> Result<bool, AllocError>
    requires lists { AreOrdered lists.now }
    requires elements { AreElements lists.now.ordered.size numbers.now }
    ensures { IfOk result (λ yes. IsTrue yes
        ↔ ((x : ℕ) → Contains numbers.now x → IsMember lists.now.ordered x e.now)) }
{
    match named_by(lists, e) {
        Some(others) => Ok(are_among(numbers, others)),
        None => {
            let kept = among(alloc, lists, numbers, e)?;
            Ok(are_among(numbers, kept.as_slice()))
        }
    }
}
