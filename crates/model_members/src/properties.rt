//! Axioms over properties.

ghost use Rattle.std.specs.Prelude.{◌↔◌, ◌++◌, ℕ, [], ◌∷◌, All, IsTrue, IfOk};
ghost use Rattle.std.specs.List.{AllPairs};
ghost use Rattle.el_logic.specs.declared.types.Axiom.TheVariants.{EquivalentRoles, Transitive, Reflexive};
ghost use Rattle.el_logic.specs.Meaning.{Holds, AreChained, AreRelated};
ghost use Rattle.closed_model.specs.Models.{ComesBefore};
ghost use Rattle.model_members.specs.Lists.{AreOrdered};
ghost use Rattle.model_members.specs.Inside.Pairs.{HasPairs, Lead};

use crate::ModelLists;
use crate::lists::{joined, loops};
use crate::model::pairs;
use crate::numbers::are_whole;
use crate::pairs::{are_pairs_among, joins_are_among};
use el_logic::{Pairs, equivalent_properties_have_the_same_pairs};
use std::alloc::{AllocError, Global};

// The pairs that a pair and then the properties of a chain lead to.
fn led(
    alloc: Global,
    lists: &ModelLists,
    first: &[(u32, u32)],
    chain: &[u32],
) -> Result<Pairs, AllocError>
    requires lists { AreOrdered lists.now }
    requires ascending { AllPairs ComesBefore first.now }
    ensures ascending { IfOk result (AllPairs ComesBefore) }
    ensures same { IfOk result (λ led. (x y : ℕ) → Lead led x y
        ↔ ((z : ℕ) × Lead first.now x z × AreChained lists.now.ordered chain.now z y)) }
{
    let mut all = Pairs::from_slice(alloc, first)?;
    for role in chain {
        let further = joined(alloc, all.as_slice(), pairs(lists, *role))?;
        all = further;
    }
    Ok(all)
}

// Whether the wanted pairs have each that two properties and those between them lead to.
fn is_led_within(
    alloc: Global,
    lists: &ModelLists,
    first: u32,
    between: &[u32],
    last: u32,
    wanted: &[(u32, u32)],
) -> Result<bool, AllocError>
    requires lists { AreOrdered lists.now }
    requires wanted { AllPairs ComesBefore wanted.now }
    ensures { IfOk result (λ yes. IsTrue yes ↔ ((x y : ℕ)
        → AreChained lists.now.ordered (first ∷ (between.now ++ last ∷ [])) x y
        → Lead wanted.now x y)) }
{
    let all = led(alloc, lists, pairs(lists, first), between)?;
    Ok(joins_are_among(all.as_slice(), pairs(lists, last), wanted))
}

// Whether the property has every pair of the composition of a chain of one property or more.
pub fn is_chain_within(
    alloc: Global,
    lists: &ModelLists,
    first: u32,
    others: &[u32],
    upper: u32,
) -> Result<bool, AllocError>
    requires { AreOrdered lists.now }
    ensures { IfOk result (λ yes. IsTrue yes ↔ ((x y : ℕ)
        → AreChained lists.now.ordered (first ∷ others.now) x y
        → AreRelated lists.now.ordered upper x y)) }
{
    let wanted = pairs(lists, upper);
    match others.split_last() {
        Some((last, between)) => is_led_within(alloc, lists, first, between, *last, wanted),
        None => Ok(are_pairs_among(pairs(lists, first), wanted)),
    }
}

// Whether the property relates what two of its pairs in a row lead to.
pub fn is_transitive(lists: &ModelLists, role: u32) -> bool
    requires { AreOrdered lists.now }
    ensures { IsTrue result ↔ Holds lists.now.ordered (Transitive role) }
{
    let all = pairs(lists, role);
    joins_are_among(all, all, all)
}

// Whether the others are the same pairs.
fn are_the_same(pairs: &[(u32, u32)], others: &[(u32, u32)]) -> bool
    requires pairs { AllPairs ComesBefore pairs.now }
    requires others { AllPairs ComesBefore others.now }
    ensures { IsTrue result ↔ ((x y : ℕ) → Lead pairs.now x y ↔ Lead others.now x y) }
{
    if !are_pairs_among(others, pairs) {
        return false;
    }
    are_pairs_among(pairs, others)
}

// Whether each property has just these pairs.
fn each_has_pairs(lists: &ModelLists, wanted: &[(u32, u32)], operands: &[u32]) -> bool
    requires lists { AreOrdered lists.now }
    requires wanted { AllPairs ComesBefore wanted.now }
    ensures { IsTrue result ↔ All (HasPairs lists.now.ordered wanted.now) operands.now }
{
    for operand in operands {
        if !are_the_same(wanted, pairs(lists, *operand)) {
            return false;
        }
    }
    true
}

// Whether all properties have the same pairs.
pub fn are_equivalent_properties(lists: &ModelLists, operands: &[u32]) -> bool
    requires { AreOrdered lists.now }
    ensures { IsTrue result ↔ Holds lists.now.ordered (EquivalentRoles operands.now) }
{
    let Some(first) = operands.first() else {
        return true;
    };
    equivalent_properties_have_the_same_pairs();
    each_has_pairs(lists, pairs(lists, *first), operands)
}

// Whether the property relates every element to itself.
pub fn is_reflexive(alloc: Global, lists: &ModelLists, role: u32) -> Result<bool, AllocError>
    requires { AreOrdered lists.now }
    ensures { IfOk result (λ yes. IsTrue yes ↔ Holds lists.now.ordered (Reflexive role)) }
{
    let numbers = loops(alloc, pairs(lists, role))?;
    Ok(are_whole(numbers.as_slice(), lists.ordered.size))
}
