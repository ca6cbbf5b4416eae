//! The lists of a model in ascending order.

ghost use Rattle.std.specs.Prelude.{◌≡◌, ◌↔◌, [], length, slice_index_or, All, IfOk};
ghost use Rattle.std.specs.List.{AllPairs};
ghost use Rattle.std.specs.List.Sorted.{IsStrictlyIncreasing};
ghost use Rattle.el_logic.specs.declared.types.Axiom.{Axiom};
ghost use Rattle.el_logic.specs.Meaning.{IsInterp, Holds, members_of, pairs_of};
ghost use Rattle.closed_model.specs.Models.{ComesBefore, HaveTheSame};
ghost use Rattle.model_members.specs.Lists.{AreOrdered, AreTurned};
ghost use Rattle.model_members.specs.Inside.Keyed.{AreMadeOf};
ghost use Rattle.model_members.specs.Inside.Sets.{AreElements};

use closed_model::{ordered_numbers, ordered_pairs};
use el_logic::{Interp, MemberLists, Numbers, PairLists, Pairs};
use std::alloc::{AllocError, Global};

/// A model with its lists in ascending order. Its axioms are tested over these lists, so that no
/// test sorts a list again.
#[derive(Debug, Drop)]
pub struct ModelLists {
    /// The model, with the members of each class and the pairs of each property ascending.
    pub ordered: Interp,
    /// The pairs of each property turned round, ascending.
    pub turned: PairLists,
}

// The same members in ascending order, class by class.
fn ordered_members(alloc: Global, lists: &[Numbers]) -> Result<MemberLists, AllocError>
    ensures same { IfOk result (AreMadeOf HaveTheSame lists.now) }
    ensures ascending { IfOk result (All IsStrictlyIncreasing) }
{
    let mut ordered = Vec::with_capacity(alloc, lists.len())?;
    for list in lists {
        let numbers = ordered_numbers(alloc, list.as_slice())?;
        ordered.push(numbers)?;
    }
    Ok(MemberLists::from_vec(ordered))
}

// The same pairs in ascending order, property by property.
fn ordered_roles(alloc: Global, lists: &[Pairs]) -> Result<PairLists, AllocError>
    ensures same { IfOk result (AreMadeOf HaveTheSame lists.now) }
    ensures ascending { IfOk result (All (AllPairs ComesBefore)) }
{
    let mut ordered = Vec::with_capacity(alloc, lists.len())?;
    for list in lists {
        let pairs = ordered_pairs(alloc, list.as_slice())?;
        ordered.push(pairs)?;
    }
    Ok(PairLists::from_vec(ordered))
}

// The pairs turned round, in ascending order.
fn turned_round(alloc: Global, pairs: &[(u32, u32)]) -> Result<Pairs, AllocError>
    ensures same { IfOk result (λ turned. AreTurned turned pairs.now) }
    ensures ascending { IfOk result (AllPairs ComesBefore) }
{
    let mut turned = Vec::with_capacity(alloc, pairs.len())?;
    for (from, to) in pairs {
        turned.push((*to, *from))?;
    }
    ordered_pairs(alloc, turned.as_slice())
}

// The pairs turned round, property by property.
fn turned_roles(alloc: Global, lists: &[Pairs]) -> Result<PairLists, AllocError>
    ensures same { IfOk result (AreMadeOf AreTurned lists.now) }
    ensures ascending { IfOk result (All (AllPairs ComesBefore)) }
{
    let mut turned = Vec::with_capacity(alloc, lists.len())?;
    for list in lists {
        let pairs = turned_round(alloc, list.as_slice())?;
        turned.push(pairs)?;
    }
    Ok(PairLists::from_vec(turned))
}

/// A model's lists in ascending order, for the tests of all its axioms. Each list is sorted once,
/// and each property's pairs twice.
pub fn model_lists(alloc: Global, model: &Interp) -> Result<ModelLists, AllocError>
    requires { IsInterp (length model.now.classes) (length model.now.roles) model.now }
    ensures ordered { IfOk result AreOrdered }
    ensures meaning { IfOk result (λ lists.
        (a : Axiom) → Holds lists.ordered a ↔ Holds model.now a) }
{
    let classes = ordered_members(alloc, model.classes.as_slice())?;
    let roles = ordered_roles(alloc, model.roles.as_slice())?;
    let turned = turned_roles(alloc, roles.as_slice())?;
    let ordered = Interp {
        size: model.size,
        classes,
        roles,
    };
    Ok(ModelLists { ordered, turned })
}

// The numbers under a key, none without a list.
fn numbers_at(lists: &[Numbers], key: u32) -> &[u32]
    ensures { result.now ≡ slice_index_or lists.now key [] }
{
    match lists.get(key as usize) {
        Some(list) => list.as_slice(),
        None => &[],
    }
}

// The pairs under a key, none without a list.
fn pairs_at(lists: &[Pairs], key: u32) -> &[(u32, u32)]
    ensures { result.now ≡ slice_index_or lists.now key [] }
{
    match lists.get(key as usize) {
        Some(list) => list.as_slice(),
        None => &[],
    }
}

// The members of a class name.
pub fn named(lists: &ModelLists, class: u32) -> &[u32]
    requires { AreOrdered lists.now }
    ensures list { result.now ≡ members_of lists.now.ordered class }
    ensures elements { AreElements lists.now.ordered.size result.now }
{
    numbers_at(lists.ordered.classes.as_slice(), class)
}

// The pairs of a property name.
pub fn pairs(lists: &ModelLists, role: u32) -> &[(u32, u32)]
    requires { AreOrdered lists.now }
    ensures list { result.now ≡ pairs_of lists.now.ordered role }
    ensures ascending { AllPairs ComesBefore result.now }
{
    pairs_at(lists.ordered.roles.as_slice(), role)
}

// The pairs of a property name turned round.
pub fn turned(lists: &ModelLists, role: u32) -> &[(u32, u32)]
    requires { AreOrdered lists.now }
    ensures list { AreTurned result.now (pairs_of lists.now.ordered role) }
    ensures ascending { AllPairs ComesBefore result.now }
{
    pairs_at(lists.turned.as_slice(), role)
}
