//! Ascending lists read off pairs.

ghost use Rattle.std.specs.Prelude.{◌≡◌, ◌↔◌, ◌⊎◌, ℕ, Contains, IsTrue, IfOk, OnOk};
ghost use Rattle.std.specs.List.{AllPairs};
ghost use Rattle.std.specs.List.Sorted.{IsStrictlyIncreasing};
ghost use Rattle.closed_model.specs.Models.{ComesBefore};
ghost use Rattle.model_members.specs.Inside.Pairs.{Lead};
ghost use Rattle.model_members.specs.Inside.Sets.{AreListed};

use crate::numbers::has_number;
use crate::pairs::{add_ends, steps_from};
use closed_model::{ordered_numbers, ordered_pairs};
use el_logic::{Numbers, Pairs};
use std::alloc::{AllocError, Global};

// Where the pairs begin.
pub fn begins(alloc: Global, pairs: &[(u32, u32)]) -> Result<Numbers, AllocError>
    ensures { IfOk result (AreListed (λ x. (y : ℕ) × Lead pairs.now x y)) }
{
    let mut found = Vec::with_capacity(alloc, pairs.len())?;
    for (from, _) in pairs {
        found.push(*from)?;
    }
    ordered_numbers(alloc, found.as_slice())
}

// The elements that pairs lead back to.
pub fn loops(alloc: Global, pairs: &[(u32, u32)]) -> Result<Numbers, AllocError>
    ensures { IfOk result (AreListed (λ x. (y : ℕ) × Lead pairs.now x y × (x ≡ y))) }
{
    let mut found = Vec::new(alloc);
    for (from, to) in pairs {
        if *from != *to {
            continue;
        }
        found.push(*from)?;
    }
    ordered_numbers(alloc, found.as_slice())
}

// Adds where the steps end.
fn add_targets(found: &mut Vec<u32>, steps: &[(u32, u32)]) -> Result<(), AllocError>
    ensures { OnOk result ((y : ℕ) → Contains found.new.items y
        ↔ (Contains found.old.items y ⊎ ((x : ℕ) × Lead steps.now x y))) }
{
    for (_, to) in steps {
        found.push(*to)?;
    }
    Ok(())
}

// Where the pairs end that begin at one of the numbers.
pub fn targets(alloc: Global, pairs: &[(u32, u32)], numbers: &[u32]) -> Result<Numbers, AllocError>
    requires { AllPairs ComesBefore pairs.now }
    ensures { IfOk result (AreListed (λ y. (x : ℕ) × Contains numbers.now x × Lead pairs.now x y)) }
{
    let mut found = Vec::new(alloc);
    for from in numbers {
        add_targets(&mut found, steps_from(pairs, *from))?;
    }
    ordered_numbers(alloc, found.as_slice())
}

// Whether one of the pairs leads from an element to one of the ends.
fn leads_into(pairs: &[(u32, u32)], from: u32, ends: &[u32]) -> bool
    requires pairs { AllPairs ComesBefore pairs.now }
    requires ends { IsStrictlyIncreasing ends.now }
    ensures { IsTrue result ↔ ((y : ℕ) × Lead pairs.now from y × Contains ends.now y) }
{
    for (_, to) in steps_from(pairs, from) {
        if has_number(ends, *to) {
            return true;
        }
    }
    false
}

// Those of the numbers from which one of the pairs leads to one of the ends.
pub fn leading(
    alloc: Global,
    numbers: &[u32],
    pairs: &[(u32, u32)],
    ends: &[u32],
) -> Result<Numbers, AllocError>
    requires pairs { AllPairs ComesBefore pairs.now }
    requires ends { IsStrictlyIncreasing ends.now }
    ensures { IsStrictlyIncreasing numbers.now → IfOk result (AreListed (λ x. Contains numbers.now x
        × ((y : ℕ) × Lead pairs.now x y × Contains ends.now y))) }
{
    let mut kept = Vec::new(alloc);
    for x in numbers {
        if !leads_into(pairs, *x, ends) {
            continue;
        }
        kept.push(*x)?;
    }
    Ok(Numbers::from_vec(kept))
}

// The elements of one list or the other.
pub fn either(alloc: Global, numbers: &[u32], others: &[u32]) -> Result<Numbers, AllocError>
    ensures { IfOk result (AreListed (λ x. Contains numbers.now x ⊎ Contains others.now x)) }
{
    let mut all = Vec::from_slice(alloc, numbers)?;
    all.extend_from_slice(others)?;
    ordered_numbers(alloc, all.as_slice())
}

// The pairs that a pair and then a step lead to.
pub fn joined(
    alloc: Global,
    pairs: &[(u32, u32)],
    steps: &[(u32, u32)],
) -> Result<Pairs, AllocError>
    requires { AllPairs ComesBefore steps.now }
    ensures ascending { IfOk result (AllPairs ComesBefore) }
    ensures same { IfOk result (λ joined. (x y : ℕ)
        → Lead joined x y ↔ ((z : ℕ) × Lead pairs.now x z × Lead steps.now z y)) }
{
    let mut found = Vec::new(alloc);
    for (from, by) in pairs {
        add_ends(&mut found, *from, steps_from(steps, *by))?;
    }
    ordered_pairs(alloc, found.as_slice())
}
