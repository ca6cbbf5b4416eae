//! Ascending lists of pairs.

ghost use Rattle.std.specs.Prelude.{◌≡◌, ◌↔◌, ◌<◌, ◌≤◌, ◌⊎◌, ◌++◌, ℕ, All, IsTrue, OnOk};
ghost use Rattle.std.specs.List.{AllPairs};
ghost use Rattle.std.specs.List.Sorted.{IsNonDecreasingBy};
ghost use Rattle.closed_model.specs.Models.{ComesBefore};
ghost use Rattle.model_members.specs.Inside.Pairs.{Lead};

use std::alloc::AllocError;

// Whether ascending pairs have this one.
fn has_pair(pairs: &[(u32, u32)], from: u32, to: u32) -> bool
    requires { AllPairs ComesBefore pairs.now }
    ensures { IsTrue result ↔ Lead pairs.now from to }
{
    match pairs.binary_search(&(from, to)) {
        Ok(_) => true,
        Err(_) => false,
    }
}

// Whether the others have each of the pairs.
pub fn are_pairs_among(pairs: &[(u32, u32)], others: &[(u32, u32)]) -> bool
    requires { AllPairs ComesBefore others.now }
    ensures { IsTrue result ↔ ((x y : ℕ) → Lead pairs.now x y → Lead others.now x y) }
{
    for (from, to) in pairs {
        if !has_pair(others, *from, *to) {
            return false;
        }
    }
    true
}

// The pairs that begin below a limit, and the others.
fn split_below(pairs: &[(u32, u32)], limit: u64) -> (&[(u32, u32)], &[(u32, u32)])
    requires { IsNonDecreasingBy (λ pair. pair.0) pairs.now }
    ensures below { All (λ pair. pair.0 < limit) result.0.now }
    ensures above { All (λ pair. limit ≤ pair.0) result.1.now }
    ensures whole { pairs.now ≡ result.0.now ++ result.1.now }
    ensures ordered { IsNonDecreasingBy (λ pair. pair.0) result.1.now }
{
    let count = pairs.partition_point(|pair| u64::from(pair.0) < limit);
    pairs.split_at(count)
}

// The pairs that begin at an element.
pub fn steps_from(pairs: &[(u32, u32)], from: u32) -> &[(u32, u32)]
    requires { AllPairs ComesBefore pairs.now }
    ensures { (x y : ℕ) → Lead result.now x y ↔ ((x ≡ from) × Lead pairs.now x y) }
{
    let limit = u64::from(from);
    let (_, rest) = split_below(pairs, limit);
    let (steps, _) = split_below(rest, limit + 1);
    steps
}

// Whether the wanted pairs lead from an element wherever the steps end.
fn ends_are_among(from: u32, steps: &[(u32, u32)], wanted: &[(u32, u32)]) -> bool
    requires { AllPairs ComesBefore wanted.now }
    ensures { IsTrue result ↔ ((z y : ℕ) → Lead steps.now z y → Lead wanted.now from y) }
{
    for (_, to) in steps {
        if !has_pair(wanted, from, *to) {
            return false;
        }
    }
    true
}

// Whether the wanted pairs have each that a pair and then a step lead to.
pub fn joins_are_among(pairs: &[(u32, u32)], steps: &[(u32, u32)], wanted: &[(u32, u32)]) -> bool
    requires steps { AllPairs ComesBefore steps.now }
    requires wanted { AllPairs ComesBefore wanted.now }
    ensures { IsTrue result
        ↔ ((x z y : ℕ) → Lead pairs.now x z → Lead steps.now z y → Lead wanted.now x y) }
{
    for (from, by) in pairs {
        if !ends_are_among(*from, steps_from(steps, *by), wanted) {
            return false;
        }
    }
    true
}

// Adds the pairs that lead from an element to wherever the steps end.
pub fn add_ends(
    found: &mut Vec<(u32, u32)>,
    from: u32,
    steps: &[(u32, u32)],
) -> Result<(), AllocError>
    ensures { OnOk result ((x y : ℕ) → Lead found.new.items x y
        ↔ (Lead found.old.items x y ⊎ ((x ≡ from) × (z : ℕ) × Lead steps.now z y))) }
{
    for (_, to) in steps {
        found.push((from, *to))?;
    }
    Ok(())
}
