//! Ascending lists of numbers.

ghost use Rattle.std.specs.Prelude.{◌≡◌, ◌↔◌, ◌<◌, ◌⊎◌, ℕ, length, All, Contains, IsTrue, IfOk};
ghost use Rattle.std.specs.List.{filter};
ghost use Rattle.std.specs.List.Sorted.{IsStrictlyIncreasing};
ghost use Rattle.model_members.specs.Numbers.{has_number};
ghost use Rattle.model_members.specs.Inside.Sets.{AreElements};

use el_logic::Numbers;
use std::alloc::{AllocError, Global};

/// Whether ascending numbers have this one.
pub fn has_number(numbers: &[u32], x: u32) -> bool
    requires { IsStrictlyIncreasing numbers.now }
    ensures value { result ≡ has_number numbers.now x }
    ensures there { IsTrue result ↔ Contains numbers.now x }
{
    match numbers.binary_search(&x) {
        Ok(_) => true,
        Err(_) => false,
    }
}

// Whether the others have each of the numbers.
pub fn are_among(numbers: &[u32], others: &[u32]) -> bool
    requires { IsStrictlyIncreasing others.now }
    ensures { IsTrue result
        ↔ ((x : ℕ) → Contains numbers.now x → Contains others.now x) }
{
    for x in numbers {
        if !has_number(others, *x) {
            return false;
        }
    }
    true
}

// Whether the others have none of the numbers.
pub fn are_apart(numbers: &[u32], others: &[u32]) -> bool
    requires { IsStrictlyIncreasing others.now }
    ensures { IsTrue result
        ↔ ((x : ℕ) → Contains numbers.now x → ¬ (Contains others.now x)) }
{
    for x in numbers {
        if has_number(others, *x) {
            return false;
        }
    }
    true
}

// Whether the numbers are all below this size.
pub fn are_whole(numbers: &[u32], size: u32) -> bool
    requires { AreElements size numbers.now }
    ensures { IsTrue result ↔ ((x : ℕ) → x < size → Contains numbers.now x) }
{
    numbers.len() == size as usize
}

// The numbers that the others have too.
pub fn common(alloc: Global, numbers: &[u32], others: &[u32]) -> Result<Numbers, AllocError>
    requires { IsStrictlyIncreasing others.now }
    ensures { IfOk result (λ both. both ≡ filter (has_number others.now) numbers.now) }
{
    let both = numbers
        .iter()
        .copied()
        .filter(|x| has_number(others, *x))
        .collect(alloc)?;
    Ok(Numbers::from_vec(both))
}
