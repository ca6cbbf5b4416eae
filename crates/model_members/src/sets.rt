//! Sets of elements: the whole domain, or a list.

ghost use Rattle.std.specs.Prelude.{◌≡◌, ◌↔◌, ◌<◌, ◌≤◌, ◌⊎◌, ℕ, length, All, Contains, IsTrue, IfOk};
ghost use Rattle.model_members.specs.Inside.Sets.{Has, IsSet, IsSetOf};

use crate::numbers::{are_among, are_apart, are_whole, common};
use el_logic::Numbers;
use std::alloc::{AllocError, Global};

/// Elements of a domain.
#[derive(Debug, Drop)]
pub enum Members {
    /// All elements.
    Whole,
    /// These, in ascending order.
    Listed(Numbers),
}

// Whether each element of the first set is one of the other.
pub fn is_within(size: u32, set: &Members, other: &Members) -> bool
    requires one { IsSet size set.now }
    requires other { IsSet size other.now }
    ensures { IsTrue result ↔ ((x : ℕ) → Has size set.now x → Has size other.now x) }
{
    match other {
        Members::Whole => true,
        Members::Listed(others) => match set {
            Members::Whole => are_whole(others.as_slice(), size),
            Members::Listed(numbers) => are_among(numbers.as_slice(), others.as_slice()),
        },
    }
}

// Whether no element is one of both sets.
pub fn is_apart(size: u32, set: &Members, other: &Members) -> bool
    requires inhabited { 1 ≤ size }
    requires one { IsSet size set.now }
    requires other { IsSet size other.now }
    ensures { IsTrue result ↔ ((x : ℕ) → Has size set.now x → ¬ (Has size other.now x)) }
{
    match set {
        Members::Whole => is_empty(size, other),
        Members::Listed(numbers) => match other {
            Members::Whole => numbers.is_empty(),
            Members::Listed(others) => are_apart(numbers.as_slice(), others.as_slice()),
        },
    }
}

// Whether there is no element in the set.
fn is_empty(size: u32, set: &Members) -> bool
    requires { 1 ≤ size }
    ensures { IsTrue result ↔ ((x : ℕ) → ¬ (Has size set.now x)) }
{
    match set {
        Members::Whole => false,
        Members::Listed(numbers) => numbers.is_empty(),
    }
}

// The elements of both sets.
pub fn intersection(
    alloc: Global,
    size: u32,
    set: Members,
    other: Members,
) -> Result<Members, AllocError>
    requires one { IsSet size set }
    requires other { IsSet size other }
    ensures { IfOk result (IsSetOf size (λ x. Has size set x × Has size other x)) }
{
    let Members::Listed(numbers) = set else {
        return Ok(other);
    };
    let Members::Listed(others) = other else {
        return Ok(Members::Listed(numbers));
    };
    let both = common(alloc, numbers.as_slice(), others.as_slice())?;
    Ok(Members::Listed(both))
}
