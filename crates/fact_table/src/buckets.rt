//! The numbers by which facts and their groups are chained.

ghost use Rattle.std.specs.Prelude.{◌≡◌, ◌≤◌};
ghost use Rattle.fact_table.specs.Groups.{group_at};
ghost use Rattle.fact_table.specs.Inside.Buckets.{bucket_of, head_of};

use crate::types::{Fact, FactGroup, FactSide};

// Odd numbers with bits spread evenly (the golden ratio, and constants of SplitMix64 and xxHash).
const SPREAD: u64 = 0x9E37_79B9_7F4A_7C15;

const SPREAD_ROLE: u64 = 0xB492_B66F_BE98_F273;

const SPREAD_REST: u64 = 0xC2B2_AE3D_27D4_EB4F;

/// The bucket of a fact. Facts with the same first node have buckets within 256 of each other, so
/// that they stay close together in memory.
#[inline(always)]
#[tactic(auto, unfolding(crate::specs::Inside::Buckets::bucket_of), using(std::proofs::lemmas::Nat::and_le_r))]
pub fn bucket(fact: Fact, mask: u64) -> usize
    ensures value { result ≡ bucket_of mask fact }
    ensures within { result ≤ mask }
{
    let (first, rest) = match fact {
        Fact::Sub(a, b) => (a as u64, b as u64),
        Fact::Link(a, r, b) => (
            a as u64,
            (b as u64).wrapping_add((r as u64).wrapping_mul(SPREAD_ROLE)),
        ),
    };
    let stretch = first.wrapping_mul(SPREAD) >> 32;
    let offset = rest.wrapping_mul(SPREAD_REST) >> 56;
    (stretch.wrapping_add(offset) & mask) as usize
}

/// The group of a fact at one side.
#[inline(always)]
pub fn group_at(side: FactSide, fact: Fact) -> FactGroup
    ensures { result ≡ group_at side fact }
{
    match side {
        FactSide::From => match fact {
            Fact::Sub(a, _) => FactGroup::Subs(a),
            Fact::Link(a, r, _) => FactGroup::Links(a, r),
        },
        FactSide::Into => match fact {
            Fact::Sub(_, b) => FactGroup::Subs(b),
            Fact::Link(_, r, b) => FactGroup::Links(b, r),
        },
    }
}

/// The head of a group. With at least twice as many heads as nodes, the subsumptions of each node
/// have a head of their own.
#[inline(always)]
#[tactic(auto, unfolding(crate::specs::Inside::Buckets::head_of), using(std::proofs::lemmas::Nat::and_le_r))]
pub fn head(group: FactGroup, mask: u64) -> usize
    ensures value { result ≡ head_of mask group }
    ensures within { result ≤ mask }
{
    let number = match group {
        FactGroup::Subs(node) => (node as u64).wrapping_mul(2),
        FactGroup::Links(node, role) => (node as u64)
            .wrapping_mul(2)
            .wrapping_add(1)
            .wrapping_add((role as u64).wrapping_mul(SPREAD) >> 40),
    };
    (number & mask) as usize
}
