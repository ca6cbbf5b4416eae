//! Choosing on a small case.

ghost use Rattle.std.specs.Prelude.{IsTrue, ◌↔◌};
ghost use Rattle.std.proofs.Common.{arith, ⊎_elim, inl, inr};
ghost use Rattle.conflict_logic.specs.Worked.{IsChained};

use crate::Family;
use crate::repair::{CoherenceTest, choose};
use std::alloc::{AllocError, Global};
use std::test::Fail;

/// 0 clashes with 1, and 1 with 2.
struct Chain;

fn is_chained(ranks: &[u32]) -> bool
    ensures { IsTrue result ↔ IsChained ranks.now }
{
    ranks.contains(&1) && (ranks.contains(&0) || ranks.contains(&2))
}

impl Family for Chain {
    ghost incoherent = { λ chain. IsChained };
}

impl CoherenceTest for Chain {
    type State = Vec<u32>;

    ghost taken = { λ state. state.items };

    ghost belongs = { λ chain state. Unit {0} };

    fn begin(&self, alloc: Global) -> Result<Vec<u32>, AllocError> {
        Ok(Vec::new(alloc))
    }

    fn accept(&self, _alloc: Global, state: &mut Vec<u32>, rank: u32) -> Result<bool, AllocError> {
        let before = state.len();
        state.push(rank)?;
        if is_chained(state.as_slice()) {
            state.truncate(before);
            return Ok(false);
        }
        Ok(true)
    }

    ghost closed = { λ chain part whole within. ⊎_elim
        (λ both. inl (within 0 both.0, within 1 both.1)) (λ both. inr (within 1 both.0, within 2 both.1)) };

    ghost none_is_coherent = { λ chain. ⊎_elim
        (λ both. absurd (Prim.omega (arith, both.0.1))) (λ both. absurd (Prim.omega (arith, both.0.1))) };
}

#[test]
fn chooses_the_ends_of_a_chain(rt: HostRuntime) -> Result<(), Fail> {
    for (count, kept) in [
        (0, [].as_slice()),
        (2, [0].as_slice()),
        (4, [0, 2, 3].as_slice()),
    ] {
        assert_eq!(rt; choose(rt.alloc(), &Chain, count)?.as_slice(), kept);
    }
    Ok(())
}
