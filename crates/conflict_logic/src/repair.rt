//! The repair of a family that running code tests.

ghost use Rattle.std.specs.Prelude.{◌≡◌, ◌<◌, ℕ, List, [], ◌∷◌, ◌++◌, All, IfOk, OnOk};
ghost use Rattle.std.specs.Bool.{OnTrue, OnFalse};
ghost use Rattle.conflict_logic.specs.Sets.{IsClosedUnderAdding};
ghost use Rattle.conflict_logic.specs.Repair.{IsRepair};

use crate::Family;
use std::alloc::{AllocError, Global};

/// A family has one repair at most: whoever keeps the ranks that are not accused keeps the same
/// ones.
pub fn repair_is_unique<F: Family>(family: &F)
    ensures { (count : ℕ) (kept other : List ℕ) → IsRepair (F.incoherent family.now) count kept
        → IsRepair (F.incoherent family.now) count other → kept ≡ other }
{
    let _ = family;
}

/// An exact test of a family, over a state that grows with the ranks taken in.
pub trait CoherenceTest: Family {
    /// What is known of the ranks taken in, so that a further rank need not go over them again.
    type State: Drop;

    /// The ranks taken in.
    ghost taken: { Self.State → List ℕ };

    /// That this test began the state, and that nothing but its `accept` has changed it since.
    ghost belongs: { Self → Self.State → Type 0 };

    /// The state that has taken in no rank.
    fn begin(&self, alloc: Global) -> Result<Self::State, AllocError>
        ensures state { IfOk result (belongs self.now) }
        ensures none { IfOk result (λ state. taken state ≡ []) };

    /// Takes in the rank and answers true where it is coherent with the ranks taken in before it;
    /// else answers false, and takes in nothing. After an error the state is of no further use.
    fn accept(&self, alloc: Global, state: &mut Self::State, rank: u32) -> Result<bool, AllocError>
        requires state { belongs self.now state.old }
        requires coherent { ¬ (Self.incoherent self.now (taken state.old)) }
        requires later { All (λ before. before < rank) (taken state.old) }
        ensures state { OnOk result (belongs self.now state.new) }
        ensures accepted { IfOk result (λ accepted. OnTrue accepted
            (¬ (Self.incoherent self.now (taken state.old ++ rank ∷ []))
            × (taken state.new ≡ taken state.old ++ rank ∷ []))) }
        ensures refused { IfOk result (λ accepted. OnFalse accepted
            (Self.incoherent self.now (taken state.old ++ rank ∷ [])
            × (taken state.new ≡ taken state.old))) };

    /// More ranks never make an incoherent set coherent.
    ghost closed: { (test : Self) → IsClosedUnderAdding (Self.incoherent test) };

    /// With no rank at all there is nothing to repair.
    ghost none_is_coherent: { (test : Self) → ¬ (Self.incoherent test []) };
}

/// Keeps of the ranks below the count each that is coherent with those kept before it, and so just
/// those that are not accused.
pub fn choose<T: CoherenceTest>(alloc: Global, test: &T, count: u32) -> Result<Vec<u32>, AllocError>
    ensures { IfOk result (λ kept. IsRepair (T.incoherent test.now) count kept.items) }
{
    let mut state = test.begin(alloc)?;
    let mut kept = Vec::new(alloc);
    for rank in 0..count {
        let accepted = test.accept(alloc, &mut state, rank)?;
        if accepted {
            kept.push(rank)?;
        }
    }
    Ok(kept)
}
