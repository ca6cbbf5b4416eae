//! What shows that ranks are kept or removed rightly, without a search.

ghost use Rattle.std.specs.Prelude.{◌<◌, ℕ, Bool, List, [], ◌∷◌, ◌++◌, Contains};
ghost use Rattle.conflict_logic.specs.Sets.{IsClosedUnderAdding};
ghost use Rattle.conflict_logic.specs.Accused.{IsAccused, IsSpared};
ghost use Rattle.conflict_logic.specs.Repair.{IsRepair};
ghost use Rattle.conflict_logic.specs.Greedy.{family_of, IsExactRepair};
ghost use Rattle.conflict_logic.specs.Certificate.{IsRefuted, IsCertified};

use crate::Family;

/// Coherent ranks are the repair if kept ranks before it refute each rank that is not kept.
pub fn certified_ranks_are_a_repair<F: Family>(family: &F)
    ensures { (count : ℕ) (kept : List ℕ) → IsClosedUnderAdding (F.incoherent family.now)
        → IsCertified (F.incoherent family.now) count kept
        → IsRepair (F.incoherent family.now) count kept }
{
    let _ = family;
}

/// If a test tells which sets are incoherent, each rank that is not kept is then known to be
/// accused.
pub fn certified_ranks_are_an_exact_repair()
    ensures { (test : List ℕ → Bool) (count : ℕ) (kept : List ℕ)
        → IsClosedUnderAdding (family_of test)
        → IsCertified (family_of test) count kept → IsExactRepair (family_of test) count kept }
{}

/// A rank that spared ranks before it refute is not spared itself.
pub fn refuted_by_spared_is_not_spared<F: Family>(family: &F)
    ensures { (rank : ℕ) → IsClosedUnderAdding (F.incoherent family.now)
        → ¬ (F.incoherent family.now [])
        → IsRefuted (F.incoherent family.now) (IsSpared (F.incoherent family.now)) rank
        → ¬ (IsSpared (F.incoherent family.now) rank) }
{
    let _ = family;
}

/// If a test tells which sets are incoherent, such a rank is accused.
pub fn refuted_by_spared_is_accused()
    ensures { (test : List ℕ → Bool) (rank : ℕ) → IsClosedUnderAdding (family_of test)
        → ¬ (family_of test []) → IsRefuted (family_of test) (IsSpared (family_of test)) rank
        → IsAccused (family_of test) rank }
{}

/// A rank is spared if ranks that include all spared ones before it are coherent together with it.
pub fn coherent_with_all_spared_is_spared<F: Family>(family: &F)
    ensures { (rank : ℕ) (ranks : List ℕ) → IsClosedUnderAdding (F.incoherent family.now)
        → ((other : ℕ) → other < rank → IsSpared (F.incoherent family.now) other
        → Contains ranks other)
        → ¬ (F.incoherent family.now (ranks ++ rank ∷ []))
        → IsSpared (F.incoherent family.now) rank }
{
    let _ = family;
}
