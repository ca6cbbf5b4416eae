//! Accepting ranks one after another.

ghost use Rattle.std.specs.Prelude.{ℕ, Bool, List, []};
ghost use Rattle.conflict_logic.specs.Sets.{IsClosedUnderAdding};
ghost use Rattle.conflict_logic.specs.Greedy.{family_of, kept_below, IsExactRepair};

/// Keeping each rank that is coherent with those kept before it keeps exactly the ranks that are
/// not accused, and removes exactly those that are (Meilicke 2011). It holds of every family that a
/// test gives, where more ranks never make an incoherent set coherent and no ranks at all are
/// coherent.
pub fn accepting_down_the_ranks_is_exact()
    ensures { (test : List ℕ → Bool) (count : ℕ) → IsClosedUnderAdding (family_of test)
        → ¬ (family_of test [])
        → IsExactRepair (family_of test) count (kept_below test count) }
{}
