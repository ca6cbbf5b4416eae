//! Conflicts, accused ranks and repairs, for any family of incoherent sets of ranks.
#![tactic(auto)]

pub mod certificate;
pub mod greedy;
pub mod repair;
#[cfg(test)]
mod tests;
pub mod worked;

ghost use Rattle.std.specs.Prelude.{◌↔◌, ℕ, List};
ghost use Rattle.conflict_logic.specs.Accused.{IsAccused, IsSpared, IsLastOfConflict};

/// Which sets of ranks are incoherent.
pub trait Family {
    ghost incoherent: { Self → List ℕ → Type 0 };
}

/// A rank is accused exactly where some conflict holds it, each other rank of which stands before
/// it and is not accused: the recursion down the ranks says what the definition says (Meilicke
/// 2011, local optimal diagnosis).
pub fn accused_is_last_of_a_conflict<F: Family>(family: &F)
    ensures { let incoherent = F.incoherent family.now in (rank : ℕ)
        → IsAccused incoherent rank ↔ IsLastOfConflict incoherent (IsSpared incoherent) rank }
{
    let _ = family;
}
