//! Worked cases of the definitions.

ghost use Rattle.std.specs.Prelude.{◌≡◌, ◌↔◌, ◌⊎◌, ℕ, [], ◌∷◌};
ghost use Rattle.conflict_logic.specs.Accused.{IsAccused};
ghost use Rattle.conflict_logic.specs.Repair.{IsRepair};
ghost use Rattle.conflict_logic.specs.Worked.{IsChained, IsRepeated};

/// Where rank 1 clashes with 0 and with 2, rank 1 alone is accused: once it is removed, nothing
/// accuses rank 2.
pub fn chain_accuses_its_middle()
    ensures { (rank : ℕ) → IsAccused IsChained rank ↔ (rank ≡ 1) }
{}

/// The ranks 0 and 2 are what is left of such a chain.
pub fn chain_keeps_its_ends()
    ensures { IsRepair IsChained 3 (0 ∷ 2 ∷ []) }
{}

/// Where rank 0 clashes with 1 and with 2, both of these are accused.
pub fn repeat_accuses_both_later()
    ensures { (rank : ℕ) → IsAccused IsRepeated rank ↔ ((rank ≡ 1) ⊎ (rank ≡ 2)) }
{}
