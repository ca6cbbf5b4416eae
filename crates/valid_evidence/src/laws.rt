//! Laws on valid evidence: functions that do nothing and whose contracts are the laws.

ghost use Rattle.std.specs.Prelude.{◌≡◌, ◌≢◌, ◌<◌, ◌+◌, ℕ, false, List, length, slice_index, Contains};
ghost use Rattle.std.specs.List.Sorted.{IsStrictlyIncreasing};
ghost use Rattle.text_names.specs.declared.limits.Limits.{Limits};
ghost use Rattle.el_logic.specs.declared.types.Part.{Part};
ghost use Rattle.el_logic.specs.Incoherent.{IsIncoherent, axioms_of_part};
ghost use Rattle.ofn_axiom.specs.declared.types.Mode.{Mode};
ghost use Rattle.case_load.specs.Loads.{Inputs, IsLoaded};
ghost use Rattle.evidence_text.specs.declared.types.Evidence.{Evidence};
ghost use Rattle.evidence_text.specs.declared.types.Removed.{Removed};
ghost use Rattle.valid_evidence.specs.Rows.{IsOnce, is_taken_out, rank_of_row, ranks_left};
ghost use Rattle.valid_evidence.specs.Valid.{IsValidEvidence, IsValidRefusal};
ghost use Rattle.valid_evidence.specs.Items.{case_loaded};
ghost use Rattle.valid_evidence.specs.Shown.{IsRepairedOut};

use accuse_core::kept_ranks_have_the_mark;
use case_file::{excusing_none_is_incoherence, more_rows_stay_incoherent};
use case_load::Loaded;
use conflict_logic::Family;
use conflict_logic::certificate::certified_ranks_are_a_repair;
use derivation::good_derivations_show_incoherence;
use rank_order::ranking_has_each_row_once;

// The rows of a table by their ranks, and which of them leave a class empty together.
#[derive(Drop)]
struct LoadedRanks<'a> {
    loaded: &'a Loaded,
}

impl Family for LoadedRanks<'_> {
    ghost use Rattle.valid_evidence.specs.Items.{case_loaded};
    ghost use Rattle.valid_evidence.specs.Shown.{AreIncoherentWith};

    ghost incoherent = { λ ranks. AreIncoherentWith (case_loaded ranks.loaded.now) };
}

/// The rank of a row is its place in the order, and a number that is no row's has none. The ranks
/// that are left are those of the rows that are left, and they ascend.
pub fn rows_have_their_ranks()
    ensures place { (order : List ℕ) (rank : ℕ) → IsOnce order → rank < length order
        → rank_of_row order (slice_index order rank + 1) ≡ rank }
    ensures none { (order : List ℕ) (row : ℕ)
        → ((k : ℕ) → k < length order → slice_index order k + 1 ≢ row)
        → rank_of_row order row ≡ length order }
    ensures left { (removed : List Removed) (order : List ℕ) (rank : ℕ) → rank < length order
        → is_taken_out removed (slice_index order rank) ≡ false
        → Contains (ranks_left removed order) rank }
    ensures gone { (removed : List Removed) (order : List ℕ) (rank : ℕ)
        → Contains (ranks_left removed order) rank
        → is_taken_out removed (slice_index order rank) ≡ false }
    ensures within { (removed : List Removed) (order : List ℕ) (rank : ℕ)
        → Contains (ranks_left removed order) rank → rank < length order }
    ensures ascending { (removed : List Removed) (order : List ℕ)
        → IsStrictlyIncreasing (ranks_left removed order) }
{
    kept_ranks_have_the_mark();
}

/// Valid evidence for the text of OUT shows that it is the table without exactly the rows that are
/// accused. Neither the journal nor the order of the rows is used.
pub fn valid_evidence_shows_the_repair(loaded: &Loaded)
    ensures { (texts : Inputs) (mode : Mode) (limits : Limits) (out : List ℕ) (e : Evidence)
        → IsLoaded texts mode limits loaded.now → IsValidEvidence loaded.now out e
        → IsRepairedOut loaded.now out }
{
    let _case = loaded.case.store();
    let ranks = LoadedRanks { loaded };
    certified_ranks_are_a_repair(&ranks);
    good_derivations_show_incoherence();
    excusing_none_is_incoherence();
    more_rows_stay_incoherent();
    kept_ranks_have_the_mark();
    ranking_has_each_row_once();
}

/// Valid evidence of a refusal shows that the axioms of the part leave a class empty that must have
/// a member.
pub fn valid_refusals_show_incoherence(loaded: &Loaded)
    ensures { let case = case_loaded loaded.now in (texts : Inputs) (mode : Mode)
        (limits : Limits) (part : Part) (e : Evidence) → IsLoaded texts mode limits loaded.now
        → IsValidRefusal loaded.now part e
        → IsIncoherent case.classes case.properties (axioms_of_part case.left case.right part) }
{
    let _case = loaded.case.store();
    good_derivations_show_incoherence();
    excusing_none_is_incoherence();
}
