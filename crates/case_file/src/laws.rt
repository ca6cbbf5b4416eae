//! Laws of cases: what layers above know of a case from its type.

ghost use Rattle.std.specs.Prelude.{◌≡◌, ◌<◌, ◌↔◌, ℕ, List, [], All, Contains, length, slice_index_or, map};
ghost use Rattle.el_logic.specs.declared.types.Interp.{Interp};
ghost use Rattle.el_logic.specs.declared.types.Part.{Part};
ghost use Rattle.el_logic.specs.Meaning.{IsInterp, Holds};
ghost use Rattle.el_logic.specs.Incoherent.{IsIncoherent};
ghost use Rattle.concept_store.specs.declared.types.NodeAxiom.{NodeAxiom};
ghost use Rattle.concept_store.specs.Reading.{Reading, IsReadingOf, MeansTheSameIn};
ghost use Rattle.el_rules.specs.Closing.{AreNodes, HasRole};
ghost use Rattle.el_rules.specs.Theories.{IsStated};
ghost use Rattle.el_rules.specs.Truth.{IsModelOf};
ghost use Rattle.case_file.specs.Cases.{CaseView, IsCase, IsMustHave, row_at, theory_of};
ghost use Rattle.case_file.specs.Incoherence.{axioms_for, IsIncoherentFor};

use concept_store::{
    every_interpretation_has_a_reading, nodes_stand_in_order, stores_mean_the_same,
};

/// The nodes of a case are as the rules need them, a must-have node is one of them, and each chain
/// of its axioms has a property.
pub fn cases_have_nodes()
    ensures nodes { (case : CaseView) → IsCase case → AreNodes case.store.nodes }
    ensures must_have { (case : CaseView) (node : ℕ) → IsCase case → IsMustHave case node
        → node < length case.store.nodes }
    ensures chains { (case : CaseView) (part : Part) (ranks : List ℕ) (said : NodeAxiom)
        → IsCase case → IsStated (theory_of case) part ranks said → HasRole said }
{
    nodes_stand_in_order();
}

/// The axioms of each row mean the same over nodes.
pub fn rows_mean_the_same()
    ensures { (case : CaseView) (rank : ℕ) → IsCase case → rank < length case.order
        → MeansTheSameIn case.classes case.properties case.store.nodes
        (slice_index_or (map (row_at case.rows) case.order) rank [])
        (slice_index_or case.over rank []) }
{}

/// Each interpretation in which the axioms of the part and of the rows hold has a reading in which
/// the axioms over nodes hold, with each part of a chain as the composition that it stands for.
pub fn models_have_readings()
    ensures { (case : CaseView) (part : Part) (ranks : List ℕ) (i : Interp) → IsCase case
        → All (λ rank. rank < length case.order) ranks
        → IsInterp case.classes case.properties i → All (Holds i) (axioms_for case part ranks)
        → (m : Reading) × IsReadingOf case.store.nodes case.properties i m
        × IsModelOf case.store.nodes (IsStated (theory_of case) part ranks) m }
{
    every_interpretation_has_a_reading();
    stores_mean_the_same();
    nodes_stand_in_order();
}

/// A case that excuses no class is incoherent exactly where its axioms are.
pub fn excusing_none_is_incoherence()
    ensures { (case : CaseView) (part : Part) (ranks : List ℕ) → case.excused ≡ []
        → IsIncoherentFor case part ranks
        ↔ IsIncoherent case.classes case.properties (axioms_for case part ranks) }
{}

/// More rows never make a case coherent, in whatever order they come.
pub fn more_rows_stay_incoherent()
    ensures { (case : CaseView) (part : Part) (ranks more : List ℕ)
        → ((rank : ℕ) → Contains ranks rank → Contains more rank)
        → IsIncoherentFor case part ranks → IsIncoherentFor case part more }
{}
