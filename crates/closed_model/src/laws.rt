//! Laws of closed tables and models.

ghost use Rattle.std.specs.Prelude.{◌≡◌, ◌<◌, ℕ, List, Some, All, Contains, length, slice_get};
ghost use Rattle.el_logic.specs.declared.types.Interp.{Interp};
ghost use Rattle.el_logic.specs.declared.types.Part.{Part};
ghost use Rattle.concept_store.specs.Reading.{IsReading, IsIn};
ghost use Rattle.fact_table.specs.declared.types.Fact.TheVariants.{Sub};
ghost use Rattle.fact_table.specs.declared.types.Proved.{Proved};
ghost use Rattle.fact_table.specs.Lists.{facts_of};
ghost use Rattle.el_rules.specs.Closing.{live_nodes};
ghost use Rattle.el_rules.specs.Following.{AreClosed};
ghost use Rattle.el_rules.specs.Theories.{IsStated};
ghost use Rattle.case_file.specs.Cases.{CaseView, IsCase, IsMustHave, theory_of};
ghost use Rattle.case_file.specs.Incoherence.{IsEmptyFor, IsIncoherentFor};
ghost use Rattle.closed_model.specs.ClosedTables.{TableView, IsClosedTable};
ghost use Rattle.closed_model.specs.Models.{IsModelFor, IsSaidBy, reading_of};

use case_file::{cases_have_nodes, rows_mean_the_same};
use concept_store::{nodes_stand_in_order, stores_mean_the_same};
use el_rules::closed_facts_have_a_model;

/// A model shows that no part of the documents is incoherent together with any of the rows.
pub fn a_model_shows_coherence()
    ensures { (case : CaseView) (ranks some : List ℕ) (part : Part) (i : Interp)
        → IsModelFor case ranks i → All (Contains ranks) some
        → ¬ (IsIncoherentFor case part some) }
{}

/// What the facts of a closed table say is a reading of the case's nodes, in which each class that
/// must have a member has its own node as one.
pub fn closed_tables_say_readings()
    ensures reading { (table : TableView) → IsCase table.case → IsClosedTable table
        → IsReading table.case.store.nodes (reading_of table) }
    ensures members { (table : TableView) (node : ℕ) → IsCase table.case → IsClosedTable table
        → IsMustHave table.case node
        → (x : ℕ) × (slice_get (live_nodes table.case.store.nodes (facts_of table.items)) x ≡ Some node)
        × IsIn (reading_of table) node x }
{
    cases_have_nodes();
    closed_facts_have_a_model();
}

/// The interpretation that a closed table says is a model.
pub fn what_a_closed_table_says_is_a_model()
    ensures { (table : TableView) (i : Interp) → IsCase table.case → IsClosedTable table
        → IsSaidBy table i → IsModelFor table.case table.ranks i }
{
    nodes_stand_in_order();
    stores_mean_the_same();
    cases_have_nodes();
    rows_mean_the_same();
    closed_facts_have_a_model();
    closed_tables_say_readings();
}

/// A closed table shows that no part of the documents is incoherent together with any of its rows.
pub fn a_closed_table_shows_coherence()
    ensures { (table : TableView) (part : Part) (some : List ℕ) → IsCase table.case
        → IsClosedTable table → All (Contains table.ranks) some
        → ¬ (IsIncoherentFor table.case part some) }
{
    closed_tables_say_readings();
    what_a_closed_table_says_is_a_model();
    a_model_shows_coherence();
}

/// Facts that are closed for a part of the documents and for some rows show that a node may have a
/// member which must have one, if they put neither this node nor `owl:Thing` within `owl:Nothing`.
pub fn closed_facts_show_members()
    ensures { (case : CaseView) (part : Part) (ranks : List ℕ) (items : List Proved) (node : ℕ)
        → IsCase case → All (λ rank. rank < length case.order) ranks
        → AreClosed case.store.nodes (IsStated (theory_of case) part ranks) (facts_of items)
        → ¬ (Contains (facts_of items) (Sub 0 1)) → ¬ (Contains (facts_of items) (Sub node 1))
        → IsMustHave case node → ¬ (IsEmptyFor case part ranks node) }
{
    nodes_stand_in_order();
    stores_mean_the_same();
    cases_have_nodes();
    rows_mean_the_same();
    closed_facts_have_a_model();
}
