//! What facts show of a case.

ghost use Rattle.std.specs.Prelude.{◌≡◌, ◌<◌, ◌++◌, ℕ, List, Some, All, Contains, length, slice_get};
ghost use Rattle.el_logic.specs.declared.types.Part.{Part};
ghost use Rattle.fact_table.specs.declared.types.Fact.{Fact};
ghost use Rattle.fact_table.specs.declared.types.Fact.TheVariants.{Sub, Link};
ghost use Rattle.fact_table.specs.declared.types.Proved.{Proved};
ghost use Rattle.fact_table.specs.Lists.{facts_of};
ghost use Rattle.el_rules.specs.Following.{EachFollowsByReason};
ghost use Rattle.case_file.specs.Cases.{CaseView, IsCase, IsMustHave, theory_of};
ghost use Rattle.case_file.specs.Incoherence.{IsEmptyFor};
ghost use Rattle.closed_model.specs.ClosedTables.{TableView, IsClosedTable};
ghost use Rattle.rule_steps.specs.Counted.{GroundsView, IsCounted, nodes_of};
ghost use Rattle.rule_steps.specs.Growing.{AreDerived, AreLinksWithin};
ghost use Rattle.rule_steps.specs.Answering.{AreClosedBelow, AreBegunBelow};
ghost use Rattle.saturate.specs.Inside.Rows.{AreAnsweredByRows};
ghost use Rattle.saturate.specs.Inside.Saturated.{grounds_of, AddsRanks};

use case_file::models_have_readings;
use concept_store::{nodes_stand_in_order, stores_have_a_role_for_each_part};
use el_rules::what_follows_is_true;
use rule_steps::{
    facts_stand_where_their_items_do, further_rows_need_only_their_inclusions, rows_have_inclusions,
};

/// Facts that follow show that a node is empty which they put within `owl:Nothing`.
pub fn facts_show_emptiness()
    ensures { (case : CaseView) (part : Part) (ranks : List ℕ) (items : List Proved) (node : ℕ)
        → IsCase case → All (λ rank. rank < length case.order) ranks
        → EachFollowsByReason case.store.nodes (theory_of case) part ranks items
        → IsMustHave case node → Contains (facts_of items) (Sub node 1)
        → IsEmptyFor case part ranks node }
{
    what_follows_is_true();
    models_have_readings();
    nodes_stand_in_order();
    facts_stand_where_their_items_do();
}

/// Each link that follows is by a role of the case.
pub fn links_are_by_roles()
    ensures { (case : CaseView) (part : Part) (ranks : List ℕ) (items : List Proved)
        → IsCase case → EachFollowsByReason case.store.nodes (theory_of case) part ranks items
        → AreLinksWithin (length case.store.roles) (facts_of items) }
{
    nodes_stand_in_order();
    stores_have_a_role_for_each_part();
    facts_stand_where_their_items_do();
}

/// Each link that follows leads from a node of the case.
pub fn links_lead_from_nodes()
    ensures { (grounds : GroundsView) (items : List Proved) (k a r b : ℕ)
        → AreDerived grounds items → slice_get (facts_of items) k ≡ Some (Link a r b)
        → a < length (nodes_of grounds) }
{
    facts_stand_where_their_items_do();
}

/// The facts of a closed table need only be answered by the rows that are added.
pub fn closed_tables_are_closed_for_more_rows()
    ensures closed { (table : TableView) (first : ℕ) (late ranks : List ℕ) (more : List Fact)
        → IsCase table.case → IsClosedTable table → AddsRanks table.ranks first late ranks
        → let grounds = grounds_of table.case ranks in
        let facts = facts_of table.items in
        AreAnsweredByRows grounds first (length facts) (facts ++ more)
        → AreClosedBelow table.case.store.nodes (IsCounted grounds) (length facts)
        (facts ++ more) }
    ensures begun { (table : TableView) (first : ℕ) (late ranks : List ℕ) (more : List Fact)
        → IsCase table.case → IsClosedTable table → AddsRanks table.ranks first late ranks
        → let grounds = grounds_of table.case ranks in
        let nodes = table.case.store.nodes in
        AreBegunBelow nodes (IsCounted grounds) (length nodes) (facts_of table.items ++ more) }
{
    rows_have_inclusions();
    further_rows_need_only_their_inclusions();
}
