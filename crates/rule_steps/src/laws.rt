//! Laws of a worklist over places.

ghost use Rattle.std.specs.Prelude.{◌≡◌, ◌+◌, ◌<◌, ◌≤◌, ◌⊎◌, ℕ, List, Some, Contains, length, slice_get};
ghost use Rattle.fact_table.specs.declared.types.Fact.{Fact};
ghost use Rattle.fact_table.specs.declared.types.Proved.{Proved};
ghost use Rattle.fact_table.specs.Lists.{facts_of};
ghost use Rattle.fact_layers.specs.Tops.{Topped};
ghost use Rattle.concept_store.specs.declared.types.NodeAxiom.{NodeAxiom};
ghost use Rattle.el_rules.specs.Following.{AreClosed};
ghost use Rattle.el_rules.specs.Saying.{MakesReflexive};
ghost use Rattle.case_file.specs.declared.types.CaseInput.{CaseInput};
ghost use Rattle.case_file.specs.Cases.{IsCaseInput, case_of};
ghost use Rattle.rule_steps.specs.Counted.{GroundsView, IsCounted, IsCountedSince, nodes_of};
ghost use Rattle.rule_steps.specs.Growing.{facts_in, AreDerived, HasGrown};
ghost use Rattle.rule_steps.specs.Answering.{AreClosedBelow, IsAnswered, IsAnsweredByInclusions, AreBegunBelow};
ghost use Rattle.rule_steps.specs.RowAxioms.{IsInclusion, HaveRowsInclusions};

/// If what is below a place is closed, and the place is answered, what is below the next is closed.
pub fn an_answered_place_is_closed()
    ensures { (grounds : GroundsView) (p : ℕ) (facts : List Fact)
        → AreClosedBelow (nodes_of grounds) (IsCounted grounds) p facts
        → IsAnswered (nodes_of grounds) (IsCounted grounds) p facts
        → AreClosedBelow (nodes_of grounds) (IsCounted grounds) (p + 1) facts }
{}

/// If all places are closed and all nodes are begun, the facts are closed.
pub fn facts_closed_to_the_end_are_closed()
    ensures { (grounds : GroundsView) (facts : List Fact)
        → AreClosedBelow (nodes_of grounds) (IsCounted grounds) (length facts) facts
        → AreBegunBelow (nodes_of grounds) (IsCounted grounds) (length (nodes_of grounds)) facts
        → AreClosed (nodes_of grounds) (IsCounted grounds) facts }
{}

/// A list that grows twice has grown, and what is closed, begun and answered stays so.
pub fn growing_takes_nothing_away()
    ensures none { (grounds : GroundsView) (layers : Topped) → HasGrown grounds layers layers }
    ensures twice { (grounds : GroundsView) (one two three : Topped)
        → HasGrown grounds one two → HasGrown grounds two three → HasGrown grounds one three }
    ensures closed { (grounds : GroundsView) (old new : Topped) (p : ℕ)
        → HasGrown grounds old new → p ≤ length (facts_in old)
        → AreClosedBelow (nodes_of grounds) (IsCounted grounds) p (facts_in old)
        → AreClosedBelow (nodes_of grounds) (IsCounted grounds) p (facts_in new) }
    ensures begun { (grounds : GroundsView) (old new : Topped) (n : ℕ)
        → HasGrown grounds old new
        → AreBegunBelow (nodes_of grounds) (IsCounted grounds) n (facts_in old)
        → AreBegunBelow (nodes_of grounds) (IsCounted grounds) n (facts_in new) }
    ensures answered { (grounds : GroundsView) (old new : Topped) (p : ℕ)
        → HasGrown grounds old new → p < length (facts_in old)
        → IsAnswered (nodes_of grounds) (IsCounted grounds) p (facts_in old)
        → IsAnswered (nodes_of grounds) (IsCounted grounds) p (facts_in new) }
    ensures by_inclusions { (grounds : GroundsView) (old new : Topped) (first p : ℕ)
        → HasGrown grounds old new → p < length (facts_in old)
        → IsAnsweredByInclusions (nodes_of grounds) (IsCountedSince (Some first) grounds) p
        (facts_in old) → IsAnsweredByInclusions (nodes_of grounds)
        (IsCountedSince (Some first) grounds) p (facts_in new) }
{}

/// Each axiom of a row is an inclusion of nodes, or of one role in another, and no such axiom makes
/// a role reflexive.
pub fn rows_have_inclusions()
    ensures rows { (input : CaseInput) → IsCaseInput input
        → HaveRowsInclusions (case_of input).over }
    ensures reflexive { (said : NodeAxiom) (role : ℕ) → IsInclusion said
        → ¬ (MakesReflexive said role) }
{}

/// A fact at a place is that of the item at this place.
pub fn facts_stand_where_their_items_do()
    ensures { (items : List Proved) (place : ℕ) (fact : Fact)
        → slice_get (facts_of items) place ≡ Some fact
        → (item : Proved) × (slice_get items place ≡ Some item) × (item.fact ≡ fact) }
{}

/// What is closed for some rows is closed for further ones once the inclusions of these are
/// answered at each place. What is begun for some rows is begun for further ones, and what is
/// derived for some ranks is derived for more.
pub fn further_rows_need_only_their_inclusions()
    ensures closed { (grounds : GroundsView) (olds : List ℕ) (first p : ℕ) (facts : List Fact)
        → HaveRowsInclusions grounds.case.over
        → ((rank : ℕ) → Contains grounds.ranks rank → Contains olds rank ⊎ (first ≤ rank))
        → AreClosedBelow (nodes_of grounds) (IsCounted (record grounds { ranks = olds })) p facts
        → ((k : ℕ) → k < p → IsAnsweredByInclusions (nodes_of grounds)
        (IsCountedSince (Some first) grounds) k facts)
        → AreClosedBelow (nodes_of grounds) (IsCounted grounds) p facts }
    ensures begun { (grounds : GroundsView) (olds : List ℕ) (first n : ℕ) (facts : List Fact)
        → HaveRowsInclusions grounds.case.over
        → ((rank : ℕ) → Contains grounds.ranks rank → Contains olds rank ⊎ (first ≤ rank))
        → AreBegunBelow (nodes_of grounds) (IsCounted (record grounds { ranks = olds })) n facts
        → AreBegunBelow (nodes_of grounds) (IsCounted grounds) n facts }
    ensures derived { (grounds : GroundsView) (more : List ℕ) (items : List Proved)
        → ((rank : ℕ) → Contains grounds.ranks rank → Contains more rank)
        → AreDerived grounds items → AreDerived (record grounds { ranks = more }) items }
{}
