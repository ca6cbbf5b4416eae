//! Laws of derivations: what they say is true, and what they show.

ghost use Rattle.std.specs.Prelude.{◌≡◌, ◌<◌, ℕ, List, Some, Result, All, Contains, length, slice_get};
ghost use Rattle.el_logic.specs.declared.types.Part.{Part};
ghost use Rattle.concept_store.specs.Reading.{Reading};
ghost use Rattle.fact_table.specs.declared.types.Proved.{Proved};
ghost use Rattle.el_rules.specs.Following.{EachFollowsByReason};
ghost use Rattle.el_rules.specs.Theories.{IsStated};
ghost use Rattle.el_rules.specs.Truth.{IsTrueIn, IsModelOf};
ghost use Rattle.case_file.specs.Cases.{CaseView, IsCase, theory_of};
ghost use Rattle.case_file.specs.Incoherence.{IsIncoherentFor};
ghost use Rattle.derivation.specs.declared.types.BadStep.{BadStep};
ghost use Rattle.derivation.specs.declared.types.Step.{Step};
ghost use Rattle.derivation.specs.Steps.{AreGoodSteps, EndsIn, IsAnswer, IsGoodDerivation};
ghost use Rattle.derivation.specs.Traces.{EachNamesEarlier, IsTraceOf};

use case_file::models_have_readings;
use concept_store::nodes_stand_in_order;
use el_rules::what_follows_is_true;

/// Each step of good ones is true in every reading in which the axioms of the part and of the rows
/// with the ranks hold.
pub fn good_steps_are_true()
    ensures { (case : CaseView) (part : Part) (ranks : List ℕ) (m : Reading) (steps : List Step)
        (step : Step) → IsModelOf case.store.nodes (IsStated (theory_of case) part ranks) m
        → AreGoodSteps case part ranks steps → Contains steps step → IsTrueIn m step.fact }
{
    what_follows_is_true();
}

/// So a good derivation shows that these axioms leave a class empty that must have a member.
pub fn good_derivations_show_incoherence()
    ensures { (case : CaseView) (part : Part) (ranks : List ℕ) (steps : List Step)
        → IsCase case → All (λ rank. rank < length case.order) ranks
        → IsGoodDerivation case part ranks steps → IsIncoherentFor case part ranks }
{
    good_steps_are_true();
    models_have_readings();
    nodes_stand_in_order();
}

/// What is good for some ranks is good for more.
pub fn good_derivations_stay_good_for_more_ranks()
    ensures steps { (case : CaseView) (part : Part) (ranks more : List ℕ) (steps : List Step)
        → ((rank : ℕ) → Contains ranks rank → Contains more rank)
        → AreGoodSteps case part ranks steps → AreGoodSteps case part more steps }
    ensures derivation { (case : CaseView) (part : Part) (ranks more : List ℕ) (steps : List Step)
        → ((rank : ℕ) → Contains ranks rank → Contains more rank)
        → IsGoodDerivation case part ranks steps → IsGoodDerivation case part more steps }
{}

/// A list of steps has one answer at most, so the clause of `check_derivation` pins it.
pub fn derivations_have_one_answer()
    ensures { (case : CaseView) (part : Part) (ranks : List ℕ) (steps : List Step)
        (one other : Result Unit BadStep) → IsAnswer case part ranks steps one
        → IsAnswer case part ranks steps other → one ≡ other }
{}

/// Facts that follow by their reasons have reasons that name earlier places.
pub fn reasons_name_earlier_places()
    ensures { (case : CaseView) (part : Part) (ranks : List ℕ) (items : List Proved)
        → EachFollowsByReason case.store.nodes (theory_of case) part ranks items
        → EachNamesEarlier items }
{}

/// The trace of such facts has good steps, and ends in the goal's fact.
pub fn traces_are_good()
    ensures good { (case : CaseView) (part : Part) (ranks : List ℕ) (items : List Proved)
        (goal : ℕ) (steps : List Step)
        → EachFollowsByReason case.store.nodes (theory_of case) part ranks items
        → IsTraceOf items goal steps → AreGoodSteps case part ranks steps }
    ensures goal { (items : List Proved) (goal : ℕ) (steps : List Step) (item : Proved)
        → IsTraceOf items goal steps → slice_get items goal ≡ Some item
        → EndsIn steps item.fact }
{}
