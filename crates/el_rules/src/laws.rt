//! Laws of the rules: what each gives on small cases, and that what they give is true.
ghost use Rattle.std.specs.Prelude.{◌≡◌, ◌<◌, ◌↔◌, ℕ, IsTrue, List, [], ◌∷◌, Some, length, slice_get, All, Contains};
ghost use Rattle.el_logic.specs.declared.types.Part.{Part};
ghost use Rattle.concept_store.specs.declared.types.Node.{Node};
ghost use Rattle.concept_store.specs.declared.types.NodeAxiom.{NodeAxiom};
ghost use Rattle.concept_store.specs.declared.types.NodeAxiom.TheVariants.{SubClass, Equivalent, Disjoint, SubRole, EquivalentRoles, Transitive, Reflexive, Domain};
ghost use Rattle.concept_store.specs.Reading.{Reading, IsReading, IsIn, HoldsIn};
ghost use Rattle.fact_table.specs.declared.types.Fact.{Fact};
ghost use Rattle.fact_table.specs.declared.types.Fact.TheVariants.{Sub, Link};
ghost use Rattle.fact_table.specs.declared.types.Rule.{Rule};
ghost use Rattle.fact_table.specs.declared.types.Proved.{Proved};
ghost use Rattle.el_rules.specs.Rules.{Gives};
ghost use Rattle.el_rules.specs.Theories.{Theory, IsStated};
ghost use Rattle.el_rules.specs.Following.{AreClosed, EachFollowsByReason};
ghost use Rattle.el_rules.specs.Truth.{IsTrueIn, IsModelOf};
ghost use Rattle.el_rules.specs.Closing.{AreNodes, HasRole, has_fact, said_by, live_nodes};
ghost use Rattle.el_rules.specs.Worked.{GivesBy, GivesFrom};

/// Each rule is sound: what it gives from true facts is true in every reading in which the axioms
/// hold.
pub fn rules_keep_facts_true()
    ensures { (nodes : List Node) (axioms : List NodeAxiom) (m : Reading) (ones twos : List Fact)
        (rule : Rule) (fact : Fact) → IsModelOf nodes (Contains axioms) m
        → All (IsTrueIn m) ones → All (IsTrueIn m) twos
        → Gives nodes (Contains axioms) (Contains ones) (Contains twos) rule fact
        → IsTrueIn m fact }
{}

/// So facts that follow by their reasons are true in every reading in which the axioms of the part
/// and of the ranks hold.
pub fn what_follows_is_true()
    ensures { (nodes : List Node) (theory : Theory) (part : Part) (ranks : List ℕ) (m : Reading)
        (items : List Proved) (item : Proved) → IsModelOf nodes (IsStated theory part ranks) m
        → EachFollowsByReason nodes theory part ranks items → Contains items item
        → IsTrueIn m item.fact }
{}

/// What a rule gives it still gives from more facts and by more axioms.
pub fn more_facts_give_more()
    ensures { (nodes : List Node) (axioms more : List NodeAxiom) (ones twos facts : List Fact)
        (rule : Rule) (fact : Fact)
        → ((said : NodeAxiom) → Contains axioms said → Contains more said)
        → ((one : Fact) → Contains ones one → Contains facts one)
        → ((two : Fact) → Contains twos two → Contains facts two)
        → Gives nodes (Contains axioms) (Contains ones) (Contains twos) rule fact
        → Gives nodes (Contains more) (Contains facts) (Contains facts) rule fact }
{}

/// Facts that are closed for some axioms are closed for fewer.
pub fn closed_facts_stay_closed_for_fewer_axioms()
    ensures { (nodes : List Node) (axioms more : List NodeAxiom) (facts : List Fact)
        → ((said : NodeAxiom) → Contains axioms said → Contains more said)
        → AreClosed nodes (Contains more) facts → AreClosed nodes (Contains axioms) facts }
{}

/// The test that finds a fact in a list finds it exactly if the fact is one of the list.
pub fn facts_are_found_where_they_are()
    ensures { (facts : List Fact) (fact : Fact)
        → IsTrue (has_fact facts fact) ↔ Contains facts fact }
{}

/// Facts that are closed for some axioms have a model: in the reading that they say, whose elements
/// are the nodes that they do not put within `owl:Nothing`, the axioms hold, and each such node has
/// a member, which is itself.
pub fn closed_facts_have_a_model()
    ensures reading { (nodes : List Node) (axioms : List NodeAxiom) (facts : List Fact)
        → AreNodes nodes → AreClosed nodes (Contains axioms) facts
        → IsReading nodes (said_by nodes facts) }
    ensures holds { (nodes : List Node) (axioms : List NodeAxiom) (facts : List Fact)
        → AreNodes nodes → All HasRole axioms → AreClosed nodes (Contains axioms) facts
        → All (HoldsIn (said_by nodes facts)) axioms }
    ensures members { (nodes : List Node) (axioms : List NodeAxiom) (facts : List Fact) (node : ℕ)
        → AreClosed nodes (Contains axioms) facts → node < length nodes
        → ¬ (Contains facts (Sub node 1))
        → (x : ℕ) × (slice_get (live_nodes nodes facts) x ≡ Some node)
        × IsIn (said_by nodes facts) node x }
{}

/// The rules of no premise and those that open or close nodes each give their fact on a small case.
pub fn rules_without_axioms_give_their_facts()
    ensures itself { GivesFrom (Sub 2 2) (Sub 2 2) Rule.Itself (Sub 5 5) }
    ensures top { GivesFrom (Sub 2 2) (Sub 2 2) Rule.Top (Sub 5 0) }
    ensures left { GivesFrom (Sub 5 4) (Sub 2 2) Rule.Left (Sub 5 2) }
    ensures right { GivesFrom (Sub 5 4) (Sub 2 2) Rule.Right (Sub 5 3) }
    ensures both { GivesFrom (Sub 5 2) (Sub 5 3) Rule.Both (Sub 5 4) }
    ensures out { GivesFrom (Sub 3 5) (Sub 2 2) Rule.Out (Link 3 0 2) }
    ensures into { GivesFrom (Link 3 0 4) (Sub 4 2) Rule.Into (Sub 3 5) }
    ensures void { GivesFrom (Link 3 0 4) (Sub 4 1) Rule.Void (Sub 3 1) }
{}

/// The rules on axioms between classes each give their fact on a small case.
pub fn rules_on_classes_give_their_facts()
    ensures incl { GivesBy (SubClass 2 3) (Sub 5 2) (Sub 2 2) Rule.Incl (Sub 5 3) }
    ensures incl_equal { GivesBy (Equivalent (3 ∷ 2 ∷ [])) (Sub 5 2) (Sub 2 2) Rule.Incl (Sub 5 3) }
    ensures disj { GivesBy (Disjoint (3 ∷ 2 ∷ [])) (Sub 5 2) (Sub 5 3) Rule.Disj (Sub 5 1) }
    ensures dom { GivesBy (Domain 0 2) (Link 5 0 3) (Sub 2 2) Rule.Dom (Sub 5 2) }
{}

/// The rules on axioms between properties each give their fact on a small case. The chain of roles
/// 0, 1 and 2 has the part of length 2 as role 4.
pub fn rules_on_properties_give_their_facts()
    ensures role { GivesBy (SubRole (0 ∷ []) 1 4) (Link 5 0 3) (Sub 2 2) Rule.Role (Link 5 1 3) }
    ensures role_equal { GivesBy (EquivalentRoles (1 ∷ 0 ∷ [])) (Link 5 0 3) (Sub 2 2) Rule.Role
        (Link 5 1 3) }
    ensures transitive { GivesBy (Transitive 0) (Link 5 0 3) (Link 3 0 2) Rule.Chain (Link 5 0 2) }
    ensures two { GivesBy (SubRole (0 ∷ 1 ∷ []) 3 4) (Link 5 0 3) (Link 3 1 2) Rule.Chain
        (Link 5 3 2) }
    ensures part { GivesBy (SubRole (0 ∷ 1 ∷ 2 ∷ []) 3 4) (Link 5 0 3) (Link 3 1 2) Rule.Chain
        (Link 5 4 2) }
    ensures last { GivesBy (SubRole (0 ∷ 1 ∷ 2 ∷ []) 3 4) (Link 5 4 3) (Link 3 2 2) Rule.Chain
        (Link 5 3 2) }
    ensures refl { GivesBy (Reflexive 0) (Sub 2 2) (Sub 2 2) Rule.Refl (Link 5 0 5) }
{}
