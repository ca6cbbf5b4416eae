//! Laws that check the definitions against small cases.
ghost use Rattle.std.specs.Prelude.{◌≡◌, ◌↔◌, ◌<◌, ◌++◌, ℕ, List, [], ◌∷◌, All, Contains};
ghost use Rattle.el_logic.specs.declared.types.Expr.{Expr};
ghost use Rattle.el_logic.specs.declared.types.Expr.TheVariants.{Top, Bottom, Name, And, Exists};
ghost use Rattle.el_logic.specs.declared.types.Axiom.{Axiom};
ghost use Rattle.el_logic.specs.declared.types.Axiom.TheVariants.{SubClass, Equivalent, Disjoint, SubRole, EquivalentRoles, Transitive, Reflexive, Domain};
ghost use Rattle.el_logic.specs.declared.types.Interp.{Interp};
ghost use Rattle.el_logic.specs.Meaning.{IsInterp, IsMember, Holds, AreRelated};
ghost use Rattle.el_logic.specs.Incoherent.{IsModel, IsEmptyClass, IsIncoherent, IsCoherent, must_have};
ghost use Rattle.el_logic.specs.Cases.{one_element, three_elements, steps};

/// An element belongs to an intersection exactly if it belongs to each operand; without operands,
/// if it is one of the domain.
pub fn members_of_an_intersection()
    ensures { (i : Interp) (x : ℕ) (operands : List Expr)
        → IsMember i x (And operands) ↔ ((x < i.size) × All (IsMember i x) operands) }
{}

/// An element belongs to an existential restriction exactly if the property leads from it to a
/// member.
pub fn members_of_a_restriction()
    ensures { (i : Interp) (x r : ℕ) (filler : Expr)
        → IsMember i x (Exists r filler) ↔ ((y : ℕ) × AreRelated i r x y × IsMember i y filler) }
{}

/// Members of expressions are elements of the domain.
pub fn members_are_elements()
    ensures { (classes roles : ℕ) (i : Interp) (x : ℕ) (expression : Expr)
        → IsInterp classes roles i → IsMember i x expression → x < i.size }
{}

/// If an equivalence of classes holds, any two of its operands have the same members.
pub fn equivalent_classes_have_the_same_members()
    ensures { (i : Interp) (operands : List Expr) (one other : Expr) → Holds i (Equivalent operands)
        → Contains operands one → Contains operands other
        → (x : ℕ) → IsMember i x one ↔ IsMember i x other }
{}

/// If an equivalence of properties holds, any two of its operands have the same pairs.
pub fn equivalent_properties_have_the_same_pairs()
    ensures { (i : Interp) (operands : List ℕ) (one other : ℕ) → Holds i (EquivalentRoles operands)
        → Contains operands one → Contains operands other
        → (x y : ℕ) → AreRelated i one x y ↔ AreRelated i other x y }
{}

/// `owl:Thing` has a member in every interpretation, so it is empty only if the axioms have no model.
pub fn thing_is_never_empty()
    ensures { (classes roles : ℕ) (axioms : List Axiom) (i : Interp)
        → IsModel classes roles axioms i → ¬ (IsEmptyClass classes roles axioms Top) }
{}

/// A class that an axiom puts below `owl:Nothing` is empty.
pub fn below_nothing_is_empty()
    ensures { (classes roles : ℕ) (axioms : List Axiom) (class : Expr)
        → Contains axioms (SubClass class Bottom) → IsEmptyClass classes roles axioms class }
{}

/// What is empty stays empty under more axioms, before or after.
pub fn more_axioms_keep_a_class_empty()
    ensures { (classes roles : ℕ) (before axioms after : List Axiom) (class : Expr)
        → IsEmptyClass classes roles axioms class
        → IsEmptyClass classes roles (before ++ axioms ++ after) class }
{}

/// More axioms never make axioms coherent, in whatever order they come.
pub fn more_axioms_stay_incoherent()
    ensures { (classes roles : ℕ) (axioms more : List Axiom)
        → ((one : Axiom) → Contains axioms one → Contains more one)
        → IsIncoherent classes roles axioms → IsIncoherent classes roles more }
{}

/// One model in which every class that must have a member has one shows that the axioms are
/// coherent.
pub fn a_model_with_members_shows_coherence()
    ensures { (classes roles : ℕ) (axioms : List Axiom) (i : Interp)
        → IsModel classes roles axioms i
        → ((class : Expr) → Contains (must_have classes) class → (x : ℕ) × IsMember i x class)
        → IsCoherent classes roles axioms }
{}

/// In the interpretation with one element, which class 0 and no other class has, each class axiom
/// holds or fails as it should.
pub fn class_axioms_are_told_apart()
    ensures { IsInterp 2 2 one_element × Holds one_element (SubClass (Name 1) (Name 0))
        × ¬ (Holds one_element (SubClass (Name 0) (Name 1)))
        × Holds one_element (Equivalent (Name 0 ∷ Top ∷ []))
        × ¬ (Holds one_element (Equivalent (Name 0 ∷ Name 1 ∷ [])))
        × Holds one_element (Disjoint (Name 0 ∷ Name 1 ∷ []))
        × ¬ (Holds one_element (Disjoint (Name 0 ∷ Name 0 ∷ []))) }
{}

/// There property 0 relates the element to itself, and property 1 nothing. Each property axiom
/// holds or fails as it should; so does transitivity if 0 leads to 1 and 1 to 2 only.
pub fn property_axioms_are_told_apart()
    ensures { Holds one_element (SubRole (1 ∷ []) 0) × ¬ (Holds one_element (SubRole (0 ∷ []) 1))
        × Holds one_element (SubRole (0 ∷ 0 ∷ []) 0)
        × ¬ (Holds one_element (EquivalentRoles (0 ∷ 1 ∷ [])))
        × Holds one_element (Transitive 0) × ¬ (Holds three_elements (Transitive 0))
        × Holds one_element (Reflexive 0) × ¬ (Holds one_element (Reflexive 1))
        × Holds one_element (Domain 0 (Name 0)) × ¬ (Holds one_element (Domain 0 (Name 1))) }
{}

/// Among three elements subclasses go one way only, and equivalence and disjointness go both ways
/// and look at every two operands.
pub fn class_axioms_have_their_direction()
    ensures { Holds steps (SubClass (Name 0) (Name 1))
        × ¬ (Holds steps (SubClass (Name 1) (Name 0)))
        × Holds steps (Equivalent (Name 0 ∷ Name 3 ∷ []))
        × ¬ (Holds steps (Equivalent (Name 0 ∷ Name 1 ∷ [])))
        × ¬ (Holds steps (Equivalent (Name 1 ∷ Name 0 ∷ [])))
        × ¬ (Holds steps (Equivalent (Name 0 ∷ Name 3 ∷ Name 1 ∷ [])))
        × Holds steps (Disjoint (Name 0 ∷ Name 2 ∷ []))
        × ¬ (Holds steps (Disjoint (Name 1 ∷ Name 0 ∷ [])))
        × ¬ (Holds steps (Disjoint (Name 0 ∷ Name 2 ∷ Name 1 ∷ []))) }
{}

/// Among three elements a chain is gone from its first property to its last, and equivalence of
/// properties goes both ways.
pub fn chains_have_their_direction()
    ensures { Holds steps (SubRole (0 ∷ []) 3) × ¬ (Holds steps (SubRole (3 ∷ []) 0))
        × Holds steps (SubRole (0 ∷ 1 ∷ []) 2) × ¬ (Holds steps (SubRole (0 ∷ 1 ∷ []) 0))
        × Holds steps (SubRole (1 ∷ 0 ∷ []) 0)
        × Holds steps (EquivalentRoles (0 ∷ 4 ∷ []))
        × ¬ (Holds steps (EquivalentRoles (0 ∷ 3 ∷ [])))
        × ¬ (Holds steps (EquivalentRoles (3 ∷ 0 ∷ []))) }
{}

/// A transitive property leads on from its first element, a reflexive one relates every element to
/// itself, and a domain speaks of the element from which the property leads.
pub fn single_properties_have_their_meaning()
    ensures { Holds steps (Transitive 7)
        × Holds steps (Reflexive 5) × ¬ (Holds steps (Reflexive 6))
        × Holds steps (Domain 0 (Name 0)) × ¬ (Holds steps (Domain 1 (Name 2))) }
{}
