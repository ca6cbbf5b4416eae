//! Laws on the axioms of rows: functions that do nothing and whose contracts are the laws.

ghost use Rattle.std.specs.Prelude.{◌≡◌, ◌↔◌, ◌≤◌, ℕ, List, [], ◌∷◌, true, Some, None, codes, length, All, is_some};
ghost use Rattle.text_names.specs.Names.{number_of};
ghost use Rattle.el_logic.specs.declared.types.Expr.{Expr};
ghost use Rattle.el_logic.specs.declared.types.Expr.TheVariants.{Top, Bottom, Name};
ghost use Rattle.el_logic.specs.declared.types.Axiom.TheVariants.{SubClass, SubRole};
ghost use Rattle.el_logic.specs.declared.types.Interp.{Interp};
ghost use Rattle.el_logic.specs.Meaning.{Holds, IsWithin, AreRelated};
ghost use Rattle.sssom_rows.specs.declared.table.Row.{Row};
ghost use Rattle.predicate_axioms.specs.declared.predicates.Relation.TheVariants.{Equal, Below, Above};
ghost use Rattle.predicate_axioms.specs.Predicates.{of_classes, of_properties};
ghost use Rattle.predicate_axioms.specs.RowAxioms.{class_of, class_axioms, property_axioms, row_axioms, IsRowAxiom};

/// What each predicate says of two classes and of two properties. `skos:closeMatch` says nothing.
pub fn predicates_are_told_apart()
    ensures equivalent_class { of_classes (codes "http://www.w3.org/2002/07/owl#equivalentClass")
        ≡ Some Equal }
    ensures equivalent_class_of_properties { of_properties
        (codes "http://www.w3.org/2002/07/owl#equivalentClass") ≡ None }
    ensures exact_match { of_classes (codes "http://www.w3.org/2004/02/skos/core#exactMatch")
        ≡ Some Equal }
    ensures exact_match_of_properties { of_properties
        (codes "http://www.w3.org/2004/02/skos/core#exactMatch") ≡ Some Equal }
    ensures sub_class_of { of_classes (codes "http://www.w3.org/2000/01/rdf-schema#subClassOf")
        ≡ Some Below }
    ensures sub_class_of_of_properties { of_properties
        (codes "http://www.w3.org/2000/01/rdf-schema#subClassOf") ≡ None }
    ensures broad_match { of_classes (codes "http://www.w3.org/2004/02/skos/core#broadMatch")
        ≡ Some Below }
    ensures broad_match_of_properties { of_properties
        (codes "http://www.w3.org/2004/02/skos/core#broadMatch") ≡ Some Below }
    ensures narrow_match { of_classes (codes "http://www.w3.org/2004/02/skos/core#narrowMatch")
        ≡ Some Above }
    ensures narrow_match_of_properties { of_properties
        (codes "http://www.w3.org/2004/02/skos/core#narrowMatch") ≡ Some Above }
    ensures equivalent_property { of_classes
        (codes "http://www.w3.org/2002/07/owl#equivalentProperty") ≡ None }
    ensures equivalent_property_of_properties { of_properties
        (codes "http://www.w3.org/2002/07/owl#equivalentProperty") ≡ Some Equal }
    ensures sub_property_of { of_classes
        (codes "http://www.w3.org/2000/01/rdf-schema#subPropertyOf") ≡ None }
    ensures sub_property_of_of_properties { of_properties
        (codes "http://www.w3.org/2000/01/rdf-schema#subPropertyOf") ≡ Some Below }
    ensures close_match { of_classes (codes "http://www.w3.org/2004/02/skos/core#closeMatch")
        ≡ None }
{}

/// `Below` holds if and only if the subject is within the object, `Above` if and only if the object
/// is within the subject, and `Equal` if and only if both hold.
pub fn relations_have_their_direction()
    ensures below { (i : Interp) (s o : Expr) →
        All (Holds i) (class_axioms (Some Below) s o) ↔ IsWithin i s o }
    ensures above { (i : Interp) (s o : Expr) →
        All (Holds i) (class_axioms (Some Above) s o) ↔ IsWithin i o s }
    ensures equal { (i : Interp) (s o : Expr) →
        All (Holds i) (class_axioms (Some Equal) s o) ↔ (IsWithin i s o × IsWithin i o s) }
    ensures role_below { (i : Interp) (s o : ℕ) → All (Holds i) (property_axioms (Some Below) s o)
        ↔ ((x y : ℕ) → AreRelated i s x y → AreRelated i o x y) }
    ensures role_above { (i : Interp) (s o : ℕ) → All (Holds i) (property_axioms (Some Above) s o)
        ↔ ((x y : ℕ) → AreRelated i o x y → AreRelated i s x y) }
    ensures role_equal { (i : Interp) (s o : ℕ) → All (Holds i) (property_axioms (Some Equal) s o)
        ↔ (((x y : ℕ) → AreRelated i s x y → AreRelated i o x y)
        × ((x y : ℕ) → AreRelated i o x y → AreRelated i s x y)) }
{}

/// A row has two axioms at most. Each puts one class below another or one property below another,
/// and its numbers are those of names.
pub fn few_axioms_with_numbers_in_range()
    ensures few { (classes roles : List (List ℕ)) (row : Row) →
        length (row_axioms classes roles row) ≤ 2 }
    ensures within { (classes roles : List (List ℕ)) (row : Row) →
        All (IsRowAxiom (length classes) (length roles)) (row_axioms classes roles row) }
{}

/// A row with a modifier or with an empty id has no axioms.
pub fn inert_rows_have_no_axioms()
    ensures modified { (classes roles : List (List ℕ)) (row : Row) → row.modified ≡ true →
        row_axioms classes roles row ≡ [] }
    ensures no_subject { (classes roles : List (List ℕ)) (row : Row) → row.subject ≡ None →
        row_axioms classes roles row ≡ [] }
    ensures no_predicate { (classes roles : List (List ℕ)) (row : Row) → row.predicate ≡ None →
        row_axioms classes roles row ≡ [] }
    ensures no_object { (classes roles : List (List ℕ)) (row : Row) → row.object ≡ None →
        row_axioms classes roles row ≡ [] }
{}

/// `owl:Thing` and `owl:Nothing` are classes without a number, whatever the names.
pub fn classes_are_found_first()
    ensures thing { (classes : List (List ℕ)) →
        class_of classes (codes "http://www.w3.org/2002/07/owl#Thing") ≡ Some Top }
    ensures nothing { (classes : List (List ℕ)) →
        class_of classes (codes "http://www.w3.org/2002/07/owl#Nothing") ≡ Some Bottom }
{}
