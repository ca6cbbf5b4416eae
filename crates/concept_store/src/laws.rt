//! Laws of nodes and their readings.

ghost use Rattle.std.specs.Prelude.{◌≡◌, ◌↔◌, ℕ, ◌+◌, List, All, Some, None, length};
ghost use Rattle.el_logic.specs.declared.types.Axiom.{Axiom};
ghost use Rattle.el_logic.specs.declared.types.Expr.{Expr};
ghost use Rattle.el_logic.specs.declared.types.Interp.{Interp};
ghost use Rattle.el_logic.specs.Meaning.{IsInterp, IsMember};
ghost use Rattle.concept_store.specs.declared.types.Node.{Node};
ghost use Rattle.concept_store.specs.Trees.{Tree, tree_of, IsTreeOver};
ghost use Rattle.concept_store.specs.Nodes.{node_for, parts_within};
ghost use Rattle.concept_store.specs.Order.{AreInOrder};
ghost use Rattle.concept_store.specs.Standing.{StandsFor};
ghost use Rattle.concept_store.specs.Reading.{Reading, IsIn, IsReadingOf, MeansTheSameIn, ReadsParts};
ghost use Rattle.concept_store.specs.Roles.{AreOver, roles_of, store_of};

/// Each interpretation has a reading over the store of two ontologies, in which each part of a
/// chain is the composition that it stands for.
pub fn every_interpretation_has_a_reading()
    ensures { (classes roles : ℕ) (left right : List Axiom) (i : Interp)
        → AreOver classes roles left → AreOver classes roles right → IsInterp classes roles i
        → let store = store_of classes roles left right in
        (m : Reading) × IsReadingOf store.nodes roles i m
        × All (ReadsParts m) store.left × All (ReadsParts m) store.right }
{}

/// No node of a store stands twice, `owl:Thing`, `owl:Nothing` and the class names come first, and
/// each part of a node stands before it.
pub fn nodes_stand_in_order()
    ensures { (classes roles : ℕ) (left right : List Axiom)
        → AreOver classes roles left → AreOver classes roles right
        → AreInOrder classes roles (store_of classes roles left right).nodes }
{}

/// A store has a role for each property and for each part of a chain, and no others.
pub fn stores_have_a_role_for_each_part()
    ensures { (roles : ℕ) (left right : List Axiom)
        → length (roles_of roles left right) ≡ roles + parts_within left + parts_within right }
{}

/// The axioms of two ontologies mean the same over the nodes of their store.
pub fn stores_mean_the_same()
    ensures left { (classes roles : ℕ) (left right : List Axiom)
        → AreOver classes roles left → AreOver classes roles right
        → let store = store_of classes roles left right in
        MeansTheSameIn classes roles store.nodes left store.left }
    ensures right { (classes roles : ℕ) (left right : List Axiom)
        → AreOver classes roles left → AreOver classes roles right
        → let store = store_of classes roles left right in
        MeansTheSameIn classes roles store.nodes right store.right }
{}

/// The node that is found for an expression is the one that stands for it, none is found exactly
/// where none stands for it, and it has the members of the expression in every reading.
pub fn found_nodes_stand_for_expressions()
    ensures found { (classes properties : ℕ) (nodes : List Node) (tree : Tree) (n : ℕ)
        → AreInOrder classes properties nodes
        → (node_for nodes tree ≡ Some n) ↔ StandsFor nodes n tree }
    ensures none { (classes properties : ℕ) (nodes : List Node) (tree : Tree)
        → AreInOrder classes properties nodes
        → (node_for nodes tree ≡ None) ↔ ((n : ℕ) → ¬ (StandsFor nodes n tree)) }
    ensures members { (classes properties : ℕ) (nodes : List Node) (i : Interp) (m : Reading)
        (expr : Expr) (n x : ℕ) → IsInterp classes properties i
        → IsReadingOf nodes properties i m → IsTreeOver classes properties (tree_of expr)
        → StandsFor nodes n (tree_of expr) → IsIn m n x ↔ IsMember i x expr }
{}
