//! Laws on documents: functions that do nothing and whose contracts are the laws.

ghost use Rattle.std.specs.Prelude.{◌≡◌, ℕ, List, Ok, Err, false};
ghost use Rattle.ofn_axiom.specs.Answers.{HasDocAnswer};
ghost use Rattle.ofn_axiom.specs.Documents.{IsReading, IsDocFault, is_profile};
ghost use Rattle.ofn_axiom.specs.declared.fault.DocFault.{DocFault};
ghost use Rattle.ofn_axiom.specs.declared.types.Document.{Document};
ghost use Rattle.ofn_axiom.specs.declared.types.Mode.{Mode};
ghost use Rattle.ofn_axiom.specs.declared.types.Mode.TheVariants.{ElPart};
ghost use Rattle.ofn_axiom.specs.declared.types.Names.{Names};
ghost use Rattle.ofn_term.specs.declared.item.Item.{Item};
ghost use Rattle.text_names.specs.Prefixes.{Prefixes};
ghost use Rattle.ofn_axiom.specs.Given.{given};
ghost use Rattle.ofn_axiom.specs.StandsFor.{IsIri, IsProperty, IsClass, IsChain, IsAxiom};
ghost use Rattle.ofn_axiom.specs.declared.types.IriExpr.{IriExpr};
ghost use Rattle.ofn_axiom.specs.declared.types.IriAxiom.{IriAxiom};
ghost use Rattle.ofn_axiom.specs.declared.types.Direct.{Direct};
ghost use Rattle.ofn_axiom.specs.declared.types.Direct.TheVariants as direct;
ghost use Rattle.ofn_axiom.specs.DirectItems.{IsDirect};
ghost use Rattle.ofn_axiom.specs.Outside.{IsOutside};
ghost use Rattle.ofn_axiom.specs.declared.fault.OffsetFault.TheVariants as fault;
ghost use Rattle.ofn_heads.specs.declared.outside.HeadId.{HeadId};
ghost use Rattle.ofn_axiom.specs.DocumentText.{IsDocumentText};
ghost use Rattle.ofn_lex.specs.declared.token.Token.{Token};
ghost use Rattle.ofn_heads.specs.declared.iri.Named.TheVariants as named;
ghost use Rattle.ofn_heads.specs.Names.{name_of_token};

use ofn_term::each_text_has_items_or_one_first_fault;

/// A token is read as an IRI if and only if it stands for it.
pub fn iris_are_what_tokens_stand_for()
    ensures read { (text : List ℕ) (prefixes : Prefixes) (token : Token) (iri : List ℕ) →
        IsIri text prefixes token iri → name_of_token text prefixes token ≡ named.Iri iri }
    ensures stands { (text : List ℕ) (prefixes : Prefixes) (token : Token) (iri : List ℕ) →
        name_of_token text prefixes token ≡ named.Iri iri → IsIri text prefixes token iri }
{}

/// An item is read as a property if and only if it stands for it.
pub fn properties_are_what_stands_for_them()
    ensures read { (text : List ℕ) (prefixes : Prefixes) (item : Item) (iri : List ℕ) →
        IsProperty text prefixes item iri → (given text prefixes item).property ≡ Ok iri }
    ensures stands { (text : List ℕ) (prefixes : Prefixes) (item : Item) (iri : List ℕ) →
        (given text prefixes item).property ≡ Ok iri → IsProperty text prefixes item iri }
{}

/// An item is read as a class expression if and only if it stands for it.
pub fn classes_are_what_stands_for_them()
    ensures read { (text : List ℕ) (prefixes : Prefixes) (item : Item) (class : IriExpr) →
        IsClass text prefixes item class → (given text prefixes item).class ≡ Ok class }
    ensures stands { (text : List ℕ) (prefixes : Prefixes) (item : Item) (class : IriExpr) →
        (given text prefixes item).class ≡ Ok class → IsClass text prefixes item class }
{}

/// The first item of `SubObjectPropertyOf` is read as properties in a row if and only if it is one
/// property or a chain of them.
pub fn chains_are_what_stands_for_them()
    ensures read { (text : List ℕ) (prefixes : Prefixes) (item : Item) (iris : List (List ℕ)) →
        IsChain text prefixes item iris → (given text prefixes item).chain ≡ Ok iris }
    ensures stands { (text : List ℕ) (prefixes : Prefixes) (item : Item) (iris : List (List ℕ)) →
        (given text prefixes item).chain ≡ Ok iris → IsChain text prefixes item iris }
{}

/// An item of an ontology is read as an axiom if and only if it states it: a head with annotations
/// and operands.
pub fn axioms_are_what_states_them()
    ensures read { (text : List ℕ) (prefixes : Prefixes) (item : Item) (said : IriAxiom) →
        IsAxiom text prefixes item said →
        (given text prefixes item).direct ≡ Ok (direct.Axiom said) }
    ensures stands { (text : List ℕ) (prefixes : Prefixes) (item : Item) (said : IriAxiom) →
        (given text prefixes item).direct ≡ Ok (direct.Axiom said) →
        IsAxiom text prefixes item said }
{}

/// An item of an ontology is read as what it says: nothing, a declaration or an axiom, and only so.
pub fn direct_items_are_what_they_say()
    ensures read { (text : List ℕ) (prefixes : Prefixes) (item : Item) (said : Direct) →
        IsDirect text prefixes item said → (given text prefixes item).direct ≡ Ok said }
    ensures says { (text : List ℕ) (prefixes : Prefixes) (item : Item) (said : Direct) →
        (given text prefixes item).direct ≡ Ok said → IsDirect text prefixes item said }
{}

/// The first fault of an item of an ontology is that something is outside the fragment, at a place,
/// if and only if it is right up to there, and what stands there is outside.
pub fn items_are_outside_where_they_say()
    ensures read { (text : List ℕ) (prefixes : Prefixes) (item : Item) (at : ℕ)
        (outside : HeadId) → IsOutside text prefixes item at outside →
        (given text prefixes item).direct ≡ Err (fault.Profile at outside) }
    ensures says { (text : List ℕ) (prefixes : Prefixes) (item : Item) (at : ℕ)
        (outside : HeadId) → (given text prefixes item).direct ≡ Err (fault.Profile at outside) →
        IsOutside text prefixes item at outside }
{}

/// A text is read as a document if and only if it is a text of it: prefixes, then an ontology.
pub fn documents_are_what_they_say()
    ensures read { (text : List ℕ) (mode : Mode) (depth : ℕ) (old new : Names)
        (document : Document) → IsDocumentText text mode depth old new document →
        IsReading text mode depth old new document }
    ensures says { (text : List ℕ) (mode : Mode) (depth : ℕ) (old new : Names)
        (document : Document) → IsReading text mode depth old new document →
        IsDocumentText text mode depth old new document }
{}

/// A text has, for given limits and names that are held, one reading or one first fault, and never
/// both.
pub fn each_document_has_one_answer()
    ensures some { (text : List ℕ) (mode : Mode) (depth : ℕ) (old : Names) →
        HasDocAnswer text mode depth old }
    ensures never_both { (text : List ℕ) (mode : Mode) (depth : ℕ) (old new : Names)
        (document : Document) (fault : DocFault) →
        IsReading text mode depth old new document → IsDocFault text mode depth old fault → ⊥ }
    ensures one_reading { (text : List ℕ) (mode : Mode) (depth : ℕ) (old new other : Names)
        (document another : Document) → IsReading text mode depth old new document →
        IsReading text mode depth old other another → (document ≡ another) × (new ≡ other) }
    ensures one_fault { (text : List ℕ) (mode : Mode) (depth : ℕ) (old : Names)
        (fault other : DocFault) → IsDocFault text mode depth old fault →
        IsDocFault text mode depth old other → fault ≡ other }
{
    each_text_has_items_or_one_first_fault();
}

/// If only the part in the profile is asked for, no first fault is that something is outside of it.
pub fn el_parts_are_never_refused_for_the_profile()
    ensures { (text : List ℕ) (depth : ℕ) (old : Names) (fault : DocFault) →
        IsDocFault text ElPart depth old fault → is_profile fault ≡ false }
{}
