//! The table of heads.

ghost use Rattle.std.specs.Prelude.{◌≡◌};
ghost use Rattle.ofn_heads.specs.Heads.{first_head, head_inside, head_of, axiom_heads, expression_heads, document_heads, entity_heads};

use crate::HeadId;

/// What a word at the head of a group is.
#[derive(Clone, Copy, Debug, PartialEq, Eq)]
pub enum Head {
    SubClassOf,
    EquivalentClasses,
    DisjointClasses,
    SubObjectPropertyOf,
    EquivalentObjectProperties,
    TransitiveObjectProperty,
    ReflexiveObjectProperty,
    ObjectPropertyDomain,
    ObjectIntersectionOf,
    ObjectSomeValuesFrom,
    ObjectPropertyChain,
    Prefix,
    Ontology,
    Declaration,
    Annotation,
    AnnotationAssertion,
    SubAnnotationPropertyOf,
    AnnotationPropertyDomain,
    AnnotationPropertyRange,
    Class,
    ObjectProperty,
    DataProperty,
    AnnotationProperty,
    Datatype,
    NamedIndividual,
    /// A head of OWL 2 that is outside the fragment.
    Outside(HeadId),
    /// Any other word.
    Other,
}

/// The head that a word is.
pub fn head_of(word: &[u8]) -> Head
    ensures { result ≡ head_of word.now }
{
    if let Some(head) = head_inside(word) {
        return head;
    }
    match HeadId::named(word) {
        Some(id) => Head::Outside(id),
        None => Head::Other,
    }
}

fn head_inside(word: &[u8]) -> Option<Head>
    ensures { result ≡ head_inside word.now }
{
    if let Some(head) = axiom_head(word) {
        return Some(head);
    }
    if let Some(head) = expression_head(word) {
        return Some(head);
    }
    if let Some(head) = document_head(word) {
        return Some(head);
    }
    entity_head(word)
}

// Axioms of the fragment.
fn axiom_head(word: &[u8]) -> Option<Head>
    ensures { result ≡ first_head axiom_heads word.now }
{
    if word == b"SubClassOf".as_slice() {
        return Some(Head::SubClassOf);
    }
    if word == b"EquivalentClasses".as_slice() {
        return Some(Head::EquivalentClasses);
    }
    if word == b"DisjointClasses".as_slice() {
        return Some(Head::DisjointClasses);
    }
    if word == b"SubObjectPropertyOf".as_slice() {
        return Some(Head::SubObjectPropertyOf);
    }
    if word == b"EquivalentObjectProperties".as_slice() {
        return Some(Head::EquivalentObjectProperties);
    }
    if word == b"TransitiveObjectProperty".as_slice() {
        return Some(Head::TransitiveObjectProperty);
    }
    if word == b"ReflexiveObjectProperty".as_slice() {
        return Some(Head::ReflexiveObjectProperty);
    }
    if word == b"ObjectPropertyDomain".as_slice() {
        return Some(Head::ObjectPropertyDomain);
    }
    None
}

// Expressions of the fragment.
fn expression_head(word: &[u8]) -> Option<Head>
    ensures { result ≡ first_head expression_heads word.now }
{
    if word == b"ObjectIntersectionOf".as_slice() {
        return Some(Head::ObjectIntersectionOf);
    }
    if word == b"ObjectSomeValuesFrom".as_slice() {
        return Some(Head::ObjectSomeValuesFrom);
    }
    if word == b"ObjectPropertyChain".as_slice() {
        return Some(Head::ObjectPropertyChain);
    }
    None
}

// What a document and an ontology have beside axioms.
fn document_head(word: &[u8]) -> Option<Head>
    ensures { result ≡ first_head document_heads word.now }
{
    if word == b"Prefix".as_slice() {
        return Some(Head::Prefix);
    }
    if word == b"Ontology".as_slice() {
        return Some(Head::Ontology);
    }
    if word == b"Declaration".as_slice() {
        return Some(Head::Declaration);
    }
    if word == b"Annotation".as_slice() {
        return Some(Head::Annotation);
    }
    if word == b"AnnotationAssertion".as_slice() {
        return Some(Head::AnnotationAssertion);
    }
    if word == b"SubAnnotationPropertyOf".as_slice() {
        return Some(Head::SubAnnotationPropertyOf);
    }
    if word == b"AnnotationPropertyDomain".as_slice() {
        return Some(Head::AnnotationPropertyDomain);
    }
    if word == b"AnnotationPropertyRange".as_slice() {
        return Some(Head::AnnotationPropertyRange);
    }
    None
}

// What is declared.
fn entity_head(word: &[u8]) -> Option<Head>
    ensures { result ≡ first_head entity_heads word.now }
{
    if word == b"Class".as_slice() {
        return Some(Head::Class);
    }
    if word == b"ObjectProperty".as_slice() {
        return Some(Head::ObjectProperty);
    }
    if word == b"DataProperty".as_slice() {
        return Some(Head::DataProperty);
    }
    if word == b"AnnotationProperty".as_slice() {
        return Some(Head::AnnotationProperty);
    }
    if word == b"Datatype".as_slice() {
        return Some(Head::Datatype);
    }
    if word == b"NamedIndividual".as_slice() {
        return Some(Head::NamedIndividual);
    }
    None
}
