//! What predicates say.

ghost use Rattle.std.specs.Prelude.{◌≡◌};
ghost use Rattle.predicate_axioms.specs.Predicates.{of_both, of_classes, of_properties};

/// How a predicate puts its subject to its object.
#[derive(Clone, Copy, Debug, PartialEq, Eq)]
pub enum Relation {
    /// Both are the same.
    Equal,
    /// The subject is below the object.
    Below,
    /// The object is below the subject.
    Above,
}

fn of_both(predicate: &[u8]) -> Option<Relation>
    ensures { result ≡ of_both predicate.now }
{
    if predicate == b"http://www.w3.org/2004/02/skos/core#exactMatch".as_slice() {
        return Some(Relation::Equal);
    }
    if predicate == b"http://www.w3.org/2004/02/skos/core#broadMatch".as_slice() {
        return Some(Relation::Below);
    }
    if predicate == b"http://www.w3.org/2004/02/skos/core#narrowMatch".as_slice() {
        return Some(Relation::Above);
    }
    None
}

/// What a predicate says of two classes.
pub fn of_classes(predicate: &[u8]) -> Option<Relation>
    ensures { result ≡ of_classes predicate.now }
{
    if predicate == b"http://www.w3.org/2002/07/owl#equivalentClass".as_slice() {
        return Some(Relation::Equal);
    }
    if predicate == b"http://www.w3.org/2000/01/rdf-schema#subClassOf".as_slice() {
        return Some(Relation::Below);
    }
    of_both(predicate)
}

/// What a predicate says of two properties.
pub fn of_properties(predicate: &[u8]) -> Option<Relation>
    ensures { result ≡ of_properties predicate.now }
{
    if predicate == b"http://www.w3.org/2002/07/owl#equivalentProperty".as_slice() {
        return Some(Relation::Equal);
    }
    if predicate == b"http://www.w3.org/2000/01/rdf-schema#subPropertyOf".as_slice() {
        return Some(Relation::Below);
    }
    of_both(predicate)
}
