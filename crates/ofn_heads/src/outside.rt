//! Heads of OWL 2 that are outside the fragment, and their names.

ghost use Rattle.std.specs.Prelude.{◌≡◌};
ghost use Rattle.ofn_heads.specs.Heads.{name_of, first_id, id_named, class_axioms, data_axioms, assertions, class_expressions, data_ranges, other_names};

/// A head of OWL 2 that is outside the fragment, or a property that is (OWL 2 structural
/// specification; functional-style syntax, section 13). An axiom that has one is no EL axiom of the
/// fragment.
#[derive(Clone, Copy, Debug, PartialEq, Eq)]
pub enum HeadId {
    DisjointUnion,
    ObjectPropertyRange,
    DisjointObjectProperties,
    InverseObjectProperties,
    FunctionalObjectProperty,
    InverseFunctionalObjectProperty,
    IrreflexiveObjectProperty,
    SymmetricObjectProperty,
    AsymmetricObjectProperty,
    SubDataPropertyOf,
    EquivalentDataProperties,
    DisjointDataProperties,
    DataPropertyDomain,
    DataPropertyRange,
    FunctionalDataProperty,
    DatatypeDefinition,
    HasKey,
    SameIndividual,
    DifferentIndividuals,
    ClassAssertion,
    ObjectPropertyAssertion,
    NegativeObjectPropertyAssertion,
    DataPropertyAssertion,
    NegativeDataPropertyAssertion,
    ObjectUnionOf,
    ObjectComplementOf,
    ObjectOneOf,
    ObjectAllValuesFrom,
    ObjectHasValue,
    ObjectHasSelf,
    ObjectMinCardinality,
    ObjectMaxCardinality,
    ObjectExactCardinality,
    DataSomeValuesFrom,
    DataAllValuesFrom,
    DataHasValue,
    DataMinCardinality,
    DataMaxCardinality,
    DataExactCardinality,
    ObjectInverseOf,
    DataIntersectionOf,
    DataUnionOf,
    DataComplementOf,
    DataOneOf,
    DatatypeRestriction,
    Import,
    /// Not of OWL 2: rules, as tools write them.
    DLSafeRule,
    /// `owl:topObjectProperty`, in the place of a property.
    TopObjectProperty,
    /// `owl:bottomObjectProperty`, in the place of a property.
    BottomObjectProperty,
}

impl HeadId {
    /// The name by which the head stands in documents and in the list of omitted axioms.
    pub fn name(&self) -> &'static [u8]
        ensures { result.now ≡ name_of self.now }
    {
        match self {
            HeadId::DisjointUnion => b"DisjointUnion",
            HeadId::ObjectPropertyRange => b"ObjectPropertyRange",
            HeadId::DisjointObjectProperties => b"DisjointObjectProperties",
            HeadId::InverseObjectProperties => b"InverseObjectProperties",
            HeadId::FunctionalObjectProperty => b"FunctionalObjectProperty",
            HeadId::InverseFunctionalObjectProperty => b"InverseFunctionalObjectProperty",
            HeadId::IrreflexiveObjectProperty => b"IrreflexiveObjectProperty",
            HeadId::SymmetricObjectProperty => b"SymmetricObjectProperty",
            HeadId::AsymmetricObjectProperty => b"AsymmetricObjectProperty",
            HeadId::SubDataPropertyOf => b"SubDataPropertyOf",
            HeadId::EquivalentDataProperties => b"EquivalentDataProperties",
            HeadId::DisjointDataProperties => b"DisjointDataProperties",
            HeadId::DataPropertyDomain => b"DataPropertyDomain",
            HeadId::DataPropertyRange => b"DataPropertyRange",
            HeadId::FunctionalDataProperty => b"FunctionalDataProperty",
            HeadId::DatatypeDefinition => b"DatatypeDefinition",
            HeadId::HasKey => b"HasKey",
            HeadId::SameIndividual => b"SameIndividual",
            HeadId::DifferentIndividuals => b"DifferentIndividuals",
            HeadId::ClassAssertion => b"ClassAssertion",
            HeadId::ObjectPropertyAssertion => b"ObjectPropertyAssertion",
            HeadId::NegativeObjectPropertyAssertion => b"NegativeObjectPropertyAssertion",
            HeadId::DataPropertyAssertion => b"DataPropertyAssertion",
            HeadId::NegativeDataPropertyAssertion => b"NegativeDataPropertyAssertion",
            HeadId::ObjectUnionOf => b"ObjectUnionOf",
            HeadId::ObjectComplementOf => b"ObjectComplementOf",
            HeadId::ObjectOneOf => b"ObjectOneOf",
            HeadId::ObjectAllValuesFrom => b"ObjectAllValuesFrom",
            HeadId::ObjectHasValue => b"ObjectHasValue",
            HeadId::ObjectHasSelf => b"ObjectHasSelf",
            HeadId::ObjectMinCardinality => b"ObjectMinCardinality",
            HeadId::ObjectMaxCardinality => b"ObjectMaxCardinality",
            HeadId::ObjectExactCardinality => b"ObjectExactCardinality",
            HeadId::DataSomeValuesFrom => b"DataSomeValuesFrom",
            HeadId::DataAllValuesFrom => b"DataAllValuesFrom",
            HeadId::DataHasValue => b"DataHasValue",
            HeadId::DataMinCardinality => b"DataMinCardinality",
            HeadId::DataMaxCardinality => b"DataMaxCardinality",
            HeadId::DataExactCardinality => b"DataExactCardinality",
            HeadId::ObjectInverseOf => b"ObjectInverseOf",
            HeadId::DataIntersectionOf => b"DataIntersectionOf",
            HeadId::DataUnionOf => b"DataUnionOf",
            HeadId::DataComplementOf => b"DataComplementOf",
            HeadId::DataOneOf => b"DataOneOf",
            HeadId::DatatypeRestriction => b"DatatypeRestriction",
            HeadId::Import => b"Import",
            HeadId::DLSafeRule => b"DLSafeRule",
            HeadId::TopObjectProperty => b"owl:topObjectProperty",
            HeadId::BottomObjectProperty => b"owl:bottomObjectProperty",
        }
    }

    /// The head with a name.
    pub fn named(name: &[u8]) -> Option<HeadId>
        ensures { result ≡ id_named name.now }
    {
        if let Some(id) = class_axiom(name) {
            return Some(id);
        }
        if let Some(id) = data_axiom(name) {
            return Some(id);
        }
        if let Some(id) = assertion(name) {
            return Some(id);
        }
        if let Some(id) = class_expression(name) {
            return Some(id);
        }
        if let Some(id) = data_range(name) {
            return Some(id);
        }
        other_name(name)
    }
}

// Axioms on classes and properties.
fn class_axiom(name: &[u8]) -> Option<HeadId>
    ensures { result ≡ first_id class_axioms name.now }
{
    if name == b"DisjointUnion".as_slice() {
        return Some(HeadId::DisjointUnion);
    }
    if name == b"ObjectPropertyRange".as_slice() {
        return Some(HeadId::ObjectPropertyRange);
    }
    if name == b"DisjointObjectProperties".as_slice() {
        return Some(HeadId::DisjointObjectProperties);
    }
    if name == b"InverseObjectProperties".as_slice() {
        return Some(HeadId::InverseObjectProperties);
    }
    if name == b"FunctionalObjectProperty".as_slice() {
        return Some(HeadId::FunctionalObjectProperty);
    }
    if name == b"InverseFunctionalObjectProperty".as_slice() {
        return Some(HeadId::InverseFunctionalObjectProperty);
    }
    if name == b"IrreflexiveObjectProperty".as_slice() {
        return Some(HeadId::IrreflexiveObjectProperty);
    }
    if name == b"SymmetricObjectProperty".as_slice() {
        return Some(HeadId::SymmetricObjectProperty);
    }
    if name == b"AsymmetricObjectProperty".as_slice() {
        return Some(HeadId::AsymmetricObjectProperty);
    }
    None
}

// Axioms on data properties and datatypes.
fn data_axiom(name: &[u8]) -> Option<HeadId>
    ensures { result ≡ first_id data_axioms name.now }
{
    if name == b"SubDataPropertyOf".as_slice() {
        return Some(HeadId::SubDataPropertyOf);
    }
    if name == b"EquivalentDataProperties".as_slice() {
        return Some(HeadId::EquivalentDataProperties);
    }
    if name == b"DisjointDataProperties".as_slice() {
        return Some(HeadId::DisjointDataProperties);
    }
    if name == b"DataPropertyDomain".as_slice() {
        return Some(HeadId::DataPropertyDomain);
    }
    if name == b"DataPropertyRange".as_slice() {
        return Some(HeadId::DataPropertyRange);
    }
    if name == b"FunctionalDataProperty".as_slice() {
        return Some(HeadId::FunctionalDataProperty);
    }
    if name == b"DatatypeDefinition".as_slice() {
        return Some(HeadId::DatatypeDefinition);
    }
    None
}

// Keys and assertions.
fn assertion(name: &[u8]) -> Option<HeadId>
    ensures { result ≡ first_id assertions name.now }
{
    if name == b"HasKey".as_slice() {
        return Some(HeadId::HasKey);
    }
    if name == b"SameIndividual".as_slice() {
        return Some(HeadId::SameIndividual);
    }
    if name == b"DifferentIndividuals".as_slice() {
        return Some(HeadId::DifferentIndividuals);
    }
    if name == b"ClassAssertion".as_slice() {
        return Some(HeadId::ClassAssertion);
    }
    if name == b"ObjectPropertyAssertion".as_slice() {
        return Some(HeadId::ObjectPropertyAssertion);
    }
    if name == b"NegativeObjectPropertyAssertion".as_slice() {
        return Some(HeadId::NegativeObjectPropertyAssertion);
    }
    if name == b"DataPropertyAssertion".as_slice() {
        return Some(HeadId::DataPropertyAssertion);
    }
    if name == b"NegativeDataPropertyAssertion".as_slice() {
        return Some(HeadId::NegativeDataPropertyAssertion);
    }
    None
}

// Class expressions.
fn class_expression(name: &[u8]) -> Option<HeadId>
    ensures { result ≡ first_id class_expressions name.now }
{
    if name == b"ObjectUnionOf".as_slice() {
        return Some(HeadId::ObjectUnionOf);
    }
    if name == b"ObjectComplementOf".as_slice() {
        return Some(HeadId::ObjectComplementOf);
    }
    if name == b"ObjectOneOf".as_slice() {
        return Some(HeadId::ObjectOneOf);
    }
    if name == b"ObjectAllValuesFrom".as_slice() {
        return Some(HeadId::ObjectAllValuesFrom);
    }
    if name == b"ObjectHasValue".as_slice() {
        return Some(HeadId::ObjectHasValue);
    }
    if name == b"ObjectHasSelf".as_slice() {
        return Some(HeadId::ObjectHasSelf);
    }
    if name == b"ObjectMinCardinality".as_slice() {
        return Some(HeadId::ObjectMinCardinality);
    }
    if name == b"ObjectMaxCardinality".as_slice() {
        return Some(HeadId::ObjectMaxCardinality);
    }
    if name == b"ObjectExactCardinality".as_slice() {
        return Some(HeadId::ObjectExactCardinality);
    }
    if name == b"DataSomeValuesFrom".as_slice() {
        return Some(HeadId::DataSomeValuesFrom);
    }
    if name == b"DataAllValuesFrom".as_slice() {
        return Some(HeadId::DataAllValuesFrom);
    }
    if name == b"DataHasValue".as_slice() {
        return Some(HeadId::DataHasValue);
    }
    if name == b"DataMinCardinality".as_slice() {
        return Some(HeadId::DataMinCardinality);
    }
    if name == b"DataMaxCardinality".as_slice() {
        return Some(HeadId::DataMaxCardinality);
    }
    if name == b"DataExactCardinality".as_slice() {
        return Some(HeadId::DataExactCardinality);
    }
    None
}

// Properties and data ranges.
fn data_range(name: &[u8]) -> Option<HeadId>
    ensures { result ≡ first_id data_ranges name.now }
{
    if name == b"ObjectInverseOf".as_slice() {
        return Some(HeadId::ObjectInverseOf);
    }
    if name == b"DataIntersectionOf".as_slice() {
        return Some(HeadId::DataIntersectionOf);
    }
    if name == b"DataUnionOf".as_slice() {
        return Some(HeadId::DataUnionOf);
    }
    if name == b"DataComplementOf".as_slice() {
        return Some(HeadId::DataComplementOf);
    }
    if name == b"DataOneOf".as_slice() {
        return Some(HeadId::DataOneOf);
    }
    if name == b"DatatypeRestriction".as_slice() {
        return Some(HeadId::DatatypeRestriction);
    }
    None
}

// Others.
fn other_name(name: &[u8]) -> Option<HeadId>
    ensures { result ≡ first_id other_names name.now }
{
    if name == b"Import".as_slice() {
        return Some(HeadId::Import);
    }
    if name == b"DLSafeRule".as_slice() {
        return Some(HeadId::DLSafeRule);
    }
    if name == b"owl:topObjectProperty".as_slice() {
        return Some(HeadId::TopObjectProperty);
    }
    if name == b"owl:bottomObjectProperty".as_slice() {
        return Some(HeadId::BottomObjectProperty);
    }
    None
}
