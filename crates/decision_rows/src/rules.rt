//! Documents that are incoherent only by one of the rules.

use crate::setting::made;
use derivation::Derivation;
use el_logic::Part;
use fact_table::Rule;
use saturate::{StartFault, start};
use std::alloc::Global;
use std::test::Fail;

const HEADER: &str = "subject_id\tpredicate_id\tobject_id\tconfidence\n";

// A rule, and axioms of which no derivation shows that A is empty without it.
static NEEDED: [(Rule, &str); 17] = [
    (Rule::Itself, "SubClassOf(:A owl:Nothing)"),
    (
        Rule::Top,
        "SubClassOf(:A ObjectSomeValuesFrom(:r :B)) \
SubClassOf(ObjectSomeValuesFrom(:r owl:Thing) owl:Nothing)",
    ),
    (
        Rule::Incl,
        "EquivalentClasses(:A :B ObjectIntersectionOf(:C owl:Nothing))",
    ),
    (
        Rule::Left,
        "SubClassOf(:A ObjectIntersectionOf(:B :C)) DisjointClasses(:A :B)",
    ),
    (
        Rule::Right,
        "SubClassOf(:A ObjectIntersectionOf(:B :C)) DisjointClasses(:A :C)",
    ),
    (
        Rule::Both,
        "SubClassOf(:A :B) SubClassOf(:A :C) \
SubClassOf(ObjectIntersectionOf(:B :C) owl:Nothing)",
    ),
    (
        Rule::Out,
        "SubClassOf(:A ObjectSomeValuesFrom(:r :B)) ObjectPropertyDomain(:r owl:Nothing)",
    ),
    (
        Rule::Into,
        "SubClassOf(:A ObjectSomeValuesFrom(:r :B)) SubClassOf(:B :C) \
DisjointClasses(:A ObjectSomeValuesFrom(:r :C))",
    ),
    (
        Rule::Void,
        "SubClassOf(:A ObjectSomeValuesFrom(:r ObjectIntersectionOf(:B :C))) \
DisjointClasses(:B :C)",
    ),
    (
        Rule::Role,
        "SubClassOf(:A ObjectSomeValuesFrom(:r :B)) SubObjectPropertyOf(:r :s) \
ObjectPropertyDomain(:s owl:Nothing)",
    ),
    (
        Rule::Role,
        "SubClassOf(:A ObjectSomeValuesFrom(:r :B)) EquivalentObjectProperties(:s :r) \
ObjectPropertyDomain(:s owl:Nothing)",
    ),
    (
        Rule::Chain,
        "SubClassOf(:A ObjectSomeValuesFrom(:r :B)) SubClassOf(:B ObjectSomeValuesFrom(:s :C)) \
SubObjectPropertyOf(ObjectPropertyChain(:r :s) :t) ObjectPropertyDomain(:t owl:Nothing)",
    ),
    (
        Rule::Chain,
        "SubClassOf(:A ObjectSomeValuesFrom(:r :B)) SubClassOf(:B ObjectSomeValuesFrom(:r :C)) \
TransitiveObjectProperty(:r) DisjointClasses(:A ObjectSomeValuesFrom(:r :C))",
    ),
    (
        Rule::Refl,
        "DisjointClasses(:A ObjectSomeValuesFrom(:r :A)) ReflexiveObjectProperty(:r)",
    ),
    (
        Rule::Refl,
        "DisjointClasses(:A :B) ReflexiveObjectProperty(:r) ObjectPropertyDomain(:r :B)",
    ),
    (
        Rule::Dom,
        "SubClassOf(:A ObjectSomeValuesFrom(:r :B)) ObjectPropertyDomain(:r :C) \
DisjointClasses(:C :A)",
    ),
    (
        Rule::Disj,
        "SubClassOf(:A :B) SubClassOf(:A :C) DisjointClasses(:B :D :C)",
    ),
];

fn is_used(rule: Rule, derivation: &Derivation) -> bool {
    for step in derivation.as_slice() {
        if step.rule == rule {
            return true;
        }
    }
    false
}

// Whether LEFT with these axioms leaves its first class empty, by this rule.
fn is_needed(alloc: Global, rule: Rule, axioms: &str) -> Result<bool, Fail> {
    let left = format!(in alloc; "Prefix(:=<http://l/>) Ontology({axioms})")?;
    let loaded = made(alloc, left.as_str(), "Ontology()", HEADER)?;
    match start(alloc, &loaded.case) {
        Err(
            StartFault::Incoherent {
                part,
                class,
                derivation,
            },
        ) => Ok(part == Part::Left && class == 2 && is_used(rule, &derivation)),
        _ => Ok(false),
    }
}

#[test]
fn each_rule_is_needed(rt: HostRuntime) -> Result<(), Fail> {
    let alloc = rt.alloc();
    for (rule, axioms) in &NEEDED {
        let needed = is_needed(alloc, *rule, axioms)?;
        assert!(rt; needed, "{axioms}");
    }
    Ok(())
}
