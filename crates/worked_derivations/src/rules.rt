//! One derivation with each rule, and what is answered if a step of it names something else.

use crate::setting::{HEADER, Line, checked, made};
use derivation::BadStep;
use el_logic::Part;
use fact_table::{Fact, Rule, Source};
use std::test::Fail;

// The nodes of the classes are A 2, B 3, C 4, D 5 and E 6. Then come the intersection 7 and the
// restrictions 8 and 9. The roles are r 0 and s 1.
const LEFT: &str = "Prefix(:=<http://l/>) Ontology(
SubClassOf(:A ObjectIntersectionOf(:B :C))
SubClassOf(:B ObjectSomeValuesFrom(:r :C))
SubObjectPropertyOf(:r :s)
TransitiveObjectProperty(:s)
ReflexiveObjectProperty(:s)
ObjectPropertyDomain(:s :D)
DisjointClasses(:D :C)
SubClassOf(:E ObjectSomeValuesFrom(:r :A)))";

const NONE: Source = Source::Nothing;

const EACH_RULE: [Line; 19] = [
    (Fact::Sub(2, 2), Rule::Itself, 0, 0, NONE),
    (Fact::Sub(2, 0), Rule::Top, 0, 0, NONE),
    (Fact::Sub(2, 7), Rule::Incl, 1, 0, Source::Left(1)),
    (Fact::Sub(2, 3), Rule::Left, 3, 0, NONE),
    (Fact::Sub(2, 4), Rule::Right, 3, 0, NONE),
    (Fact::Sub(2, 7), Rule::Both, 4, 5, NONE),
    (Fact::Sub(2, 8), Rule::Incl, 4, 0, Source::Left(2)),
    (Fact::Link(2, 0, 4), Rule::Out, 7, 0, NONE),
    (Fact::Sub(4, 4), Rule::Itself, 0, 0, NONE),
    (Fact::Sub(2, 8), Rule::Into, 8, 9, NONE),
    (Fact::Link(2, 1, 4), Rule::Role, 8, 0, Source::Left(3)),
    (Fact::Link(4, 1, 4), Rule::Refl, 0, 0, Source::Left(5)),
    (Fact::Link(2, 1, 4), Rule::Chain, 11, 12, Source::Left(4)),
    (Fact::Sub(2, 5), Rule::Dom, 11, 0, Source::Left(6)),
    (Fact::Sub(2, 1), Rule::Disj, 14, 5, Source::Left(7)),
    (Fact::Sub(6, 6), Rule::Itself, 0, 0, NONE),
    (Fact::Sub(6, 9), Rule::Incl, 16, 0, Source::Left(8)),
    (Fact::Link(6, 0, 2), Rule::Out, 17, 0, NONE),
    (Fact::Sub(6, 1), Rule::Void, 18, 15, NONE),
];

// Each premise, and each axiom, is exchanged for one that the rule does not start from: the second
// step says that A is within owl:Thing, and the seventh axiom is no inclusion. Where a rule starts
// from nothing, something is named.
fn turned(line: Line, what: usize) -> Line {
    let (fact, rule, first, second, source) = line;
    match what {
        0 => (fact, rule, 2, second, source),
        1 => (fact, rule, first, 2, source),
        2 => (fact, rule, first, second, another(source)),
        3 => (fact, rule, 0, second, source),
        _ => (fact, rule, first, second, Source::Right(1)),
    }
}

fn another(source: Source) -> Source {
    match source {
        Source::Left(7) => Source::Left(1),
        _ => Source::Left(7),
    }
}

#[test]
fn each_rule_gives_its_fact(rt: HostRuntime) -> Result<(), Fail> {
    let alloc = rt.alloc();
    let loaded = made(alloc, LEFT, "Ontology()", HEADER)?;
    for (part, wanted) in [(Part::Left, Ok(())), (Part::Right, Err(BadStep::Step(3)))] {
        let answer = checked(alloc, &loaded.case, part, &[], &EACH_RULE)?;
        assert_eq!(rt; answer, wanted, "{part:?}");
    }
    Ok(())
}

#[test]
fn each_premise_is_needed(rt: HostRuntime) -> Result<(), Fail> {
    let alloc = rt.alloc();
    let loaded = made(alloc, LEFT, "Ontology()", HEADER)?;
    for (place, line) in EACH_RULE.iter().enumerate() {
        for what in 0..5 {
            let other = turned(*line, what);
            if other == *line {
                continue;
            }
            let mut lines = Vec::from_slice(alloc, &EACH_RULE)?;
            if let Some(held) = lines.get_mut(place) {
                *held = other;
            }
            let answer = checked(alloc, &loaded.case, Part::Left, &[], lines.as_slice())?;
            let wanted = Err(BadStep::Step(place + 1));
            assert_eq!(rt; answer, wanted, "step {place} with {what} exchanged");
        }
    }
    Ok(())
}
