//! Documents that are incoherent without rows.

use crate::setting::made;
use el_logic::Part;
use saturate::{StartFault, start};
use std::test::Fail;

const HEADER: &str =
    "#curie_map:\n#  l: http://l/\nsubject_id\tpredicate_id\tobject_id\tconfidence\n";

#[test]
fn first_empty_classes(rt: HostRuntime) -> Result<(), Fail> {
    let alloc = rt.alloc();
    let none = "Ontology(SubClassOf(owl:Thing owl:Nothing))";
    let below = "Ontology(SubClassOf(<a> <b>))";
    let apart = "Ontology(DisjointClasses(<a> <b>))";
    let both = "Ontology(SubClassOf(<c> <a>) SubClassOf(<c> <b>) DisjointClasses(<a> <b>))";
    for (left, right, first, node) in [
        (none, "Ontology()", Part::Left, 0),
        ("Ontology()", none, Part::Right, 0),
        (below, apart, Part::Both, 2),
        (both, none, Part::Left, 2),
        (below, both, Part::Right, 4),
    ] {
        let loaded = made(alloc, left, right, HEADER)?;
        match start(alloc, &loaded.case) {
            Err(
                StartFault::Incoherent {
                    part,
                    class,
                    derivation,
                },
            ) => {
                assert!(rt; part == first, "{left} {right}");
                assert!(rt; class == node, "{left} {right}");
                assert!(rt; derivation.len() > 0, "{left} {right}");
            }
            _ => return Err("coherent".into()),
        }
    }
    Ok(())
}
