//! Texts with annotations, comments and quoted fields, and a table with inert rows.

use crate::setting::{chosen, made};
use saturate::start;
use std::test::Fail;

const LEFT: &str = "Prefix(:=<http://l/>)
Prefix(owl:=<http://www.w3.org/2002/07/owl#>)
Prefix(xml:=<http://www.w3.org/XML/1998/namespace>)

Ontology(<http://l/onto>
<http://l/onto/1.0>
Annotation(rdfs:comment \"bones #1 (draft)\"@en)

Declaration(Class(:A))
Declaration(Class(:B))
Declaration(ObjectProperty(:partOf))

############################
#   Classes
############################

# Class: :A (first)

AnnotationAssertion(rdfs:label :A \"A \\\"one\\\"\")
SubClassOf(Annotation(rdfs:comment \"x\") :A ObjectSomeValuesFrom(:partOf :B))
DisjointClasses(:A :B)
)
";

const RIGHT: &str = "Prefix(:=<http://r/>) Ontology(SubClassOf(:X :Y))";

const MAP: &str = "# curie_map:
#   l: http://l/
#   r: \"http://r/\"
# license: \"https://creativecommons.org/publicdomain/zero/1.0/\"
# mapping_set_id: https://example.org/sets/1
subject_id\tsubject_label\tpredicate_id\tobject_id\tmapping_justification\tconfidence
l:A\t\"A \"\"one\"\"\"\tskos:exactMatch\tr:X\tsemapv:LexicalMatching\t0.85
";

const SMALL: &str = "Prefix(:=<http://l/>) Ontology(DisjointClasses(:A :B))";

const INERT: &str = "#curie_map:
#  l: http://l/
#  r: http://r/
subject_id\tpredicate_id\tobject_id\tconfidence\tpredicate_modifier
r:X\tskos:broadMatch\tl:A\t0.9\t
r:X\tskos:broadMatch\tl:B\t0.8\tNot
r:X\tskos:closeMatch\tl:B\t0.7\t
r:X\tskos:broadMatch\tl:Q\t0.6\t
";

#[test]
fn all_rows_are_kept(rt: HostRuntime) -> Result<(), Fail> {
    let alloc = rt.alloc();
    for (left, map, count) in [(LEFT, MAP, 1), (SMALL, INERT, 4)] {
        let loaded = made(alloc, left, RIGHT, map)?;
        match start(alloc, &loaded.case) {
            Ok(first) => {
                let table = chosen(alloc, first)?;
                assert!(rt; table.ranks().len() == count, "{map}");
            }
            Err(_) => return Err("incoherent".into()),
        }
    }
    Ok(())
}
