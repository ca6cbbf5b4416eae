//! Tables that are repaired.

use crate::setting::{APART, BELOW, HEADER, ROWS, TWO_OF_THREE, X_ALONE, run};
use std::test::Fail;

const CHAINED: &str = "Prefix(:=<http://l/>) Ontology(\
SubClassOf(:A ObjectSomeValuesFrom(:r :B)) \
SubObjectPropertyOf(ObjectPropertyChain(:r :s) :t) \
DisjointClasses(:A ObjectSomeValuesFrom(:t :C)))";

const LED: &str = "Prefix(:=<http://r/>) Ontology(SubClassOf(:X ObjectSomeValuesFrom(:u :Y)))";

const TWICE: &str = "Prefix(:=<http://l/>) Ontology(DisjointClasses(:A :B) DisjointClasses(:B :C))";

const WHOLE: &str = "Prefix(:=<http://l/>) Ontology(\
ObjectPropertyDomain(:hasPart :Whole) DisjointClasses(:Whole :Atom))";

const HAS: &str = "Prefix(:=<http://r/>) Ontology(SubClassOf(:N ObjectSomeValuesFrom(:has :M)))";

// A case: its name, LEFT, RIGHT, the rows, those that are kept, and the summary without its
// beginning and its end.
type Case = (
    &'static str,
    &'static str,
    &'static str,
    &'static str,
    &'static str,
    &'static str,
);

const CASES: [Case; 14] = [
    (
        "whole path",
        APART,
        BELOW,
        ROWS,
        "l:A\tskos:exactMatch\tr:X\t0.9\nl:B\tskos:broadMatch\tr:Y\t0.7\n",
        "rows 3 kept 2 removed 1 inert 0",
    ),
    (
        "empty",
        APART,
        BELOW,
        "",
        "",
        "rows 0 kept 0 removed 0 inert 0",
    ),
    (
        "tie by value",
        APART,
        X_ALONE,
        "r:X\tskos:broadMatch\tl:A\t0.850\nr:X\tskos:broadMatch\tl:B\t0.85\n",
        "r:X\tskos:broadMatch\tl:A\t0.850\n",
        "rows 2 kept 1 removed 1 inert 0",
    ),
    (
        "tie turned round",
        APART,
        X_ALONE,
        "r:X\tskos:broadMatch\tl:B\t0.85\nr:X\tskos:broadMatch\tl:A\t0.850\n",
        "r:X\tskos:broadMatch\tl:B\t0.85\n",
        "rows 2 kept 1 removed 1 inert 0",
    ),
    (
        "repeat",
        APART,
        X_ALONE,
        "r:X\tskos:broadMatch\tl:A\t0.9\nr:X\tskos:broadMatch\tl:B\t0.8\n\
r:X\tskos:broadMatch\tl:B\t0.8\n",
        "r:X\tskos:broadMatch\tl:A\t0.9\n",
        "rows 3 kept 1 removed 2 inert 0",
    ),
    (
        "chain of conflicts",
        TWICE,
        X_ALONE,
        "r:X\tskos:broadMatch\tl:A\t0.9\nr:X\tskos:broadMatch\tl:B\t0.8\n\
r:X\tskos:broadMatch\tl:C\t0.7\n",
        "r:X\tskos:broadMatch\tl:A\t0.9\nr:X\tskos:broadMatch\tl:C\t0.7\n",
        "rows 3 kept 2 removed 1 inert 0",
    ),
    (
        "lower row first in the file",
        APART,
        X_ALONE,
        "r:X\tskos:broadMatch\tl:B\t0.8\nr:X\tskos:broadMatch\tl:A\t0.9\n",
        "r:X\tskos:broadMatch\tl:A\t0.9\n",
        "rows 2 kept 1 removed 1 inert 0",
    ),
    (
        "alone",
        "Prefix(:=<http://l/>) Ontology(Declaration(Class(:A)))",
        "Ontology()",
        "l:A\tskos:broadMatch\towl:Nothing\t\n",
        "",
        "rows 1 kept 0 removed 1 inert 0",
    ),
    (
        "three rows",
        CHAINED,
        LED,
        "l:B\tskos:broadMatch\tr:X\t0.9\nr:u\trdfs:subPropertyOf\tl:s\t0.8\n\
r:Y\tskos:broadMatch\tl:C\t0.7\n",
        "l:B\tskos:broadMatch\tr:X\t0.9\nr:u\trdfs:subPropertyOf\tl:s\t0.8\n",
        "rows 3 kept 2 removed 1 inert 0",
    ),
    (
        "without the last",
        CHAINED,
        LED,
        "l:B\tskos:broadMatch\tr:X\t0.9\nr:u\trdfs:subPropertyOf\tl:s\t0.8\n",
        "l:B\tskos:broadMatch\tr:X\t0.9\nr:u\trdfs:subPropertyOf\tl:s\t0.8\n",
        "rows 2 kept 2 removed 0 inert 0",
    ),
    (
        "without the second",
        CHAINED,
        LED,
        "l:B\tskos:broadMatch\tr:X\t0.9\nr:Y\tskos:broadMatch\tl:C\t0.7\n",
        "l:B\tskos:broadMatch\tr:X\t0.9\nr:Y\tskos:broadMatch\tl:C\t0.7\n",
        "rows 2 kept 2 removed 0 inert 0",
    ),
    (
        "without the first",
        CHAINED,
        LED,
        "r:u\trdfs:subPropertyOf\tl:s\t0.8\nr:Y\tskos:broadMatch\tl:C\t0.7\n",
        "r:u\trdfs:subPropertyOf\tl:s\t0.8\nr:Y\tskos:broadMatch\tl:C\t0.7\n",
        "rows 2 kept 2 removed 0 inert 0",
    ),
    (
        "domain",
        WHOLE,
        HAS,
        "l:Atom\tskos:exactMatch\tr:N\t0.9\nl:hasPart\tskos:exactMatch\tr:has\t0.8\n",
        "l:Atom\tskos:exactMatch\tr:N\t0.9\n",
        "rows 2 kept 1 removed 1 inert 0",
    ),
    (
        "no class",
        APART,
        X_ALONE,
        "r:X\tskos:broadMatch\tl:A\t0.9\nr:X\tskos:broadMatch\tl:Q\t0.8\n\
r:X\tskos:broadMatch\tl:B\t0.7\n",
        "r:X\tskos:broadMatch\tl:A\t0.9\nr:X\tskos:broadMatch\tl:Q\t0.8\n",
        "rows 3 kept 2 removed 1 inert 1",
    ),
];

#[test]
fn repairs_the_worked_tables(rt: HostRuntime) -> Result<(), Fail> {
    let alloc = rt.alloc();
    for (name, left, right, rows, kept, summary) in CASES {
        let map = format!(in alloc; "{HEADER}{rows}")?;
        let wanted = format!(in alloc; "{HEADER}{kept}")?;
        let line = format!(in alloc; "alod: {summary} omitted 0\n")?;
        let ran = run(&rt, alloc, left, right, map.as_str())?;
        assert!(rt; ran.number == 0, "{name}");
        assert!(rt; ran.line.as_slice() == line.as_bytes(), "{name}");
        assert!(rt; ran.out.as_slice() == wanted.as_bytes(), "{name}");
    }
    Ok(())
}

// Tables that are not of the usual header: their name, LEFT, RIGHT, MAP, OUT and the summary.
const TABLES: [Case; 3] = [
    (
        "inert",
        APART,
        X_ALONE,
        "#curie_map:\n#  l: http://l/\n#  r: http://r/\n\
subject_id\tpredicate_id\tobject_id\tconfidence\tpredicate_modifier\n\
r:X\tskos:broadMatch\tl:A\t0.9\t\nr:X\tskos:broadMatch\tl:B\t0.8\tNot\n\
r:X\tskos:closeMatch\tl:B\t0.7\t\nr:X\tskos:broadMatch\tl:Q\t0.6\t\n",
        "#curie_map:\n#  l: http://l/\n#  r: http://r/\n\
subject_id\tpredicate_id\tobject_id\tconfidence\tpredicate_modifier\n\
r:X\tskos:broadMatch\tl:A\t0.9\t\nr:X\tskos:broadMatch\tl:B\t0.8\tNot\n\
r:X\tskos:closeMatch\tl:B\t0.7\t\nr:X\tskos:broadMatch\tl:Q\t0.6\t\n",
        "alod: rows 4 kept 4 removed 0 inert 3 omitted 0\n",
    ),
    (
        "annotations, comments and quoted fields",
        "Prefix(:=<http://l/>)\nPrefix(owl:=<http://www.w3.org/2002/07/owl#>)\n\
Prefix(xml:=<http://www.w3.org/XML/1998/namespace>)\n\nOntology(<http://l/onto>\n\
<http://l/onto/1.0>\nAnnotation(rdfs:comment \"bones #1 (draft)\"@en)\n\n\
Declaration(Class(:A))\nDeclaration(Class(:B))\nDeclaration(ObjectProperty(:partOf))\n\n\
############################\n#   Classes\n############################\n\n\
# Class: :A (first)\n\nAnnotationAssertion(rdfs:label :A \"A \\\"one\\\"\")\n\
SubClassOf(Annotation(rdfs:comment \"x\") :A ObjectSomeValuesFrom(:partOf :B))\n\
DisjointClasses(:A :B)\n)\n",
        BELOW,
        "# curie_map:\n#   l: http://l/\n#   r: \"http://r/\"\n\
# license: \"https://creativecommons.org/publicdomain/zero/1.0/\"\n\
# mapping_set_id: https://example.org/sets/1\n\
subject_id\tsubject_label\tpredicate_id\tobject_id\tmapping_justification\tconfidence\n\
l:A\t\"A \"\"one\"\"\"\tskos:exactMatch\tr:X\tsemapv:LexicalMatching\t0.85\n",
        "# curie_map:\n#   l: http://l/\n#   r: \"http://r/\"\n\
# license: \"https://creativecommons.org/publicdomain/zero/1.0/\"\n\
# mapping_set_id: https://example.org/sets/1\n\
subject_id\tsubject_label\tpredicate_id\tobject_id\tmapping_justification\tconfidence\n\
l:A\t\"A \"\"one\"\"\"\tskos:exactMatch\tr:X\tsemapv:LexicalMatching\t0.85\n",
        "alod: rows 1 kept 1 removed 0 inert 0 omitted 0\n",
    ),
    (
        "line ends",
        APART,
        BELOW,
        "\u{feff}#curie_map:\r\n#  l: http://l/\r\n#  r: http://r/\r\n\
subject_id\tpredicate_id\tobject_id\tconfidence\r\nl:A\tskos:exactMatch\tr:X\t0.9\r\n\
l:B\tskos:exactMatch\tr:Y\t0.8\r\nl:B\tskos:broadMatch\tr:Y\t0.7\r\n",
        "#curie_map:\r\n#  l: http://l/\r\n#  r: http://r/\r\n\
subject_id\tpredicate_id\tobject_id\tconfidence\nl:A\tskos:exactMatch\tr:X\t0.9\n\
l:B\tskos:broadMatch\tr:Y\t0.7\n",
        TWO_OF_THREE,
    ),
];

#[test]
fn repairs_tables_of_other_headers(rt: HostRuntime) -> Result<(), Fail> {
    let alloc = rt.alloc();
    for (name, left, right, map, wanted, line) in TABLES {
        let ran = run(&rt, alloc, left, right, map)?;
        assert!(rt; ran.number == 0, "{name}");
        assert!(rt; ran.line.as_slice() == line.as_bytes(), "{name}");
        assert!(rt; ran.out.as_slice() == wanted.as_bytes(), "{name}");
    }
    Ok(())
}
