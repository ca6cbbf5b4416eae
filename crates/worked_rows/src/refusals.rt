//! Ontologies that are refused.

use crate::setting::{APART, BELOW, HEADER, run, run_within};
use std::test::Fail;
use text_names::Limits;

// LEFT, RIGHT, the status and the printed line; the table has no rows.
const CASES: [(&str, &str, u8, &str); 17] = [
    (
        "Ontology(SubClassOf(owl:Thing owl:Nothing))",
        "Ontology()",
        5,
        "alod: LEFT incoherent: <http://www.w3.org/2002/07/owl#Thing>\n",
    ),
    (
        "Ontology(SubClassOf(<http://l/A> <http://l/B>))",
        "Ontology(DisjointClasses(<http://l/A> <http://l/B>))",
        5,
        "alod: LEFT and RIGHT incoherent: <http://l/A>\n",
    ),
    (
        APART,
        "Prefix(:=<http://r/>) Ontology(SubClassOf(:X :Y) DisjointClasses(:Y :Y))",
        5,
        "alod: RIGHT incoherent: <http://r/X>\n",
    ),
    (
        "Ontology(SubClassOf(",
        BELOW,
        3,
        "alod: LEFT:1:9: opening bracket without partner\n",
    ),
    (
        "Ontology())",
        BELOW,
        3,
        "alod: LEFT:1:11: closing bracket without partner\n",
    ),
    ("", BELOW, 3, "alod: LEFT:1:1: no Ontology term\n"),
    (
        APART,
        "Ontology(",
        3,
        "alod: RIGHT:1:9: opening bracket without partner\n",
    ),
    (
        "Ontology(",
        "Ontology())",
        3,
        "alod: LEFT:1:9: opening bracket without partner\n",
    ),
    (
        "Ontology(ObjectPropertyRange(<r> <c>))",
        BELOW,
        4,
        "alod: LEFT:1:10: not in the profile: ObjectPropertyRange\n",
    ),
    (
        APART,
        "Ontology(Import(<http://r/>))",
        4,
        "alod: RIGHT:1:10: not in the profile: Import\n",
    ),
    (
        "Ontology(\n  SubClassOf(:A :B))",
        BELOW,
        3,
        "alod: LEFT:2:14: unknown prefix\n",
    ),
    (
        "Ontology(<a b>)",
        BELOW,
        3,
        "alod: LEFT:1:10: no token begins here\n",
    ),
    (
        "Ontology(\"#)",
        BELOW,
        3,
        "alod: LEFT:1:10: no token begins here\n",
    ),
    (
        "Ontology(SubClassOf(<a>))",
        BELOW,
        3,
        "alod: LEFT:1:10: wrong items for this head\n",
    ),
    (
        "Ontology() Ontology()",
        BELOW,
        3,
        "alod: LEFT:1:12: unexpected item\n",
    ),
    (
        "Prefix(a:=<x>) Prefix(a:=<y>) Ontology()",
        BELOW,
        3,
        "alod: LEFT:1:16: prefix declared with another IRI\n",
    ),
    (
        "Ontology(SubClassOf(<a> ObjectUnionOf(<b> <c>)))",
        "Ontology(",
        4,
        "alod: LEFT:1:25: not in the profile: ObjectUnionOf\n",
    ),
];

#[test]
fn refuses_ontologies(rt: HostRuntime) -> Result<(), Fail> {
    let alloc = rt.alloc();
    for (left, right, number, line) in CASES {
        let ran = run(&rt, alloc, left, right, HEADER)?;
        assert!(rt; ran.number == number, "{left} {right}");
        assert!(rt; ran.line.as_slice() == line.as_bytes(), "{left} {right}");
        assert!(rt; ran.out.is_empty(), "{left} {right}");
    }
    Ok(())
}

#[test]
fn refuses_what_is_no_text(rt: HostRuntime) -> Result<(), Fail> {
    let limits = Limits::standard();
    let ran = run_within(
        &rt,
        rt.alloc(),
        &[255],
        b"Ontology()",
        HEADER.as_bytes(),
        &limits,
    )?;
    assert!(rt; ran.number == 3);
    assert!(rt; ran.line.as_slice() == b"alod: LEFT:1:1: not UTF-8\n".as_slice());
    assert!(rt; ran.out.is_empty());
    Ok(())
}
