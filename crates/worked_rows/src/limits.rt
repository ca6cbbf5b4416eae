//! Limits that are met, and passed by one.

use crate::setting::{APART, BELOW, HEADER, ROWS, TWO_OF_THREE, run_within};
use std::test::Fail;
use text_names::Limits;

const CHAINED: &str = "Prefix(:=<http://l/>) Ontology(\
SubClassOf(:A ObjectSomeValuesFrom(:r :B)) \
SubObjectPropertyOf(ObjectPropertyChain(:r :s) :t) \
DisjointClasses(:A ObjectSomeValuesFrom(:t :C)))";

const LED: &str = "Prefix(:=<http://r/>) Ontology(SubClassOf(:X ObjectSomeValuesFrom(:u :Y)))";

const NESTED: &str =
    "Ontology(SubClassOf(<a> ObjectSomeValuesFrom(<r> ObjectSomeValuesFrom(<r> <b>))))";

const DEEPER: &str = "Ontology(SubClassOf(<a> \
ObjectSomeValuesFrom(<r> ObjectSomeValuesFrom(<r> ObjectSomeValuesFrom(<r> <b>)))))";

const NO_ROWS: &str = "alod: rows 0 kept 0 removed 0 inert 0 omitted 0\n";

// The limits of a case: all others are the standard ones.
fn limits_of(kind: &str, most: u32) -> Limits {
    let mut limits = Limits::standard();
    match kind {
        "bytes" => limits.file_bytes = u64::from(most),
        "depth" => limits.depth = most,
        "classes" => limits.classes = most,
        "properties" => limits.properties = most,
        "rows" => limits.rows = most,
        "nodes" => limits.nodes = most,
        "roles" => limits.roles = most,
        _ => {}
    }
    limits
}

// What is limited and by how much, LEFT, RIGHT, the rows, the status and the printed line.
const CASES: [(&str, u32, &str, &str, &str, u8, &str); 13] = [
    ("nodes", 6, APART, BELOW, ROWS, 0, TWO_OF_THREE),
    ("nodes", 5, APART, BELOW, ROWS, 6, "alod: limit: nodes\n"),
    ("rows", 3, APART, BELOW, ROWS, 0, TWO_OF_THREE),
    ("rows", 2, APART, BELOW, ROWS, 6, "alod: limit: rows\n"),
    ("bytes", 53, APART, "", "", 6, "alod: limit: LEFT bytes\n"),
    ("bytes", 54, APART, "", "", 6, "alod: limit: MAP bytes\n"),
    ("classes", 4, APART, BELOW, ROWS, 0, TWO_OF_THREE),
    (
        "classes",
        3,
        APART,
        BELOW,
        ROWS,
        6,
        "alod: limit: RIGHT classes\n",
    ),
    (
        "classes",
        1,
        APART,
        BELOW,
        ROWS,
        6,
        "alod: limit: LEFT classes\n",
    ),
    ("roles", 4, CHAINED, LED, "", 0, NO_ROWS),
    ("roles", 3, CHAINED, LED, "", 6, "alod: limit: roles\n"),
    ("depth", 4, NESTED, BELOW, "", 0, NO_ROWS),
    (
        "depth",
        4,
        DEEPER,
        BELOW,
        "",
        6,
        "alod: limit: LEFT depth\n",
    ),
];

#[test]
fn keeps_to_limits(rt: HostRuntime) -> Result<(), Fail> {
    let alloc = rt.alloc();
    for (kind, most, left, right, rows, number, line) in CASES {
        let limits = limits_of(kind, most);
        let map = format!(in alloc; "{HEADER}{rows}")?;
        let (left, right) = (left.as_bytes(), right.as_bytes());
        let ran = run_within(&rt, alloc, left, right, map.as_bytes(), &limits)?;
        assert!(rt; ran.number == number, "{kind} {most}");
        assert!(rt; ran.line.as_slice() == line.as_bytes(), "{kind} {most}");
    }
    Ok(())
}
