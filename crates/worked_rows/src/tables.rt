//! Tables that are refused, and confidences.

use crate::setting::{APART, HEADER, X_ALONE, run};
use std::test::Fail;

// MAP, and the printed line.
const CASES: [(&str, &str); 9] = [
    ("", "alod: MAP: no columns\n"),
    ("#curie_map: {}", "alod: MAP: no columns\n"),
    (
        "#curie_map:\n#  l: http://l/\n#  r: http://r/\n#curie_map: {}\n\
subject_id\tpredicate_id\tobject_id\tconfidence\n",
        "alod: MAP: line 4: curie_map form\n",
    ),
    (
        "#curie_map:\n#  l: http://l/\n#  r: http://r/\n#  l: http://m/\n\
subject_id\tpredicate_id\tobject_id\tconfidence\n",
        "alod: MAP: line 4: prefix again\n",
    ),
    (
        "subject_id\tpredicate_id\tobject_id\tconfidence\tconfidence\n",
        "alod: MAP: column confidence twice\n",
    ),
    (
        "subject_id\tobject_id\tconfidence\n",
        "alod: MAP: no column predicate_id\n",
    ),
    (
        "subject_id\tpredicate_id\tobject_id\tconfidence\n\t\t\n",
        "alod: MAP: row 1: number of fields\n",
    ),
    (
        "#curie_map:\n#  l: http://l/\nsubject_id\tpredicate_id\tobject_id\tconfidence\n\
q:Z\tskos:exactMatch\tl:A\t0.5\n",
        "alod: MAP: row 1: subject_id\n",
    ),
    (
        "#curie_map:\n#  l: http://l/\nsubject_id\tpredicate_id\tobject_id\tconfidence\n\
l:A\tskos:exactMatch\tl:A\t0.5\nl:A\tskos:exactMatch\tl:A\t2\n",
        "alod: MAP: row 2: confidence\n",
    ),
];

#[test]
fn refuses_tables(rt: HostRuntime) -> Result<(), Fail> {
    let alloc = rt.alloc();
    for (map, line) in CASES {
        let ran = run(&rt, alloc, APART, X_ALONE, map)?;
        assert!(rt; ran.number == 3, "{map}");
        assert!(rt; ran.line.as_slice() == line.as_bytes(), "{map}");
        assert!(rt; ran.out.is_empty(), "{map}");
    }
    Ok(())
}

const CONFIDENCES: [(&str, bool); 10] = [
    ("1e-36", true),
    ("10e-1", true),
    (".5", true),
    ("0.500", true),
    ("0e-99", true),
    ("1e-37", false),
    ("1.01", false),
    ("+0.5", false),
    ("nan", false),
    ("e5", false),
];

#[test]
fn reads_confidences(rt: HostRuntime) -> Result<(), Fail> {
    let alloc = rt.alloc();
    let kept = "alod: rows 1 kept 1 removed 0 inert 0 omitted 0\n";
    let refused = "alod: MAP: row 1: confidence\n";
    for (confidence, reads) in CONFIDENCES {
        let map = format!(in alloc; "{HEADER}r:X\tskos:broadMatch\tl:A\t{confidence}\n")?;
        let ran = run(&rt, alloc, APART, X_ALONE, map.as_str())?;
        let (number, line) = if reads { (0, kept) } else { (3, refused) };
        assert!(rt; ran.number == number, "{confidence}");
        assert!(rt; ran.line.as_slice() == line.as_bytes(), "{confidence}");
    }
    Ok(())
}
