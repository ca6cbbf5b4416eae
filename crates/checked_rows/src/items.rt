//! Each item of evidence that fails, with what is printed.

use crate::setting::{APART, BELOW, Files, HEADER, NAMES, ROWS, SHOWN, answers, changed};
use std::alloc::Global;
use std::test::Fail;

// One row, which goes.
const ALONE: &str = "l:A\tskos:broadMatch\towl:Nothing\t\n";

const EVIDENCE: &str = "alod evidence 1\ndiagnosis\nomitted 0\nnodes 3\ntop\nbottom\n\
class <http://l/A>\nroles 0\nremoved 1\nrow 1 steps 2\nsub 2 2 self\nsub 2 1 incl 1 row 1 1\n\
model 1\nclass 2 0\njournal 3\n0 front 0 0\n0 no 0 0 marked\n0 front done\nend\n";

// Whether OUT is MAP, a part of the evidence and what stands in its place, and what is printed
// after `alodcheck: no: `.
const CASES: [(bool, &str, &str, &str); 23] = [
    (false, "evidence 1\n", "evidence 9\n", "evidence version"),
    (false, "nodes 3\n", "nodes 4\n", "evidence line 8"),
    (
        false,
        "0 no 0 0 marked\n0 front done\nend\n",
        "",
        "evidence ends in the section of line 15",
    ),
    (false, "\nend\n", "\nend", "evidence line 19"),
    (false, "diagnosis\n", "refusal both\n", "evidence line 9"),
    (
        false,
        "omitted 0\n",
        "omitted 1\nleft 1 10 Import\n",
        "omitted axioms",
    ),
    (false, "l/A>", "l/B>", "nodes"),
    (false, "roles 0\n", "roles 1\nproperty <p>\n", "roles"),
    (false, "row 1 steps", "row 2 steps", "no row 2"),
    (false, "row 1 steps", "row 0 steps", "no row 0"),
    (
        true,
        "removed 1\n",
        "removed 1\n",
        "OUT is not the repaired table",
    ),
    (
        false,
        "incl 1 row 1 1\n",
        "incl 2 row 1 1\n",
        "row 1 step 2",
    ),
    (false, "row 1 1\nmodel", "row 2 1\nmodel", "row 1 step 2"),
    (
        false,
        "steps 2\nsub 2 2 self\nsub 2 1 incl 1 row 1 1\n",
        "steps 1\nsub 2 2 self\n",
        "row 1 shows no empty class",
    ),
    (false, "class 2 0\n", "class 2 1\n", "model form"),
    (false, "class 2 0\n", "", "model form"),
    (
        false,
        "class 2 0\n",
        "class 2\n",
        "class <http://l/A> has no member",
    ),
    (
        true,
        "removed 1\nrow 1 steps 2\nsub 2 2 self\nsub 2 1 incl 1 row 1 1\n",
        "removed 0\n",
        "axiom row 1 1",
    ),
    (false, "marked\n", "late\n", "journal entry 2"),
    (
        false,
        "journal 3\n0 front 0 0\n0 no 0 0 marked\n",
        "journal 1\n",
        "journal entry 1",
    ),
    (
        false,
        "journal 3\n0 front 0 0\n0 no 0 0 marked\n0 front done\n",
        "journal 1\n0 front 0 0\n",
        "journal end",
    ),
    // A later item that fails as well is not told.
    (
        false,
        "class 2 0\njournal 3\n0 front 0 0\n0 no 0 0 marked\n",
        "class 2 1\njournal 3\n0 front 0 0\n0 no 0 0 late\n",
        "model form",
    ),
    (
        true,
        "sub 2 2 self\n",
        "sub 2 2 top\n",
        "OUT is not the repaired table",
    ),
];

fn tells(alloc: Global, files: &Files<'_>, said: &str) -> Result<bool, Fail> {
    let line = format!(in alloc; "alodcheck: no: {said}\n")?;
    answers(alloc, &NAMES, files, 1, line.as_str())
}

#[test]
fn answers_with_the_first_item(rt: HostRuntime) -> Result<(), Fail> {
    let alloc = rt.alloc();
    let map = format!(in alloc; "{HEADER}{ALONE}")?;
    for (all, part, by, said) in CASES {
        let evidence = changed(alloc, EVIDENCE, part, by)?;
        let out = if all {
            map.as_bytes()
        } else {
            HEADER.as_bytes()
        };
        let files = Files {
            left: b"Prefix(:=<http://l/>) Ontology(Declaration(Class(:A)))",
            right: b"Ontology()",
            map: map.as_bytes(),
            out,
            evidence: evidence.as_bytes(),
        };
        assert!(rt; tells(alloc, &files, said)?, "{part} {by}");
    }
    Ok(())
}

// The same for three rows.
const OF_THREE: [(&str, &str, &str); 6] = [
    (
        "sub 2 5 incl 2 right 1\n",
        "sub 2 5 incl 1 right 1\n",
        "row 2 step 3",
    ),
    (
        "class 3 2\n",
        "class 3\n",
        "class <http://l/B> has no member",
    ),
    ("class 3 2\n", "class 3 1 2\n", "axiom left 1"),
    ("class 5 1 2 3 4\n", "class 5 1 2 4\n", "axiom right 1"),
    ("class 2 1 3\n", "class 2 1\n", "axiom row 1 2"),
    ("0 front 1 1\n", "0 front 1 0\n", "journal entry 3"),
];

#[test]
fn answers_with_the_first_item_of_three_rows(rt: HostRuntime) -> Result<(), Fail> {
    let alloc = rt.alloc();
    let [first, second, third] = ROWS;
    let map = format!(in alloc; "{HEADER}{first}{second}{third}")?;
    let out = format!(in alloc; "{HEADER}{first}{third}")?;
    for (part, by, said) in OF_THREE {
        let evidence = changed(alloc, SHOWN, part, by)?;
        let files = Files {
            left: APART.as_bytes(),
            right: BELOW.as_bytes(),
            map: map.as_bytes(),
            out: out.as_bytes(),
            evidence: evidence.as_bytes(),
        };
        assert!(rt; tells(alloc, &files, said)?, "{part} {by}");
    }
    Ok(())
}
