//! Evidence that holds, and words.

use crate::setting::{APART, BELOW, Files, HEADER, NAMES, ROWS, SHOWN, answers, changed};
use std::test::Fail;

#[test]
fn answers_yes_to_a_whole_run(rt: HostRuntime) -> Result<(), Fail> {
    let alloc = rt.alloc();
    let [first, second, third] = ROWS;
    let map = format!(in alloc; "{HEADER}{first}{second}{third}")?;
    let out = format!(in alloc; "{HEADER}{first}{third}")?;
    let files = Files {
        left: APART.as_bytes(),
        right: BELOW.as_bytes(),
        map: map.as_bytes(),
        out: out.as_bytes(),
        evidence: SHOWN.as_bytes(),
    };
    assert!(rt; answers(alloc, &NAMES, &files, 0, "alodcheck: yes\n")?);
    let words = ["--el-part", "LEFT", "--", "RIGHT", "MAP", "OUT", "EVIDENCE"];
    assert!(rt; answers(alloc, &words, &files, 0, "alodcheck: yes\n")?);
    Ok(())
}

// LEFT, RIGHT and the evidence that a part of them leaves a class empty.
const REFUSED: [(&str, &str, &str); 3] = [
    (
        "Ontology(SubClassOf(owl:Thing owl:Nothing))",
        "Ontology()",
        "alod evidence 1\nrefusal left\nomitted 0\nnodes 2\ntop\nbottom\nroles 0\n\
steps 2\nsub 0 0 self\nsub 0 1 incl 1 left 1\nend\n",
    ),
    (
        "Ontology()",
        "Ontology(DisjointClasses(<a> <a>))",
        "alod evidence 1\nrefusal right\nomitted 0\nnodes 3\ntop\nbottom\nclass <a>\nroles 0\n\
steps 2\nsub 2 2 self\nsub 2 1 disj 1 1 right 1\nend\n",
    ),
    (
        "Ontology(SubClassOf(<a> <b>))",
        "Ontology(DisjointClasses(<a> <b>))",
        "alod evidence 1\nrefusal both\nomitted 0\nnodes 4\ntop\nbottom\nclass <a>\nclass <b>\n\
roles 0\nsteps 3\nsub 2 2 self\nsub 2 3 incl 1 left 1\nsub 2 1 disj 1 2 right 1\nend\n",
    ),
];

#[test]
fn answers_yes_to_refusals(rt: HostRuntime) -> Result<(), Fail> {
    let alloc = rt.alloc();
    let words = ["--refused", "LEFT", "RIGHT", "EVIDENCE"];
    for (left, right, evidence) in REFUSED {
        let files = Files {
            left: left.as_bytes(),
            right: right.as_bytes(),
            map: b"no table",
            out: b"",
            evidence: evidence.as_bytes(),
        };
        assert!(rt;
            answers(alloc, &words, &files, 0, "alodcheck: yes\n")?,
            "{left} {right}"
        );
    }
    Ok(())
}

// A part of the first of these texts, what stands in its place, and what is printed after
// `alodcheck: no: `.
const NOT_REFUSED: [(&str, &str, &str); 4] = [
    ("left 1\nend\n", "left 2\nend\n", "row 0 step 2"),
    ("refusal left\n", "refusal right\n", "row 0 step 2"),
    (
        "steps 2\nsub 0 0 self\nsub 0 1 incl 1 left 1\n",
        "steps 1\nsub 0 0 self\n",
        "row 0 shows no empty class",
    ),
    ("nodes 2\ntop\n", "nodes 2\nbottom\n", "nodes"),
];

#[test]
fn answers_no_to_wrong_refusals(rt: HostRuntime) -> Result<(), Fail> {
    let alloc = rt.alloc();
    let words = ["--refused", "LEFT", "RIGHT", "EVIDENCE"];
    let [(left, right, whole), _, _] = REFUSED;
    for (part, by, said) in NOT_REFUSED {
        let evidence = changed(alloc, whole, part, by)?;
        let line = format!(in alloc; "alodcheck: no: {said}\n")?;
        let files = Files {
            left: left.as_bytes(),
            right: right.as_bytes(),
            map: b"no table",
            out: b"",
            evidence: evidence.as_bytes(),
        };
        assert!(rt;
            answers(alloc, &words, &files, 1, line.as_str())?,
            "{part} {by}"
        );
    }
    Ok(())
}

const OUTSIDE: &str = "Ontology(ObjectPropertyRange(<r> <c>))";

const LEFT_OUT: &str = "alod evidence 1\ndiagnosis\nomitted 1\nleft 1 10 ObjectPropertyRange\n\
nodes 2\ntop\nbottom\nroles 0\nremoved 0\nmodel 1\njournal 1\n0 front done\nend\n";

#[test]
fn leaves_axioms_out_if_told_so(rt: HostRuntime) -> Result<(), Fail> {
    let alloc = rt.alloc();
    let files = Files {
        left: OUTSIDE.as_bytes(),
        right: b"Ontology()",
        map: HEADER.as_bytes(),
        out: HEADER.as_bytes(),
        evidence: LEFT_OUT.as_bytes(),
    };
    let words = ["--el-part", "LEFT", "RIGHT", "MAP", "OUT", "EVIDENCE"];
    assert!(rt; answers(alloc, &words, &files, 0, "alodcheck: yes\n")?);
    let line = "alodcheck: LEFT:1:10: not in the profile: ObjectPropertyRange\n";
    assert!(rt; answers(alloc, &NAMES, &files, 4, line)?);
    Ok(())
}
