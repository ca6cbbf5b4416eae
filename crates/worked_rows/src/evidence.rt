//! What EVIDENCE holds.

use crate::setting::{APART, BELOW, HEADER, ROWS, Ran, run};
use std::alloc::Global;
use std::sync::Wait;
use std::test::Fail;
use std::thread::Threads;

// LEFT, RIGHT, the rows, the status and the first lines of EVIDENCE.
type Case = (&'static str, &'static str, &'static str, u8, &'static str);

static CASES: [Case; 4] = [
    (
        "Prefix(:=<http://l/>) Ontology(Declaration(Class(:A)))",
        "Ontology()",
        "l:A\tskos:broadMatch\towl:Nothing\t\n",
        0,
        "alod evidence 1\ndiagnosis\nomitted 0\nnodes 3\ntop\nbottom\nclass <http://l/A>\nroles 0\n\
removed 1\nrow 1 steps 2\nsub 2 2 self\nsub 2 1 incl 1 row 1 1\nmodel 2\nclass 2 1\njournal ",
    ),
    (
        APART,
        BELOW,
        ROWS,
        0,
        "alod evidence 1\ndiagnosis\nomitted 0\nnodes 6\ntop\nbottom\nclass <http://l/A>\n\
class <http://l/B>\nclass <http://r/X>\nclass <http://r/Y>\nroles 0\nremoved 1\nrow 2 steps ",
    ),
    (
        "Ontology(SubClassOf(owl:Thing owl:Nothing))",
        "Ontology()",
        "",
        5,
        "alod evidence 1\nrefusal left\nomitted 0\nnodes 2\ntop\nbottom\nroles 0\nsteps ",
    ),
    (
        "Ontology(SubClassOf(<http://l/A> ObjectSomeValuesFrom(<http://l/r> <http://l/B>)))",
        "Ontology(DisjointClasses(<http://l/B> <http://l/B>))",
        "",
        5,
        "alod evidence 1\nrefusal right\nomitted 0\nnodes 5\ntop\nbottom\nclass <http://l/A>\n\
class <http://l/B>\nsome 0 3\nroles 1\nproperty <http://l/r>\nsteps ",
    ),
];

// Whether a run left this evidence.
fn leaves<R: Threads + Wait + Sync>(rt: &R, alloc: Global, case: &Case) -> Result<bool, Fail> {
    let (left, right, rows, number, evidence) = *case;
    let map = format!(in alloc; "{HEADER}{rows}")?;
    let Ran {
        number: found,
        evidence: text,
        ..
    } = run(rt, alloc, left, right, map.as_str())?;
    let begins = text.starts_with(evidence.as_bytes());
    Ok(found == number && begins && text.ends_with(b"\nend\n"))
}

#[test]
fn leaves_evidence(rt: HostRuntime) -> Result<(), Fail> {
    for case in &CASES {
        let (left, _, rows, _, _) = *case;
        assert!(rt; leaves(&rt, rt.alloc(), case)?, "{left} {rows}");
    }
    Ok(())
}
