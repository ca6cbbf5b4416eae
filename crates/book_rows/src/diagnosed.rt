//! Which rows are kept.

ghost use Rattle.std.specs.Prelude.{◌≤◌};

use crate::setting::base;
use diagnosis::{diagnose, kept_rows};
use io_edge::OpenGate;
use std::alloc::Global;
use std::sync::{Arc, Wait};
use std::test::Fail;
use std::thread::Threads;

const APART: &str = "DisjointClasses(:A :B)";

const X_ALONE: &str = "Declaration(Class(:X))";

const CHAINED: &str = "SubClassOf(:A ObjectSomeValuesFrom(:r :B)) \
SubObjectPropertyOf(ObjectPropertyChain(:r :s) :t) \
DisjointClasses(:A ObjectSomeValuesFrom(:t :C))";

const WHOLE: &str = "ObjectPropertyDomain(:hasPart :Whole) DisjointClasses(:Whole :Atom)";

// Axioms of both ontologies, rows, and which of them are kept.
type Case<'a> = (&'a str, &'a str, &'a str, &'a [bool]);

const CASES: [Case; 8] = [
    (
        APART,
        "SubClassOf(:X :Y)",
        "l:A\tskos:exactMatch\tr:X\t0.9
l:B\tskos:exactMatch\tr:Y\t0.8
l:B\tskos:broadMatch\tr:Y\t0.7
",
        &[true, false, true],
    ),
    (APART, "SubClassOf(:X :Y)", "", &[]),
    (
        APART,
        X_ALONE,
        "r:X\tskos:broadMatch\tl:A\t0.850\nr:X\tskos:broadMatch\tl:B\t0.85\n",
        &[true, false],
    ),
    (
        APART,
        X_ALONE,
        "r:X\tskos:broadMatch\tl:B\t0.8
r:X\tskos:broadMatch\tl:B\t0.8
r:X\tskos:broadMatch\tl:A\t0.9
",
        &[false, false, true],
    ),
    (
        "DisjointClasses(:A :B) DisjointClasses(:B :C)",
        X_ALONE,
        "r:X\tskos:broadMatch\tl:A\t0.9
r:X\tskos:broadMatch\tl:B\t0.8
r:X\tskos:broadMatch\tl:C\t0.7
",
        &[true, false, true],
    ),
    (
        "Declaration(Class(:A))",
        "",
        "l:A\tskos:broadMatch\towl:Nothing\t\n",
        &[false],
    ),
    (
        CHAINED,
        "SubClassOf(:X ObjectSomeValuesFrom(:u :Y))",
        "l:B\tskos:broadMatch\tr:X\t0.9
r:u\trdfs:subPropertyOf\tl:s\t0.8
r:Y\tskos:broadMatch\tl:C\t0.7
",
        &[true, true, false],
    ),
    (
        WHOLE,
        "SubClassOf(:N ObjectSomeValuesFrom(:has :M))",
        "l:Atom\tskos:exactMatch\tr:N\t0.9\nl:hasPart\tskos:exactMatch\tr:has\t0.8\n",
        &[true, false],
    ),
];

// Whether just these rows of a case are kept by this number of workers.
fn keeps<R: Threads + Wait + Sync>(
    rt: &R,
    alloc: Global,
    case: Case,
    workers: u32,
) -> Result<bool, Fail>
    requires { (1 ≤ workers) × (workers ≤ 16) }
{
    let (left, right, rows, keep) = case;
    let base = base(alloc, left, right, rows)?;
    let case = Arc::try_clone(base.case())?;
    let book = diagnose(rt, alloc, case, base, workers, &OpenGate)?;
    let found = kept_rows(alloc, &book)?;
    let kept = keep.iter().filter(|keeps| **keeps).count();
    Ok(found.keep.as_slice() == keep && found.kept == kept && found.removed == keep.len() - kept)
}

#[test]
fn rows_of_cases(rt: HostRuntime) -> Result<(), Fail> {
    for case in CASES {
        let (_, _, rows, _) = case;
        for workers in [1, 2, 16] {
            assert!(rt; keeps(&rt, rt.alloc(), case, workers)?, "{rows} {workers}");
        }
    }
    Ok(())
}
