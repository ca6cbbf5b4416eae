//! Two ontologies, three rows, and a derivation that the second row can't be kept with the first.

use crate::setting::{HEADER, Line, checked, made};
use derivation::BadStep;
use el_logic::Part;
use fact_table::{Fact, Rule, Source};
use std::test::Fail;

pub(crate) const DISJOINT: &str = "Prefix(:=<http://l/>) Ontology(DisjointClasses(:A :B))";

pub(crate) const BELOW: &str = "Prefix(:=<http://r/>) Ontology(SubClassOf(:X :Y))";

pub(crate) const ROWS: &str = "l:A\tskos:exactMatch\tr:X\t0.9
l:B\tskos:exactMatch\tr:Y\t0.8
l:B\tskos:broadMatch\tr:Y\t0.7
";

const FIRST_ROW: Source = Source::Row { rank: 0, number: 1 };

const SECOND_ROW: Source = Source::Row { rank: 1, number: 2 };

const NONE: Source = Source::Nothing;

// A is below X by the first row, X below Y, Y below B by the second row; but A and B are disjoint.
pub(crate) const GIVEN: [Line; 5] = [
    (Fact::Sub(2, 2), Rule::Itself, 0, 0, NONE),
    (Fact::Sub(2, 4), Rule::Incl, 1, 0, FIRST_ROW),
    (Fact::Sub(2, 5), Rule::Incl, 2, 0, Source::Right(1)),
    (Fact::Sub(2, 3), Rule::Incl, 3, 0, SECOND_ROW),
    (Fact::Sub(2, 1), Rule::Disj, 1, 4, Source::Left(1)),
];

// The second and the third step change places.
const EXCHANGED: [Line; 5] = [
    (Fact::Sub(2, 2), Rule::Itself, 0, 0, NONE),
    (Fact::Sub(2, 5), Rule::Incl, 3, 0, Source::Right(1)),
    (Fact::Sub(2, 4), Rule::Incl, 1, 0, FIRST_ROW),
    (Fact::Sub(2, 3), Rule::Incl, 2, 0, SECOND_ROW),
    (Fact::Sub(2, 1), Rule::Disj, 1, 4, Source::Left(1)),
];

#[test]
fn rows_in_conflict(rt: HostRuntime) -> Result<(), Fail> {
    let alloc = rt.alloc();
    let map = format!(in alloc; "{HEADER}{ROWS}")?;
    let loaded = made(alloc, DISJOINT, BELOW, map.as_str())?;
    for (part, ranks, wanted) in [
        (Part::Both, [0, 1].as_slice(), Ok(())),
        (Part::Both, &[0], Err(BadStep::Step(4))),
        (Part::Both, &[1], Err(BadStep::Step(2))),
        (Part::Left, &[0, 1], Err(BadStep::Step(3))),
    ] {
        let answer = checked(alloc, &loaded.case, part, ranks, &GIVEN)?;
        assert_eq!(rt; answer, wanted, "{part:?} over {ranks:?}");
    }
    Ok(())
}

#[test]
fn bad_steps(rt: HostRuntime) -> Result<(), Fail> {
    let alloc = rt.alloc();
    let map = format!(in alloc; "{HEADER}{ROWS}")?;
    let loaded = made(alloc, DISJOINT, BELOW, map.as_str())?;
    for (lines, wanted) in [
        (EXCHANGED.as_slice(), BadStep::Step(2)),
        (&GIVEN[..4], BadStep::Goal),
        (&[], BadStep::Goal),
    ] {
        let answer = checked(alloc, &loaded.case, Part::Both, &[0, 1], lines)?;
        assert_eq!(rt; answer, Err(wanted), "{wanted:?}");
    }
    Ok(())
}
