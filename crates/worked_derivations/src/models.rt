//! Models of two ontologies with three rows, and interpretations that are none.

use crate::rows::{BELOW, DISJOINT, ROWS};
use crate::setting::{HEADER, are_ranks, made};
use case_file::Case;
use el_logic::{Interp, MemberLists, Numbers, PairLists};
use fact_table::Source;
use model_check::{ModelFault, check_model};
use std::alloc::{AllocError, Global};
use std::test::Fail;

// An interpretation: its name, its size, and the members of the classes A, B, X and Y.
type Given = (&'static str, u32, &'static [&'static [u32]]);

const GIVEN: Given = ("as given", 5, &[&[1, 3], &[2], &[1, 3], &[1, 2, 3, 4]]);

const FIRST: ModelFault = ModelFault::Axiom(Source::Row { rank: 0, number: 1 });

const BACK: ModelFault = ModelFault::Axiom(Source::Row { rank: 0, number: 2 });

const LAST: ModelFault = ModelFault::Axiom(Source::Row { rank: 2, number: 1 });

const DISJOINT_FAILS: ModelFault = ModelFault::Axiom(Source::Left(1));

const BELOW_FAILS: ModelFault = ModelFault::Axiom(Source::Right(1));

// With LEFT, RIGHT, the first row and the third, A and X have the same members, B is apart from A,
// and Y has the members of X and B.
static WITH_KEPT_ROWS: [(Given, Result<(), ModelFault>); 18] = [
    (GIVEN, Ok(())),
    (
        ("falling", 5, &[&[3, 1], &[2], &[1, 3], &[4, 2, 3, 1]]),
        Ok(()),
    ),
    (
        (
            "repeated",
            5,
            &[&[3, 1, 3], &[2, 2], &[1, 3], &[1, 2, 3, 4]],
        ),
        Ok(()),
    ),
    (
        (
            "large",
            u32::MAX,
            &[&[1, 3], &[2], &[1, 3], &[1, 2, 3, 4294967294]],
        ),
        Ok(()),
    ),
    (("no size", 0, &[&[], &[], &[], &[]]), Err(ModelFault::Form)),
    (
        ("too large", 5, &[&[1, 3], &[2], &[1, 3], &[1, 2, 3, 5]]),
        Err(ModelFault::Form),
    ),
    (
        ("three lists", 5, &[&[1, 3], &[2], &[1, 3]]),
        Err(ModelFault::Form),
    ),
    (
        ("five lists", 5, &[&[1, 3], &[2], &[1, 3], &[1, 2, 3], &[]]),
        Err(ModelFault::Form),
    ),
    (
        ("not disjoint", 5, &[&[1, 3], &[1], &[1, 3], &[1, 3]]),
        Err(DISJOINT_FAILS),
    ),
    (
        ("not below", 5, &[&[1, 3], &[2], &[1, 3], &[1, 2]]),
        Err(BELOW_FAILS),
    ),
    (("fewer", 5, &[&[1, 3], &[2], &[1], &[1, 2, 3]]), Err(FIRST)),
    (("more", 5, &[&[1], &[2], &[1, 3], &[1, 2, 3]]), Err(BACK)),
    (
        ("outside", 5, &[&[1, 3], &[2], &[1, 3], &[1, 3, 4]]),
        Err(LAST),
    ),
    (
        ("B is empty", 5, &[&[1, 3], &[], &[1, 3], &[1, 2, 3]]),
        Err(ModelFault::Class(3)),
    ),
    (
        ("all are empty", 5, &[&[], &[], &[], &[]]),
        Err(ModelFault::Class(2)),
    ),
    (
        ("form and LEFT", 3, &[&[1, 3], &[1], &[1], &[]]),
        Err(ModelFault::Form),
    ),
    (
        ("LEFT and RIGHT", 5, &[&[1, 3], &[1], &[1], &[]]),
        Err(DISJOINT_FAILS),
    ),
    (
        ("a row and a class", 5, &[&[1], &[], &[1, 3], &[1, 3]]),
        Err(BACK),
    ),
];

// The second row puts Y within B.
static WITH_OTHER_ROWS: [(&[u32], Result<(), ModelFault>); 6] = [
    (&[], Ok(())),
    (&[0], Ok(())),
    (&[2], Ok(())),
    (
        &[1],
        Err(ModelFault::Axiom(Source::Row { rank: 1, number: 2 })),
    ),
    (
        &[0, 1],
        Err(ModelFault::Axiom(Source::Row { rank: 1, number: 2 })),
    ),
    (
        &[0, 1, 2],
        Err(ModelFault::Axiom(Source::Row { rank: 1, number: 2 })),
    ),
];

fn interpretation(alloc: Global, given: &Given) -> Result<Interp, AllocError> {
    let mut classes = MemberLists::new(alloc);
    for members in given.2 {
        classes.push(Numbers::from_slice(alloc, members)?)?;
    }
    Ok(Interp {
        size: given.1,
        classes,
        roles: PairLists::new(alloc),
    })
}

// What is found of an interpretation with the rows of these ranks.
fn found(
    alloc: Global,
    case: &Case,
    given: &Given,
    ranks: &[u32],
) -> Result<Result<(), ModelFault>, Fail> {
    let interpretation = interpretation(alloc, given)?;
    if !are_ranks(case, ranks) {
        return Err("no ranks of this case".into());
    }
    Ok(check_model(alloc, case, &interpretation, ranks))
}

#[test]
fn the_first_fault_is_found(rt: HostRuntime) -> Result<(), Fail> {
    let alloc = rt.alloc();
    let map = format!(in alloc; "{HEADER}{ROWS}")?;
    let loaded = made(alloc, DISJOINT, BELOW, map.as_str())?;
    for (given, wanted) in &WITH_KEPT_ROWS {
        let answer = found(alloc, &loaded.case, given, &[0, 2])?;
        assert_eq!(rt; answer, *wanted, "{}", given.0);
    }
    Ok(())
}

#[test]
fn a_model_is_one_for_rows(rt: HostRuntime) -> Result<(), Fail> {
    let alloc = rt.alloc();
    let map = format!(in alloc; "{HEADER}{ROWS}")?;
    let loaded = made(alloc, DISJOINT, BELOW, map.as_str())?;
    for (ranks, wanted) in &WITH_OTHER_ROWS {
        let answer = found(alloc, &loaded.case, &GIVEN, ranks)?;
        assert_eq!(rt; answer, *wanted, "{ranks:?}");
    }
    Ok(())
}
