//! Each kind of axiom, where it holds and where it doesn't, over a small domain and a large one.

use crate::{holds_by_lists, model_lists};
use el_logic::{
    Axiom, Boxed, Expr, Exprs, Interp, MemberLists, Numbers, PairLists, Pairs, is_interpretation,
};
use std::alloc::{AllocError, Global};
use std::test::Fail;

// What an axiom says, of numbered classes and properties. The class 9 is `owl:Thing`, and a class
// from 10 on is what the property 0 leads from to the class that is 10 less. One from 20 on has the
// members of the class that is 20 less from which the property leads in two steps to the class 1.
#[derive(Clone, Copy, Debug)]
enum Said<'a> {
    Within(u32, u32),
    Same(&'a [u32]),
    Apart(&'a [u32]),
    Chain(&'a [u32], u32),
    SamePairs(&'a [u32]),
    Transitive(u32),
    Reflexive(u32),
    Domain(u32, u32),
}

fn two_steps_within(alloc: Global, number: u32) -> Result<Expr, AllocError> {
    let last = Expr::Exists(0, Boxed::new(alloc, Expr::Name(1))?);
    let mut operands = Exprs::new(alloc);
    operands.push(Expr::Exists(0, Boxed::new(alloc, last)?))?;
    operands.push(Expr::Name(number))?;
    Ok(Expr::And(operands))
}

fn class(alloc: Global, number: u32) -> Result<Expr, AllocError> {
    if number == 9 {
        return Ok(Expr::Top);
    }
    if number < 10 {
        return Ok(Expr::Name(number));
    }
    if number < 20 {
        return Ok(Expr::Exists(0, Boxed::new(alloc, Expr::Name(number - 10))?));
    }
    two_steps_within(alloc, number - 20)
}

fn classes(alloc: Global, numbers: &[u32]) -> Result<Exprs, AllocError> {
    let mut operands = Exprs::new(alloc);
    for number in numbers {
        operands.push(class(alloc, *number)?)?;
    }
    Ok(operands)
}

fn axiom(alloc: Global, said: Said) -> Result<Axiom, AllocError> {
    Ok(match said {
        Said::Within(lower, upper) => Axiom::SubClass(class(alloc, lower)?, class(alloc, upper)?),
        Said::Same(numbers) => Axiom::Equivalent(classes(alloc, numbers)?),
        Said::Apart(numbers) => Axiom::Disjoint(classes(alloc, numbers)?),
        Said::Chain(chain, upper) => Axiom::SubRole(Numbers::from_slice(alloc, chain)?, upper),
        Said::SamePairs(numbers) => Axiom::EquivalentRoles(Numbers::from_slice(alloc, numbers)?),
        Said::Transitive(role) => Axiom::Transitive(role),
        Said::Reflexive(role) => Axiom::Reflexive(role),
        Said::Domain(role, number) => Axiom::Domain(role, class(alloc, number)?),
    })
}

const MEMBERS: [&[u32]; 5] = [&[3, 1, 1], &[2], &[1, 3], &[1, 2, 3, 4], &[0, 1, 2, 3, 4]];

const PAIRS: [&[(u32, u32)]; 4] = [
    &[(1, 2), (0, 1), (0, 2)],
    &[(2, 3), (2, 4)],
    &[(0, 4), (1, 3), (1, 4), (0, 3)],
    &[(0, 0), (1, 1), (2, 2), (3, 3), (4, 4)],
];

fn interpretation(alloc: Global, size: u32) -> Result<Interp, AllocError> {
    let mut classes = MemberLists::new(alloc);
    for numbers in MEMBERS {
        classes.push(Numbers::from_slice(alloc, numbers)?)?;
    }
    let mut roles = PairLists::new(alloc);
    for pairs in PAIRS {
        roles.push(Pairs::from_slice(alloc, pairs)?)?;
    }
    Ok(Interp {
        size,
        classes,
        roles,
    })
}

// What is said, and whether it holds over five elements and over as many as there can be.
const ROWS: [(Said, bool, bool); 28] = [
    (Said::Within(0, 3), true, true),
    (Said::Within(3, 0), false, false),
    (Said::Within(9, 4), true, false),
    (Said::Within(4, 9), true, true),
    (Said::Within(11, 0), false, false),
    (Said::Within(11, 4), true, true),
    (Said::Within(13, 11), true, true),
    (Said::Within(2, 11), false, false),
    (Said::Within(10, 24), true, true),
    (Said::Within(11, 24), false, false),
    (Said::Same(&[0, 2]), true, true),
    (Said::Same(&[24, 10]), true, true),
    (Said::Same(&[0, 2, 3]), false, false),
    (Said::Same(&[4, 9]), true, false),
    (Said::Apart(&[0, 1]), true, true),
    (Said::Apart(&[1, 0, 2]), false, false),
    (Said::Apart(&[1, 9]), false, false),
    (Said::Chain(&[0], 0), true, true),
    (Said::Chain(&[1], 0), false, false),
    (Said::Chain(&[0, 1], 2), true, true),
    (Said::Chain(&[0, 0, 1], 2), true, true),
    (Said::Chain(&[0, 1], 1), false, false),
    (Said::SamePairs(&[2, 2]), true, true),
    (Said::SamePairs(&[0, 2]), false, false),
    (Said::Transitive(0), true, true),
    (Said::Reflexive(3), true, false),
    (Said::Reflexive(0), false, false),
    (Said::Domain(1, 1), true, true),
];

fn expect(alloc: Global, i: &Interp, said: Said, wanted: bool) -> Result<(), Fail> {
    if !is_interpretation(i, 5, 4) {
        return Err(Fail::from("no interpretation"));
    }
    let found = axiom(alloc, said)?;
    let lists = model_lists(alloc, i)?;
    if holds_by_lists(alloc, &lists, &found)? == wanted {
        return Ok(());
    }
    Err(Fail::from((said, i.size)))
}

#[test]
fn each_kind(rt: HostRuntime) -> Result<(), Fail> {
    let alloc = rt.alloc();
    let small = interpretation(alloc, 5)?;
    let large = interpretation(alloc, u32::MAX)?;
    for (said, in_small, in_large) in ROWS {
        expect(alloc, &small, said, in_small)?;
        expect(alloc, &large, said, in_large)?;
    }
    Ok(())
}
