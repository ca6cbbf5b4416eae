//! Models and other interpretations of a small case.

use crate::{ModelFault, check_model};
use case_file::{AxiomLists, Case, CaseInput, build_case};
use el_logic::{Axioms, Interp, MemberLists, Numbers, PairLists, Pairs};
use std::alloc::{AllocError, Global};
use std::test::Fail;

// A case of two classes, one property and no axioms.
fn two_classes(alloc: Global) -> Result<Case, Fail> {
    let input = CaseInput {
        left: Axioms::new(alloc),
        right: Axioms::new(alloc),
        rows: AxiomLists::new(alloc),
        order: Numbers::new(alloc),
        classes: 2,
        roles: 1,
    };
    match build_case(alloc, input, 10, 10) {
        Ok(case) => Ok(case),
        Err(_) => Err(Fail::from("case")),
    }
}

// An interpretation of two classes and one property without pairs.
fn of_two(alloc: Global, size: u32, first: &[u32], second: &[u32]) -> Result<Interp, AllocError> {
    let mut classes = MemberLists::new(alloc);
    classes.push(Numbers::from_slice(alloc, first)?)?;
    classes.push(Numbers::from_slice(alloc, second)?)?;
    let mut roles = PairLists::new(alloc);
    roles.push(Pairs::new(alloc))?;
    Ok(Interp {
        size,
        classes,
        roles,
    })
}

// Fails by this name, unless this is found of a size and the members of two classes.
fn expect(
    alloc: Global,
    name: &str,
    size: u32,
    first: &[u32],
    second: &[u32],
    wanted: Result<(), ModelFault>,
) -> Result<(), Fail> {
    let case = two_classes(alloc)?;
    let model = of_two(alloc, size, first, second)?;
    if check_model(alloc, &case, &model, &[]) == wanted {
        return Ok(());
    }
    Err(Fail::from(name))
}

#[test]
fn finds_the_first_fault(rt: HostRuntime) -> Result<(), Fail> {
    let alloc = rt.alloc();
    expect(alloc, "lists that fall", 3, &[0], &[2, 0], Ok(()))?;
    expect(alloc, "no element", 0, &[], &[], Err(ModelFault::Form))?;
    expect(alloc, "too large", 3, &[0], &[3], Err(ModelFault::Form))?;
    expect(alloc, "no members", 3, &[], &[], Err(ModelFault::Class(2)))?;
    expect(alloc, "one member", 3, &[0], &[], Err(ModelFault::Class(3)))?;
    expect(
        alloc,
        "a large domain",
        u32::MAX,
        &[0],
        &[u32::MAX - 1],
        Ok(()),
    )
}
