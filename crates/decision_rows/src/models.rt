//! The models that closed tables say, and which axioms hold in them.

use crate::kept::first;
use crate::setting::chosen;
use case_file::Case;
use closed_model::{ClosedTable, model_of};
use el_logic::{Axioms, Interp, holds, is_interpretation};
use std::alloc::Global;
use std::test::Fail;

const ROWS: &str = "l:B\tskos:broadMatch\tl:A\t0.9\nl:A\tskos:broadMatch\towl:Nothing\t0.8\n";

// The members of A and of B, and whether each axiom holds: A below B, which LEFT says, B below A,
// which the first row says, and that there is no A, which the second says. The elements are
// owl:Thing, A and B.
struct Said {
    members: [&'static [u32]; 2],
    hold: [bool; 3],
}

static WITHOUT_ROWS: Said = Said {
    members: [&[1], &[1, 2]],
    hold: [true, false, false],
};

static WITH_FIRST_ROW: Said = Said {
    members: [&[1, 2], &[1, 2]],
    hold: [true, true, false],
};

// Whether each of these axioms holds.
fn push_each(held: &mut Vec<bool>, i: &Interp, axioms: &Axioms) -> Result<(), Fail> {
    if !is_interpretation(i, 2, 0) {
        return Err("no interpretation of two classes".into());
    }
    for axiom in axioms.as_slice() {
        held.push(holds(i, axiom))?;
    }
    Ok(())
}

// Whether each axiom of LEFT, RIGHT and the rows holds.
fn held(alloc: Global, case: &Case, i: &Interp) -> Result<Vec<bool>, Fail> {
    let mut held = Vec::new(alloc);
    push_each(&mut held, i, case.left())?;
    push_each(&mut held, i, case.right())?;
    for rank in 0..case.ranks() {
        push_each(&mut held, i, case.axioms_of(rank))?;
    }
    Ok(held)
}

// Fails by this name, unless the table's model is as said.
fn expect(alloc: Global, name: &str, table: &ClosedTable, said: &Said) -> Result<(), Fail> {
    let model = model_of(alloc, table)?;
    let held = held(alloc, table.case(), &model)?;
    let classes = model.classes.as_slice();
    if model.size != 3 || classes.len() != 2 || held.as_slice() != said.hold.as_slice() {
        return Err(name.into());
    }
    if classes[0].as_slice() != said.members[0] || classes[1].as_slice() != said.members[1] {
        return Err(name.into());
    }
    Ok(())
}

#[test]
fn axioms_of_a_table_hold_in_its_model(rt: HostRuntime) -> Result<(), Fail> {
    let alloc = rt.alloc();
    let table = first(alloc, "SubClassOf(:A :B)", "", ROWS)?;
    expect(alloc, "without rows", &table, &WITHOUT_ROWS)?;
    let later = chosen(alloc, table)?;
    expect(alloc, "with the first row", &later, &WITH_FIRST_ROW)
}
