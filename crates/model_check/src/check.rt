//! Whether an interpretation is a model of a case.

ghost use Rattle.std.specs.Prelude.{◌≡◌, ◌<◌, ◌^◌, length, All, IfOk, IfErr, OnOk};
ghost use Rattle.el_logic.specs.Meaning.{IsInterp};
ghost use Rattle.case_file.specs.Cases.{AreRanksOf};
ghost use Rattle.closed_model.specs.Models.{IsModelFor};
ghost use Rattle.model_members.specs.Lists.{AreOrdered};
ghost use Rattle.model_check.specs.Faults.{IsModelFault};
ghost use Rattle.model_check.specs.Inside.Lists.{source_at, FindsFailing, FindsFailingRow, FindsFailingOf, FindsEmpty};

use crate::ModelFault;
use case_file::Case;
use concept_store::nodes_stand_in_order;
use el_logic::{Axiom, Interp, is_interpretation};
use fact_table::Source;
use model_members::{ModelLists, has_number, holds_by_lists, model_lists};
use std::alloc::{AllocError, Global};

// Where axioms are from.
#[derive(Clone, Copy)]
enum Origin {
    Left,
    Right,
    Row(u32),
}

// The axiom there with this number.
fn source_at(origin: Origin, number: u32) -> Source
    ensures { result ≡ source_at origin number }
{
    match origin {
        Origin::Left => Source::Left(number),
        Origin::Right => Source::Right(number),
        Origin::Row(rank) => Source::Row { rank, number },
    }
}

// The first of the axioms from there that doesn't hold.
fn first_failing(
    alloc: Global,
    lists: &ModelLists,
    origin: Origin,
    axioms: &[Axiom],
) -> Result<Option<Source>, AllocError>
    requires lists { AreOrdered lists.now }
    requires few { length axioms.now < 2 ^ 32 }
    ensures { IfOk result (FindsFailing lists.now.ordered origin axioms.now) }
{
    let mut number = 0u32;
    for axiom in axioms {
        number += 1;
        let holds = holds_by_lists(alloc, lists, axiom)?;
        if !holds {
            return Ok(Some(source_at(origin, number)));
        }
    }
    Ok(None)
}

// The first of the rows' axioms that doesn't hold.
fn first_failing_row(
    alloc: Global,
    case: &Case,
    lists: &ModelLists,
    ranks: &[u32],
) -> Result<Option<Source>, AllocError>
    requires lists { AreOrdered lists.now }
    requires ranks { All (λ rank. rank < length case.now.order) ranks.now }
    ensures { IfOk result (FindsFailingRow case.now lists.now.ordered ranks.now) }
{
    let _case = case.store();
    for rank in ranks {
        let failing = first_failing(
            alloc,
            lists,
            Origin::Row(*rank),
            case.axioms_of(*rank).as_slice(),
        )?;
        match failing {
            Some(source) => return Ok(Some(source)),
            None => {}
        }
    }
    Ok(None)
}

// The first axiom that doesn't hold.
fn first_failing_of(
    alloc: Global,
    case: &Case,
    lists: &ModelLists,
    ranks: &[u32],
) -> Result<Option<Source>, AllocError>
    requires lists { AreOrdered lists.now }
    requires ranks { All (λ rank. rank < length case.now.order) ranks.now }
    ensures { IfOk result (FindsFailingOf case.now lists.now.ordered ranks.now) }
{
    let _case = case.store();
    let of_left = first_failing(alloc, lists, Origin::Left, case.left().as_slice())?;
    match of_left {
        Some(source) => return Ok(Some(source)),
        None => {}
    }
    let of_right = first_failing(alloc, lists, Origin::Right, case.right().as_slice())?;
    match of_right {
        Some(source) => return Ok(Some(source)),
        None => {}
    }
    first_failing_row(alloc, case, lists, ranks)
}

// The same of a model, whose lists are put in order once.
fn first_failing_in(
    alloc: Global,
    case: &Case,
    model: &Interp,
    ranks: &[u32],
) -> Result<Option<Source>, AllocError>
    requires fits { IsInterp case.now.classes case.now.properties model.now }
    requires ranks { All (λ rank. rank < length case.now.order) ranks.now }
    ensures { IfOk result (FindsFailingOf case.now model.now ranks.now) }
{
    let lists = model_lists(alloc, model)?;
    first_failing_of(alloc, case, &lists, ranks)
}

// The first node that must have a member and has none.
fn first_empty(case: &Case, i: &Interp) -> Option<u32>
    requires { IsInterp case.now.classes case.now.properties i.now }
    ensures { FindsEmpty case.now i.now result }
{
    nodes_stand_in_order();
    let _nodes = case.store().nodes();
    let classes = i.classes.as_slice();
    for class in 0..case.classes() {
        if !classes[class as usize].is_empty() {
            continue;
        }
        let node = class + 2;
        if has_number(case.excused(), node) {
            continue;
        }
        return Some(node);
    }
    None
}

/// Whether an interpretation is a model of the case for these ranks. The first fault in this order
/// is answered: its form, the first axiom of LEFT, RIGHT and the rows with the ranks that doesn't
/// hold, the first class that must have a member and has none. The lists of the model are sorted
/// once. The domain is never walked or listed, however large it is: an inclusion of classes costs
/// about the members of its lower class and the pairs that begin at them.
pub fn check_model(
    alloc: Global,
    case: &Case,
    model: &Interp,
    ranks: &[u32],
) -> Result<(), ModelFault>
    requires { AreRanksOf case.now ranks.now }
    ensures ok { OnOk result (IsModelFor case.now ranks.now model.now) }
    ensures fault { IfErr result (IsModelFault case.now ranks.now model.now) }
{
    if !is_interpretation(model, case.classes(), case.properties()) {
        return Err(ModelFault::Form);
    }
    let failing = match first_failing_in(alloc, case, model, ranks) {
        Ok(failing) => failing,
        Err(_) => return Err(ModelFault::OutOfMemory),
    };
    match failing {
        Some(source) => return Err(ModelFault::Axiom(source)),
        None => {}
    }
    match first_empty(case, model) {
        Some(node) => Err(ModelFault::Class(node)),
        None => Ok(()),
    }
}
