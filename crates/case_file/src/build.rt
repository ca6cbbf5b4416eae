//! Building a case.

ghost use Rattle.std.specs.Prelude.{◌≡◌, ◌<◌, ◌≤◌, length, IfOk, IfErr};
ghost use Rattle.concept_store.specs.Faults.{IsStoreFault};
ghost use Rattle.concept_store.specs.Nodes.{trees_of};
ghost use Rattle.concept_store.specs.Reading.{MeansTheSameIn};
ghost use Rattle.concept_store.specs.Roles.{roles_of};
ghost use Rattle.case_file.specs.Cases.{IsCaseInput, case_of};

use crate::rows::rows_over;
use crate::{Case, CaseInput};
use concept_store::{StoreFault, build_store};
use el_logic::Numbers;
use std::alloc::Global;

/// The case of two ontologies and of rows over their names.
pub fn build_case(
    alloc: Global,
    input: CaseInput,
    most_nodes: u32,
    most_roles: u32,
) -> Result<Case, StoreFault>
    requires { IsCaseInput input }
    ensures case { IfOk result (λ case. case ≡ case_of input) }
    ensures nodes_fit { IfOk result (λ case. length case.store.nodes ≤ most_nodes) }
    ensures roles_fit { IfOk result (λ case. length case.store.roles ≤ most_roles) }
    ensures fault { let trees = trees_of input.classes input.left input.right in
        IfErr result (IsStoreFault (most_nodes < length trees)
        ((length trees ≤ most_nodes)
        × (most_roles < length (roles_of input.roles input.left input.right)))) }
    ensures left_meaning { IfOk result (λ case.
        MeansTheSameIn input.classes input.roles case.store.nodes case.left case.store.left) }
    ensures right_meaning { IfOk result (λ case.
        MeansTheSameIn input.classes input.roles case.store.nodes case.right case.store.right) }
{
    let CaseInput {
        left,
        right,
        rows,
        order,
        classes,
        roles,
    } = input;
    let store = match build_store(alloc, &left, &right, classes, roles, most_nodes, most_roles) {
        Ok(store) => store,
        Err(fault) => return Err(fault),
    };
    let over = rows_over(alloc, rows.as_slice(), order.as_slice())?;
    Ok(Case {
        store,
        left,
        right,
        rows,
        order,
        over,
        classes,
        properties: roles,
        excused: Numbers::new(alloc),
    })
}
