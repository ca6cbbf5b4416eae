//! One case from three texts.

ghost use Rattle.std.specs.Prelude.{◌≡◌, ◌≤◌, ◌<◌, ◌^◌, length, map, false, IfOk, IfErr};
ghost use Rattle.byte_words.specs.Faults.{OrOutOfMemory};
ghost use Rattle.ofn_axiom.specs.declared.types.Mode.TheVariants.{ElPart};
ghost use Rattle.case_load.specs.Loads.{inputs, IsLoaded, IsCaseOf, rows_in};
ghost use Rattle.case_load.specs.Faults.{IsFirstLoadFault, load_ran_out, is_outside};
ghost use Rattle.case_load.specs.Inside.Stages.{AreBothOver, IsCaseStop};
ghost use Rattle.rank_order.specs.Order.{IsRanking};

use crate::LoadFault;
use crate::documents::{Documents, read_documents};
use crate::fault::of_store;
use crate::rows::{axioms_of_rows, inert_count, order_of};
use crate::table::table_of;
use case_file::{AxiomLists, Case, CaseInput, build_case};
use el_logic::Numbers;
use ofn_axiom::{Mode, Names, SideOmitted};
use predicate_axioms::few_axioms_with_numbers_in_range;
use rank_order::ranking_has_each_row_once;
use sssom_rows::Table;
use std::alloc::Global;
use std::sync::Arc;
use text_names::Limits;

/// A case, and what else is known of the texts that it is made of.
#[derive(Debug, Drop)]
pub struct Loaded {
    pub case: Arc<Case>,
    /// The names of both ontologies, by their numbers.
    pub names: Names,
    pub table: Table,
    /// What was left out of each ontology.
    pub omitted: SideOmitted,
    /// How many rows have no axioms.
    pub inert: u32,
}

/// The case of LEFT, RIGHT and MAP, or the first fault: LEFT's, RIGHT's, MAP's, too many nodes, or
/// too many roles.
pub fn assemble(
    alloc: Global,
    left: &[u8],
    right: &[u8],
    map: &[u8],
    mode: Mode,
    limits: &Limits,
) -> Result<Loaded, LoadFault>
    requires depth { limits.now.depth ≤ 256 }
    requires left { length left.now < 2 ^ 31 }
    requires right { length right.now < 2 ^ 31 }
    requires map { length map.now < 2 ^ 31 }
    ensures loaded { IfOk result (IsLoaded (inputs left.now right.now map.now) mode limits.now) }
    ensures fault { let texts = inputs left.now right.now map.now in
        IfErr result (OrOutOfMemory load_ran_out (IsFirstLoadFault texts mode limits.now)) }
    ensures profile { mode ≡ ElPart → IfErr result (λ fault. is_outside fault ≡ false) }
{
    let documents = match read_documents(alloc, left, right, mode, limits) {
        Ok(documents) => documents,
        Err(fault) => return Err(fault),
    };
    let table = match table_of(alloc, map, limits.rows) {
        Ok(table) => table,
        Err(fault) => return Err(fault),
    };
    match case_of(alloc, documents, table, limits) {
        Ok(loaded) => Ok(loaded),
        Err(fault) => Err(fault),
    }
}

// The case of these documents and this table.
fn case_of(
    alloc: Global,
    documents: Documents,
    table: Table,
    limits: &Limits,
) -> Result<Loaded, LoadFault>
    requires over { AreBothOver documents }
    requires few { length table.rows < 2 ^ 31 }
    ensures made { IfOk result (IsCaseOf limits.now documents table) }
    ensures fault { IfErr result (OrOutOfMemory load_ran_out (IsCaseStop limits.now documents)) }
    ensures profile { IfErr result (λ fault. is_outside fault ≡ false) }
{
    let Ok(rows) = axioms_of_rows(alloc, table.rows.as_slice(), &documents.names) else {
        return Err(LoadFault::OutOfMemory);
    };
    let Ok(order) = order_of(alloc, table.rows.as_slice()) else {
        return Err(LoadFault::OutOfMemory);
    };
    build(alloc, documents, table, rows, order, limits)
}

// The same, from the axioms and the order of the rows.
fn build(
    alloc: Global,
    documents: Documents,
    table: Table,
    rows: AxiomLists,
    order: Numbers,
    limits: &Limits,
) -> Result<Loaded, LoadFault>
    requires over { AreBothOver documents }
    requires few { length table.rows < 2 ^ 31 }
    requires rows { rows ≡ rows_in documents.names table }
    requires order { IsRanking (map (λ row. row.confidence) table.rows) order }
    ensures made { IfOk result (IsCaseOf limits.now documents table) }
    ensures fault { IfErr result (OrOutOfMemory load_ran_out (IsCaseStop limits.now documents)) }
    ensures profile { IfErr result (λ fault. is_outside fault ≡ false) }
{
    few_axioms_with_numbers_in_range();
    ranking_has_each_row_once();
    let inert = inert_count(rows.as_slice());
    let Documents { left, right, names } = documents;
    let input = CaseInput {
        left: left.axioms,
        right: right.axioms,
        rows,
        order,
        classes: names.classes.len(),
        roles: names.roles.len(),
    };
    let case = match build_case(alloc, input, limits.nodes, limits.roles) {
        Ok(case) => case,
        Err(fault) => return Err(of_store(fault)),
    };
    let Ok(case) = Arc::new(alloc, case) else {
        return Err(LoadFault::OutOfMemory);
    };
    Ok(Loaded {
        case,
        names,
        table,
        omitted: SideOmitted {
            left: left.omitted,
            right: right.omitted,
        },
        inert,
    })
}
