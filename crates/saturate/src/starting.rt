//! Both documents without rows.

ghost use Rattle.std.specs.Prelude.{◌≡◌, [], IfOk, IfErr, OnOk, MatchOption};
ghost use Rattle.std.specs.Arc.{arc_value};
ghost use Rattle.el_logic.specs.declared.types.Part.{Part};
ghost use Rattle.byte_words.specs.Faults.{OrOutOfMemory};
ghost use Rattle.fact_layers.specs.Tops.{whole};
ghost use Rattle.case_file.specs.Incoherence.{IsIncoherentFor};
ghost use Rattle.case_tables.specs.Tables.{AreTablesOf};
ghost use Rattle.closed_model.specs.ClosedTables.{IsClosedTable};
ghost use Rattle.saturate.specs.declared.types.StartFault.TheVariants.{Incoherent};
ghost use Rattle.saturate.specs.Decisions.{ShowsFirstEmpty, IsStartFault, start_ran_out};
ghost use Rattle.saturate.specs.Inside.Saturated.{table_of};

use crate::StartFault;
use crate::clashes::first_clash;
use crate::laws::facts_show_emptiness;
use crate::saturation::{begun, saturate_all, saturate_by_nodes};
use crate::tables::frozen;
use case_file::{Case, cases_have_nodes};
use case_tables::{Tables, build_tables};
use closed_model::{ClosedTable, a_closed_table_shows_coherence, closed_facts_show_members};
use derivation::{Derivation, reasons_name_earlier_places, trace, traces_are_good};
use el_logic::{Numbers, Part};
use fact_layers::{Base, Layers};
use rule_steps::{Grounds, facts_stand_where_their_items_do};
use std::alloc::{AllocError, Global};
use std::sync::Arc;

// What follows from both documents, if they leave no class empty.
fn coherent_facts(alloc: Global, case: &Case, tables: &Tables) -> Result<Option<Layers>, AllocError>
    requires { AreTablesOf case.now tables.now }
    ensures { IfOk result (λ found. MatchOption found (IsIncoherentFor case.now Part.Both [])
        (λ layers. IsClosedTable (table_of case.now tables.now [] (whole layers)))) }
{
    facts_show_emptiness();
    let _case = case.store();
    let none: &[u32] = &[];
    let grounds = Grounds::new(case, tables, Part::Both, none);
    let mut layers = Layers::over(alloc, Base::empty(alloc)?)?;
    match saturate_by_nodes(&grounds, &mut layers)? {
        None => Ok(Some(layers)),
        Some(_) => Ok(None),
    }
}

// The first class that a part of the documents leaves empty, with a derivation.
fn first_empty(
    alloc: Global,
    case: &Case,
    tables: &Tables,
    part: Part,
) -> Result<Option<(u32, Derivation)>, AllocError>
    requires { AreTablesOf case.now tables.now }
    ensures { IfOk result (λ found. MatchOption found (¬ (IsIncoherentFor case.now part []))
        (λ empty. ShowsFirstEmpty case.now part empty.0 empty.1)) }
{
    facts_show_emptiness();
    closed_facts_show_members();
    cases_have_nodes();
    traces_are_good();
    reasons_name_earlier_places();
    facts_stand_where_their_items_do();
    let _case = case.store();
    let none: &[u32] = &[];
    let grounds = Grounds::new(case, tables, part, none);
    let mut layers = begun(alloc, &grounds)?;
    saturate_all(&grounds, &mut layers, 0)?;
    let Some(found) = first_clash(case, &layers) else {
        return Ok(None);
    };
    let derivation = trace(alloc, &layers, found.1)?;
    Ok(Some((found.0, derivation)))
}

// The fault of a part with its first empty class and a derivation.
fn fault_of(part: Part, empty: (u32, Derivation)) -> StartFault
    ensures { result ≡ Incoherent part empty.0 empty.1 }
{
    let (class, derivation) = empty;
    StartFault::Incoherent {
        part,
        class,
        derivation,
    }
}

// The fault of documents that are incoherent together.
fn first_fault(alloc: Global, case: &Case, tables: &Tables) -> Result<StartFault, AllocError>
    requires tables { AreTablesOf case.now tables.now }
    requires incoherent { IsIncoherentFor case.now Part.Both [] }
    ensures { IfOk result (IsStartFault case.now) }
{
    match first_empty(alloc, case, tables, Part::Left)? {
        Some(empty) => return Ok(fault_of(Part::Left, empty)),
        None => {}
    }
    match first_empty(alloc, case, tables, Part::Right)? {
        Some(empty) => return Ok(fault_of(Part::Right, empty)),
        None => {}
    }
    match first_empty(alloc, case, tables, Part::Both)? {
        Some(empty) => Ok(fault_of(Part::Both, empty)),
        None => unreachable!(),
    }
}

/// The closed table of a case without rows, or why there is none. Both documents are saturated
/// together. Only if that leaves a class empty is each part saturated by itself, to the end, since
/// the first empty class of the first part is asked.
pub fn start(alloc: Global, case: &Arc<Case>) -> Result<ClosedTable, StartFault>
    ensures table { IfOk result (λ table. (table.case ≡ arc_value case.now)
        × (table.ranks ≡ [])) }
    ensures coherent { OnOk result ((part : Part)
        → ¬ (IsIncoherentFor (arc_value case.now) part [])) }
    ensures fault { IfErr result (OrOutOfMemory start_ran_out
        (IsStartFault (arc_value case.now))) }
{
    a_closed_table_shows_coherence();
    let _case = case.store();
    let tables = Arc::new(alloc, build_tables(alloc, case)?)?;
    match coherent_facts(alloc, case, &tables)? {
        Some(layers) => Ok(frozen(alloc, case, &tables, Numbers::new(alloc), layers)?),
        None => Err(first_fault(alloc, case, &tables)?),
    }
}
