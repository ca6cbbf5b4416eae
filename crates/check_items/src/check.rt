//! Whole evidence.

ghost use Rattle.std.specs.Prelude.{◌≡◌, ◌↔◌, length, IsTrue, IfOk, MatchOption};
ghost use Rattle.repaired_table.specs.Repaired.{repaired_text};
ghost use Rattle.valid_evidence.specs.Items.{case_loaded, IsPartShownEmpty};
ghost use Rattle.valid_evidence.specs.Valid.{IsValidDiagnosis};
ghost use Rattle.check_items.specs.Bad.{IsMade, IsBadDiagnosis, IsItemAnswer, IsBadPart, IsRefusalAnswer};
ghost use Rattle.check_items.specs.Inside.Plain.{IsPlain};
ghost use Rattle.check_items.specs.Inside.Stages.{bad_row};

use crate::BadItem;
use crate::journal::bad_journal;
use crate::lists::bad_list;
use crate::model::bad_model;
use crate::rows::{first_unknown, row_ranks, row_tables};
use crate::steps::{bad_row, bad_steps, steps_by_rank};
use accuse_core::Entry;
use case_file::Case;
use case_load::Loaded;
use derivation::{Step, check_derivation};
use el_logic::{Interp, Part};
use evidence_text::{Body, Evidence, Kind, Removed};
use rank_order::ranking_has_each_row_once;
use repaired_table::write_table;
use sssom_rows::Table;
use std::alloc::{AllocError, Global};

// What is known of a loaded case.
fn made_cases_are_plain(loaded: &Loaded)
    requires { IsMade loaded.now }
    ensures { IsPlain loaded.now }
{
    ranking_has_each_row_once();
    let _ = loaded;
}

// Whether OUT is the text of the table with these rows.
fn is_out(alloc: Global, table: &Table, keep: &[bool], out: &[u8]) -> Result<bool, AllocError>
    requires { length keep.now ≡ length table.now.rows }
    ensures { IfOk result (λ same.
        IsTrue same ↔ (out.now ≡ repaired_text table.now keep.now)) }
{
    let text = write_table(alloc, table, keep)?;
    Ok(text.as_slice() == out)
}

// The first item of the body of a diagnosis that fails.
fn bad_diagnosis(
    alloc: Global,
    loaded: &Loaded,
    out: &[u8],
    removed: &[Removed],
    model: &Interp,
    entries: &[Entry],
) -> Result<Option<BadItem>, AllocError>
    requires { IsPlain loaded.now }
    ensures { IfOk result (λ found. MatchOption found
        (IsValidDiagnosis loaded.now out.now removed.now model.now entries.now)
        (IsBadDiagnosis loaded.now out.now removed.now model.now entries.now)) }
{
    match first_unknown(loaded.table.rows.as_slice().len(), removed) {
        Some(row) => return Ok(Some(BadItem::Removed(row))),
        None => {}
    }
    let case: &Case = &loaded.case;
    let _case = case.store();
    let tables = row_tables(alloc, case, removed)?;
    let same = is_out(alloc, &loaded.table, tables.keep.as_slice(), out)?;
    if !same {
        return Ok(Some(BadItem::Output));
    }
    match bad_steps(alloc, case, &tables, removed)? {
        Some(item) => return Ok(Some(item)),
        None => {}
    }
    match bad_model(alloc, case, tables.kept.as_slice(), model)? {
        Some(item) => return Ok(Some(item)),
        None => {}
    }
    bad_journal(alloc, case, tables.keep.as_slice(), entries)
}

/// The first item of evidence that fails, if the evidence is to show that OUT is the repaired table;
/// none if it is valid. Time and memory go with the evidence and the case.
pub fn check_diagnosis(
    alloc: Global,
    loaded: &Loaded,
    out: &[u8],
    evidence: &Evidence,
) -> Result<Option<BadItem>, AllocError>
    requires { IsMade loaded.now }
    ensures { IfOk result (IsItemAnswer loaded.now out.now evidence.now) }
{
    made_cases_are_plain(loaded);
    let Kind::Diagnosis = evidence.kind else {
        return Ok(Some(BadItem::Kind));
    };
    let Body::Diagnosis {
        removed,
        model,
        journal,
    } = &evidence.body
    else {
        return Ok(Some(BadItem::Kind));
    };
    match bad_list(loaded, evidence) {
        Some(item) => return Ok(Some(item)),
        None => {}
    }
    let (removed, entries) = (removed.as_slice(), journal.as_slice());
    bad_diagnosis(alloc, loaded, out, removed, model, entries)
}

// What is wrong with the steps of a refusal.
fn bad_part(
    alloc: Global,
    loaded: &Loaded,
    part: Part,
    steps: &[Step],
) -> Result<Option<BadItem>, AllocError>
    requires { IsPlain loaded.now }
    ensures { IfOk result (λ found. MatchOption found
        (IsPartShownEmpty (case_loaded loaded.now) part steps.now)
        (IsBadPart (case_loaded loaded.now) part steps.now)) }
{
    let case: &Case = &loaded.case;
    let _case = case.store();
    let ranks = row_ranks(alloc, case)?;
    let by_rank = steps_by_rank(alloc, ranks.as_slice(), steps)?;
    match check_derivation(case, &by_rank, part, &[]) {
        Ok(()) => Ok(None),
        Err(reason) => Ok(Some(bad_row(0, reason))),
    }
}

/// The first item of evidence that fails, if the evidence is to show that a part of the documents
/// leaves a class empty; none if it is valid for the part that it names.
pub fn check_refusal(
    alloc: Global,
    loaded: &Loaded,
    evidence: &Evidence,
) -> Result<Option<BadItem>, AllocError>
    requires { IsMade loaded.now }
    ensures { IfOk result (IsRefusalAnswer loaded.now evidence.now) }
{
    made_cases_are_plain(loaded);
    let Kind::Refusal(part) = evidence.kind else {
        return Ok(Some(BadItem::Kind));
    };
    let Body::Refusal { steps } = &evidence.body else {
        return Ok(Some(BadItem::Kind));
    };
    match bad_list(loaded, evidence) {
        Some(item) => return Ok(Some(item)),
        None => {}
    }
    bad_part(alloc, loaded, part, steps.as_slice())
}
