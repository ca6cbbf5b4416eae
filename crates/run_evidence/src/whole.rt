//! The whole evidence of a run.

ghost use Rattle.std.specs.Prelude.{◌≡◌, ◌+◌, ◌≤◌, ◌^◌, [], length, map, IfOk};
ghost use Rattle.std.specs.Arc.{arc_value};
ghost use Rattle.derivation.specs.Steps.{IsGoodDerivation};
ghost use Rattle.accuse_core.specs.Marks.{front_of, kept_of};
ghost use Rattle.commit_book.specs.Books.{ranks_of};
ghost use Rattle.repaired_table.specs.Repaired.{repaired_text};
ghost use Rattle.evidence_text.specs.EvidenceText.{HasText};
ghost use Rattle.valid_evidence.specs.Shown.{rows_ranked};
ghost use Rattle.valid_evidence.specs.Valid.{HasLists, IsValidEvidence, IsValidRefusal};
ghost use Rattle.run_evidence.specs.Journals.{IsJournalOf};
ghost use Rattle.run_evidence.specs.Tellable.{IsTellable};
ghost use Rattle.run_evidence.specs.Inside.Named.{AreNodesOver, AreRolesOver};
ghost use Rattle.run_evidence.specs.Inside.DecidedBooks.{IsDecidedBook};

use crate::cases::case_of;
use crate::lists::{node_lines, omitted_lists, role_lines};
use crate::rows::{removed_rows, steps_by_row};
use accuse_core::{Entries, front_is_the_least_undecided_rank, kept_ranks_have_the_mark};
use case_load::Loaded;
use closed_model::model_of;
use commit_book::Book;
use concept_store::nodes_stand_in_order;
use derivation::Derivation;
use el_logic::Part;
use evidence_text::{Body, Evidence, Kind};
use std::alloc::{AllocError, Global};

// The same entries.
fn journal_of(alloc: Global, entries: &Entries) -> Result<Entries, AllocError>
    ensures { IfOk result (λ journal. journal.entries ≡ entries.now.entries) }
{
    let items = entries.as_slice();
    let mut journal = Entries::new(alloc);
    journal.reserve(items.len())?;
    for entry in items {
        journal.push(*entry);
    }
    Ok(journal)
}

// The names of the case's nodes and roles are held, and 32 bits count its classes and properties.
fn names_are_held(loaded: &Loaded)
    requires { IsTellable loaded.now }
    ensures nodes { AreNodesOver loaded.now.names.classes.names
        (arc_value loaded.now.case).store.nodes }
    ensures roles { AreRolesOver loaded.now.names.roles.names
        (arc_value loaded.now.case).store.roles }
    ensures classes { (arc_value loaded.now.case).classes + 2 ≤ 2 ^ 32 }
    ensures properties { (arc_value loaded.now.case).properties ≤ 2 ^ 32 }
{
    nodes_stand_in_order();
    let case = case_of(loaded);
    let store = case.store();
    let _count = store.nodes();
    let _properties = case.properties();
}

// Evidence with this body.
fn evidence_with(
    alloc: Global,
    loaded: &Loaded,
    kind: Kind,
    body: Body,
) -> Result<Evidence, AllocError>
    requires { IsTellable loaded.now }
    ensures lists { IfOk result (HasLists loaded.now) }
    ensures kind { IfOk result (λ e. e.kind ≡ kind) }
    ensures body { IfOk result (λ e. e.body ≡ body) }
{
    names_are_held(loaded);
    let store = case_of(loaded).store();
    let omitted = omitted_lists(alloc, &loaded.omitted)?;
    let nodes = node_lines(alloc, store, &loaded.names.classes)?;
    let roles = role_lines(alloc, store, &loaded.names.roles)?;
    Ok(Evidence {
        kind,
        omitted,
        nodes,
        roles,
        body,
    })
}

// What a book says in which every rank is decided.
fn book_is_decided(loaded: &Loaded, book: &Book)
    requires tellable { IsTellable loaded.now }
    requires case { book.now.case ≡ arc_value loaded.now.case }
    requires decided { front_of book.now.marks ≡ ranks_of book.now.case }
    ensures own { IsDecidedBook book.now.case book.now.marks book.now.whys }
    ensures of_loaded { IsDecidedBook (arc_value loaded.now.case) book.now.marks book.now.whys }
{
    let _ = book.journal();
    front_is_the_least_undecided_rank();
    kept_ranks_have_the_mark();
}

/// The evidence of a diagnosis, from a book in which every rank is decided: each removed row with
/// its derivation, the model of the kept rows, and the journal. It is valid for the text of OUT
/// with just the kept rows, and has a text of its own.
pub fn evidence_of(alloc: Global, loaded: &Loaded, book: &Book) -> Result<Evidence, AllocError>
    requires tellable { IsTellable loaded.now }
    requires case { book.now.case ≡ arc_value loaded.now.case }
    requires decided { front_of book.now.marks ≡ ranks_of book.now.case }
    ensures valid { let order = (arc_value loaded.now.case).order in
        let out = repaired_text loaded.now.table (rows_ranked order (kept_of book.now.marks)) in
        IfOk result (IsValidEvidence loaded.now out) }
    ensures journal { IfOk result (IsJournalOf book.now.entries) }
    ensures text { IfOk result HasText }
{
    names_are_held(loaded);
    book_is_decided(loaded, book);
    let table = book.table();
    let entries = book.journal();
    let removed = removed_rows(alloc, book)?;
    let model = model_of(alloc, table)?;
    let journal = journal_of(alloc, entries)?;
    let body = Body::Diagnosis {
        removed,
        model,
        journal,
    };
    let evidence = evidence_with(alloc, loaded, Kind::Diagnosis, body)?;
    Ok(evidence)
}

/// The evidence of a refusal, from a derivation that shows the part of the ontologies incoherent
/// without any row. It is valid, and has a text.
pub fn evidence_against(
    alloc: Global,
    loaded: &Loaded,
    part: Part,
    steps: &Derivation,
) -> Result<Evidence, AllocError>
    requires tellable { IsTellable loaded.now }
    requires good { IsGoodDerivation (arc_value loaded.now.case) part [] steps.now }
    ensures valid { IfOk result (IsValidRefusal loaded.now part) }
    ensures text { IfOk result HasText }
{
    let case = case_of(loaded);
    let list = steps.as_slice();
    let told = steps_by_row(alloc, case, list)?;
    let body = Body::Refusal { steps: told };
    let evidence = evidence_with(alloc, loaded, Kind::Refusal(part), body)?;
    Ok(evidence)
}
