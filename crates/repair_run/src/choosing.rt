//! The rows to keep, and what is written of them.

ghost use Rattle.std.specs.Prelude.{◌≡◌, ◌≢◌, ◌≤◌, ◌<◌, ◌+◌, [], Some, length, IfOk, IfErr};
ghost use Rattle.byte_words.specs.Faults.{OrOutOfMemory};
ghost use Rattle.case_file.specs.Incoherence.{name_of};
ghost use Rattle.derivation.specs.Steps.{IsGoodDerivation};
ghost use Rattle.accuse_core.specs.Marks.{kept_of};
ghost use Rattle.saturate.specs.Decisions.{IsStartFault, start_ran_out};
ghost use Rattle.command_words.specs.Commands.{IsFromOneTo};
ghost use Rattle.repair_run.specs.declared.choosing.ChoiceStop.TheVariants.{OutOfMemory};
ghost use Rattle.repair_run.specs.Outcomes.{case_in, iri_of_class, omitted_count, out_text_of, IsEvidence, IsRefusalEvidence};
ghost use Rattle.repair_run.specs.Inside.Choices.{IsPlain, IsDecidedFor, IsChoice, IsChoiceStop, AreResultsOf};

use case_file::excusing_none_is_incoherence;
use case_load::Loaded;
use commit_book::Book;
use derivation::Derivation;
use diagnosis::{KeptRows, diagnose, kept_rows};
use el_logic::Part;
use evidence_text::write_evidence;
use evidence_values::evidence_is_a_value;
use io_edge::Gate;
use ofn_axiom::Names;
use repaired_table::write_table;
use run_evidence::{evidence_against, evidence_of};
use saturate::{StartFault, start};
use status_lines::summary;
use std::alloc::{AllocError, Global};
use std::sync::{Arc, Wait};
use std::thread::Threads;
use text_names::{Bytes, Text};

/// What is written: EVIDENCE, the text of OUT, and the summary.
#[derive(Drop)]
pub struct Results {
    pub evidence: Bytes,
    pub text: Bytes,
    pub line: String,
}

/// Why no rows are chosen.
#[derive(Drop)]
pub enum ChoiceStop {
    /// A part of the ontologies leaves a class empty: its IRI, and the evidence.
    Incoherent {
        part: Part,
        class: Text,
        evidence: Bytes,
    },
    OutOfMemory,
}

impl From<AllocError> for ChoiceStop {
    ghost from_gives = { λ _ stop. stop ≡ OutOfMemory };

    fn from(_error: AllocError) -> ChoiceStop {
        ChoiceStop::OutOfMemory
    }
}

// The IRI of a class that must have a member, by its node.
fn class_iri(alloc: Global, names: &Names, node: u32) -> Result<Text, AllocError>
    requires named { node < length names.now.classes.names + 2 }
    requires other { node ≢ 1 }
    ensures { IfOk result (λ iri. iri_of_class names.now.classes.names (name_of node) ≡ Some iri) }
{
    if node == 0 {
        let thing = Text::of(alloc, b"http://www.w3.org/2002/07/owl#Thing");
        return thing.map_err(|_| AllocError);
    }
    names.classes.at(node - 2).copy(alloc)
}

// The text of the evidence that a part is incoherent.
fn refusal_text(
    alloc: Global,
    loaded: &Loaded,
    part: Part,
    steps: &Derivation,
) -> Result<Bytes, AllocError>
    requires plain { IsPlain loaded.now }
    requires good { IsGoodDerivation (case_in loaded.now) part [] steps.now }
    ensures { IfOk result (IsRefusalEvidence loaded.now part) }
{
    let evidence = evidence_against(alloc, loaded, part, steps)?;
    evidence_is_a_value(&evidence);
    let text = write_evidence(alloc, &evidence)?;
    Ok(text)
}

// Why no rows are chosen if the ontologies leave a class empty.
fn refusal(alloc: Global, loaded: &Loaded, fault: StartFault) -> ChoiceStop
    requires plain { IsPlain loaded.now }
    requires fault { OrOutOfMemory start_ran_out (IsStartFault (case_in loaded.now)) fault }
    ensures { IsChoiceStop loaded.now result }
{
    excusing_none_is_incoherence();
    let StartFault::Incoherent {
        part,
        class,
        derivation,
    } = fault
    else {
        return ChoiceStop::OutOfMemory;
    };
    let Ok(evidence) = refusal_text(alloc, loaded, part, &derivation) else {
        return ChoiceStop::OutOfMemory;
    };
    match class_iri(alloc, &loaded.names, class) {
        Ok(class) => ChoiceStop::Incoherent {
            part,
            class,
            evidence,
        },
        Err(_) => ChoiceStop::OutOfMemory,
    }
}

// The book in which every rank is decided, if the ontologies leave no class empty.
fn decided<R: Threads + Wait + Sync, G: Gate>(
    rt: &R,
    alloc: Global,
    loaded: &Loaded,
    workers: u32,
    gate: &G,
) -> Result<Book, ChoiceStop>
    requires plain { IsPlain loaded.now }
    requires workers { IsFromOneTo 16 workers }
    ensures ok { IfOk result (IsDecidedFor loaded.now) }
    ensures err { IfErr result (IsChoiceStop loaded.now) }
{
    excusing_none_is_incoherence();
    let base = match start(alloc, &loaded.case) {
        Ok(base) => base,
        Err(fault) => return Err(refusal(alloc, loaded, fault)),
    };
    let case = Arc::try_clone(&loaded.case)?;
    let book = diagnose(rt, alloc, case, base, workers, gate)?;
    Ok(book)
}

// The text of the evidence for what is kept.
fn kept_text(alloc: Global, loaded: &Loaded, book: &Book) -> Result<Bytes, AllocError>
    requires plain { IsPlain loaded.now }
    requires book { IsDecidedFor loaded.now book.now }
    ensures { IfOk result
        (IsEvidence loaded.now (out_text_of loaded.now (kept_of book.now.marks))) }
{
    let evidence = evidence_of(alloc, loaded, book)?;
    evidence_is_a_value(&evidence);
    let text = write_evidence(alloc, &evidence)?;
    Ok(text)
}

// Which rows are kept.
fn chosen(alloc: Global, loaded: &Loaded, book: &Book) -> Result<KeptRows, AllocError>
    requires plain { IsPlain loaded.now }
    requires book { IsDecidedFor loaded.now book.now }
    ensures { IfOk result (IsChoice loaded.now (kept_of book.now.marks)) }
{
    let rows = kept_rows(alloc, book)?;
    Ok(rows)
}

// How many axioms were left out of both ontologies.
fn omitted_count(loaded: &Loaded) -> u128
    ensures { result ≡ omitted_count loaded.now }
{
    let left = loaded.omitted.left.len() as u128;
    let right = loaded.omitted.right.len() as u128;
    left + right
}

// EVIDENCE, the text of OUT and the summary of a book.
fn results_of(alloc: Global, loaded: &Loaded, book: &Book) -> Result<Results, AllocError>
    requires plain { IsPlain loaded.now }
    requires book { IsDecidedFor loaded.now book.now }
    ensures { IfOk result (AreResultsOf loaded.now) }
{
    let evidence = kept_text(alloc, loaded, book)?;
    let rows = chosen(alloc, loaded, book)?;
    let text = write_table(alloc, &loaded.table, rows.keep.as_slice())?;
    let count = loaded.table.rows.as_slice().len();
    let omitted = omitted_count(loaded);
    let line = summary(alloc, count, rows.kept, loaded.inert, omitted)?;
    Ok(Results {
        evidence,
        text,
        line,
    })
}

/// EVIDENCE, the text of OUT and the summary, if the ontologies leave no class empty.
pub fn repaired<R: Threads + Wait + Sync, G: Gate>(
    rt: &R,
    alloc: Global,
    loaded: &Loaded,
    workers: u32,
    gate: &G,
) -> Result<Results, ChoiceStop>
    requires plain { IsPlain loaded.now }
    requires workers { IsFromOneTo 16 workers }
    ensures ok { IfOk result (AreResultsOf loaded.now) }
    ensures err { IfErr result (IsChoiceStop loaded.now) }
{
    let book = match decided(rt, alloc, loaded, workers, gate) {
        Ok(book) => book,
        Err(stop) => return Err(stop),
    };
    match results_of(alloc, loaded, &book) {
        Ok(results) => Ok(results),
        Err(_) => Err(ChoiceStop::OutOfMemory),
    }
}
