//! The verdict on evidence.

ghost use Rattle.std.specs.Prelude.{◌≡◌, ◌≤◌, ◌<◌, ◌^◌, ℕ, List, IfOk, IfErr, MatchOption, string_bytes};
ghost use Rattle.byte_words.specs.Faults.{OrOutOfMemory};
ghost use Rattle.io_edge.specs.Outside.{FaultsNeverFall};
ghost use Rattle.case_load.specs.Loads.{IsLoaded};
ghost use Rattle.case_load.specs.Faults.{load_ran_out, IsFirstLoadFault};
ghost use Rattle.check_items.specs.Bad.{IsMade};
ghost use Rattle.evidence_text.specs.Reading.{FailsRead, text_read};
ghost use Rattle.check_run.specs.Files.{inputs_of, mode_of, IsFirstFaultFor};
ghost use Rattle.check_run.specs.Lines.{verdict_line};
ghost use Rattle.check_run.specs.Verdicts.{IsNoEvidence, IsVerdictOn};
ghost use Rattle.check_run.specs.Inside.Reads.{AreShort};
ghost use Rattle.check_run.specs.Inside.Stages.{IsCaseOfTexts, IsJudged, IsRefusedAnswer, IsRunAnswer};

use crate::lines::verdict_line;
use crate::reading::{CheckTexts, read_texts};
use case_load::{LoadFault, Loaded, assemble};
use check_items::{BadItem, check_diagnosis, check_refusal};
use command_words::CheckWords;
use evidence_text::{EvidenceFault, read_evidence};
use io_edge::Folder;
use ofn_axiom::Mode;
use std::alloc::{AllocError, Global};
use text_names::Limits;
use valid_evidence::{valid_evidence_shows_the_repair, valid_refusals_show_incoherence};

/// The first item that fails, if one does, and the line that tells it.
#[derive(Drop)]
pub struct Verdict {
    pub item: Option<BadItem>,
    pub line: String,
}

// The item that a text fails which is no evidence.
fn bad_text(fault: EvidenceFault) -> Result<Option<BadItem>, AllocError>
    ensures { (text : List ℕ) → FailsRead fault (text_read text)
        → IfOk result (λ found. MatchOption found ⊥ (IsNoEvidence text)) }
{
    match fault {
        EvidenceFault::Version => Ok(Some(BadItem::Version)),
        EvidenceFault::Line { number } => Ok(Some(BadItem::Line(number))),
        EvidenceFault::Length { number } => Ok(Some(BadItem::Length(number))),
        EvidenceFault::OutOfMemory => Err(AllocError),
    }
}

// What the evidence of a repair is answered.
fn run_answer(
    alloc: Global,
    loaded: &Loaded,
    texts: &CheckTexts,
) -> Result<Option<BadItem>, AllocError>
    requires { IsMade loaded.now }
    ensures { IfOk result (IsRunAnswer loaded.now texts.now) }
{
    match read_evidence(alloc, texts.evidence.as_slice()) {
        Ok(evidence) => check_diagnosis(alloc, loaded, texts.out.as_slice(), &evidence),
        Err(fault) => bad_text(fault),
    }
}

// What the evidence of a refusal is answered.
fn refused_answer(
    alloc: Global,
    loaded: &Loaded,
    texts: &CheckTexts,
) -> Result<Option<BadItem>, AllocError>
    requires { IsMade loaded.now }
    ensures { IfOk result (IsRefusedAnswer loaded.now texts.now) }
{
    match read_evidence(alloc, texts.evidence.as_slice()) {
        Ok(evidence) => check_refusal(alloc, loaded, &evidence),
        Err(fault) => bad_text(fault),
    }
}

// What the evidence is answered.
fn answer(
    alloc: Global,
    command: &CheckWords,
    loaded: &Loaded,
    texts: &CheckTexts,
) -> Result<Option<BadItem>, AllocError>
    requires { IsCaseOfTexts texts.now loaded.now }
    ensures { IfOk result (IsVerdictOn command.now loaded.now texts.now) }
{
    valid_evidence_shows_the_repair(loaded);
    valid_refusals_show_incoherence(loaded);
    match command {
        CheckWords::Repair { .. } => run_answer(alloc, loaded, texts),
        CheckWords::Refusal { .. } => refused_answer(alloc, loaded, texts),
    }
}

// The verdict with its line.
fn verdict_on(
    alloc: Global,
    command: &CheckWords,
    loaded: &Loaded,
    texts: &CheckTexts,
) -> Result<Verdict, AllocError>
    requires { IsCaseOfTexts texts.now loaded.now }
    ensures item { IfOk result (λ verdict.
        IsVerdictOn command.now loaded.now texts.now verdict.item) }
    ensures line { IfOk result (λ verdict.
        string_bytes verdict.line ≡ verdict_line loaded.now.names.classes.names verdict.item) }
{
    let item = answer(alloc, command, loaded, texts)?;
    let line = verdict_line(alloc, &loaded.names.classes, item)?;
    Ok(Verdict { item, line })
}

// What is done with axioms outside the fragment.
fn mode_of(command: &CheckWords) -> Mode
    ensures { result ≡ mode_of command.now }
{
    let el_part = match command {
        CheckWords::Repair { el_part, .. } => *el_part,
        CheckWords::Refusal { el_part, .. } => *el_part,
    };
    if el_part { Mode::ElPart } else { Mode::Strict }
}

// The case of the texts, or their first fault.
fn case_of(
    alloc: Global,
    command: &CheckWords,
    texts: &CheckTexts,
    limits: &Limits,
) -> Result<Loaded, LoadFault>
    requires depth { limits.now.depth ≤ 256 }
    requires short { AreShort texts.now }
    ensures loaded { IfOk result (IsLoaded (inputs_of texts.now) (mode_of command.now) limits.now) }
    ensures fault { let texts = inputs_of texts.now in IfErr result
        (OrOutOfMemory load_ran_out (IsFirstLoadFault texts (mode_of command.now) limits.now)) }
{
    let left = texts.left.as_slice();
    let right = texts.right.as_slice();
    let map = texts.map.as_slice();
    match assemble(alloc, left, right, map, mode_of(command), limits) {
        Ok(loaded) => Ok(loaded),
        Err(fault) => Err(fault),
    }
}

/// The verdict on the files of a command, or their first fault.
pub fn judged<F: Folder>(
    alloc: Global,
    command: &CheckWords,
    limits: &Limits,
    folder: &mut F,
) -> Result<Verdict, LoadFault>
    requires bytes { limits.now.file_bytes < 2 ^ 31 }
    requires depth { limits.now.depth ≤ 256 }
    ensures files { (F.seen folder.new).files ≡ (F.seen folder.old).files }
    ensures later { FaultsNeverFall (F.seen folder.old) (F.seen folder.new) }
    ensures judged { IfOk result (IsJudged (F.seen folder.old) command.now limits.now) }
    ensures fault { IfErr result (OrOutOfMemory load_ran_out
        (IsFirstFaultFor (F.seen folder.old) (F.seen folder.new) command.now limits.now)) }
{
    let texts = match read_texts(alloc, folder, command, limits.file_bytes) {
        Ok(texts) => texts,
        Err(fault) => return Err(fault),
    };
    let loaded = match case_of(alloc, command, &texts, limits) {
        Ok(loaded) => loaded,
        Err(fault) => return Err(fault),
    };
    match verdict_on(alloc, command, &loaded, &texts) {
        Ok(verdict) => Ok(verdict),
        Err(_) => Err(LoadFault::OutOfMemory),
    }
}
