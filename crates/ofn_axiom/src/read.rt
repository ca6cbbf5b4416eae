//! Reading a document.

ghost use Rattle.std.specs.Prelude.{◌≡◌, ◌≤◌, ◌+◌, length, false, IfOk, IfErr, IsUtf8};
ghost use Rattle.byte_words.specs.Faults.{OrOutOfMemory};
ghost use Rattle.ofn_axiom.specs.Documents.{placed, fault_at, IsDocAnswer, IsReading, IsDocFault, doc_ran_out, is_profile};
ghost use Rattle.ofn_axiom.specs.declared.types.Mode.TheVariants.{ElPart};
ghost use Rattle.ofn_axiom.specs.Inside.Places.{term_placed};
ghost use Rattle.ofn_axiom.specs.Taking.{IsNamesBefore};

use crate::document::document_of;
use crate::fault::{DocFault, DocKind, OffsetFault, Stop};
use crate::marks::place_at;
use crate::types::{Document, Mode, Names};
use byte_words::without_mark;
use ofn_term::{TermFault, items_are_written_out, read_items};
use std::alloc::Global;
use text_names::{Limits, place_of};

/// The axioms and names of a document in OWL 2 functional-style syntax, or its first fault. The
/// rules, with all heads and the order of faults, are in `docs/formats/documents.md`.
///
/// The names of the document are held after those of the documents before it, and its axioms are
/// over their numbers. After a refusal some of its names may be held, and those that were held
/// before still are.
///
/// In the mode `ElPart` an axiom that is outside the fragment is left out and listed, and none of
/// its names is held.
#[tactic(auto, using(crate::proofs::ReadLaws::mark_shorter))]
pub fn read_document(
    alloc: Global,
    bytes: &[u8],
    mode: Mode,
    limits: &Limits,
    names: &mut Names,
) -> Result<Document, DocFault>
    requires depth { limits.now.depth ≤ 256 }
    requires classes { names.old.classes.most ≡ limits.now.classes }
    requires properties { names.old.roles.most ≡ limits.now.properties }
    ensures answer { IsDocAnswer bytes.now mode limits.now.depth names.old names.new result }
    ensures profile { mode ≡ ElPart → IfErr result (λ fault. is_profile fault ≡ false) }
    ensures few { IfOk result (λ document.
        length document.axioms + length document.omitted ≤ length bytes.now) }
    ensures grows { IsNamesBefore names.old names.new }
{
    let text = without_mark(bytes);
    match str::from_utf8(text) {
        Ok(_) => {}
        Err(fault) => {
            return Err(DocFault::Syntax {
                place: place_of(text, fault.valid_up_to()),
                kind: DocKind::NotUtf8,
            });
        }
    }
    read_text(alloc, text, mode, limits.depth, names)
}

fn read_text(
    alloc: Global,
    text: &[u8],
    mode: Mode,
    depth: u32,
    names: &mut Names,
) -> Result<Document, DocFault>
    requires utf8 { IsUtf8 text.now }
    requires depth { depth ≤ 256 }
    ensures reading { IfOk result (IsReading text.now mode depth names.old names.new) }
    ensures fault { IfErr result (OrOutOfMemory doc_ran_out
        (IsDocFault text.now mode depth names.old)) }
    ensures profile { mode ≡ ElPart → IfErr result (λ fault. is_profile fault ≡ false) }
    ensures few { IfOk result (λ document.
        length document.axioms + length document.omitted ≤ length text.now) }
    ensures grows { IsNamesBefore names.old names.new }
{
    let items = match read_items(alloc, text, depth) {
        Ok(items) => items,
        Err(fault) => return Err(term_placed(text, fault)),
    };
    items_are_written_out();
    match document_of(alloc, text, mode, items.as_slice(), names) {
        Ok(document) => Ok(document),
        Err(Stop::Memory) => Err(DocFault::OutOfMemory),
        Err(Stop::Fault(fault)) => Err(placed(text, fault)),
    }
}

fn fault_at(text: &[u8], kind: DocKind, at: usize) -> DocFault
    ensures { result ≡ fault_at text.now kind at }
{
    DocFault::Syntax {
        place: place_at(text, at),
        kind,
    }
}

// A fault of tokens or brackets, with its place.
fn term_placed(text: &[u8], fault: TermFault) -> DocFault
    ensures { result ≡ term_placed text.now fault }
{
    match fault {
        TermFault::Lex { offset } => fault_at(text, DocKind::NoToken, offset),
        TermFault::Unopened { offset } => fault_at(text, DocKind::Unopened, offset),
        TermFault::Unclosed { offset } => fault_at(text, DocKind::Unclosed, offset),
        TermFault::TooDeep { .. } => DocFault::TooDeep,
        TermFault::OutOfMemory => DocFault::OutOfMemory,
    }
}

// A fault of what items say, with its place.
fn placed(text: &[u8], fault: OffsetFault) -> DocFault
    ensures { result ≡ placed text.now fault }
{
    match fault {
        OffsetFault::Head { at } => fault_at(text, DocKind::Head, at),
        OffsetFault::Shape { at } => fault_at(text, DocKind::Shape, at),
        OffsetFault::PrefixUnknown { at } => fault_at(text, DocKind::PrefixUnknown, at),
        OffsetFault::PrefixClash { at } => fault_at(text, DocKind::PrefixClash, at),
        OffsetFault::NoOntology { at } => fault_at(text, DocKind::NoOntology, at),
        OffsetFault::Profile { at, head } => DocFault::Profile {
            place: place_at(text, at),
            head,
        },
        OffsetFault::TooManyClasses => DocFault::TooManyClasses,
        OffsetFault::TooManyProperties => DocFault::TooManyProperties,
    }
}
