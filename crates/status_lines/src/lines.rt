//! The lines that a run prints.

ghost use Rattle.std.specs.Prelude.{◌≡◌, ◌≤◌, ◌++◌, codes, IfOk, string_bytes};
ghost use Rattle.status_lines.specs.Lines.{fault_text, limit_text, load_line, place_text, refusal_line, speaker_text, summary_text, usage_line};

use crate::kinds::{kind_text, part_text, role_text, side_text};
use crate::{Speaker, Status};
use case_load::{LimitKind, LoadFault};
use el_logic::{Part, Side};
use io_edge::{Role, Target};
use ofn_axiom::{DocKind, HeadId};
use sssom_rows::TableFault;
use std::alloc::{AllocError, Global};
use text_names::{Place, Text};

/// The line of words that are no command.
pub fn usage_line() -> &'static [u8]
    ensures { result.now ≡ usage_line }
{
    b"alod: usage: alod [--workers N] [--el-part] LEFT RIGHT MAP OUT EVIDENCE, or alod --made N \
[--workers N]\n"
}

/// The line of a run that is done.
pub fn summary(
    alloc: Global,
    rows: usize,
    kept: usize,
    inert: u32,
    omitted: u128,
) -> Result<String, AllocError>
    requires { kept ≤ rows }
    ensures { IfOk result (λ line. string_bytes line ≡ summary_text rows kept inert omitted) }
{
    let removed = rows - kept;
    format!(in alloc;
        "alod: rows {rows} kept {kept} removed {removed} inert {inert} omitted {omitted}\n"
    )
}

fn place_text(alloc: Global, side: Side, place: Place) -> Result<String, AllocError>
    ensures { IfOk result (λ text. string_bytes text ≡ place_text side place) }
{
    let side = side_text(side);
    let Place { line, column } = place;
    format!(in alloc; "{side}:{line}:{column}")
}

pub fn syntax_line(
    alloc: Global,
    speaker: Speaker,
    side: Side,
    place: Place,
    kind: DocKind,
) -> Result<String, AllocError>
    ensures { IfOk result (λ line.
        string_bytes line ≡ load_line speaker (LoadFault.Syntax side place kind)) }
{
    let place = place_text(alloc, side, place)?;
    let kind = kind_text(kind);
    let name = speaker.name();
    format!(in alloc; "{name}: {place}: {kind}\n")
}

fn fault_text(alloc: Global, fault: TableFault) -> Result<String, AllocError>
    ensures { IfOk result (λ text. string_bytes text ≡ fault_text fault) }
{
    match fault {
        TableFault::MapForm { line } => format!(in alloc; "line {line}: curie_map form"),
        TableFault::Again { line } => format!(in alloc; "line {line}: prefix again"),
        TableFault::NoColumns => format!(in alloc; "no columns"),
        TableFault::NotUtf8 { row } => format!(in alloc; "row {row}: not UTF-8"),
        TableFault::ColumnMissing { column } => format!(in alloc; "no column {}", column.name()),
        TableFault::ColumnTwice { column } => format!(in alloc; "column {} twice", column.name()),
        TableFault::TooManyRows => format!(in alloc; "too many rows"),
        TableFault::Ragged { row } => format!(in alloc; "row {row}: number of fields"),
        TableFault::Curie { row, column } => format!(in alloc; "row {row}: {}", column.name()),
        TableFault::Confidence { row } => format!(in alloc; "row {row}: confidence"),
        TableFault::OutOfMemory => format!(in alloc; "out of memory"),
    }
}

pub fn table_line(alloc: Global, speaker: Speaker, fault: TableFault) -> Result<String, AllocError>
    ensures { IfOk result (λ line.
        string_bytes line ≡ load_line speaker (LoadFault.Table fault)) }
{
    let fault = fault_text(alloc, fault)?;
    let name = speaker.name();
    format!(in alloc; "{name}: MAP: {fault}\n")
}

// The line up to the head.
fn profile_front(
    alloc: Global,
    speaker: Speaker,
    side: Side,
    place: Place,
) -> Result<String, AllocError>
    ensures { IfOk result (λ front. string_bytes front ≡ speaker_text speaker
        ++ (codes ": " ++ (place_text side place ++ codes ": not in the profile: "))) }
{
    let place = place_text(alloc, side, place)?;
    let name = speaker.name();
    format!(in alloc; "{name}: {place}: not in the profile: ")
}

pub fn profile_line(
    alloc: Global,
    speaker: Speaker,
    side: Side,
    place: Place,
    head: HeadId,
) -> Result<Vec<u8>, AllocError>
    ensures { IfOk result (λ line.
        line.items ≡ load_line speaker (LoadFault.Profile side place head)) }
{
    let front = profile_front(alloc, speaker, side, place)?;
    let mut line = Vec::from_slice(alloc, front.as_bytes())?;
    line.extend_from_slice(head.name())?;
    line.extend_from_slice(b"\n")?;
    Ok(line)
}

pub fn incoherent_line(alloc: Global, part: Part, class: &Text) -> Result<Vec<u8>, AllocError>
    ensures { IfOk result (λ line. line.items ≡ refusal_line (Status.Incoherent part class.now)) }
{
    let mut line = Vec::from_slice(alloc, b"alod: ")?;
    line.extend_from_slice(part_text(part).as_bytes())?;
    line.extend_from_slice(b" incoherent: <")?;
    line.extend_from_slice(class.bytes())?;
    line.extend_from_slice(b">\n")?;
    Ok(line)
}

fn limit_text(alloc: Global, kind: LimitKind) -> Result<String, AllocError>
    ensures { IfOk result (λ text. string_bytes text ≡ limit_text kind) }
{
    match kind {
        LimitKind::Bytes(file) => format!(in alloc; "{} bytes", role_text(file)),
        LimitKind::Depth(side) => format!(in alloc; "{} depth", side_text(side)),
        LimitKind::Classes(side) => format!(in alloc; "{} classes", side_text(side)),
        LimitKind::Properties(side) => format!(in alloc; "{} properties", side_text(side)),
        LimitKind::Rows => format!(in alloc; "rows"),
        LimitKind::Nodes => format!(in alloc; "nodes"),
        LimitKind::Roles => format!(in alloc; "roles"),
    }
}

pub fn limit_line(alloc: Global, speaker: Speaker, kind: LimitKind) -> Result<String, AllocError>
    ensures { IfOk result (λ line.
        string_bytes line ≡ load_line speaker (LoadFault.Limit kind)) }
{
    let kind = limit_text(alloc, kind)?;
    let name = speaker.name();
    format!(in alloc; "{name}: limit: {kind}\n")
}

pub fn cannot_read(speaker: Speaker, file: Role) -> &'static [u8]
    ensures { result.now ≡ load_line speaker (LoadFault.ReadFault file) }
{
    match (speaker, file) {
        (Speaker::Alod, Role::Left) => b"alod: cannot read LEFT\n",
        (Speaker::Alod, Role::Right) => b"alod: cannot read RIGHT\n",
        (Speaker::Alod, Role::Map) => b"alod: cannot read MAP\n",
        (Speaker::Alod, Role::Out) => b"alod: cannot read OUT\n",
        (Speaker::Alod, Role::Evidence) => b"alod: cannot read EVIDENCE\n",
        (Speaker::Alodcheck, Role::Left) => b"alodcheck: cannot read LEFT\n",
        (Speaker::Alodcheck, Role::Right) => b"alodcheck: cannot read RIGHT\n",
        (Speaker::Alodcheck, Role::Map) => b"alodcheck: cannot read MAP\n",
        (Speaker::Alodcheck, Role::Out) => b"alodcheck: cannot read OUT\n",
        (Speaker::Alodcheck, Role::Evidence) => b"alodcheck: cannot read EVIDENCE\n",
    }
}

pub fn out_of_memory(speaker: Speaker) -> &'static [u8]
    ensures { result.now ≡ load_line speaker LoadFault.OutOfMemory }
{
    match speaker {
        Speaker::Alod => b"alod: out of memory\n",
        Speaker::Alodcheck => b"alodcheck: out of memory\n",
    }
}

pub fn cannot_write(target: Target) -> &'static [u8]
    ensures { result.now ≡ refusal_line (Status.WriteFault target) }
{
    match target {
        Target::Out => b"alod: cannot write OUT\n",
        Target::Evidence => b"alod: cannot write EVIDENCE\n",
        Target::Output => b"",
    }
}
