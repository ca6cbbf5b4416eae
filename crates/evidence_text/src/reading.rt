//! Reading evidence.

ghost use Rattle.std.specs.Prelude.{◌≡◌, ◌+◌, ◌++◌, ◌∷◌, [], None, Ok, IfOk, IfSome, length, OnOk, IsTrue};
ghost use Rattle.line_fields.specs.Reading.{At};
ghost use Rattle.evidence_lines.specs.StepReading.{step_of};
ghost use Rattle.evidence_lines.specs.Journal.{entry_of};
ghost use Rattle.evidence_lines.specs.Model.{members_of, pairs_of};
ghost use Rattle.evidence_text.specs.EvidenceText.{plain, plain_body, HasText, IsEvidenceValue, evidence_text};
ghost use Rattle.evidence_text.specs.declared.types.Evidence.{Evidence};
ghost use Rattle.evidence_lines.specs.FirstLines.{version_of, kind_of, count_of, size_of, row_of, end_of};
ghost use Rattle.evidence_text.specs.Reading.{next_line, first_line, section, entries, any_order, by_side, rows, removed_rows, run_at, diagnosis, refusal, body_by, ended, lines_read, text_read, first_piece, no_more, GivesRead};

use crate::laws::texts_are_what_is_read;
use crate::sections::{LineEntry, entries};
use crate::{Body, Evidence, EvidenceFault, Kind, Removed};
use accuse_core::{Entries, Entry};
use derivation::{Derivation, Step};
use el_logic::{Interp, MemberLists, PairLists, Side};
use evidence_lines::{
    NodeLine, NodeLines, RoleLine, RoleLines, SidedOmitted, count_of, is_last, is_other_version,
    is_version, kind_of, members_of, pairs_of, row_of, size_of,
};
use line_fields::{Cursor, Fields, parted};
use ofn_axiom::{OmittedList, SideOmitted};
use std::alloc::{AllocError, Global};

fn count_line<'a>(word: &[u8], cursor: Cursor<'a>) -> Result<(u64, Cursor<'a>), EvidenceFault>
    ensures count { GivesRead (λ x. x) result (first_line (count_of word.now) cursor.entry) }
    ensures read { IfOk result (λ x. x.1.read ≡ cursor.entry.read + 1) }
{
    let Some((fields, next)) = cursor.next() else {
        return Err(EvidenceFault::Length {
            number: cursor.read(),
        });
    };
    let Some(count) = count_of(word, fields) else {
        return Err(EvidenceFault::Line {
            number: next.read(),
        });
    };
    Ok((count, next))
}

fn kind_line(cursor: Cursor<'_>) -> Result<(Kind, Cursor<'_>), EvidenceFault>
    ensures { GivesRead (λ x. x) result (first_line kind_of cursor.entry) }
{
    let Some((fields, next)) = cursor.next() else {
        return Err(EvidenceFault::Length {
            number: cursor.read(),
        });
    };
    let Some(kind) = kind_of(fields) else {
        return Err(EvidenceFault::Line {
            number: next.read(),
        });
    };
    Ok((kind, next))
}

fn size_line(cursor: Cursor<'_>) -> Result<(u32, Cursor<'_>), EvidenceFault>
    ensures { GivesRead (λ x. x) result (first_line size_of cursor.entry) }
{
    let Some((fields, next)) = cursor.next() else {
        return Err(EvidenceFault::Length {
            number: cursor.read(),
        });
    };
    let Some(size) = size_of(fields) else {
        return Err(EvidenceFault::Line {
            number: next.read(),
        });
    };
    Ok((size, next))
}

fn row_line<'a>(
    first: u64,
    before: Option<u32>,
    cursor: Cursor<'a>,
) -> Result<((u32, u64), Cursor<'a>), EvidenceFault>
    ensures { let missing = EvidenceFault.Length first in
        GivesRead (λ x. x) result (next_line (row_of before) missing cursor.entry) }
{
    let Some((fields, next)) = cursor.next() else {
        return Err(EvidenceFault::Length { number: first });
    };
    let Some(row) = row_of(before, fields) else {
        return Err(EvidenceFault::Line {
            number: next.read(),
        });
    };
    Ok((row, next))
}

#[tactic(auto, unfolding(crate::specs::Reading::section))]
fn section<'a, X: LineEntry>(
    alloc: Global,
    word: &[u8],
    cursor: Cursor<'a>,
) -> Result<(Vec<X>, Cursor<'a>), EvidenceFault>
    ensures { GivesRead (λ x. (x.0.items, x.1)) result (section word.now X.form cursor.entry) }
{
    let (count, at) = count_line(word, cursor)?;
    let first = at.read();
    entries(alloc, first, count, at)
}

fn rows<'a>(
    alloc: Global,
    first: u64,
    count: u64,
    cursor: Cursor<'a>,
) -> Result<(Vec<Removed>, Cursor<'a>), EvidenceFault>
    ensures { GivesRead (λ x. (x.0.items, x.1)) result (rows first count None cursor.entry) }
{
    let mut removed = Vec::new(alloc);
    let mut before = None;
    let mut at = cursor;
    while (removed.len() as u64) < count {
        let ((row, steps), next) = row_line(first, before, at)?;
        let (steps, next) = entries::<Step>(alloc, first, steps, next)?;
        let steps = Derivation::from_vec(steps);
        removed.push(Removed { row, steps })?;
        before = Some(row);
        at = next;
    }
    Ok((removed, at))
}

#[tactic(auto, unfolding(crate::specs::Reading::removed_rows))]
fn removed_rows<'a>(
    alloc: Global,
    cursor: Cursor<'a>,
) -> Result<(Vec<Removed>, Cursor<'a>), EvidenceFault>
    ensures { GivesRead (λ x. (x.0.items, x.1)) result (removed_rows cursor.entry) }
{
    let (count, at) = count_line(b"removed", cursor)?;
    let first = at.read();
    rows(alloc, first, count, at)
}

fn classes<'a>(alloc: Global, cursor: Cursor<'a>) -> Result<(MemberLists, Cursor<'a>), AllocError>
    ensures { IfOk result (λ x. (x.0, x.1) ≡ run_at members_of cursor.entry) }
{
    let mut classes = MemberLists::new(alloc);
    let mut place = 0;
    let mut at = cursor;
    while let Some((fields, next)) = at.next() {
        let Some(members) = members_of(alloc, place, fields)? else {
            return Ok((classes, at));
        };
        classes.push(members)?;
        place += 1;
        at = next;
    }
    Ok((classes, at))
}

fn properties<'a>(alloc: Global, cursor: Cursor<'a>) -> Result<(PairLists, Cursor<'a>), AllocError>
    ensures { IfOk result (λ x. (x.0, x.1) ≡ run_at pairs_of cursor.entry) }
{
    let mut roles = PairLists::new(alloc);
    let mut place = 0;
    let mut at = cursor;
    while let Some((fields, next)) = at.next() {
        let Some(pairs) = pairs_of(alloc, place, fields)? else {
            return Ok((roles, at));
        };
        roles.push(pairs)?;
        place += 1;
        at = next;
    }
    Ok((roles, at))
}

fn journal_of(alloc: Global, list: &[Entry]) -> Result<Entries, AllocError>
    ensures { IfOk result (λ journal. journal.entries ≡ list.now) }
{
    let mut journal = Entries::new(alloc);
    journal.reserve(list.len())?;
    for entry in list {
        journal.push(*entry);
    }
    Ok(journal)
}

#[tactic(auto, unfolding(crate::specs::Reading::diagnosis))]
fn diagnosis<'a>(alloc: Global, cursor: Cursor<'a>) -> Result<(Body, Cursor<'a>), EvidenceFault>
    ensures { GivesRead (λ x. (plain_body x.0, x.1)) result (diagnosis cursor.entry) }
{
    let (removed, at) = removed_rows(alloc, cursor)?;
    let (size, at) = size_line(at)?;
    let (classes, at) = classes(alloc, at)?;
    let (roles, at) = properties(alloc, at)?;
    let (list, at) = section::<Entry>(alloc, b"journal", at)?;
    let journal = journal_of(alloc, list.as_slice())?;
    let body = Body::Diagnosis {
        removed: crate::RemovedList::from_vec(removed),
        model: Interp {
            size,
            classes,
            roles,
        },
        journal,
    };
    Ok((body, at))
}

#[tactic(auto, unfolding(crate::specs::Reading::refusal))]
fn refusal<'a>(alloc: Global, cursor: Cursor<'a>) -> Result<(Body, Cursor<'a>), EvidenceFault>
    ensures { GivesRead (λ x. (plain_body x.0, x.1)) result (refusal cursor.entry) }
{
    let (steps, at) = section::<Step>(alloc, b"steps", cursor)?;
    let body = Body::Refusal {
        steps: Derivation::from_vec(steps),
    };
    Ok((body, at))
}

fn body_by<'a>(
    alloc: Global,
    kind: Kind,
    cursor: Cursor<'a>,
) -> Result<(Body, Cursor<'a>), EvidenceFault>
    ensures { GivesRead (λ x. (plain_body x.0, x.1)) result (body_by kind cursor.entry) }
{
    match kind {
        Kind::Diagnosis => diagnosis(alloc, cursor),
        Kind::Refusal(_) => refusal(alloc, cursor),
    }
}

// Those of LEFT, and those of RIGHT.
fn by_side(alloc: Global, list: &[SidedOmitted]) -> Result<SideOmitted, AllocError>
    ensures { IfOk result (λ omitted. omitted ≡ by_side list.now) }
{
    let mut left = OmittedList::new(alloc);
    let mut right = OmittedList::new(alloc);
    for omitted in list {
        match omitted.side {
            Side::Left => left.push(omitted.omitted)?,
            Side::Right => right.push(omitted.omitted)?,
        }
    }
    Ok(SideOmitted { left, right })
}

fn version_line(cursor: Cursor<'_>) -> Result<Cursor<'_>, EvidenceFault>
    ensures { let missing = EvidenceFault.Line 1 in
        GivesRead (λ x. (tt, x)) result (next_line version_of missing cursor.entry) }
{
    let Some((fields, next)) = cursor.next() else {
        return Err(EvidenceFault::Line { number: 1 });
    };
    if is_version(fields) {
        Ok(next)
    } else {
        Err(EvidenceFault::Line {
            number: next.read(),
        })
    }
}

fn end_line(cursor: Cursor<'_>) -> Result<Cursor<'_>, EvidenceFault>
    ensures { GivesRead (λ x. (tt, x)) result (first_line end_of cursor.entry) }
{
    let Some((fields, next)) = cursor.next() else {
        return Err(EvidenceFault::Length {
            number: cursor.read(),
        });
    };
    if is_last(fields) {
        Ok(next)
    } else {
        Err(EvidenceFault::Line {
            number: next.read(),
        })
    }
}

fn ended(evidence: Evidence, cursor: Cursor<'_>) -> Result<Evidence, EvidenceFault>
    ensures { GivesRead plain result (ended (plain evidence) cursor.entry) }
{
    let at = end_line(cursor)?;
    let Some((_, after)) = at.next() else {
        return Ok(evidence);
    };
    Err(EvidenceFault::Line {
        number: after.read(),
    })
}

#[tactic(auto, unfolding(crate::specs::Reading::lines_read))]
fn lines_read(alloc: Global, cursor: Cursor<'_>) -> Result<Evidence, EvidenceFault>
    ensures { GivesRead plain result (lines_read cursor.entry) }
{
    let at = version_line(cursor)?;
    let (kind, at) = kind_line(at)?;
    let (list, at) = section::<SidedOmitted>(alloc, b"omitted", at)?;
    let (nodes, at) = section::<NodeLine>(alloc, b"nodes", at)?;
    let (roles, at) = section::<RoleLine>(alloc, b"roles", at)?;
    let (body, at) = body_by(alloc, kind, at)?;
    let omitted = by_side(alloc, list.as_slice())?;
    let evidence = Evidence {
        kind,
        omitted,
        nodes: NodeLines::from_vec(nodes),
        roles: RoleLines::from_vec(roles),
        body,
    };
    ended(evidence, at)
}

fn first_piece(text: &[u8]) -> &[u8]
    ensures { result.now ≡ first_piece text.now }
{
    match parted(text, b'\n') {
        Some((front, _)) => front,
        None => text,
    }
}

#[tactic(auto, unfolding(crate::specs::Reading::text_read))]
fn read(alloc: Global, bytes: &[u8]) -> Result<Evidence, EvidenceFault>
    ensures { GivesRead plain result (text_read bytes.now) }
{
    if is_other_version(Fields::of(first_piece(bytes))) {
        return Err(EvidenceFault::Version);
    }
    lines_read(alloc, Cursor::new(bytes))
}

/// Reads evidence, or answers the first fault of the text.
pub fn read_evidence(alloc: Global, bytes: &[u8]) -> Result<Evidence, EvidenceFault>
    ensures exact { GivesRead plain result (text_read bytes.now) }
    ensures found { IfOk result (λ e. HasText e × (bytes.now ≡ evidence_text e)) }
    ensures only { (e : Evidence) → HasText e → IsEvidenceValue e → bytes.now ≡ evidence_text e →
        GivesRead plain result (Ok (plain e)) }
{
    texts_are_what_is_read();
    read(alloc, bytes)
}
