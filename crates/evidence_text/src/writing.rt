//! Writing evidence.

ghost use Rattle.std.specs.Prelude.{◌≡◌, ◌++◌, ◌∷◌, [], map, length, codes, IfOk, OnOk};
ghost use Rattle.std.specs.List.{flat_map};
ghost use Rattle.line_fields.specs.Lines.{line, text_of};
ghost use Rattle.evidence_lines.specs.Omitted.{omitted_fields};
ghost use Rattle.evidence_lines.specs.Model.{class_fields, property_fields};
ghost use Rattle.evidence_lines.specs.Steps.{step_fields};
ghost use Rattle.evidence_lines.specs.FirstLines.{version_fields, part_word, kind_fields, numbered, row_fields, end_fields};
ghost use Rattle.evidence_text.specs.EvidenceText.{section_lines, of_side, omitted_list, removed_lines, rows_lines, lines_from, model_lines, body_lines, lists_lines, evidence_lines, evidence_text, HasText};

use crate::sections::LineEntry;
use crate::{Body, Evidence, Kind, Removed};
use el_logic::{Interp, Numbers, Pairs, Side};
use evidence_lines::{
    SidedOmitted, put_end, put_kind, put_members, put_numbered, put_omitted, put_pairs, put_row,
    put_version,
};
use ofn_axiom::{Omitted, SideOmitted};
use std::alloc::{AllocError, Global};
use text_names::Bytes;

#[tactic(auto, using(crate::proofs::WriteLaws::line_more))]
fn put_entries<X: LineEntry>(text: &mut Bytes, items: &[X]) -> Result<(), AllocError>
    ensures { OnOk result (text.new ≡ text.old ++ text_of (map X.spell items.now)) }
{
    for item in items {
        item.put(text)?;
    }
    Ok(())
}

#[tactic(auto, using(crate::proofs::WriteLaws::line_more))]
fn put_section<X: LineEntry>(text: &mut Bytes, word: &[u8], items: &[X]) -> Result<(), AllocError>
    ensures { OnOk result
        (text.new ≡ text.old ++ text_of (section_lines word.now X.spell items.now)) }
{
    put_numbered(text, word, items.len() as u64)?;
    put_entries(text, items)
}

#[tactic(auto, using(crate::proofs::WriteLaws::line_more))]
fn put_side(text: &mut Bytes, side: Side, list: &[Omitted]) -> Result<(), AllocError>
    ensures { OnOk result
        (text.new ≡ text.old ++ text_of (map omitted_fields (map (of_side side) list.now))) }
{
    for omitted in list {
        put_omitted(
            text,
            &SidedOmitted {
                side,
                omitted: *omitted,
            },
        )?;
    }
    Ok(())
}

#[tactic(auto, using(crate::proofs::WriteLaws::line_more, crate::proofs::WriteLaws::omitted_count, crate::proofs::WriteLaws::omitted_texts))]
fn put_left_out(text: &mut Bytes, omitted: &SideOmitted) -> Result<(), AllocError>
    ensures { let list = omitted_list omitted.now in OnOk result
        (text.new ≡ text.old ++ text_of (section_lines (codes "omitted") omitted_fields list)) }
{
    let left = omitted.left.as_slice();
    let right = omitted.right.as_slice();
    let Some(count) = left.len().checked_add(right.len()) else {
        return Err(AllocError);
    };
    put_numbered(text, b"omitted", count as u64)?;
    put_side(text, Side::Left, left)?;
    put_side(text, Side::Right, right)
}

#[tactic(auto, using(crate::proofs::WriteLaws::line_more))]
fn put_removed(text: &mut Bytes, removed: &Removed) -> Result<(), AllocError>
    ensures { OnOk result (text.new ≡ text.old ++ text_of (removed_lines removed.now)) }
{
    let steps = removed.steps.as_slice();
    put_row(text, removed.row, steps.len() as u64)?;
    put_entries(text, steps)
}

#[tactic(auto, using(crate::proofs::WriteLaws::line_more, crate::proofs::WriteLaws::lines_more))]
fn put_each(text: &mut Bytes, rows: &[Removed]) -> Result<(), AllocError>
    ensures { OnOk result (text.new ≡ text.old ++ text_of (flat_map removed_lines rows.now)) }
{
    for removed in rows {
        put_removed(text, removed)?;
    }
    Ok(())
}

#[tactic(auto, using(crate::proofs::WriteLaws::line_more))]
fn put_rows(text: &mut Bytes, rows: &[Removed]) -> Result<(), AllocError>
    ensures { OnOk result (text.new ≡ text.old ++ text_of (rows_lines rows.now)) }
{
    put_numbered(text, b"removed", rows.len() as u64)?;
    put_each(text, rows)
}

#[tactic(auto, using(crate::proofs::WriteLaws::line_more, crate::proofs::WriteLaws::lines_more))]
fn put_classes(text: &mut Bytes, classes: &[Numbers]) -> Result<(), AllocError>
    ensures { OnOk result (text.new ≡ text.old ++ text_of (lines_from class_fields 0 classes.now)) }
{
    for (place, members) in classes.iter().enumerate() {
        put_members(text, place as u64, members.as_slice())?;
    }
    Ok(())
}

#[tactic(auto, using(crate::proofs::WriteLaws::line_more, crate::proofs::WriteLaws::lines_more))]
fn put_properties(text: &mut Bytes, roles: &[Pairs]) -> Result<(), AllocError>
    ensures { OnOk result
        (text.new ≡ text.old ++ text_of (lines_from property_fields 0 roles.now)) }
{
    for (place, pairs) in roles.iter().enumerate() {
        put_pairs(text, place as u64, pairs.as_slice())?;
    }
    Ok(())
}

#[tactic(auto, using(crate::proofs::WriteLaws::line_more, crate::proofs::WriteLaws::lines_more))]
fn put_model(text: &mut Bytes, model: &Interp) -> Result<(), AllocError>
    ensures { OnOk result (text.new ≡ text.old ++ text_of (model_lines model.now)) }
{
    put_numbered(text, b"model", u64::from(model.size))?;
    put_classes(text, model.classes.as_slice())?;
    put_properties(text, model.roles.as_slice())
}

#[tactic(auto, using(crate::proofs::WriteLaws::line_more, crate::proofs::WriteLaws::lines_more))]
fn put_body(text: &mut Bytes, body: &Body) -> Result<(), AllocError>
    ensures { OnOk result (text.new ≡ text.old ++ text_of (body_lines body.now)) }
{
    match body {
        Body::Diagnosis {
            removed,
            model,
            journal,
        } => {
            put_rows(text, removed.as_slice())?;
            put_model(text, model)?;
            put_section(text, b"journal", journal.as_slice())
        }
        Body::Refusal { steps } => put_section(text, b"steps", steps.as_slice()),
    }
}

fn put_head(text: &mut Bytes, kind: Kind) -> Result<(), AllocError>
    ensures { OnOk result
        (text.new ≡ (text.old ++ line version_fields) ++ line (kind_fields kind)) }
{
    put_version(text)?;
    put_kind(text, kind)
}

#[tactic(auto, using(crate::proofs::WriteLaws::line_more, crate::proofs::WriteLaws::lines_more))]
fn put_lists(text: &mut Bytes, evidence: &Evidence) -> Result<(), AllocError>
    ensures { let e = evidence.now in OnOk result (text.new ≡ text.old ++ text_of (lists_lines e)) }
{
    put_left_out(text, &evidence.omitted)?;
    put_section(text, b"nodes", evidence.nodes.as_slice())?;
    put_section(text, b"roles", evidence.roles.as_slice())
}

/// Writes evidence. It has to have a text: kind and body agree, each entry has a line, and lists
/// are in their order.
pub fn write_evidence(alloc: Global, evidence: &Evidence) -> Result<Bytes, AllocError>
    requires { HasText evidence.now }
    ensures { IfOk result (λ text. text ≡ evidence_text evidence.now) }
{
    let mut text = Bytes::new(alloc);
    put_head(&mut text, evidence.kind)?;
    put_lists(&mut text, evidence)?;
    put_body(&mut text, &evidence.body)?;
    put_end(&mut text)?;
    Ok(text)
}
