//! Lines that are written.

ghost use Rattle.std.specs.Prelude.{◌≡◌, ◌++◌, ◌∷◌, [], decimal, OnOk};
ghost use Rattle.line_fields.specs.Lines.{line, spaced, joined};
ghost use Rattle.evidence_lines.specs.Steps.{fact_fields, premise_fields, source_fields, step_fields};
ghost use Rattle.evidence_lines.specs.Names.{iri_field, side_word, node_fields, role_fields};
ghost use Rattle.evidence_lines.specs.Omitted.{omitted_fields};

use crate::rules::{names_first, names_second, rule_word};
use crate::types::{NodeLine, RoleLine, SidedOmitted};
use derivation::Step;
use el_logic::Side;
use fact_table::{Fact, Source};
use line_fields::{end_line, put_field, put_number};
use std::alloc::AllocError;
use text_names::{Bytes, Text};

fn put_fact(text: &mut Bytes, fact: Fact) -> Result<(), AllocError>
    ensures { OnOk result (text.new ≡ text.old ++ joined (fact_fields fact)) }
{
    match fact {
        Fact::Sub(a, b) => {
            text.append(b"sub")?;
            put_number(text, u64::from(a))?;
            put_number(text, u64::from(b))
        }
        Fact::Link(a, role, b) => {
            text.append(b"link")?;
            put_number(text, u64::from(a))?;
            put_number(text, u64::from(role))?;
            put_number(text, u64::from(b))
        }
    }
}

fn put_premise(text: &mut Bytes, named: bool, number: usize) -> Result<(), AllocError>
    ensures { OnOk result (text.new ≡ text.old ++ spaced (premise_fields named number)) }
{
    if named {
        put_number(text, number as u64)
    } else {
        Ok(())
    }
}

fn put_source(text: &mut Bytes, source: Source) -> Result<(), AllocError>
    ensures { OnOk result (text.new ≡ text.old ++ spaced (source_fields source)) }
{
    match source {
        Source::Left(axiom) => {
            put_field(text, b"left")?;
            put_number(text, u64::from(axiom))
        }
        Source::Right(axiom) => {
            put_field(text, b"right")?;
            put_number(text, u64::from(axiom))
        }
        Source::Row { rank, number } => {
            put_field(text, b"row")?;
            put_number(text, u64::from(rank))?;
            put_number(text, u64::from(number))
        }
        Source::Nothing => Ok(()),
    }
}

/// Puts the line of a step.
pub fn put_step(text: &mut Bytes, step: &Step) -> Result<(), AllocError>
    ensures { OnOk result (text.new ≡ text.old ++ line (step_fields step.now)) }
{
    put_fact(text, step.fact)?;
    put_field(text, rule_word(step.rule))?;
    put_premise(text, names_first(step.rule), step.first)?;
    put_premise(text, names_second(step.rule), step.second)?;
    put_source(text, step.source)?;
    end_line(text)
}

fn put_iri(text: &mut Bytes, iri: &Text) -> Result<(), AllocError>
    ensures { OnOk result (text.new ≡ text.old ++ 32 ∷ iri_field iri.now) }
{
    text.append(b" <")?;
    text.append(iri.bytes())?;
    text.append(b">")
}

fn put_two(text: &mut Bytes, first: u32, second: u32) -> Result<(), AllocError>
    ensures { OnOk result (text.new ≡ text.old ++ spaced (decimal first ∷ decimal second ∷ [])) }
{
    put_number(text, u64::from(first))?;
    put_number(text, u64::from(second))
}

/// Puts the line of a node.
pub fn put_node(text: &mut Bytes, node: &NodeLine) -> Result<(), AllocError>
    ensures { OnOk result (text.new ≡ text.old ++ line (node_fields node.now)) }
{
    match node {
        NodeLine::Top => text.append(b"top")?,
        NodeLine::Bottom => text.append(b"bottom")?,
        NodeLine::Class(iri) => {
            text.append(b"class")?;
            put_iri(text, iri)?;
        }
        NodeLine::And(i, j) => {
            text.append(b"and")?;
            put_two(text, *i, *j)?;
        }
        NodeLine::Exists(role, i) => {
            text.append(b"some")?;
            put_two(text, *role, *i)?;
        }
    }
    end_line(text)
}

fn side_word(side: Side) -> &'static [u8]
    ensures { result.now ≡ side_word side }
{
    match side {
        Side::Left => b"left",
        Side::Right => b"right",
    }
}

/// Puts the line of a role.
pub fn put_role(text: &mut Bytes, role: &RoleLine) -> Result<(), AllocError>
    ensures { OnOk result (text.new ≡ text.old ++ line (role_fields role.now)) }
{
    match role {
        RoleLine::Property(iri) => {
            text.append(b"property")?;
            put_iri(text, iri)?;
        }
        RoleLine::Part {
            side,
            axiom,
            length,
        } => {
            text.append(b"part")?;
            put_field(text, side_word(*side))?;
            put_two(text, *axiom, *length)?;
        }
    }
    end_line(text)
}

/// Puts the line of an axiom that is left out.
pub fn put_omitted(text: &mut Bytes, omitted: &SidedOmitted) -> Result<(), AllocError>
    ensures { OnOk result (text.new ≡ text.old ++ line (omitted_fields omitted.now)) }
{
    text.append(side_word(omitted.side))?;
    put_number(text, omitted.omitted.place.line)?;
    put_number(text, omitted.omitted.place.column)?;
    put_field(text, omitted.omitted.head.name())?;
    end_line(text)
}
