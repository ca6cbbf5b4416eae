//! Lines of nodes and roles.

ghost use Rattle.std.specs.Prelude.{◌≡◌, ◌++◌, OnOk, IfOk};
ghost use Rattle.std.specs.Option.{option_map};
ghost use Rattle.std.specs.Str.{is_utf8};
ghost use Rattle.evidence_lines.specs.Names.{is_iri, is_iri_byte, without_back, if_iri, iri_of, iri_in, one_iri, two_numbers, class_of, and_of, some_of, plain_by, node_by, node_of, side_named, side_in, property_of, part_of, role_by, role_of};

use crate::types::{NodeLine, RoleLine};
use byte_words::without_front;
use el_logic::Side;
use line_fields::Fields;
use std::alloc::{AllocError, Global};
use text_names::{Text, TextFault};

fn is_iri_byte(byte: u8) -> bool
    ensures { result ≡ is_iri_byte byte }
{
    !matches!(byte, b'<' | b'>' | b' ' | b'\n')
}

fn is_iri(bytes: &[u8]) -> bool
    ensures { result ≡ is_iri bytes.now }
{
    bytes.iter().all(|byte| is_iri_byte(*byte))
}

fn without_back<'a>(text: &'a [u8], back: &[u8]) -> Option<&'a [u8]>
    ensures { option_map (λ front. front.now) result ≡ without_back back.now text.now }
{
    text.strip_suffix(back)
}

fn if_iri(alloc: Global, bytes: &[u8]) -> Result<Option<Text>, AllocError>
    ensures { IfOk result (λ iri. iri ≡ if_iri bytes.now) }
{
    if !is_iri(bytes) {
        return Ok(None);
    }
    match Text::of(alloc, bytes) {
        Ok(iri) => Ok(Some(iri)),
        Err(TextFault::NotUtf8 { offset: _ }) => Ok(None),
        Err(TextFault::OutOfMemory) => Err(AllocError),
    }
}

fn iri_of(alloc: Global, field: &[u8]) -> Result<Option<Text>, AllocError>
    ensures { IfOk result (λ iri. iri ≡ iri_of field.now) }
{
    let Some(rest) = without_front(field, b"<") else {
        return Ok(None);
    };
    let Some(bytes) = without_back(rest, b">") else {
        return Ok(None);
    };
    if_iri(alloc, bytes)
}

fn one_iri(alloc: Global, fields: Fields<'_>) -> Result<Option<Text>, AllocError>
    ensures { IfOk result (λ iri. iri ≡ one_iri fields.entry) }
{
    let Some((field, rest)) = fields.next() else {
        return Ok(None);
    };
    let Some(iri) = iri_of(alloc, field)? else {
        return Ok(None);
    };
    if rest.is_end() {
        Ok(Some(iri))
    } else {
        Ok(None)
    }
}

fn two_numbers(fields: Fields<'_>) -> Option<(u32, u32)>
    ensures { result ≡ two_numbers fields.entry }
{
    let (first, rest) = fields.short()?;
    let (second, rest) = rest.short()?;
    if rest.is_end() {
        Some((first, second))
    } else {
        None
    }
}

fn class_of(alloc: Global, fields: Fields<'_>) -> Result<Option<NodeLine>, AllocError>
    ensures { IfOk result (λ node. node ≡ class_of fields.entry) }
{
    let Some(iri) = one_iri(alloc, fields)? else {
        return Ok(None);
    };
    Ok(Some(NodeLine::Class(iri)))
}

// A node with this word that has no IRI.
fn plain_by(word: &[u8], fields: Fields<'_>) -> Option<NodeLine>
    ensures { result ≡ plain_by word.now fields.entry }
{
    if word == b"top".as_slice() {
        return if fields.is_end() {
            Some(NodeLine::Top)
        } else {
            None
        };
    }
    if word == b"bottom".as_slice() {
        return if fields.is_end() {
            Some(NodeLine::Bottom)
        } else {
            None
        };
    }
    if word == b"and".as_slice() {
        let (first, second) = two_numbers(fields)?;
        return Some(NodeLine::And(first, second));
    }
    if word == b"some".as_slice() {
        let (role, node) = two_numbers(fields)?;
        return Some(NodeLine::Exists(role, node));
    }
    None
}

/// The node that a line with these fields is.
#[tactic(auto, unfolding(crate::specs::Names::node_of))]
pub fn node_of(alloc: Global, fields: Fields<'_>) -> Result<Option<NodeLine>, AllocError>
    ensures { IfOk result (λ node. node ≡ node_of fields.entry) }
{
    let Some((word, rest)) = fields.next() else {
        return Ok(None);
    };
    if word == b"class".as_slice() {
        return class_of(alloc, rest);
    }
    Ok(plain_by(word, rest))
}

fn side_named(word: &[u8]) -> Option<Side>
    ensures { result ≡ side_named word.now }
{
    if word == b"left".as_slice() {
        return Some(Side::Left);
    }
    if word == b"right".as_slice() {
        return Some(Side::Right);
    }
    None
}

/// The document that is the next field, and the fields after it.
pub fn side_in(fields: Fields<'_>) -> Option<(Side, Fields<'_>)>
    ensures { result ≡ side_in fields.entry }
{
    let (word, rest) = fields.next()?;
    let side = side_named(word)?;
    Some((side, rest))
}

fn property_of(alloc: Global, fields: Fields<'_>) -> Result<Option<RoleLine>, AllocError>
    ensures { IfOk result (λ role. role ≡ property_of fields.entry) }
{
    let Some(iri) = one_iri(alloc, fields)? else {
        return Ok(None);
    };
    Ok(Some(RoleLine::Property(iri)))
}

fn part_of(fields: Fields<'_>) -> Option<RoleLine>
    ensures { result ≡ part_of fields.entry }
{
    let (side, rest) = side_in(fields)?;
    let (axiom, length) = two_numbers(rest)?;
    Some(RoleLine::Part {
        side,
        axiom,
        length,
    })
}

/// The role that a line with these fields is.
#[tactic(auto, unfolding(crate::specs::Names::role_of))]
pub fn role_of(alloc: Global, fields: Fields<'_>) -> Result<Option<RoleLine>, AllocError>
    ensures { IfOk result (λ role. role ≡ role_of fields.entry) }
{
    let Some((word, rest)) = fields.next() else {
        return Ok(None);
    };
    if word == b"property".as_slice() {
        return property_of(alloc, rest);
    }
    if word == b"part".as_slice() {
        return Ok(part_of(rest));
    }
    Ok(None)
}
