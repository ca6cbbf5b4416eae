//! The texts of what answers name.

ghost use Rattle.std.specs.Prelude.{◌≡◌};
ghost use Rattle.status_lines.specs.Lines.{side_text, part_text, role_text, kind_text};

use el_logic::{Part, Side};
use io_edge::Role;
use ofn_axiom::DocKind;

pub fn side_text(side: Side) -> &'static str
    ensures { result.now ≡ side_text side }
{
    match side {
        Side::Left => "LEFT",
        Side::Right => "RIGHT",
    }
}

pub fn part_text(part: Part) -> &'static str
    ensures { result.now ≡ part_text part }
{
    match part {
        Part::Left => "LEFT",
        Part::Right => "RIGHT",
        Part::Both => "LEFT and RIGHT",
    }
}

pub fn role_text(file: Role) -> &'static str
    ensures { result.now ≡ role_text file }
{
    match file {
        Role::Left => "LEFT",
        Role::Right => "RIGHT",
        Role::Map => "MAP",
        Role::Out => "OUT",
        Role::Evidence => "EVIDENCE",
    }
}

pub fn kind_text(kind: DocKind) -> &'static str
    ensures { result.now ≡ kind_text kind }
{
    match kind {
        DocKind::NotUtf8 => "not UTF-8",
        DocKind::NoToken => "no token begins here",
        DocKind::Unopened => "closing bracket without partner",
        DocKind::Unclosed => "opening bracket without partner",
        DocKind::NoOntology => "no Ontology term",
        DocKind::Head => "unexpected item",
        DocKind::Shape => "wrong items for this head",
        DocKind::PrefixUnknown => "unknown prefix",
        DocKind::PrefixClash => "prefix declared with another IRI",
    }
}
