//! Lines of axioms that are left out.

ghost use Rattle.std.specs.Prelude.{◌≡◌};
ghost use Rattle.evidence_lines.specs.Omitted.{is_earlier, omitted_before, head_in, omitted_of};

use crate::names::side_in;
use crate::types::SidedOmitted;
use el_logic::Side;
use line_fields::Fields;
use ofn_axiom::{HeadId, Omitted};
use text_names::Place;

fn head_in(fields: Fields<'_>) -> Option<(HeadId, Fields<'_>)>
    ensures { result ≡ head_in fields.entry }
{
    let (word, rest) = fields.next()?;
    let head = HeadId::named(word)?;
    Some((head, rest))
}

/// The axiom that a line with these fields is.
#[tactic(auto, unfolding(crate::specs::Omitted::omitted_of))]
pub fn omitted_of(fields: Fields<'_>) -> Option<SidedOmitted>
    ensures { result ≡ omitted_of fields.entry }
{
    let (side, rest) = side_in(fields)?;
    let (line, rest) = rest.long()?;
    let (column, rest) = rest.long()?;
    let (head, rest) = head_in(rest)?;
    if !rest.is_end() {
        return None;
    }
    let place = Place { line, column };
    let omitted = Omitted { place, head };
    Some(SidedOmitted { side, omitted })
}

fn is_earlier(place: Place, other: Place) -> bool
    ensures { result ≡ is_earlier place other }
{
    place.line < other.line || (place.line == other.line && place.column < other.column)
}

/// Whether an axiom comes before another: those of LEFT first, and in order of the text.
pub fn omitted_before(omitted: &SidedOmitted, other: &SidedOmitted) -> bool
    ensures { result ≡ omitted_before omitted.now other.now }
{
    let earlier = is_earlier(omitted.omitted.place, other.omitted.place);
    match (omitted.side, other.side) {
        (Side::Left, Side::Right) => true,
        (Side::Right, Side::Left) => false,
        _ => earlier,
    }
}
