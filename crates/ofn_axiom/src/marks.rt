//! Places of offsets, each counted on from an earlier one if it can be.

ghost use Rattle.std.specs.Prelude.{◌≡◌, ◌≤◌, length};
ghost use Rattle.ofn_axiom.specs.Taking.{place_at};
ghost use Rattle.ofn_axiom.specs.Inside.Marks.{onward, IsMark};

use ofn_heads::piece;
use text_names::{Place, place_of};

// An offset of a text, and its place.
#[derive(Clone, Copy)]
pub struct Mark {
    pub at: usize,
    pub place: Place,
}

// The start of a text.
pub fn mark_of(text: &[u8]) -> Mark
    ensures { IsMark text.now result }
{
    Mark {
        at: 0,
        place: place_of(text, 0),
    }
}

// The place of an offset.
#[tactic(auto, using(crate::proofs::TakingLaws::whole_front))]
pub fn place_at(text: &[u8], at: usize) -> Place
    ensures { result ≡ place_at text.now at }
{
    let front = piece(text, 0, at).as_bytes();
    place_of(front, front.len())
}

fn onward(before: Place, more: Place) -> Place
    ensures { result ≡ onward before more }
{
    if more.line == 1 {
        return Place {
            line: before.line,
            column: before.column.saturating_add(more.column.saturating_sub(1)),
        };
    }
    Place {
        line: before.line.saturating_add(more.line.saturating_sub(1)),
        column: more.column,
    }
}

// The place of an offset that is not before the mark. The mark moves to it.
fn place_on(text: &[u8], mark: &mut Mark, at: usize) -> Place
    requires mark { IsMark text.now mark.old }
    requires after { mark.old.at ≤ at }
    requires within { at ≤ length text.now }
    ensures place { result ≡ place_at text.now at }
    ensures mark { IsMark text.now mark.new }
{
    let more = &text[mark.at..at];
    match str::from_utf8(more) {
        Ok(_) => {
            let place = onward(mark.place, place_of(more, more.len()));
            *mark = Mark { at, place };
            place
        }
        Err(_) => place_at(text, at),
    }
}

// The place of an offset, counted from the mark unless it is before it.
pub fn place_from(text: &[u8], mark: &mut Mark, at: usize) -> Place
    requires mark { IsMark text.now mark.old }
    ensures place { result ≡ place_at text.now at }
    ensures mark { IsMark text.now mark.new }
{
    if mark.at <= at && at <= text.len() {
        return place_on(text, mark, at);
    }
    place_at(text, at)
}
