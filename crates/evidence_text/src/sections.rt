//! Sections: a first line that counts, and the entries.

ghost use Rattle.std.specs.Prelude.{◌≡◌, ◌++◌, ℕ, List, Option, None, IfOk, OnOk};
ghost use Rattle.std.specs.Option.{option_copied};
ghost use Rattle.line_fields.specs.Lines.{line};
ghost use Rattle.evidence_text.specs.Reading.{entries, GivesRead};

use crate::EvidenceFault;
use line_fields::{Cursor, Fields};
use std::alloc::{AllocError, Global};
use text_names::Bytes;

/// What one line of a section is. Its form may depend on the entry before it.
pub trait LineEntry: Drop + Sized {
    ghost form: { Option Self → List (List ℕ) → Option Self };

    ghost spell: { Self → List (List ℕ) };

    fn read(
        alloc: Global,
        before: Option<&Self>,
        fields: Fields<'_>,
    ) -> Result<Option<Self>, AllocError>
        ensures { IfOk result (λ entry. entry ≡ form (option_copied before.entry) fields.entry) };

    fn put(&self, text: &mut Bytes) -> Result<(), AllocError>
        ensures { OnOk result (text.new ≡ text.old ++ line (spell self.now)) };
}

/// So many entries of the section that begins at this line.
pub fn entries<'a, X: LineEntry>(
    alloc: Global,
    first: u64,
    count: u64,
    cursor: Cursor<'a>,
) -> Result<(Vec<X>, Cursor<'a>), EvidenceFault>
    ensures { let found = entries X.form first count None cursor.entry in
        GivesRead (λ x. (x.0.items, x.1)) result found }
{
    let mut items = Vec::new(alloc);
    let mut at = cursor;
    while (items.len() as u64) < count {
        let Some((fields, next)) = at.next() else {
            return Err(EvidenceFault::Length { number: first });
        };
        let Some(item) = X::read(alloc, items.as_slice().last(), fields)? else {
            return Err(EvidenceFault::Line {
                number: next.read(),
            });
        };
        items.push(item)?;
        at = next;
    }
    Ok((items, at))
}
