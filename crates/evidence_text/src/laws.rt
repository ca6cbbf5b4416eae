//! A law on evidence and texts: a function that does nothing and whose contract is the law.

ghost use Rattle.std.specs.Prelude.{◌≡◌, ℕ, List, Ok};
ghost use Rattle.evidence_text.specs.declared.types.Evidence.{Evidence};
ghost use Rattle.evidence_text.specs.EvidenceText.{evidence_text, HasText, IsEvidenceValue, plain};
ghost use Rattle.evidence_text.specs.Reading.{text_read};

use evidence_lines::{
    entry_lines, first_lines, model_lines, node_lines, omitted_lines, role_lines, step_lines,
};
use line_fields::lines_are_what_is_written;

/// Evidence that has a text is read again from it, and a text is read only as evidence that has
/// this text. So a text is that of one value at most, apart from the room of its journal.
pub fn texts_are_what_is_read()
    ensures again { (e : Evidence) → HasText e → IsEvidenceValue e →
        text_read (evidence_text e) ≡ Ok (plain e) }
    ensures back { (text : List ℕ) (e : Evidence) → text_read text ≡ Ok e →
        (text ≡ evidence_text e) × HasText e × IsEvidenceValue e }
    ensures alone { (e other : Evidence) → HasText e → IsEvidenceValue e →
        HasText other → IsEvidenceValue other →
        evidence_text e ≡ evidence_text other → plain e ≡ plain other }
{
    first_lines();
    lines_are_what_is_written();
    step_lines();
    node_lines();
    role_lines();
    omitted_lines();
    entry_lines();
    model_lines();
}
