//! Laws on lines: functions that do nothing and whose contracts are the laws.

ghost use Rattle.std.specs.Prelude.{◌≡◌, ℕ, ◌+◌, ◌<◌, ◌^◌, ⊤, true, List, codes, Option, None};
ghost use Rattle.line_fields.specs.Lines.{Fields};
ghost use Rattle.evidence_lines.specs.LineLaw.{AreLinesOf};
ghost use Rattle.evidence_lines.specs.Steps.{step_fields, HasStepLine, AreStepNumbers};
ghost use Rattle.evidence_lines.specs.StepReading.{step_of};
ghost use Rattle.evidence_lines.specs.Names.{node_fields, role_fields, HasNodeLine, HasRoleLine, node_of, role_of, IsNodeValue, IsRoleValue};
ghost use Rattle.evidence_lines.specs.Omitted.{omitted_fields, omitted_of, ArePlaceNumbers};
ghost use Rattle.evidence_lines.specs.Journal.{entry_fields, HasEntryLine, entry_of, AreEntryNumbers};
ghost use Rattle.evidence_lines.specs.Model.{class_fields, property_fields, HasClassLine, HasPropertyLine, members_of, pairs_of, AreElementNumbers, ArePairNumbers};
ghost use Rattle.evidence_lines.specs.Model.{number_follows};
ghost use Rattle.evidence_lines.specs.FirstLines.{version_fields, kind_fields, numbered, row_fields, end_fields, is_plain, version_of, kind_of, count_of, size_of, row_of, end_of};

use byte_words::fronts_are_left_out;
use line_fields::numbers_are_decimal;
use ofn_heads::names_of_heads_are_told_apart;

/// Lines of steps are read as what they spell.
pub fn step_lines()
    ensures { AreLinesOf step_of step_fields HasStepLine AreStepNumbers }
{
    numbers_are_decimal();
}

/// Lines of nodes are read as what they spell.
pub fn node_lines()
    ensures { AreLinesOf node_of node_fields HasNodeLine IsNodeValue }
{
    numbers_are_decimal();
    fronts_are_left_out();
}

/// Lines of roles are read as what they spell.
pub fn role_lines()
    ensures { AreLinesOf role_of role_fields HasRoleLine IsRoleValue }
{
    numbers_are_decimal();
    fronts_are_left_out();
}

/// Lines of axioms that are left out are read as what they spell.
pub fn omitted_lines()
    ensures { AreLinesOf omitted_of omitted_fields (λ o. ⊤) ArePlaceNumbers }
{
    numbers_are_decimal();
    names_of_heads_are_told_apart();
}

/// Lines of journals are read as what they spell.
pub fn entry_lines()
    ensures { AreLinesOf entry_of entry_fields HasEntryLine AreEntryNumbers }
{
    numbers_are_decimal();
}

/// Lines of a model are read as what they spell.
pub fn model_lines()
    ensures classes { (place : ℕ) → AreLinesOf (members_of place) (class_fields place)
        (HasClassLine place) AreElementNumbers }
    ensures properties { (place : ℕ) → AreLinesOf (pairs_of place) (property_fields place)
        (HasPropertyLine place) ArePairNumbers }
{
    numbers_are_decimal();
}

/// Lines that begin a section, or end the text, are read as what they spell.
pub fn first_lines()
    ensures version { AreLinesOf version_of (λ u. version_fields) (λ u. ⊤) (λ u. ⊤) }
    ensures kinds { AreLinesOf kind_of kind_fields (λ k. ⊤) (λ k. ⊤) }
    ensures counts { (word : List ℕ) → is_plain word ≡ true →
        AreLinesOf (count_of word) (numbered word) (λ n. ⊤) (λ n. n < 2 ^ 64) }
    ensures rows { (before : Option ℕ) → AreLinesOf (row_of before) (λ r. row_fields r.0 r.1)
        (λ r. number_follows before r.0 ≡ true) (λ r. (r.0 < 2 ^ 32) × (r.1 < 2 ^ 64)) }
    ensures size { AreLinesOf size_of (numbered (codes "model")) (λ n. ⊤) (λ n. n < 2 ^ 32) }
    ensures end { AreLinesOf end_of (λ u. end_fields) (λ u. ⊤) (λ u. ⊤) }
{
    numbers_are_decimal();
}
