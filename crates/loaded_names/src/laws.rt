//! Laws on what is loaded: functions that do nothing and whose contracts are the laws.

ghost use Rattle.std.specs.Prelude.{◌<◌, ◌^◌, length, None};
ghost use Rattle.text_names.specs.declared.limits.Limits.{Limits};
ghost use Rattle.ofn_axiom.specs.declared.types.Mode.{Mode};
ghost use Rattle.case_load.specs.Loads.{Inputs, IsLoaded};
ghost use Rattle.case_load.specs.declared.texts.Loaded.{Loaded};
ghost use Rattle.evidence_lines.specs.Omitted.{omitted_before};
ghost use Rattle.evidence_text.specs.EvidenceText.{InOrder, omitted_list};
ghost use Rattle.loaded_names.specs.Iris.{HaveIris};

use ofn_axiom::documents_are_what_they_say;
use ofn_lex::tokens_have_their_forms;
use ofn_term::{items_are_written_out, tokens_of_items_have_their_forms};
use text_names::places_ascend;

/// A name of a document has none of `<`, `>`, space and line feed: it is what a full IRI has between
/// its brackets, or the IRI of a prefix followed by the rest of a run.
pub fn loaded_names_are_iris()
    ensures { (texts : Inputs) (mode : Mode) (limits : Limits) (loaded : Loaded) →
        IsLoaded texts mode limits loaded → HaveIris loaded.names }
{
    documents_are_what_they_say();
    items_are_written_out();
    tokens_of_items_have_their_forms();
}

/// What is left out of both documents stands in the order of its places, LEFT's before RIGHT's. The
/// numbers of a place stop at `u64::MAX`, so this is said of texts that fit memory.
pub fn omitted_stand_in_order()
    ensures { (texts : Inputs) (mode : Mode) (limits : Limits) (loaded : Loaded) →
        length texts.left < 2 ^ 63 → length texts.right < 2 ^ 63 →
        IsLoaded texts mode limits loaded →
        InOrder omitted_before None (omitted_list loaded.omitted) }
{
    documents_are_what_they_say();
    items_are_written_out();
    tokens_have_their_forms();
    places_ascend();
}
