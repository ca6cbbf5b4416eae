//! Laws on what is loaded: functions that do nothing and whose contracts are the laws.

ghost use Rattle.std.specs.Prelude.{◌≡◌, ◌<◌, ◌^◌, ℕ, List, length};
ghost use Rattle.text_names.specs.declared.limits.Limits.{Limits};
ghost use Rattle.concept_store.specs.Roles.{AreOver};
ghost use Rattle.ofn_axiom.specs.declared.types.Document.{Document};
ghost use Rattle.ofn_axiom.specs.declared.types.Mode.{Mode};
ghost use Rattle.ofn_axiom.specs.declared.types.Names.{Names};
ghost use Rattle.ofn_axiom.specs.Documents.{IsReading};
ghost use Rattle.case_load.specs.declared.texts.Loaded.{Loaded};
ghost use Rattle.case_load.specs.declared.fault.LoadFault.{LoadFault};
ghost use Rattle.case_load.specs.Loads.{Inputs, IsLoaded, SayTheSame};
ghost use Rattle.case_load.specs.Faults.{IsFirstLoadFault};

use ofn_axiom::each_document_has_one_answer;
use ofn_term::{items_are_written_out, tokens_of_items_have_their_forms};
use rank_order::{ranking_has_each_row_once, ranking_lists_by_rank};
use sssom_rows::bytes_have_one_table_or_first_fault;
use text_names::numbers_stay;

/// The axioms of a document that is read are over the names that are then held, and no chain is
/// empty. No list of them has more items than the text has bytes.
pub fn readings_are_over_their_names()
    ensures { (text : List ℕ) (mode : Mode) (depth : ℕ)
        (old new : Names) (document : Document) →
        length text < 2 ^ 31 → IsReading text mode depth old new document →
        AreOver (length new.classes.names) (length new.roles.names) document.axioms }
{
    numbers_stay();
    items_are_written_out();
    tokens_of_items_have_their_forms();
}

/// Texts have one case or one first fault, and never both.
pub fn texts_have_one_case_or_first_fault()
    ensures never_both { (texts : Inputs) (mode : Mode) (limits : Limits)
        (loaded : Loaded) (fault : LoadFault) → IsLoaded texts mode limits loaded →
        IsFirstLoadFault texts mode limits fault → ⊥ }
    ensures one_case { (texts : Inputs) (mode : Mode) (limits : Limits) (one other : Loaded) →
        IsLoaded texts mode limits one → IsLoaded texts mode limits other → SayTheSame one other }
    ensures one_fault { (texts : Inputs) (mode : Mode) (limits : Limits)
        (one other : LoadFault) → IsFirstLoadFault texts mode limits one →
        IsFirstLoadFault texts mode limits other → one ≡ other }
{
    each_document_has_one_answer();
    bytes_have_one_table_or_first_fault();
    ranking_has_each_row_once();
    ranking_lists_by_rank();
}
