//! What is loaded has evidence.

ghost use Rattle.std.specs.Prelude.{◌<◌, ◌^◌, length};
ghost use Rattle.text_names.specs.declared.limits.Limits.{Limits};
ghost use Rattle.ofn_axiom.specs.declared.types.Mode.{Mode};
ghost use Rattle.case_load.specs.Loads.{Inputs, IsLoaded};
ghost use Rattle.run_evidence.specs.Tellable.{IsTellable};

use crate::cases::case_of;
use case_load::Loaded;
use loaded_names::{loaded_names_are_iris, omitted_stand_in_order};
use predicate_axioms::few_axioms_with_numbers_in_range;
use rank_order::ranking_has_each_row_once;

/// What is loaded is such that its evidence has a text: its names are IRIs, each row has one rank
/// and two axioms at most, and what is left out stands in order.
pub fn runs_are_tellable(loaded: &Loaded)
    ensures { (texts : Inputs) (mode : Mode) (limits : Limits) →
        length texts.left < 2 ^ 63 → length texts.right < 2 ^ 63 →
        IsLoaded texts mode limits loaded.now → IsTellable loaded.now }
{
    let _case = case_of(loaded);
    loaded_names_are_iris();
    omitted_stand_in_order();
    ranking_has_each_row_once();
    few_axioms_with_numbers_in_range();
}
