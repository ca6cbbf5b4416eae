//! Laws on small cases of the lines.

ghost use Rattle.std.specs.Prelude.{◌≡◌, [], ◌∷◌, None, Some, codes};
ghost use Rattle.fact_table.specs.declared.types.Source.TheVariants as Source;
ghost use Rattle.check_items.specs.declared.item.BadItem.TheVariants as BadItem;
ghost use Rattle.check_run.specs.Lines.{item_text, verdict_line};

/// The lines of small cases, as a reader sees them.
pub fn lines_of_small_verdicts()
    ensures yes { verdict_line [] None ≡ codes "alodcheck: yes\n" }
    ensures step { verdict_line [] (Some (BadItem.Step 2 3))
        ≡ codes "alodcheck: no: row 2 step 3\n" }
    ensures class { verdict_line (codes "http://l/A" ∷ codes "http://l/B" ∷ [])
        (Some (BadItem.Class 3)) ≡ codes "alodcheck: no: class <http://l/B> has no member\n" }
    ensures thing { item_text [] (BadItem.Class 0)
        ≡ codes "class <http://www.w3.org/2002/07/owl#Thing> has no member" }
    ensures axiom_left { item_text [] (BadItem.Axiom (Source.Left 4)) ≡ codes "axiom left 4" }
    ensures axiom_row { item_text [] (BadItem.Axiom (Source.Row 1 2)) ≡ codes "axiom row 1 2" }
    ensures length { item_text [] (BadItem.Length 15)
        ≡ codes "evidence ends in the section of line 15" }
    ensures entry { item_text [] (BadItem.Journal 2) ≡ codes "journal entry 2" }
{}
