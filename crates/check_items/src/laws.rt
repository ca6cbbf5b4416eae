//! A law on items: a function that does nothing and whose contract is the law.

ghost use Rattle.std.specs.Prelude.{◌≡◌, ℕ, List, Option};
ghost use Rattle.case_load.specs.declared.texts.Loaded.{Loaded};
ghost use Rattle.evidence_text.specs.declared.types.Evidence.{Evidence};
ghost use Rattle.valid_evidence.specs.Valid.{IsValidEvidence};
ghost use Rattle.check_items.specs.declared.item.BadItem.{BadItem};
ghost use Rattle.check_items.specs.Bad.{IsBadEvidence};

/// No item of valid evidence fails: so evidence that is valid is answered so.
pub fn evidence_has_one_answer()
    ensures { (loaded : Loaded) (out : List ℕ) (e : Evidence) (bad : BadItem)
        → IsValidEvidence loaded out e → IsBadEvidence loaded out e bad → ⊥ }
{}
