//! Laws on names and places: functions that do nothing and whose contracts are the laws.

ghost use Rattle.std.specs.Prelude.{◌≡◌, ◌<◌, ◌≤◌, ◌^◌, ◌++◌, ℕ, List, [], Some, length, take, IsUtf8};
ghost use Rattle.text_names.specs.Names.{number_of, number_or_next, with_name, AreDistinct};
ghost use Rattle.text_names.specs.Place.{place_after, IsPlaceBefore};

/// A name keeps its number, whatever names come later.
pub fn numbers_stay()
    ensures added { (names later : List (List ℕ)) (name : List ℕ) →
        number_of (with_name names name ++ later) name ≡ Some (number_or_next names name) }
    ensures next { (names later : List (List ℕ)) (name : List ℕ) →
        number_or_next (with_name names name ++ later) name ≡ number_or_next names name }
    ensures held { (names later : List (List ℕ)) (name : List ℕ) (number : ℕ) →
        number_of names name ≡ Some number → number_of (names ++ later) name ≡ Some number }
    ensures held_by_more { (names : List (List ℕ)) (other name : List ℕ) (number : ℕ) →
        number_of names name ≡ Some number → number_of (with_name names other) name ≡ Some number }
{}

/// Names that are numbered one after another are distinct.
pub fn names_stay_distinct()
    ensures none { AreDistinct [] }
    ensures more { (names : List (List ℕ)) (name : List ℕ) →
        AreDistinct names → AreDistinct (with_name names name) }
{}

/// Of two offsets in a text the smaller one has the earlier place. Numbers of lines and columns
/// stop at `u64::MAX`, so this is said of a text that fits memory.
pub fn places_ascend()
    ensures { (text : List ℕ) (one other : ℕ) → one < other →
        other ≤ length text → length text < 2 ^ 63 →
        IsUtf8 (take one text) → IsUtf8 (take other text) →
        IsPlaceBefore (place_after (take one text)) (place_after (take other text)) }
{}
