//! Laws on confidences and their order: functions that do nothing and whose contracts are the laws.

ghost use Rattle.std.specs.Prelude.{◌≡◌, ◌↔◌, ◌<◌, ℕ, List, [], ◌∷◌, Some, IsTrue, length, map, slice_index, codes, ◌*◌, ◌^◌};
ghost use Rattle.rank_order.specs.Decimal.{Decimal, IsDecimal, decimal_text, IsConfidence};
ghost use Rattle.rank_order.specs.DecimalTexts.{decimal_of};
ghost use Rattle.rank_order.specs.Order.{IsBefore, is_before, rank_of, IsRanking};
ghost use Rattle.rank_order.specs.declared.order.RankKey.{RankKey};

/// A text stands for one confidence at most.
pub fn texts_stand_for_one_confidence()
    ensures { (text : List ℕ) (units other : ℕ) →
        IsConfidence text units → IsConfidence text other → units ≡ other }
{}

/// A text is read as a decimal number if and only if it is spelled as that number.
pub fn decimals_are_read_as_spelled()
    ensures read { (decimal : Decimal) → IsDecimal decimal →
        decimal_of (decimal_text decimal) ≡ Some decimal }
    ensures spelled { (text : List ℕ) (decimal : Decimal) → decimal_of text ≡ Some decimal →
        IsDecimal decimal × (text ≡ decimal_text decimal) }
{}

/// Rows in order of rank and ranks of rows are each other's inverse.
pub fn ranking_lists_by_rank()
    ensures rank_of_place { (confidences rows : List ℕ) (place : ℕ) →
        IsRanking confidences rows → place < length rows →
        rank_of confidences (slice_index rows place) ≡ place }
    ensures row_of_rank { (confidences rows : List ℕ) (row : ℕ) →
        IsRanking confidences rows → row < length confidences →
        slice_index rows (rank_of confidences row) ≡ row }
{}

/// A ranking has as many rows as there are confidences, each of them below that number, and none
/// twice.
pub fn ranking_has_each_row_once()
    ensures count { (confidences rows : List ℕ) → IsRanking confidences rows →
        length rows ≡ length confidences }
    ensures within { (confidences rows : List ℕ) (place : ℕ) → IsRanking confidences rows →
        place < length rows → slice_index rows place < length confidences }
    ensures once { (confidences rows : List ℕ) (one other : ℕ) → IsRanking confidences rows →
        one < length rows → other < length rows →
        slice_index rows one ≡ slice_index rows other → one ≡ other }
{}

/// The ranks of rows 0, 1, 2: the greater confidence first, and at equal confidence the earlier
/// row.
pub fn ranks_of_three_rows()
    ensures in_order { map (rank_of (9 ∷ 8 ∷ 8 ∷ [])) (0 ∷ 1 ∷ 2 ∷ []) ≡ 0 ∷ 1 ∷ 2 ∷ [] }
    ensures second_first { map (rank_of (8 ∷ 9 ∷ 8 ∷ [])) (0 ∷ 1 ∷ 2 ∷ []) ≡ 1 ∷ 0 ∷ 2 ∷ [] }
{}

/// At equal confidence the smaller row stands before, and no row stands before itself.
pub fn equal_confidence_goes_by_row()
    ensures { (a b : RankKey) → a.confidence ≡ b.confidence → IsBefore a b ↔ (a.row < b.row) }
{}

/// The test by which ranks are counted answers yes if and only if the row stands before the other.
pub fn before_is_tested()
    ensures { (a b : RankKey) → IsTrue (is_before a b) ↔ IsBefore a b }
{}

/// `1e-36` is one unit, and `10e-1` is 1; `1e-37` is no whole number of units, `1.01` is above 1,
/// and a sign may stand only in the exponent.
pub fn confidences_of_small_texts()
    ensures one_unit { IsConfidence (codes "1e-36") 1 }
    ensures one { IsConfidence (codes "10e-1") (10 ^ 36) }
    ensures half { IsConfidence (codes ".5") (5 * 10 ^ 35) }
    ensures too_fine { (units : ℕ) → IsConfidence (codes "1e-37") units → ⊥ }
    ensures too_large { (units : ℕ) → IsConfidence (codes "1.01") units → ⊥ }
    ensures no_sign { (units : ℕ) → IsConfidence (codes "+0.5") units → ⊥ }
{}
