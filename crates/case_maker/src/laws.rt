//! Laws on the definitions: functions that do nothing and whose contracts are the laws.

ghost use Rattle.std.specs.Prelude.{◌≡◌, ◌≤◌, ◌<◌, ◌^◌, ℕ, ◌+◌, List, [], ◌++◌, length};
ghost use Rattle.case_maker.specs.MadeCase.{lines_for, left_text, right_text, table_text};

/// The lines for the numbers from 1 to a count stand one after another, in this order.
pub fn lines_follow_their_numbers()
    ensures none { (line : ℕ → List ℕ) → lines_for line 0 ≡ [] }
    ensures more { (line : ℕ → List ℕ) (count : ℕ)
        → lines_for line (count + 1) ≡ lines_for line count ++ line (count + 1) }
{}

/// The texts have fewer than 2^31 bytes.
pub fn made_texts_are_short()
    ensures left { (n : ℕ) → n ≤ 10000 → length (left_text n) < 2 ^ 31 }
    ensures right { (n : ℕ) → n ≤ 10000 → length (right_text n) < 2 ^ 31 }
    ensures table { (n : ℕ) → n ≤ 10000 → length (table_text n) < 2 ^ 31 }
{}
