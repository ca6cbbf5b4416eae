//! Laws on lines and numbers: functions that do nothing and whose contracts are the laws.

ghost use Rattle.std.specs.Prelude.{◌≡◌, ◌≢◌, ◌<◌, ◌^◌, ◌++◌, ℕ, List, [], Some, decimal};
ghost use Rattle.std.specs.List.{AllByRecursion};
ghost use Rattle.line_fields.specs.Numbers.{long_number, short_number};
ghost use Rattle.line_fields.specs.Lines.{Fields, text_of, IsField, IsLine};
ghost use Rattle.line_fields.specs.Reading.{lines_of};

/// A field is read as a number exactly if it is the number in decimal.
pub fn numbers_are_decimal()
    ensures long { (field : List ℕ) (n : ℕ) →
        long_number field ≡ Some n → (field ≡ decimal n) × (n < 2 ^ 64) }
    ensures long_again { (n : ℕ) → n < 2 ^ 64 → long_number (decimal n) ≡ Some n }
    ensures short { (field : List ℕ) (n : ℕ) →
        short_number field ≡ Some n → (field ≡ decimal n) × (n < 2 ^ 32) }
    ensures short_again { (n : ℕ) → n < 2 ^ 32 → short_number (decimal n) ≡ Some n }
    ensures field { (n : ℕ) → n < 2 ^ 64 → IsField (decimal n) }
{}

/// Lines are read as they are written, whatever follows them; and a text all lines of which have
/// fields is what these lines are written as.
pub fn lines_are_what_is_written()
    ensures again { (lines : List Fields) (rest : List ℕ) → AllByRecursion IsLine lines →
        lines_of (text_of lines ++ rest) ≡ lines ++ lines_of rest }
    ensures back { (text : List ℕ) → AllByRecursion (λ fields. fields ≢ []) (lines_of text) →
        text ≡ text_of (lines_of text) }
{}
