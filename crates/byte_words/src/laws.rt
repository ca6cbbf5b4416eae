//! Laws on fronts: functions that do nothing and whose contracts are the laws.

ghost use Rattle.std.specs.Prelude.{◌≡◌, ◌≢◌, ◌++◌, ℕ, List, Some, None};
ghost use Rattle.byte_words.specs.Fronts.{without_front, byte_order_mark, without_mark};

/// What follows a front is what the text has after it, and nothing if the text does not begin so.
pub fn fronts_are_left_out()
    ensures found { (front rest : List ℕ) → without_front front (front ++ rest) ≡ Some rest }
    ensures whole { (front text rest : List ℕ) →
        without_front front text ≡ Some rest → text ≡ front ++ rest }
    ensures missing { (front text rest : List ℕ) →
        without_front front text ≡ None → text ≢ front ++ rest }
{}

/// A byte order mark at the start is left out, and nothing else.
pub fn one_mark_is_left_out()
    ensures mark { (text : List ℕ) → without_mark (byte_order_mark ++ text) ≡ text }
    ensures other { (text : List ℕ) →
        ((rest : List ℕ) → text ≢ byte_order_mark ++ rest) → without_mark text ≡ text }
{}
