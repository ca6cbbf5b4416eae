//! Laws on heads and pieces of texts: functions that do nothing and whose contracts are the laws.

ghost use Rattle.std.specs.Prelude.{◌≡◌, ◌≢◌, ◌≤◌, ℕ, List, Some, IsUtf8, length, slice_range};
ghost use Rattle.std.specs.Str.{IsCharBoundary};
ghost use Rattle.ofn_heads.specs.Heads.{name_of, word_of, id_named, head_of};
ghost use Rattle.ofn_heads.specs.Names.{piece};
ghost use Rattle.ofn_heads.specs.declared.outside.HeadId.{HeadId};
ghost use Rattle.ofn_heads.specs.declared.head.Head.{Head};
ghost use Rattle.ofn_heads.specs.declared.head.Head.TheVariants.{Other};

/// Each head outside the fragment is found by its name, and by no other. So no two have the same.
pub fn names_of_heads_are_told_apart()
    ensures found { (id : HeadId) → id_named (name_of id) ≡ Some id }
    ensures named { (name : List ℕ) (id : HeadId) → id_named name ≡ Some id → name ≡ name_of id }
{}

/// Each head in the table is found by its word, and by no other.
pub fn heads_are_found_by_their_words()
    ensures found { (head : Head) → head ≢ Other → head_of (word_of head) ≡ head }
    ensures word { (word : List ℕ) (head : Head) → head_of word ≡ head → head ≢ Other →
        word ≡ word_of head }
{}

/// In UTF-8 what is between two offsets at characters is what the text has there.
pub fn pieces_are_of_the_text()
    ensures { (text : List ℕ) (start end : ℕ) → IsUtf8 text → start ≤ end →
        IsCharBoundary text start → IsCharBoundary text end →
        piece text start end ≡ slice_range text start end }
{}
