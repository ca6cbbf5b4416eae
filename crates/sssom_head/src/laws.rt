//! Laws on headers: functions that do nothing and whose contracts are the laws.

ghost use Rattle.std.specs.Prelude.{◌≡◌, ℕ, List, [], ◌∷◌, ◌++◌, true, false, Some, None, if◌then◌else◌, codes, take, drop};
ghost use Rattle.std.specs.List.{AllByRecursion, concat};
ghost use Rattle.text_names.specs.Prefixes.{Prefixes, iri_of, is_declared};
ghost use Rattle.sssom_head.specs.BuiltIn.{built_in, with_built_in};
ghost use Rattle.sssom_head.specs.Contents.{is_blank, map_text, is_empty_map};
ghost use Rattle.sssom_head.specs.Entries.{IsEntry};
ghost use Rattle.sssom_head.specs.Headers.{IsReading};
ghost use Rattle.sssom_head.specs.Lines.{lines_of, header_lines, bytes_in, begins_with_hash, contents_of, trimmed, AreLines, IsTrimmed};
ghost use Rattle.sssom_head.specs.HeaderSteps.{Answer, entry_in, run, start};

/// What is read line by line is what the lines say, and they say nothing else: no line is wrong and
/// the map has these entries, or this line is the first that is wrong.
pub fn what_is_read_is_what_the_lines_say()
    ensures found { (lines : List (List ℕ)) → IsReading lines (run 1 start lines) }
    ensures alone { (lines : List (List ℕ)) (answer : Answer) →
        IsReading lines answer → run 1 start lines ≡ answer }
{}

/// The lines of a text, one after another, are the text. Each ends with its only line feed, but the
/// last may have none; and no other lines are so.
pub fn lines_are_the_text()
    ensures joined { (text : List ℕ) → concat (lines_of text) ≡ text }
    ensures form { (text : List ℕ) → AreLines (lines_of text) }
    ensures alone { (lines : List (List ℕ)) → AreLines lines → lines_of (concat lines) ≡ lines }
{}

/// The header lines are the front of the text with as many bytes. Each begins with `#`; what
/// follows does not, and has the other lines of the text.
pub fn header_lines_are_the_front()
    ensures front { (text : List ℕ) →
        concat (header_lines text) ≡ take (bytes_in (header_lines text)) text }
    ensures marked { (text : List ℕ) →
        AllByRecursion (λ line. begins_with_hash line ≡ true) (header_lines text) }
    ensures rest { (text : List ℕ) →
        begins_with_hash (drop (bytes_in (header_lines text)) text) ≡ false }
    ensures lines { (text : List ℕ) →
        lines_of text ≡ header_lines text ++ lines_of (drop (bytes_in (header_lines text)) text) }
{}

/// Of a trimmed text only spaces and tabs at its end are missing, and all of these.
pub fn trimmed_text_ends_visibly()
    ensures { (text : List ℕ) → IsTrimmed text (trimmed text) }
{}

/// A line is an entry with one key and one value at most.
pub fn one_entry_at_most()
    ensures { (content key value other_key other : List ℕ) → IsEntry content key value →
        IsEntry content other_key other → (key ≡ other_key) × (value ≡ other) }
{}

/// An entry of the header takes precedence over a built-in prefix.
pub fn header_prefixes_win()
    ensures { (entries : Prefixes) (prefix : List ℕ) → iri_of (with_built_in entries) prefix ≡
        (if is_declared entries prefix then iri_of entries prefix else iri_of built_in prefix) }
{}

/// A carriage return before a line feed, and spaces and tabs before that, are no part of a content;
/// a map begins after one space at most; a comment needs a space before it, and a colon one after
/// it.
pub fn contents_are_told_apart()
    ensures contents { contents_of (codes "#a \t\r\n#\n#b\rx\t\nc\n#d\n") ≡
        codes "a" ∷ [] ∷ codes "b\rx" ∷ [] }
    ensures blank { is_blank (codes "  # x") ≡ true }
    ensures not_blank { is_blank (codes "\t# x") ≡ false }
    ensures map { map_text (codes " curie_map: {}") ≡ Some (codes " {}") }
    ensures no_map { map_text (codes "  curie_map:") ≡ None }
    ensures braces { is_empty_map (codes " {}") ≡ true }
    ensures entry { entry_in (codes "l:  http://l/#a # c") ≡ Some (codes "l", codes "http://l/#a") }
    ensures quoted { entry_in (codes "'a b': \"\"") ≡ Some (codes "a b", []) }
    ensures no_space { entry_in (codes "l:a") ≡ None }
    ensures no_comment { entry_in (codes "l: 'a'# c") ≡ None }
    ensures escape { entry_in (codes "l: \"\\\"") ≡ None }
{}
