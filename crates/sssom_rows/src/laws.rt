//! Laws on tables: functions that do nothing and whose contracts are the laws.

ghost use Rattle.std.specs.Prelude.{◌≡◌, ℕ, List, [], ◌∷◌, Option, Some, None, Result, codes};
ghost use Rattle.text_names.specs.Prefixes.{Prefixes};
ghost use Rattle.sssom_rows.specs.declared.fault.TableFault.{TableFault};
ghost use Rattle.sssom_rows.specs.declared.table.Table.{Table};
ghost use Rattle.sssom_rows.specs.Columns.{field_under, first_missing, first_twice};
ghost use Rattle.sssom_rows.specs.Ids.{id_in};
ghost use Rattle.sssom_rows.specs.Faults.{IsTableAnswer};
ghost use Rattle.sssom_rows.specs.declared.column.Column.TheVariants.{Object, Confidence};

use rank_order::{decimals_are_read_as_spelled, texts_stand_for_one_confidence};
use sssom_head::{
    header_lines_are_the_front, lines_are_the_text, what_is_read_is_what_the_lines_say,
};

/// Any bytes are the text of one table with so many rows at most, or they have one first fault, and
/// never both.
pub fn bytes_have_one_table_or_first_fault()
    ensures found { (most : ℕ) (bytes : List ℕ) →
        (answer : Result Table TableFault) × IsTableAnswer most bytes answer }
    ensures alone { (most : ℕ) (bytes : List ℕ) (one other : Result Table TableFault) →
        IsTableAnswer most bytes one → IsTableAnswer most bytes other → one ≡ other }
{
    decimals_are_read_as_spelled();
    texts_stand_for_one_confidence();
    what_is_read_is_what_the_lines_say();
    lines_are_the_text();
    header_lines_are_the_front();
}

/// A known prefix is expanded at the first colon, `://` makes an id with another prefix a whole IRI,
/// and an empty id stands for nothing.
pub fn ids_are_told_apart()
    ensures known { id_in ((codes "l", codes "http://l/") ∷ []) (codes "l:a:b")
        ≡ Some (Some (codes "http://l/a:b")) }
    ensures known_with_scheme { id_in ((codes "l", codes "x") ∷ []) (codes "l://a")
        ≡ Some (Some (codes "x//a")) }
    ensures whole { id_in [] (codes "q:a://") ≡ Some (Some (codes "q:a://")) }
    ensures unknown { id_in [] (codes "q:a") ≡ None }
    ensures no_colon { id_in [] (codes "a") ≡ None }
    ensures empty { (prefixes : Prefixes) → id_in prefixes [] ≡ Some None }
{}

/// A field stands under the first column of its name; the missing and the repeated columns are told
/// in the order of the list.
pub fn columns_are_told_apart()
    ensures field { field_under (codes "b") (codes "a" ∷ codes "b" ∷ codes "b" ∷ [])
        (codes "1" ∷ codes "2" ∷ codes "3" ∷ []) ≡ codes "2" }
    ensures no_field { field_under (codes "c") (codes "a" ∷ []) (codes "1" ∷ []) ≡ [] }
    ensures missing { first_missing (codes "predicate_id" ∷ codes "subject_id" ∷ [])
        ≡ Some Object }
    ensures twice { first_twice
        (codes "confidence" ∷ codes "x" ∷ codes "x" ∷ codes "confidence" ∷ [])
        ≡ Some Confidence }
{}
