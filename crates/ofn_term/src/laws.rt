//! Laws on items: functions that do nothing for a caller, and whose contracts are the laws.

ghost use Rattle.std.specs.Prelude.{◌≡◌, ◌≤◌, ℕ, length, Option, List, [], ◌∷◌, ◌++◌, true, codes, Some, None, All};
ghost use Rattle.ofn_lex.specs.declared.token.Token.{Token};
ghost use Rattle.ofn_lex.specs.declared.token.TokenKind.TheVariants.{Open, Close, Run};
ghost use Rattle.ofn_lex.specs.Texts.{IsTokenOf, StandInOrder};
ghost use Rattle.ofn_term.specs.Brackets.{StayWithin, HasPartner, IsUnopened, IsUnclosed, IsTooDeep};
ghost use Rattle.ofn_term.specs.Words.{is_open};
ghost use Rattle.ofn_term.specs.Texts.{HasItems, HasFault, HasAnswer};
ghost use Rattle.ofn_term.specs.Writing.{bracket, atom, group_pieces, pieces, tokens_of, StandFor};
ghost use Rattle.ofn_term.specs.declared.fault.TermFault.{TermFault};
ghost use Rattle.ofn_term.specs.declared.item.Item.{Item};
ghost use Rattle.ofn_term.specs.declared.item.Item.TheVariants.{Atom, Group};

use ofn_lex::{each_text_has_one_list_of_tokens, tokens_have_their_forms};

/// Items are written out one after another, a group with its head, its brackets and what is between
/// them. Each gives a token at least.
pub fn items_are_written_out()
    ensures none { pieces [] ≡ [] }
    ensures atom { (token : Token) (items : List Item) →
        pieces (Atom token ∷ items) ≡ atom token ∷ pieces items }
    ensures group { (word : Option Token) (inner : List Item) (start end : ℕ) (items : List Item) →
        pieces (Group word inner start end ∷ items) ≡
        group_pieces word (pieces inner) start end ++ pieces items }
    ensures few { (items : List Item) → length items ≤ length (tokens_of items) }
{}

/// In `a()` the word heads the group; an abbreviated IRI stands before one without a head, and no
/// bracket is an atom.
pub fn heads_are_told_from_atoms()
    ensures word { let word : Token = record { kind = Run; start = 0; end = 1 } in
        let tokens = word ∷ bracket Open 1 ∷ bracket Close 2 ∷ [] in
        StandFor (codes "a()") (Group (Some word) [] 1 3 ∷ []) tokens ×
        (StandFor (codes "a()") (Atom word ∷ Group None [] 1 3 ∷ []) tokens → ⊥) }
    ensures iri { let iri : Token = record { kind = Run; start = 0; end = 1 } in
        let tokens = iri ∷ bracket Open 1 ∷ bracket Close 2 ∷ [] in
        StandFor (codes ":()") (Atom iri ∷ Group None [] 1 3 ∷ []) tokens ×
        (StandFor (codes ":()") (Group (Some iri) [] 1 3 ∷ []) tokens → ⊥) }
    ensures no_bracket { (text : List ℕ) (tokens : List Token) →
        StandFor text (Atom (bracket Open 0) ∷ Atom (bracket Close 1) ∷ []) tokens → ⊥ }
{}

/// Of `(()` the first bracket has no partner, and of `())` the last. If one may be open, `((` is
/// too deep at the second bracket, whatever follows.
pub fn faults_of_brackets_are_told_apart()
    ensures unclosed { let tokens = bracket Open 0 ∷ bracket Open 1 ∷ bracket Close 2 ∷ [] in
        IsUnclosed 2 tokens 0 × (IsUnclosed 2 tokens 1 → ⊥) }
    ensures unopened { IsUnopened 1 (bracket Open 0 ∷ bracket Close 1 ∷ bracket Close 2 ∷ []) 2 }
    ensures too_deep { (rest : List Token) →
        IsTooDeep 1 (bracket Open 0 ∷ bracket Open 1 ∷ rest) 1 }
    ensures within { StayWithin 1
        (bracket Open 0 ∷ bracket Close 1 ∷ bracket Open 2 ∷ bracket Close 3 ∷ []) }
{}

/// The bracket that is answered as `Unclosed` has no partner, and each opening one before it has
/// one.
pub fn unclosed_is_the_first_without_a_partner()
    ensures none { (most : ℕ) (tokens : List Token) (offset : ℕ)
        (unclosed : IsUnclosed most tokens offset) → HasPartner unclosed.bracket_at.rest → ⊥ }
    ensures earlier { (most : ℕ) (tokens : List Token) (offset : ℕ)
        (unclosed : IsUnclosed most tokens offset)
        (front : List Token) (bracket : Token) (behind : List Token) →
        unclosed.bracket_at.front ≡ front ++ bracket ∷ behind →
        is_open bracket ≡ true → HasPartner behind }
{}

/// Each token of a text's items takes up one byte or more of the text, which have the form of its
/// kind. The tokens stand in order, and none overlaps another.
pub fn tokens_of_items_have_their_forms()
    ensures each { (text : List ℕ) (most : ℕ) (items : List Item) →
        HasItems text most items → All (IsTokenOf text) (tokens_of items) }
    ensures in_order { (text : List ℕ) (most : ℕ) (items : List Item) →
        HasItems text most items → StandInOrder (tokens_of items) }
{
    tokens_have_their_forms();
}

/// Tokens have one list of items at most.
pub fn tokens_have_one_list_of_items()
    ensures { (text : List ℕ) (items others : List Item) (tokens : List Token) →
        StandFor text items tokens → StandFor text others tokens → items ≡ others }
{}

/// A text has items or a first fault, never both, and no two of either.
pub fn each_text_has_items_or_one_first_fault()
    ensures some { (text : List ℕ) (most : ℕ) → HasAnswer text most }
    ensures never_both { (text : List ℕ) (most : ℕ) (items : List Item) (fault : TermFault) →
        HasItems text most items → HasFault text most fault → ⊥ }
    ensures one_list { (text : List ℕ) (most : ℕ) (items others : List Item) →
        HasItems text most items → HasItems text most others → items ≡ others }
    ensures one_fault { (text : List ℕ) (most : ℕ) (fault other : TermFault) →
        HasFault text most fault → HasFault text most other → fault ≡ other }
{
    each_text_has_one_list_of_tokens();
}
