//! Laws on tokens: functions that do nothing and whose contracts are the laws.

ghost use Rattle.std.specs.Prelude.{◌≡◌, ◌≤◌, ◌∷◌, [], ℕ, List, ◌++◌, Option, Result, Ok, Some, All, codes};
ghost use Rattle.std.specs.Str.{encode_utf8_all};
ghost use Rattle.ofn_lex.specs.Forms.{HasForm};
ghost use Rattle.ofn_lex.specs.NextToken.{next_of};
ghost use Rattle.ofn_lex.specs.Texts.{IsNext, IsAnswer, HasTokens, HasReading, IsTokenOf, StandInOrder};
ghost use Rattle.ofn_lex.specs.declared.token.Token.{Token};
ghost use Rattle.ofn_lex.specs.declared.token.LexFault.{LexFault};
ghost use Rattle.ofn_lex.specs.declared.token.TokenKind.{TokenKind};
ghost use Rattle.ofn_lex.specs.declared.token.TokenKind.TheVariants.{Open, FullIri, Lang, Run};

/// A full IRI may be empty; `@` with nothing after it is no language tag, nothing is no run, and after a
/// comment a token begins in the next line.
pub fn least_forms_are_told_apart()
    ensures empty_iri { HasForm FullIri (codes "<>") }
    ensures no_language { HasForm Lang (codes "@") → ⊥ }
    ensures no_run { HasForm Run [] → ⊥ }
    ensures comment { next_of (codes "#)\n(") 0 ≡
        Ok (Some (record { kind = Open; start = 3; end = 4 })) }
{}

/// Two tokens that the same bytes begin with are of one kind.
pub fn first_bytes_tell_the_kind()
    ensures { (one other : TokenKind) (front rest front' rest' : List ℕ) →
        HasForm one front → HasForm other front' → front ++ rest ≡ front' ++ rest' → one ≡ other }
{}

/// What is read is what the format has at that place, and the format has nothing else there: after a
/// gap a token of its form, of which none is longer; or a gap and no more; or a byte that begins no
/// gap and no token.
pub fn what_is_read_is_what_the_format_has()
    ensures found { (text : List ℕ) (from : ℕ) → IsAnswer text from (next_of text from) }
    ensures alone { (text : List ℕ) (from : ℕ) (answer : Result (Option Token) LexFault) →
        IsAnswer text from answer → next_of text from ≡ answer }
{}

/// A text is gaps and tokens in turn, up to its end or a fault, in one way.
pub fn each_text_has_one_list_of_tokens()
    ensures some { (text : List ℕ) (from : ℕ) → HasReading text from }
    ensures one { (text : List ℕ) (from : ℕ)
        (tokens others : List Token) (last other : Option LexFault) →
        HasTokens text from tokens last → HasTokens text from others other →
        (tokens ≡ others) × (last ≡ other) }
{}

/// A token takes up one byte or more of its text, which have the form of its kind. Tokens stand in
/// order, and none overlaps another.
pub fn tokens_have_their_forms()
    ensures next { (text : List ℕ) (from : ℕ) (token : Token) →
        IsNext text from token → (from ≤ token.start) × IsTokenOf text token }
    ensures each { (text : List ℕ) (from : ℕ) (tokens : List Token) (last : Option LexFault) →
        HasTokens text from tokens last → All (IsTokenOf text) tokens }
    ensures in_order { (text : List ℕ) (from : ℕ) (tokens : List Token) (last : Option LexFault) →
        HasTokens text from tokens last → StandInOrder tokens }
{}

/// Characters have a form, with the tests asked of their numbers, if and only if their UTF-8 has it.
pub fn forms_are_the_same_for_characters_and_bytes()
    ensures bytes { (kind : TokenKind) (characters : List ℕ) →
        HasForm kind characters → HasForm kind (encode_utf8_all characters) }
    ensures characters { (kind : TokenKind) (characters : List ℕ) →
        HasForm kind (encode_utf8_all characters) → HasForm kind characters }
{}
