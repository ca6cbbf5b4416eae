//! Groups, read from the tokens of a text.

ghost use Rattle.std.specs.Prelude.{◌≡◌, ◌≤◌, ◌<◌, ℕ, List, ◌∷◌, ◌++◌, length, true, false, IfOk, IfErr, IfSome, IfNone, None};
ghost use Rattle.ofn_lex.specs.Texts.{HasTokens};
ghost use Rattle.ofn_lex.specs.declared.token.Token.{Token};
ghost use Rattle.ofn_term.specs.Words.{is_open, is_close};
ghost use Rattle.ofn_term.specs.Writing.{Piece, atom, closing, pieces, opening_pieces};
ghost use Rattle.ofn_term.specs.Inside.TokenReading.{Begins};
ghost use Rattle.ofn_term.specs.Inside.PieceReading.{pieces_of, first_open, bracket_fault, IsFaultUnlessMemory, IsOpening, IsReadTo, IsGroupRead};

use crate::tokens::token_from;
use crate::words::{is_close, is_open, is_word};
use crate::{Item, Items, TermFault};
use ofn_lex::Token;
use std::alloc::{AllocError, Global};

// How many brackets may be open at once, how many are open, and where the first of them is.
#[derive(Clone, Copy)]
pub struct Level {
    pub most: u32,
    pub depth: u32,
    pub first: usize,
}

// A bracket that opens a group, with the word before it that is its head.
#[derive(Clone, Copy)]
struct Opening {
    head: Option<Token>,
    bracket: Token,
}

// What a bracket and its partner have between them, where the partner ends, and the token after it.
#[derive(Drop)]
struct Group {
    items: Items,
    end: usize,
    next: Option<Token>,
}

fn first_open(level: Level, start: usize) -> usize
    ensures { result ≡ first_open level.depth level.first start }
{
    if level.depth == 0 {
        return start;
    }
    level.first
}

// The bracket of the group that begins with a token, if one does.
fn opening_of(text: &[u8], token: Token) -> Option<Opening>
    requires { token.end ≤ length text.now }
    ensures none { IfNone result ((behind : List Token) →
        HasTokens text.now token.end behind None → is_close token ≡ false →
        pieces_of text.now (token ∷ behind) ≡ atom token ∷ pieces_of text.now behind) }
    ensures no_bracket { IfNone result (is_open token ≡ false) }
    ensures opens { IfSome result (λ opening. is_open opening.bracket ≡ true) }
    ensures opening { IfSome result (λ opening. (behind : List Token) →
        HasTokens text.now token.end behind None →
        IsOpening text.now token behind opening.head opening.bracket) }
    ensures past { IfSome result (λ opening. token.end ≤ opening.bracket.end) }
    ensures within { IfSome result (λ opening. opening.bracket.end ≤ length text.now) }
{
    if is_open(token) {
        return Some(Opening {
            head: None,
            bracket: token,
        });
    }
    if !is_word(text, token) {
        return None;
    }
    let Some(bracket) = token_from(text, token.end) else {
        return None;
    };
    if !is_open(bracket) {
        return None;
    }
    Some(Opening {
        head: Some(token),
        bracket,
    })
}

#[tactic(auto, using(crate::proofs::Pushing::push_atom))]
fn push_atom(items: &mut Vec<Item>, token: Token) -> Result<(), AllocError>
    ensures { IfOk result (λ _. (rest : List Piece) →
        pieces items.new.items ++ rest ≡ pieces items.old.items ++ atom token ∷ rest) }
{
    items.push(Item::Atom(token))?;
    Ok(())
}

#[tactic(auto, using(crate::proofs::Pushing::push_group))]
fn push_group(
    items: &mut Vec<Item>,
    head: Option<Token>,
    inner: Items,
    start: usize,
    end: usize,
) -> Result<(), AllocError>
    ensures { IfOk result (λ _. (rest : List Piece) → pieces items.new.items ++ rest ≡
        pieces items.old.items ++ (opening_pieces head start ++ (pieces inner ++ closing end ∷ rest))) }
{
    items.push(Item::Group {
        head,
        items: inner,
        start,
        end,
    })?;
    Ok(())
}

// Items with no room for more: most groups have few.
fn without_room(items: Vec<Item>) -> Items
    ensures { result ≡ items.items }
{
    let mut items = items;
    items.shrink_to_fit();
    Items::from_vec(items)
}

#[cycle(groups)]
fn group_at(alloc: Global, text: &[u8], bracket: Token, level: Level) -> Result<Group, TermFault>
    requires open { is_open bracket ≡ true }
    requires within { bracket.end ≤ length text.now }
    ensures read { IfOk result (λ group. (behind : List Token) →
        HasTokens text.now bracket.end behind None →
        IsGroupRead text.now level.most level.depth level.first bracket behind group.items
        group.end group.next) }
    ensures past { IfOk result (λ group. IfSome group.next (λ next. bracket.end < next.end)) }
    ensures within { IfOk result (λ group. IfSome group.next (λ next. next.end ≤ length text.now)) }
    ensures err { IfErr result (λ fault. (behind : List Token) →
        HasTokens text.now bracket.end behind None →
        IsFaultUnlessMemory (bracket_fault level.most level.depth level.first (bracket ∷ behind))
        fault) }
{
    if level.depth >= level.most {
        return Err(TermFault::TooDeep {
            offset: bracket.start,
        });
    }
    let first = first_open(level, bracket.start);
    let inside = Level {
        most: level.most,
        depth: level.depth + 1,
        first,
    };
    let begin = token_from(text, bracket.end);
    let (items, there) = match items_at(alloc, text, begin, inside) {
        Ok(found) => found,
        Err(fault) => return Err(fault),
    };
    let Some(close) = there else {
        return Err(TermFault::Unclosed { offset: first });
    };
    let next = token_from(text, close.end);
    Ok(Group {
        items,
        end: close.end,
        next,
    })
}

// The items from a token on, up to a closing bracket whose partner is before them.
#[cycle(groups)]
pub fn items_at(
    alloc: Global,
    text: &[u8],
    begin: Option<Token>,
    level: Level,
) -> Result<(Items, Option<Token>), TermFault>
    requires { IfSome begin (λ token. token.end ≤ length text.now) }
    ensures read { IfOk result (λ found. (tokens : List Token) →
        Begins text.now begin tokens →
        IsReadTo text.now level.most level.depth level.first tokens found.0 found.1) }
    ensures stops { IfOk result (λ found. IfSome found.1 (λ close. is_close close ≡ true)) }
    ensures past { (n : ℕ) → IfSome begin (λ token. n < token.end) →
        IfOk result (λ found. IfSome found.1 (λ close. n < close.end)) }
    ensures within { IfOk result (λ found. IfSome found.1 (λ close. close.end ≤ length text.now)) }
    ensures err { IfErr result (λ fault. (tokens : List Token) →
        Begins text.now begin tokens →
        IsFaultUnlessMemory (bracket_fault level.most level.depth level.first tokens) fault) }
{
    let mut items = Vec::new(alloc);
    let mut here = begin;
    loop {
        let Some(token) = here else {
            return Ok((without_room(items), None));
        };
        if is_close(token) {
            return Ok((without_room(items), Some(token)));
        }
        let Some(opening) = opening_of(text, token) else {
            push_atom(&mut items, token)?;
            here = token_from(text, token.end);
            continue;
        };
        let bracket = opening.bracket;
        let group = match group_at(alloc, text, bracket, level) {
            Ok(group) => group,
            Err(fault) => return Err(fault),
        };
        push_group(
            &mut items,
            opening.head,
            group.items,
            bracket.start,
            group.end,
        )?;
        here = group.next;
    }
}
