//! The items of a text.

ghost use Rattle.std.specs.Prelude.{◌≡◌, ◌≤◌, List, length, IfOk, IfErr, OnOk, MatchResult, None, All, IsUtf8};
ghost use Rattle.ofn_lex.specs.Texts.{HasTokens};
ghost use Rattle.ofn_lex.specs.declared.token.Token.{Token};
ghost use Rattle.ofn_term.specs.Texts.{HasItems, IsFirstFault, IsOfCharacters, IsAtCharacter};
ghost use Rattle.ofn_term.specs.Writing.{pieces, tokens_of};
ghost use Rattle.ofn_term.specs.Inside.PieceReading.{pieces_of, bracket_fault, IsFaultUnlessMemory};

use crate::groups::{Level, items_at};
use crate::tokens::{check_tokens, token_from};
use crate::{Items, TermFault};
use std::alloc::Global;

/// The items of a whole text in OWL 2 functional-style syntax, with the lenient points that
/// `docs/formats/documents.md` has. A word directly before an opening bracket, white space and
/// comments aside, is the head of the group that the bracket begins; a run that holds a colon is no
/// word.
///
/// `depth` is how many brackets may be open at one place. It is at most 256, so that neither this
/// call nor a drop of what it gives goes deeper.
///
/// A fault of tokens anywhere in the text comes before any fault of brackets. Of these the first
/// from the left is answered, and `Unclosed` only if there is no other. Brackets within quoted
/// texts, full IRIs and comments are none.
pub fn read_items(alloc: Global, text: &[u8], depth: u32) -> Result<Items, TermFault>
    requires { depth ≤ 256 }
    ensures items { IfOk result (HasItems text.now depth) }
    ensures few { IfOk result (λ items. length (tokens_of items) ≤ length text.now) }
    ensures fault { IfErr result (IsFirstFault text.now depth) }
    ensures characters { IsUtf8 text.now →
        MatchResult result (λ items. All (IsOfCharacters text.now) (tokens_of items))
        (IsAtCharacter text.now) }
{
    match check_tokens(text) {
        Ok(()) => {}
        Err(fault) => return Err(fault),
    }
    items_of(alloc, text, depth)
}

// The items of a text that has tokens to its end.
fn items_of(alloc: Global, text: &[u8], depth: u32) -> Result<Items, TermFault>
    ensures pieces { (tokens : List Token) → HasTokens text.now 0 tokens None →
        IfOk result (λ items. pieces_of text.now tokens ≡ pieces items) }
    ensures no_fault { (tokens : List Token) → HasTokens text.now 0 tokens None →
        OnOk result (bracket_fault depth 0 0 tokens ≡ None) }
    ensures fault { (tokens : List Token) → HasTokens text.now 0 tokens None →
        IfErr result (IsFaultUnlessMemory (bracket_fault depth 0 0 tokens)) }
{
    let level = Level {
        most: depth,
        depth: 0,
        first: 0,
    };
    let begin = token_from(text, 0);
    let (items, there) = match items_at(alloc, text, begin, level) {
        Ok(found) => found,
        Err(fault) => return Err(fault),
    };
    let Some(close) = there else {
        return Ok(items);
    };
    Err(TermFault::Unopened {
        offset: close.start,
    })
}

#[cfg(test)]
mod tests {
    use super::*;
    use crate::Item;
    use std::alloc::AllocError;
    use std::test::Fail;

    // Each item after a space: an atom as START..END, a group as its head and then its own bounds
    // and items in brackets.
    fn write_items(alloc: Global, out: &mut String, items: &[Item]) -> Result<(), AllocError> {
        for item in items {
            out.push_str(" ")?;
            match item {
                Item::Atom(token) => write_bounds(alloc, out, token.start, token.end)?,
                Item::Group {
                    head,
                    items,
                    start,
                    end,
                } => {
                    if let Some(head) = head {
                        write_bounds(alloc, out, head.start, head.end)?;
                    }
                    out.push_str("[")?;
                    write_bounds(alloc, out, *start, *end)?;
                    write_items(alloc, out, items.as_slice())?;
                    out.push_str("]")?;
                }
            }
        }
        Ok(())
    }

    fn write_bounds(
        alloc: Global,
        out: &mut String,
        start: usize,
        end: usize,
    ) -> Result<(), AllocError> {
        let bounds = format!(in alloc; "{start}..{end}")?;
        out.push_str(bounds.as_str())
    }

    fn read(alloc: Global, text: &str, depth: u32) -> Result<String, TermFault> {
        let items = read_items(alloc, text.as_bytes(), depth.min(256))?;
        let mut out = String::new(alloc);
        write_items(alloc, &mut out, items.as_slice())?;
        Ok(out)
    }

    #[test]
    fn reads_rows(rt: HostRuntime) -> Result<(), Fail> {
        let alloc = rt.alloc();
        let rows: [(&str, u32, Result<&str, TermFault>); 33] = [
            (
                "Ontology(SubClassOf(<a> ObjectSomeValuesFrom(<r> ObjectSomeValuesFrom(<r> <b>))))",
                4,
                Ok(
                    " 0..8[8..81 9..19[19..80 20..23 24..44[44..79 45..48 49..69[69..78 70..73 74..77]]]]",
                ),
            ),
            (
                "Ontology(SubClassOf(<a> ObjectSomeValuesFrom(<r> ObjectSomeValuesFrom(<r> ObjectSomeValuesFrom(<r> <b>)))))",
                4,
                Err(TermFault::TooDeep { offset: 94 }),
            ),
            (
                "Ontology(SubClassOf(<a> ObjectSomeValuesFrom(<r> <b>)))",
                4,
                Ok(" 0..8[8..55 9..19[19..54 20..23 24..44[44..53 45..48 49..52]]]"),
            ),
            (
                "Ontology(SubClassOf(",
                4,
                Err(TermFault::Unclosed { offset: 8 }),
            ),
            ("Ontology())", 4, Err(TermFault::Unopened { offset: 10 })),
            ("", 4, Ok("")),
            (" # (\n", 4, Ok("")),
            ("Ontology(\"#)", 4, Err(TermFault::Lex { offset: 9 })),
            // A word heads a group, also across white space and comments; nothing else does.
            ("()", 4, Ok(" [0..2]")),
            ("a()", 4, Ok(" 0..1[1..3]")),
            ("a #(\n()", 4, Ok(" 0..1[5..7]")),
            ("é()", 4, Ok(" 0..2[2..4]")),
            ("a b()", 4, Ok(" 0..1 2..3[3..5]")),
            ("a :b()", 4, Ok(" 0..1 2..4 [4..6]")),
            ("a:()", 4, Ok(" 0..2 [2..4]")),
            ("<a>()", 4, Ok(" 0..3 [3..5]")),
            ("\"a\"()", 4, Ok(" 0..3 [3..5]")),
            ("=()", 4, Ok(" 0..1 [1..3]")),
            ("@en()", 4, Ok(" 0..3 [3..5]")),
            ("^^()", 4, Ok(" 0..2 [2..4]")),
            ("a()()", 4, Ok(" 0..1[1..3] [3..5]")),
            ("a(b)c", 4, Ok(" 0..1[1..4 2..3] 4..5")),
            (
                "(a(b c)d())",
                4,
                Ok(" [0..11 1..2[2..7 3..4 5..6] 7..8[8..10]]"),
            ),
            // The first bracket without a partner, and the first of several faults.
            ("(a", 4, Err(TermFault::Unclosed { offset: 0 })),
            ("()(", 4, Err(TermFault::Unclosed { offset: 2 })),
            ("(()(", 4, Err(TermFault::Unclosed { offset: 0 })),
            ("a(()", 4, Err(TermFault::Unclosed { offset: 1 })),
            ("())(", 4, Err(TermFault::Unopened { offset: 2 })),
            ("()()", 1, Ok(" [0..2] [2..4]")),
            ("((", 1, Err(TermFault::TooDeep { offset: 1 })),
            (")((", 1, Err(TermFault::Unopened { offset: 0 })),
            (")\"", 4, Err(TermFault::Lex { offset: 1 })),
            ("((^", 1, Err(TermFault::Lex { offset: 2 })),
        ];
        for (text, depth, wanted) in rows {
            match read(alloc, text, depth) {
                Ok(items) => assert_eq!(rt; Ok(items.as_str()), wanted, "{text}"),
                Err(fault) => assert_eq!(rt; Err(fault), wanted, "{text}"),
            }
        }
        Ok(())
    }

    // A front, and then the same part many times.
    fn made_text(
        alloc: Global,
        front: &str,
        part: &str,
        times: u32,
    ) -> Result<Vec<u8>, AllocError> {
        let mut text = Vec::from_slice(alloc, front.as_bytes())?;
        for _ in 0..times {
            text.extend_from_slice(part.as_bytes())?;
        }
        Ok(text)
    }

    #[test]
    fn reads_many_brackets(rt: HostRuntime) -> Result<(), Fail> {
        let alloc = rt.alloc();
        let nest = "(((((((((((((((((((((((((((((((())))))))))))))))))))))))))))))))";
        let rows: [(&str, &str, u32, u32, Result<usize, TermFault>); 8] = [
            (
                "Ontology(",
                "(",
                256,
                256,
                Err(TermFault::TooDeep { offset: 264 }),
            ),
            (
                "Ontology(",
                "(",
                255,
                256,
                Err(TermFault::Unclosed { offset: 8 }),
            ),
            (
                "",
                "(",
                1_000_000,
                256,
                Err(TermFault::TooDeep { offset: 256 }),
            ),
            (
                "",
                ")",
                1_000_000,
                256,
                Err(TermFault::Unopened { offset: 0 }),
            ),
            ("", "()", 500_000, 1, Ok(500_000)),
            ("", "()", 500_000, 256, Ok(500_000)),
            ("", nest, 15_625, 32, Ok(15_625)),
            ("", nest, 15_625, 31, Err(TermFault::TooDeep { offset: 31 })),
        ];
        for (front, part, times, depth, wanted) in rows {
            let text = made_text(alloc, front, part, times)?;
            let answer = read_items(alloc, text.as_slice(), depth.min(256));
            assert_eq!(rt; answer.map(|items| items.len()), wanted, "{front} {part}");
        }
        Ok(())
    }
}
